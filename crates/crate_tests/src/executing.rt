//! Results that the manual's tables and plain arithmetic give.

use rv_decode::Op;
use rv_exec::{alu, branch, cost};

#[test]
fn computes_results(rt: HostRuntime) {
    for &(op, a, b, result) in &[
        (Op::Div, 0x8000_0000, 0xffff_ffff, 0x8000_0000),
        (Op::Rem, 0x8000_0000, 0xffff_ffff, 0),
        (Op::Div, 0x8000_0000, 0, 0xffff_ffff),
        (Op::Rem, 0x8000_0000, 0, 0x8000_0000),
        (Op::Mulhu, 0xffff_ffff, 0xffff_ffff, 0xffff_fffe),
        (Op::Mulh, 0x8000_0000, 0x8000_0000, 0x4000_0000),
        (Op::Mulhsu, 0xffff_ffff, 0xffff_ffff, 0xffff_ffff),
        (Op::Div, 0xffff_fff9, 2, 0xffff_fffd),
        (Op::Rem, 0xffff_fff9, 2, 0xffff_ffff),
        (Op::Divu, 7, 0, 0xffff_ffff),
        (Op::Remu, 7, 0, 7),
        (Op::Srai, 0x8000_0000, 36, 0xf800_0000),
        (Op::Slti, 0xffff_ffff, 0, 1),
        (Op::Sltiu, 0xffff_ffff, 0, 0),
        (Op::Sub, 0, 1, 0xffff_ffff),
    ] {
        assert!(&rt; alu(op, a, b) == result, "{op:?} of {a:08x} and {b:08x}");
    }
}

#[test]
fn takes_branches_and_counts_cycles(rt: HostRuntime) {
    for &(op, a, b, taken) in &[
        (Op::Blt, 0xffff_ffff, 0, true),
        (Op::Bltu, 0xffff_ffff, 0, false),
        (Op::Bge, 5, 5, true),
        (Op::Bne, 5, 5, false),
    ] {
        assert!(&rt; branch(op, a, b) == taken, "{op:?} of {a:08x} and {b:08x}");
        assert!(&rt; cost(op, 0, taken) == if taken { 6 } else { 3 }, "{op:?}");
    }
    for &(op, amount, cycles) in &[
        (Op::Auipc, 0, 2),
        (Op::Srai, 31, 34),
        (Op::Remu, 0, 36),
        (Op::Jalr, 0, 6),
        (Op::Ecall, 0, 6),
        (Op::Lbu, 0, 5),
        (Op::Csrrci, 0, 3),
        (Op::Wfi, 0, 3),
    ] {
        assert!(&rt; cost(op, amount, false) == cycles, "{op:?}");
    }
}

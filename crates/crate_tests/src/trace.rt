//! Lines of reports and traces. The texts of instructions are those of a disassembler without its short forms, in the marks of a trace.

use bench_shelf::{MemSink, SinkFault};
use chip_base::{Event, EventKind, HartView, IssueRecord, PhaseWord};
use std::alloc::{AllocError, Global};
use std::process::Abort;
use trace_text::{RowKind, event_line, hart_lines, row_line, trace_line};

/// An empty sink that fails at no call.
fn sink(alloc: Global) -> MemSink {
    MemSink::new(alloc, Vec::new(alloc))
}

/// The line of a word that hart 1 issued in cycle 18 ends in this text, which begins with its pc.
fn traces(rt: &impl Abort, alloc: Global, pc: u32, word: u32, text: &str) {
    let issue = IssueRecord {
        cycle: 18,
        hart: 1,
        pc,
        word,
    };
    let mut sink = sink(alloc);
    let told = trace_line(&issue, &mut sink).is_ok();
    let line = sink.bytes();
    let begins = line.starts_with(b"trace 18 1 ");
    let ends = line.ends_with(text.as_bytes());
    let fits = line.len() == text.len().saturating_add(11);
    assert!(rt; told && begins && ends && fits, "at {word:08x}");
}

#[test]
fn traces_words(rt: HostRuntime) {
    for &(pc, word, text) in &[
        (
            0x0000_0000,
            0x0073_02b3,
            "00000000 007302b3 add x5, x6, x7\n",
        ),
        (
            0x0000_0000,
            0x02b5_2533,
            "00000000 02b52533 mulhsu x10, x10, x11\n",
        ),
        (
            0x0000_0000,
            0x41ff_0fb3,
            "00000000 41ff0fb3 sub x31, x30, x31\n",
        ),
        (
            0x0000_0000,
            0x0050_0093,
            "00000000 00500093 addi x1, x0, 5\n",
        ),
        (
            0x0000_0100,
            0xfd01_0113,
            "00000100 fd010113 addi x2, x2, -48\n",
        ),
        (
            0x0000_0000,
            0x8000_0013,
            "00000000 80000013 addi x0, x0, -2048\n",
        ),
        (
            0x0000_0000,
            0x7ff0_0f93,
            "00000000 7ff00f93 addi x31, x0, 2047\n",
        ),
        (
            0x0000_0000,
            0xfff4_f493,
            "00000000 fff4f493 andi x9, x9, -1\n",
        ),
        (
            0x0000_0000,
            0x4047_d793,
            "00000000 4047d793 srai x15, x15, 4\n",
        ),
        (
            0x0000_0000,
            0x01f0_9093,
            "00000000 01f09093 slli x1, x1, 31\n",
        ),
        (
            0x0000_0000,
            0x0047_a703,
            "00000000 0047a703 lw x14, 4(x15)\n",
        ),
        (
            0x0000_0000,
            0xfff0_0003,
            "00000000 fff00003 lb x0, -1(x0)\n",
        ),
        (
            0x0000_0000,
            0x8000_80e7,
            "00000000 800080e7 jalr x1, -2048(x1)\n",
        ),
        (
            0x0000_0000,
            0x0000_8067,
            "00000000 00008067 jalr x0, 0(x1)\n",
        ),
        (
            0x0000_0000,
            0xfe84_2623,
            "00000000 fe842623 sw x8, -20(x8)\n",
        ),
        (
            0x0000_0000,
            0x0011_2e23,
            "00000000 00112e23 sw x1, 28(x2)\n",
        ),
        (
            0x0000_0000,
            0x80b2_8023,
            "00000000 80b28023 sb x11, -2048(x5)\n",
        ),
        (
            0x0000_0014,
            0xfe31_1ae3,
            "00000014 fe311ae3 bne x2, x3, 00000008\n",
        ),
        (
            0x8000_0ffc,
            0x0020_8463,
            "80000ffc 00208463 beq x1, x2, 80001004\n",
        ),
        (
            0x0000_0004,
            0x8000_0063,
            "00000004 80000063 beq x0, x0, fffff004\n",
        ),
        (
            0x0000_000c,
            0x0000_006f,
            "0000000c 0000006f jal x0, 0000000c\n",
        ),
        (
            0x8000_0000,
            0x0010_00ef,
            "80000000 001000ef jal x1, 80000800\n",
        ),
        (
            0x0000_0000,
            0xffff_f06f,
            "00000000 fffff06f jal x0, fffffffe\n",
        ),
        (
            0xffff_fffc,
            0x0080_006f,
            "fffffffc 0080006f jal x0, 00000004\n",
        ),
        (
            0x0000_0000,
            0x1234_5097,
            "00000000 12345097 auipc x1, 12345\n",
        ),
        (
            0x0000_0000,
            0xffff_f0b7,
            "00000000 fffff0b7 lui x1, fffff\n",
        ),
        (
            0x0000_0000,
            0x0000_1fb7,
            "00000000 00001fb7 lui x31, 00001\n",
        ),
        (
            0x0000_0000,
            0xf140_2573,
            "00000000 f1402573 csrrs x10, f14, x0\n",
        ),
        (
            0x0000_0000,
            0x3007_9073,
            "00000000 30079073 csrrw x0, 300, x15\n",
        ),
        (
            0x0000_0000,
            0x0030_b0f3,
            "00000000 0030b0f3 csrrc x1, 003, x1\n",
        ),
        (
            0x0000_0000,
            0x3058_d073,
            "00000000 3058d073 csrrwi x0, 305, 17\n",
        ),
        (
            0x0000_0000,
            0x3044_6073,
            "00000000 30446073 csrrsi x0, 304, 8\n",
        ),
        (
            0x0000_0000,
            0x3447_f873,
            "00000000 3447f873 csrrci x16, 344, 15\n",
        ),
        (0x0000_0000, 0x0000_0073, "00000000 00000073 ecall\n"),
        (0x0000_0000, 0x0010_0073, "00000000 00100073 ebreak\n"),
        (0x0000_0000, 0x3020_0073, "00000000 30200073 mret\n"),
        (0x0000_0000, 0x1050_0073, "00000000 10500073 wfi\n"),
        (0x0000_0000, 0x0000_100f, "00000000 0000100f fence.i\n"),
        (0x0000_0000, 0x0ff0_000f, "00000000 0ff0000f fence\n"),
        (0x0000_0000, 0xffff_ffff, "00000000 ffffffff illegal\n"),
        (0x0000_0000, 0x0000_3023, "00000000 00003023 illegal\n"),
        (0x0000_0000, 0x0205_1513, "00000000 02051513 illegal\n"),
        (0x0000_0000, 0x0020_0073, "00000000 00200073 illegal\n"),
    ] {
        traces(&rt, rt.alloc(), pc, word, text);
    }
}

#[test]
fn traces_parcels(rt: HostRuntime) {
    for &(pc, word, text) in &[
        (0x0000_0100, 0x0000_0001, "00000100 0001 addi x0, x0, 0\n"),
        (0x0000_0100, 0x0000_557d, "00000100 557d addi x10, x0, -1\n"),
        (0x0000_0100, 0x0000_1141, "00000100 1141 addi x2, x2, -16\n"),
        (0x0000_0100, 0x0000_7139, "00000100 7139 addi x2, x2, -64\n"),
        (0x0000_0100, 0x0000_0808, "00000100 0808 addi x10, x2, 16\n"),
        (0x0000_0100, 0x0000_4190, "00000100 4190 lw x12, 0(x11)\n"),
        (0x0000_0100, 0x0000_c190, "00000100 c190 sw x12, 0(x11)\n"),
        (0x0000_0100, 0x0000_2001, "00000100 2001 jal x1, 00000100\n"),
        (0x0000_0100, 0x0000_bffd, "00000100 bffd jal x0, 000000fe\n"),
        (
            0x0000_0100,
            0x0000_dfe5,
            "00000100 dfe5 beq x15, x0, 000000f8\n",
        ),
        (
            0x0000_0100,
            0x0000_e001,
            "00000100 e001 bne x8, x0, 00000100\n",
        ),
        (0x0000_0100, 0x0000_77fd, "00000100 77fd lui x15, fffff\n"),
        (0x0000_0100, 0x0000_8005, "00000100 8005 srli x8, x8, 1\n"),
        (0x0000_0100, 0x0000_8585, "00000100 8585 srai x11, x11, 1\n"),
        (0x0000_0100, 0x0000_98f1, "00000100 98f1 andi x9, x9, -4\n"),
        (0x0000_0100, 0x0000_8c05, "00000100 8c05 sub x8, x8, x9\n"),
        (0x0000_0100, 0x0000_0506, "00000100 0506 slli x10, x10, 1\n"),
        (0x0000_0100, 0x0000_4502, "00000100 4502 lw x10, 0(x2)\n"),
        (0x0000_0100, 0x0000_8082, "00000100 8082 jalr x0, 0(x1)\n"),
        (0x0000_0100, 0x0000_9002, "00000100 9002 ebreak\n"),
        (0x0000_0100, 0x0000_9082, "00000100 9082 jalr x1, 0(x1)\n"),
        (0x0000_0100, 0x0000_852e, "00000100 852e add x10, x0, x11\n"),
        (
            0x0000_0100,
            0x0000_95b2,
            "00000100 95b2 add x11, x11, x12\n",
        ),
        (0x0000_0100, 0x0000_c62a, "00000100 c62a sw x10, 12(x2)\n"),
        (0x0000_0100, 0x0000_0000, "00000100 0000 illegal\n"),
        (0x0000_0100, 0x0000_9c01, "00000100 9c01 illegal\n"),
        (0x0000_0100, 0x0000_8002, "00000100 8002 illegal\n"),
        (0x0000_0100, 0x0000_4002, "00000100 4002 illegal\n"),
    ] {
        traces(&rt, rt.alloc(), pc, word, text);
    }
}

#[test]
fn the_longest_trace_fits(rt: HostRuntime) {
    let issue = IssueRecord {
        cycle: u64::MAX,
        hart: 255,
        pc: 0xffff_ffff,
        word: 0x800f_ff93,
    };
    let mut sink = sink(rt.alloc());
    assert!(&rt; trace_line(&issue, &mut sink).is_ok());
    let text = b"trace 18446744073709551615 255 ffffffff 800fff93 andi x31, x31, -2048\n";
    assert!(&rt; sink.bytes() == text.as_slice());
}

/// Whether an event has this line.
fn is_told(alloc: Global, event: &Event, text: &str) -> bool {
    let mut sink = sink(alloc);
    let told = event_line(event, &mut sink).is_ok();
    told && sink.bytes() == text.as_bytes()
}

#[test]
fn events_go_by_their_units(rt: HostRuntime) {
    for &(cycle, unit, kind, value, text) in &[
        (7, 1, EventKind::Tx, 0x41, "7 uart0 tx 41\n"),
        (0, 2, EventKind::Tx, 0xffff_ff0a, "0 uart1 tx 0a\n"),
        (
            100,
            4,
            EventKind::Out,
            0x8000_0001,
            "100 gpio out 80000001\n",
        ),
        (101, 5, EventKind::Out, 3, "101 pwm out 00000003\n"),
        (
            102,
            6,
            EventKind::Word,
            0xdead_beef,
            "102 slink word deadbeef\n",
        ),
        (103, 6, EventKind::Last, 0, "103 slink last 00000000\n"),
        (104, 7, EventKind::Fire, 0, "104 wdt fire 00000000\n"),
        (105, 3, EventKind::Tx, 0x41, "105 spi tx 00000041\n"),
        (106, 1, EventKind::Fire, 0x141, "106 uart0 fire 41\n"),
        (107, 0, EventKind::Out, 1, "107 hub out 00000001\n"),
        (108, 8, EventKind::Last, 1, "108 hub last 00000001\n"),
    ] {
        let event = Event {
            cycle,
            unit,
            kind,
            value,
        };
        assert!(&rt; is_told(rt.alloc(), &event, text), "{text}");
    }
}

/// A hart at 80000010 that retired 12 instructions, with x1 and x31 set.
fn view(phase: PhaseWord) -> HartView {
    let mut regs = [0; 32];
    regs[1] = 0x2a;
    regs[31] = 0xffff_ffff;
    HartView {
        phase,
        pc: 0x8000_0010,
        retired: 12,
        regs,
    }
}

/// Whether hart 0 has these lines.
fn has_lines(alloc: Global, view: &HartView, text: &str) -> bool {
    let mut sink = sink(alloc);
    let told = hart_lines(0, view, &mut sink).is_ok();
    told && sink.bytes() == text.as_bytes()
}

#[test]
fn a_hart_has_a_line_for_each_register_that_is_set(rt: HostRuntime) {
    for &(phase, text) in &[
        (
            PhaseWord::Ready,
            "hart 0 ready pc 80000010 retired 12\nx1 0000002a\nx31 ffffffff\n",
        ),
        (
            PhaseWord::Run,
            "hart 0 run pc 80000010 retired 12\nx1 0000002a\nx31 ffffffff\n",
        ),
        (
            PhaseWord::Want,
            "hart 0 want pc 80000010 retired 12\nx1 0000002a\nx31 ffffffff\n",
        ),
        (
            PhaseWord::Sleep,
            "hart 0 sleep pc 80000010 retired 12\nx1 0000002a\nx31 ffffffff\n",
        ),
        (
            PhaseWord::Monitor,
            "hart 0 monitor pc 80000010 retired 12\nx1 0000002a\nx31 ffffffff\n",
        ),
        (PhaseWord::Parked, "hart 0 parked\n"),
    ] {
        assert!(&rt; has_lines(rt.alloc(), &view(phase), text), "{text}");
    }
}

/// Each line is one call of the sink, so the second call's text is lost alone.
#[test]
fn a_refused_line_ends_a_hart(rt: HostRuntime) -> Result<(), AllocError> {
    let alloc = rt.alloc();
    let mut sink = MemSink::new(alloc, vec![in alloc; 2]?);
    let refused = hart_lines(1, &view(PhaseWord::Run), &mut sink) == Err(SinkFault::Failed);
    assert!(&rt; refused);
    let text = b"hart 1 run pc 80000010 retired 12\n";
    assert!(&rt; sink.bytes() == text.as_slice());
    Ok(())
}

#[test]
fn rows_have_sixteen_bytes(rt: HostRuntime) {
    let bytes = [
        0x00, 0x01, 0x23, 0x45, 0x67, 0x89, 0xab, 0xcd, 0xef, 0xff, 0, 0, 0, 0, 0, 0x10,
    ];
    let mut sink = sink(rt.alloc());
    assert!(&rt; row_line(RowKind::Mem, 0x8000_0040, &bytes, &mut sink).is_ok());
    assert!(&rt; row_line(RowKind::Flash, 0x10, &[0; 16], &mut sink).is_ok());
    let text =
        b"mem 80000040 000123456789abcdefff000000000010\nflash 00000010 00000000000000000000000000000000\n";
    assert!(&rt; sink.bytes() == text.as_slice());
}

//! Values from the table of CSRs and from the rules of traps.

use csr_file::Csrs;

/// Each CSR of hart 1: its number, its value at reset, whether a write is done, and its value after a write of ones.
const TABLE: &[(u16, u32, bool, u32)] = &[
    (0x300, 0x0000_1800, true, 0x0000_1888),
    (0x301, 0x4000_1104, true, 0x4000_1104),
    (0x304, 0, true, 0xffff_0888),
    (0x305, 0, true, 0xffff_fffd),
    (0x310, 0, true, 0),
    (0x340, 0, true, 0xffff_ffff),
    (0x341, 0, true, 0xffff_fffe),
    (0x342, 0, true, 0xffff_ffff),
    (0x343, 0, true, 0xffff_ffff),
    (0x344, 0x0001_0000, true, 0x0001_0000),
    (0xb00, 0, true, 0xffff_ffff),
    (0xb80, 0, true, 0xffff_ffff),
    (0xb02, 0, true, 0xffff_ffff),
    (0xb82, 0, true, 0xffff_ffff),
    (0xf11, 0, false, 0),
    (0xf12, 0x0000_0013, false, 0x0000_0013),
    (0xf13, 0x0001_0000, false, 0x0001_0000),
    (0xf14, 1, false, 1),
    (0xf15, 0, false, 0),
];

#[test]
fn reset_values_and_masks(rt: HostRuntime) {
    for &(number, reset, done, after) in TABLE {
        let mut csrs = Csrs::new(1);
        let starts = csrs.read(number, 0x0001_0000) == Some(reset);
        let ends = csrs.write(number, 0xffff_ffff) == done;
        let keeps = csrs.read(number, 0x0001_0000) == Some(after);
        assert!(rt; starts && ends && keeps, "CSR {number}");
    }
}

#[test]
fn interrupts_and_traps(rt: HostRuntime) {
    let mut csrs = Csrs::new(0);
    csrs.write(0x304, 0xffff_ffff);
    csrs.write(0x305, 0x0000_0011);
    csrs.write(0x300, 0x0000_0008);
    for &(mip, cause) in &[
        (0xffff_ffff, Some(0x8000_000b)),
        (0xffff_f7ff, Some(0x8000_0003)),
        (0xffff_f7f7, Some(0x8000_0007)),
        (0xffff_0000, Some(0x8000_0010)),
        (0x8000_0000, Some(0x8000_001f)),
        (0x0000_f777, None),
    ] {
        assert!(rt; csrs.pending(mip) == cause, "at {mip}");
    }
    let exception = csrs.trap(4, 2, 0x0000_abcd) == 0x10;
    let returned = csrs.mret() == 4;
    let interrupt = csrs.trap(8, 0x8000_0003, 0) == 0x1c;
    assert!(rt; exception && returned && interrupt);
}

//! Accesses at the edges of the map.

use soc_bus::{BusFault, Memory, Region, Request, Width, admit};
use std::test::Fail;

/// Whether a load gives this.
fn gives(memory: &Memory, addr: u32, width: Width, want: Result<u32, BusFault>) -> bool {
    memory.load(addr, width) == want
}

#[test]
fn loads_what_was_stored(rt: HostRuntime) -> Result<(), Fail> {
    let mut memory = Memory::new(rt.alloc(), 4096, 8192)?;
    memory.fill(&[0x13, 0x00, 0x00, 0x00, 0x6f]);
    for &(addr, width, value) in &[
        (0x0000_0ffc, Width::Word, 0x8443_8281),
        (0x0000_0ffd, Width::Byte, 0x0000_0170),
        (0x8000_1ffe, Width::Half, 0xffff_8765),
    ] {
        assert!(rt; memory.store(addr, width, value).is_ok());
    }
    for &(addr, width, want) in &[
        (0x0000_0004, Width::Word, Ok(0x0000_006f)),
        (0x0000_0ffc, Width::Word, Ok(0x8443_7081)),
        (0x0000_0ffe, Width::Half, Ok(0x8443)),
        (0x8000_1ffc, Width::Word, Ok(0x8765_0000)),
        (0x0000_1000, Width::Byte, Err(BusFault::Unmapped)),
        (0x0000_1001, Width::Half, Err(BusFault::Misaligned)),
    ] {
        assert!(rt; gives(&memory, addr, width, want));
    }
    Ok(())
}

/// An address, a width, the word to store, and what the map has there.
type Admitted = (u32, Width, Option<u32>, Result<Region, BusFault>);

const MAP: &[Admitted] = &[
    (0x0000_0fff, Width::Byte, Some(0), Ok(Region::Imem)),
    (0x8000_1ffe, Width::Half, Some(0), Ok(Region::Dmem)),
    (0xffe0_0000, Width::Word, None, Err(BusFault::Unmapped)),
    (0xffed_0014, Width::Word, None, Err(BusFault::Unmapped)),
    (0xfff4_bffe, Width::Half, None, Ok(Region::Clint)),
    (
        0xfff5_0005,
        Width::Byte,
        None,
        Ok(Region::Device { unit: 1, reg: 4 }),
    ),
    (0xfff5_0005, Width::Byte, Some(0), Err(BusFault::Narrow)),
    (0xfff5_0005, Width::Half, Some(0), Err(BusFault::Misaligned)),
    (0xfffe_0104, Width::Word, Some(0), Ok(Region::Mailbox)),
];

#[test]
fn admits_by_the_map(rt: HostRuntime) {
    for &(addr, width, store, want) in MAP {
        let request = Request { addr, width, store };
        assert!(&rt; admit(&request, 4096, 8192) == want, "at {addr:08x}");
    }
}

//! Single instructions and short programs, with the values that the manuals' rules give.

use chip_base::{IssueRecord, PhaseWord};
use core_pair::Core;
use soc_bus::{BusFault, Memory, Request, Width};
use std::process::Abort;
use std::test::Fail;

/// A word at 8, the word at 0 when it is issued, and what stands then in x1, mcause and mtval.
const CASES: &[(u32, u32, u32, u32, u32)] = &[
    (0x0000_0073, 0, 0, 11, 0),
    (0x0010_0073, 0, 0, 3, 8),
    (0x0000_9002, 0, 0, 3, 8),
    (0x0000_0000, 0, 0, 2, 0),
    (0x0000_4002, 0, 0, 2, 0x4002),
    (0xffff_ffff, 0, 0, 2, 0xffff_ffff),
    (0xf120_9073, 0, 0, 2, 0xf120_9073),
    // csrrs x1, marchid, x1
    (0xf120_a0f3, 0, 0, 2, 0xf120_a0f3),
    (0x7c00_9073, 0, 0, 2, 0x7c00_9073),
    (0x0010_2083, 0, 0, 4, 1),
    (0x0010_20a3, 0, 0, 6, 1),
    (0xffc0_2083, 0, 0, 5, 0xffff_fffc),
    (0xfe00_2e23, 0, 0, 7, 0xffff_fffc),
    (0x0000_0083, 0x80, 0xffff_ff80, 0, 0),
    (0x0000_4083, 0x80, 0x80, 0, 0),
    (0x0000_1083, 0x8000, 0xffff_8000, 0, 0),
    (0x0000_5083, 0x8000, 0x8000, 0, 0),
    (0x0000_2083, 0x8000_0000, 0x8000_0000, 0, 0),
    (0x0000_2001, 0, 0xa, 0, 0),
    (0x0000_00ef, 0, 0xc, 0, 0),
    (0x0010_00e7, 0, 0xc, 0, 0),
    // csrrc x1, marchid, x0
    (0xf120_30f3, 0, 0x13, 0, 0),
    (0xb000_20f3, 0, 1, 0, 0),
    (0xb020_20f3, 0, 0, 0, 0),
    (0x3000_60f3, 0, 0x1800, 0, 0),
    (0xf140_20f3, 0, 1, 0, 0),
    (0xffff_f0b7, 0, 0xffff_f000, 0, 0),
    (0x0000_1097, 0, 0x1008, 0, 0),
];

fn put_words(memory: &mut Memory, at: u32, words: &[u32]) {
    let mut address = at;
    for word in words {
        let _done = memory.store(address, Width::Word, *word);
        address = address.wrapping_add(4);
    }
}

fn answer(memory: &mut Memory, request: Request) -> Result<u32, BusFault> {
    match request.store {
        None => memory.load(request.addr, request.width),
        Some(word) => match memory.store(request.addr, request.width, word) {
            Ok(()) => Ok(0),
            Err(fault) => Err(fault),
        },
    }
}

/// So many turns, each request granted in its cycle.
fn run(core: &mut Core, memory: &mut Memory, turns: u64) {
    for now in 0..turns {
        core.issue(now, 0, memory);
        if let Some(request) = core.want() {
            core.granted(answer(memory, request));
        }
    }
}

/// Whether a core that enters a trap has these mepc, mcause and mtval.
fn trapped(core: &Core, pc: u32, cause: u32, value: u32) -> bool {
    core.csr(0x341, 0) == Some(pc)
        && core.csr(0x342, 0) == Some(cause)
        && core.csr(0x343, 0) == Some(value)
}

/// Whether hart 1 leaves what a case has, and retired one instruction or trapped.
fn leaves(memory: &mut Memory, case: &(u32, u32, u32, u32, u32)) -> bool {
    let (word, first, x1, cause, value) = *case;
    put_words(memory, 0, &[first, 0, word]);
    let mut core = Core::new(1);
    core.start(9, 0);
    run(&mut core, memory, 1);
    let view = core.view();
    let pc = if cause == 0 { 0 } else { 8 };
    view.regs[1] == x1 && view.retired == u64::from(cause == 0) && trapped(&core, pc, cause, value)
}

#[test]
fn one_instruction_each(rt: HostRuntime) -> Result<(), Fail> {
    let mut memory = Memory::new(rt.alloc(), 4096, 4096)?;
    for case in CASES {
        assert!(&rt; leaves(&mut memory, case), "after {}", case.0);
    }
    Ok(())
}

/// A store that is refused as narrow.
fn refuses_narrow(memory: &mut Memory) -> bool {
    // sb x1, 3(x0)
    put_words(memory, 8, &[0x0010_01a3]);
    let mut core = Core::new(0);
    core.start(8, 0);
    core.issue(0, 0, memory);
    let waits = core.view().pc == 8 && core.want().is_some();
    core.granted(Err(BusFault::Narrow));
    waits && trapped(&core, 8, 7, 3)
}

/// A fetch at this address, of which the half at `absent` isn't there.
fn faults(memory: &Memory, pc: u32, absent: u32) -> bool {
    let mut core = Core::new(0);
    core.start(pc, 0);
    core.issue(0, 0, memory) == None && trapped(&core, pc, 1, absent)
}

/// The last half of IMEM as a parcel.
fn issues_last_parcel(memory: &mut Memory) -> bool {
    put_words(memory, 0x0ffc, &[0x0073_0001]);
    let mut core = Core::new(0);
    core.start(0x0ffc, 0);
    let issued = IssueRecord {
        cycle: 7,
        hart: 0,
        pc: 0x0ffc,
        word: 1,
    };
    core.issue(7, 0, memory) == Some(issued)
}

/// An illegal parcel where mtvec has vectors for interrupts.
fn ignores_vectors(memory: &mut Memory) -> bool {
    put_words(memory, 0, &[0x3058_d073, 0, 0, 0, 0x0000_006f]);
    let mut core = Core::new(0);
    run(&mut core, memory, 20);
    let view = core.view();
    trapped(&core, 4, 2, 0) && view.pc == 0x10 && view.retired == 3
}

/// A write of minstret, and two reads of it.
fn counts_retired(memory: &mut Memory) -> bool {
    let words = [0xb020_10f3, 0xb020_2173, 0xb020_21f3, 0x0000_006f];
    put_words(memory, 0, &words);
    let mut core = Core::new(0);
    run(&mut core, memory, 9);
    let view = core.view();
    view.regs[2] == 0 && view.regs[3] == 1 && view.retired == 2
}

/// mret, and ecall at 8 before it.
fn returns(memory: &mut Memory) -> bool {
    put_words(memory, 0, &[0x3020_0073, 0, 0x0000_0073]);
    let mut core = Core::new(0);
    core.start(8, 0);
    run(&mut core, memory, 7);
    core.view().pc == 8 && core.csr(0x300, 0) == Some(0x1880)
}

/// Whether a core retired the three instructions before wfi, and wfi.
fn is_asleep(core: &Core) -> bool {
    let view = core.view();
    view.phase == PhaseWord::Sleep && view.retired == 4
}

/// Whether a core has this pc and mcause.
fn woke(core: &Core, pc: u32, cause: u32) -> bool {
    let view = core.view();
    let caused = core.csr(0x342, 0) == Some(cause);
    caused && view.pc == pc
}

/// wfi, after `last` set MIE or left it; then its timer interrupt comes.
fn sleeps(memory: &mut Memory, last: u32, next: u32, cause: u32) -> bool {
    let words = [0x0800_0193, 0x3041_9073, last, 0x1050_0073, 0x0000_006f];
    put_words(memory, 0, &words);
    let mut core = Core::new(0);
    run(&mut core, memory, 30);
    let asleep = is_asleep(&core);
    let issued = core.issue(30, 0x80, memory).is_some();
    asleep && issued == (cause == 0) && woke(&core, next, cause)
}

fn short_programs_of(rt: &impl Abort, memory: &mut Memory) {
    assert!(rt; refuses_narrow(memory));
    assert!(rt; issues_last_parcel(memory));
    assert!(rt; faults(memory, 0x0000_0ffe, 0x0000_1000));
    assert!(rt; faults(memory, 0x4000_0000, 0x4000_0000));
    assert!(rt; ignores_vectors(memory));
    assert!(rt; counts_retired(memory));
    assert!(rt; returns(memory));
    assert!(rt; sleeps(memory, 0x3004_5073, 0, 0x8000_0007));
    assert!(rt; sleeps(memory, 0x3000_5073, 0x10, 0));
}

#[test]
fn short_programs(rt: HostRuntime) -> Result<(), Fail> {
    let mut memory = Memory::new(rt.alloc(), 4096, 4096)?;
    short_programs_of(&rt, &mut memory);
    Ok(())
}

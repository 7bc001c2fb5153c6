//! Parts on a few events, and stream links with them.

use bench_parts::{Counter, Loop, Part, PartEvent, PartReply, Scramble};
use chip_base::{Cycle, Down, Event, EventKind, UnitOut, Up};
use parity_part::Parity;
use stream_link::Stream;

const fn reply(word: Option<u32>) -> PartReply {
    match word {
        Some(word) => PartReply { has: true, word },
        None => PartReply {
            has: false,
            word: 0,
        },
    }
}

#[test]
fn three_parts(rt: HostRuntime) {
    let mut plain = Loop::new();
    let mut counter = Counter::new();
    let mut scramble = Scramble::new();
    for &(word, last, count, scrambled) in &[
        (0x0000_0001, false, None, 0x5a5a_5ada),
        (0xffff_ffff, true, Some(2), 0xa5a5_a5a5),
        (0x8000_0000, true, Some(1), 0x5a5a_5a1a),
        (0x0200_0000, false, None, 0x5a5a_5a5b),
        (0x1234_5678, false, None, 0x4071_6653),
        (0x0000_0000, true, Some(3), 0x5a5a_5a5a),
    ] {
        let ev = PartEvent {
            cycle: 0,
            word,
            last,
        };
        let looped = plain.on(ev) == reply(Some(word));
        let counted = counter.on(ev) == reply(count);
        let mixed = scramble.on(ev) == reply(Some(scrambled));
        assert!(&rt; looped && counted && mixed, "at {word:08x}");
    }
}

/// Packets whose last word is the XOR of the others, and packets with another one.
#[test]
fn parity_of_packets(rt: HostRuntime) {
    let mut parity = Parity::new();
    for &(word, last, answer) in &[
        (0x1234_5678, false, None),
        (0x9abc_def0, false, None),
        (0x8888_8888, true, Some(0)),
        (0x1234_5678, false, None),
        (0x9abc_def0, false, None),
        (0x8888_888a, true, Some(1)),
        (0xffff_ffff, false, None),
        (0xffff_ffff, true, Some(0)),
        (0x0000_0000, true, Some(0)),
        (0x8000_0000, true, Some(1)),
    ] {
        let ev = PartEvent {
            cycle: 0,
            word,
            last,
        };
        assert!(&rt; parity.on(ev) == reply(answer), "at {word:08x}");
    }
}

const fn set(reg: u8, word: u32) -> Option<Down> {
    Some(Down::Set { reg, word })
}

/// What comes to a link in a cycle, and what it gives.
#[derive(Clone, Copy)]
enum Turn {
    /// Nothing comes and nothing is given.
    Idle,
    /// A register is set, and nothing is given.
    Set(u8, u32),
    /// A Reset, and its answer.
    Reset,
    /// Nothing comes, and a word is passed, the last of its packet or another, and replied to or not.
    Passed(EventKind, u32, Option<u32>),
    /// A register is set, and the same is given.
    SetAndPassed(u8, u32, EventKind, u32, Option<u32>),
}

use Turn::{Idle, Passed, Reset, Set, SetAndPassed};
use std::alloc::AllocError;

/// What a link gives that passes a word.
fn passed(cycle: Cycle, kind: EventKind, value: u32, answer: Option<u32>) -> UnitOut {
    let up = match answer {
        Some(word) => Up {
            has: true,
            word,
            ..Up::CREDIT
        },
        None => Up::CREDIT,
    };
    UnitOut {
        up: Some(up),
        event: Some(Event {
            cycle,
            unit: 6,
            kind,
            value,
        }),
    }
}

const DONE: UnitOut = UnitOut {
    up: Some(Up::DONE),
    event: None,
};

/// The message that comes in a cycle, and what a link gives.
fn turn_in(now: Cycle, turn: Turn) -> (Option<Down>, UnitOut) {
    match turn {
        Idle => (None, UnitOut::QUIET),
        Set(reg, word) => (set(reg, word), UnitOut::QUIET),
        Reset => (Some(Down::Reset), DONE),
        Passed(kind, word, answer) => (None, passed(now, kind, word, answer)),
        SetAndPassed(reg, value, kind, word, answer) => {
            (set(reg, value), passed(now, kind, word, answer))
        }
    }
}

/// A word waits until the link is enabled, and the next one until the fourth cycle after it; the Reset loses the third.
#[test]
fn link_with_scramble(rt: HostRuntime) -> Result<(), AllocError> {
    let part: Box<dyn Part + Send> = Box::new(rt.alloc(), Scramble::new())?;
    let mut link = Stream::new(Some(part));
    for &(now, turn) in &[
        (0, Set(8, 1)),
        (1, SetAndPassed(0, 1, EventKind::Last, 1, Some(0x5a5a_5ada))),
        (2, Set(4, 0xffff_ffff)),
        (3, Set(8, 0x1234_5678)),
        (4, Idle),
        (5, Passed(EventKind::Word, 0xffff_ffff, Some(0xa5a5_a5a5))),
        (6, Idle),
        (7, Reset),
        (8, Set(0, 1)),
        (
            9,
            SetAndPassed(
                4,
                0x8000_0000,
                EventKind::Word,
                0x8000_0000,
                Some(0x5a5a_5a1a),
            ),
        ),
    ] {
        let (down, given) = turn_in(now, turn);
        assert!(&rt; link.cycle(now, down) == given, "in {now}");
    }
    Ok(())
}

/// A Reset loses a word that waits, and the part counts on. While the link is disabled the gap passes.
#[test]
fn link_with_counter(rt: HostRuntime) -> Result<(), AllocError> {
    let part: Box<dyn Part + Send> = Box::new(rt.alloc(), Counter::new())?;
    let mut link = Stream::new(Some(part));
    for &(now, turn) in &[
        (0, Set(0, 1)),
        (1, SetAndPassed(4, 7, EventKind::Word, 7, None)),
        (2, Set(8, 8)),
        (3, Reset),
        (4, Set(0, 1)),
        (5, SetAndPassed(8, 9, EventKind::Last, 9, Some(2))),
        (6, Set(0, 0)),
        (7, Idle),
        (8, Set(8, 6)),
        (9, SetAndPassed(0, 1, EventKind::Last, 6, Some(1))),
    ] {
        let (down, given) = turn_in(now, turn);
        assert!(&rt; link.cycle(now, down) == given, "in {now}");
    }
    Ok(())
}

/// A Reset loses the check word that waits, and the part remembers the packet's words before it.
#[test]
fn link_with_parity(rt: HostRuntime) -> Result<(), AllocError> {
    let part: Box<dyn Part + Send> = Box::new(rt.alloc(), Parity::new())?;
    let mut link = Stream::new(Some(part));
    for &(now, turn) in &[
        (0, Set(0, 1)),
        (1, SetAndPassed(4, 5, EventKind::Word, 5, None)),
        (2, Set(8, 5)),
        (3, Reset),
        (4, Set(0, 1)),
        (5, SetAndPassed(4, 6, EventKind::Word, 6, None)),
        (6, Idle),
        (7, Idle),
        (8, Idle),
        (9, SetAndPassed(8, 3, EventKind::Last, 3, Some(0))),
    ] {
        let (down, given) = turn_in(now, turn);
        assert!(&rt; link.cycle(now, down) == given, "in {now}");
    }
    Ok(())
}

/// What comes in a cycle to a link in which words wait, and what it gives: a word in each fourth cycle.
fn in_each_fourth(cycle: u32) -> (Option<Down>, UnitOut) {
    let down = if cycle == 0 { set(0, 1) } else { None };
    let given = if cycle % 4 == 0 {
        passed(0, EventKind::Word, cycle / 4, None)
    } else {
        UnitOut::QUIET
    };
    (down, given)
}

/// Seventeen words come while a link without a part is disabled. Sixteen of them are passed, one in each fourth cycle.
#[test]
fn link_without_a_part(rt: HostRuntime) {
    let mut link = Stream::new(None);
    for word in 0..17u32 {
        assert!(&rt; link.cycle(0, set(4, word)) == UnitOut::QUIET);
    }
    for cycle in 0..64u32 {
        let (down, given) = in_each_fourth(cycle);
        assert!(&rt; link.cycle(0, down) == given, "in {cycle}");
    }
    assert!(&rt; link.cycle(0, None) == UnitOut::QUIET);
}

//! Words that loads give, each written out from the table of registers.

use chip_base::{Down, Up};
use std::process::Abort;
use unit_fronts::{GpioFront, PwmFront, SlinkFront, UartFront, WdtFront};

/// A message with a word.
const fn word_up(word: u32) -> Up {
    Up {
        done: false,
        fire: false,
        credit: false,
        has: true,
        word,
    }
}

/// The message that sets a register of a unit to this word, or none.
fn message(reg: u8, word: Option<u32>) -> Option<Down> {
    match word {
        Some(word) => Some(Down::Set { reg, word }),
        None => None,
    }
}

/// What a test does with a front, and what it gives.
#[derive(Clone, Copy)]
enum Act {
    /// A load of a register gives a word.
    Load(u8, u32),
    /// A store of a word to a register sends a word to the same register of the unit, or nothing.
    Store(u8, u32, Option<u32>),
    /// The answer to a Reset arrives.
    Done,
    /// A credit arrives.
    Credit,
    /// A word arrives.
    Word(u32),
    /// The line of the front's interrupt.
    Line(bool),
    Close,
    Open(bool),
}

use Act::{Close, Credit, Done, Line, Load, Open, Store, Word};

/// Seventeen bytes arrive.
fn receive_seventeen(front: &mut UartFront) {
    for n in 0..17 {
        front.arrive(word_up(0x61 + n));
    }
}

fn send_sixteen(front: &mut UartFront) {
    for _ in 0..16 {
        front.store(4, 0x41);
    }
}

/// CTRL after seventeen received bytes, and after all writable bits were stored and sixteen bytes sent.
#[test]
fn words_of_a_uart(rt: HostRuntime) {
    let mut front = UartFront::new();
    receive_seventeen(&mut front);
    // receive not empty (16) and overrun (30)
    assert!(&rt; front.load(0) == 0x4001_0000);
    assert!(&rt; front.load(4) == 0x61);
    front.store(0, 0xffff_ffff);
    send_sixteen(&mut front);
    // transmit full (21) and busy (31) beside receive not empty and the kept bits
    assert!(&rt; front.load(0) == 0x8061_fff9);
}

/// Pins 0 and 3 rise, and PENDING loses bit 3; CTRL of the duties keeps four bits.
#[test]
fn words_of_pins_and_duties(rt: HostRuntime) {
    let mut pins = GpioFront::new();
    pins.arrive(word_up(0x9));
    pins.store(12, 0xffff_fff8);
    assert!(&rt; pins.load(12) == 0x1);
    let mut duties = PwmFront::new();
    assert!(&rt; duties.store(0, 0xffff_ffff) == message(0, Some(0x39)));
}

/// A load from CTRL, FEED or CAUSE of a watchdog.
fn load_of_watchdog(front: &mut WdtFront, reg: u8) -> u32 {
    match reg {
        0 => front.load(0),
        4 => front.load(4),
        _ => front.load(8),
    }
}

/// A store to CTRL, FEED or CAUSE of a watchdog.
fn store_to_watchdog(front: &mut WdtFront, reg: u8, word: u32) -> Option<Down> {
    match reg {
        0 => front.store(0, word),
        4 => front.store(4, word),
        _ => front.store(8, word),
    }
}

fn is_watchdogs(front: &mut WdtFront, act: Act) -> bool {
    match act {
        Load(reg, word) => load_of_watchdog(front, reg) == word,
        Store(reg, word, sent) => store_to_watchdog(front, reg, word) == message(reg, sent),
        Done => {
            front.arrive(Up::DONE);
            true
        }
        Credit => {
            front.arrive(Up::CREDIT);
            true
        }
        Word(word) => {
            front.arrive(word_up(word));
            true
        }
        Line(up) => front.line() == up,
        Close => {
            front.close();
            true
        }
        Open(open) => front.is_open() == open,
    }
}

/// Two answers are owed at the end, and come one after the other.
const OF_A_WATCHDOG: &[Act] = &[
    Store(0, 0xffff_ffff, Some(0xffff_ff01)),
    Store(4, 0xfeed, Some(0xfeed)),
    Store(4, 0x1_feed, None),
    Store(8, 1, None),
    Load(0, 0xffff_ff01),
    Load(4, 0),
    Load(8, 0),
    Close,
    Close,
    Done,
    Store(0, 0x101, None),
    Load(0, 0),
    Load(8, 1),
    Done,
    Open(true),
    Load(8, 1),
];

/// CTRL of the watchdog keeps enable and timeout, FEED passes on one word, and CAUSE is read also while the front is closed.
#[test]
fn words_of_a_watchdog(rt: HostRuntime) {
    let mut front = WdtFront::new();
    for act in OF_A_WATCHDOG {
        assert!(&rt; is_watchdogs(&mut front, *act));
    }
}

/// A load from CTRL, DATA or LAST of a stream link.
fn load_of_link(front: &mut SlinkFront, reg: u8) -> u32 {
    match reg {
        0 => front.load(0),
        4 => front.load(4),
        _ => front.load(8),
    }
}

/// A store to CTRL, DATA or LAST of a stream link.
fn store_to_link(front: &mut SlinkFront, reg: u8, word: u32) -> Option<Down> {
    match reg {
        0 => front.store(0, word),
        4 => front.store(4, word),
        _ => front.store(8, word),
    }
}

fn is_links(front: &mut SlinkFront, act: Act) -> bool {
    match act {
        Load(reg, word) => load_of_link(front, reg) == word,
        Store(reg, word, sent) => store_to_link(front, reg, word) == message(reg, sent),
        Done => {
            front.arrive(Up::DONE);
            true
        }
        Credit => {
            front.arrive(Up::CREDIT);
            true
        }
        Word(word) => {
            front.arrive(word_up(word));
            true
        }
        Line(up) => front.line() == up,
        Close => {
            front.close();
            true
        }
        Open(open) => front.is_open() == open,
    }
}

fn follows(rt: &impl Abort, front: &mut SlinkFront, acts: &[Act]) {
    for act in acts {
        assert!(rt; is_links(front, *act));
    }
}

/// Sixteen words are sent, to DATA and LAST in turn.
fn sends_sixteen(rt: &impl Abort, front: &mut SlinkFront) {
    for n in 0..8u32 {
        let word = 0xffff_ff00 + n;
        // busy (31) beside enable and interrupt enable
        let acts = [
            Store(4, word, Some(word)),
            Load(0, 0x8040_0001),
            Store(8, word, Some(word)),
        ];
        follows(rt, front, &acts);
    }
}

fn give_back_sixteen(front: &mut SlinkFront) {
    for _ in 0..16 {
        front.arrive(Up::CREDIT);
    }
}

const ENABLED: &[Act] = &[
    Load(0, 0),
    Store(0, 0xffff_ffff, Some(0x0040_0001)),
    // enable (0) and interrupt enable (22)
    Load(0, 0x0040_0001),
];

/// One credit comes back, and pays for one word.
const FULL: &[Act] = &[
    // full (21) beside busy
    Load(0, 0x8060_0001),
    Store(4, 1, None),
    Store(8, 1, None),
    Load(8, 0),
    Store(0, 0xffbf_fffe, Some(0)),
    Load(0, 0x8020_0000),
    Credit,
    Load(0, 0x8000_0000),
    Store(8, 1, Some(1)),
    Store(4, 1, None),
];

/// Sixteen words, stored to DATA and LAST in turn, are sent; the seventeenth isn't. CTRL takes no credit, and is sent without one.
#[test]
fn words_to_a_stream_link(rt: HostRuntime) {
    let mut front = SlinkFront::new();
    follows(&rt, &mut front, ENABLED);
    sends_sixteen(&rt, &mut front);
    follows(&rt, &mut front, FULL);
    give_back_sixteen(&mut front);
    assert!(&rt; front.load(0) == 0);
}

/// Seventeen replies arrive, each one less than the one before.
fn reply_seventeen(front: &mut SlinkFront) {
    for n in 0..17u32 {
        front.arrive(word_up(0xffff_fff0 - n));
    }
}

fn gives_sixteen(rt: &impl Abort, front: &mut SlinkFront) {
    for n in 0..16u32 {
        assert!(rt; front.load(4) == 0xffff_fff0 - n);
    }
}

const OVERRUN: &[Act] = &[
    // received (16) and overrun (30)
    Load(0, 0x4001_0000),
    Line(false),
    Load(8, 0),
];

const EMPTY: &[Act] = &[
    Load(4, 0),
    Load(0, 0x4000_0000),
    Store(0, 0x0040_0000, Some(0x0040_0000)),
    Load(0, 0x0040_0000),
    Line(false),
    Word(0),
    Load(0, 0x0041_0000),
    Line(true),
    Store(0, 1, Some(1)),
    Line(false),
    Store(0, 0x0040_0001, Some(0x0040_0001)),
    Line(true),
    Load(4, 0),
    Line(false),
];

/// Of seventeen replies sixteen are loaded, in their order, and the last one is lost: overrun stays until the next store to CTRL. The line is
/// up while interrupt enable is set and a reply waits.
#[test]
fn replies_of_a_stream_link(rt: HostRuntime) {
    let mut front = SlinkFront::new();
    reply_seventeen(&mut front);
    follows(&rt, &mut front, OVERRUN);
    gives_sixteen(&rt, &mut front);
    follows(&rt, &mut front, EMPTY);
}

use chip_base::{Cycle, Down, Up};
use spi_flash::Spi;
use std::process::Abort;

/// What a test does with a unit, or looks at.
#[derive(Clone, Copy)]
enum Act {
    /// The control word is set: with 1 each byte takes sixteen cycles.
    Control(u32),
    Reset,
    Select(bool),
    /// A byte, and what answers it.
    Byte(u8, u8),
    /// This byte so many times, each answered ff.
    Same(u32, u8),
    /// So many cycles without a message.
    Wait(u32),
    /// What stands at an address.
    Holds(u32, u8),
    /// Write enable is set, and then a command sent with an address.
    Command(u8, [u8; 3]),
}

use Act::{Byte, Command, Control, Holds, Reset, Same, Select, Wait};

const fn set(reg: u8, word: u32) -> Option<Down> {
    Some(Down::Set { reg, word })
}

fn answer_up(answer: u8) -> Option<Up> {
    Some(Up {
        done: false,
        fire: false,
        credit: true,
        has: true,
        word: u32::from(answer),
    })
}

/// The flash is selected or deselected.
fn select(rt: &impl Abort, spi: &mut Spi, on: bool) {
    let up = spi.cycle(0, set(8, u32::from(on))).up;
    assert!(rt; up == Some(Up::CREDIT));
}

/// So many cycles, in which nothing goes up.
fn wait(rt: &impl Abort, spi: &mut Spi, cycles: u32) {
    for _ in 0..cycles {
        let up = spi.cycle(0, None).up;
        assert!(rt; up == None);
    }
}

/// A byte is exchanged in the sixteenth of its cycles, and nothing goes up before.
fn exchange(rt: &impl Abort, spi: &mut Spi, byte: u8, answer: u8) {
    let up = spi.cycle(0, set(4, u32::from(byte))).up;
    assert!(rt; up == None, "before the answer to {byte}");
    wait(rt, spi, 14);
    let up = spi.cycle(0, None).up;
    assert!(rt; up == answer_up(answer), "to {byte}");
}

fn exchange_same(rt: &impl Abort, spi: &mut Spi, times: u32, byte: u8) {
    for _ in 0..times {
        exchange(rt, spi, byte, 0xff);
    }
}

fn command(rt: &impl Abort, spi: &mut Spi, code: u8, address: [u8; 3]) {
    select(rt, spi, true);
    exchange(rt, spi, 0x06, 0xff);
    select(rt, spi, false);
    select(rt, spi, true);
    exchange(rt, spi, code, 0xff);
    for byte in address {
        exchange(rt, spi, byte, 0xff);
    }
}

fn carry_out(rt: &impl Abort, spi: &mut Spi, act: Act) {
    match act {
        Control(word) => {
            let up = spi.cycle(0, set(0, word)).up;
            assert!(rt; up == None);
        }
        Reset => {
            let up = spi.cycle(0, Some(Down::Reset)).up;
            assert!(rt; up == Some(Up::DONE));
        }
        Select(on) => select(rt, spi, on),
        Byte(byte, answer) => exchange(rt, spi, byte, answer),
        Same(times, byte) => exchange_same(rt, spi, times, byte),
        Wait(cycles) => wait(rt, spi, cycles),
        Holds(at, byte) => assert!(rt; spi.flash(at % 0x80_0000) == byte, "at {at}"),
        Command(code, address) => command(rt, spi, code, address),
    }
}

fn perform(rt: &impl Abort, spi: &mut Spi, acts: &[Act]) {
    for act in acts {
        carry_out(rt, spi, *act);
    }
}

/// The bytes 0f and f3 are programmed at 400000, one after the other, and then one without write enable.
const PROGRAM: &[Act] = &[
    Control(1),
    Command(0x02, [0x40, 0, 0]),
    Byte(0x0f, 0xff),
    Select(false),
    Wait(6_399),
    Holds(0x40_0000, 0xff),
    Wait(1),
    Holds(0x40_0000, 0x0f),
    Command(0x02, [0x40, 0, 0]),
    Byte(0xf3, 0xff),
    Select(false),
    Wait(6_399),
    Holds(0x40_0000, 0x0f),
    Wait(1),
    Holds(0x40_0000, 0x03),
    Holds(0x40_0001, 0xff),
    Select(true),
    Byte(0x02, 0xff),
    Byte(0x40, 0xff),
    Byte(0, 0xff),
    Byte(0, 0xff),
    Byte(0, 0xff),
    Select(false),
    Wait(6_400),
    Holds(0x40_0000, 0x03),
];

/// Bytes go on at the beginning of the page, and a later one for a place replaces the earlier one.
const PAGES: &[Act] = &[
    Command(0x02, [0, 0x01, 0xfe]),
    Byte(0xa1, 0xff),
    Byte(0xa2, 0xff),
    Byte(0xa3, 0xff),
    Select(false),
    Wait(6_400),
    Holds(0xff, 0xff),
    Holds(0x100, 0xa3),
    Holds(0x101, 0xff),
    Holds(0x1fe, 0xa1),
    Holds(0x1ff, 0xa2),
    Holds(0x200, 0xff),
    Command(0x02, [0, 0x03, 0x80]),
    Byte(0, 0xff),
    Same(255, 0xfe),
    Byte(0x5a, 0xff),
    Select(false),
    Wait(6_400),
    Holds(0x380, 0x5a),
    Holds(0x381, 0xfe),
    Holds(0x37f, 0xfe),
];

/// The last and the first byte of the flash are programmed and read, and then the name and the status.
const READ: &[Act] = &[
    Command(0x02, [0x7f, 0xff, 0xff]),
    Byte(0x11, 0xff),
    Select(false),
    Wait(6_400),
    Command(0x02, [0, 0, 0]),
    Byte(0x22, 0xff),
    Select(false),
    Wait(6_400),
    Byte(0x9f, 0xff),
    Select(false),
    Select(true),
    Byte(0x03, 0xff),
    Byte(0xff, 0xff),
    Byte(0xff, 0xff),
    Byte(0xff, 0xff),
    Byte(0x06, 0x11),
    Byte(0, 0x22),
    Byte(0, 0xff),
    Select(false),
    Select(true),
    Byte(0x9f, 0xff),
    Select(true),
    Byte(0, 0xef),
    Byte(0, 0x40),
    Byte(0, 0x17),
    Byte(0, 0),
    Byte(0, 0),
    Select(false),
    Select(true),
    Byte(0x05, 0xff),
    Byte(0, 0),
];

/// A program of the byte 0f and then of f3 leaves 03, each after 6,400 cycles, and one without write enable leaves it so. Bytes go on
/// at the beginning of the page, and a later byte for a place replaces the earlier one. A read goes on at the beginning of the flash.
/// The name is three bytes and then 00. A selection that leaves the flash selected or deselected does nothing, and a flash that isn't
/// selected answers ff.
#[test]
fn programs_and_reads(rt: HostRuntime) {
    let mut spi = Spi::new(rt.alloc(), true).expect(&rt, "memory for the flash");
    perform(&rt, &mut spi, PROGRAM);
    perform(&rt, &mut spi, PAGES);
    perform(&rt, &mut spi, READ);
}

/// 000fff, 001000 and 010000 are programmed to 00, and then the block of 4,096 bytes at 001000 is erased.
const SMALL: &[Act] = &[
    Control(1),
    Command(0x02, [0, 0x0f, 0xff]),
    Byte(0, 0xff),
    Select(false),
    Wait(6_400),
    Command(0x02, [0, 0x10, 0]),
    Byte(0, 0xff),
    Select(false),
    Wait(6_400),
    Command(0x02, [1, 0, 0]),
    Byte(0, 0xff),
    Select(false),
    Wait(6_400),
    Command(0x20, [0, 0x1a, 0xbc]),
    // ten bytes and seven selections come before the wait
    Select(false),
    Select(true),
    Byte(0x03, 0xff),
    Byte(0, 0xff),
    Byte(0x10, 0xff),
    Byte(0, 0xff),
    Byte(0, 0xff),
    Select(false),
    Select(true),
    Byte(0x04, 0xff),
    Select(false),
    Select(true),
    Byte(0x05, 0xff),
    Byte(0, 0x03),
    Select(false),
    Select(true),
    Byte(0x9f, 0xff),
    Byte(0, 0xff),
    Wait(63_999 - 10 * 16 - 7),
    Holds(0x1000, 0),
    Wait(1),
    Holds(0x1000, 0xff),
    Holds(0x0fff, 0),
    Byte(0, 0xff),
    Select(false),
    Select(true),
    Byte(0x05, 0xff),
    Byte(0, 0),
    Select(false),
];

const LARGE: &[Act] = &[
    Command(0xd8, [0, 0xab, 0xcd]),
    Select(false),
    Wait(319_999),
    Holds(0x0fff, 0),
    Wait(1),
    Holds(0x0fff, 0xff),
    Holds(0x1_0000, 0),
];

const UNFINISHED: &[Act] = &[
    Select(true),
    Byte(0x06, 0xff),
    Select(false),
    Select(true),
    Byte(0xd8, 0xff),
    Byte(1, 0xff),
    Byte(0, 0xff),
    Select(false),
    Select(true),
    Byte(0x05, 0xff),
    Byte(0, 0x02),
    Select(false),
];

const RESETS: &[Act] = &[
    Command(0xd8, [1, 0, 0]),
    Reset,
    Control(1),
    Select(true),
    Byte(0x05, 0xff),
    Byte(0, 0x02),
    Select(false),
    Command(0x20, [1, 0, 0]),
    Select(false),
    Reset,
    Control(1),
    Wait(63_997),
    Holds(0x1_0000, 0),
    Wait(1),
    Holds(0x1_0000, 0xff),
];

/// Erases make their block ff after 64,000 and 320,000 cycles. While one is under way only the status answers, and commands that come
/// then do nothing. A command without its whole address starts nothing, nor does a Reset, and an operation under way goes on
/// through one.
#[test]
fn erases(rt: HostRuntime) {
    let mut spi = Spi::new(rt.alloc(), true).expect(&rt, "memory for the flash");
    perform(&rt, &mut spi, SMALL);
    perform(&rt, &mut spi, LARGE);
    perform(&rt, &mut spi, UNFINISHED);
    perform(&rt, &mut spi, RESETS);
}

/// The cycles in which credits go up, of a unit that is given these messages.
fn gives_credits(rt: &impl Abort, spi: &mut Spi, downs: &[(Cycle, Down)], credits: &[Cycle]) {
    for now in 0..200 {
        let mut down = None;
        for (cycle, message) in downs {
            if *cycle == now {
                down = Some(*message);
            }
        }
        let credit = match spi.cycle(now, down).up {
            Some(up) => up.credit,
            None => false,
        };
        assert!(rt; credit == credits.contains(&now), "in {now}");
    }
}

/// The byte of cycle 1 runs in the sixteen cycles from then on, also where the unit is disabled in cycle 5. The next one begins in
/// cycle 100, in which the unit is enabled, and takes sixty-four. A flash that isn't fitted answers 00. Of seventeen entries the last
/// is lost.
#[test]
fn pace(rt: HostRuntime) {
    let mut spi = Spi::new(rt.alloc(), false).expect(&rt, "no memory");
    let downs = [
        (0, Down::Set { reg: 0, word: 1 }),
        (1, Down::Set { reg: 4, word: 0 }),
        (2, Down::Set { reg: 4, word: 0 }),
        (5, Down::Set { reg: 0, word: 0 }),
        (100, Down::Set { reg: 0, word: 0x49 }),
    ];
    gives_credits(&rt, &mut spi, &downs, &[16, 163]);
    let unfitted = [Control(1), Select(true), Byte(0x9f, 0), Byte(0, 0), Reset];
    perform(&rt, &mut spi, &unfitted);
    let select = Down::Set { reg: 8, word: 1 };
    let mut full = [(0, select); 18];
    for place in 0..17 {
        full[place].0 = place as Cycle;
    }
    full[17] = (17, Down::Set { reg: 0, word: 1 });
    let credits = [
        17, 18, 19, 20, 21, 22, 23, 24, 25, 26, 27, 28, 29, 30, 31, 32,
    ];
    gives_credits(&rt, &mut spi, &full, &credits);
}

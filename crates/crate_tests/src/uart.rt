//! Units that are given messages cycle by cycle, and all that they say.

use chip_base::{Bytes, Cycle, Down, Event, EventKind, Steps0, UartStep, UnitOut, Up};
use std::alloc::{AllocError, Global};
use std::process::Abort;
use uart_lane::Uart;

/// A step of a script, by its text.
#[derive(Clone, Copy)]
enum Step<'a> {
    At(Cycle),
    Expect(&'a [u8]),
    Send(&'a [u8]),
    Image,
}

/// What a unit says in a cycle.
#[derive(Clone, Copy)]
enum Said {
    /// A byte left it, with its credit.
    Sent(u32),
    Received(u32),
    /// The first byte left it, and the second was received.
    Both(u32, u32),
    Done,
}

#[derive(Clone, Copy)]
struct Case<'a> {
    steps: &'a [Step<'a>],
    downs: &'a [(Cycle, Down)],
    says: &'a [(Cycle, Said)],
}

/// Enables a unit with frames of twenty cycles.
const ENABLE: Down = Down::Set { reg: 0, word: 1 };

/// Disables a unit, and gives it frames of forty cycles.
const DISABLE: Down = Down::Set { reg: 0, word: 8 };

/// Enables a unit with frames of forty cycles.
const ENABLE_LONGER: Down = Down::Set { reg: 0, word: 9 };

const A: Down = Down::Set { reg: 4, word: 0x41 };

const B: Down = Down::Set { reg: 4, word: 0x42 };

const C: Down = Down::Set { reg: 4, word: 0x43 };

fn bytes(alloc: Global, text: &[u8]) -> Result<Bytes, AllocError> {
    Ok(Bytes::from_vec(Vec::from_slice(alloc, text)?))
}

fn expect(alloc: Global, text: &[u8]) -> Result<UartStep, AllocError> {
    Ok(UartStep::Expect(bytes(alloc, text)?))
}

fn send(alloc: Global, text: &[u8]) -> Result<UartStep, AllocError> {
    Ok(UartStep::Send(bytes(alloc, text)?))
}

fn uart_step(alloc: Global, step: Step) -> Result<UartStep, AllocError> {
    match step {
        Step::At(cycle) => Ok(UartStep::At(cycle)),
        Step::Expect(text) => expect(alloc, text),
        Step::Send(text) => send(alloc, text),
        Step::Image => Ok(UartStep::Image),
    }
}

/// The unit uart0 with these steps and the image `yz`.
fn unit(rt: &impl Abort, alloc: Global, steps: &[Step]) -> Result<Uart, AllocError> {
    let mut all = Vec::new(alloc);
    for next in steps {
        all.push(uart_step(alloc, *next)?)?;
    }
    let steps = Steps0::from_vec(all).expect(rt, "a valid script");
    Ok(Uart::new(1, steps, bytes(alloc, b"yz")?))
}

fn message(downs: &[(Cycle, Down)], now: Cycle) -> Option<Down> {
    for (cycle, down) in downs {
        if *cycle == now {
            return Some(*down);
        }
    }
    None
}

const fn sent(cycle: Cycle, value: u32) -> Option<Event> {
    Some(Event {
        cycle,
        unit: 1,
        kind: EventKind::Tx,
        value,
    })
}

const fn received(word: u32) -> Up {
    Up {
        has: true,
        word,
        ..Up::SILENT
    }
}

const fn both(word: u32) -> Up {
    Up {
        credit: true,
        ..received(word)
    }
}

fn out(says: &[(Cycle, Said)], now: Cycle) -> UnitOut {
    for (cycle, said) in says {
        if *cycle == now {
            let (up, event) = match *said {
                Said::Sent(byte) => (Up::CREDIT, sent(now, byte)),
                Said::Received(byte) => (received(byte), None),
                Said::Both(byte, word) => (both(word), sent(now, byte)),
                Said::Done => (Up::DONE, None),
            };
            return UnitOut {
                up: Some(up),
                event,
            };
        }
    }
    UnitOut::QUIET
}

/// Looks at 12,000 cycles.
fn runs(rt: &impl Abort, uart: &mut Uart, case: &Case) {
    for now in 0..12_000 {
        let given = uart.cycle(now, message(case.downs, now));
        assert!(rt; given == out(case.says, now), "in {now}");
    }
}

/// Steps that pass at once take a cycle each, also a send of no byte. A text counts from the cycle after the one in which its step
/// becomes the current one: the A of cycle 20 and the C of cycle 180 come too early.
const SCRIPT: Case<'static> = Case {
    steps: &[
        Step::At(0),
        Step::At(1),
        Step::At(0),
        Step::Send(b""),
        Step::Send(b"x"),
        Step::Image,
        Step::Expect(b"AB"),
        Step::Send(b"w"),
        Step::At(180),
        Step::Expect(b"C"),
        Step::Send(b"v"),
    ],
    downs: &[
        (0, ENABLE),
        (1, A),
        (64, B),
        (84, A),
        (85, B),
        (161, C),
        (181, C),
    ],
    says: &[
        (20, Said::Sent(0x41)),
        (23, Said::Received(0x78)),
        (43, Said::Received(0x79)),
        (63, Said::Received(0x7a)),
        (83, Said::Sent(0x42)),
        (103, Said::Sent(0x41)),
        (123, Said::Sent(0x42)),
        (143, Said::Received(0x77)),
        (180, Said::Sent(0x43)),
        (200, Said::Sent(0x43)),
        (220, Said::Received(0x76)),
    ],
};

/// A Reset drops the frame of x, and later that of z, whose step passes in cycle 36. A text may begin before a Reset and end after it.
const RESETS: Case<'static> = Case {
    steps: &[
        Step::Send(b"xy"),
        Step::Send(b"z"),
        Step::Expect(b"AB"),
        Step::Send(b"w"),
    ],
    downs: &[
        (0, ENABLE),
        (10, Down::Reset),
        (11, ENABLE),
        (35, Down::Reset),
        (36, ENABLE),
        (37, A),
        (60, Down::Reset),
        (61, ENABLE),
        (62, B),
    ],
    says: &[
        (10, Said::Done),
        (30, Said::Received(0x79)),
        (35, Said::Done),
        (56, Said::Sent(0x41)),
        (60, Said::Done),
        (81, Said::Sent(0x42)),
        (101, Said::Received(0x77)),
    ],
};

/// Frames of both sides begin in cycle 5 and keep their length where the unit is disabled. The next ones begin where it is enabled.
const DISABLED: Case<'static> = Case {
    steps: &[Step::Send(b"xy")],
    downs: &[
        (1, A),
        (2, B),
        (5, ENABLE),
        (8, DISABLE),
        (100, ENABLE_LONGER),
    ],
    says: &[(24, Said::Both(0x41, 0x78)), (139, Said::Both(0x42, 0x79))],
};

/// Prescaler 2 and baud 277: 556 cycles for each bit.
const STANDARD: Case<'static> = Case {
    steps: &[],
    downs: &[
        (
            0,
            Down::Set {
                reg: 0,
                word: 0x4541,
            },
        ),
        (1, A),
        (2, B),
    ],
    says: &[(5_560, Said::Sent(0x41)), (11_120, Said::Sent(0x42))],
};

/// Gives a disabled unit seventeen bytes, and then enables it: how many bytes leave.
fn leave(uart: &mut Uart) -> u32 {
    let mut count: u32 = 0;
    for now in 0..400 {
        let down = match now {
            0..17 => A,
            _ => ENABLE,
        };
        if uart.cycle(now, Some(down)).event.is_some() {
            count = count.saturating_add(1);
        }
    }
    count
}

/// A unit of its own says what the case has.
fn passes(rt: &impl Abort, alloc: Global, case: &Case) -> Result<(), AllocError> {
    let mut uart = unit(rt, alloc, case.steps)?;
    runs(rt, &mut uart, case);
    Ok(())
}

#[test]
fn cases(rt: HostRuntime) -> Result<(), AllocError> {
    for case in &[SCRIPT, RESETS, DISABLED, STANDARD] {
        passes(&rt, rt.alloc(), case)?;
    }
    Ok(())
}

#[test]
fn sixteen_bytes_wait(rt: HostRuntime) -> Result<(), AllocError> {
    let mut uart = unit(&rt, rt.alloc(), &[])?;
    assert!(&rt; leave(&mut uart) == 16);
    Ok(())
}

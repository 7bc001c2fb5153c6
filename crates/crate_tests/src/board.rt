use board_units::{Gpio, Pwm, Watchdog};
use chip_base::{Cycle, Down, Event, EventKind, PinStep, Pins, UnitOut, Up};
use std::alloc::Global;
use std::process::Abort;

const fn set(reg: u8, word: u32) -> Option<Down> {
    Some(Down::Set { reg, word })
}

const fn out(cycle: Cycle, unit: u8, value: u32) -> Option<Event> {
    Some(Event {
        cycle,
        unit,
        kind: EventKind::Out,
        value,
    })
}

const fn inputs(done: bool, word: u32) -> Option<Up> {
    Some(Up {
        done,
        fire: false,
        credit: false,
        has: true,
        word,
    })
}

const fn pin(cycle: Cycle, pin: u8, level: bool) -> PinStep {
    PinStep { cycle, pin, level }
}

const RESET: Option<Down> = Some(Down::Reset);

/// Pin 3 rises in cycle 2, where pin 5 rises and falls; pin 31 rises in cycle 4, and pin 3 falls in cycle 6, that of a Reset.
fn script(rt: &impl Abort, alloc: Global) -> Pins {
    let mut steps = Vec::new(alloc);
    for step in [
        pin(2, 3, true),
        pin(2, 5, true),
        pin(2, 5, false),
        pin(4, 31, true),
        pin(6, 3, false),
    ] {
        steps.push(step).expect(rt, "memory for the script");
    }
    Pins::from_vec(steps).expect(rt, "a valid script")
}

/// A cycle, the message in it, the inputs that go up, also as the answer to a Reset, and the outputs that are told.
type Row = (Cycle, Option<Down>, Option<(bool, u32)>, Option<u32>);

fn says(gpio: &mut Gpio, row: &Row) -> bool {
    let (now, down, up, outputs) = *row;
    let up = match up {
        Some((done, word)) => inputs(done, word),
        None => None,
    };
    let event = match outputs {
        Some(word) => out(now, 4, word),
        None => None,
    };
    gpio.cycle(now, down) == UnitOut { up, event }
}

/// Sets the outputs.
const OUTPUTS: Option<Down> = Some(Down::Set {
    reg: 4,
    word: 0xdead_beef,
});

/// Sets a register that isn't there.
const NOWHERE: Option<Down> = Some(Down::Set { reg: 8, word: 1 });

const FROM_THE_BEGINNING: &[Row] = &[
    (0, None, None, None),
    (1, OUTPUTS, None, Some(0xdead_beef)),
    (2, OUTPUTS, Some((false, 8)), None),
    (3, NOWHERE, None, None),
    (4, None, Some((false, 0x8000_0008)), None),
    (5, None, None, None),
    (6, RESET, Some((true, 0x8000_0000)), Some(0)),
    (7, RESET, Some((true, 0x8000_0000)), None),
];

const FROM_CYCLE_3: &[Row] = &[
    (3, None, None, None),
    (4, None, Some((false, 0x8000_0000)), None),
    (2, None, None, None),
    (6, None, None, None),
];

#[test]
fn pins_and_outputs(rt: HostRuntime) {
    let mut gpio = Gpio::new(script(&rt, rt.alloc()));
    for row in FROM_THE_BEGINNING {
        assert!(&rt; says(&mut gpio, row), "in {}", row.0);
    }
}

/// A unit whose first cycle is 3 passes over the pins of cycle 2, also later.
#[test]
fn later_pins(rt: HostRuntime) {
    let mut gpio = Gpio::new(script(&rt, rt.alloc()));
    for row in FROM_CYCLE_3 {
        assert!(&rt; says(&mut gpio, row), "in {}", row.0);
    }
}

fn event_in(events: &[(Cycle, u32)], now: Cycle) -> Option<Event> {
    for (cycle, mask) in events {
        if *cycle == now {
            return out(now, 5, *mask);
        }
    }
    None
}

/// Whether an enabled unit does this in a cycle.
fn is_driven(pwm: &mut Pwm, now: Cycle, control: u32, event: Option<Event>) -> bool {
    let down = match now {
        0 => set(4, 0),
        1 => set(8, 0x301),
        2 => set(16, 255),
        3 => set(0, control),
        _ => None,
    };
    pwm.cycle(now, down) == UnitOut { up: None, event }
}

/// A Reset in cycle 1,040, after which the duties are gone.
fn is_reset(pwm: &mut Pwm) -> bool {
    let reset = UnitOut {
        up: Some(Up::DONE),
        event: out(1_040, 5, 0),
    };
    let done = pwm.cycle(1_040, RESET) == reset;
    let gone = pwm.cycle(1_041, set(0, 1)) == UnitOut::QUIET;
    done && gone
}

fn has_duties(rt: &impl Abort, control: u32, events: &[(Cycle, u32)]) {
    let mut pwm = Pwm::new();
    for now in 0..1_040 {
        let event = event_in(events, now);
        assert!(rt; is_driven(&mut pwm, now, control, event), "in {now}");
    }
    assert!(rt; is_reset(&mut pwm));
}

/// A unit is enabled in cycle 3, with the duty 0 of channel 0, 1 of channel 1 and 255 of channel 3. By the prescaler 2 its step k is
/// in the cycles 3 + 2 * k and 4 + 2 * k, and by the prescaler 4 in the four cycles from 3 + 4 * k on.
#[test]
fn duties(rt: HostRuntime) {
    let by_two = &[
        (3, 10),
        (5, 8),
        (513, 0),
        (515, 10),
        (517, 8),
        (1_025, 0),
        (1_027, 10),
        (1_029, 8),
    ];
    has_duties(&rt, 1, by_two);
    let by_four = &[(3, 10), (7, 8), (1_023, 0), (1_027, 10), (1_031, 8)];
    has_duties(&rt, 9, by_four);
}

fn watchdog_down(now: Cycle) -> Option<Down> {
    match now {
        1 => set(0, 1),
        2 => set(4, 0xfeed),
        3 => set(0, 0x101),
        100 => set(4, 0xfeed),
        360 => set(0, 0x101),
        400 => RESET,
        401 => set(4, 0xfeed),
        _ => None,
    }
}

fn watchdog_out(now: Cycle) -> UnitOut {
    match now {
        355 => UnitOut {
            up: Some(Up {
                fire: true,
                ..Up::SILENT
            }),
            event: Some(Event {
                cycle: 355,
                unit: 7,
                kind: EventKind::Fire,
                value: 0,
            }),
        },
        400 => UnitOut {
            up: Some(Up::DONE),
            event: None,
        },
        _ => UnitOut::QUIET,
    }
}

/// A watchdog is enabled in cycle 3 with a timeout of 256 cycles, and fed in cycle 100: it fires in cycle 355. Then it hears nothing
/// until the Reset in cycle 400, which disables it. A feed of a disabled one does nothing.
#[test]
fn fires_in_time(rt: HostRuntime) {
    let mut watchdog = Watchdog::new();
    for now in 0..1_000 {
        let out = watchdog.cycle(now, watchdog_down(now));
        assert!(&rt; out == watchdog_out(now), "in {now}");
    }
}

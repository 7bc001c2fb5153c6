//! The watchdog's unit, one cycle at a time.
ghost use Rattle.std.specs.Prelude.{◌≡◌};

use chip_base::{ChipUnit, Cycle, Down, Event, EventKind, UnitOut, Up};
use std::marker::Model;

/// A countdown that fires where it isn't fed in time. Once it has fired it hears nothing but a Reset.
///
/// No call takes memory.
#[derive(Drop)]
pub struct Watchdog {
    enabled: bool,
    timeout: u32,
    left: u32,
    fired: bool,
}

impl Model for Watchdog {
    ghost use Rattle.std.specs.Prelude.{◌≡◌, ◌<◌, true};
    ghost use Rattle.board_units.specs.WatchdogState.{WatchdogState};

    ghost Value = { WatchdogState };

    ghost view = { λ w. record { enabled = w.enabled; timeout = w.timeout; left = w.left; fired = w.fired } };

    ghost invariant = { λ w. (w.enabled ≡ true → 0 < w.timeout) × (w.enabled ≡ true → 0 < w.left) };
}

impl Watchdog {
    ghost use Rattle.board_units.specs.WatchdogState.{watchdog_reset};
    ghost use Rattle.board_units.specs.WatchdogCycle.{configured, fed, set_in, counted, fires, watchdog_cycle};
    ghost use Rattle.board_units.specs.WatchdogTime.{FiresOnce, FiresOnceUntilReset, KeepsTime, RestsDisabled};
    ghost use Rattle.board_units.specs.Laws.{AnswersResets};

    /// The unit at power-on: disabled.
    pub fn new() -> Watchdog
        ensures state { result ≡ watchdog_reset }
        ensures time { KeepsTime }
        ensures once { FiresOnceUntilReset }
    {
        Watchdog {
            enabled: false,
            timeout: 0,
            left: 0,
            fired: false,
        }
    }

    fn configure(&mut self, control: u32)
        ensures { self.new ≡ configured self.old control }
    {
        self.timeout = control / 256 * 256;
        self.enabled = control % 2 == 1 && self.timeout > 0;
        self.left = self.timeout;
    }

    fn feed(&mut self)
        ensures { self.new ≡ fed self.old }
    {
        if self.enabled {
            self.left = self.timeout;
        }
    }

    fn set(&mut self, reg: u8, word: u32)
        ensures { self.new ≡ set_in self.old reg word }
    {
        match reg {
            0 => self.configure(word),
            4 => self.feed(),
            _ => {}
        }
    }

    fn fire(&mut self, now: Cycle) -> UnitOut
        ensures unit { self.new ≡ (fires now).unit }
        ensures up { result.up ≡ (fires now).up }
        ensures event { result.event ≡ (fires now).event }
    {
        *self = Watchdog {
            fired: true,
            ..Watchdog::new()
        };
        UnitOut {
            up: Some(Up::FIRE),
            event: Some(Event {
                cycle: now,
                unit: ChipUnit::Wdt.number(),
                kind: EventKind::Fire,
                value: 0,
            }),
        }
    }

    fn count(&mut self, now: Cycle) -> UnitOut
        ensures unit { self.new ≡ (counted self.old now).unit }
        ensures up { result.up ≡ (counted self.old now).up }
        ensures event { result.event ≡ (counted self.old now).event }
    {
        if !self.enabled {
            return UnitOut::QUIET;
        }
        if self.left == 1 {
            return self.fire(now);
        }
        self.left -= 1;
        UnitOut::QUIET
    }

    /// One cycle: takes the message that arrives in it, if there is one, and gives what leaves the unit: that it fired, with the event of
    /// it, or that a Reset was done.
    #[tactic(auto, unfolding(crate::specs::WatchdogCycle::watchdog_cycle))]
    pub fn cycle(&mut self, now: Cycle, down: Option<Down>) -> UnitOut
        ensures unit { self.new ≡ (watchdog_cycle self.old now down).unit }
        ensures up { result.up ≡ (watchdog_cycle self.old now down).up }
        ensures event { result.event ≡ (watchdog_cycle self.old now down).event }
        ensures answers { AnswersResets down result.up }
        ensures once { FiresOnce now self.old down self.new result.up result.event }
        ensures rests { RestsDisabled self.new }
    {
        match down {
            Some(Down::Reset) => {
                *self = Watchdog::new();
                UnitOut {
                    up: Some(Up::DONE),
                    event: None,
                }
            }
            _ if self.fired => UnitOut::QUIET,
            Some(Down::Set { reg, word }) => {
                self.set(reg, word);
                self.count(now)
            }
            None => self.count(now),
        }
    }
}

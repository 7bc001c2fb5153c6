//! The pulse-width modulation unit, one cycle at a time.
ghost use Rattle.std.specs.Prelude.{◌≡◌, ◌≤◌, ◌<◌, ◌*◌, ◌^◌, if◌then◌else◌};
ghost use Rattle.chip_base.specs.UnitTable.{unit_row};

use crate::messages::change;
use chip_base::prescaler::prescaler;
use chip_base::{ChipUnit, Cycle, Down, UnitOut, Up};
use std::marker::Model;

/// Four channels, each of whose outputs is high in the first steps of each 256, as many as its duty says.
///
/// No call takes memory.
#[derive(Drop)]
pub struct Pwm {
    enabled: bool,
    prescaler: u32,
    duties: [u8; 4],
    count: u32,
    step: u8,
    mask: u32,
}

impl Model for Pwm {
    ghost use Rattle.std.specs.Prelude.{◌≡◌, ◌≤◌, ◌<◌, length};
    ghost use Rattle.board_units.specs.PwmState.{PwmState};

    ghost Value = { PwmState };

    ghost view = { λ p. record { enabled = p.enabled; prescaler = p.prescaler; duties = p.duties; count = p.count; step = p.step; mask = p.mask } };

    ghost invariant = { λ p. (length p.duties ≡ 4) × (0 < p.prescaler) × (p.prescaler ≤ 4096) × (p.count ≤ 4096) × (p.step < 256) };
}

impl Pwm {
    ghost use Rattle.board_units.specs.PwmState.{pwm_reset};
    ghost use Rattle.board_units.specs.PwmCycle.{configured, with_duty, set_in, is_high, outputs_of, counted, shown, reset, pwm_cycle};
    ghost use Rattle.board_units.specs.PwmWave.{MakesWave, RestsDisabled, StartsAtOnce};
    ghost use Rattle.board_units.specs.Laws.{AnswersResets, TellsChange};

    /// The unit at power-on: disabled, with the prescaler 2 and duties of 0.
    pub fn new() -> Pwm
        ensures { result ≡ pwm_reset }
    {
        Pwm {
            enabled: false,
            prescaler: 2,
            duties: [0; 4],
            count: 0,
            step: 0,
            mask: 0,
        }
    }

    /// How many cycles the 256 steps take by the present control word.
    pub fn period(&self) -> u32
        ensures length { result ≡ 256 * self.now.prescaler }
        ensures wave { MakesWave self.now result }
        ensures start { StartsAtOnce self.now }
    {
        256 * self.prescaler
    }

    fn configure(&mut self, control: u32)
        ensures { self.new ≡ configured self.old control }
    {
        self.enabled = control % 2 == 1;
        self.prescaler = prescaler(control);
    }

    fn set_duty(&mut self, channel: usize, word: u32)
        requires { channel < 4 }
        ensures { self.new ≡ with_duty self.old channel word }
    {
        self.duties[channel] = (word % 256) as u8;
    }

    fn set(&mut self, reg: u8, word: u32)
        ensures { self.new ≡ set_in self.old reg word }
    {
        match reg {
            0 => self.configure(word),
            4 => self.set_duty(0, word),
            8 => self.set_duty(1, word),
            12 => self.set_duty(2, word),
            16 => self.set_duty(3, word),
            _ => {}
        }
    }

    fn bit(&self, channel: usize, bit: u32) -> u32
        requires { channel < 4 }
        ensures { result ≡ (if is_high self.now channel then bit else 0) }
    {
        if self.enabled && self.step < self.duties[channel] {
            bit
        } else {
            0
        }
    }

    fn mask(&self) -> u32
        ensures { result ≡ outputs_of self.now }
    {
        self.bit(0, 1) + self.bit(1, 2) + self.bit(2, 4) + self.bit(3, 8)
    }

    fn count(&mut self)
        ensures { self.new ≡ counted self.old }
    {
        if !self.enabled {
            self.count = 0;
            self.step = 0;
            return;
        }
        self.count += 1;
        if self.count >= self.prescaler {
            self.count = 0;
            self.step = self.step.wrapping_add(1);
        }
    }

    fn show(&mut self, now: Cycle) -> UnitOut
        ensures unit { self.new ≡ (shown self.old now).unit }
        ensures up { result.up ≡ (shown self.old now).up }
        ensures event { result.event ≡ (shown self.old now).event }
    {
        let before = self.mask;
        self.mask = self.mask();
        self.count();
        UnitOut {
            up: None,
            event: change(now, ChipUnit::Pwm.number(), before, self.mask),
        }
    }

    fn reset(&mut self, now: Cycle) -> UnitOut
        ensures unit { self.new ≡ (reset self.old now).unit }
        ensures up { result.up ≡ (reset self.old now).up }
        ensures event { result.event ≡ (reset self.old now).event }
    {
        let event = change(now, ChipUnit::Pwm.number(), self.mask, 0);
        *self = Pwm::new();
        UnitOut {
            up: Some(Up::DONE),
            event,
        }
    }

    /// One cycle: takes the message that arrives in it, if there is one, and gives what leaves the unit: the event of a change
    /// of the outputs, as a mask with the channel's bit where its output is high, and that a Reset was done.
    pub fn cycle(&mut self, now: Cycle, down: Option<Down>) -> UnitOut
        ensures unit { self.new ≡ (pwm_cycle self.old now down).unit }
        ensures up { result.up ≡ (pwm_cycle self.old now down).up }
        ensures event { result.event ≡ (pwm_cycle self.old now down).event }
        ensures answers { AnswersResets down result.up }
        ensures tells { TellsChange now (unit_row ChipUnit.Pwm).number self.old.mask self.new.mask result.event }
        ensures rests { RestsDisabled self.new }
    {
        match down {
            Some(Down::Reset) => self.reset(now),
            Some(Down::Set { reg, word }) => {
                self.set(reg, word);
                self.show(now)
            }
            None => self.show(now),
        }
    }
}

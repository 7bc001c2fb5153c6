//! The unit of the general-purpose pins, one cycle at a time.
ghost use Rattle.std.specs.Prelude.{◌≡◌, ◌≤◌, ◌<◌, ◌+◌, length, drop, true};
ghost use Rattle.chip_base.specs.UnitTable.{unit_row};
ghost use Rattle.std.specs.List.{list_all};
ghost use Rattle.chip_base.specs.Steps.{is_pin};
ghost use Rattle.board_units.specs.GpioCycle.{with_level, inputs_after, still_to_come};

use crate::messages::{change, done_and, with_word};
use chip_base::{ChipUnit, Cycle, Down, PinStep, Pins, UnitOut, Up};
use std::marker::Model;

/// 32 input pins, which follow a script, and 32 output pins.
///
/// No call takes memory.
#[derive(Drop)]
pub struct Gpio {
    pins: Pins,
    place: usize,
    inputs: u32,
    outputs: u32,
}

impl Model for Gpio {
    ghost use Rattle.std.specs.Prelude.{◌≤◌, length, drop};
    ghost use Rattle.board_units.specs.GpioState.{GpioState};

    ghost Value = { GpioState };

    ghost view = { λ g. record { pins = drop g.place g.pins; inputs = g.inputs; outputs = g.outputs } };

    ghost invariant = { λ g. g.place ≤ length g.pins };
}

/// The inputs after one pin change.
fn level(inputs: u32, step: PinStep) -> u32
    requires { is_pin step ≡ true }
    ensures { result ≡ with_level inputs step }
{
    let bit = 1 << step.pin;
    if step.level {
        inputs | bit
    } else {
        inputs & !bit
    }
}

/// How many pin changes are of this cycle or earlier, and the inputs after those of this cycle.
fn change_inputs(steps: &[PinStep], now: Cycle, inputs: u32) -> (usize, u32)
    requires pins { list_all is_pin steps.now ≡ true }
    ensures count { result.0 ≤ length steps.now }
    ensures rest { drop result.0 steps.now ≡ still_to_come now steps.now }
    ensures inputs { result.1 ≡ inputs_after now steps.now inputs }
{
    let mut levels = inputs;
    let mut count = 0;
    for step in steps {
        if step.cycle > now {
            return (count, levels);
        }
        if step.cycle == now {
            levels = level(levels, *step);
        }
        count += 1;
    }
    (count, levels)
}

impl Gpio {
    ghost use Rattle.board_units.specs.GpioScript.{ChangesNow, FollowsScript};
    ghost use Rattle.board_units.specs.GpioState.{gpio_start};
    ghost use Rattle.board_units.specs.GpioCycle.{moved, input_up, gpio_cycle};
    ghost use Rattle.board_units.specs.Laws.{AnswersResets, TellsChange};

    /// The unit at power-on: all pins are low, and the script's pin changes are still to come.
    #[tactic(auto, using(crate::proofs::Script::follows_script))]
    pub fn new(pins: Pins) -> Gpio
        ensures state { result ≡ gpio_start pins }
        ensures script { FollowsScript pins }
    {
        Gpio {
            pins,
            place: 0,
            inputs: 0,
            outputs: 0,
        }
    }

    fn follow(&mut self, now: Cycle)
        ensures { self.new ≡ moved self.old now }
    {
        let steps = self.pins.as_slice();
        let (count, inputs) = change_inputs(&steps[self.place..], now, self.inputs);
        self.place += count;
        self.inputs = inputs;
    }

    /// One cycle: takes the message that arrives in it, if there is one, and the script's pin changes of this very cycle, also in
    /// that of a Reset. Pin changes of earlier cycles that the unit wasn't given are passed over without effect.
    ///
    /// Gives what leaves the unit: the inputs, where they changed or a Reset was done, and the event of a change of the outputs.
    #[tactic(auto, unfolding(crate::specs::GpioCycle::gpio_cycle), using(crate::proofs::Script::changes_now))]
    pub fn cycle(&mut self, now: Cycle, down: Option<Down>) -> UnitOut
        ensures unit { self.new ≡ (gpio_cycle self.old now down).unit }
        ensures up { result.up ≡ (gpio_cycle self.old now down).up }
        ensures event { result.event ≡ (gpio_cycle self.old now down).event }
        ensures pins { ChangesNow self.old now self.new.inputs }
        ensures answers { AnswersResets down result.up }
        ensures tells { TellsChange now (unit_row ChipUnit.Gpio).number self.old.outputs self.new.outputs result.event }
    {
        let inputs = self.inputs;
        let outputs = self.outputs;
        self.follow(now);
        let mut up = if self.inputs == inputs {
            None
        } else {
            Some(with_word(self.inputs))
        };
        match down {
            Some(Down::Reset) => {
                self.outputs = 0;
                up = Some(done_and(self.inputs));
            }
            Some(Down::Set { reg: 4, word }) => self.outputs = word,
            _ => {}
        }
        UnitOut {
            up,
            event: change(now, ChipUnit::Gpio.number(), outputs, self.outputs),
        }
    }
}

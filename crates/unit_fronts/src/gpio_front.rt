//! The front of the general-purpose pins.
ghost use Rattle.std.specs.Prelude.{◌≡◌, false, true};
ghost use Rattle.chip_base.specs.UnitTable.{unit_has};
ghost use Rattle.chip_base.specs.declared.chip_unit.ChipUnit.TheVariants.{Gpio};

use crate::owed::Owed;
use chip_base::{Down, Up};
use std::marker::Model;

/// The registers of the general-purpose pins in the hub: IN at offset 0, OUT at 4, ENABLE at 8 and PENDING at 12.
///
/// IN is the word that the unit said last. A pin that rises sets its bit in PENDING, and a store clears the bits that it has
/// as 1. No call takes memory. While the front is closed, loads give 0, stores are ignored and every message is dropped but
/// one that says that a Reset was done; where that opens the front, its word becomes IN, and no pin rises.
#[derive(Drop)]
pub struct GpioFront {
    inputs: u32,
    outputs: u32,
    enable: u32,
    pending: u32,
    owed: Owed,
}

impl Model for GpioFront {
    ghost use Rattle.std.specs.Prelude.{◌<◌, ◌^◌};
    ghost use Rattle.unit_fronts.specs.GpioFront.{GpioRegisters};

    ghost Value = { GpioRegisters };

    ghost view = { λ f. record { inputs = f.inputs; outputs = f.outputs; enable = f.enable; pending = f.pending; owed = f.owed } };

    ghost invariant = { λ f. f.inputs < 2 ^ 32 };
}

impl GpioFront {
    ghost use Rattle.unit_fronts.specs.ClosedFront.{AwaitsAnswers};
    ghost use Rattle.unit_fronts.specs.LoadsAfterStore.{StoresPins};
    ghost use Rattle.unit_fronts.specs.Owed.{is_open_at, CountsAnswers};
    ghost use Rattle.unit_fronts.specs.GpioRises.{MarksRises, ClearsStored};
    ghost use Rattle.unit_fronts.specs.GpioFront.{gpio_front, gpio_front_reset, gpio_register, gpio_word, gpio_stored, gpio_sent, gpio_heard, gpio_answered, gpio_arrived, gpio_line, gpio_closed};

    /// The front at power-on: open, with all registers 0.
    pub fn new() -> GpioFront
        ensures { result ≡ gpio_front_reset 0 }
    {
        GpioFront {
            inputs: 0,
            outputs: 0,
            enable: 0,
            pending: 0,
            owed: Owed::none(),
        }
    }

    /// Loads the register at an offset.
    pub fn load(&mut self, reg: u8) -> u32
        requires register { unit_has Gpio reg ≡ true }
        ensures word { result ≡ gpio_word self.old reg }
        ensures front { self.new ≡ self.old }
    {
        if !self.owed.is_open() {
            return 0;
        }
        match reg {
            0 => self.inputs,
            4 => self.outputs,
            8 => self.enable,
            _ => self.pending,
        }
    }

    /// Stores a word to the register at an offset and gives the message for the unit. None exactly where the front is closed,
    /// or the register isn't OUT. A store to IN is ignored.
    #[tactic(auto, using(crate::proofs::LoadsAfterStore::stores_pins))]
    pub fn store(&mut self, reg: u8, word: u32) -> Option<Down>
        requires register { unit_has Gpio reg ≡ true }
        ensures message { result ≡ gpio_sent self.old reg word }
        ensures front { self.new ≡ gpio_stored self.old reg word }
        ensures owed { self.new.owed ≡ self.old.owed }
        ensures words { is_open_at self.old.owed ≡ true → StoresPins self.old reg word self.new }
        ensures cleared { ClearsStored self.old reg word self.new }
    {
        if !self.owed.is_open() {
            return None;
        }
        match reg {
            4 => {
                self.outputs = word;
                return Some(Down::Set { reg, word });
            }
            8 => self.enable = word,
            12 => self.pending &= !word,
            _ => {}
        }
        None
    }

    fn hear(&mut self, word: u32)
        ensures { self.new ≡ gpio_heard self.old word }
    {
        self.pending |= word & !self.inputs;
        self.inputs = word;
    }

    fn answer(&mut self, up: Up)
        requires { is_open_at self.old.owed ≡ false }
        ensures { self.new ≡ gpio_answered self.old up }
    {
        self.owed.answer();
        if self.owed.is_open() && up.has {
            self.inputs = up.word;
        }
    }

    /// Takes a message from the unit.
    pub fn arrive(&mut self, up: Up)
        ensures front { self.new ≡ gpio_arrived self.old up }
        ensures owed { CountsAnswers self.old.owed up self.new.owed }
        ensures rises { MarksRises self.old up self.new }
    {
        if !self.owed.is_open() {
            if up.done {
                self.answer(up);
            }
        } else if up.has && !up.done {
            self.hear(up.word);
        }
    }

    /// Whether the front's interrupt line is high: a bit of PENDING is set whose bit of ENABLE is set.
    pub fn line(&self) -> bool
        ensures { result ≡ gpio_line self.now }
    {
        self.pending & self.enable != 0
    }

    /// Closes the front. All but the count of owed answers takes its reset state. The last answer opens it with its word in IN.
    pub fn close(&mut self)
        ensures front { self.new ≡ gpio_closed self.old }
        ensures answers { AwaitsAnswers gpio_front self.new.owed self.new }
    {
        self.inputs = 0;
        self.outputs = 0;
        self.enable = 0;
        self.pending = 0;
        self.owed.close();
    }

    /// Whether every Reset was answered.
    pub fn is_open(&self) -> bool
        ensures { result ≡ is_open_at self.now.owed }
    {
        self.owed.is_open()
    }
}

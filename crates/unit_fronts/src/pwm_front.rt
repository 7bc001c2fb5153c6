//! The front of the pulse-width modulation unit.
ghost use Rattle.std.specs.Prelude.{◌≡◌, false, true};
ghost use Rattle.chip_base.specs.UnitTable.{unit_has};
ghost use Rattle.chip_base.specs.declared.chip_unit.ChipUnit.TheVariants.{Pwm};

use crate::owed::Owed;
use chip_base::{Down, Up};
use std::marker::Model;

/// The bits of CTRL that a store writes: enable (0) and prescaler (3 to 5).
const WRITABLE: u32 = 0x39;

/// The registers of the pulse-width modulation unit in the hub: CTRL at offset 0, and DUTY0 to DUTY3 at 4, 8, 12 and 16.
///
/// No call takes memory. While the front is closed, loads give 0, stores are ignored and every message is dropped but one
/// that says that a Reset was done.
#[derive(Drop)]
pub struct PwmFront {
    control: u32,
    duties: [u32; 4],
    owed: Owed,
}

impl Model for PwmFront {
    ghost use Rattle.std.specs.Prelude.{◌≡◌, length};
    ghost use Rattle.unit_fronts.specs.PwmFront.{PwmRegisters};

    ghost Value = { PwmRegisters };

    ghost view = { λ f. record { control = f.control; duties = f.duties; owed = f.owed } };

    ghost invariant = { λ f. length f.duties ≡ 4 };
}

impl PwmFront {
    ghost use Rattle.unit_fronts.specs.ClosedFront.{AwaitsAnswers};
    ghost use Rattle.unit_fronts.specs.LoadsAfterStore.{StoresDuties};
    ghost use Rattle.unit_fronts.specs.Owed.{is_open_at, CountsAnswers};
    ghost use Rattle.unit_fronts.specs.PwmFront.{pwm_front, pwm_front_reset, pwm_word, pwm_stored, pwm_sent, pwm_arrived, pwm_closed};

    /// The front at power-on: open, with all registers 0.
    pub fn new() -> PwmFront
        ensures { result ≡ pwm_front_reset 0 }
    {
        PwmFront {
            control: 0,
            duties: [0; 4],
            owed: Owed::none(),
        }
    }

    /// Loads the register at an offset.
    pub fn load(&mut self, reg: u8) -> u32
        requires register { unit_has Pwm reg ≡ true }
        ensures word { result ≡ pwm_word self.old reg }
        ensures front { self.new ≡ self.old }
    {
        if !self.owed.is_open() {
            0
        } else if reg == 0 {
            self.control
        } else {
            self.duties[usize::from(reg / 4 - 1)]
        }
    }

    /// Stores a word to the register at an offset and gives the message for the unit. None exactly where the front is closed.
    #[tactic(auto, using(crate::proofs::LoadsAfterStore::stores_duties))]
    pub fn store(&mut self, reg: u8, word: u32) -> Option<Down>
        requires register { unit_has Pwm reg ≡ true }
        ensures message { result ≡ pwm_sent self.old reg word }
        ensures front { self.new ≡ pwm_stored self.old reg word }
        ensures words { is_open_at self.old.owed ≡ true → StoresDuties self.old reg word self.new }
        ensures owed { self.new.owed ≡ self.old.owed }
    {
        if !self.owed.is_open() {
            return None;
        }
        if reg == 0 {
            self.control = word & WRITABLE;
            return Some(Down::Set {
                reg,
                word: self.control,
            });
        }
        let duty = word % 256;
        self.duties[usize::from(reg / 4 - 1)] = duty;
        Some(Down::Set { reg, word: duty })
    }

    /// Takes a message from the unit.
    pub fn arrive(&mut self, up: Up)
        ensures front { self.new ≡ pwm_arrived self.old up }
        ensures owed { CountsAnswers self.old.owed up self.new.owed }
    {
        if up.done && !self.owed.is_open() {
            self.owed.answer();
        }
    }

    /// The front's interrupt line, which is never high.
    pub fn line(&self) -> bool
        ensures { result ≡ false }
    {
        false
    }

    /// Closes the front. All but the count of owed answers takes its reset state, in which the last answer opens it.
    pub fn close(&mut self)
        ensures front { self.new ≡ pwm_closed self.old }
        ensures answers { AwaitsAnswers pwm_front self.new.owed self.new }
    {
        self.control = 0;
        self.duties = [0; 4];
        self.owed.close();
    }

    /// Whether every Reset was answered.
    pub fn is_open(&self) -> bool
        ensures { result ≡ is_open_at self.now.owed }
    {
        self.owed.is_open()
    }
}

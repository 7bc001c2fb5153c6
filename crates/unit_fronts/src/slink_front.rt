//! The front of the stream link.
ghost use Rattle.std.specs.Prelude.{◌≡◌, ◌≤◌, None, true};
ghost use Rattle.chip_base.specs.UnitTable.{unit_has};
ghost use Rattle.chip_base.specs.declared.chip_unit.ChipUnit.TheVariants.{Slink};

use crate::serial_registers::SerialRegisters;
use chip_base::{Down, Up};
use std::marker::Model;

/// The bits of CTRL that a store writes: enable (0) and interrupt enable (22).
const WRITABLE: u32 = 0x0040_0001;

/// The registers of the stream link in the hub: CTRL at offset 0, DATA at offset 4 and LAST at offset 8.
///
/// No call takes memory. While the front is closed, loads give 0, stores are ignored and every message is dropped but one
/// that says that a Reset was done.
#[derive(Drop)]
pub struct SlinkFront {
    registers: SerialRegisters,
}

impl Model for SlinkFront {
    ghost use Rattle.std.specs.Prelude.{◌≤◌};
    ghost use Rattle.unit_fronts.specs.Control.{HasNoRate};
    ghost use Rattle.unit_fronts.specs.SerialRegisters.{SerialRegisters};

    ghost Value = { SerialRegisters };

    ghost view = { λ f. f.registers };

    ghost invariant = { λ f. (f.registers.credits ≤ 16) × HasNoRate f.registers.kept };
}

impl SlinkFront {
    ghost use Rattle.chip_base.specs.Messages.{at_either_data};
    ghost use Rattle.unit_fronts.specs.ClosedFront.{AwaitsAnswers};
    ghost use Rattle.unit_fronts.specs.Control.{HasNoRate, TellsControl, SetsSlinkControl};
    ghost use Rattle.unit_fronts.specs.Counts.{SpendsCredits, HearsUnit};
    ghost use Rattle.unit_fronts.specs.FrontCalls.{LoadFrom, StoreTo, UnitSays};
    ghost use Rattle.unit_fronts.specs.ReceiveQueue.{GivesInOrder, MarksOverrun};
    ghost use Rattle.unit_fronts.specs.SerialRegisters.{serial_front_reset, serial_is_open, serial_arrived, serial_line, serial_closed};
    ghost use Rattle.unit_fronts.specs.SerialFront.{serial_front, serial_word, serial_loaded, serial_stored, serial_sent};
    ghost use Rattle.unit_fronts.specs.SlinkFront.{slink_kind};

    /// The front at power-on: open, with sixteen credits.
    pub fn new() -> SlinkFront
        ensures { result ≡ serial_front_reset 0 }
    {
        SlinkFront {
            registers: SerialRegisters::new(),
        }
    }

    /// Loads the register at an offset. A load of DATA takes the oldest received word, or gives 0; LAST reads 0.
    #[tactic(auto, using(crate::proofs::ReceiveQueue::gives_in_order, crate::proofs::ReceiveQueue::load_marks))]
    pub fn load(&mut self, reg: u8) -> u32
        requires register { unit_has Slink reg ≡ true }
        ensures word { result ≡ serial_word self.old reg }
        ensures front { self.new ≡ serial_loaded self.old reg }
        ensures control { serial_is_open self.old ≡ true → reg ≡ 0 → TellsControl self.old result }
        ensures bits { reg ≡ 0 → HasNoRate result }
        ensures credits { SpendsCredits at_either_data self.old None self.new }
        ensures order { GivesInOrder slink_kind self.old }
        ensures overrun { MarksOverrun self.old (LoadFrom reg) self.new }
    {
        if !self.registers.is_open() {
            return 0;
        }
        match reg {
            0 => self.registers.control(),
            4 => self.registers.take(),
            _ => 0,
        }
    }

    /// Stores a word to the register at an offset and gives the message for the unit. None exactly where the front is closed,
    /// or where a store to DATA or LAST finds no credit.
    #[tactic(auto, using(crate::proofs::Control::slink_part, crate::proofs::Control::slink_small, crate::proofs::Control::slink_no_rate, crate::proofs::Control::sets_slink_control, crate::proofs::Counts::spends, crate::proofs::ReceiveQueue::store_marks))]
    pub fn store(&mut self, reg: u8, word: u32) -> Option<Down>
        requires register { unit_has Slink reg ≡ true }
        ensures message { result ≡ serial_sent slink_kind self.old reg word }
        ensures front { self.new ≡ serial_stored slink_kind self.old reg word }
        ensures credits { SpendsCredits at_either_data self.old result self.new }
        ensures overrun { MarksOverrun self.old (StoreTo reg word) self.new }
        ensures control { serial_is_open self.old ≡ true → SetsSlinkControl self.old reg word self.new }
    {
        if !self.registers.is_open() {
            return None;
        }
        if reg == 0 {
            let kept = word & WRITABLE;
            self.registers.keep(kept);
            return Some(Down::Set { reg: 0, word: kept });
        }
        if !self.registers.spend() {
            return None;
        }
        Some(Down::Set { reg, word })
    }

    /// Takes a message from the unit. An open front drops one that says that a Reset was done; of any other it takes the credit,
    /// unless it has sixteen, and the received word, which is lost where sixteen wait. A closed front counts the answers to its
    /// Resets, and takes nothing else.
    #[tactic(auto, using(crate::proofs::ReceiveQueue::arrival_marks))]
    pub fn arrive(&mut self, up: Up)
        ensures front { self.new ≡ serial_arrived self.old up }
        ensures credits { HearsUnit self.old up self.new }
        ensures overrun { MarksOverrun self.old (UnitSays up) self.new }
    {
        self.registers.arrive(up);
    }

    /// Whether the front's interrupt line is high: a received word waits, and interrupts are enabled.
    pub fn line(&self) -> bool
        ensures { result ≡ serial_line self.now }
    {
        self.registers.line()
    }

    /// Closes the front. All but the count of owed answers takes its reset state, in which the last answer opens it.
    #[tactic(auto, using(crate::proofs::ClosedFront::serial_awaits))]
    pub fn close(&mut self)
        ensures front { self.new ≡ serial_closed self.old }
        ensures answers { AwaitsAnswers (serial_front slink_kind) self.new.owed self.new }
    {
        self.registers.close();
    }

    /// Whether every Reset was answered.
    pub fn is_open(&self) -> bool
        ensures { result ≡ serial_is_open self.now }
    {
        self.registers.is_open()
    }
}

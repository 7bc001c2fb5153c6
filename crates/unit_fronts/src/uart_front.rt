//! The front of a UART.
ghost use Rattle.std.specs.Prelude.{◌≡◌, ◌≤◌, None, true};
ghost use Rattle.chip_base.specs.UnitTable.{unit_has};
ghost use Rattle.chip_base.specs.declared.chip_unit.ChipUnit.TheVariants.{Uart0};

use crate::serial_registers::SerialRegisters;
use chip_base::{Down, Up};
use std::marker::Model;

/// The bits of CTRL that a store writes: enable (0), prescaler (3 to 5), baud (6 to 15), interrupt enable (22).
const WRITABLE: u32 = 0x0040_fff9;

/// The registers of a UART in the hub: CTRL at offset 0 and DATA at offset 4.
///
/// No call takes memory. While the front is closed, loads give 0, stores are ignored and every message is dropped but one
/// that says that a Reset was done.
#[derive(Drop)]
pub struct UartFront {
    registers: SerialRegisters,
}

impl Model for UartFront {
    ghost use Rattle.std.specs.Prelude.{◌≤◌};
    ghost use Rattle.unit_fronts.specs.SerialRegisters.{SerialRegisters};

    ghost Value = { SerialRegisters };

    ghost view = { λ f. f.registers };

    ghost invariant = { λ f. f.registers.credits ≤ 16 };
}

impl UartFront {
    ghost use Rattle.chip_base.specs.Messages.{at_data};
    ghost use Rattle.unit_fronts.specs.ClosedFront.{AwaitsAnswers};
    ghost use Rattle.unit_fronts.specs.Control.{TellsControl, SetsControl};
    ghost use Rattle.unit_fronts.specs.Counts.{SpendsCredits, HearsUnit};
    ghost use Rattle.unit_fronts.specs.FrontCalls.{LoadFrom, StoreTo, UnitSays};
    ghost use Rattle.unit_fronts.specs.ReceiveQueue.{GivesInOrder, MarksOverrun};
    ghost use Rattle.unit_fronts.specs.SerialRegisters.{serial_front_reset, serial_is_open, serial_arrived, serial_line, serial_closed};
    ghost use Rattle.unit_fronts.specs.SerialFront.{serial_front, serial_word, serial_loaded, serial_stored, serial_sent};
    ghost use Rattle.unit_fronts.specs.UartFront.{uart_kind};

    /// The front at power-on: open, with sixteen credits.
    pub fn new() -> UartFront
        ensures { result ≡ serial_front_reset 0 }
    {
        UartFront {
            registers: SerialRegisters::new(),
        }
    }

    /// Loads the register at an offset. A load of DATA takes the oldest received byte, or gives 0.
    #[tactic(auto, using(crate::proofs::ReceiveQueue::gives_in_order, crate::proofs::ReceiveQueue::load_marks))]
    pub fn load(&mut self, reg: u8) -> u32
        requires register { unit_has Uart0 reg ≡ true }
        ensures word { result ≡ serial_word self.old reg }
        ensures front { self.new ≡ serial_loaded self.old reg }
        ensures control { serial_is_open self.old ≡ true → reg ≡ 0 → TellsControl self.old result }
        ensures credits { SpendsCredits at_data self.old None self.new }
        ensures order { GivesInOrder uart_kind self.old }
        ensures overrun { MarksOverrun self.old (LoadFrom reg) self.new }
    {
        if !self.registers.is_open() {
            0
        } else if reg == 0 {
            self.registers.control()
        } else {
            self.registers.take()
        }
    }

    /// Stores a word to the register at an offset and gives the message for the unit. None exactly where the front is closed,
    /// or where a store to DATA finds no credit.
    #[tactic(auto, using(crate::proofs::Control::writable_part, crate::proofs::Control::sets_control, crate::proofs::ReceiveQueue::store_marks))]
    pub fn store(&mut self, reg: u8, word: u32) -> Option<Down>
        requires register { unit_has Uart0 reg ≡ true }
        ensures message { result ≡ serial_sent uart_kind self.old reg word }
        ensures front { self.new ≡ serial_stored uart_kind self.old reg word }
        ensures credits { SpendsCredits at_data self.old result self.new }
        ensures overrun { MarksOverrun self.old (StoreTo reg word) self.new }
        ensures control { serial_is_open self.old ≡ true → SetsControl self.old reg word self.new }
    {
        if !self.registers.is_open() {
            return None;
        }
        if reg == 0 {
            let kept = word & WRITABLE;
            self.registers.keep(kept);
            return Some(Down::Set { reg: 0, word: kept });
        }
        if self.registers.spend() {
            Some(Down::Set {
                reg: 4,
                word: word % 256,
            })
        } else {
            None
        }
    }

    /// Takes a message from the unit. An open front drops one that says that a Reset was done; of any other it takes the credit,
    /// unless it has sixteen, and the received byte, which is lost where sixteen wait. A closed front counts the answers to its
    /// Resets, and takes nothing else.
    #[tactic(auto, using(crate::proofs::ReceiveQueue::arrival_marks))]
    pub fn arrive(&mut self, up: Up)
        ensures front { self.new ≡ serial_arrived self.old up }
        ensures credits { HearsUnit self.old up self.new }
        ensures overrun { MarksOverrun self.old (UnitSays up) self.new }
    {
        self.registers.arrive(up);
    }

    /// Whether the front's interrupt line is high: a received byte waits, and interrupts are enabled.
    pub fn line(&self) -> bool
        ensures { result ≡ serial_line self.now }
    {
        self.registers.line()
    }

    /// Closes the front. All but the count of owed answers takes its reset state, in which the last answer opens it.
    #[tactic(auto, using(crate::proofs::ClosedFront::serial_awaits))]
    pub fn close(&mut self)
        ensures front { self.new ≡ serial_closed self.old }
        ensures answers { AwaitsAnswers (serial_front uart_kind) self.new.owed self.new }
    {
        self.registers.close();
    }

    /// Whether every Reset was answered.
    pub fn is_open(&self) -> bool
        ensures { result ≡ serial_is_open self.now }
    {
        self.registers.is_open()
    }
}

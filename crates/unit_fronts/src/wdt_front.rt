//! The front of the watchdog.
ghost use Rattle.std.specs.Prelude.{◌≡◌, false, true};
ghost use Rattle.chip_base.specs.UnitTable.{unit_has};
ghost use Rattle.chip_base.specs.declared.chip_unit.ChipUnit.TheVariants.{Wdt};

use crate::owed::Owed;
use chip_base::bits::bit_if;
use chip_base::{Down, Up};
use std::marker::Model;

/// The bits of CTRL that a store writes: enable (0) and timeout (8 to 31).
const WRITABLE: u32 = 0xffff_ff01;

/// The word whose store to FEED feeds the watchdog.
const FEED_WORD: u32 = 0x0000_feed;

/// The registers of the watchdog in the hub: CTRL at offset 0, FEED at 4 and CAUSE at 8.
///
/// Bit 0 of CAUSE tells whether the front was closed since power-on, and its other bits are 0. No call takes memory. While the
/// front is closed, loads give 0 but for CAUSE, stores are ignored and every message is dropped but one that says that a Reset was
/// done. The front takes no notice of a Fire, which resets the hub whether or not this front is open.
#[derive(Drop)]
pub struct WdtFront {
    control: u32,
    was_closed: bool,
    owed: Owed,
}

impl Model for WdtFront {
    ghost use Rattle.unit_fronts.specs.WdtFront.{WatchdogRegisters};

    ghost Value = { WatchdogRegisters };

    ghost view = { λ f. record { control = f.control; was_closed = f.was_closed; owed = f.owed } };
}

impl WdtFront {
    ghost use Rattle.unit_fronts.specs.Cause.{KeepsCause};
    ghost use Rattle.unit_fronts.specs.ClosedFront.{AwaitsAnswers};
    ghost use Rattle.unit_fronts.specs.LoadsAfterStore.{StoresWatchdog};
    ghost use Rattle.unit_fronts.specs.Owed.{is_open_at, CountsAnswers};
    ghost use Rattle.unit_fronts.specs.WdtFront.{watchdog_front, watchdog_front_start, watchdog_word, watchdog_stored, watchdog_sent, watchdog_arrived, watchdog_closed};

    /// The front at power-on: open, with all registers 0.
    #[tactic(auto, using(crate::proofs::Cause::keeps_cause))]
    pub fn new() -> WdtFront
        ensures state { result ≡ watchdog_front_start }
        ensures cause { KeepsCause result }
    {
        WdtFront {
            control: 0,
            was_closed: false,
            owed: Owed::none(),
        }
    }

    /// Loads the register at an offset. FEED reads 0, and CAUSE is read also where the front is closed.
    pub fn load(&mut self, reg: u8) -> u32
        requires register { unit_has Wdt reg ≡ true }
        ensures word { result ≡ watchdog_word self.old reg }
        ensures front { self.new ≡ self.old }
    {
        match reg {
            8 => bit_if(0, self.was_closed),
            0 if self.owed.is_open() => self.control,
            _ => 0,
        }
    }

    /// Stores a word to the register at an offset and gives the message for the unit. None exactly where the front is closed, or
    /// the register is CAUSE, or it is FEED and the word isn't 0000feed. A store to CAUSE is ignored.
    #[tactic(auto, using(crate::proofs::LoadsAfterStore::stores_watchdog))]
    pub fn store(&mut self, reg: u8, word: u32) -> Option<Down>
        requires register { unit_has Wdt reg ≡ true }
        ensures message { result ≡ watchdog_sent self.old reg word }
        ensures front { self.new ≡ watchdog_stored self.old reg word }
        ensures words { is_open_at self.old.owed ≡ true → StoresWatchdog self.old reg word self.new }
        ensures owed { self.new.owed ≡ self.old.owed }
    {
        if !self.owed.is_open() {
            return None;
        }
        match reg {
            0 => {
                self.control = word & WRITABLE;
                Some(Down::Set {
                    reg,
                    word: self.control,
                })
            }
            4 if word == FEED_WORD => Some(Down::Set { reg, word }),
            _ => None,
        }
    }

    /// Takes a message from the unit.
    pub fn arrive(&mut self, up: Up)
        ensures front { self.new ≡ watchdog_arrived self.old up }
        ensures owed { CountsAnswers self.old.owed up self.new.owed }
    {
        if up.done && !self.owed.is_open() {
            self.owed.answer();
        }
    }

    /// The front's interrupt line, which is never high.
    pub fn line(&self) -> bool
        ensures { result ≡ false }
    {
        false
    }

    /// Closes the front and sets bit 0 of CAUSE. All but that and the count of owed answers takes its reset state, in which the last
    /// answer opens it.
    #[tactic(auto, using(crate::proofs::Cause::keeps_cause))]
    pub fn close(&mut self)
        ensures front { self.new ≡ watchdog_closed self.old }
        ensures answers { AwaitsAnswers watchdog_front self.new.owed self.new }
        ensures set { watchdog_word self.new 8 ≡ 1 }
        ensures cause { KeepsCause self.new }
    {
        self.control = 0;
        self.was_closed = true;
        self.owed.close();
    }

    /// Whether every Reset was answered.
    pub fn is_open(&self) -> bool
        ensures { result ≡ is_open_at self.now.owed }
    {
        self.owed.is_open()
    }
}

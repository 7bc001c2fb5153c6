//! What the fronts of the serial units share.
ghost use Rattle.std.specs.Prelude.{◌≡◌, ◌<◌, ◌^◌, nat_lt, not, if◌then◌else◌};

use crate::owed::Owed;
use arrayvec::ArrayVec;
use chip_base::Up;
use chip_base::bits::bit_if;
use std::marker::Model;

/// Control bits, received entries, credits and owed answers of a front.
#[derive(Drop)]
pub struct SerialRegisters {
    kept: u32,
    overrun: bool,
    received: ArrayVec<u32, 16>,
    credits: u8,
    owed: Owed,
}

impl Model for SerialRegisters {
    ghost use Rattle.std.specs.Prelude.{◌<◌, ◌≤◌, ◌^◌};
    ghost use Rattle.arrayvec.specs.ArrayVec.{array_vec_len};
    ghost use Rattle.unit_fronts.specs.Control.{IsWritable};
    ghost use Rattle.unit_fronts.specs.SerialRegisters.{SerialRegisters};

    ghost Value = { SerialRegisters };

    ghost view = { λ p. record { kept = p.kept; overrun = p.overrun; received = p.received.items; credits = p.credits; owed = p.owed } };

    ghost invariant = { λ p. (IsWritable p.kept) × (p.kept < 2 ^ 23) × (array_vec_len p.received ≤ 16) × (p.credits ≤ 16) };
}

impl SerialRegisters {
    ghost use Rattle.unit_fronts.specs.Control.{IsWritable, TellsControl};
    ghost use Rattle.unit_fronts.specs.SerialRegisters.{serial_front_reset, serial_is_open, has_received, serial_control, oldest_received, without_oldest, serial_control_stored, spent, credited, received_by, serial_arrived_open, serial_arrived_closed, serial_arrived, serial_line, serial_closed};

    /// The state at power-on.
    pub fn new() -> SerialRegisters
        ensures { result ≡ serial_front_reset 0 }
    {
        SerialRegisters {
            kept: 0,
            overrun: false,
            received: ArrayVec::new(),
            credits: 16,
            owed: Owed::none(),
        }
    }

    /// Whether the front waits for no answer.
    pub fn is_open(&self) -> bool
        ensures { result ≡ serial_is_open self.now }
    {
        self.owed.is_open()
    }

    fn has_received(&self) -> bool
        ensures { result ≡ has_received self.now }
    {
        !self.received.is_empty()
    }

    /// CTRL as a load gives it.
    pub fn control(&self) -> u32
        ensures word { result ≡ serial_control self.now }
        ensures bits { TellsControl self.now result }
    {
        self.kept
            + bit_if(16, self.has_received())
            + bit_if(21, self.credits == 0)
            + bit_if(30, self.overrun)
            + bit_if(31, self.credits < 16)
    }

    /// Keeps the bits of a store to CTRL, and forgets an overrun.
    pub fn keep(&mut self, kept: u32)
        requires writable { IsWritable kept }
        requires below { kept < 2 ^ 23 }
        ensures { self.new ≡ serial_control_stored self.old kept }
    {
        self.kept = kept;
        self.overrun = false;
    }

    /// Takes the oldest received entry; 0 where there is none.
    pub fn take(&mut self) -> u32
        ensures word { result ≡ oldest_received self.old }
        ensures rest { self.new ≡ without_oldest self.old }
    {
        if self.received.is_empty() {
            0
        } else {
            self.received.remove(0)
        }
    }

    /// Uses a credit. False exactly where there is none.
    pub fn spend(&mut self) -> bool
        ensures found { result ≡ nat_lt 0 self.old.credits }
        ensures rest { self.new ≡ spent self.old }
    {
        if self.credits == 0 {
            return false;
        }
        self.credits -= 1;
        true
    }

    fn credit(&mut self, credit: bool)
        ensures { self.new ≡ credited self.old credit }
    {
        if credit && self.credits < 16 {
            self.credits += 1;
        }
    }

    fn receive(&mut self, has: bool, word: u32)
        ensures { self.new ≡ received_by self.old has word }
    {
        if !has {
            return;
        }
        if self.received.is_full() {
            self.overrun = true;
        } else {
            self.received.push(word);
        }
    }

    fn arrive_open(&mut self, up: Up)
        ensures { self.new ≡ serial_arrived_open self.old up }
    {
        if !up.done {
            self.credit(up.credit);
            self.receive(up.has, up.word);
        }
    }

    /// Takes a message from the unit.
    pub fn arrive(&mut self, up: Up)
        ensures { self.new ≡ serial_arrived self.old up }
    {
        if self.is_open() {
            self.arrive_open(up);
        } else if up.done {
            self.owed.answer();
        }
    }

    /// The interrupt line.
    pub fn line(&self) -> bool
        ensures { result ≡ serial_line self.now }
    {
        self.kept / (1 << 22) % 2 == 1 && self.has_received()
    }

    /// Resets the front, which then waits for one answer more.
    pub fn close(&mut self)
        ensures { self.new ≡ serial_closed self.old }
    {
        self.kept = 0;
        self.overrun = false;
        self.received.clear();
        self.credits = 16;
        self.owed.close();
    }
}

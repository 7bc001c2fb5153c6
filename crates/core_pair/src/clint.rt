//! The timer and the software interrupts.
ghost use Rattle.std.specs.Prelude.{◌≡◌, ◌==◌, ◌+◌, ◌*◌, ◌%◌, ◌^◌, ◌<◌, ◌≤◌, ◌≢◌, ◌||◌, ℕ, nat_le, if◌then◌else◌, true};
ghost use Rattle.chip_base.specs.UnitTable.{part_has};
ghost use Rattle.chip_base.specs.declared.chip_unit.HubPart.TheVariants as part;
ghost use Rattle.core_pair.specs.Clint.{clint_mip, clint_stored, clint_ticked, clint_word, hart_lines, reset_clint};

use chip_base::bits::{high_word, low_word, with_high, with_low};
use std::marker::Model;

/// For each hart the bit of its software interrupt and the time of its timer interrupt, and the time in cycles. The registers
/// are words: msip0 at offset 0 and msip1 at 4, mtimecmp0 at 4000 and 4004 (hexadecimal), mtimecmp1 at 4008 and 400c, and mtime
/// at bff8 and bffc, each time the low word first.
#[derive(Drop)]
pub struct Clint {
    msip0: bool,
    msip1: bool,
    mtimecmp0: u64,
    mtimecmp1: u64,
    mtime: u64,
}

impl Model for Clint {
    ghost use Rattle.std.specs.Prelude.{if◌then◌else◌};
    ghost use Rattle.core_pair.specs.Clint.{ClintState};

    ghost Value = { ClintState };

    ghost view = { λ c. record { msip0 = (if c.msip0 then 1 else 0); msip1 = (if c.msip1 then 1 else 0); mtimecmp0 = c.mtimecmp0; mtimecmp1 = c.mtimecmp1; mtime = c.mtime } };
}

/// A hart's bits of mip: bit 3 is its software interrupt, and bit 7 is 1 where its time has come.
fn line_bits(msip: bool, mtimecmp: u64, mtime: u64) -> u32
    ensures value { result ≡ hart_lines (if msip then 1 else 0) mtimecmp mtime }
    ensures below { result < 2 ^ 8 }
{
    u32::from(msip) * 8 + u32::from(mtimecmp <= mtime) * 128
}

impl Clint {
    /// The state at reset: mtime is 0 and each mtimecmp is at its last value.
    pub fn new() -> Clint
        ensures { result ≡ reset_clint }
    {
        Clint {
            msip0: false,
            msip1: false,
            mtimecmp0: u64::MAX,
            mtimecmp1: u64::MAX,
            mtime: 0,
        }
    }

    /// The word at an offset, in bytes.
    pub fn load(&self, offset: u32) -> u32
        requires { part_has part.Clint offset ≡ true }
        ensures { result ≡ clint_word self.now offset }
    {
        match offset {
            0 => u32::from(self.msip0),
            4 => u32::from(self.msip1),
            0x4000 => low_word(self.mtimecmp0),
            0x4004 => high_word(self.mtimecmp0),
            0x4008 => low_word(self.mtimecmp1),
            0x400c => high_word(self.mtimecmp1),
            0xbff8 => low_word(self.mtime),
            _ => high_word(self.mtime),
        }
    }

    /// Stores a word at an offset, in bytes. A software interrupt keeps bit 0. The word at every other offset stays.
    pub fn store(&mut self, offset: u32, word: u32)
        requires { part_has part.Clint offset ≡ true }
        ensures state { self.new ≡ clint_stored self.old offset word }
        ensures own { clint_word self.new offset ≡ (if (offset == 0) || (offset == 4) then word % 2 else word) }
        ensures others { (other : ℕ) → part_has part.Clint other ≡ true → offset ≢ other → clint_word self.new other ≡ clint_word self.old other }
    {
        match offset {
            0 => self.msip0 = word % 2 == 1,
            4 => self.msip1 = word % 2 == 1,
            0x4000 => self.mtimecmp0 = with_low(self.mtimecmp0, word),
            0x4004 => self.mtimecmp0 = with_high(self.mtimecmp0, word),
            0x4008 => self.mtimecmp1 = with_low(self.mtimecmp1, word),
            0x400c => self.mtimecmp1 = with_high(self.mtimecmp1, word),
            0xbff8 => self.mtime = with_low(self.mtime, word),
            _ => self.mtime = with_high(self.mtime, word),
        }
    }

    /// Adds one to mtime, modulo 2^64.
    pub fn tick(&mut self)
        ensures { self.new ≡ clint_ticked self.old }
    {
        self.mtime = self.mtime.wrapping_add(1);
    }

    /// Bits 3 and 7 of a hart's mip; all others are 0.
    pub fn mip(&self, hart: u32) -> u32
        requires { hart < 2 }
        ensures value { result ≡ clint_mip self.now hart }
        ensures below { result < 2 ^ 8 }
    {
        if hart == 0 {
            line_bits(self.msip0, self.mtimecmp0, self.mtime)
        } else {
            line_bits(self.msip1, self.mtimecmp1, self.mtime)
        }
    }

    /// Whether hart 1 has a software interrupt, which starts core 1 where it is parked.
    pub fn starts(&self) -> bool
        ensures { result ≡ (self.now.msip1 == 1) }
    {
        self.msip1
    }
}

//! The CSRs of one hart.
ghost use Rattle.std.specs.Prelude.{◌≡◌, ◌==◌, ℕ, ◌+◌, ◌*◌, ◌/◌, ◌%◌, ◌^◌, ◌<◌, ◌≤◌, IsTrue, if◌then◌else◌, bit_and, nat_lt, None, ◌↔◌, ◌⊎◌, ◌≢◌, Some, IfSome, false};
ghost use Rattle.std.specs.Option.{option_map};
ghost use Rattle.std.specs.List.{find, list_all};
ghost use Rattle.std.specs.Int.{bit_at};
ghost use Rattle.csr_file.specs.Table.{IsKeptBy, at_reset, fresh, read_at, after_write, writable, held_word, with_word, csr_row, kept, allows_write, csr_at};
ghost use Rattle.csr_file.specs.declared.names.Csr.TheVariants.{Mstatus};
ghost use Rattle.csr_file.specs.Traps.{enabled, mstatus_with, first_cause, trapped, target, returned, pending_in, wakes_in, after_tick, after_retire};

use crate::causes::INTERRUPT;
use crate::names::Csr;
use chip_base::bits::{high_word, low_word, with_high, with_low};
use std::marker::Model;

/// The numbers of the interrupts, the first taken first.
const ORDER: [u32; 19] = [
    11, 3, 7, 16, 17, 18, 19, 20, 21, 22, 23, 24, 25, 26, 27, 28, 29, 30, 31,
];

/// The control and status registers of one hart.
#[derive(Drop)]
pub struct Csrs {
    hart: u8,
    mstatus: u32,
    mie: u32,
    mtvec: u32,
    mscratch: u32,
    mepc: u32,
    mcause: u32,
    mtval: u32,
    mcycle: u64,
    minstret: u64,
}

impl Model for Csrs {
    ghost use Rattle.std.specs.Prelude.{◌≡◌, ◌<◌};
    ghost use Rattle.csr_file.specs.State.{CsrsState};
    ghost use Rattle.csr_file.specs.Table.{IsKeptBy};
    ghost use Rattle.csr_file.specs.declared.names.Csr.TheVariants.{Mstatus, Mie, Mtvec, Mepc};

    ghost Value = { CsrsState };

    ghost view = { λ s. record { hart = s.hart; mstatus = s.mstatus; mie = s.mie; mtvec = s.mtvec; mscratch = s.mscratch; mepc = s.mepc; mcause = s.mcause; mtval = s.mtval; mcycle = s.mcycle; minstret = s.minstret } };

    ghost invariant = { λ s. IsKeptBy Mstatus s.mstatus × IsKeptBy Mie s.mie × IsKeptBy Mtvec s.mtvec × IsKeptBy Mepc s.mepc × (s.hart < 2) };
}

/// What a CSR that is neither mhartid nor mip holds at reset.
fn at_reset(csr: Csr) -> u32
    ensures { result ≡ at_reset 0 0 csr }
{
    csr.row().reset.word(0, 0)
}

/// What a counter has at reset, by the names of its low and its high word.
fn counter_at_reset(low: Csr, high: Csr) -> u64
    ensures { result ≡ at_reset 0 0 high * 2 ^ 32 + at_reset 0 0 low }
{
    with_high(u64::from(at_reset(low)), at_reset(high))
}

/// mstatus with MIE and MPIE.
#[tactic(auto, using(crate::proofs::Fixed::status_fixed))]
fn status_word(mie: bool, mpie: bool) -> u32
    ensures value { result ≡ mstatus_with (if mie then 1 else 0) (if mpie then 1 else 0) }
    ensures fixed { IsKeptBy Mstatus result }
{
    at_reset(Csr::Mstatus) + u32::from(mie) * 8 + u32::from(mpie) * 128
}

/// Whether a bit of a word is 1.
fn has_bit(word: u32, number: u32) -> bool
    requires { number < 32 }
    ensures { result ≡ (bit_at word number == 1) }
{
    (word >> number) & 1 == 1
}

/// The first of the numbers whose bit is 1.
fn first_set(ready: u32, numbers: &[u32]) -> Option<u32>
    requires { IsTrue (list_all (λ n. nat_lt n 32) numbers.now) }
    ensures { result ≡ find (λ n. bit_at ready n == 1) numbers.now }
{
    for number in numbers {
        if has_bit(ready, *number) {
            return Some(*number);
        }
    }
    None
}

/// The cause of the interrupt that is taken, where these interrupts are ready.
fn cause_taken(enabled: bool, ready: u32) -> Option<u32>
    ensures { result ≡ (if enabled then first_cause ready else None) }
{
    if !enabled {
        return None;
    }
    let number = first_set(ready, &ORDER)?;
    Some(INTERRUPT + number)
}

impl Csrs {
    fn reset(hart: u32) -> Csrs
        requires { hart < 2 }
        ensures { result ≡ fresh hart }
    {
        Csrs {
            hart: hart as u8,
            mstatus: at_reset(Csr::Mstatus),
            mie: at_reset(Csr::Mie),
            mtvec: at_reset(Csr::Mtvec),
            mscratch: at_reset(Csr::Mscratch),
            mepc: at_reset(Csr::Mepc),
            mcause: at_reset(Csr::Mcause),
            mtval: at_reset(Csr::Mtval),
            mcycle: counter_at_reset(Csr::Mcycle, Csr::Mcycleh),
            minstret: counter_at_reset(Csr::Minstret, Csr::Minstreth),
        }
    }

    /// The CSRs of a hart at reset.
    pub fn new(hart: u32) -> Csrs
        requires { hart < 2 }
        ensures state { result ≡ fresh hart }
        ensures table { (n mip : ℕ) → read_at result n mip ≡ option_map (at_reset hart mip) (csr_at n) }
    {
        Csrs::reset(hart)
    }

    /// The number of the hart, 0 or 1.
    pub fn hart(&self) -> u8
        ensures { result ≡ self.now.hart }
    {
        self.hart
    }

    fn word(&self, csr: Csr, mip: u32) -> u32
        ensures value { result ≡ held_word self.now mip csr }
        ensures fixed { IsKeptBy csr result }
    {
        match csr {
            Csr::Mstatus => self.mstatus,
            Csr::Mie => self.mie,
            Csr::Mtvec => self.mtvec,
            Csr::Mscratch => self.mscratch,
            Csr::Mepc => self.mepc,
            Csr::Mcause => self.mcause,
            Csr::Mtval => self.mtval,
            Csr::Mcycle => low_word(self.mcycle),
            Csr::Mcycleh => high_word(self.mcycle),
            Csr::Minstret => low_word(self.minstret),
            Csr::Minstreth => high_word(self.minstret),
            Csr::Misa | Csr::Mstatush | Csr::Mip => csr.row().reset.word(self.hart, mip),
            Csr::Mvendorid | Csr::Marchid | Csr::Mimpid | Csr::Mhartid | Csr::Mconfigptr => {
                csr.row().reset.word(self.hart, mip)
            }
        }
    }

    /// The word of a CSR, where `mip` is what the interrupt lines give. None exactly where the table has no such CSR.
    #[tactic(auto, unfolding(crate::specs::Table::read_at))]
    pub fn read(&self, addr: u16, mip: u32) -> Option<u32>
        ensures word { result ≡ read_at self.now addr mip }
        ensures none { (result ≡ None) ↔ (csr_at addr ≡ None) }
        // a write of the word that is read would keep it: its fixed bits are fixed
        ensures fixed { (c : Csr) → csr_at addr ≡ Some c → IfSome result (λ word. kept (csr_row c).rule word word ≡ word) }
    {
        let csr = Csr::at(addr)?;
        Some(self.word(csr, mip))
    }

    /// Sets the word of a CSR; one that never changes stays.
    fn set(&mut self, csr: Csr, word: u32)
        requires { IsKeptBy csr word }
        ensures { self.new ≡ with_word self.old csr word }
    {
        match csr {
            Csr::Mstatus => self.mstatus = word,
            Csr::Mie => self.mie = word,
            Csr::Mtvec => self.mtvec = word,
            Csr::Mscratch => self.mscratch = word,
            Csr::Mepc => self.mepc = word,
            Csr::Mcause => self.mcause = word,
            Csr::Mtval => self.mtval = word,
            Csr::Mcycle => self.mcycle = with_low(self.mcycle, word),
            Csr::Mcycleh => self.mcycle = with_high(self.mcycle, word),
            Csr::Minstret => self.minstret = with_low(self.minstret, word),
            Csr::Minstreth => self.minstret = with_high(self.minstret, word),
            Csr::Misa | Csr::Mstatush | Csr::Mip => {}
            Csr::Mvendorid | Csr::Marchid | Csr::Mimpid | Csr::Mhartid | Csr::Mconfigptr => {}
        }
    }

    /// Writes a CSR by its rule.
    fn put(&mut self, csr: Csr, value: u32) -> bool
        ensures state { self.new ≡ with_word self.old csr (kept (csr_row csr).rule (held_word self.old 0 csr) value) }
        ensures done { result ≡ allows_write (csr_row csr).rule }
    {
        let rule = csr.row().rule;
        let word = rule.kept(self.word(csr, 0), value);
        self.set(csr, word);
        rule.allows_write()
    }

    #[tactic(auto, unfolding(crate::specs::Table::after_write, crate::specs::Table::writable))]
    fn put_at(&mut self, addr: u16, value: u32) -> bool
        ensures state { self.new ≡ after_write self.old addr value }
        ensures done { result ≡ writable addr }
    {
        match Csr::at(addr) {
            Some(csr) => self.put(csr, value),
            None => false,
        }
    }

    /// Writes a CSR. False exactly where the CSR is unknown or bits 11 and 10 of its number are 1: it is read-only then. Nothing
    /// changes in either case.
    #[tactic(auto, using(crate::proofs::Laws::write_refused, crate::proofs::Laws::refused_by))]
    pub fn write(&mut self, addr: u16, value: u32) -> bool
        ensures state { self.new ≡ after_write self.old addr value }
        ensures done { result ≡ writable addr }
        ensures kept { (mip : ℕ) → read_at self.new addr mip ≡ option_map (λ c. kept (csr_row c).rule (held_word self.old mip c) value) (csr_at addr) }
        ensures others { (other mip : ℕ) → addr ≢ other → read_at self.new other mip ≡ read_at self.old other mip }
        ensures refused { result ≡ false → self.new ≡ self.old }
        ensures cause { (result ≡ false) ↔ ((csr_at addr ≡ None) ⊎ (addr / 2 ^ 10 % 4 ≡ 3)) }
    {
        self.put_at(addr, value)
    }

    /// Enters a trap: mepc becomes `pc`, mcause `cause` and mtval `value`, MPIE takes what MIE was, and MIE becomes 0. Gives the
    /// address of the handler: mtvec's base, its bits 1 and 0 cleared; for an interrupt, a cause from 2^31 upwards, it is
    /// base + 4 * cause modulo 2^32 where bit 0 of mtvec is 1.
    #[tactic(auto, using(crate::proofs::Fixed::even_fixed, crate::proofs::Laws::status_read), unfolding(crate::specs::Traps::trapped, crate::specs::Traps::target))]
    pub fn trap(&mut self, pc: u32, cause: u32, value: u32) -> u32
        requires { pc % 2 ≡ 0 }
        ensures state { self.new ≡ trapped self.old pc cause value }
        ensures goes { result ≡ target self.old.mtvec cause }
        ensures even { result % 2 ≡ 0 }
        ensures status { (mip : ℕ) → read_at self.new 0x300 mip ≡ Some (mstatus_with 0 (bit_at self.old.mstatus 3)) }
        ensures set { (mip : ℕ) → (read_at self.new 0x341 mip ≡ Some pc) × (read_at self.new 0x342 mip ≡ Some cause) × (read_at self.new 0x343 mip ≡ Some value) }
        ensures others { (other mip : ℕ) → other ≢ 0x300 → other ≢ 0x341 → other ≢ 0x342 → other ≢ 0x343 → read_at self.new other mip ≡ read_at self.old other mip }
    {
        self.mepc = pc;
        self.mcause = cause;
        self.mtval = value;
        self.mstatus = status_word(false, has_bit(self.mstatus, 3));
        let base = self.mtvec / 4 * 4;
        if cause >= INTERRUPT && self.mtvec % 2 == 1 {
            base.wrapping_add(cause.wrapping_mul(4))
        } else {
            base
        }
    }

    /// Returns from a trap: MIE takes what MPIE was, and MPIE becomes 1. Gives mepc, the address to go on from.
    #[tactic(auto, using(crate::proofs::Fixed::fixed_even, crate::proofs::Laws::status_read), unfolding(crate::specs::Traps::returned))]
    pub fn mret(&mut self) -> u32
        ensures state { self.new ≡ returned self.old }
        ensures goes { result ≡ self.old.mepc }
        ensures status { (mip : ℕ) → read_at self.new 0x300 mip ≡ Some (mstatus_with (bit_at self.old.mstatus 7) 1) }
        ensures even { result % 2 ≡ 0 }
        ensures others { (other mip : ℕ) → other ≢ 0x300 → read_at self.new other mip ≡ read_at self.old other mip }
    {
        self.mstatus = status_word(has_bit(self.mstatus, 7), true);
        self.mepc
    }

    /// The cause of the interrupt that is taken. None exactly where MIE is 0 or no bit is set in both `mip` and mie.
    #[tactic(auto, using(crate::proofs::Interrupts::pending_none), unfolding(crate::specs::Traps::pending_in))]
    pub fn pending(&self, mip: u32) -> Option<u32>
        ensures cause { result ≡ pending_in self.now mip }
        ensures none { (result ≡ None) ↔ ((enabled self.now ≡ false) ⊎ (bit_and mip self.now.mie ≡ 0)) }
    {
        let ready = mip & self.mie;
        cause_taken(has_bit(self.mstatus, 3), ready)
    }

    /// Whether a bit is set in both `mip` and mie.
    #[tactic(auto, unfolding(crate::specs::Traps::wakes_in))]
    pub fn wakes(&self, mip: u32) -> bool
        ensures { result ≡ wakes_in self.now mip }
    {
        mip & self.mie != 0
    }

    /// Adds one to mcycle, modulo 2^64.
    pub fn tick(&mut self)
        ensures state { self.new ≡ after_tick self.old }
        ensures others { (other mip : ℕ) → other ≢ 0xb00 → other ≢ 0xb80 → read_at self.new other mip ≡ read_at self.old other mip }
    {
        self.mcycle = self.mcycle.wrapping_add(1);
    }

    /// Adds one to minstret, modulo 2^64.
    pub fn retire(&mut self)
        ensures state { self.new ≡ after_retire self.old }
        ensures others { (other mip : ℕ) → other ≢ 0xb02 → other ≢ 0xb82 → read_at self.new other mip ≡ read_at self.old other mip }
    {
        self.minstret = self.minstret.wrapping_add(1);
    }

    /// The number of retired instructions, modulo 2^64.
    pub fn retired(&self) -> u64
        ensures { result ≡ self.now.minstret }
    {
        self.minstret
    }
}

//! The state of a core: how it begins, what it shows, and how an instruction or a trap leaves it.
ghost use Rattle.std.specs.Prelude.{◌≡◌, ℕ, ◌-◌, ◌%◌, ◌<◌, slice_index, None, ◌↔◌};
ghost use Rattle.csr_file.specs.Table.{csr_at, read_at};
ghost use Rattle.core_pair.specs.Core.{busy_after, cleared, first_phase, hart_of, phase_word, reset_core, started, view_of, wanted_in};
ghost use Rattle.core_pair.specs.Hart.{completed, completes, entered, retired, retires, traps};

use crate::phase::{Awaited, Phase};
use crate::registers::set_register;
use chip_base::{HartView, PhaseWord};
use csr_file::Csrs;
use soc_bus::Request;
use std::marker::Model;

/// The cycles that it takes to enter a trap.
const TRAP_CYCLES: u32 = 6;

/// A core: its hart's 32 registers, pc and CSRs, and the phase that it is in.
#[derive(Drop)]
pub struct Core {
    pub(crate) regs: [u32; 32],
    pub(crate) pc: u32,
    pub(crate) csrs: Csrs,
    pub(crate) phase: Phase,
    pub(crate) awaited: Awaited,
}

impl Model for Core {
    ghost use Rattle.std.specs.Prelude.{◌≡◌, ◌<◌, ◌%◌, length, slice_index};
    ghost use Rattle.core_pair.specs.Core.{CoreState};

    ghost Value = { CoreState };

    ghost view = { λ c. record { regs = c.regs; pc = c.pc; csrs = c.csrs; phase = c.phase; awaited = c.awaited } };

    ghost invariant = { λ c. (c.pc % 2 ≡ 0) × (c.awaited.next % 2 ≡ 0) × (c.awaited.rd < 32) × (slice_index c.regs 0 ≡ 0) × (length c.regs ≡ 32) };
}

impl Core {
    /// The core of a hart at reset: pc is 0, core 0 acts in its first turn and core 1 is parked.
    #[tactic(auto, unfolding(crate::specs::Core::cleared))]
    pub fn new(hart: u32) -> Core
        requires { hart < 2 }
        ensures { result ≡ reset_core hart }
    {
        Core {
            regs: [0; 32],
            pc: 0,
            csrs: Csrs::new(hart),
            phase: if hart == 0 {
                Phase::Run(0)
            } else {
                Phase::Parked
            },
            awaited: Awaited {
                rd: 0,
                signed: false,
                next: 0,
            },
        }
    }

    /// Puts the boot monitor in the core's place.
    pub fn hold(&mut self)
        ensures { self.new ≡ record self.old { phase = Phase.Monitor } }
    {
        self.phase = Phase::Monitor;
    }

    /// Starts the core at an address, whose bit 0 is cleared, with `sp` in x2.
    pub fn start(&mut self, pc: u32, sp: u32)
        ensures { self.new ≡ started self.old pc sp }
    {
        set_register(&mut self.regs, 2, sp);
        self.pc = pc / 2 * 2;
        self.phase = Phase::Run(0);
    }

    /// The request that the core waits for. None exactly where its phase isn't Want.
    pub fn want(&self) -> Option<Request>
        ensures { result ≡ wanted_in self.now.phase }
    {
        match self.phase {
            Phase::Want(request) => Some(request),
            _ => None,
        }
    }

    /// What the core is doing.
    pub fn phase(&self) -> Phase
        ensures { result ≡ self.now.phase }
    {
        self.phase
    }

    /// The word of a CSR of the hart, where `mip` is what the interrupt lines give. None exactly where the CSR is unknown.
    pub fn csr(&self, addr: u16, mip: u32) -> Option<u32>
        ensures word { result ≡ read_at self.now.csrs addr mip }
        ensures none { (result ≡ None) ↔ (csr_at addr ≡ None) }
    {
        self.csrs.read(addr, mip)
    }

    fn phase_word(&self) -> PhaseWord
        ensures { result ≡ phase_word self.now.phase }
    {
        match self.phase {
            Phase::Run(0) => PhaseWord::Ready,
            Phase::Run(_) => PhaseWord::Run,
            Phase::Want(_) => PhaseWord::Want,
            Phase::Sleep(_) => PhaseWord::Sleep,
            Phase::Parked => PhaseWord::Parked,
            Phase::Monitor => PhaseWord::Monitor,
        }
    }

    /// The hart and the phase as a report shows them.
    pub fn view(&self) -> HartView
        ensures value { result ≡ view_of self.now }
        ensures zero { slice_index result.regs 0 ≡ 0 }
        ensures even { result.pc % 2 ≡ 0 }
    {
        HartView {
            phase: self.phase_word(),
            pc: self.pc,
            retired: self.csrs.retired(),
            regs: self.regs,
        }
    }

    /// Ends an instruction without counting it: rd takes the value, pc becomes the next address, and the core is busy for the rest of
    /// the cycles.
    #[tactic(auto, unfolding(crate::specs::Hart::completed))]
    pub(crate) fn complete(&mut self, rd: u8, value: u32, next: u32, cycles: u32)
        requires rd { rd < 32 }
        requires next { next % 2 ≡ 0 }
        requires cycles { 0 < cycles }
        ensures { self.new ≡ busy_after self.old (completes (hart_of self.old) rd value next cycles) }
    {
        set_register(&mut self.regs, rd, value);
        self.pc = next;
        self.phase = Phase::Run(cycles - 1);
    }

    /// Counts an instruction as retired and ends it.
    #[tactic(auto, unfolding(crate::specs::Hart::retired))]
    pub(crate) fn count_and_complete(&mut self, rd: u8, value: u32, next: u32, cycles: u32)
        requires rd { rd < 32 }
        requires next { next % 2 ≡ 0 }
        requires cycles { 0 < cycles }
        ensures { self.new ≡ busy_after self.old (retires (hart_of self.old) rd value next cycles) }
    {
        self.csrs.retire();
        self.complete(rd, value, next, cycles);
    }

    /// Enters a trap.
    #[tactic(auto, unfolding(crate::specs::Hart::entered))]
    pub(crate) fn enter(&mut self, cause: u32, value: u32)
        ensures { self.new ≡ busy_after self.old (traps (hart_of self.old) cause value) }
    {
        self.pc = self.csrs.trap(self.pc, cause, value);
        self.phase = Phase::Run(TRAP_CYCLES - 1);
    }

    /// The value of a register of the hart.
    pub(crate) fn register(&self, number: u8) -> u32
        requires { number < 32 }
        ensures { result ≡ slice_index self.now.regs number }
    {
        self.regs[number as usize]
    }
}

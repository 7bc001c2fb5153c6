//! What a hub shows.
ghost use Rattle.std.specs.Prelude.{◌≡◌, ◌<◌, ◌+◌, List, length, IfSome, slice_range};
ghost use Rattle.std.specs.Int.{w32, to_le_bytes};
ghost use Rattle.chip_base.specs.declared.hart.IssueRecord.{IssueRecord as Record};
ghost use Rattle.soc_bus.specs.Memory.{IsSize, held_by, place_of};
ghost use Rattle.chip_hub.specs.Kept.{IssuesStand, SeatStands};
ghost use Rattle.chip_hub.specs.Seat.{Seat};
ghost use Rattle.chip_hub.specs.Views.{boot_view, csr_view, hart_view, issue_view, word_view};

use crate::hub::Hub;
use chip_base::{BootView, HartView, IssueRecord};
use soc_bus::Width;

impl Hub {
    /// The word at an address. None exactly where the address isn't that of a word of IMEM or DMEM.
    pub fn word(&self, addr: u32) -> Option<u32>
        ensures value { result ≡ word_view self.now.hub addr }
        ensures bytes { IfSome result (λ w. IfSome (place_of self.now.hub.memory addr 4)
            (λ p. to_le_bytes w32 w ≡ slice_range (held_by self.now.hub.memory p.0) p.1 (p.1 + 4))) }
    {
        self.complex.memory.load(addr, Width::Word).ok()
    }

    /// The number of bytes of IMEM.
    pub fn imem_size(&self) -> u32
        ensures value { result ≡ length self.now.hub.memory.imem }
        ensures valid { IsSize result }
    {
        self.complex.memory.imem_size()
    }

    /// The number of bytes of DMEM.
    pub fn dmem_size(&self) -> u32
        ensures value { result ≡ length self.now.hub.memory.dmem }
        ensures valid { IsSize result }
    {
        self.complex.memory.dmem_size()
    }

    /// A hart as a report shows it.
    pub fn hart(&self, hart: u8) -> HartView
        requires { hart < 2 }
        ensures { result ≡ hart_view self.now.hub hart }
    {
        if hart == 0 {
            self.complex.core0.view()
        } else {
            self.complex.core1.view()
        }
    }

    /// The word of a CSR of a hart, mip as the lines stand now. None exactly where there is no such CSR.
    pub fn csr(&self, hart: u8, addr: u16) -> Option<u32>
        requires { hart < 2 }
        ensures { result ≡ csr_view self.now.hub hart addr }
    {
        if hart == 0 {
            self.complex.core0.csr(addr, self.complex.mip(0))
        } else {
            self.complex.core1.csr(addr, self.complex.mip(1))
        }
    }

    /// How core 0 began since the last reset: in its boot mode, or by the monitor's hand-over.
    pub fn boot(&self) -> BootView
        ensures { (seat : Seat) → SeatStands self.now.seat seat → result ≡ boot_view seat }
    {
        self.seat.view()
    }

    /// The issue that lies `back` issues before the latest. None exactly where `back` is 1,000 or more, or there is no such issue.
    pub fn issue(&self, back: u32) -> Option<IssueRecord>
        ensures { (all : List Record) → IssuesStand self.now.issues all → result ≡ issue_view all back }
    {
        self.issues.back(back)
    }

    /// The address of the store that was granted in the last cycle, and the number of its bytes, whether or not it was refused. None
    /// exactly where no store was granted.
    pub fn stored(&self) -> Option<(u32, u8)>
        ensures { result ≡ self.now.stored }
    {
        self.stored
    }
}

//! The DMA controller's registers and its accesses.
ghost use Rattle.std.specs.Prelude.{◌≡◌, ◌⊎◌, IsSome, IsNone, true, false, if◌then◌else◌};
ghost use Rattle.chip_base.specs.UnitTable.{part_has};
ghost use Rattle.chip_base.specs.declared.chip_unit.HubPart.TheVariants as part;
ghost use Rattle.dma_unit.specs.DmaRegisters.{address_after, state_before};

use crate::state::DmaState;
use chip_base::bits::bit_if;
use soc_bus::{BusFault, Request, Width};
use std::marker::Model;

/// The registers of the DMA controller, and the copy under way.
///
/// A copy moves COUNT words, one access to the bus at each grant: it reads a word at SRC, then writes it at DST. No call
/// takes memory.
#[derive(Drop)]
pub struct Dma {
    interrupt: bool,
    source_fixed: bool,
    destination_fixed: bool,
    state: DmaState,
    source: u32,
    destination: u32,
    count: u16,
    fault: u32,
    word: u32,
}

impl Model for Dma {
    ghost use Rattle.std.specs.Prelude.{◌≡◌, ◌<◌, ◌^◌, true};
    ghost use Rattle.dma_unit.specs.DmaRegisters.{DmaRegisters, is_busy};

    ghost Value = { DmaRegisters };

    ghost view = { λ d. record { interrupt = d.interrupt; source_fixed = d.source_fixed; destination_fixed = d.destination_fixed; state = d.state; source = d.source; destination = d.destination; count = d.count; fault = d.fault; word = d.word } };

    ghost invariant = { λ d. (is_busy d.state ≡ true → 0 < d.count) × (d.source < 2 ^ 32) × (d.destination < 2 ^ 32) };
}

/// The address after a word's, or the same one where it is fixed.
fn next_address(fixed: bool, address: u32) -> u32
    ensures { result ≡ address_after fixed address }
{
    if fixed {
        address
    } else {
        address.wrapping_add(4)
    }
}

/// The state before the first word of so many, or between two words.
fn next_word(count: u16) -> DmaState
    ensures { result ≡ state_before count }
{
    if count == 0 {
        DmaState::Done
    } else {
        DmaState::Reading
    }
}

impl Dma {
    ghost use Rattle.dma_unit.specs.DmaRegisters.{dma_reset, dma_control, dma_word, dma_control_stored, dma_stored, stored_at_rest, dma_wanted, word_read, word_written, refused_at, dma_granted, dma_line, is_busy};
    ghost use Rattle.dma_unit.specs.Control.{TellsDmaControl};
    ghost use Rattle.dma_unit.specs.Copying.{MovesByOne, Copies};
    ghost use Rattle.dma_unit.specs.Stores.{StoresWord};

    /// The reset state: no copy, and all registers 0.
    pub fn new() -> Dma
        ensures { result ≡ dma_reset }
    {
        Dma {
            interrupt: false,
            source_fixed: false,
            destination_fixed: false,
            state: DmaState::Idle,
            source: 0,
            destination: 0,
            count: 0,
            fault: 0,
            word: 0,
        }
    }

    /// Where the copy stands.
    pub fn state(&self) -> DmaState
        ensures { result ≡ self.now.state }
    {
        self.state
    }

    #[tactic(auto, using(crate::proofs::Control::tells_control))]
    fn control(&self) -> u32
        ensures word { result ≡ dma_control self.now }
        ensures bits { TellsDmaControl self.now result }
    {
        bit_if(0, self.state.is_busy())
            + bit_if(1, self.interrupt)
            + bit_if(2, self.source_fixed)
            + bit_if(3, self.destination_fixed)
            + bit_if(8, self.state == DmaState::Done)
            + bit_if(9, self.state == DmaState::Fault)
    }

    /// Loads the register at an offset: CTRL 0, SRC 4, DST 8, COUNT 12, FAULT 16.
    pub fn load(&self, reg: u8) -> u32
        requires register { part_has part.Dma reg ≡ true }
        ensures word { result ≡ dma_word self.now reg }
        ensures control { reg ≡ 0 → TellsDmaControl self.now result }
    {
        match reg {
            0 => self.control(),
            4 => self.source,
            8 => self.destination,
            12 => u32::from(self.count),
            _ => self.fault,
        }
    }

    fn store_control(&mut self, word: u32)
        ensures { self.new ≡ dma_control_stored self.old word }
    {
        self.interrupt = word / 2 % 2 == 1;
        self.source_fixed = word / 4 % 2 == 1;
        self.destination_fixed = word / 8 % 2 == 1;
        self.state = if word % 2 == 1 {
            next_word(self.count)
        } else {
            DmaState::Idle
        };
    }

    fn store_at_rest(&mut self, reg: u8, word: u32)
        requires { is_busy self.old.state ≡ false }
        ensures { self.new ≡ stored_at_rest self.old reg word }
    {
        match reg {
            0 => self.store_control(word),
            4 => self.source = word,
            8 => self.destination = word,
            12 => self.count = (word % 0x1_0000) as u16,
            _ => {}
        }
    }

    /// Stores a word to the register at an offset, as at `load`. It is ignored while a copy is under way, and at FAULT.
    /// A store to CTRL with bit 0 starts a copy.
    #[tactic(auto, using(crate::proofs::Stores::stores))]
    pub fn store(&mut self, reg: u8, word: u32)
        requires register { part_has part.Dma reg ≡ true }
        ensures registers { self.new ≡ dma_stored self.old reg word }
        ensures words { StoresWord self.old reg word self.new }
        ensures copy { Copies self.new }
    {
        if !self.state.is_busy() {
            self.store_at_rest(reg, word);
        }
    }

    /// The access that the copy wants. None exactly where no copy is under way.
    pub fn want(&self) -> Option<Request>
        ensures access { result ≡ dma_wanted self.now }
        ensures none { IsNone result → is_busy self.now.state ≡ false }
        ensures rest { is_busy self.now.state ≡ false → IsNone result }
    {
        match self.state {
            DmaState::Reading => Some(Request {
                addr: self.source,
                width: Width::Word,
                store: None,
            }),
            DmaState::Writing => Some(Request {
                addr: self.destination,
                width: Width::Word,
                store: Some(self.word),
            }),
            _ => None,
        }
    }

    fn read_word(&mut self, word: u32)
        requires { is_busy self.old.state ≡ true }
        ensures { self.new ≡ word_read self.old word }
    {
        self.word = word;
        self.state = DmaState::Writing;
    }

    fn wrote_word(&mut self)
        requires { is_busy self.old.state ≡ true }
        ensures { self.new ≡ word_written self.old }
    {
        self.source = next_address(self.source_fixed, self.source);
        self.destination = next_address(self.destination_fixed, self.destination);
        self.count -= 1;
        self.state = next_word(self.count);
    }

    fn end_at_fault(&mut self, address: u32)
        ensures { self.new ≡ refused_at self.old address }
    {
        self.state = DmaState::Fault;
        self.fault = address;
    }

    /// Takes the answer to the access that the copy wants. A refused access ends the copy and leaves its address in FAULT.
    #[tactic(auto, using(crate::proofs::Copying::moves))]
    pub fn granted(&mut self, answer: Result<u32, BusFault>)
        requires wants { IsSome (dma_wanted self.old) }
        ensures registers { self.new ≡ dma_granted self.old answer }
        ensures progress { MovesByOne self.old answer self.new }
        ensures copy { Copies self.new }
    {
        match self.state {
            DmaState::Reading => match answer {
                Ok(word) => self.read_word(word),
                Err(_) => self.end_at_fault(self.source),
            },
            DmaState::Writing => match answer {
                Ok(_) => self.wrote_word(),
                Err(_) => self.end_at_fault(self.destination),
            },
            _ => {}
        }
    }

    /// Whether the interrupt line is high: a copy ended or was refused, and interrupts are enabled.
    pub fn line(&self) -> bool
        ensures { result ≡ dma_line self.now }
    {
        self.interrupt && (self.state == DmaState::Done || self.state == DmaState::Fault)
    }
}

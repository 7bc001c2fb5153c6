//! The chip.
ghost use Rattle.std.specs.Prelude.{◌≡◌, ℕ, option_map, ◌<◌, ◌≤◌, ◌+◌, ◌++◌, ◌^◌, suc, true, [], length, List, IfOk, OnOk, IfSome, slice_range, option_to_list};
ghost use Rattle.std.specs.Int.{w32, to_le_bytes};
ghost use Rattle.chip_base.specs.Settings.{values_of};
ghost use Rattle.chip_hub.specs.Start.{fits_in};
ghost use Rattle.chip_hub.specs.Views.{boot_view, csr_view, hart_view, issue_view, word_view};
ghost use Rattle.soc_bus.specs.Memory.{IsSize, held_by, place_of};
ghost use Rattle.chip_whole.specs.Chip.{Board, ChipState, after, events_of, start, tick};
ghost use Rattle.spi_flash.specs.Flash.{byte_of, flash_at};
ghost use Rattle.chip_whole.specs.Standing.{ChipStands};

use crate::units::Units;
use bench_parts::Part;
use chip_base::{
    Boot, BootView, Cycle, Event, Groups, HartView, IssueRecord, NoMemory, Script, Setup, Steps,
};
use chip_hub::Hub;
use chip_whole::Standing;
use std::alloc::Global;
use std::sync::ledger::Ledger;
use std::thread::Threads;
use stream_link::{Stream, StreamStanding};

/// The chip: the hub, its units, and the links between them.
///
/// It keeps the events of its last run. In contracts it stands for a chip of the definition.
pub struct Chip {
    hub: Hub,
    units: Units,
    stream: Stream,
    events: Vec<Event>,
}

/// Written out, so that a function that drops a chip has one call in its proof, and not the parts of each unit.
impl Drop for Chip {
    fn drop(self) {
        let Chip {
            hub: _,
            units: _,
            stream: _,
            events: _,
        } = self;
    }
}

impl Standing for Chip {
    ghost use Rattle.stream_link.specs.Standing.{BehavesAfter, StreamStands};

    type Held = Box<dyn Part + Send>;

    ghost stands = { λ board c s. ChipStands (StreamStands (BehavesAfter board.part (option_map (λ b. (Part-box b).behave b.value) c.stream.part)) c.stream.queue) (record {
      hub = c.hub.hub;
      seat = c.hub.seat;
      units = c.units.units;
      down = c.units.down;
      up = c.units.up;
      cycle = c.units.cycle;
      issues = c.hub.issues;
      stored = c.hub.stored;
    }) s };

    ghost now = { λ c. c.units.cycle };

    ghost told = { λ c. c.events.items };
}

/// Appends an event, where one came.
fn keep(events: &mut Vec<Event>, event: Option<Event>) -> Result<(), NoMemory>
    ensures { OnOk result (events.new.items ≡ events.old.items ++ option_to_list event) }
{
    if let Some(event) = event
        && events.push(event).is_err()
    {
        return Err(NoMemory);
    }
    Ok(())
}

/// Appends those events that there are.
fn keep_all(events: &mut Vec<Event>, told: &[Option<Event>]) -> Result<(), NoMemory>
    ensures { OnOk result (events.new.items ≡ events.old.items ++ events_of told.now) }
{
    for event in told {
        keep(events, *event)?;
    }
    Ok(())
}

impl Chip {
    /// The chip at power-on, where core 0 begins in a boot mode with the file, which must fit, as `fits` of chip_hub tells. A script's
    /// `image` step sends the file's bytes in each boot mode. The stream link is fitted with the part, if there is one. The lanes run
    /// together, whatever their groups.
    pub fn new(
        alloc: Global,
        setup: &Setup,
        boot: Boot,
        image: Vec<u8>,
        script: Script,
        part: Option<Box<dyn Part + Send>>,
        groups: &Groups,
    ) -> Result<Chip, NoMemory>
        requires { fits_in boot image.items setup.now.imem ≡ true }
        ensures chip { IfOk result (λ chip. ⟦<Chip as Standing>⟧.stands (record { part = option_map (λ b. behave b) part }) chip
            (start (values_of setup.now) boot image.items script)) }
        ensures now { IfOk result (λ chip. ⟦<Chip as Standing>⟧.now chip ≡ 0) }
        ensures told { IfOk result (λ chip. ⟦<Chip as Standing>⟧.told chip ≡ []) }
    {
        let hub = Hub::new(alloc, setup, boot, &image)?;
        let units = Units::new(alloc, setup, &image, script)?;
        Ok(Chip {
            hub,
            units,
            stream: Stream::new(part),
            events: Vec::new(alloc),
        })
    }

    /// One cycle: the hub and each unit from the state before it. Gives what happened at the chip's edge.
    fn step(&mut self) -> [Option<Event>; 6]
        requires { ⟦<Chip as Standing>⟧.now self.old + 4096 < 2 ^ 64 }
        ensures state { (board : Board) (s : ChipState) → ⟦<Chip as Standing>⟧.stands board self.old s → ⟦<Chip as Standing>⟧.stands board self.new (tick board s) }
        ensures told { (board : Board) (s : ChipState) → ⟦<Chip as Standing>⟧.stands board self.old s → (tick board s).events ≡ s.events ++ events_of result }
        ensures now { ⟦<Chip as Standing>⟧.now self.new ≡ ⟦<Chip as Standing>⟧.now self.old + 1 }
        ensures kept { self.new.events ≡ self.old.events }
    {
        let now = self.units.now();
        let ups = self.units.arriving();
        let downs = self.hub.cycle(now, &ups);
        let stream = self.stream.cycle(now, self.units.at_stream_link());
        self.units.cycle(&downs, stream)
    }
}

/// Runs and views of the chip.
impl Chip {
    /// Steps the chip this many cycles, at most 4,096. The events of the run before are forgotten. After a refusal for want of memory
    /// the chip is only dropped.
    ///
    /// All lanes run together on the thread of the call: no thread is started, and `steps`, the counter of rounds over lanes that
    /// run apart, stays as it is.
    pub fn run<R: Threads + Sync, C: Ledger>(
        &mut self,
        rt: &R,
        cycles: u32,
        steps: &mut Steps<C>,
    ) -> Result<(), NoMemory>
        requires cycles { cycles ≤ 4096 }
        requires time { ⟦<Chip as Standing>⟧.now self.old + cycles + 4096 < 2 ^ 64 }
        ensures rounds { steps.new ≡ steps.old }
        ensures state { OnOk result ((board : Board) (s : ChipState) → ⟦<Chip as Standing>⟧.stands board self.old s
            → ⟦<Chip as Standing>⟧.stands board self.new (after board s cycles)) }
        ensures events { OnOk result ((board : Board) (s : ChipState) → ⟦<Chip as Standing>⟧.stands board self.old s
            → (after board s cycles).events ≡ s.events ++ ⟦<Chip as Standing>⟧.told self.new) }
        ensures now { OnOk result (⟦<Chip as Standing>⟧.now self.new ≡ ⟦<Chip as Standing>⟧.now self.old + cycles) }
    {
        self.events.clear();
        for _ in 0..cycles {
            let told = self.step();
            keep_all(&mut self.events, &told)?;
        }
        Ok(())
    }

    /// The events of the last run, by cycle and then by unit.
    pub fn events(&self) -> &[Event]
        ensures { result.now ≡ ⟦<Chip as Standing>⟧.told self.now }
    {
        self.events.as_slice()
    }

    /// The word at an address. None exactly where the address isn't that of a word of IMEM or DMEM.
    #[tactic(auto, unfolding(chip_whole::specs::Standing::ChipStands))]
    pub fn word(&self, addr: u32) -> Option<u32>
        ensures value { (board : Board) (s : ChipState) → ⟦<Chip as Standing>⟧.stands board self.now s → result ≡ word_view s.hub addr }
        ensures bytes { (board : Board) (s : ChipState) → ⟦<Chip as Standing>⟧.stands board self.now s → IfSome result (λ w. IfSome (place_of s.hub.memory addr 4)
            (λ p. to_le_bytes w32 w ≡ slice_range (held_by s.hub.memory p.0) p.1 (p.1 + 4))) }
    {
        self.hub.word(addr)
    }

    /// The number of bytes of IMEM.
    #[tactic(auto, unfolding(chip_whole::specs::Standing::ChipStands))]
    pub fn imem_size(&self) -> u32
        ensures value { (board : Board) (s : ChipState) → ⟦<Chip as Standing>⟧.stands board self.now s → result ≡ length s.hub.memory.imem }
        ensures valid { IsSize result }
    {
        self.hub.imem_size()
    }

    /// The number of bytes of DMEM.
    #[tactic(auto, unfolding(chip_whole::specs::Standing::ChipStands))]
    pub fn dmem_size(&self) -> u32
        ensures value { (board : Board) (s : ChipState) → ⟦<Chip as Standing>⟧.stands board self.now s → result ≡ length s.hub.memory.dmem }
        ensures valid { IsSize result }
    {
        self.hub.dmem_size()
    }

    /// A hart as a report shows it.
    #[tactic(auto, unfolding(chip_whole::specs::Standing::ChipStands))]
    pub fn hart(&self, hart: u8) -> HartView
        requires { hart < 2 }
        ensures { (board : Board) (s : ChipState) → ⟦<Chip as Standing>⟧.stands board self.now s → result ≡ hart_view s.hub hart }
    {
        self.hub.hart(hart)
    }

    /// The word of a CSR of a hart, mip as the lines stand now. None exactly where there is no such CSR.
    #[tactic(auto, unfolding(chip_whole::specs::Standing::ChipStands))]
    pub fn csr(&self, hart: u8, addr: u16) -> Option<u32>
        requires { hart < 2 }
        ensures { (board : Board) (s : ChipState) → ⟦<Chip as Standing>⟧.stands board self.now s → result ≡ csr_view s.hub hart addr }
    {
        self.hub.csr(hart, addr)
    }

    /// The byte of the flash at an address; an operation under way isn't done yet. None exactly where no flash is fitted or the address
    /// is past its end.
    #[tactic(auto, unfolding(chip_whole::specs::Standing::ChipStands))]
    pub fn flash(&self, at: u32) -> Option<u8>
        ensures { (board : Board) (s : ChipState) → ⟦<Chip as Standing>⟧.stands board self.now s → result ≡ flash_at s.units.spi.unit.flash at }
    {
        self.units.flash(at)
    }

    /// An address, at most 8,388,608, from which on each byte of the flash is ff.
    #[tactic(auto, unfolding(chip_whole::specs::Standing::ChipStands))]
    pub fn flash_end(&self) -> u32
        ensures bytes { (board : Board) (s : ChipState) → ⟦<Chip as Standing>⟧.stands board self.now s → (i : ℕ) → result ≤ i → byte_of s.units.spi.unit.flash.cells i ≡ 255 }
        ensures to { result ≤ 2 ^ 23 }
    {
        self.units.flash_end()
    }

    /// How core 0 began since the last reset: in its boot mode, or by the boot monitor's hand-over.
    #[tactic(auto, unfolding(chip_whole::specs::Standing::ChipStands))]
    pub fn boot(&self) -> BootView
        ensures { (board : Board) (s : ChipState) → ⟦<Chip as Standing>⟧.stands board self.now s → result ≡ boot_view s.seat }
    {
        self.hub.boot()
    }

    /// The issue that lies `back` issues before the latest. None exactly where `back` is 1,000 or more, or so far back nothing was
    /// issued since power-on.
    #[tactic(auto, unfolding(chip_whole::specs::Standing::ChipStands))]
    pub fn issues(&self, back: u32) -> Option<IssueRecord>
        ensures { (board : Board) (s : ChipState) → ⟦<Chip as Standing>⟧.stands board self.now s → result ≡ issue_view s.issues back }
    {
        self.hub.issue(back)
    }

    /// The address of the store that was granted in the last cycle, and the number of its bytes, whether or not it was refused. None
    /// exactly where no store was granted in it, or no cycle was stepped yet.
    #[tactic(auto, unfolding(chip_whole::specs::Standing::ChipStands))]
    pub fn stored(&self) -> Option<(u32, u8)>
        ensures { (board : Board) (s : ChipState) → ⟦<Chip as Standing>⟧.stands board self.now s → result ≡ s.stored }
    {
        self.hub.stored()
    }

    /// The cycle that is next to be stepped.
    #[tactic(auto, unfolding(chip_whole::specs::Standing::ChipStands))]
    pub fn now(&self) -> Cycle
        ensures time { result ≡ ⟦<Chip as Standing>⟧.now self.now }
        ensures state { (board : Board) (s : ChipState) → ⟦<Chip as Standing>⟧.stands board self.now s → result ≡ s.cycle }
    {
        self.units.now()
    }
}

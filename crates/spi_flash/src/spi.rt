//! The SPI unit, one cycle at a time.
ghost use Rattle.std.specs.Prelude.{◌≡◌, ◌≤◌, ◌<◌, ◌^◌, ℕ, IfOk, None, drop, length};
ghost use Rattle.spi_flash.specs.Flash.{byte_of};

use crate::flash::Flash;
use crate::transfer::Entry;
use arrayvec::ArrayVec;
use chip_base::prescaler::prescaler;
use chip_base::{Cycle, Down, NoMemory, UnitOut, Up};
use std::alloc::Global;
use std::marker::Model;

/// The SPI unit with the flash that it speaks to: it does what its entries say, one after another. A byte is exchanged for the
/// flash's answer in as many cycles as eight bits take.
///
/// At most sixteen entries wait; one more is lost. No call but `new` takes memory.
#[derive(Drop)]
pub struct Spi {
    enabled: bool,
    time: u32,
    queue: ArrayVec<Entry, 16>,
    left: u32,
    flash: Flash,
}

impl Model for Spi {
    ghost use Rattle.std.specs.Prelude.{◌≤◌};
    ghost use Rattle.arrayvec.specs.ArrayVec.{array_vec_len};
    ghost use Rattle.spi_flash.specs.SpiCycle.{SpiState};

    ghost Value = { SpiState };

    ghost view = { λ s. record { enabled = s.enabled; time = s.time; queue = s.queue.items; left = s.left; flash = s.flash } };

    ghost invariant = { λ s. (1 ≤ s.time) × (s.time ≤ 524288) × (array_vec_len s.queue ≤ 16) };
}

impl Spi {
    ghost use Rattle.spi_flash.specs.SpiCycle.{configured, queued, reset, set_in, spi_start};

    /// The unit at power-on, with a flash each of whose bytes is ff, or without one.
    pub fn new(alloc: Global, fitted: bool) -> Result<Spi, NoMemory>
        ensures { IfOk result (λ s. s ≡ spi_start fitted) }
    {
        Ok(Spi {
            enabled: false,
            time: 16,
            queue: ArrayVec::new(),
            left: 0,
            flash: Flash::new(alloc, fitted)?,
        })
    }

    /// Whether there is a flash.
    pub fn is_fitted(&self) -> bool
        ensures { result ≡ self.now.flash.fitted }
    {
        self.flash.is_fitted()
    }

    /// The byte of the flash at an address, an operation under way not yet done.
    pub fn flash(&self, at: u32) -> u8
        requires { at < 2 ^ 23 }
        ensures { result ≡ byte_of self.now.flash.cells at }
    {
        self.flash.byte(at)
    }

    /// An address from which on each byte of the flash is ff.
    pub fn flash_end(&self) -> u32
        ensures bytes { (i : ℕ) → result ≤ i → byte_of self.now.flash.cells i ≡ 255 }
        ensures to { result ≤ 2 ^ 23 }
    {
        self.flash.end()
    }

    fn configure(&mut self, control: u32)
        ensures { self.new ≡ configured self.old control }
    {
        self.enabled = control % 2 == 1;
        self.time = 8 * (prescaler(control) * (control / 64 % 16 + 1));
    }

    fn append(&mut self, entry: Entry)
        ensures { self.new ≡ queued self.old entry }
    {
        if !self.queue.is_full() {
            self.queue.push(entry);
        }
    }

    #[inline(never)]
    fn set(&mut self, reg: u8, word: u32)
        ensures { self.new ≡ set_in self.old reg word }
    {
        match reg {
            0 => self.configure(word),
            4 => self.append(Entry::Byte((word % 256) as u8)),
            8 => self.append(Entry::Select(word % 2 == 1)),
            _ => {}
        }
    }

    #[inline(never)]
    fn reset(&mut self)
        ensures { self.new ≡ (reset self.old).unit }
    {
        self.flash.cycle();
        self.flash.break_off();
        self.enabled = false;
        self.time = 16;
        self.queue.clear();
        self.left = 0;
    }
}

impl Spi {
    ghost use Rattle.spi_flash.specs.SpiCycle.{engine, exchanged, running, selecting, spi_cycle};
    ghost use Rattle.spi_flash.specs.SpiCounts.{CountsQueue, KeepsEntries};
    ghost use Rattle.spi_flash.specs.Laws.{HoldsOfTime};
    ghost use Rattle.spi_flash.specs.UnitFlash.{StepsFlash};

    /// Takes the first entry off.
    fn take(&mut self)
        requires { 0 < length self.old.queue }
        ensures { self.new ≡ record self.old { queue = drop 1 self.old.queue } }
    {
        self.queue.remove(0);
    }

    /// The selection that stands first is done, where no byte runs and the unit is enabled.
    fn select(&mut self, on: bool) -> UnitOut
        requires { 0 < length self.old.queue }
        ensures unit { self.new ≡ (selecting self.old on (drop 1 self.old.queue)).unit }
        ensures up { result.up ≡ (selecting self.old on (drop 1 self.old.queue)).up }
        ensures event { result.event ≡ None }
    {
        if self.left != 0 || !self.enabled {
            return UnitOut::QUIET;
        }
        self.flash.select(on);
        self.take();
        UnitOut {
            up: Some(Up::CREDIT),
            event: None,
        }
    }

    /// The byte that stands first is exchanged in the last of its cycles.
    fn exchange(&mut self, byte: u8, left: u32) -> UnitOut
        requires entry { 0 < length self.old.queue }
        requires left { 1 ≤ left }
        ensures unit { self.new ≡ (exchanged self.old byte (drop 1 self.old.queue) left).unit }
        ensures up { result.up ≡ (exchanged self.old byte (drop 1 self.old.queue) left).up }
        ensures event { result.event ≡ None }
    {
        if left != 1 {
            self.left = left - 1;
            return UnitOut::QUIET;
        }
        let answer = self.flash.answer();
        self.flash.send(byte);
        self.take();
        self.left = 0;
        UnitOut {
            up: Some(Up {
                has: true,
                word: u32::from(answer),
                ..Up::CREDIT
            }),
            event: None,
        }
    }

    /// The byte that stands first begins, or goes on.
    fn run(&mut self, byte: u8) -> UnitOut
        requires { 0 < length self.old.queue }
        ensures unit { self.new ≡ (running self.old byte (drop 1 self.old.queue)).unit }
        ensures up { result.up ≡ (running self.old byte (drop 1 self.old.queue)).up }
        ensures event { result.event ≡ None }
    {
        match (self.left, self.enabled) {
            (0, false) => UnitOut::QUIET,
            (0, true) => self.exchange(byte, self.time),
            (left, _) => self.exchange(byte, left),
        }
    }

    /// The work of a cycle in which an entry waits or an operation is under way.
    #[inline(never)]
    fn go_on(&mut self) -> UnitOut
        ensures unit { self.new ≡ (engine self.old).unit }
        ensures up { result.up ≡ (engine self.old).up }
        ensures event { result.event ≡ None }
    {
        self.flash.cycle();
        match self.queue.first() {
            None => UnitOut::QUIET,
            Some(Entry::Select(on)) => {
                let on = *on;
                self.select(on)
            }
            Some(Entry::Byte(byte)) => {
                let byte = *byte;
                self.run(byte)
            }
        }
    }

    #[inline(always)]
    fn work(&mut self) -> UnitOut
        ensures unit { self.new ≡ (engine self.old).unit }
        ensures up { result.up ≡ (engine self.old).up }
        ensures event { result.event ≡ None }
    {
        if self.queue.is_empty() && !self.flash.is_busy() {
            UnitOut::QUIET
        } else {
            self.go_on()
        }
    }

    /// One cycle: takes the message that arrives in it, if there is one, then the operation of the flash that is under way loses a
    /// cycle, and then the first entry is done or goes on. Gives what leaves the unit.
    ///
    /// In the cycle in which an entry is done its credit goes up, and of a byte the flash's answer as a word beside it. In the cycle
    /// of a Reset only its answer, done, goes up. There are no events.
    #[inline(always)]
    pub fn cycle(&mut self, now: Cycle, down: Option<Down>) -> UnitOut
        ensures unit { self.new ≡ (spi_cycle self.old now down).unit }
        ensures up { result.up ≡ (spi_cycle self.old now down).up }
        ensures event { result.event ≡ (spi_cycle self.old now down).event }
        ensures count { CountsQueue self.old down self.new result.up }
        ensures order { KeepsEntries self.old down self.new result.up }
        ensures time { HoldsOfTime self.old }
        ensures flash { StepsFlash self.old down self.new result.up }
    {
        match down {
            Some(Down::Reset) => {
                self.reset();
                UnitOut {
                    up: Some(Up::DONE),
                    event: None,
                }
            }
            Some(Down::Set { reg, word }) => {
                self.set(reg, word);
                self.work()
            }
            None => self.work(),
        }
    }
}

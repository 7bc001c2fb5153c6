//! Accesses that were granted.
ghost use Rattle.std.specs.Prelude.{◌≡◌, ◌≤◌, ◌*◌, ◌/◌, ◌-◌, ℕ, Ok, Err, IsTrue, length, set, true};
ghost use Rattle.chip_base.specs.UnitTable.{part_has, unit_has, unit_numbered};
ghost use Rattle.chip_base.specs.declared.chip_unit.HubPart.TheVariants as part;
ghost use Rattle.dma_unit.specs.DmaRegisters.{is_busy};
ghost use Rattle.soc_bus.specs.Map.{admitted};
ghost use Rattle.chip_hub.specs.Offsets.{fits_at, numbered_has};
ghost use Rattle.chip_hub.specs.Access.{accessed, in_clint, in_device, in_dma, in_mailbox, in_memory, in_numbered, in_region, in_sysinfo, open_bit, open_word, sysinfo_word};
ghost use Rattle.chip_hub.specs.Parts.{offset_in};
ghost use Rattle.chip_hub.specs.Units.{messages_in, only_to, silent};

use crate::complex::CoreComplex;
use crate::parts::{offset_in, part_of_word};
use crate::units::{
    AtFront, access_gpio, access_pwm, access_slink, access_spi, access_uart, access_watchdog,
};
use chip_base::bits::bit_if;
use chip_base::{ChipUnit, Down, HubPart};
use soc_bus::{BusFault, Region, Request, admit};

/// No message for any of the seven units.
pub(crate) const SILENT: [Option<Down>; 7] = [None; 7];

/// A Reset for each of them.
pub(crate) const RESETS: [Option<Down>; 7] = [Some(Down::Reset); 7];

/// What an access gives its master, and the messages that go down to the units.
#[derive(Clone, Copy)]
pub(crate) struct Access {
    pub(crate) answer: Result<u32, BusFault>,
    pub(crate) downs: [Option<Down>; 7],
}

/// A load that gives this word.
const fn gives(word: u32) -> Access
    ensures { result ≡ record { answer = Ok word; downs = silent } }
{
    Access {
        answer: Ok(word),
        downs: SILENT,
    }
}

/// A store that is done.
const fn done() -> Access
    ensures { result ≡ record { answer = Ok 0; downs = silent } }
{
    Access {
        answer: Ok(0),
        downs: SILENT,
    }
}

/// An access that is refused.
const fn faulted(fault: BusFault) -> Access
    ensures { result ≡ record { answer = Err fault; downs = silent } }
{
    Access {
        answer: Err(fault),
        downs: SILENT,
    }
}

/// What an access to the registers of a unit gives.
fn at_unit(unit: ChipUnit, at: AtFront) -> Access
    ensures { result ≡ record { answer = Ok at.word; downs = only_to unit at.down } }
{
    let mut downs = SILENT;
    downs[unit.place()] = at.down;
    Access {
        answer: Ok(at.word),
        downs,
    }
}

/// A unit's bit in OPEN, where its front is open.
fn open_bit(unit: ChipUnit, is_open: bool) -> u32
    ensures value { result ≡ open_bit unit is_open }
    ensures to { result ≤ 128 }
{
    bit_if(u32::from(unit.number()), is_open)
}

impl CoreComplex {
    fn access_memory(&mut self, request: &Request) -> Access
        ensures step { record { hub = self.new; answer = result.answer; downs = result.downs } ≡ in_memory self.old request.now request.now.store }
        ensures dma { self.new.dma ≡ self.old.dma }
    {
        match request.store {
            None => Access {
                answer: self.memory.load(request.addr, request.width),
                downs: SILENT,
            },
            Some(value) => match self.memory.store(request.addr, request.width, value) {
                Ok(()) => done(),
                Err(fault) => faulted(fault),
            },
        }
    }

    fn access_clint(&mut self, request: &Request) -> Access
        requires { part_has part.Clint (offset_in part.Clint request.now) ≡ true }
        ensures step { record { hub = self.new; answer = result.answer; downs = result.downs } ≡ in_clint self.old request.now request.now.store }
        ensures dma { self.new.dma ≡ self.old.dma }
    {
        let offset = offset_in(HubPart::Clint, request);
        match request.store {
            None => gives(part_of_word(request, self.clint.load(offset))),
            Some(value) => {
                self.clint.store(offset, value);
                done()
            }
        }
    }

    fn access_mailbox(&mut self, request: &Request) -> Access
        requires { part_has part.Mailbox (offset_in part.Mailbox request.now) ≡ true }
        ensures step { record { hub = self.new; answer = result.answer; downs = result.downs } ≡ in_mailbox self.old request.now request.now.store }
        ensures dma { self.new.dma ≡ self.old.dma }
    {
        let offset = offset_in(HubPart::Mailbox, request);
        match request.store {
            None => gives(part_of_word(request, self.mailbox.load(offset))),
            Some(value) => {
                self.mailbox.store(offset, value);
                done()
            }
        }
    }

    fn access_dma(&mut self, request: &Request) -> Access
        requires { part_has part.Dma (offset_in part.Dma request.now) ≡ true }
        ensures step { record { hub = self.new; answer = result.answer; downs = result.downs } ≡ in_dma self.old request.now request.now.store }
        ensures dma { is_busy self.old.dma.state ≡ true → self.new.dma ≡ self.old.dma }
    {
        let reg = offset_in(HubPart::Dma, request) as u8;
        match request.store {
            None => gives(part_of_word(request, self.dma.load(reg))),
            Some(value) => {
                self.dma.store(reg, value);
                done()
            }
        }
    }

    /// The bits of the units whose fronts are open, by the units' numbers.
    fn open_fronts(&self) -> u32
        ensures { result ≡ open_word self.now.fronts }
    {
        open_bit(ChipUnit::Uart0, self.uart0.is_open())
            + open_bit(ChipUnit::Uart1, self.uart1.is_open())
            + open_bit(ChipUnit::Spi, self.spi.is_open())
            + open_bit(ChipUnit::Gpio, self.gpio.is_open())
            + open_bit(ChipUnit::Pwm, self.pwm.is_open())
            + open_bit(ChipUnit::Slink, self.slink.is_open())
            + open_bit(ChipUnit::Wdt, self.wdt.is_open())
    }

    /// The word of a register that tells the settings.
    fn sysinfo(&self, offset: u32) -> u32
        ensures { result ≡ sysinfo_word self.now offset }
    {
        match offset {
            0 => self.clock,
            4 => self.memory.imem_size(),
            8 => self.memory.dmem_size(),
            _ => self.open_fronts(),
        }
    }

    fn access_sysinfo(&mut self, request: &Request) -> Access
        ensures step { record { hub = self.new; answer = result.answer; downs = result.downs } ≡ in_sysinfo self.old request.now request.now.store }
        ensures dma { self.new.dma ≡ self.old.dma }
    {
        match request.store {
            None => gives(part_of_word(
                request,
                self.sysinfo(offset_in(HubPart::Sysinfo, request)),
            )),
            Some(_) => done(),
        }
    }

    fn access_device(&mut self, request: &Request, unit: ChipUnit, reg: u8) -> Access
        requires { unit_has unit reg ≡ true }
        ensures step { record { hub = self.new; answer = result.answer; downs = result.downs } ≡ in_device self.old request.now unit reg }
        ensures dma { self.new.dma ≡ self.old.dma }
    {
        match unit {
            ChipUnit::Uart0 => at_unit(unit, access_uart(&mut self.uart0, request, reg)),
            ChipUnit::Uart1 => at_unit(unit, access_uart(&mut self.uart1, request, reg)),
            ChipUnit::Spi => at_unit(unit, access_spi(&mut self.spi, request, reg)),
            ChipUnit::Gpio => at_unit(unit, access_gpio(&mut self.gpio, request, reg)),
            ChipUnit::Pwm => at_unit(unit, access_pwm(&mut self.pwm, request, reg)),
            ChipUnit::Slink => at_unit(unit, access_slink(&mut self.slink, request, reg)),
            ChipUnit::Wdt => at_unit(unit, access_watchdog(&mut self.wdt, request, reg)),
        }
    }

    fn access_numbered(&mut self, request: &Request, number: u8, reg: u8) -> Access
        requires { numbered_has (unit_numbered number) reg ≡ true }
        ensures step { record { hub = self.new; answer = result.answer; downs = result.downs } ≡ in_numbered self.old request.now (unit_numbered number) reg }
        ensures dma { self.new.dma ≡ self.old.dma }
    {
        match ChipUnit::numbered(number) {
            Some(unit) => self.access_device(request, unit, reg),
            None => faulted(BusFault::Unmapped),
        }
    }

    fn access_region(&mut self, request: &Request, region: Region) -> Access
        requires { fits_at (4 * (request.now.addr / 4)) region ≡ true }
        ensures step { record { hub = self.new; answer = result.answer; downs = result.downs } ≡ in_region self.old request.now region }
        ensures dma { is_busy self.old.dma.state ≡ true → self.new.dma ≡ self.old.dma }
    {
        match region {
            Region::Imem => self.access_memory(request),
            Region::Dmem => self.access_memory(request),
            Region::Clint => self.access_clint(request),
            Region::Mailbox => self.access_mailbox(request),
            Region::Sysinfo => self.access_sysinfo(request),
            Region::Dma => self.access_dma(request),
            Region::Device { unit, reg } => self.access_numbered(request, unit, reg),
        }
    }

    /// Makes the access of a request.
    #[tactic(auto, using(crate::proofs::Offsets::admitted_fits), unfolding(crate::specs::Access::accessed))]
    pub(crate) fn access(&mut self, request: &Request) -> Access
        ensures step { record { hub = self.new; answer = result.answer; downs = result.downs } ≡ accessed self.old request.now }
        ensures messages { messages_in result.downs ≤ 1 }
        ensures dma { is_busy self.old.dma.state ≡ true → self.new.dma ≡ self.old.dma }
    {
        match admit(request, self.memory.imem_size(), self.memory.dmem_size()) {
            Ok(region) => self.access_region(request, region),
            Err(fault) => faulted(fault),
        }
    }
}

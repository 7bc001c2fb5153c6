//! The units and their links.
ghost use Rattle.std.specs.Prelude.{◌≡◌, ◌≤◌, ◌<◌, ◌+◌, ◌^◌, ℕ, suc, length, List, IfOk, None, get_or};
ghost use Rattle.std.specs.List.{list_any};
ghost use Rattle.chip_base.specs.Settings.{values_of};
ghost use Rattle.spi_flash.specs.Flash.{byte_of, flash_at};
ghost use Rattle.chip_base.specs.UnitTable.{link_place, unit_row};
ghost use Rattle.chip_base.specs.declared.chip_unit.ChipUnit.TheVariants.{Slink};
ghost use Rattle.delay_line.specs.Queue.{empty_link};
ghost use Rattle.soc_words.specs.Link.{link_first, link_moved};
ghost use Rattle.chip_net.specs.Lanes.{joined_of};
ghost use Rattle.chip_whole.specs.Chip.{arriving, delay_of, image_for, is_image, told_by_units, units_after, units_start};
ghost use Rattle.chip_whole.specs.Joined.{joined_start};
ghost use Rattle.uart_lane.specs.State.{uart_start};

use crate::lanes::{Lane, joined, step_gpio, step_pwm, step_spi, step_uart, step_watchdog};
use crate::links::Links;
use board_units::{Gpio, Pwm, Watchdog};
use chip_base::{
    Bytes, ChipUnit, Cycle, Down, Event, NoMemory, Script, Setup, Steps0, UartStep, UnitOut, Up,
};
use spi_flash::Spi;
use spi_flash::array::SIZE;
use std::alloc::Global;
use std::marker::Model;
use uart_lane::Uart;

/// The units, each with its links to the hub; of the stream link only its links.
#[derive(Drop)]
pub(crate) struct Units {
    uart0: Lane<Uart>,
    uart1: Lane<Uart>,
    spi: Lane<Spi>,
    gpio: Lane<Gpio>,
    pwm: Lane<Pwm>,
    wdt: Lane<Watchdog>,
    slink: Links,
    cycle: Cycle,
}

impl Model for Units {
    ghost use Rattle.std.specs.Prelude.{◌≡◌};
    ghost use Rattle.chip_net.specs.Lanes.{joined_of};
    ghost use Rattle.chip_net.specs.Units.{UnitsState};

    ghost Value = { UnitsState };

    ghost view = { λ u. record {
      units = record {
        uart0 = joined_of u.uart0.unit u.uart0.links;
        uart1 = joined_of u.uart1.unit u.uart1.links;
        spi = joined_of u.spi.unit u.spi.links;
        gpio = joined_of u.gpio.unit u.gpio.links;
        pwm = joined_of u.pwm.unit u.pwm.links;
        wdt = joined_of u.wdt.unit u.wdt.links;
      };
      down = u.slink.down;
      up = u.slink.up;
      cycle = u.cycle;
    } };

    ghost invariant = { λ u. (u.uart0.links.cycle ≡ u.cycle) × (u.uart1.links.cycle ≡ u.cycle) × (u.spi.links.cycle ≡ u.cycle) × (u.gpio.links.cycle ≡ u.cycle)
        × (u.pwm.links.cycle ≡ u.cycle) × (u.wdt.links.cycle ≡ u.cycle) × (u.slink.cycle ≡ u.cycle) };
}

/// Whether a step sends the bytes of the image file.
fn sends_image(steps: &[UartStep]) -> bool
    ensures { result ≡ list_any is_image steps.now }
{
    for step in steps {
        if let UartStep::Image = step {
            return true;
        }
    }
    false
}

/// The bytes that a UART with these steps needs of the image file: all of them where a step sends the image, and else none.
fn image_for(alloc: Global, steps: &Steps0, image: &[u8]) -> Result<Bytes, NoMemory>
    ensures { IfOk result (λ bytes. bytes ≡ image_for steps.now image.now) }
{
    let needed = if sends_image(steps.as_slice()) {
        image
    } else {
        &[]
    };
    match Vec::from_slice(alloc, needed) {
        Ok(bytes) => Ok(Bytes::from_vec(bytes)),
        Err(_) => Err(NoMemory),
    }
}

/// A UART at power-on, with the bytes that it needs of the image file, and nothing on its links.
fn joined_uart(
    alloc: Global,
    setup: &Setup,
    which: ChipUnit,
    steps: Steps0,
    image: &[u8],
) -> Result<Lane<Uart>, NoMemory>
    ensures joined { IfOk result (λ lane. joined_of lane.unit lane.links
        ≡ joined_start (uart_start (unit_row which).number steps (image_for steps image.now)) (delay_of (values_of setup.now) (link_place which))) }
    ensures time { IfOk result (λ lane. lane.links.cycle ≡ 0) }
{
    let bytes = image_for(alloc, &steps, image)?;
    joined(alloc, setup, which, Uart::new(which.number(), steps, bytes))
}

impl Units {
    /// The units at power-on, with a script to come.
    pub(crate) fn new(
        alloc: Global,
        setup: &Setup,
        image: &[u8],
        script: Script,
    ) -> Result<Units, NoMemory>
        ensures { IfOk result (λ u. u ≡ record {
          units = units_start (values_of setup.now) image.now script;
          down = empty_link (delay_of (values_of setup.now) (link_place Slink));
          up = empty_link (delay_of (values_of setup.now) (link_place Slink));
          cycle = 0;
        }) }
    {
        let uart0 = joined_uart(alloc, setup, ChipUnit::Uart0, script.uart0, image)?;
        let uart1 = joined_uart(alloc, setup, ChipUnit::Uart1, script.uart1, image)?;
        let spi = joined(alloc, setup, ChipUnit::Spi, Spi::new(alloc, setup.flash)?)?;
        let gpio = joined(alloc, setup, ChipUnit::Gpio, Gpio::new(script.pins))?;
        let pwm = joined(alloc, setup, ChipUnit::Pwm, Pwm::new())?;
        let wdt = joined(alloc, setup, ChipUnit::Wdt, Watchdog::new())?;
        let slink = Links::new(alloc, setup, ChipUnit::Slink.place())?;
        Ok(Units {
            uart0,
            uart1,
            spi,
            gpio,
            pwm,
            wdt,
            slink,
            cycle: 0,
        })
    }

    /// The cycle that is next to be stepped.
    pub(crate) fn now(&self) -> Cycle
        ensures { result ≡ self.now.cycle }
    {
        self.cycle
    }

    /// What arrives at the hub in this cycle, by unit.
    pub(crate) fn arriving(&self) -> [Option<Up>; 7]
        ensures { result ≡ arriving self.now.units (link_first self.now.up) }
    {
        [
            self.uart0.links.at_front(),
            self.uart1.links.at_front(),
            self.spi.links.at_front(),
            self.gpio.links.at_front(),
            self.pwm.links.at_front(),
            self.slink.at_front(),
            self.wdt.links.at_front(),
        ]
    }

    /// The message that arrives at the stream link in this cycle.
    #[inline(always)]
    pub(crate) fn at_stream_link(&self) -> Option<Down>
        ensures { result ≡ link_first self.now.down }
    {
        self.slink.at_unit()
    }

    /// One cycle of each unit, in which the hub sent these messages, and this left the stream link; and what happened at the chip's
    /// edge in it, by unit.
    pub(crate) fn cycle(&mut self, downs: &[Option<Down>; 7], stream: UnitOut) -> [Option<Event>; 6]
        requires { self.old.cycle + 4096 < 2 ^ 64 }
        ensures units { self.new.units ≡ units_after self.old.units self.old.cycle downs.now }
        ensures down { self.new.down ≡ link_moved self.old.down (get_or downs.now (link_place Slink) None) }
        ensures up { self.new.up ≡ link_moved self.old.up stream.up }
        ensures told { result ≡ told_by_units self.old.units self.old.cycle stream.event }
        ensures cycle { self.new.cycle ≡ suc self.old.cycle }
    {
        let now = self.cycle;
        let uart0 = step_uart(&mut self.uart0, now, downs[ChipUnit::Uart0.place()]);
        let uart1 = step_uart(&mut self.uart1, now, downs[ChipUnit::Uart1.place()]);
        step_spi(&mut self.spi, now, downs[ChipUnit::Spi.place()]);
        let gpio = step_gpio(&mut self.gpio, now, downs[ChipUnit::Gpio.place()]);
        let pwm = step_pwm(&mut self.pwm, now, downs[ChipUnit::Pwm.place()]);
        let wdt = step_watchdog(&mut self.wdt, now, downs[ChipUnit::Wdt.place()]);
        self.slink.step(downs[ChipUnit::Slink.place()], stream.up);
        self.cycle += 1;
        [uart0, uart1, gpio, pwm, stream.event, wdt]
    }

    /// The byte of the flash at an address. None exactly where no flash is fitted or the address is past its end.
    pub(crate) fn flash(&self, at: u32) -> Option<u8>
        ensures { result ≡ flash_at self.now.units.spi.unit.flash at }
    {
        if self.spi.unit.is_fitted() && at < SIZE {
            Some(self.spi.unit.flash(at))
        } else {
            None
        }
    }

    /// An address from which on each byte of the flash is ff.
    pub(crate) fn flash_end(&self) -> u32
        ensures bytes { (i : ℕ) → result ≤ i → byte_of self.now.units.spi.unit.flash.cells i ≡ 255 }
        ensures to { result ≤ 2 ^ 23 }
    {
        self.spi.unit.flash_end()
    }
}

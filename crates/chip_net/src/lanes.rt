//! A unit with its two links.
ghost use Rattle.std.specs.Prelude.{◌≡◌, ◌<◌, ◌+◌, ◌^◌, suc, IfOk};
ghost use Rattle.board_units.specs.GpioCycle.{gpio_cycle};
ghost use Rattle.board_units.specs.PwmCycle.{pwm_cycle};
ghost use Rattle.board_units.specs.WatchdogCycle.{watchdog_cycle};
ghost use Rattle.chip_base.specs.Settings.{values_of};
ghost use Rattle.chip_base.specs.UnitTable.{link_place};
ghost use Rattle.chip_net.specs.Lanes.{joined_of};
ghost use Rattle.chip_whole.specs.Chip.{delay_of};
ghost use Rattle.chip_whole.specs.Joined.{event_of, joined_after, joined_start};
ghost use Rattle.spi_flash.specs.SpiCycle.{spi_cycle};
ghost use Rattle.uart_lane.specs.Cycle.{uart_cycle};

use crate::links::Links;
use board_units::{Gpio, Pwm, Watchdog};
use chip_base::{ChipUnit, Cycle, Down, Event, NoMemory, Setup};
use spi_flash::Spi;
use std::alloc::Global;
use uart_lane::Uart;

/// A unit and its links to the hub.
pub(crate) struct Lane<U> {
    pub(crate) unit: U,
    pub(crate) links: Links,
}

/// Written out, so that a function that drops lanes has one call for each in its proof.
impl<U: Drop> Drop for Lane<U> {
    fn drop(self) {
        let Lane { unit: _, links: _ } = self;
    }
}

/// A unit at power-on, with nothing on its links.
pub(crate) fn joined<U: Drop>(
    alloc: Global,
    setup: &Setup,
    which: ChipUnit,
    unit: U,
) -> Result<Lane<U>, NoMemory>
    ensures joined { IfOk result (λ lane. joined_of lane.unit lane.links ≡ joined_start unit (delay_of (values_of setup.now) (link_place which))) }
    ensures time { IfOk result (λ lane. lane.links.cycle ≡ 0) }
{
    let links = Links::new(alloc, setup, which.place())?;
    Ok(Lane { unit, links })
}

/// One cycle of a UART and its links, in which this was sent down.
#[inline(always)]
pub(crate) fn step_uart(lane: &mut Lane<Uart>, now: Cycle, sent: Option<Down>) -> Option<Event>
    requires { lane.old.links.cycle + 4096 < 2 ^ 64 }
    ensures joined { joined_of lane.new.unit lane.new.links ≡ joined_after uart_cycle (joined_of lane.old.unit lane.old.links) now sent }
    ensures event { result ≡ event_of uart_cycle (joined_of lane.old.unit lane.old.links) now }
    ensures time { lane.new.links.cycle ≡ suc lane.old.links.cycle }
{
    let uart = lane.unit.cycle(now, lane.links.at_unit());
    lane.links.step(sent, uart.up);
    uart.event
}

/// One cycle of the SPI unit and its links, in which this was sent down. It tells nothing.
#[inline(always)]
pub(crate) fn step_spi(lane: &mut Lane<Spi>, now: Cycle, sent: Option<Down>)
    requires { lane.old.links.cycle + 4096 < 2 ^ 64 }
    ensures joined { joined_of lane.new.unit lane.new.links ≡ joined_after spi_cycle (joined_of lane.old.unit lane.old.links) now sent }
    ensures time { lane.new.links.cycle ≡ suc lane.old.links.cycle }
{
    let spi = lane.unit.cycle(now, lane.links.at_unit());
    lane.links.step(sent, spi.up);
}

/// One cycle of the GPIO unit and its links, in which this was sent down.
#[inline(always)]
pub(crate) fn step_gpio(lane: &mut Lane<Gpio>, now: Cycle, sent: Option<Down>) -> Option<Event>
    requires { lane.old.links.cycle + 4096 < 2 ^ 64 }
    ensures joined { joined_of lane.new.unit lane.new.links ≡ joined_after gpio_cycle (joined_of lane.old.unit lane.old.links) now sent }
    ensures event { result ≡ event_of gpio_cycle (joined_of lane.old.unit lane.old.links) now }
    ensures time { lane.new.links.cycle ≡ suc lane.old.links.cycle }
{
    let gpio = lane.unit.cycle(now, lane.links.at_unit());
    lane.links.step(sent, gpio.up);
    gpio.event
}

/// One cycle of the PWM unit and its links, in which this was sent down.
#[inline(always)]
pub(crate) fn step_pwm(lane: &mut Lane<Pwm>, now: Cycle, sent: Option<Down>) -> Option<Event>
    requires { lane.old.links.cycle + 4096 < 2 ^ 64 }
    ensures joined { joined_of lane.new.unit lane.new.links ≡ joined_after pwm_cycle (joined_of lane.old.unit lane.old.links) now sent }
    ensures event { result ≡ event_of pwm_cycle (joined_of lane.old.unit lane.old.links) now }
    ensures time { lane.new.links.cycle ≡ suc lane.old.links.cycle }
{
    let pwm = lane.unit.cycle(now, lane.links.at_unit());
    lane.links.step(sent, pwm.up);
    pwm.event
}

/// One cycle of the watchdog's unit and its links, in which this was sent down.
#[inline(always)]
pub(crate) fn step_watchdog(
    lane: &mut Lane<Watchdog>,
    now: Cycle,
    sent: Option<Down>,
) -> Option<Event>
    requires { lane.old.links.cycle + 4096 < 2 ^ 64 }
    ensures joined { joined_of lane.new.unit lane.new.links ≡ joined_after watchdog_cycle (joined_of lane.old.unit lane.old.links) now sent }
    ensures event { result ≡ event_of watchdog_cycle (joined_of lane.old.unit lane.old.links) now }
    ensures time { lane.new.links.cycle ≡ suc lane.old.links.cycle }
{
    let watchdog = lane.unit.cycle(now, lane.links.at_unit());
    lane.links.step(sent, watchdog.up);
    watchdog.event
}

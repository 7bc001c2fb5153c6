//! Accesses to the registers of the units, at their fronts.
ghost use Rattle.std.specs.Prelude.{◌≡◌, ◌⊎◌, ℕ, true};
ghost use Rattle.chip_base.specs.UnitTable.{unit_has};
ghost use Rattle.chip_base.specs.declared.chip_unit.ChipUnit.TheVariants.{Uart0, Spi, Gpio, Pwm, Slink, Wdt};
ghost use Rattle.unit_fronts.specs.SlinkFront.{slink_kind};
ghost use Rattle.unit_fronts.specs.SpiFront.{spi_kind};
ghost use Rattle.unit_fronts.specs.UartFront.{uart_kind};
ghost use Rattle.chip_hub.specs.Units.{at_gpio, at_pwm, at_serial, at_watchdog};

use crate::parts::part_of_word;
use chip_base::Down;
use soc_bus::Request;
use unit_fronts::{GpioFront, PwmFront, SlinkFront, SpiFront, UartFront, WdtFront};

/// What an access gives at a front: the word for its master, and the message for the unit.
#[derive(Clone, Copy)]
pub(crate) struct AtFront {
    pub(crate) word: u32,
    pub(crate) down: Option<Down>,
}

/// An access to the registers of a UART, which uart0 and uart1 have alike.
pub(crate) fn access_uart(front: &mut UartFront, request: &Request, reg: u8) -> AtFront
    requires { unit_has Uart0 reg ≡ true }
    ensures front { front.new ≡ (at_serial uart_kind front.old request.now reg request.now.store).front }
    ensures word { result.word ≡ (at_serial uart_kind front.old request.now reg request.now.store).word }
    ensures down { result.down ≡ (at_serial uart_kind front.old request.now reg request.now.store).down }
{
    match request.store {
        None => AtFront {
            word: part_of_word(request, front.load(reg)),
            down: None,
        },
        Some(value) => AtFront {
            word: 0,
            down: front.store(reg, value),
        },
    }
}

pub(crate) fn access_spi(front: &mut SpiFront, request: &Request, reg: u8) -> AtFront
    requires { unit_has Spi reg ≡ true }
    ensures front { front.new ≡ (at_serial spi_kind front.old request.now reg request.now.store).front }
    ensures word { result.word ≡ (at_serial spi_kind front.old request.now reg request.now.store).word }
    ensures down { result.down ≡ (at_serial spi_kind front.old request.now reg request.now.store).down }
{
    match request.store {
        None => AtFront {
            word: part_of_word(request, front.load(reg)),
            down: None,
        },
        Some(value) => AtFront {
            word: 0,
            down: front.store(reg, value),
        },
    }
}

pub(crate) fn access_gpio(front: &mut GpioFront, request: &Request, reg: u8) -> AtFront
    requires { unit_has Gpio reg ≡ true }
    ensures front { front.new ≡ (at_gpio front.old request.now reg request.now.store).front }
    ensures word { result.word ≡ (at_gpio front.old request.now reg request.now.store).word }
    ensures down { result.down ≡ (at_gpio front.old request.now reg request.now.store).down }
{
    match request.store {
        None => AtFront {
            word: part_of_word(request, front.load(reg)),
            down: None,
        },
        Some(value) => AtFront {
            word: 0,
            down: front.store(reg, value),
        },
    }
}

pub(crate) fn access_pwm(front: &mut PwmFront, request: &Request, reg: u8) -> AtFront
    requires { unit_has Pwm reg ≡ true }
    ensures front { front.new ≡ (at_pwm front.old request.now reg request.now.store).front }
    ensures word { result.word ≡ (at_pwm front.old request.now reg request.now.store).word }
    ensures down { result.down ≡ (at_pwm front.old request.now reg request.now.store).down }
{
    match request.store {
        None => AtFront {
            word: part_of_word(request, front.load(reg)),
            down: None,
        },
        Some(value) => AtFront {
            word: 0,
            down: front.store(reg, value),
        },
    }
}

pub(crate) fn access_slink(front: &mut SlinkFront, request: &Request, reg: u8) -> AtFront
    requires { unit_has Slink reg ≡ true }
    ensures front { front.new ≡ (at_serial slink_kind front.old request.now reg request.now.store).front }
    ensures word { result.word ≡ (at_serial slink_kind front.old request.now reg request.now.store).word }
    ensures down { result.down ≡ (at_serial slink_kind front.old request.now reg request.now.store).down }
{
    match request.store {
        None => AtFront {
            word: part_of_word(request, front.load(reg)),
            down: None,
        },
        Some(value) => AtFront {
            word: 0,
            down: front.store(reg, value),
        },
    }
}

pub(crate) fn access_watchdog(front: &mut WdtFront, request: &Request, reg: u8) -> AtFront
    requires { unit_has Wdt reg ≡ true }
    ensures front { front.new ≡ (at_watchdog front.old request.now reg request.now.store).front }
    ensures word { result.word ≡ (at_watchdog front.old request.now reg request.now.store).word }
    ensures down { result.down ≡ (at_watchdog front.old request.now reg request.now.store).down }
{
    match request.store {
        None => AtFront {
            word: part_of_word(request, front.load(reg)),
            down: None,
        },
        Some(value) => AtFront {
            word: 0,
            down: front.store(reg, value),
        },
    }
}

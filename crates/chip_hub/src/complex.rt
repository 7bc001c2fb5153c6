//! The core complex.

use core_pair::{Clint, Core, Mailbox};
use dma_unit::Dma;
use soc_bus::{Arbiter, Memory};
use std::marker::Model;
use unit_fronts::{GpioFront, PwmFront, SlinkFront, SpiFront, UartFront, WdtFront};

/// Two cores, the DMA, the memories, the bus and the fronts of the units: the hub without what sits in core 0's seat.
pub(crate) struct CoreComplex {
    pub(crate) clock: u32,
    pub(crate) core0: Core,
    pub(crate) core1: Core,
    pub(crate) memory: Memory,
    pub(crate) arbiter: Arbiter,
    pub(crate) dma: Dma,
    pub(crate) clint: Clint,
    pub(crate) mailbox: Mailbox,
    pub(crate) uart0: UartFront,
    pub(crate) uart1: UartFront,
    pub(crate) spi: SpiFront,
    pub(crate) gpio: GpioFront,
    pub(crate) pwm: PwmFront,
    pub(crate) slink: SlinkFront,
    pub(crate) wdt: WdtFront,
}

impl Drop for CoreComplex {
    fn drop(self) {
        let CoreComplex {
            clock: _,
            core0: _,
            core1: _,
            memory: _,
            arbiter: _,
            dma: _,
            clint: _,
            mailbox: _,
            uart0: _,
            uart1: _,
            spi: _,
            gpio: _,
            pwm: _,
            slink: _,
            wdt: _,
        } = self;
    }
}

impl Model for CoreComplex {
    ghost use Rattle.chip_hub.specs.State.{HubState};

    ghost Value = { HubState };

    ghost view = { λ h. record {
      clock = h.clock;
      core0 = h.core0;
      core1 = h.core1;
      memory = h.memory;
      arbiter = h.arbiter;
      dma = h.dma;
      clint = h.clint;
      mailbox = h.mailbox;
      fronts = record { uart0 = h.uart0; uart1 = h.uart1; spi = h.spi; gpio = h.gpio; pwm = h.pwm; slink = h.slink; wdt = h.wdt };
    } };
}

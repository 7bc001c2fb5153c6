//! The hub at power-on, and after a reset.
ghost use Rattle.std.specs.Prelude.{◌≡◌, ◌≤◌, ◌<◌, ◌^◌, [], length, true, IfOk, None};
ghost use Rattle.chip_base.specs.Settings.{values_of};
ghost use Rattle.chip_hub.specs.Kept.{SeatStands};
ghost use Rattle.chip_hub.specs.Start.{first_bytes, first_core, fits_in, hub_reset, hub_start, seat_start};

use crate::complex::CoreComplex;
use crate::hub::Hub;
use crate::issues::Issues;
use crate::seat::Seat;
use chip_base::{Boot, NoMemory, Setup};
use core_pair::{Clint, Core, Mailbox};
use dma_unit::Dma;
use image_tool::check;
use soc_bus::{Arbiter, Memory};
use std::alloc::Global;
use unit_fronts::{GpioFront, PwmFront, SlinkFront, SpiFront, UartFront, WdtFront};

/// The bytes of an image's header.
const HEADER: usize = 12;

/// Whether core 0 can begin with a file in a boot mode, where IMEM has `room` bytes. `Raw`: exactly where the file has at most `room`
/// bytes. `Direct`: exactly where it is an image, as `check` tells. `Monitor`: always, since the monitor takes its image from UART0.
/// The file must have fewer than 2^32 bytes.
pub fn fits(boot: Boot, image: &[u8], room: u32) -> bool
    requires { length image.now < 2 ^ 32 }
    ensures { result ≡ fits_in boot image.now room }
{
    match boot {
        Boot::Raw => image.len() <= room as usize,
        Boot::Direct => check(image, room).is_ok(),
        Boot::Monitor => true,
    }
}

/// What stands in IMEM from address 0 on, by the bytes of a file that fits.
fn first_bytes(boot: Boot, image: &[u8], room: u32) -> &[u8]
    requires { fits_in boot image.now room ≡ true }
    ensures value { result.now ≡ first_bytes boot image.now }
    ensures short { length result.now ≤ room }
{
    match boot {
        Boot::Raw => image,
        Boot::Direct => &image[HEADER..],
        Boot::Monitor => &[],
    }
}

/// Core 0 after a reset: it begins at once, or is held for the monitor.
fn first_core(boot: Boot) -> Core
    ensures { result ≡ first_core boot }
{
    let mut core = Core::new(0);
    if let Boot::Monitor = boot {
        core.hold();
    }
    core
}

impl CoreComplex {
    /// The core complex at power-on.
    #[tactic(auto, unfolding(crate::specs::Start::hub_start))]
    fn new(alloc: Global, setup: &Setup, boot: Boot, image: &[u8]) -> Result<CoreComplex, NoMemory>
        requires { fits_in boot image.now setup.now.imem ≡ true }
        ensures { IfOk result (λ complex. complex ≡ hub_start (values_of setup.now) boot image.now) }
    {
        let mut memory = Memory::new(alloc, setup.imem, setup.dmem)?;
        memory.fill(first_bytes(boot, image, setup.imem));
        Ok(CoreComplex {
            clock: setup.clock,
            core0: first_core(boot),
            core1: Core::new(1),
            memory,
            arbiter: Arbiter::new(),
            dma: Dma::new(),
            clint: Clint::new(),
            mailbox: Mailbox::new(),
            uart0: UartFront::new(),
            uart1: UartFront::new(),
            spi: SpiFront::new(),
            gpio: GpioFront::new(),
            pwm: PwmFront::new(),
            slink: SlinkFront::new(),
            wdt: WdtFront::new(),
        })
    }

    /// All but the clock, the memories and the fronts takes its reset state.
    pub(crate) fn reset(&mut self, boot: Boot)
        ensures { self.new ≡ hub_reset boot self.old.clock self.old.memory self.old.fronts }
    {
        self.core0 = first_core(boot);
        self.core1 = Core::new(1);
        self.arbiter = Arbiter::new();
        self.dma = Dma::new();
        self.clint = Clint::new();
        self.mailbox = Mailbox::new();
    }
}

impl Hub {
    /// The hub at power-on, where core 0 begins in a boot mode: `Raw` puts the file's bytes into IMEM from address 0 on, `Direct` the
    /// payload of the image that the file must be, and `Monitor` begins the boot monitor in core 0's place, with IMEM all zero. The
    /// file must fit, as `fits` tells. Nothing is issued or stored yet. Where memory is wanting for IMEM, DMEM or the issues there is no
    /// hub, and nothing stays taken.
    pub fn new(alloc: Global, setup: &Setup, boot: Boot, image: &[u8]) -> Result<Hub, NoMemory>
        requires { fits_in boot image.now setup.now.imem ≡ true }
        ensures hub { IfOk result (λ hub. hub.hub ≡ hub_start (values_of setup.now) boot image.now) }
        ensures seat { IfOk result (λ hub. SeatStands hub.seat (seat_start (values_of setup.now) boot)) }
        ensures issues { IfOk result (λ hub. hub.issues ≡ []) }
        ensures stored { IfOk result (λ hub. hub.stored ≡ None) }
    {
        let issues = Issues::new(alloc)?;
        let complex = CoreComplex::new(alloc, setup, boot, image)?;
        Ok(Hub {
            complex,
            seat: Seat::new(setup, boot),
            issues,
            stored: None,
        })
    }
}

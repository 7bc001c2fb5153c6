//! What the core complex does in the steps of a cycle.
ghost use Rattle.std.specs.Prelude.{◌≡◌, ◌<◌, ◌≤◌, ◌+◌, ◌^◌, Some};
ghost use Rattle.chip_hub.specs.Access.{accessed};
ghost use Rattle.chip_hub.specs.Cycle.{answered_core0, answered_core1, answered_dma, arrived, arrived_at, arrived_at_gpio, arrived_at_pwm, arrived_at_watchdog, closed, timed, turn1};
ghost use Rattle.core_pair.specs.Core.{wanted_in};
ghost use Rattle.core_pair.specs.Turn.{turned};
ghost use Rattle.dma_unit.specs.DmaRegisters.{dma_wanted};
ghost use Rattle.soc_bus.specs.Rotation.{after_grant, granted};
ghost use Rattle.chip_hub.specs.Lines.{fast_lines, mip_of};
ghost use Rattle.chip_hub.specs.Seat.{Seat};
ghost use Rattle.chip_hub.specs.Units.{messages_in};

use crate::complex::CoreComplex;
use chip_base::chip_unit::fast_bit;
use chip_base::{ChipUnit, Cycle, Down, HubPart, IssueRecord, Up};
use core_pair::Phase;
use soc_bus::{Master, Request};
use unit_fronts::{GpioFront, PwmFront, SlinkFront, SpiFront, UartFront, WdtFront};

/// A message from a UART reaches its front, where there is one. The other units' functions do the same.
#[inline(always)]
fn hear_uart(front: &mut UartFront, arrival: Option<Up>)
    ensures { front.new ≡ arrived_at front.old arrival }
{
    if let Some(up) = arrival {
        front.arrive(up);
    }
}

#[inline(always)]
fn hear_spi(front: &mut SpiFront, arrival: Option<Up>)
    ensures { front.new ≡ arrived_at front.old arrival }
{
    if let Some(up) = arrival {
        front.arrive(up);
    }
}

#[inline(always)]
fn hear_gpio(front: &mut GpioFront, arrival: Option<Up>)
    ensures { front.new ≡ arrived_at_gpio front.old arrival }
{
    if let Some(up) = arrival {
        front.arrive(up);
    }
}

#[inline(always)]
fn hear_pwm(front: &mut PwmFront, arrival: Option<Up>)
    ensures { front.new ≡ arrived_at_pwm front.old arrival }
{
    if let Some(up) = arrival {
        front.arrive(up);
    }
}

#[inline(always)]
fn hear_slink(front: &mut SlinkFront, arrival: Option<Up>)
    ensures { front.new ≡ arrived_at front.old arrival }
{
    if let Some(up) = arrival {
        front.arrive(up);
    }
}

#[inline(always)]
fn hear_watchdog(front: &mut WdtFront, arrival: Option<Up>)
    ensures { front.new ≡ arrived_at_watchdog front.old arrival }
{
    if let Some(up) = arrival {
        front.arrive(up);
    }
}

impl CoreComplex {
    /// What arrives from the units reaches their fronts.
    #[inline(always)]
    pub(crate) fn hear(&mut self, ups: &[Option<Up>; 7])
        ensures { self.new ≡ arrived self.old ups.now }
    {
        hear_uart(&mut self.uart0, ups[ChipUnit::Uart0.place()]);
        hear_uart(&mut self.uart1, ups[ChipUnit::Uart1.place()]);
        hear_spi(&mut self.spi, ups[ChipUnit::Spi.place()]);
        hear_gpio(&mut self.gpio, ups[ChipUnit::Gpio.place()]);
        hear_pwm(&mut self.pwm, ups[ChipUnit::Pwm.place()]);
        hear_slink(&mut self.slink, ups[ChipUnit::Slink.place()]);
        hear_watchdog(&mut self.wdt, ups[ChipUnit::Wdt.place()]);
    }

    /// Every front closes.
    pub(crate) fn close(&mut self)
        ensures { self.new ≡ record self.old { fronts = closed self.old.fronts } }
    {
        self.uart0.close();
        self.uart1.close();
        self.spi.close();
        self.gpio.close();
        self.pwm.close();
        self.slink.close();
        self.wdt.close();
    }

    /// mtime adds one.
    pub(crate) fn step_time(&mut self)
        ensures { self.new ≡ timed self.old }
    {
        self.clint.tick();
    }

    /// The fast interrupt lines, as bits of mip.
    fn fast_lines(&self) -> u32
        ensures value { result ≡ fast_lines self.now }
        ensures below { result + 2 ^ 8 ≤ 2 ^ 32 }
    {
        fast_bit(HubPart::Dma.fast_line(), self.dma.line())
            + fast_bit(ChipUnit::Uart0.fast_line(), self.uart0.line())
            + fast_bit(ChipUnit::Uart1.fast_line(), self.uart1.line())
            + fast_bit(ChipUnit::Spi.fast_line(), self.spi.line())
            + fast_bit(ChipUnit::Gpio.fast_line(), self.gpio.line())
            + fast_bit(ChipUnit::Slink.fast_line(), self.slink.line())
    }

    /// What a read of mip gives to a hart.
    pub(crate) fn mip(&self, hart: u32) -> u32
        requires { hart < 2 }
        ensures { result ≡ mip_of self.now hart }
    {
        self.clint.mip(hart) + self.fast_lines()
    }

    /// What core 0 is doing.
    pub(crate) fn phase0(&self) -> Phase
        ensures { result ≡ self.now.core0.phase }
    {
        self.core0.phase()
    }

    /// Core 0's own turn. Gives what it issues.
    pub(crate) fn turn0(&mut self, now: Cycle) -> Option<IssueRecord>
        ensures after { self.new ≡ record self.old { core0 = (turned self.old.core0 now (mip_of self.old 0) self.old.memory).after } }
        ensures issued { result ≡ (turned self.old.core0 now (mip_of self.old 0) self.old.memory).issued }
    {
        let mip = self.mip(0);
        self.core0.issue(now, mip, &self.memory)
    }

    /// Core 1's turn: while it is parked its software interrupt starts it. Gives what it issues.
    #[tactic(auto, using(crate::proofs::Observed::parked_issues))]
    pub(crate) fn turn1(&mut self, now: Cycle) -> Option<IssueRecord>
        ensures after { self.new ≡ turn1 self.old now }
        ensures issued { result ≡ (turned self.old.core1 now (mip_of self.old 1) self.old.memory).issued }
    {
        match self.core1.phase() {
            Phase::Parked => {
                if self.clint.starts() {
                    let pc = self.mailbox.pc();
                    let sp = self.mailbox.sp();
                    self.core1.start(pc, sp);
                }
                None
            }
            _ => {
                let mip = self.mip(1);
                self.core1.issue(now, mip, &self.memory)
            }
        }
    }

    /// What core 1 wants of the bus.
    pub(crate) fn want1(&self) -> Option<Request>
        ensures { result ≡ wanted_in self.now.core1.phase }
    {
        self.core1.want()
    }

    /// What the DMA wants of the bus.
    pub(crate) fn want2(&self) -> Option<Request>
        ensures { result ≡ dma_wanted self.now.dma }
    {
        self.dma.want()
    }

    /// The bus is granted to one of the masters that want it, by these bits.
    #[inline(always)]
    pub(crate) fn grant(&mut self, wants: u8) -> Option<Master>
        requires { wants < 8 }
        ensures served { result ≡ granted self.old.arbiter wants }
        ensures turns { self.new ≡ record self.old { arbiter = after_grant self.old.arbiter wants } }
    {
        self.arbiter.grant(wants)
    }

    /// Core 0 is granted the request that it waits for.
    pub(crate) fn serve0(&mut self, request: &Request) -> [Option<Down>; 7]
        requires { self.old.core0.phase ≡ Phase.Want request.now }
        ensures step { (seat : Seat) → record { hub = self.new; seat = seat; downs = result } ≡ answered_core0 (accessed self.old request.now) seat (Phase.Want request.now) }
        ensures messages { messages_in result ≤ 1 }
    {
        let access = self.access(request);
        self.core0.granted(access.answer);
        access.downs
    }

    /// Core 1 is granted the request that it waits for.
    pub(crate) fn serve1(&mut self, request: &Request) -> [Option<Down>; 7]
        requires { wanted_in self.old.core1.phase ≡ Some request.now }
        ensures step { (seat : Seat) → record { hub = self.new; seat = seat; downs = result } ≡ answered_core1 (accessed self.old request.now) seat }
        ensures messages { messages_in result ≤ 1 }
    {
        let access = self.access(request);
        self.core1.granted(access.answer);
        access.downs
    }

    /// The DMA is granted the request that it waits for.
    pub(crate) fn serve2(&mut self, request: &Request) -> [Option<Down>; 7]
        requires { dma_wanted self.old.dma ≡ Some request.now }
        ensures step { (seat : Seat) → record { hub = self.new; seat = seat; downs = result } ≡ answered_dma (accessed self.old request.now) seat }
        ensures messages { messages_in result ≤ 1 }
    {
        let access = self.access(request);
        self.dma.granted(access.answer);
        access.downs
    }
}

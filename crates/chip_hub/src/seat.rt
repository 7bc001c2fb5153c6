//! Core 0's seat: the boot mode, and the boot monitor.
ghost use Rattle.std.specs.Prelude.{◌≡◌, IfSome, false};
ghost use Rattle.boot_monitor.specs.declared.exchange.MonitorOut.TheVariants.{Bus};
ghost use Rattle.chip_base.specs.Settings.{values_of};
ghost use Rattle.chip_hub.specs.Kept.{SeatStands};
ghost use Rattle.chip_hub.specs.Seat.{Seat as SeatState, hands_over, is_hand_over, seat_answered, seat_begun, seat_reset, seat_turned, standing};
ghost use Rattle.chip_hub.specs.Start.{seat_start};
ghost use Rattle.chip_hub.specs.Views.{boot_view};
ghost use Rattle.soc_bus.specs.Memory.{IsSize};

use boot_monitor::{Monitor, MonitorIn, MonitorOut};
use chip_base::{Boot, BootView, Cycle, Setup};
use soc_bus::Request;
use std::marker::Model;

/// The turns from a grant of the monitor's request to its next act.
const PAUSE: u8 = 8;

/// Core 0's seat. The monitor is there in each boot mode, and acts where core 0 is held for it.
#[derive(Drop)]
pub(crate) struct Seat {
    boot: Boot,
    /// What the monitor is made with: the size of IMEM in bytes, and the word that it stores to UART0's CTRL.
    room: u32,
    ctrl: u32,
    monitor: Monitor,
    /// What the monitor asks.
    asks: MonitorOut,
    /// The cycle of the hand-over.
    handed: Option<Cycle>,
    /// The turns until the monitor acts: it acts in the turn that finds 1, and at 0 its request stands.
    pause: u8,
}

impl Model for Seat {
    ghost use Rattle.std.specs.Prelude.{◌≡◌, ℕ};
    ghost use Rattle.boot_monitor.specs.Standing.{IsDue};
    ghost use Rattle.boot_monitor.specs.declared.exchange.MonitorIn.TheVariants.{Word};
    ghost use Rattle.boot_monitor.specs.declared.exchange.MonitorOut.TheVariants.{Bus};
    ghost use Rattle.chip_hub.specs.Kept.{SeatKept};
    ghost use Rattle.soc_bus.specs.Memory.{IsSize};
    ghost use Rattle.soc_bus.specs.declared.access.Request.{Request};

    ghost Value = { SeatKept };

    ghost view = { λ s. record { boot = s.boot; room = s.room; ctrl = s.ctrl; monitor = s.monitor; asks = s.asks; handed = s.handed; pause = s.pause } };

    // a word is due wherever the monitor asks for one
    ghost invariant = { λ s. IsSize s.room × ((request : Request) (word : ℕ) → s.asks ≡ Bus request → IsDue s.monitor (Word word)) };
}

impl Seat {
    /// The seat at power-on: the monitor acts in the first turn.
    pub(crate) fn new(setup: &Setup, boot: Boot) -> Seat
        ensures { SeatStands result (seat_start (values_of setup.now) boot) }
    {
        let ctrl = 1 + u32::from(setup.prescaler) * 8 + u32::from(setup.baud) * 64;
        Seat::begun(boot, setup.imem, ctrl)
    }

    /// The seat of a chip whose IMEM has `room` bytes, with a monitor that acts in the turn that comes. `ctrl` is the word that it stores
    /// to UART0's CTRL.
    fn begun(boot: Boot, room: u32, ctrl: u32) -> Seat
        requires { IsSize room }
        ensures { SeatStands result (seat_begun boot room ctrl) }
    {
        let mut monitor = Monitor::new(room, ctrl);
        let asks = monitor.act(MonitorIn::Start);
        Seat {
            boot,
            room,
            ctrl,
            monitor,
            asks,
            handed: None,
            pause: 1,
        }
    }

    /// The monitor begins anew, in the turn that comes.
    pub(crate) fn reset(&mut self)
        ensures { (seat : SeatState) → SeatStands self.old seat → SeatStands self.new (seat_reset seat) }
    {
        *self = Seat::begun(self.boot, self.room, self.ctrl);
    }

    /// How core 0 begins.
    pub(crate) fn boot(&self) -> Boot
        ensures { result ≡ self.now.boot }
    {
        self.boot
    }

    /// Whether the monitor hands over in the turn that comes.
    fn is_leaving(&self) -> bool
        ensures { (seat : SeatState) → SeatStands self.now seat → result ≡ hands_over seat }
    {
        match self.asks {
            MonitorOut::HandOver => self.pause == 1,
            MonitorOut::Bus(_) => false,
        }
    }

    /// The monitor's turn in the cycle `now`. Gives whether it hands over.
    pub(crate) fn turn(&mut self, now: Cycle) -> bool
        ensures over { (seat : SeatState) → SeatStands self.old seat → result ≡ hands_over seat }
        ensures seat { (seat : SeatState) → SeatStands self.old seat → SeatStands self.new (seat_turned seat now) }
    {
        let leaves = self.is_leaving();
        self.pause = self.pause.saturating_sub(1);
        if leaves {
            self.handed = Some(now);
        }
        leaves
    }

    /// The monitor's request, where it stands.
    pub(crate) fn standing(&self) -> Option<Request>
        ensures value { (seat : SeatState) → SeatStands self.now seat → result ≡ standing seat }
        ensures asked { IfSome result (λ request. self.now.asks ≡ Bus request) }
    {
        match self.asks {
            MonitorOut::Bus(request) if self.pause == 0 => Some(request),
            _ => None,
        }
    }

    /// Gives the monitor the word that answers its request.
    pub(crate) fn answer(&mut self, reply: u32)
        requires { is_hand_over self.old.asks ≡ false }
        ensures { (seat : SeatState) → SeatStands self.old seat → SeatStands self.new (seat_answered seat reply) }
    {
        self.asks = self.monitor.act(MonitorIn::Word(reply));
        self.pause = PAUSE;
    }

    /// How core 0 began.
    pub(crate) fn view(&self) -> BootView
        ensures { (seat : SeatState) → SeatStands self.now seat → result ≡ boot_view seat }
    {
        match (self.boot, self.handed) {
            (Boot::Raw, _) => BootView::Raw,
            (Boot::Direct, _) => BootView::Direct,
            (Boot::Monitor, None) => BootView::Monitor,
            (Boot::Monitor, Some(cycle)) => BootView::Handed { cycle },
        }
    }
}

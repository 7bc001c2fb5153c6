//! The UART unit, one cycle at a time.
ghost use Rattle.std.specs.Prelude.{◌≡◌, ◌<◌, ◌≤◌, IfSome};
ghost use Rattle.uart_lane.specs.Cycle.{with_byte};

use crate::receiver::Receiver;
use arrayvec::ArrayVec;
use chip_base::prescaler::prescaler;
use chip_base::{Bytes, Cycle, Down, Event, EventKind, Steps0, UnitOut, Up};
use std::marker::Model;

/// A UART unit: it sends the bytes that it is given, and receives those of a script, one frame of ten bits after another.
///
/// At most sixteen bytes wait to be sent; one more is lost. No call takes memory.
#[derive(Drop)]
pub struct Uart {
    number: u8,
    enabled: bool,
    bit: u32,
    fifo: ArrayVec<u8, 16>,
    left: u32,
    receiver: Receiver,
}

impl Model for Uart {
    ghost use Rattle.std.specs.Prelude.{◌≤◌, ◌<◌};
    ghost use Rattle.arrayvec.specs.ArrayVec.{array_vec_len};
    ghost use Rattle.uart_lane.specs.State.{UartState};

    ghost Value = { UartState };

    ghost view = { λ u. record { number = u.number; enabled = u.enabled; bit = u.bit; fifo = u.fifo.items; left = u.left; receiver = u.receiver } };

    ghost invariant = { λ u. (0 < u.bit) × (u.bit ≤ 4194304) × (array_vec_len u.fifo ≤ 16) × (0 < u.left → 0 < array_vec_len u.fifo) };
}

/// What goes up: what the transmitter says, and beside it a received byte.
fn with_byte(up: Option<Up>, byte: Option<u8>) -> Option<Up>
    ensures { result ≡ with_byte up byte }
{
    let Some(byte) = byte else {
        return up;
    };
    let beside = match up {
        Some(up) => up,
        None => Up::SILENT,
    };
    Some(Up {
        has: true,
        word: u32::from(byte),
        ..beside
    })
}

impl Uart {
    ghost use Rattle.uart_lane.specs.State.{uart_start, uart_reset};
    ghost use Rattle.uart_lane.specs.Cycle.{configured, queued, set_in, frame_of, begun, frame_sent, sent, received, reset, uart_cycle};
    ghost use Rattle.uart_lane.specs.Idle.{is_idle};
    ghost use Rattle.uart_lane.specs.Counts.{KeepsCount, KeepsOrder};
    ghost use Rattle.uart_lane.specs.Frames.{SendsInTime};
    ghost use Rattle.uart_lane.specs.Hearing.{HearsAll};
    ghost use Rattle.uart_lane.specs.Receipt.{ReceivesInTime};
    ghost use Rattle.uart_lane.specs.Script.{HearsEnough, KeepsScript};

    /// The unit with this number (1 to 7, as in events) at power-on. It receives what these steps say; an image step sends the
    /// bytes of `image`.
    pub fn new(unit: u8, steps: Steps0, image: Bytes) -> Uart
        ensures state { result ≡ uart_start unit steps image }
        ensures texts { HearsEnough }
        ensures hears { HearsAll (uart_start unit steps image) }
    {
        Uart {
            number: unit,
            enabled: false,
            bit: 2,
            fifo: ArrayVec::new(),
            left: 0,
            receiver: Receiver::new(steps, image),
        }
    }

    fn configure(&mut self, control: u32)
        ensures { self.new ≡ configured self.old control }
    {
        self.enabled = control % 2 == 1;
        self.bit = prescaler(control) * (control / 64 % 1024 + 1);
    }

    fn append(&mut self, byte: u8)
        ensures { self.new ≡ queued self.old byte }
    {
        if !self.fifo.is_full() {
            self.fifo.push(byte);
        }
    }

    #[inline(never)]
    fn set(&mut self, reg: u8, word: u32)
        ensures { self.new ≡ set_in self.old reg word }
    {
        match reg {
            0 => self.configure(word),
            4 => self.append((word % 256) as u8),
            _ => {}
        }
    }

    #[inline(never)]
    fn reset(&mut self)
        ensures { self.new ≡ uart_reset self.old.number self.old.receiver }
    {
        self.enabled = false;
        self.bit = 2;
        self.fifo.clear();
        self.left = 0;
        self.receiver.reset();
    }

    /// How many cycles a frame takes by the present control word. A byte that an idle unit is given in the cycle `t` has its
    /// event this many cycles later, less one. So much later a byte of the script goes up whose frame begins in the cycle `t`.
    pub fn frame(&self) -> u32
        ensures length { result ≡ frame_of self.now }
        ensures in_time { SendsInTime self.now result }
        ensures receives { ReceivesInTime self.now result }
    {
        10 * self.bit
    }

    fn begin(&mut self)
        ensures { self.new ≡ begun self.old }
    {
        if self.left == 0 && self.enabled && !self.fifo.is_empty() {
            self.left = self.frame();
        }
    }

    fn end(&mut self, now: Cycle) -> UnitOut
        requires { 0 < self.old.left }
        ensures unit { self.new ≡ (frame_sent self.old now self.old.fifo).unit }
        ensures up { result.up ≡ (frame_sent self.old now self.old.fifo).up }
        ensures event { result.event ≡ (frame_sent self.old now self.old.fifo).event }
        ensures byte { IfSome result.event (λ e. e.value < 256) }
    {
        self.left = 0;
        let byte = self.fifo.remove(0);
        UnitOut {
            up: Some(Up::CREDIT),
            event: Some(Event {
                cycle: now,
                unit: self.number,
                kind: EventKind::Tx,
                value: u32::from(byte),
            }),
        }
    }

    fn send(&mut self, now: Cycle) -> UnitOut
        ensures unit { self.new ≡ (sent self.old now).unit }
        ensures up { result.up ≡ (sent self.old now).up }
        ensures event { result.event ≡ (sent self.old now).event }
        ensures byte { IfSome result.event (λ e. e.value < 256) }
    {
        match self.left {
            0 => UnitOut::QUIET,
            1 => self.end(now),
            left => {
                self.left = left - 1;
                UnitOut::QUIET
            }
        }
    }

    fn transmit(&mut self, now: Cycle) -> UnitOut
        ensures unit { self.new ≡ (sent (begun self.old) now).unit }
        ensures up { result.up ≡ (sent (begun self.old) now).up }
        ensures event { result.event ≡ (sent (begun self.old) now).event }
        ensures byte { IfSome result.event (λ e. e.value < 256) }
    {
        self.begin();
        self.send(now)
    }

    /// Whether a cycle without a message leaves the unit as it is.
    #[inline(always)]
    fn is_idle(&self) -> bool
        ensures { result ≡ is_idle self.now }
    {
        self.left == 0 && self.fifo.is_empty() && self.receiver.is_over()
    }

    #[inline(never)]
    fn send_and_receive(&mut self, now: Cycle) -> UnitOut
        ensures unit { self.new ≡ (received (sent (begun self.old) now) now).unit }
        ensures up { result.up ≡ (received (sent (begun self.old) now) now).up }
        ensures event { result.event ≡ (received (sent (begun self.old) now) now).event }
        ensures bit { 0 < self.new.bit }
    {
        let out = self.transmit(now);
        let frame = self.frame();
        let byte = self.receiver.cycle(now, out.event, self.enabled, frame);
        UnitOut {
            up: with_byte(out.up, byte),
            event: out.event,
        }
    }

    /// The work of a cycle, which an idle unit is spared.
    #[inline(always)]
    #[tactic(auto, using(crate::proofs::Idle::idle_unit, crate::proofs::Idle::idle_up, crate::proofs::Idle::idle_event))]
    fn work(&mut self, now: Cycle) -> UnitOut
        ensures unit { self.new ≡ (received (sent (begun self.old) now) now).unit }
        ensures up { result.up ≡ (received (sent (begun self.old) now) now).up }
        ensures event { result.event ≡ (received (sent (begun self.old) now) now).event }
        ensures bit { 0 < self.new.bit }
    {
        let _ = &self.bit;
        if self.is_idle() {
            UnitOut::QUIET
        } else {
            self.send_and_receive(now)
        }
    }

    /// One cycle: takes the message that arrives in it, if there is one, then sends, then receives. Gives what leaves the unit.
    ///
    /// In the last cycle of a frame that is sent, its byte leaves: its credit goes up, and the event `Tx` has the byte as its
    /// value. In the last cycle of a frame that is received, its byte goes up as a word, in the same message where a credit goes
    /// up too. In the cycle of a Reset only its answer, done, goes up, and there is no event.
    #[inline(always)]
    pub fn cycle(&mut self, now: Cycle, down: Option<Down>) -> UnitOut
        ensures unit { self.new ≡ (uart_cycle self.old now down).unit }
        ensures up { result.up ≡ (uart_cycle self.old now down).up }
        ensures event { result.event ≡ (uart_cycle self.old now down).event }
        ensures count { KeepsCount self.old down self.new result.up }
        ensures order { KeepsOrder self.old down self.new result.event }
        ensures script { KeepsScript self.old down self.new result.up }
    {
        match down {
            Some(Down::Reset) => {
                self.reset();
                UnitOut {
                    up: Some(Up::DONE),
                    event: None,
                }
            }
            Some(Down::Set { reg, word }) => {
                self.set(reg, word);
                self.work(now)
            }
            None => self.work(now),
        }
    }
}

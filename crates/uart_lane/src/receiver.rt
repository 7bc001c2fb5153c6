//! What a UART unit receives: the bytes of its script, step by step.
ghost use Rattle.std.specs.Prelude.{◌≡◌, ◌<◌, ◌≤◌, Option, IfSome};

use arrayvec::ArrayVec;
use chip_base::{Bytes, Cycle, Event, Steps0, UartStep};
use std::marker::Model;

/// The receiver of a UART unit. It does the steps of a script in their order, and keeps what it needs to know whether the unit
/// has sent a text: the last 64 bytes.
#[derive(Drop)]
pub(crate) struct Receiver {
    steps: Steps0,
    place: usize,
    image: Bytes,
    begun_bytes: usize,
    heard: ArrayVec<u8, 64>,
    left: u32,
    byte: u8,
}

impl Model for Receiver {
    ghost use Rattle.std.specs.Prelude.{◌≤◌, length, drop};
    ghost use Rattle.arrayvec.specs.ArrayVec.{array_vec_len};
    ghost use Rattle.uart_lane.specs.Receiver as state;

    ghost Value = { state.Receiver };

    ghost view = { λ r. record { steps = drop r.place r.steps; image = r.image; begun_bytes = r.begun_bytes; heard = r.heard.items; left = r.left; byte = r.byte } };

    ghost invariant = { λ r. (r.place ≤ length r.steps) × (array_vec_len r.heard ≤ 64) };
}

impl Receiver {
    ghost use Rattle.uart_lane.specs.Receiver.{at_first, dropped};
    ghost use Rattle.uart_lane.specs.Idle.{is_over};
    ghost use Rattle.uart_lane.specs.Receiving.{heard_with, current, step_bytes, is_sent, passes, passed, framed, looked, ready, frame_received, run, receive};
    ghost use Rattle.std.specs.Prelude.{slice_get};

    /// The receiver before the first cycle.
    pub(crate) fn new(steps: Steps0, image: Bytes) -> Receiver
        ensures { result ≡ at_first steps image }
    {
        Receiver {
            steps,
            place: 0,
            image,
            begun_bytes: 0,
            heard: ArrayVec::new(),
            left: 0,
            byte: 0,
        }
    }

    /// Drops the frame, as a Reset does.
    pub(crate) fn reset(&mut self)
        ensures { self.new ≡ dropped self.old }
    {
        self.left = 0;
    }

    /// Whether no frame runs and no step is left.
    pub(crate) fn is_over(&self) -> bool
        ensures { result ≡ is_over self.now }
    {
        self.left == 0 && self.place == self.steps.as_slice().len()
    }

    fn hear(&mut self, event: Option<Event>)
        requires byte { IfSome event (λ e. e.value < 256) }
        ensures { self.new ≡ heard_with self.old event }
    {
        if let Some(event) = event {
            if self.heard.is_full() {
                self.heard.remove(0);
            }
            self.heard.push(event.value as u8);
        }
    }

    /// The bytes that the current step sends.
    fn bytes(&self) -> &[u8]
        ensures { result.now ≡ step_bytes self.now.image (current self.now) }
    {
        match self.steps.as_slice()[self.place..].first() {
            Some(UartStep::Send(text)) => text.as_slice(),
            Some(UartStep::Image) => self.image.as_slice(),
            _ => &[],
        }
    }

    fn is_sent(&self) -> bool
        ensures { result ≡ is_sent self.now }
    {
        self.bytes().len() <= self.begun_bytes
    }

    fn passes(&self, now: Cycle) -> bool
        ensures { result ≡ passes self.now now (current self.now) }
    {
        match self.steps.as_slice()[self.place..].first() {
            None => false,
            Some(UartStep::At(cycle)) => *cycle <= now,
            Some(UartStep::Expect(text)) => self.heard.as_slice().ends_with(text.as_slice()),
            Some(UartStep::Send(_)) => self.is_sent(),
            Some(UartStep::Image) => self.is_sent(),
        }
    }

    #[tactic(auto, using(crate::proofs::Script::after_next))]
    fn pass(&mut self)
        ensures { self.new ≡ passed self.old }
    {
        self.begun_bytes = 0;
        self.heard.clear();
        if self.place < self.steps.as_slice().len() {
            self.place += 1;
        }
    }

    fn begin(&mut self, frame: u32)
        ensures { self.new ≡ framed self.old frame (slice_get (step_bytes self.old.image (current self.old)) self.old.begun_bytes) }
    {
        if let Some(byte) = self.bytes().get(self.begun_bytes) {
            let byte = *byte;
            self.byte = byte;
            self.begun_bytes += 1;
            self.left = frame;
        }
    }

    fn look(&mut self, now: Cycle, enabled: bool, frame: u32)
        ensures { self.new ≡ looked self.old now enabled frame }
    {
        if self.passes(now) {
            self.pass();
        } else if enabled {
            self.begin(frame);
        }
    }

    fn prepare(&mut self, now: Cycle, enabled: bool, frame: u32)
        ensures { self.new ≡ ready self.old now enabled frame }
    {
        if self.left == 0 {
            self.look(now, enabled, frame);
        }
    }

    fn end(&mut self)
        ensures { self.new ≡ frame_received self.old }
    {
        self.left = 0;
        if self.is_sent() {
            self.pass();
        }
    }

    fn run(&mut self) -> Option<u8>
        ensures receiver { self.new ≡ (run self.old).receiver }
        ensures byte { result ≡ (run self.old).byte }
    {
        match self.left {
            0 => None,
            1 => {
                self.end();
                Some(self.byte)
            }
            left => {
                self.left = left - 1;
                None
            }
        }
    }

    /// One cycle, in which the unit gives this event: the byte that goes up, if there is one. A frame that begins takes `frame`
    /// cycles.
    #[tactic(auto, unfolding(crate::specs::Receiving::receive))]
    pub(crate) fn cycle(
        &mut self,
        now: Cycle,
        event: Option<Event>,
        enabled: bool,
        frame: u32,
    ) -> Option<u8>
        requires byte { IfSome event (λ e. e.value < 256) }
        ensures receiver { self.new ≡ (receive self.old now event enabled frame).receiver }
        ensures byte { result ≡ (receive self.old now event enabled frame).byte }
    {
        self.hear(event);
        self.prepare(now, enabled, frame);
        self.run()
    }
}

//! What a script does to the chip, as lists.
ghost use Rattle.std.specs.Prelude.{◌≡◌, ◌≢◌, IfSome, IfNone, IsSome, option_map, List, ℕ, Bool, true, false};
ghost use Rattle.std.specs.List.{list_all};

use crate::cycle::Cycle;
use crate::valid::{are_in_order, are_steps};
use std::marker::Model;

/// Bytes that are owned, seen as their list.
#[derive(Drop)]
pub struct Bytes {
    items: Vec<u8>,
}

impl Model for Bytes {
    ghost use Rattle.std.specs.Prelude.{List, ℕ};

    ghost Value = { List ℕ };

    ghost view = { λ b. b.items.items };
}

impl Bytes {
    /// The bytes of a vector.
    pub fn from_vec(v: Vec<u8>) -> Bytes
        ensures { result ≡ v.items }
    {
        Bytes { items: v }
    }

    /// Lends the bytes.
    pub fn as_slice(&self) -> &[u8]
        ensures { result.now ≡ self.now }
    {
        self.items.as_slice()
    }
}

/// An input pin (0 to 31) takes a level in a cycle.
#[derive(Clone, Copy)]
pub struct PinStep {
    pub cycle: Cycle,
    pub pin: u8,
    pub level: bool,
}

/// One step of what a UART receives.
#[derive(Drop)]
pub enum UartStep {
    /// Wait until this cycle.
    At(Cycle),
    /// Wait until the UART has sent this text of 1 to 64 bytes.
    Expect(Bytes),
    /// Send these bytes.
    Send(Bytes),
    /// Send the bytes of the image file.
    Image,
}

/// Pin changes, whose cycles don't fall and are at most 4,294,967,295.
#[derive(Drop)]
pub struct Pins {
    items: Vec<PinStep>,
}

impl Model for Pins {
    ghost use Rattle.std.specs.Prelude.{◌≡◌, List, true};
    ghost use Rattle.chip_base.specs.Steps.{are_pins};
    ghost use Rattle.chip_base.specs.declared.script.PinStep.{PinStep};

    ghost Value = { List PinStep };

    ghost view = { λ p. p.items.items };

    ghost invariant = { λ p. are_pins p.items.items ≡ true };
}

impl Pins {
    ghost use Rattle.chip_base.specs.Steps.{are_pins};

    /// The pin changes. None exactly where a cycle falls or is above 4,294,967,295, or a pin is above 31.
    pub fn from_vec(v: Vec<PinStep>) -> Option<Pins>
        ensures some { IfSome result (λ p. (p ≡ v.items) × (are_pins v.items ≡ true)) }
        ensures none { IfNone result (are_pins v.items ≡ false) }
    {
        if are_in_order(v.as_slice()) {
            Some(Pins { items: v })
        } else {
            None
        }
    }

    /// Lends the pin changes.
    pub fn as_slice(&self) -> &[PinStep]
        ensures value { result.now ≡ self.now }
        ensures valid { are_pins self.now ≡ true }
    {
        self.items.as_slice()
    }
}

/// The steps of a UART's receiver, in their order.
#[derive(Drop)]
pub struct Steps0 {
    items: Vec<UartStep>,
}

impl Model for Steps0 {
    ghost use Rattle.std.specs.Prelude.{◌≡◌, List, true};
    ghost use Rattle.std.specs.List.{list_all};
    ghost use Rattle.chip_base.specs.Steps.{is_step};
    ghost use Rattle.chip_base.specs.declared.script.UartStep.{UartStep};

    ghost Value = { List UartStep };

    ghost view = { λ s. s.items.items };

    ghost invariant = { λ s. list_all is_step s.items.items ≡ true };
}

impl Steps0 {
    ghost use Rattle.chip_base.specs.Steps.{is_step};

    /// The steps. None exactly where a cycle is above 4,294,967,295 or a text to expect hasn't 1 to 64 bytes.
    pub fn from_vec(v: Vec<UartStep>) -> Option<Steps0>
        ensures some { IfSome result (λ s. (s ≡ v.items) × (list_all is_step v.items ≡ true)) }
        ensures none { IfNone result (list_all is_step v.items ≡ false) }
    {
        if are_steps(v.as_slice()) {
            Some(Steps0 { items: v })
        } else {
            None
        }
    }

    /// Lends the steps.
    pub fn as_slice(&self) -> &[UartStep]
        ensures value { result.now ≡ self.now }
        ensures valid { list_all is_step self.now ≡ true }
    {
        self.items.as_slice()
    }
}

/// What a script does: the pin changes, and the steps of each UART.
#[derive(Drop)]
pub struct Script {
    pub pins: Pins,
    pub uart0: Steps0,
    pub uart1: Steps0,
}

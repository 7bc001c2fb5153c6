//! What leaves the chip.

use crate::cycle::Cycle;
use crate::message::Up;

/// The kind of an event.
#[derive(Clone, Copy, Debug, PartialEq, Eq)]
pub enum EventKind {
    /// A UART sent a byte.
    Tx,
    /// Output pins changed.
    Out,
    /// The stream link passed a word.
    Word,
    /// The stream link passed the last word of a packet.
    Last,
    /// The watchdog fired.
    Fire,
}

/// What a unit did at the chip's edge in one cycle. Units are numbered from 1: uart0, uart1, spi, gpio, pwm, slink, wdt. The value is
/// the byte that a UART sent, the levels of the output pins or channels as bits, the word that the stream link passed, or 0.
#[derive(Clone, Copy, Debug, PartialEq, Eq)]
pub struct Event {
    pub cycle: Cycle,
    pub unit: u8,
    pub kind: EventKind,
    pub value: u32,
}

/// What a unit gives in one cycle: a message to its front, and an event.
#[derive(Clone, Copy, Debug, PartialEq, Eq)]
pub struct UnitOut {
    pub up: Option<Up>,
    pub event: Option<Event>,
}

impl UnitOut {
    /// A cycle in which a unit says nothing.
    pub const QUIET: UnitOut = UnitOut {
        up: None,
        event: None,
    };
}

//! What the monitor is given, and what it gives.

use soc_bus::Request;

/// What the monitor is given.
#[derive(Clone, Copy)]
pub enum MonitorIn {
    /// It is to begin.
    Start,
    /// The word that answers its request; of a store it doesn't matter.
    Word(u32),
}

/// What the monitor gives.
#[derive(Clone, Copy, PartialEq, Eq)]
pub enum MonitorOut {
    /// It asks this of the bus.
    Bus(Request),
    /// Core 0 is to begin at address 0.
    HandOver,
}

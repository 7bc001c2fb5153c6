//! What one line of a script adds.

use chip_base::{PinStep, UartStep};

/// What a line means.
#[derive(Drop)]
pub(crate) enum Item {
    /// An empty line, or a comment.
    Nothing,
    Pin(PinStep),
    Uart0(UartStep),
    Uart1(UartStep),
}

/// What was found so far, with the cycle of the last pin change.
#[derive(Drop)]
pub(crate) struct Found {
    pub pins: Vec<PinStep>,
    pub uart0: Vec<UartStep>,
    pub uart1: Vec<UartStep>,
    pub last: u32,
}

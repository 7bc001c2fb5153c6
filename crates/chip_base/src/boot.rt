//! How core 0 begins.

use crate::cycle::Cycle;

/// How core 0 begins after power-on and after each reset.
#[derive(Clone, Copy)]
pub enum Boot {
    /// The boot monitor waits for an image on UART0.
    Monitor,
    /// The file is an image; its payload stands at address 0.
    Direct,
    /// The file's bytes stand at address 0.
    Raw,
}

/// How core 0 began, as a report shows it.
#[derive(Clone, Copy, Debug, PartialEq, Eq)]
pub enum BootView {
    Raw,
    Direct,
    Monitor,
    /// The boot monitor handed over to the payload in this cycle.
    Handed { cycle: Cycle },
}

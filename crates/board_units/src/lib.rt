//! Units on the board: general-purpose pins, pulse-width modulation, and the watchdog.
#![tactic(auto)]

pub mod gpio;
mod messages;
pub mod pwm;
pub mod watchdog;

pub use gpio::Gpio;
pub use pwm::Pwm;
pub use watchdog::Watchdog;

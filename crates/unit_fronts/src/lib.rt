//! Fronts: the registers in the hub that stand for its units.
//!
//! A front keeps what a load needs, so that no load waits for the unit, and counts credits, so that it never sends an entry
//! for which its unit has no room.
#![tactic(auto)]

pub mod gpio_front;
mod owed;
pub mod pwm_front;
mod serial_registers;
pub mod slink_front;
pub mod spi_front;
pub mod uart_front;
pub mod wdt_front;

pub use gpio_front::GpioFront;
pub use pwm_front::PwmFront;
pub use slink_front::SlinkFront;
pub use spi_front::SpiFront;
pub use uart_front::UartFront;
pub use wdt_front::WdtFront;

//! The UART unit: it sends the bytes that it is given and receives those of a script, bit by bit, at the pace that its control
//! word sets. Steps of the script wait for a cycle or for a text that the unit sends.
#![tactic(auto)]

mod receiver;
pub mod uart;

pub use uart::Uart;

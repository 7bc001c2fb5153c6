//! The boot monitor's path over SPI's front and links to the flash and back, and the watchdog's over its links.
#![tactic(auto)]

pub mod laws;

//! Tests of the hub and of the chip, by their public functions. They stand here together, so that each of those crates is proved once: a
//! crate with tests is proved a second time with them.
#![tactic(auto)]

#[cfg(test)]
mod chip;
#[cfg(test)]
mod hub;

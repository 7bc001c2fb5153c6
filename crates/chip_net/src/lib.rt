//! The chip: the hub and its units, joined by links of a fixed delay.
#![tactic(auto)]

pub mod chip;
mod lanes;
mod links;
mod units;

pub use chip::Chip;

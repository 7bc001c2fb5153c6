//! What holds of a chip whose core 0 begins in the boot monitor.
#![tactic(auto)]

pub mod laws;

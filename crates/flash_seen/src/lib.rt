//! The flash as it is seen from outside, where an operation under way is taken as ended, and what holds of it.
#![tactic(auto)]

pub mod laws;

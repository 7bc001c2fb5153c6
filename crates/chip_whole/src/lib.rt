//! The chip as a definition, and what holds of its runs.
#![tactic(auto)]

pub mod laws;
pub mod standing;

pub use standing::Standing;

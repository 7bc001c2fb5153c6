//! What the boot monitor takes and says, and what holds where it hands over.
#![tactic(auto)]

pub mod laws;

//! Links of a fixed delay: what is sent in a cycle arrives that many cycles later.
#![tactic(auto)]

pub mod link;

pub use link::DelayLine;

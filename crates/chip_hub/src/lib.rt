//! The hub: two cores, the boot monitor in core 0's seat, the memories, the bus and the fronts of the units, one cycle at a time.
#![tactic(auto)]

mod access;
mod complex;
mod cycle;
pub mod hub;
mod issues;
mod parts;
mod seat;
pub mod start;
mod steps;
mod units;
mod views;

pub use hub::Hub;
pub use start::fits;

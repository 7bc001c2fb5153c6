//! The demonstration: a program that sums generated words is uploaded to the boot monitor and run.
#![tactic(auto)]

mod demo;
mod image;
pub mod laws;
mod power_on;
mod run;

pub use demo::put_demo;

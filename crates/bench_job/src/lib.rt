//! What the words of a job mean, and what is done for them.
#![tactic(auto)]

mod call;
mod deed;
mod files;
mod image_line;
mod power_on;
mod session;
mod tell;

pub use call::perform;

//! Plans of jobs: what is read for a job, one file after another, what answer comes of it, and how the answer is told.
#![tactic(auto)]

pub mod file;
pub mod stop;
pub mod tell;

pub use file::{fetch, fetch_each};
pub use stop::{Refusal, Stop, refused};
pub use tell::{made, said, stopped};

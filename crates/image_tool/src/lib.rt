//! Images: three header words and a payload, judged and made.
#![tactic(auto)]

mod faults;
mod judging;
pub mod laws;
mod making;

pub use faults::ImageFault;
pub use judging::{check, sum};
pub use making::wrap;

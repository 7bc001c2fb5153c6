//! Parts that a stream link may be fitted with, and three that come with the bench.
#![tactic(auto)]

pub mod attachment;
pub mod counter;
pub mod event;
pub mod loopback;
pub mod part;
pub mod scramble;

pub use attachment::attach;
pub use counter::Counter;
pub use event::{PartEvent, PartReply};
pub use loopback::Loop;
pub use part::{NamedPart, Part};
pub use scramble::Scramble;

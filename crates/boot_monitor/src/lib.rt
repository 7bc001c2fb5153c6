//! The boot monitor: a machine that makes bus requests in core 0's place.
#![tactic(auto)]

mod errands;
mod exchange;
mod flash_bytes;
mod flash_talk;
mod machine;
mod monitor;
mod phases;
mod tally;
mod text_bytes;
mod words_taken;

pub use exchange::{MonitorIn, MonitorOut};
pub use monitor::Monitor;
pub use phases::{
    Errand, Frame, Held, MonitorState, Page, Phase, Purpose, Setting, Source, Text, Transfer,
};
pub use tally::Tally;

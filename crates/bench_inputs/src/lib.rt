//! The files of a job, read and judged one by one.
#![tactic(auto)]

mod files;
mod judge;
mod lines;

pub use files::{
    read_commands_file, read_image, read_payload, read_room, read_script_file, read_settings,
};

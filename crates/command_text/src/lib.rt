//! The command file of the debugger.
#![tactic(auto)]

mod arguments;
pub mod command;
mod command_line;
pub mod commands;

pub use command::Command;
pub use commands::{CommandFault, Commands, read_commands};

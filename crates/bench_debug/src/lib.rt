//! The debugger: a session on a chip by the commands of a file.
#![tactic(auto)]

pub mod laws;
mod lines;
mod session;
mod stop;
mod stops;

pub use command_text::{Command, CommandFault, Commands, read_commands};
pub use session::debug;

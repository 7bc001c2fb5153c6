//! The files of a bench: the chip file, which sets a chip up, and the script, which says what happens at its pins and serial lines.
#![tactic(auto)]

pub mod chip;
pub mod chip_printing;
pub mod script;
pub mod script_fault;
mod script_item;
mod script_line;
pub mod script_printing;

pub use chip::{SetupFault, read_chip};
pub use chip_printing::print_chip;
pub use script::read_script;
pub use script_fault::{ScriptFault, ScriptKind};
pub use script_printing::print_script;

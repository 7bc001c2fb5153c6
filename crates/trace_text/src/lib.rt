//! The lines of a report and of a trace of issued instructions, and the printed text of an instruction. Each line is one call of the
//! sink, and none takes memory.
#![tactic(auto)]

mod instruction;
pub mod laws;
mod lines;

pub use lines::{
    RowKind, boot_line, end_line, event_line, hart_lines, put_line, row_line, trace_line,
};

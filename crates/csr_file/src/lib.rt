//! The control and status registers of a hart, its traps and its interrupts.
//!
//! RISC-V Instruction Set Manual, Volume II: Privileged Architecture, chapters "Control and Status Registers" and "Machine-Level
//! ISA". No call takes memory.
#![tactic(auto)]

pub mod causes;
pub mod file;
pub mod names;

pub use causes::Exception;
pub use file::Csrs;
pub use names::Csr;

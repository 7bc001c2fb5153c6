//! The parts of the hub that act for the harts: the cores, the timer with the software interrupts, and the mailbox.
//!
//! A hart is what software sees: registers, pc and CSRs; a core is the machine that runs one: a hart and the phase that it is in.
//!
//! Instructions, traps and interrupts, and the registers mtime, mtimecmp and msip, are those of the RISC-V Instruction Set Manual:
//! Volume I, and Volume II: Privileged Architecture, chapter "Machine-Level ISA". How many cycles an instruction takes, and the
//! mailbox, are this chip's own.
#![tactic(auto)]

mod access;
pub mod clint;
pub mod core_state;
mod csr_rows;
mod execute;
mod fetch;
pub mod mailbox;
pub mod phase;
mod registers;
mod turn;

pub use clint::Clint;
pub use core_state::Core;
pub use mailbox::Mailbox;
pub use phase::{Awaited, Phase};

//! What the rows of the instruction table do with words: results, branches and costs.
//!
//! RISC-V Instruction Set Manual, Volume I, chapters "RV32I Base Integer Instruction Set" and ""M" Extension for Integer
//! Multiplication and Division". No call takes memory, and none refuses.
#![tactic(auto)]

mod arithmetic;
mod branches;
mod costs;

pub use arithmetic::{alu, is_alu, is_alu_immediate};
pub use branches::{branch, is_branch};
pub use costs::{cost, is_shift};

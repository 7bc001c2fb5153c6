//! The instructions of RV32IMC with Zicsr and Zifencei: words of 32 bits as instructions, parcels of 16 bits as words, and
//! the table that gives for each operation its printed name, its format, what its cycles depend on and what it does.
//!
//! RISC-V Instruction Set Manual, Volume I, chapters "RV32/64G Instruction Set Listings" and ""C" Extension for Compressed
//! Instructions", with mret and wfi from Volume II. No call takes memory.
#![tactic(auto)]

mod decoder;
mod effect;
mod encoder;
mod format;
mod immediate;
mod instr;
mod op_rows;
mod parcel;
mod parcel_immediate;

pub use decoder::decode;
pub use effect::{AluFunction, BranchCondition, CostKind, CsrChange, Does};
pub use format::Format;
pub use instr::{Instr, Op};
pub use op_rows::{OpRow, name, op_row};
pub use parcel::{expand, length};

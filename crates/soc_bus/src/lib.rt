//! The bus: the address map, the two memories and the arbiter.
#![tactic(auto)]

pub mod access;
pub mod arbiter;
pub mod map;
pub mod memory;
mod word_parts;

pub use access::{BusFault, Region, Request, Width};
pub use arbiter::{Arbiter, Master};
pub use map::admit;
pub use memory::Memory;

//! The SPI unit and the NOR flash that it speaks to.
#![tactic(auto)]

pub mod array;
pub mod flash;
pub mod spi;
pub mod transfer;

pub use flash::Flash;
pub use spi::Spi;
pub use transfer::{Entry, Operation, Transfer, UnderWay};

//! The DMA controller: copies words from one address range to another.
#![tactic(auto)]

pub mod dma;
pub mod state;

pub use dma::Dma;
pub use state::DmaState;

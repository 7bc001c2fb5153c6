//! Tests of the crates below the chip and the call, each by its public functions. They stand here together, so that each of those crates
//! is proved once: a crate with tests is proved a second time with them.
#![tactic(auto)]

#[cfg(test)]
mod board;
#[cfg(test)]
mod bus;
#[cfg(test)]
mod commands;
#[cfg(test)]
mod csrs;
#[cfg(test)]
mod decoding;
#[cfg(test)]
mod dma;
#[cfg(test)]
mod executing;
#[cfg(test)]
mod fields;
#[cfg(test)]
mod flash;
#[cfg(test)]
mod fronts;
#[cfg(test)]
mod harts;
#[cfg(test)]
mod images;
#[cfg(test)]
mod line;
#[cfg(test)]
mod link;
#[cfg(test)]
mod monitor;
#[cfg(test)]
mod parts;
#[cfg(test)]
mod plans;
#[cfg(test)]
mod scripts;
#[cfg(test)]
mod shelves;
#[cfg(test)]
mod trace;
#[cfg(test)]
mod uart;
#[cfg(test)]
mod values;
#[cfg(test)]
mod words;

//! Time, and want of memory.

/// The number of a cycle. Cycles are counted from 0 at power-on.
pub type Cycle = u64;

/// Want of memory.
#[derive(Clone, Copy, Debug, PartialEq, Eq)]
pub struct NoMemory;

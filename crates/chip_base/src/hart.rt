//! Harts as a report shows them.

use crate::cycle::Cycle;

/// What a hart is doing.
#[derive(Clone, Copy, Debug, PartialEq, Eq)]
pub enum PhaseWord {
    /// It acts in its next turn.
    Ready,
    /// It is busy with an instruction.
    Run,
    /// It waits for the grant of a load or store.
    Want,
    /// It waits for an interrupt.
    Sleep,
    /// It hasn't been started.
    Parked,
    /// The boot monitor stands in its place.
    Monitor,
}

/// A hart as a report shows it: its phase, pc, number of retired instructions (modulo 2^64) and registers x0 to x31.
#[derive(Clone, Copy)]
pub struct HartView {
    pub phase: PhaseWord,
    pub pc: u32,
    pub retired: u64,
    pub regs: [u32; 32],
}

/// An issued instruction: its cycle, the number of its hart, its address and its word. A compressed instruction's word is its
/// parcel with zeros above.
#[derive(Clone, Copy, PartialEq, Eq)]
pub struct IssueRecord {
    pub cycle: Cycle,
    pub hart: u8,
    pub pc: u32,
    pub word: u32,
}

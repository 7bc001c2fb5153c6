//! What a core is doing.

use soc_bus::Request;

/// What a core is doing.
#[derive(Clone, Copy)]
pub enum Phase {
    /// It is busy for so many more turns, and then acts.
    Run(u32),
    /// It waits for the grant of this request.
    Want(Request),
    /// It looks for an interrupt after so many more turns.
    Sleep(u32),
    /// It hasn't been started.
    Parked,
    /// The boot monitor stands in its place.
    Monitor,
}

/// What a core keeps of a load or store until its grant.
#[derive(Clone, Copy)]
pub struct Awaited {
    /// The register that takes the loaded value, below 32; 0 at a store.
    pub rd: u8,
    /// Whether a loaded byte or half is sign-extended.
    pub signed: bool,
    /// The address of the next instruction.
    pub next: u32,
}

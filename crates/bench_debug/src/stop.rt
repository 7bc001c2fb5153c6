//! Why a run of the debugger stops.

/// Why a run stops.
#[derive(Clone, Copy)]
pub(crate) enum Stop {
    /// It is at the bound.
    Bound,
    /// A hart is ready with its pc at a break of it.
    Break { hart: u8, at: u32 },
    /// A store met a watched word.
    Watch { at: u32 },
}

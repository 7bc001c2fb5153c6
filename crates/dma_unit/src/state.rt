//! Where a copy stands.
ghost use Rattle.std.specs.Prelude.{◌≡◌};

/// Where a copy stands.
#[derive(Clone, Copy)]
pub enum DmaState {
    /// After a reset, and after a store to CTRL that starts no copy.
    Idle,
    /// The next word is to be read.
    Reading,
    /// A word was read and is to be written.
    Writing,
    /// All words were copied.
    Done,
    /// An access of the copy was refused.
    Fault,
}

impl DmaState {
    ghost use Rattle.dma_unit.specs.DmaRegisters.{is_busy};

    /// Whether a copy is under way.
    pub fn is_busy(self) -> bool
        ensures { result ≡ is_busy self }
    {
        match self {
            DmaState::Reading => true,
            DmaState::Writing => true,
            _ => false,
        }
    }
}

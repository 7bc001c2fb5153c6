//! A sink for text.
ghost use Rattle.std.specs.Prelude.{◌≡◌, ℕ, List, Option, None};
ghost use Rattle.bench_shelf.specs.Sink.{Writes};

use std::alloc::AllocError;
use thiserror::Error;

/// Why a sink refused a text.
#[derive(Clone, Copy, Debug, PartialEq, Eq, Error)]
pub enum SinkFault {
    /// The sink failed.
    #[error("the text can't be written")]
    Failed,
    /// There was no memory.
    #[error("out of memory")]
    Memory,
}

impl From<AllocError> for SinkFault {
    ghost use Rattle.std.specs.Prelude.{◌≡◌};
    ghost use Rattle.bench_shelf.specs.declared.sink.SinkFault.TheVariants.{Memory};

    ghost from_gives = { λ _ e. e ≡ Memory };

    fn from(_: AllocError) -> Self {
        SinkFault::Memory
    }
}

/// What takes text. Its count of faults never falls, and stands still at 2^64 - 1.
pub trait Sink {
    /// The bytes written so far, where the sink shows them.
    ghost written: { Self → Option (List ℕ) };

    /// How often the sink has failed.
    ghost faults: { Self → ℕ };

    /// Writes the bytes after those written before. After a refusal a beginning of them was written.
    fn put(&mut self, bytes: &[u8]) -> Result<(), SinkFault>
        ensures { Writes written faults self.old self.new bytes.now result };
}

//! A shelf of named files.
ghost use Rattle.std.specs.Prelude.{◌≡◌, ℕ, ◌<◌, ◌≤◌, List, Option, Some, None, true, IsTrue, IfOk, OnOk, IsErrOf, ◌⊎◌, length, vec_len};
ghost use Rattle.bench_shelf.specs.Held.{Held, Stays, StaysBut};
ghost use Rattle.soc_words.specs.Causes.{Rose};

use std::alloc::Global;
use thiserror::Error;

/// Why a shelf refused a read or a write.
#[derive(Clone, Copy, Debug, PartialEq, Eq, Error)]
pub enum ShelfFault {
    /// There is no file of the name, or the shelf failed.
    #[error("the file can't be read or written")]
    Failed,
    /// The file has more bytes than the reader's limit.
    #[error("the file has more than {limit} bytes")]
    Long { limit: u32 },
    /// There was no memory.
    #[error("out of memory")]
    Memory,
}

/// Files that are read and written whole, by their names. A shelf discloses its files, or it doesn't: then nothing is known of them
/// but what its reads give. Two counts of faults, one for reads and one for writes, never fall. A count stands still at 2^64 - 1.
pub trait Shelf {
    /// What the shelf holds, and how often it has failed.
    ghost held: { Self → Held };

    /// Reads the whole file, if it has at most `limit` bytes, and changes no file. `Failed` comes where the file isn't there or the
    /// shelf failed, `Long` where the file has more than `limit` bytes.
    fn read(&mut self, alloc: Global, name: &str, limit: u32) -> Result<Vec<u8>, ShelfFault>
        ensures stays { Stays (held self.old) (held self.new) }
        ensures no_fault { OnOk result ((held self.new).read_faults ≡ (held self.old).read_faults) }
        ensures short { IfOk result (λ bytes. vec_len bytes ≤ limit) }
        ensures whole { IfOk result (λ bytes. IsTrue (held self.old).discloses → (held self.old).file name.now ≡ Some bytes.items) }

        // a missing file is no fault of a shelf that discloses its files
        ensures missing { IsTrue (held self.old).discloses → (held self.old).file name.now ≡ None →
            (IsErrOf result ShelfFault.Failed ⊎ IsErrOf result ShelfFault.Memory) × ((held self.new).read_faults ≡ (held self.old).read_faults) }
        ensures failed { IsErrOf result ShelfFault.Failed →
            (IsTrue (held self.old).discloses × ((held self.old).file name.now ≡ None)) ⊎ Rose (held self.old).read_faults (held self.new).read_faults }

        // nor is a disclosed file that is too long
        ensures long { (n : ℕ) → IsErrOf result (ShelfFault.Long n) → n ≡ limit }
        ensures long_disclosed { (n : ℕ) → IsErrOf result (ShelfFault.Long n) → IsTrue (held self.old).discloses →
            ((bytes : List ℕ) × ((held self.old).file name.now ≡ Some bytes) × (limit < length bytes)) × ((held self.new).read_faults ≡ (held self.old).read_faults) }
        ensures long_undisclosed { (n : ℕ) → IsErrOf result (ShelfFault.Long n) →
            (held self.old).discloses ≡ true ⊎ Rose (held self.old).read_faults (held self.new).read_faults };

    /// Makes the file of this name these bytes, whether it was there or not. Every other file stays as it was, also where the
    /// write is refused.
    fn write(&mut self, name: &str, bytes: &[u8]) -> Result<(), ShelfFault>
        ensures stays { StaysBut name.now (held self.old) (held self.new) }
        ensures no_fault { OnOk result ((held self.new).write_faults ≡ (held self.old).write_faults) }
        ensures written { OnOk result (IsTrue (held self.old).discloses → (held self.new).file name.now ≡ Some bytes.now) }
        ensures failed { IsErrOf result ShelfFault.Failed → Rose (held self.old).write_faults (held self.new).write_faults }
        ensures never_long { (n : ℕ) → IsErrOf result (ShelfFault.Long n) → ⊥ };
}

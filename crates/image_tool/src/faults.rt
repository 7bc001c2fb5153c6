//! Why bytes are no image.

use std::alloc::AllocError;
use thiserror::Error;

/// Why bytes are no image, or why none was made.
#[derive(Clone, Copy, Debug, PartialEq, Eq, Error)]
pub enum ImageFault {
    /// There are so many bytes, fewer than the header's 12 or than those and the payload's.
    #[error("there are only {have} bytes")]
    Short { have: u32 },
    /// The first word is this one, and not the signature.
    #[error("the signature is {found:08x}")]
    Signature { found: u32 },
    /// The payload's length in bytes is zero, no multiple of four or above the room.
    #[error("a payload of {found} bytes isn't allowed")]
    Size { found: u32 },
    /// The wrapping sum of the checksum word and of the payload's words is this one, and not zero.
    #[error("the checksum and the payload sum to {sum:08x}")]
    Checksum { sum: u32 },
    /// There are so many bytes, more than the header's 12 and the payload's.
    #[error("there are {have} bytes, some of them after the payload")]
    Extra { have: u32 },
    /// There was no memory.
    #[error("out of memory")]
    Memory,
}

impl From<AllocError> for ImageFault {
    ghost use Rattle.std.specs.Prelude.{◌≡◌};
    ghost use Rattle.image_tool.specs.declared.faults.ImageFault.TheVariants.{Memory};

    ghost from_gives = { λ _ e. e ≡ Memory };

    fn from(_: AllocError) -> Self {
        ImageFault::Memory
    }
}

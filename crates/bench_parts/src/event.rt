//! What a part is told, and what it replies.

use chip_base::Cycle;

/// A word that the stream link passes to its part.
#[derive(Clone, Copy, Debug, PartialEq, Eq)]
pub struct PartEvent {
    /// The cycle in which it is passed.
    pub cycle: Cycle,
    pub word: u32,
    /// The word is the last of a packet.
    pub last: bool,
}

/// What a part replies to one event.
#[derive(Clone, Copy, Debug, PartialEq, Eq)]
pub struct PartReply {
    /// The reply has a word. Without one no word comes back to the chip.
    pub has: bool,
    /// The word. Where the reply has none, nobody looks at it.
    pub word: u32,
}

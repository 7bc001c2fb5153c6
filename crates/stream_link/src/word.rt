//! Words that wait.

/// A word that the link is given.
#[derive(Clone, Copy, Debug, Default, PartialEq, Eq)]
pub struct StreamWord {
    pub word: u32,
    /// It is the last of a packet.
    pub last: bool,
}

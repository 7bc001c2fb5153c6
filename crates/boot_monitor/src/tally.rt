//! What is kept of the bytes of an image.

/// What is kept of the bytes of a header and a payload.
#[derive(Clone, Copy)]
pub struct Tally {
    /// How many bytes there are.
    pub count: u32,
    /// The bytes after the last whole word, as a number whose low byte came first.
    pub part: u32,
    /// The last whole word.
    pub last: u32,
    /// The header's three words: the signature, the payload's length in bytes, and the checksum word.
    pub signature: u32,
    pub size: u32,
    pub check: u32,
    /// The wrapping sum of the words from the third on.
    pub sum: u32,
}

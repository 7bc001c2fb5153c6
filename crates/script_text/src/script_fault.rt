//! Why a script is refused.

/// What is wrong in a line.
#[derive(Clone, Copy, Debug, PartialEq, Eq)]
pub enum ScriptKind {
    /// The first or second field is unknown, a field is missing, or there is one too many.
    Word,
    /// A field isn't one to ten decimal digits with a value below 2^32.
    Number,
    /// The cycle is below that of the pin line before.
    Order,
    /// A field isn't an even number of hexadecimal digits.
    Hex,
    /// The pin's number is above 31, or its level above 1.
    Pin,
    /// A field isn't a text in double quotes, or the text's length isn't allowed.
    Text,
    /// An allocation failed.
    Memory,
}

/// The first faulty line, counted from 1, and its first fault from the left.
#[derive(Clone, Copy, Debug, PartialEq, Eq)]
pub struct ScriptFault {
    pub line: u32,
    pub kind: ScriptKind,
}

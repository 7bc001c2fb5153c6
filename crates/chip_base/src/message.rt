//! Messages between a front in the hub and its unit.

/// A message from a front to its unit.
#[derive(Clone, Copy, Debug, PartialEq, Eq)]
pub enum Down {
    /// The unit takes its reset state.
    Reset,
    /// The register at this offset is given this word.
    Set { reg: u8, word: u32 },
}

/// All that a unit says to its front in one cycle.
#[derive(Clone, Copy, Debug, PartialEq, Eq)]
pub struct Up {
    /// A Reset was done.
    pub done: bool,
    /// The watchdog fired.
    pub fire: bool,
    /// An entry left the unit, so its front may send one more.
    pub credit: bool,
    /// `word` carries a word.
    pub has: bool,
    /// The word, and 0 where none is carried.
    pub word: u32,
}

impl Up {
    /// Says nothing. It isn't sent; what is said stands beside it.
    pub const SILENT: Up = Up {
        done: false,
        fire: false,
        credit: false,
        has: false,
        word: 0,
    };

    /// Says that a Reset was done.
    pub const DONE: Up = Up {
        done: true,
        ..Up::SILENT
    };

    /// Says that an entry left the unit.
    pub const CREDIT: Up = Up {
        credit: true,
        ..Up::SILENT
    };

    /// Says that the watchdog fired.
    pub const FIRE: Up = Up {
        fire: true,
        ..Up::SILENT
    };
}

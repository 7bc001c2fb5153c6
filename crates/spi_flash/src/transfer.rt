//! What is sent to a flash, and what it does.

/// An entry of the SPI unit's queue.
#[derive(Clone, Copy)]
pub enum Entry {
    /// A byte to be exchanged with the flash.
    Byte(u8),
    /// The flash is selected, or deselected.
    Select(bool),
}

impl Default for Entry {
    fn default() -> Entry {
        Entry::Byte(0)
    }
}

/// What was sent to a flash since it was selected.
#[derive(Clone, Copy, Drop)]
pub enum Transfer {
    /// The flash isn't selected.
    Idle,
    /// The command came while an operation was under way, so it isn't followed.
    Ignored,
    /// No byte was sent.
    Opened,
    /// A command, how many bytes came after it (three and more count as three), and the number that the first three of them make,
    /// the first one highest.
    Command {
        code: u8,
        count: u8,
        address: u32,
    },
    /// The command to read with its address: the address of the byte that is answered next.
    Read {
        at: u32,
    },
    /// The command to program with its address: the bytes that are kept for the page, ff where none is, the place of the next one
    /// in the page, and whether there is one.
    Program {
        address: u32,
        page: [u8; 256],
        at: u8,
        filled: bool,
    },
}

/// What a flash does by itself, after a command.
#[derive(Clone, Copy, Drop)]
pub enum Operation {
    /// The bytes of the page that holds this address lose the bits that are 0 in these bytes.
    Program { address: u32, page: [u8; 256] },
    /// The block of this many bytes that holds this address becomes ff.
    Erase { size: u32, address: u32 },
}

/// An operation, and in how many cycles it ends: it ends in the cycle in which none would be left.
#[derive(Clone, Copy, Drop)]
pub struct UnderWay {
    pub left: u32,
    pub operation: Operation,
}

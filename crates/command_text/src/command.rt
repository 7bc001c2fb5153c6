//! A command of the debugger.

/// What the debugger is told. A hart is 0 or 1.
#[derive(Clone, Copy, Debug, PartialEq, Eq)]
pub enum Command {
    /// Adds a break at an address of a hart.
    Break { hart: u8, at: u32 },
    /// Adds a watch on the word at an address, which is a multiple of four.
    Watch { at: u32 },
    /// Runs so many cycles, not past the bound of the run.
    Step { cycles: u32 },
    /// Runs to the next stop, or to the bound of the run.
    Cont,
    /// Tells the registers of a hart.
    Regs { hart: u8 },
    /// Tells the CSR at an address, below 4,096, of a hart.
    Csr { hart: u8, addr: u16 },
    /// Tells 1 to 64 words, from an address on that is a multiple of four.
    Mem { at: u32, count: u32 },
}

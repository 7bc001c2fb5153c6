//! Accesses to the bus, and their answers.
ghost use Rattle.std.specs.Prelude.{◌≡◌};
ghost use Rattle.soc_bus.specs.Access.{width_bytes};

/// How many bytes an access has.
#[derive(Clone, Copy, Debug, PartialEq, Eq)]
pub enum Width {
    /// One byte.
    Byte,
    /// Two bytes.
    Half,
    /// Four bytes.
    Word,
}

impl Width {
    /// The number of bytes: 1, 2 or 4.
    pub fn bytes(self) -> u32
        ensures { result ≡ width_bytes self }
    {
        match self {
            Width::Byte => 1,
            Width::Half => 2,
            Width::Word => 4,
        }
    }
}

/// A load, or a store of the low bytes of a word.
#[derive(Clone, Copy, Debug, PartialEq, Eq)]
pub struct Request {
    /// The address of the first byte.
    pub addr: u32,
    pub width: Width,
    /// The word whose low bytes are stored; None at a load.
    pub store: Option<u32>,
}

/// Why an access is refused.
#[derive(Clone, Copy, Debug, PartialEq, Eq)]
pub enum BusFault {
    /// The address isn't a multiple of the width.
    Misaligned,
    /// The map has nothing there.
    Unmapped,
    /// A store outside the two memories isn't a word.
    Narrow,
}

/// What lies at an address.
#[derive(Clone, Copy, Debug, PartialEq, Eq)]
pub enum Region {
    /// The instruction memory.
    Imem,
    /// The data memory.
    Dmem,
    /// The timer and the software interrupts.
    Clint,
    /// The mailbox that starts core 1.
    Mailbox,
    /// The registers that tell the chip's settings.
    Sysinfo,
    /// The copier of words.
    Dma,
    /// A unit's registers, by the unit's number, 1 to 7. `reg` is the offset, in bytes, of the register in whose word the address lies.
    Device { unit: u8, reg: u8 },
}

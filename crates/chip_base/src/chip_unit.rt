//! The chip's units, and the parts of its hub that have registers.
ghost use Rattle.std.specs.Prelude.{◌≡◌, ◌≤◌, ◌<◌, IfSome, IsTrue, length};
ghost use Rattle.chip_base.specs.UnitTable.{fast_bit, lane_name, lane_named, link_place, part_has, part_row, standard_delays, unit_has, unit_named, unit_numbered, unit_row};

use crate::bits::bit_if;

/// A unit of the chip.
#[derive(Clone, Copy, Debug, PartialEq, Eq)]
pub enum ChipUnit {
    Uart0,
    Uart1,
    Spi,
    Gpio,
    Pwm,
    Slink,
    Wdt,
}

/// A part of the hub that has registers.
#[derive(Clone, Copy, Debug, PartialEq, Eq)]
pub enum HubPart {
    /// The copier of words.
    Dma,
    /// The timer and the software interrupts.
    Clint,
    /// The registers that tell the chip's settings.
    Sysinfo,
    /// The mailbox that starts core 1.
    Mailbox,
}

impl ChipUnit {
    /// All units, in the order of their numbers.
    pub const ALL: [ChipUnit; 7] = [
        ChipUnit::Uart0,
        ChipUnit::Uart1,
        ChipUnit::Spi,
        ChipUnit::Gpio,
        ChipUnit::Pwm,
        ChipUnit::Slink,
        ChipUnit::Wdt,
    ];

    /// The unit's number, 1 to 7: the unit in events, its lane, and its bit in the register OPEN.
    pub const fn number(self) -> u8
        ensures value { result ≡ (unit_row self).number }
        ensures from { 1 ≤ result }
        ensures to { result ≤ 7 }
    {
        match self {
            ChipUnit::Uart0 => 1,
            ChipUnit::Uart1 => 2,
            ChipUnit::Spi => 3,
            ChipUnit::Gpio => 4,
            ChipUnit::Pwm => 5,
            ChipUnit::Slink => 6,
            ChipUnit::Wdt => 7,
        }
    }

    /// The unit's place among the seven links, 0 to 6: one less than its number.
    pub fn place(self) -> usize
        ensures value { result ≡ link_place self }
        ensures to { result < 7 }
    {
        usize::from(self.number()) - 1
    }

    /// The unit's name, of at most 5 bytes.
    pub const fn name(self) -> &'static str
        ensures value { result.now ≡ (unit_row self).name }
        ensures short { length result.now ≤ 5 }
    {
        match self {
            ChipUnit::Uart0 => "uart0",
            ChipUnit::Uart1 => "uart1",
            ChipUnit::Spi => "spi",
            ChipUnit::Gpio => "gpio",
            ChipUnit::Pwm => "pwm",
            ChipUnit::Slink => "slink",
            ChipUnit::Wdt => "wdt",
        }
    }

    /// The unit with this number. None exactly where the number is 0 or above 7.
    pub const fn numbered(number: u8) -> Option<ChipUnit>
        ensures { result ≡ unit_numbered number }
    {
        match number {
            1 => Some(ChipUnit::Uart0),
            2 => Some(ChipUnit::Uart1),
            3 => Some(ChipUnit::Spi),
            4 => Some(ChipUnit::Gpio),
            5 => Some(ChipUnit::Pwm),
            6 => Some(ChipUnit::Slink),
            7 => Some(ChipUnit::Wdt),
            _ => None,
        }
    }

    /// The unit with this name. None exactly where no unit has it.
    pub fn named(name: &str) -> Option<ChipUnit>
        ensures { result ≡ unit_named name.now }
    {
        match name {
            "uart0" => Some(ChipUnit::Uart0),
            "uart1" => Some(ChipUnit::Uart1),
            "spi" => Some(ChipUnit::Spi),
            "gpio" => Some(ChipUnit::Gpio),
            "pwm" => Some(ChipUnit::Pwm),
            "slink" => Some(ChipUnit::Slink),
            "wdt" => Some(ChipUnit::Wdt),
            _ => None,
        }
    }

    /// The address at which the unit's registers begin.
    pub const fn base(self) -> u32
        ensures { result ≡ (unit_row self).base }
    {
        match self {
            ChipUnit::Uart0 => 0xfff5_0000,
            ChipUnit::Uart1 => 0xfff6_0000,
            ChipUnit::Spi => 0xfff8_0000,
            ChipUnit::Gpio => 0xfffc_0000,
            ChipUnit::Pwm => 0xfff0_0000,
            ChipUnit::Slink => 0xffec_0000,
            ChipUnit::Wdt => 0xfffb_0000,
        }
    }

    const fn offsets(self) -> &'static [u32]
        ensures { result.now ≡ (unit_row self).offsets }
    {
        match self {
            ChipUnit::Uart0 | ChipUnit::Uart1 => &[0, 4],
            ChipUnit::Spi | ChipUnit::Slink | ChipUnit::Wdt => &[0, 4, 8],
            ChipUnit::Gpio => &[0, 4, 8, 12],
            ChipUnit::Pwm => &[0, 4, 8, 12, 16],
        }
    }

    /// Whether the unit has a register at an offset in bytes.
    pub fn has(self, offset: u32) -> bool
        ensures value { result ≡ unit_has self offset }
        ensures to { IsTrue result → offset < 256 }
    {
        self.offsets().contains(&offset)
    }

    /// The number of the unit's fast interrupt line. None exactly where it has none.
    pub const fn fast_line(self) -> Option<u32>
        ensures value { result ≡ (unit_row self).fast_line }
        ensures to { IfSome result (λ number. number < 16) }
    {
        match self {
            ChipUnit::Uart0 => Some(1),
            ChipUnit::Uart1 => Some(2),
            ChipUnit::Spi => Some(3),
            ChipUnit::Gpio => Some(4),
            ChipUnit::Pwm => None,
            ChipUnit::Slink => Some(6),
            ChipUnit::Wdt => None,
        }
    }
}

impl HubPart {
    /// All parts of the hub that have registers.
    pub const ALL: [HubPart; 4] = [
        HubPart::Dma,
        HubPart::Clint,
        HubPart::Sysinfo,
        HubPart::Mailbox,
    ];

    /// The address at which the part's registers begin.
    pub const fn base(self) -> u32
        ensures { result ≡ (part_row self).base }
    {
        match self {
            HubPart::Dma => 0xffed_0000,
            HubPart::Clint => 0xfff4_0000,
            HubPart::Sysinfo => 0xfffe_0000,
            HubPart::Mailbox => 0xfffe_0100,
        }
    }

    /// How many bytes of the map the part has. The address at which its registers begin is a multiple of them.
    pub const fn size(self) -> u32
        ensures value { result ≡ (part_row self).size }
        ensures from { 0 < result }
    {
        match self {
            HubPart::Clint => 0x1_0000,
            _ => 0x100,
        }
    }

    const fn offsets(self) -> &'static [u32]
        ensures { result.now ≡ (part_row self).offsets }
    {
        match self {
            HubPart::Dma => &[0, 4, 8, 12, 16],
            HubPart::Clint => &[0, 4, 0x4000, 0x4004, 0x4008, 0x400c, 0xbff8, 0xbffc],
            HubPart::Sysinfo => &[0, 4, 8, 12],
            HubPart::Mailbox => &[0, 4],
        }
    }

    /// Whether the part has a register at an offset in bytes.
    pub fn has(self, offset: u32) -> bool
        ensures { result ≡ part_has self offset }
    {
        self.offsets().contains(&offset)
    }

    /// The number of the part's fast interrupt line. None exactly where it has none.
    pub const fn fast_line(self) -> Option<u32>
        ensures value { result ≡ (part_row self).fast_line }
        ensures to { IfSome result (λ number. number < 16) }
    {
        match self {
            HubPart::Dma => Some(0),
            _ => None,
        }
    }
}

/// The bit of mip of a fast interrupt line, 0 to 15, where the line is high; 0 where it is low, or there is no line.
pub fn fast_bit(number: Option<u32>, is_high: bool) -> u32
    requires { IfSome number (λ n. n < 16) }
    ensures { result ≡ fast_bit number is_high }
{
    match number {
        Some(number) => bit_if(16 + number, is_high),
        None => 0,
    }
}

/// The delays of the seven links in cycles, by the units' places, where the settings give none.
pub(crate) const fn standard_delays() -> [u32; 7]
    ensures { result ≡ standard_delays }
{
    [32, 32, 8, 8, 32, 8, 64]
}

/// The name of a lane: `hub` for lane 0, and for each unit's number the unit's name. A number above 7 gives
/// `hub`. It has at most 5 bytes.
pub fn lane_name(number: u8) -> &'static str
    ensures value { result.now ≡ lane_name number }
    ensures short { length result.now ≤ 5 }
{
    match ChipUnit::numbered(number) {
        Some(unit) => unit.name(),
        None => "hub",
    }
}

/// The lane with this name, 0 for `hub` and else the unit's number. None exactly where no lane has it.
pub fn lane_named(name: &str) -> Option<usize>
    ensures value { result ≡ lane_named name.now }
    ensures bound { IfSome result (λ lane. lane < 8) }
{
    if name == "hub" {
        return Some(0);
    }
    match ChipUnit::named(name) {
        Some(unit) => Some(usize::from(unit.number())),
        None => None,
    }
}

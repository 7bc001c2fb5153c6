//! Bits of words, and the halves of numbers of 64 bits.
ghost use Rattle.std.specs.Prelude.{◌≡◌, ◌<◌};
ghost use Rattle.chip_base.specs.Bits.{bit_if, high_of, high_set, low_of, low_set};

/// The bit of a word at this place, 0 to 31, where it is set.
pub fn bit_if(place: u32, is_set: bool) -> u32
    requires { place < 32 }
    ensures { result ≡ bit_if place is_set }
{
    if is_set { 1 << place } else { 0 }
}

/// The low word of a number.
pub fn low_word(number: u64) -> u32
    ensures { result ≡ low_of number }
{
    (number & 0xffff_ffff) as u32
}

/// The high word of a number.
pub fn high_word(number: u64) -> u32
    ensures { result ≡ high_of number }
{
    (number >> 32) as u32
}

/// The number with another low word.
pub fn with_low(number: u64, word: u32) -> u64
    ensures { result ≡ low_set number word }
{
    u64::from(high_word(number)) * 0x1_0000_0000 + u64::from(word)
}

/// The number with another high word.
pub fn with_high(number: u64, word: u32) -> u64
    ensures { result ≡ high_set number word }
{
    u64::from(word) * 0x1_0000_0000 + u64::from(low_word(number))
}

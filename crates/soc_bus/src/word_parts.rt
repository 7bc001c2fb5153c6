//! Bytes in a list of words.
ghost use Rattle.std.specs.Prelude.{◌≡◌, ℕ, ◌+◌, ◌*◌, ◌%◌, ◌^◌, ◌<◌, ◌≤◌, length, slice_range};
ghost use Rattle.std.specs.Int.{w32, to_le_bytes};
ghost use Rattle.soc_bus.specs.Access.{width_bytes};
ghost use Rattle.soc_bus.specs.Words.{bytes_of};
ghost use Rattle.soc_bus.specs.Memory.{value_in, low_bytes, with_bytes};

use crate::access::Width;

/// The value of the bytes from a place on, low byte first.
pub fn read(words: &[u32], at: u32, width: Width) -> u32
    requires aligned { at % width_bytes width ≡ 0 }
    requires room { at + width_bytes width ≤ 4 * length words.now }
    ensures below { result < 2 ^ (8 * width_bytes width) }
    ensures value { result ≡ value_in width (slice_range (bytes_of words.now) at (at + width_bytes width)) }
    ensures bytes { low_bytes width result ≡ slice_range (bytes_of words.now) at (at + width_bytes width) }
{
    let word = words[(at / 4) as usize];
    part(word, (at % 4) as usize, width)
}

fn part(word: u32, low: usize, width: Width) -> u32
    requires aligned { low % width_bytes width ≡ 0 }
    requires room { low + width_bytes width ≤ 4 }
    ensures below { result < 2 ^ (8 * width_bytes width) }
    ensures value { result ≡ value_in width (slice_range (to_le_bytes w32 word) low (low + width_bytes width)) }
    ensures bytes { low_bytes width result ≡ slice_range (to_le_bytes w32 word) low (low + width_bytes width) }
{
    let bytes = word.to_le_bytes();
    match width {
        Width::Byte => u32::from(bytes[low]),
        Width::Half => u32::from(u16::from_le_bytes([bytes[low], bytes[low + 1]])),
        Width::Word => word,
    }
}

/// Writes the low bytes of a value from a place on, low byte first.
pub fn write(words: &mut [u32], at: u32, width: Width, value: u32)
    requires aligned { at % width_bytes width ≡ 0 }
    requires room { at + width_bytes width ≤ 4 * length words.old }
    ensures { bytes_of words.new ≡ with_bytes (bytes_of words.old) at (low_bytes width value) }
{
    let place = (at / 4) as usize;
    let bytes = value.to_le_bytes();
    words[place] = changed(
        words[place],
        (at % 4) as usize,
        &bytes[..width.bytes() as usize],
    );
}

/// The word with other bytes from one of its bytes on.
fn changed(word: u32, low: usize, bytes: &[u8]) -> u32
    requires { low + length bytes.now ≤ 4 }
    ensures { to_le_bytes w32 result ≡ with_bytes (to_le_bytes w32 word) low bytes.now }
{
    let mut all = word.to_le_bytes();
    all[low..low + bytes.len()].copy_from_slice(bytes);
    u32::from_le_bytes(all)
}

//! The tests of an image.
ghost use Rattle.std.specs.Prelude.{◌≡◌, ℕ, ◌+◌, ◌%◌, ◌^◌, ◌<◌, ◌≤◌, List, length, take, drop, None, Some, Ok, IfOk, IfErr, OnOk, IsErrOf};
ghost use Rattle.image_tool.specs.FirstFault.{image_fault};
ghost use Rattle.image_tool.specs.Image.{IsImage, is_allowed, size_of, word_at, words as words_of, wrapping_sum};

use crate::ImageFault;

/// The first word of an image.
pub(crate) const SIGNATURE: u32 = 0x4788_cafe;

/// The word at a place, low byte first.
fn word_at(bytes: &[u8], place: usize) -> u32
    requires { place + 4 ≤ length bytes.now }
    ensures { result ≡ word_at bytes.now place }
{
    u32::from(bytes[place])
        + (u32::from(bytes[place + 1]) << 8)
        + (u32::from(bytes[place + 2]) << 16)
        + (u32::from(bytes[place + 3]) << 24)
}

/// The wrapping sum of the words that these bytes are, each low byte first. There must be a multiple of four bytes.
pub fn sum(words: &[u8]) -> u32
    requires { length words.now % 4 ≡ 0 }
    ensures { result ≡ wrapping_sum (words_of words.now) }
{
    let mut left = words.len();
    let mut total: u32 = 0;
    while left > 0 {
        left -= 4;
        total = total.wrapping_add(word_at(words, left));
    }
    total
}

/// Whether a payload may have so many bytes, where the memory has `room` for so many.
pub(crate) fn is_allowed(room: u32, len: u32) -> bool
    ensures { result ≡ is_allowed room len }
{
    0 < len && len % 4 == 0 && len <= room
}

/// The wrapping sum of the words of a payload of so many bytes.
fn payload_sum(bytes: &[u8], size: u32) -> u32
    requires within { 12 + size ≤ length bytes.now }
    requires whole { size % 4 ≡ 0 }
    ensures { result ≡ wrapping_sum (words_of (take size (drop 12 bytes.now))) }
{
    sum(&bytes[12..12 + size as usize])
}

/// The first test that fails.
fn first_fault(bytes: &[u8], room: u32) -> Option<ImageFault>
    requires { length bytes.now < 2 ^ 32 }
    ensures { result ≡ image_fault room bytes.now }
{
    let have = bytes.len() as u32;
    if have < 12 {
        return Some(ImageFault::Short { have });
    }
    let found = word_at(bytes, 0);
    if found != SIGNATURE {
        return Some(ImageFault::Signature { found });
    }
    let size = word_at(bytes, 4);
    if !is_allowed(room, size) {
        return Some(ImageFault::Size { found: size });
    }
    if have - 12 < size {
        return Some(ImageFault::Short { have });
    }
    let sum = word_at(bytes, 8).wrapping_add(payload_sum(bytes, size));
    if sum != 0 {
        return Some(ImageFault::Checksum { sum });
    }
    if have - 12 > size {
        return Some(ImageFault::Extra { have });
    }
    None
}

/// The length in bytes of the payload, where the bytes are an image whose payload is at most `room` bytes long. Otherwise the fault
/// is the first of these: `Short`, there are fewer than 12 bytes; `Signature`, the first word isn't 4788cafe; `Size`, the second word,
/// the length, is zero, no multiple of four or above `room`; `Short`, there are fewer bytes than 12 and the length; `Checksum`, the
/// third word and the payload's words don't sum to zero; `Extra`, there are more bytes. There must be fewer than 2^32 bytes. It takes
/// no memory.
pub fn check(bytes: &[u8], room: u32) -> Result<u32, ImageFault>
    requires { length bytes.now < 2 ^ 32 }

    // the images are accepted, and nothing else is
    ensures accepts { (payload : List ℕ) → IsImage room bytes.now payload → result ≡ Ok (length payload) }
    ensures accepted { IfOk result (λ len. IsImage room bytes.now (drop 12 bytes.now) × (len ≡ length (drop 12 bytes.now)) × (len ≡ size_of bytes.now)) }

    // what is refused has its first fault
    ensures faultless { OnOk result (image_fault room bytes.now ≡ None) }
    ensures fault { IfErr result (λ fault. image_fault room bytes.now ≡ Some fault) }
    ensures takes_no_memory { IsErrOf result ImageFault.Memory → ⊥ }
{
    match first_fault(bytes, room) {
        Some(fault) => Err(fault),
        None => Ok(word_at(bytes, 4)),
    }
}

//! The making of an image.
ghost use Rattle.std.specs.Prelude.{◌≡◌, ℕ, ◌+◌, ◌%◌, ◌^◌, ◌<◌, ◌↔◌, ◌⊎◌, length, IfOk, IfErr, IsErrOf};
ghost use Rattle.image_tool.specs.Image.{IsImage, image_of, padded};

use crate::ImageFault;
use crate::judging::{SIGNATURE, is_allowed, sum};
use std::alloc::{AllocError, Global};

/// The length in bytes of a payload with zero bytes up to the next multiple of four.
fn padded_len(payload: &[u8]) -> u32
    requires { length payload.now < 2 ^ 31 }
    ensures value { result ≡ length (padded payload.now) }
    ensures whole { result % 4 ≡ 0 }
{
    (payload.len() as u32).next_multiple_of(4)
}

/// A payload with zero bytes up to `len` bytes, the next multiple of four.
fn padded(alloc: Global, payload: &[u8], len: u32) -> Result<Vec<u8>, AllocError>
    requires { len ≡ length (padded payload.now) }
    ensures { IfOk result (λ bytes. bytes.items ≡ padded payload.now) }
{
    let mut bytes = Vec::with_capacity(alloc, len as usize)?;
    bytes.extend_from_slice(payload)?;
    bytes.resize(len as usize, 0)?;
    Ok(bytes)
}

/// The image of a payload, whose length is a multiple of four.
fn image_of(alloc: Global, payload: &[u8]) -> Result<Vec<u8>, AllocError>
    requires whole { length payload.now % 4 ≡ 0 }
    requires short { length payload.now < 2 ^ 32 }
    ensures { IfOk result (λ image. image.items ≡ image_of payload.now) }
{
    let checksum = sum(payload).wrapping_neg();
    let mut image = Vec::with_capacity(alloc, 12 + payload.len())?;
    image.extend_from_slice(&SIGNATURE.to_le_bytes())?;
    image.extend_from_slice(&(payload.len() as u32).to_le_bytes())?;
    image.extend_from_slice(&checksum.to_le_bytes())?;
    image.extend_from_slice(payload)?;
    Ok(image)
}

/// The image of a payload, to which zero bytes are appended up to the next multiple of four. `Size` comes exactly where the length in
/// bytes that this gives is zero or above `room`, and carries that length; `Memory` where there was no memory. The payload must have
/// fewer than 2^31 bytes.
pub fn wrap(alloc: Global, payload: &[u8], room: u32) -> Result<Vec<u8>, ImageFault>
    requires { length payload.now < 2 ^ 31 }
    ensures image { IfOk result (λ image. IsImage room image.items (padded payload.now)) }
    ensures size { IsErrOf result (ImageFault.Size (length (padded payload.now))) ↔ ((length (padded payload.now) ≡ 0) ⊎ (room < length (padded payload.now))) }
    ensures no_other { IfErr result (λ fault. (fault ≡ ImageFault.Size (length (padded payload.now))) ⊎ (fault ≡ ImageFault.Memory)) }
{
    let len = padded_len(payload);
    if !is_allowed(room, len) {
        return Err(ImageFault::Size { found: len });
    }
    let payload = padded(alloc, payload, len)?;
    Ok(image_of(alloc, &payload)?)
}

//! The registers and immediates of parcels.

ghost use Rattle.std.specs.Prelude.{◌≡◌, ◌<◌, ◌+◌, ◌*◌, ◌^◌, ◌/◌, ◌%◌};
ghost use Rattle.rv_decode.specs.Parcels.{frame_offset, word_offset, small, jump_offset, stack_step, upper, branch_offset};
ghost use Rattle.rv_decode.specs.Parcels.{stack_load_offset, stack_store_offset};

use crate::immediate::sign_extend;

/// A register x8 to x15, by the three bits from `low` upwards.
pub fn short_register(half: u32, low: u32) -> u32
    requires { low < 16 }
    ensures value { result ≡ 8 + half / 2 ^ low % 8 }
    ensures bound { result < 16 }
{
    8 + (half >> low) % 8
}

/// The offset of an address in the stack frame, in bytes.
pub fn frame_immediate(half: u32) -> u32
    ensures { result ≡ frame_offset half }
{
    (half >> 11 & 3) * 0x10 + (half >> 7 & 0xf) * 0x40 + (half >> 6 & 1) * 4 + (half >> 5 & 1) * 8
}

/// The offset of a load or store of a word, in bytes.
pub fn word_immediate(half: u32) -> u32
    ensures { result ≡ word_offset half }
{
    (half >> 10 & 7) * 8 + (half >> 6 & 1) * 4 + (half >> 5 & 1) * 0x40
}

/// An immediate of six bits, sign-extended.
pub fn small_immediate(half: u32) -> u32
    ensures { result ≡ small half }
{
    sign_extend((half >> 12 & 1) * 0x20 + (half >> 2 & 0x1f), 6)
}

/// A jump's offset in bytes, sign-extended.
pub fn jump_immediate(half: u32) -> u32
    ensures { result ≡ jump_offset half }
{
    let high = (half >> 12 & 1) * 0x800 + (half >> 8 & 1) * 0x400 + (half >> 9 & 3) * 0x100;
    let middle = (half >> 6 & 1) * 0x80 + (half >> 7 & 1) * 0x40 + (half >> 2 & 1) * 0x20;
    sign_extend(
        high + middle + (half >> 11 & 1) * 0x10 + (half >> 3 & 7) * 2,
        12,
    )
}

/// The stack pointer's step in bytes, sign-extended.
pub fn step_immediate(half: u32) -> u32
    ensures { result ≡ stack_step half }
{
    let high = (half >> 12 & 1) * 0x200 + (half >> 3 & 3) * 0x80 + (half >> 5 & 1) * 0x40;
    sign_extend(high + (half >> 2 & 1) * 0x20 + (half >> 6 & 1) * 0x10, 10)
}

/// The upper part of a word, sign-extended.
pub fn upper_immediate(half: u32) -> u32
    ensures { result ≡ upper half }
{
    sign_extend(
        (half >> 12 & 1) * 0x2_0000 + (half >> 2 & 0x1f) * 0x1000,
        18,
    )
}

/// A branch's offset in bytes, sign-extended.
pub fn branch_immediate(half: u32) -> u32
    ensures { result ≡ branch_offset half }
{
    let high = (half >> 12 & 1) * 0x100 + (half >> 5 & 3) * 0x40 + (half >> 2 & 1) * 0x20;
    sign_extend(high + (half >> 10 & 3) * 8 + (half >> 3 & 3) * 2, 9)
}

/// The offset of a load from the stack, in bytes.
pub fn stack_load_immediate(half: u32) -> u32
    ensures { result ≡ stack_load_offset half }
{
    (half >> 12 & 1) * 0x20 + (half >> 4 & 7) * 4 + (half >> 2 & 3) * 0x40
}

/// The offset of a store to the stack, in bytes.
pub fn stack_store_immediate(half: u32) -> u32
    ensures { result ≡ stack_store_offset half }
{
    (half >> 9 & 0xf) * 4 + (half >> 7 & 3) * 0x40
}

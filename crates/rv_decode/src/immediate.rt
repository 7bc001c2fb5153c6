//! The immediates of words.

ghost use Rattle.std.specs.Prelude.{◌≡◌, ◌<◌, ◌≤◌, ◌*◌, ◌^◌};
ghost use Rattle.soc_words.specs.Word.{sign_extended};
ghost use Rattle.rv_decode.specs.Fields.{joined, i_bits, s_bits, b_bits, u_bits, j_bits};

/// A number of so many bits, extended to a word by its highest bit.
pub fn sign_extend(number: u32, bits: u32) -> u32
    requires width { (1 ≤ bits) × (bits ≤ 31) }
    requires fits { number < 2 ^ bits }
    ensures { result ≡ sign_extended bits number }
{
    if number < 1 << (bits - 1) {
        number
    } else {
        number.wrapping_sub(1 << bits)
    }
}

/// The immediate of the I format.
pub fn immediate_i(word: u32) -> u32
    ensures { result ≡ sign_extended 12 (joined i_bits word) }
{
    sign_extend(word >> 20, 12)
}

/// The immediate of the S format.
pub fn immediate_s(word: u32) -> u32
    ensures { result ≡ sign_extended 12 (joined s_bits word) }
{
    sign_extend((word >> 25) << 5 | (word >> 7 & 0x1f), 12)
}

/// The immediate of the B format.
pub fn immediate_b(word: u32) -> u32
    ensures { result ≡ sign_extended 13 (2 * joined b_bits word) }
{
    let high = (word >> 31) * 0x1000 + (word >> 7 & 1) * 0x800;
    sign_extend(
        high + (word >> 25 & 0x3f) * 0x20 + (word >> 8 & 0xf) * 2,
        13,
    )
}

/// The immediate of the U format.
pub fn immediate_u(word: u32) -> u32
    ensures { result ≡ 2 ^ 12 * joined u_bits word }
{
    word & 0xffff_f000
}

/// The immediate of the J format.
pub fn immediate_j(word: u32) -> u32
    ensures { result ≡ sign_extended 21 (2 * joined j_bits word) }
{
    let high = (word >> 31) * 0x10_0000 + (word >> 12 & 0xff) * 0x1000;
    sign_extend(
        high + (word >> 20 & 1) * 0x800 + (word >> 21 & 0x3ff) * 2,
        21,
    )
}

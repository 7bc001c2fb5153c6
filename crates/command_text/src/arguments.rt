//! The arguments of a command.
ghost use Rattle.std.specs.Prelude.{◌≡◌, ◌≤◌, ◌<◌, ◌%◌, IfSome, option_map};
ghost use Rattle.text_fields.specs.Fields.{fields};
ghost use Rattle.command_text.specs.CommandLine.{address_of, count_of, csr_address_of, cycles_of, hart_of, only, only_two, word_address_of};

use text_fields::fields::cut_field;
use text_fields::numbers::{hex_number, number};

/// The only field of a text. None where it has none or more.
pub(crate) fn one_field<'a>(text: &'a [u8]) -> Option<&'a [u8]>
    ensures { option_map (λ f. f.now) result ≡ only (fields text.entry.now) }
{
    let (first, rest) = cut_field(text)?;
    match cut_field(rest) {
        Some(_) => None,
        None => Some(first),
    }
}

/// The two fields of a text. None where it has fewer or more.
pub(crate) fn two_fields<'a>(text: &'a [u8]) -> Option<(&'a [u8], &'a [u8])>
    ensures { option_map (λ p. (p.0.now, p.1.now)) result ≡ only_two (fields text.entry.now) }
{
    let (first, rest) = cut_field(text)?;
    let second = one_field(rest)?;
    Some((first, second))
}

/// A hart, which is 0 or 1.
pub(crate) fn hart(text: &[u8]) -> Option<u8>
    ensures value { result ≡ hart_of text.now }
    ensures bound { IfSome result (λ h. h ≤ 1) }
{
    let value = number(10, 1, text)?;
    Some(value as u8)
}

/// An address.
pub(crate) fn address(text: &[u8]) -> Option<u32>
    ensures { result ≡ address_of text.now }
{
    hex_number(8, text)
}

/// The address of a word, a multiple of four.
pub(crate) fn word_address(text: &[u8]) -> Option<u32>
    ensures value { result ≡ word_address_of text.now }
    ensures aligned { IfSome result (λ at. at % 4 ≡ 0) }
{
    let at = address(text)?;
    if at % 4 == 0 { Some(at) } else { None }
}

/// The address of a CSR, below 4,096.
pub(crate) fn csr_address(text: &[u8]) -> Option<u16>
    ensures value { result ≡ csr_address_of text.now }
    ensures bound { IfSome result (λ at. at < 4096) }
{
    let at = address(text)?;
    if at < 4096 { Some(at as u16) } else { None }
}

/// A count of cycles.
pub(crate) fn cycles(text: &[u8]) -> Option<u32>
    ensures { result ≡ cycles_of text.now }
{
    number(10, u32::MAX, text)
}

/// A count of words, 1 to 64.
pub(crate) fn word_count(text: &[u8]) -> Option<u32>
    ensures value { result ≡ count_of text.now }
    ensures least { IfSome result (λ n. 1 ≤ n) }
    ensures most { IfSome result (λ n. n ≤ 64) }
{
    let count = number(10, 64, text)?;
    if count >= 1 { Some(count) } else { None }
}

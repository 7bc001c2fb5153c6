//! Texts in double quotes.
ghost use Rattle.std.specs.Prelude.{◌≡◌, ◌≤◌, ◌<◌, length, drop, option_map, IfOk, IfSome, IsNone, List, ℕ, true, []};
ghost use Rattle.text_fields.specs.Quoted.{escape_value, plain, quoted, quoted_text, turn};
ghost use Rattle.text_fields.specs.QuotedMeaning.{IsQuoted};
ghost use Rattle.text_fields.specs.QuotedParts.{comes_small, is_small, mode_view, quoted_view, turn_view};

use crate::lines::text_from;
use crate::numbers::hex_digit;
use std::alloc::{AllocError, Global};

/// What the letter after a backslash stands for, but `x`.
fn escape(byte: u8) -> Option<u8>
    ensures { result ≡ escape_value byte }
{
    match byte {
        b'r' => Some(b'\r'),
        b'n' => Some(b'\n'),
        b't' => Some(b'\t'),
        b'\\' => Some(b'\\'),
        b'"' => Some(b'"'),
        _ => None,
    }
}

/// Where a text stands: between characters, after a backslash, after `\x`, and after its first digit.
#[derive(Clone, Copy, Drop)]
enum Place {
    Plain,
    Slash,
    High,
    Low(u8),
}

/// What a byte of a text comes to: its end, a byte of its own, more to come, or a fault.
#[derive(Clone, Copy, Drop)]
enum Comes {
    Closes,
    Gives(u8),
    Goes(Place),
    Fails,
}

/// What a byte comes to at a place.
#[tactic(auto, unfolding(crate::specs::Quoted::turn))]
fn turn_at(place: Place, byte: u8) -> Comes
    requires { is_small place ≡ true }
    ensures value { turn_view result ≡ turn (mode_view place) byte }
    ensures small { comes_small result ≡ true }
{
    match place {
        Place::Plain => match byte {
            b'"' => Comes::Closes,
            b'\\' => Comes::Goes(Place::Slash),
            b' '..=b'~' => Comes::Gives(byte),
            _ => Comes::Fails,
        },
        Place::Slash => {
            if byte == b'x' {
                return Comes::Goes(Place::High);
            }
            match escape(byte) {
                Some(value) => Comes::Gives(value),
                None => Comes::Fails,
            }
        }
        Place::High => match hex_digit(byte) {
            Some(value) => Comes::Goes(Place::Low(value)),
            None => Comes::Fails,
        },
        Place::Low(high) => match hex_digit(byte) {
            Some(value) => Comes::Gives(high * 16 + value),
            None => Comes::Fails,
        },
    }
}

/// What a quoted text stands for, byte by byte.
#[tactic(auto, using(crate::proofs::QuotedSteps::quoted_at, crate::proofs::QuotedSteps::quoted_done))]
fn scanned<'a>(alloc: Global, text: &'a [u8]) -> Result<Option<(Vec<u8>, &'a [u8])>, AllocError>
    ensures { IfOk result (λ r. option_map quoted_view r ≡ quoted_text text.entry.now) }
{
    let mut found = Vec::new(alloc);
    let mut place = Place::Plain;
    for i in 0..text.len() {
        match turn_at(place, text[i]) {
            Comes::Closes => {
                let rest = text_from(text, i + 1);
                return Ok(Some((found, rest)));
            }
            Comes::Gives(byte) => {
                found.push(byte)?;
                place = Place::Plain;
            }
            Comes::Goes(next) => place = next,
            Comes::Fails => return Ok(None),
        }
    }
    Ok(None)
}

/// The bytes that a quoted text stands for, read from right after its opening quote, and what follows its closing quote. It has the
/// characters from the space to `~` but the quote and the backslash, and the escapes `\r`, `\n`, `\t`, `\\`, `\"` and `\xHH`. None exactly
/// where there is no such text. An error comes only where an allocation fails.
pub fn read_quoted<'a>(
    alloc: Global,
    text: &'a [u8],
) -> Result<Option<(Vec<u8>, &'a [u8])>, AllocError>
    ensures value { IfOk result (λ r. option_map quoted_view r ≡ quoted_text text.entry.now) }
    ensures stands { IfOk result (λ r. IfSome r (λ p. IsQuoted text.entry.now p.0.items p.1.now)) }
    ensures none { IfOk result (λ r. IsNone r → (bytes : List ℕ) (rest : List ℕ) → IsQuoted text.entry.now bytes rest → ⊥) }
{
    scanned(alloc, text)
}

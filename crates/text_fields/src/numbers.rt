//! Decimal and hexadecimal numbers.
ghost use Rattle.std.specs.Prelude.{◌≡◌, ◌≤◌, ◌<◌, IfSome, length, true};
ghost use Rattle.hex.specs.Hex.{hex_digit_value};
ghost use Rattle.text_fields.specs.Numbers.{decimal_value, hex_number_of, is_digit, number_of};
ghost use Rattle.std.specs.List.{list_all};

/// The value of at most ten digits.
fn value_of(digits: &[u8]) -> u64
    requires long { length digits.now ≤ 10 }
    requires digits { list_all is_digit digits.now ≡ true }
    ensures { result ≡ decimal_value digits.now }
{
    let mut value: u64 = 0;
    for digit in digits {
        value = value * 10 + (digit - b'0') as u64;
    }
    value
}

/// Whether all bytes are digits.
fn are_digits(text: &[u8]) -> bool
    ensures { result ≡ list_all is_digit text.now }
{
    for digit in text {
        if *digit < b'0' || *digit > b'9' {
            return false;
        }
    }
    true
}

/// Reads a number of one to `most` decimal digits, leading zeros counted, with a value of at most `limit`. None exactly where the
/// text is no such number.
#[tactic(auto, unfolding(crate::specs::Numbers::number_of))]
pub fn number(most: usize, limit: u32, text: &[u8]) -> Option<u32>
    requires { most ≤ 10 }
    ensures value { result ≡ number_of most limit text.now }
    ensures bound { IfSome result (λ n. n ≤ limit) }
{
    if text.is_empty() || text.len() > most || !are_digits(text) {
        return None;
    }
    let value = value_of(text);
    if value > limit as u64 {
        return None;
    }
    Some(value as u32)
}

/// The value of a hexadecimal digit.
pub fn hex_digit(byte: u8) -> Option<u8>
    ensures value { result ≡ hex_digit_value byte }
    ensures bound { IfSome result (λ v. v < 16) }
{
    match byte {
        b'0'..=b'9' => Some(byte - b'0'),
        b'a'..=b'f' => Some(byte - b'a' + 10),
        b'A'..=b'F' => Some(byte - b'A' + 10),
        _ => None,
    }
}

/// Reads a number of one to `most` hexadecimal digits in either case, leading zeros counted. None exactly where the text is no such
/// number.
#[tactic(auto, unfolding(crate::specs::Numbers::hex_number_of))]
pub fn hex_number(most: usize, text: &[u8]) -> Option<u32>
    requires { most ≤ 8 }
    ensures { result ≡ hex_number_of most text.now }
{
    if text.is_empty() || text.len() > most {
        return None;
    }
    let mut value: u32 = 0;
    for byte in text {
        match hex_digit(*byte) {
            Some(digit) => value = value * 16 + digit as u32,
            None => return None,
        }
    }
    Some(value)
}

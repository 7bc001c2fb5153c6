//! Fields that blanks separate. A blank is a space or a tab.
ghost use Rattle.std.specs.Prelude.{◌≡◌, ◌≤◌, ◌<◌, IfNone, IfSome, [], ◌∷◌, length, drop};
ghost use Rattle.std.specs.List.{prefix_len};
ghost use Rattle.text_fields.specs.Fields.{after_field, ends_field, field, fields, is_blank, is_part, skip};

/// Whether a byte separates fields.
fn is_blank(byte: u8) -> bool
    ensures { result ≡ is_blank byte }
{
    byte == b' ' || byte == b'\t'
}

/// How many blanks stand at the front.
#[tactic(auto, using(crate::proofs::Prefixes::prefix_more, crate::proofs::Prefixes::prefix_stop))]
fn blank_count(text: &[u8]) -> usize
    ensures value { result ≡ prefix_len is_blank text.now }
    ensures bound { result ≤ length text.now }
{
    let mut count = 0;
    for byte in text {
        if !is_blank(*byte) {
            return count;
        }
        count += 1;
    }
    count
}

/// How many bytes the field at the front has.
#[tactic(auto, using(crate::proofs::Prefixes::prefix_more, crate::proofs::Prefixes::prefix_stop))]
fn part_count(text: &[u8]) -> usize
    ensures value { result ≡ prefix_len is_part text.now }
    ensures bound { result ≤ length text.now }
{
    let mut count = 0;
    for byte in text {
        if is_blank(*byte) {
            return count;
        }
        count += 1;
    }
    count
}

/// The text without the blanks at its front.
#[tactic(auto, unfolding(crate::specs::Fields::skip))]
pub fn skip<'a>(text: &'a [u8]) -> &'a [u8]
    ensures value { result.now ≡ skip text.entry.now }
    ensures within { length result.now ≤ length text.entry.now }
{
    &text[blank_count(text)..]
}

/// The field at the front of a text, which is empty where the text is empty or begins with a blank.
#[tactic(auto, unfolding(crate::specs::Fields::field))]
pub fn field<'a>(text: &'a [u8]) -> &'a [u8]
    ensures { result.now ≡ field text.entry.now }
{
    &text[..part_count(text)]
}

/// What follows the field at the front and the blanks after it.
#[tactic(auto, unfolding(crate::specs::Fields::after_field))]
pub fn after_field<'a>(text: &'a [u8]) -> &'a [u8]
    ensures { result.now ≡ after_field text.entry.now }
{
    skip(&text[part_count(text)..])
}

/// Whether a field ends at the front of this text: the text is empty, or begins with a blank.
pub fn ends_field(text: &[u8]) -> bool
    ensures { result ≡ ends_field text.now }
{
    text.is_empty() || is_blank(text[0])
}

/// The first field of a text, and what follows it and its blanks. None exactly where the text has no field.
#[tactic(auto, using(crate::proofs::FieldSteps::first_field, crate::proofs::FieldSteps::no_field))]
pub fn cut_field<'a>(text: &'a [u8]) -> Option<(&'a [u8], &'a [u8])>
    ensures some { IfSome result (λ p. fields text.entry.now ≡ p.0.now ∷ fields p.1.now) }
    ensures nonempty { IfSome result (λ p. 0 < length text.entry.now) }
    ensures none { IfNone result (fields text.entry.now ≡ []) }
{
    let text = skip(text);
    if text.is_empty() {
        return None;
    }
    Some((field(text), after_field(text)))
}

//! Lines. A line feed ends a line, with a carriage return before it or not; the end of the text ends the last one.
ghost use Rattle.std.specs.Prelude.{◌≡◌, ◌≤◌, length, drop, ◌∷◌, option_map};
ghost use Rattle.std.specs.List.{prefix_len};
ghost use Rattle.text_fields.specs.Lines.{IsRest, is_inside, left_size, lines, lines_after, without_return};

/// A text from this place on.
pub(crate) fn text_from<'a>(text: &'a [u8], at: usize) -> &'a [u8]
    requires { at ≤ length text.now }
    ensures { result.now ≡ drop at text.entry.now }
{
    &text[at..]
}

/// How many bytes stand before the first line feed.
#[tactic(auto, using(crate::proofs::Prefixes::prefix_more, crate::proofs::Prefixes::prefix_stop))]
fn line_length(text: &[u8]) -> usize
    ensures value { result ≡ prefix_len is_inside text.now }
    ensures bound { result ≤ length text.now }
{
    let mut count = 0;
    for byte in text {
        if *byte == b'\n' {
            return count;
        }
        count += 1;
    }
    count
}

/// A line without one carriage return at its end.
#[tactic(auto, unfolding(crate::specs::Lines::without_return))]
fn trimmed_line<'a>(line: &'a [u8]) -> &'a [u8]
    ensures value { result.now ≡ without_return line.entry.now }
    ensures within { length result.now ≤ length line.entry.now }
{
    if !line.is_empty() && line[line.len() - 1] == b'\r' {
        &line[..line.len() - 1]
    } else {
        line
    }
}

/// The first line of a text, and what follows its line feed where it has one. A carriage return right before the line feed belongs to
/// the line's end.
#[tactic(auto, using(crate::proofs::Cuts::trimmed_last, crate::proofs::Cuts::trimmed_cut, crate::proofs::Cuts::rest_last, crate::proofs::Cuts::rest_cut))]
pub fn cut_line<'a>(text: &'a [u8]) -> (&'a [u8], Option<&'a [u8]>)
    ensures cut { lines text.entry.now ≡ result.0.now ∷ lines_after (option_map (λ r. r.now) result.1) }
    ensures rest { IsRest text.entry.now (option_map (λ r. r.now) result.1) }
    ensures within { length result.0.now ≤ length text.entry.now }
    ensures shorter { left_size (option_map (λ r. r.now) result.1) ≤ length text.entry.now }
{
    let end = line_length(text);
    if end == text.len() {
        (text, None)
    } else {
        let line = trimmed_line(&text[..end]);
        (line, Some(text_from(text, end + 1)))
    }
}

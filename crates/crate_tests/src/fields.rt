//! Lines, fields, numbers and quoted texts, as users write them.

use std::alloc::Global;
use text_fields::fields::{after_field, field, skip};
use text_fields::lines::cut_line;
use text_fields::numbers::number;
use text_fields::quoted::read_quoted;

/// Whether a text after its opening quote is no quoted text.
fn is_refused(alloc: Global, text: &[u8]) -> bool {
    match read_quoted(alloc, text) {
        Ok(None) => true,
        _ => false,
    }
}

/// Whether a text after its opening quote stands for these bytes, and is followed by this text.
fn stands_for(alloc: Global, text: &[u8], bytes: &[u8], rest: &[u8]) -> bool {
    match read_quoted(alloc, text) {
        Ok(Some((found, left))) => found.as_slice() == bytes && left == rest,
        _ => false,
    }
}

/// Whether the lines and fields of a text are cut where they end.
fn cuts_lines_and_fields() -> bool {
    let (line, rest) = cut_line(b" pin\t 5 \r\r\nend\r");
    let Some(left) = rest else {
        return false;
    };
    let (last, none) = cut_line(left);
    let first = field(skip(line)) == b"pin".as_slice()
        && after_field(skip(line)) == b"5 \r".as_slice();
    first && line == b" pin\t 5 \r".as_slice() && last == b"end\r".as_slice() && none.is_none()
}

#[test]
fn reads_quoted_texts(rt: HostRuntime) {
    let quoted: &[(&[u8], &[u8], &[u8])] = &[
        (b"\"", b"", b""),
        (b"A\\r\\n\\t\" x", b"A\r\n\t", b" x"),
        (b"\\\\\\\"~\"", b"\\\"~", b""),
        (b"\\x00\\xfF\"b", &[0, 255], b"b"),
    ];
    for &(text, bytes, rest) in quoted {
        assert!(&rt; stands_for(rt.alloc(), text, bytes, rest));
    }
}

#[test]
fn refuses_other_texts(rt: HostRuntime) {
    let refused: &[&[u8]] = &[b"ab", b"\t\"", b"\\q\"", b"\\x4\"", b"\x7f\"", b"\\"];
    for &text in refused {
        assert!(&rt; is_refused(rt.alloc(), text));
    }
}

#[test]
fn reads_numbers(rt: HostRuntime) {
    let numbers: &[(&[u8], Option<u32>)] = &[
        (b"0", Some(0)),
        (b"0000000012", Some(12)),
        (b"4294967295", Some(4_294_967_295)),
        (b"4294967296", None),
        (b"00000000012", None),
        (b"", None),
        (b"1x", None),
        (b"-1", None),
    ];
    for &(text, value) in numbers {
        assert!(&rt; number(10, u32::MAX, text) == value);
    }
}

#[test]
fn reads_lines_and_fields(rt: HostRuntime) {
    assert!(&rt; cuts_lines_and_fields());
}

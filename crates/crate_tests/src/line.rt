use text_line::Line;

#[test]
fn a_line_takes_texts_numbers_and_digits_up_to_128_bytes(rt: HostRuntime) {
    let mut line = Line::new();
    line.push(b"x");
    line.push_number(10);
    line.push(b" ");
    line.push_word(0x00c0_ffee);
    line.push(b" ");
    line.push_byte(0x0a);
    line.push(b" ");
    line.push_number(u64::MAX);
    line.push(b" ");
    line.push_bytes_hex(&[0x93, 0x00, 0x50, 0x00]);
    line.push(b"\n");
    let text = b"x10 00c0ffee 0a 18446744073709551615 93005000\n";
    assert!(&rt; line.as_slice() == text.as_slice());

    let mut full = Line::new();
    full.push(&[b'a'; 96]);
    full.push_bytes_hex(&[0xff; 16]);
    let text = full.as_slice();
    assert!(&rt; text.len() == 128 && text.ends_with(b"aaffffffffffffffffffffffffffffffff"));
}

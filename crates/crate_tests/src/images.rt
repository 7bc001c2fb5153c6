//! Images, as they are made and judged.

use image_tool::{ImageFault, check, sum, wrap};
use std::test::Fail;

const PAYLOAD: [u8; 8] = [0x93, 0, 0x50, 0, 0x6f, 0, 0, 0];

const IMAGE: [u8; 20] = [
    0xfe, 0xca, 0x88, 0x47, 8, 0, 0, 0, 0xfe, 0xfe, 0xaf, 0xff, 0x93, 0, 0x50, 0, 0x6f, 0, 0, 0,
];

#[test]
fn payloads_are_wrapped(rt: HostRuntime) -> Result<(), Fail> {
    let image = wrap(rt.alloc(), &PAYLOAD, 8)?;
    assert!(rt; image.as_slice() == IMAGE.as_slice());
    assert!(rt; sum(&PAYLOAD) == 0x0050_0102);
    assert!(rt; sum(&IMAGE[8..]) == 0);
    Ok(())
}

#[test]
fn payloads_are_padded(rt: HostRuntime) -> Result<(), Fail> {
    let image = wrap(rt.alloc(), &[1, 2, 3, 4, 5], 1024)?;
    let padded: &[u8] = &[
        0xfe, 0xca, 0x88, 0x47, 8, 0, 0, 0, 0xfa, 0xfd, 0xfc, 0xfb, 1, 2, 3, 4, 5, 0, 0, 0,
    ];
    assert!(rt; image.as_slice() == padded);
    Ok(())
}

#[test]
fn other_payloads_are_refused(rt: HostRuntime) {
    let alloc = rt.alloc();
    for (payload, room, found) in [
        ([].as_slice(), 1024, 0),
        (&PAYLOAD, 4, 8),
        (&IMAGE[..9], 8, 12),
    ] {
        let fault = ImageFault::Size { found };
        assert!(rt;
            wrap(alloc, payload, room).is_err_and(|e| e == fault),
            "{found} bytes"
        );
    }
}

/// The image with this byte at a place.
fn with_byte(place: usize, byte: u8) -> [u8; 20] {
    let mut bytes = IMAGE;
    if let Some(old) = bytes.get_mut(place) {
        *old = byte;
    }
    bytes
}

#[test]
fn images_with_another_byte_are_refused(rt: HostRuntime) {
    for &(place, byte, fault) in &[
        (19, 1, ImageFault::Checksum { sum: 0x0100_0000 }),
        (0, 0, ImageFault::Signature { found: 0x4788_ca00 }),
        (4, 6, ImageFault::Size { found: 6 }),
        (4, 0, ImageFault::Size { found: 0 }),
        (4, 12, ImageFault::Short { have: 20 }),
    ] {
        let found = check(&with_byte(place, byte), 65536);
        assert!(&rt; found == Err(fault), "byte {place} is {byte}");
    }
}

#[test]
fn images_are_accepted_and_other_lengths_refused(rt: HostRuntime) {
    assert!(&rt; check(&IMAGE, 65536) == Ok(8));
    assert!(&rt; check(&IMAGE, 4) == Err(ImageFault::Size { found: 8 }));
    for have in 0..20u32 {
        let bytes = &IMAGE[..have as usize];
        assert!(&rt; check(bytes, 65536) == Err(ImageFault::Short { have }));
    }
    let mut longer = [0; 21];
    longer[..20].copy_from_slice(&IMAGE);
    assert!(&rt; check(&longer, 65536) == Err(ImageFault::Extra { have: 21 }));
}

#[test]
fn no_other_byte_makes_an_image(rt: HostRuntime) {
    for place in 0..20 {
        for byte in 0..=255u8 {
            let accepted = check(&with_byte(place, byte), 65536).is_ok();
            assert!(&rt;
                accepted == (byte == IMAGE[place]),
                "byte {place} is {byte}"
            );
        }
    }
}

#[test]
fn a_whole_room_is_filled(rt: HostRuntime) -> Result<(), Fail> {
    let alloc = rt.alloc();
    let payload = vec![in alloc; 7u8; 65536]?;
    let mut image = wrap(alloc, &payload, 65536)?;
    assert!(rt; image.len() == 65548);
    assert!(rt; check(&image, 65536) == Ok(65536));
    image[4] = 4;
    assert!(rt; check(&image, 65536) == Err(ImageFault::Size { found: 65540 }));
    Ok(())
}

#[test]
fn faults_are_shown(rt: HostRuntime) -> Result<(), Fail> {
    let fault = ImageFault::Signature { found: 0x47 };
    assert!(rt; format!(in rt.alloc(); "{fault}")?.as_str() == "the signature is 00000047");
    Ok(())
}

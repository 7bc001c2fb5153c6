//! Images that the top call makes and checks, over files in memory.

use crate::given::{answers, shelf_of};
use bench_shelf::MemShelf;
use std::alloc::{AllocError, Global};
use std::thread::Threads;

/// What a call is given: the words, which blanks separate, the bytes of `p.bin` and of `c.toml`, and the numbers of the read, of the
/// write and of the text that fail, 0 for none.
#[derive(Clone, Copy)]
struct Case<'a> {
    words: &'a str,
    file: &'a [u8],
    chip: &'a [u8],
    failing_read: u64,
    failing_write: u64,
    failing_put: u64,
}

/// What a call comes to: its status, its text, and the bytes of `p.img` afterwards, which holds `old` before.
#[derive(Clone, Copy)]
struct Wanted<'a> {
    status: u8,
    text: &'a str,
    out: &'a [u8],
}

/// The image of two instructions, by its bytes.
const IMAGE: &[u8] = &[
    0xfe, 0xca, 0x88, 0x47, 0x08, 0, 0, 0, 0xfe, 0xfe, 0xaf, 0xff, 0x93, 0, 0x50, 0, 0x6f, 0, 0, 0,
];

/// The image of the bytes 1 to 5.
const FIVE: &[u8] = &[
    0xfe, 0xca, 0x88, 0x47, 0x08, 0, 0, 0, 0xfa, 0xfd, 0xfc, 0xfb, 1, 2, 3, 4, 5, 0, 0, 0,
];

/// What `p.img` holds before.
const OLD: &[u8] = b"old";

fn image_shelf(alloc: Global, case: &Case<'_>) -> Result<MemShelf, AllocError> {
    let files = [("p.bin", case.file), ("p.img", OLD), ("c.toml", case.chip)];
    shelf_of(alloc, &files, case.failing_read, case.failing_write)
}

/// Whether the files are the wanted ones, of which only `p.img` may have changed.
fn holds(shelf: &MemShelf, case: &Case<'_>, out: &[u8]) -> bool {
    shelf.file("p.img") == Some(out)
        && shelf.file("p.bin") == Some(case.file)
        && shelf.file("c.toml") == Some(case.chip)
}

/// Whether a call answers with what is wanted.
fn makes<R: Threads + Sync>(
    rt: &R,
    alloc: Global,
    case: &Case<'_>,
    wanted: &Wanted<'_>,
) -> Result<bool, AllocError> {
    let mut shelf = image_shelf(alloc, case)?;
    let told = answers(
        rt,
        alloc,
        case.words,
        &mut shelf,
        case.failing_put,
        wanted.status,
        wanted.text,
    )?;
    Ok(told && holds(&shelf, case, wanted.out))
}

/// A call in which nothing fails.
fn plain<'a>(words: &'a str, file: &'a [u8], chip: &'a [u8]) -> Case<'a> {
    Case {
        words,
        file,
        chip,
        failing_read: 0,
        failing_write: 0,
        failing_put: 0,
    }
}

/// Words, the payload, the chip file, the status, the text, and what `p.img` holds afterwards.
const IMAGES: &[(&str, &[u8], &[u8], u8, &str, &[u8])] = &[
    (
        "image p.bin p.img",
        &[0x93, 0, 0x50, 0, 0x6f, 0, 0, 0],
        b"",
        0,
        "image 8 ffaffefe\n",
        IMAGE,
    ),
    (
        "image p.bin p.img",
        &[1, 2, 3, 4, 5],
        b"",
        0,
        "image 8 fbfcfdfa\n",
        FIVE,
    ),
    (
        "image --chip c.toml p.bin p.img",
        &[1, 2, 3, 4, 5],
        b"imem = 4096\n",
        0,
        "image 8 fbfcfdfa\n",
        FIVE,
    ),
    (
        "image p.bin p.img",
        b"",
        b"imem = 1\n",
        4,
        "error image size 0\n",
        OLD,
    ),
    (
        "image p.bin p.img --chip c.toml",
        b"",
        b"imem = 1\n",
        6,
        "error chip range imem\n",
        OLD,
    ),
    (
        "image p.bin p.img --chip d.toml",
        b"",
        b"",
        3,
        "error read d.toml\n",
        OLD,
    ),
    (
        "image q.bin p.img --chip c.toml",
        b"",
        b"",
        3,
        "error read q.bin\n",
        OLD,
    ),
];

#[test]
fn makes_images(rt: HostRuntime) -> Result<(), AllocError> {
    for &(words, file, chip, status, text, out) in IMAGES {
        let wanted = Wanted { status, text, out };
        assert!(&rt;
            makes(&rt, rt.alloc(), &plain(words, file, chip), &wanted)?,
            "{words} {text}"
        );
    }
    Ok(())
}

/// Whether a payload of so many zero bytes is refused with this status and text.
fn refuses_zeros<R: Threads + Sync>(
    rt: &R,
    alloc: Global,
    words: &str,
    count: usize,
    status: u8,
    text: &str,
) -> Result<bool, AllocError> {
    let file = vec![in alloc; 0u8; count]?;
    let wanted = Wanted {
        status,
        text,
        out: OLD,
    };
    makes(rt, alloc, &plain(words, &file, b"imem = 4096\n"), &wanted)
}

/// Whether a payload of so many zero bytes is made an image with this line.
fn wraps_zeros<R: Threads + Sync>(
    rt: &R,
    alloc: Global,
    words: &str,
    count: usize,
    text: &str,
) -> Result<bool, AllocError> {
    let file = vec![in alloc; 0u8; count]?;
    let mut shelf = image_shelf(alloc, &plain("", &file, b"imem = 4096\n"))?;
    answers(rt, alloc, words, &mut shelf, 0, 0, text)
}

/// Words, the count of zero bytes of a payload, the status and the text.
const REFUSED_SIZES: &[(&str, usize, u8, &str)] = &[
    (
        "image p.bin p.img --chip c.toml",
        4_097,
        4,
        "error image size 4100\n",
    ),
    (
        "image p.bin p.img",
        1_048_577,
        4,
        "error image size 1048580\n",
    ),
    (
        "image p.bin p.img",
        2_097_152,
        4,
        "error image size 2097152\n",
    ),
    ("image p.bin p.img", 2_097_153, 3, "error long p.bin\n"),
];

/// Words, the count of zero bytes of a payload and the text.
const SIZES: &[(&str, usize, &str)] = &[
    (
        "image p.bin p.img --chip c.toml",
        4_093,
        "image 4096 00000000\n",
    ),
    ("image p.bin p.img", 1_048_573, "image 1048576 00000000\n"),
];

#[test]
fn limits_payloads(rt: HostRuntime) -> Result<(), AllocError> {
    for &(words, count, status, text) in REFUSED_SIZES {
        assert!(&rt;
            refuses_zeros(&rt, rt.alloc(), words, count, status, text)?,
            "{text}"
        );
    }
    for &(words, count, text) in SIZES {
        assert!(&rt; wraps_zeros(&rt, rt.alloc(), words, count, text)?, "{text}");
    }
    Ok(())
}

/// The numbers of the read, the write and the text that fail, the status, the text, and what `p.img` holds afterwards.
const FAILURES: &[((u64, u64, u64), u8, &str, &[u8])] = &[
    ((0, 1, 0), 7, "", OLD),
    ((0, 0, 1), 7, "", IMAGE),
    ((0, 2, 2), 0, "image 8 ffaffefe\n", IMAGE),
    ((1, 0, 0), 3, "error read p.bin\n", OLD),
];

#[test]
fn tells_failures_of_images(rt: HostRuntime) -> Result<(), AllocError> {
    for &(failing, status, text, out) in FAILURES {
        let case = Case {
            words: "image p.bin p.img",
            file: &[0x93, 0, 0x50, 0, 0x6f, 0, 0, 0],
            chip: &[],
            failing_read: failing.0,
            failing_write: failing.1,
            failing_put: failing.2,
        };
        let wanted = Wanted { status, text, out };
        assert!(&rt; makes(&rt, rt.alloc(), &case, &wanted)?, "{text}");
    }
    Ok(())
}

/// The bytes of the image with one byte changed, of which so many are left, or more with zero bytes behind.
fn changed(alloc: Global, place: usize, byte: u8, count: usize) -> Result<Vec<u8>, AllocError> {
    let mut image = Vec::from_slice(alloc, IMAGE)?;
    if place < image.len() {
        image[place] = byte;
    }
    image.resize(count, 0)?;
    Ok(image)
}

/// The place and the value of a byte that is changed, the count of bytes, the status and the text.
const CHANGES: &[(usize, u8, usize, u8, &str)] = &[
    (0, 0xfe, 20, 0, "image 8 ffaffefe\n"),
    (19, 1, 20, 4, "error image checksum 01000000\n"),
    (0, 0xfe, 21, 4, "error image extra 21\n"),
    (0, 0xfe, 19, 4, "error image short 19\n"),
    (0, 0xfe, 11, 4, "error image short 11\n"),
    (0, 0xfe, 0, 4, "error image short 0\n"),
    (0, 0, 20, 4, "error image signature 4788ca00\n"),
    (4, 6, 20, 4, "error image size 6\n"),
    (4, 0, 20, 4, "error image size 0\n"),
    (6, 0x10, 20, 4, "error image size 1048584\n"),
    (6, 1, 20, 4, "error image short 20\n"),
];

/// Words, the place and the value of a byte that is changed, the chip file, the status and the text.
const CHECKS: &[(&str, usize, u8, &[u8], u8, &str)] = &[
    (
        "check --chip c.toml p.bin",
        5,
        0x10,
        b"imem = 4096\n",
        4,
        "error image size 4104\n",
    ),
    (
        "check --chip c.toml p.bin",
        5,
        0x10,
        b"imem = 8192\n",
        4,
        "error image short 20\n",
    ),
    (
        "check p.bin --chip=c.toml",
        0,
        0,
        b"imem = true\n",
        6,
        "error chip key\n",
    ),
    ("check q.bin", 0, 0, b"", 3, "error read q.bin\n"),
];

#[test]
fn checks_images(rt: HostRuntime) -> Result<(), AllocError> {
    for &(place, byte, count, status, text) in CHANGES {
        let file = changed(rt.alloc(), place, byte, count)?;
        let wanted = Wanted {
            status,
            text,
            out: OLD,
        };
        assert!(&rt;
            makes(&rt, rt.alloc(), &plain("check p.bin", &file, b""), &wanted)?,
            "{text}"
        );
    }
    for &(words, place, byte, chip, status, text) in CHECKS {
        let file = changed(rt.alloc(), place, byte, 20)?;
        let wanted = Wanted {
            status,
            text,
            out: OLD,
        };
        assert!(&rt;
            makes(&rt, rt.alloc(), &plain(words, &file, chip), &wanted)?,
            "{text}"
        );
    }
    Ok(())
}

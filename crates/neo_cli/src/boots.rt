//! The three ways in which core 0 begins, over files in memory.

use crate::given::{answers, shelf_of};
use crate::sessions::{
    BAD_SUM_AND_SIZE, CUT_SHORT, DIRECT_RUN, NO_SIGNATURE, SIGNATURE_REFUSED, SUM_AND_SIZE_REFUSED,
    UPLOAD, UPLOADED,
};
use std::alloc::{AllocError, Global};
use std::thread::Threads;

/// The image of two instructions, by its bytes: addi x1, x0, 5; jal x0, 0
const IMAGE: &[u8] = &[
    0xfe, 0xca, 0x88, 0x47, 0x08, 0, 0, 0, 0xfe, 0xfe, 0xaf, 0xff, 0x93, 0, 0x50, 0, 0x6f, 0, 0, 0,
];

/// The image without its last byte.
const IMAGE_CUT: &[u8] = &[
    0xfe, 0xca, 0x88, 0x47, 0x08, 0, 0, 0, 0xfe, 0xfe, 0xaf, 0xff, 0x93, 0, 0x50, 0, 0x6f, 0, 0,
];

/// Whether a run over these bytes of `p.img` and this script answers with this status and text.
fn boots<'a, R: Threads + Sync>(
    rt: &R,
    alloc: Global,
    words: &str,
    image: &'a [u8],
    script: &'a str,
    status: u8,
    text: &str,
) -> Result<bool, AllocError> {
    let files = [
        ("p.img", image),
        ("fast.toml", b"baud = 0\n".as_slice()),
        ("up.txt", script.as_bytes()),
    ];
    let mut shelf = shelf_of(alloc, &files, 0, 0)?;
    answers(rt, alloc, words, &mut shelf, 0, status, text)
}

/// Words, the file, the status and the text.
const BEGINNINGS: &[(&str, &[u8], u8, &str)] = &[
    ("run p.img 10 --boot direct", IMAGE, 0, DIRECT_RUN),
    ("run p.img 0 --boot direct", b"", 4, "error image short 0\n"),
    (
        "run p.img 0 --boot raw",
        b"",
        0,
        "cycles 0\nboot raw\nhart 0 ready pc 00000000 retired 0\nend\n",
    ),
    (
        "run p.img 0",
        b"",
        0,
        "cycles 0\nboot monitor\nhart 0 monitor pc 00000000 retired 0\nend\n",
    ),
    (
        "run p.img 5 --boot direct --chip fast.toml",
        IMAGE_CUT,
        4,
        "error image short 19\n",
    ),
];

#[test]
fn begins_with_a_file(rt: HostRuntime) -> Result<(), AllocError> {
    for &(words, image, status, text) in BEGINNINGS {
        assert!(&rt;
            boots(&rt, rt.alloc(), words, image, "", status, text)?,
            "{words} {text}"
        );
    }
    Ok(())
}

/// Words, the file, the script and the report.
const UPLOADS: &[(&str, &[u8], &str, &str)] = &[
    (
        "run p.img 1300 --chip fast.toml --script up.txt",
        IMAGE,
        UPLOAD,
        UPLOADED,
    ),
    (
        "run p.img 1300 --chip fast.toml --script up.txt --boot monitor --groups each",
        IMAGE_CUT,
        UPLOAD,
        CUT_SHORT,
    ),
    (
        "run p.img 10000 --chip fast.toml --script up.txt",
        IMAGE,
        NO_SIGNATURE,
        SIGNATURE_REFUSED,
    ),
    (
        "run p.img 10000 --chip fast.toml --script up.txt",
        IMAGE,
        BAD_SUM_AND_SIZE,
        SUM_AND_SIZE_REFUSED,
    ),
];

/// The monitor hands over where the upload before `e` held, and nowhere else.
#[test]
fn uploads_and_executes(rt: HostRuntime) -> Result<(), AllocError> {
    for &(words, image, script, text) in UPLOADS {
        assert!(&rt;
            boots(&rt, rt.alloc(), words, image, script, 0, text)?,
            "{words}"
        );
    }
    Ok(())
}

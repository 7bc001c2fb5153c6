//! The files of the debugger's sessions: which of them is refused first.

use crate::given::{add_file, answers, files_of};
use crate::programs::STORE_FIVE;
use crate::tests::bytes_of;
use bench_shelf::MemShelf;
use std::alloc::{AllocError, Global};
use std::thread::Threads;

/// Faulty files of each kind, and a file of commands.
const FILES: &[(&str, &[u8])] = &[
    ("bad.toml", b"imem = 1\n"),
    ("bad.script", b"zig\n"),
    ("bad.txt", b"cont\njump 4\n"),
    ("d.txt", b"cont\n"),
];

/// One file more, of so many bytes that are all the same.
fn add_bytes(
    alloc: Global,
    files: &mut Vec<(String, Vec<u8>)>,
    name: &str,
    byte: u8,
    count: usize,
) -> Result<(), AllocError> {
    let bytes = vec![in alloc; byte; count]?;
    add_file(alloc, files, name, &bytes)
}

/// A program.
fn add_program(alloc: Global, files: &mut Vec<(String, Vec<u8>)>) -> Result<(), AllocError> {
    let bytes = bytes_of(alloc, STORE_FIVE)?;
    add_file(alloc, files, "prog.bin", &bytes)
}

/// A program, a file that the standard IMEM has no room for, faulty files of each kind, and files of commands, two of them with as many
/// bytes as are read and with one more. The read of this number fails, 0 for none.
fn debug_shelf(alloc: Global, failing_read: u64) -> Result<MemShelf, AllocError> {
    let mut files = files_of(alloc, FILES)?;
    add_program(alloc, &mut files)?;
    add_bytes(alloc, &mut files, "big.bin", 0, 65_537)?;
    add_bytes(alloc, &mut files, "full.txt", b'\n', 65_536)?;
    add_bytes(alloc, &mut files, "long.txt", b'\n', 65_537)?;
    let failing = vec![in alloc; failing_read]?;
    Ok(MemShelf::new(alloc, files, failing, Vec::new(alloc)))
}

/// Whether a call answers with this status and text, where the read and the text of these numbers fail, 0 for none.
fn debugs<R: Threads + Sync>(
    rt: &R,
    alloc: Global,
    words: &str,
    failing: (u64, u64),
    status: u8,
    text: &str,
) -> Result<bool, AllocError> {
    let mut shelf = debug_shelf(alloc, failing.0)?;
    answers(rt, alloc, words, &mut shelf, failing.1, status, text)
}

/// Words, the status and the text.
const ORDERS: &[(&str, u8, &str)] = &[
    (
        "debug none.bin 10 none.txt --boot raw --chip bad.toml",
        6,
        "error chip range imem\n",
    ),
    (
        "debug none.bin 10 none.txt --boot raw",
        3,
        "error read none.bin\n",
    ),
    (
        "debug big.bin 10 none.txt --boot raw",
        4,
        "error image size 65537\n",
    ),
    (
        "debug prog.bin 10 none.txt --boot direct",
        4,
        "error image signature 00500093\n",
    ),
    (
        "debug prog.bin 10 bad.txt --boot raw --script none.script",
        3,
        "error read none.script\n",
    ),
    (
        "debug prog.bin 10 none.txt --boot raw --script bad.script",
        5,
        "error script line 1 word\n",
    ),
    (
        "debug prog.bin 10 none.txt --boot raw",
        3,
        "error read none.txt\n",
    ),
    (
        "debug prog.bin 10 long.txt --boot raw",
        3,
        "error long long.txt\n",
    ),
    (
        "debug prog.bin 10 bad.txt --boot raw",
        10,
        "error debug line 2\n",
    ),
    ("debug prog.bin 10 full.txt --boot raw", 0, "end\n"),
];

#[test]
fn refuses_the_first_file(rt: HostRuntime) -> Result<(), AllocError> {
    for &(words, status, text) in ORDERS {
        assert!(&rt;
            debugs(&rt, rt.alloc(), words, (0, 0), status, text)?,
            "{words}"
        );
    }
    Ok(())
}

/// Words that give no session.
const NO_SESSIONS: &[&str] = &[
    "debug prog.bin 10 --boot raw",
    "debug prog.bin 10 d.txt d.txt --boot raw",
    "debug prog.bin 4294967296 d.txt --boot raw",
    "debug prog.bin 10 d.txt --boot raw --part lop",
    "debug prog.bin 10 d.txt --boot raw --groups hub,hub",
];

#[test]
fn refuses_words_of_sessions(rt: HostRuntime) -> Result<(), AllocError> {
    for words in NO_SESSIONS {
        assert!(&rt;
            debugs(&rt, rt.alloc(), words, (0, 0), 2, "error usage\n")?,
            "{words}"
        );
    }
    Ok(())
}

/// The numbers of the read and of the text that fail, the status and the text.
const FAULTS: &[((u64, u64), u8, &str)] = &[
    ((2, 0), 3, "error read d.txt\n"),
    ((0, 1), 7, ""),
    ((0, 2), 7, "stop 10 bound\n"),
    ((0, 0), 0, "stop 10 bound\nend\n"),
];

/// A read of the commands that fails, and each text of a session.
#[test]
fn tells_faults_of_sessions(rt: HostRuntime) -> Result<(), AllocError> {
    for &(failing, status, text) in FAULTS {
        assert!(&rt;
            debugs(
                &rt,
                rt.alloc(),
                "debug --boot=raw -- prog.bin 10 d.txt",
                failing,
                status,
                text
            )?,
            "{text}"
        );
    }
    Ok(())
}

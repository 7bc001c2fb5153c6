//! Runs of the top call over files and text in memory.

use crate::given::{answers, answers_no_words, shelf_of};
use crate::programs::{
    CLEAR_PENDING, CLEARED_PENDING, COPIED_NOTHING, COPIED_TWO, COPY_NOWHERE, COPY_TWO, EBREAK,
    EBREAK_START, EBREAK_TRAPS, EMPTY, EMPTY_START, EMPTY_TRAPS, HEAR, HEAR_HEARD, HEAR_QUICK,
    HEAR_SCRIPT, HEAR_STANDARD, LIGHT, LIGHT_OFF, LIGHT_ON, PARCELS, PARCELS_RUN, SEND_A,
    SEND_A_LONG, SEND_A_SENDING, SEND_A_SENT, SEND_BY_BOTH, SEND_BY_UART1, SENT_BY_BOTH,
    SENT_BY_UART1, SLEEP_TO_32, SLEEP_TO_32_ASLEEP, SLEEP_TO_32_AWAKE, START_SECOND,
    START_SECOND_RUN, STORE_FIVE, STORE_FIVE_RUN, STORE_FIVE_START, TOGGLE_LATE, TOGGLED_LATE,
    VECTORED, VECTORED_RUN,
};
use std::alloc::{AllocError, Global};
use std::thread::Threads;

/// What a call is given: the words, which blanks separate, the bytes of `chip.toml` and `up.txt`, and the numbers of the read and of the
/// text that fail, 0 for none.
#[derive(Clone, Copy)]
struct Case<'a> {
    words: &'a str,
    chip: &'a [u8],
    script: &'a [u8],
    failing_read: u64,
    failing_put: u64,
}

/// The bytes of words, low byte first.
pub fn bytes_of(alloc: Global, words: &[u32]) -> Result<Vec<u8>, AllocError> {
    let mut bytes = Vec::new(alloc);
    for word in words {
        bytes.extend_from_slice(&word.to_le_bytes())?;
    }
    Ok(bytes)
}

fn zero_bytes(alloc: Global, count: usize) -> Result<Vec<u8>, AllocError> {
    vec![in alloc; 0u8; count]
}

/// Whether a call over these bytes of `prog.bin` answers with this status and text.
fn reports<R: Threads + Sync>(
    rt: &R,
    alloc: Global,
    file: &[u8],
    case: &Case<'_>,
    status: u8,
    text: &str,
) -> Result<bool, AllocError> {
    let files = [
        ("prog.bin", file),
        ("chip.toml", case.chip),
        ("up.txt", case.script),
    ];
    let mut shelf = shelf_of(alloc, &files, case.failing_read, 0)?;
    answers(
        rt,
        alloc,
        case.words,
        &mut shelf,
        case.failing_put,
        status,
        text,
    )
}

/// Whether a run of these program words answers with this status and text.
fn runs<R: Threads + Sync>(
    rt: &R,
    alloc: Global,
    program: &[u32],
    case: &Case<'_>,
    status: u8,
    text: &str,
) -> Result<bool, AllocError> {
    let bytes = bytes_of(alloc, program)?;
    reports(rt, alloc, &bytes, case, status, text)
}

/// Whether a call over so many zero bytes of `prog.bin` answers with this status and text.
fn refuses<R: Threads + Sync>(
    rt: &R,
    alloc: Global,
    count: usize,
    case: &Case<'_>,
    status: u8,
    text: &str,
) -> Result<bool, AllocError> {
    let file = zero_bytes(alloc, count)?;
    reports(rt, alloc, &file, case, status, text)
}

/// Whether a call over files of so many zero bytes answers with this status and text.
fn limits<R: Threads + Sync>(
    rt: &R,
    alloc: Global,
    words: &str,
    counts: [usize; 3],
    failing_put: u64,
    status: u8,
    text: &str,
) -> Result<bool, AllocError> {
    let chip = zero_bytes(alloc, counts[1])?;
    let script = zero_bytes(alloc, counts[2])?;
    let case = Case {
        words,
        chip: &chip,
        script: &script,
        failing_read: 0,
        failing_put,
    };
    refuses(rt, alloc, counts[0], &case, status, text)
}

/// A call in which nothing fails.
fn plain<'a>(words: &'a str, chip: &'a [u8], script: &'a [u8]) -> Case<'a> {
    Case {
        words,
        chip,
        script,
        failing_read: 0,
        failing_put: 0,
    }
}

/// Words, a program and its report.
const RUNS: &[(&str, &[u32], &str)] = &[
    ("run prog.bin 100 --boot raw", STORE_FIVE, STORE_FIVE_RUN),
    ("run prog.bin 0 --boot raw", STORE_FIVE, STORE_FIVE_START),
    ("run prog.bin 0 --boot raw", EBREAK, EBREAK_START),
    ("run prog.bin 1 --boot raw", EBREAK, EBREAK_TRAPS),
    ("run prog.bin 12 --boot raw", EMPTY, EMPTY_TRAPS),
    ("run prog.bin 63 --boot raw", SEND_A, SEND_A_SENT),
    ("run prog.bin 62 --boot raw", SEND_A, SEND_A_SENDING),
    ("run prog.bin 5000 --boot raw", SEND_A, SEND_A_LONG),
    ("run prog.bin 63 --boot raw", SEND_BY_UART1, SENT_BY_UART1),
    ("run prog.bin 30 --boot raw", COPY_TWO, COPIED_TWO),
    ("run prog.bin 40 --boot raw", COPY_NOWHERE, COPIED_NOTHING),
    ("run prog.bin 20 --boot raw", PARCELS, PARCELS_RUN),
    ("run prog.bin 20 --boot raw", VECTORED, VECTORED_RUN),
    ("run prog.bin 30 --boot raw", START_SECOND, START_SECOND_RUN),
    ("run prog.bin 16 --boot raw", LIGHT, LIGHT_ON),
    ("run prog.bin 15 --boot raw", LIGHT, LIGHT_OFF),
    (
        "run prog.bin 31 --boot raw",
        SLEEP_TO_32,
        SLEEP_TO_32_ASLEEP,
    ),
    ("run prog.bin 40 --boot raw", SLEEP_TO_32, SLEEP_TO_32_AWAKE),
    ("run prog.bin 5617 --boot raw", TOGGLE_LATE, TOGGLED_LATE),
];

/// Words, a program, a chip file, a script and the report.
const RUNS_OF_FILES: &[(&str, &[u32], &[u8], &[u8], &str)] = &[
    (
        "run prog.bin 200 --boot raw --chip chip.toml --script up.txt",
        HEAR,
        b"imem = 4096\n[delay]\nuart0 = 8\n",
        HEAR_SCRIPT,
        HEAR_HEARD,
    ),
    (
        "run --script=up.txt --groups each --boot raw prog.bin 150",
        HEAR,
        b"",
        HEAR_SCRIPT,
        HEAR_STANDARD,
    ),
    (
        "run prog.bin 150 --chip=chip.toml --boot raw --script up.txt",
        HEAR,
        b"[delay]\nuart0 = 8\n",
        HEAR_SCRIPT,
        HEAR_QUICK,
    ),
    (
        "run prog.bin 70 --boot raw --chip chip.toml",
        SEND_BY_BOTH,
        b"[delay]\nuart1 = 27\n",
        b"",
        SENT_BY_BOTH,
    ),
    (
        "run prog.bin 40 --boot raw --script up.txt",
        CLEAR_PENDING,
        b"",
        b"pin 4 3 1\npin 5 5 1\n",
        CLEARED_PENDING,
    ),
];

#[test]
fn reports_runs(rt: HostRuntime) -> Result<(), AllocError> {
    for &(words, program, text) in RUNS {
        let case = plain(words, b"", b"");
        assert!(&rt; runs(&rt, rt.alloc(), program, &case, 0, text)?, "{words}");
    }
    Ok(())
}

#[test]
fn reports_runs_of_files(rt: HostRuntime) -> Result<(), AllocError> {
    for &(words, program, chip, script, text) in RUNS_OF_FILES {
        let case = plain(words, chip, script);
        assert!(&rt; runs(&rt, rt.alloc(), program, &case, 0, text)?, "{words}");
    }
    Ok(())
}

/// Words, a program, the numbers of the read and of the text that fail, the status and the text.
const FAULTS: &[(&str, &[u32], u64, u64, u8, &str)] = &[
    (
        "run prog.bin 100 --boot raw",
        SEND_A,
        0,
        2,
        7,
        "cycles 100\n",
    ),
    (
        "run prog.bin 100 --boot raw",
        SEND_A,
        0,
        3,
        7,
        "cycles 100\n62 uart0 tx 41\n",
    ),
    (
        "run prog.bin 100 --boot raw",
        SEND_A,
        1,
        0,
        3,
        "error read prog.bin\n",
    ),
    ("run prog.bin 100 --boot raw", SEND_A, 1, 1, 3, ""),
    (
        "run prog.bin 100 --boot raw",
        STORE_FIVE,
        0,
        3,
        7,
        "cycles 100\nboot raw\n",
    ),
    (
        "run prog.bin 5617 --boot raw",
        TOGGLE_LATE,
        0,
        3,
        7,
        "cycles 5617\n12 gpio out 00000001\n",
    ),
    (
        "run other.bin 0 --boot raw",
        EBREAK,
        0,
        0,
        3,
        "error read other.bin\n",
    ),
];

/// A text that fails, also in the midst of a run of more than one stretch, and a read that fails.
#[test]
fn tells_faults(rt: HostRuntime) -> Result<(), AllocError> {
    for &(words, program, failing_read, failing_put, status, text) in FAULTS {
        let case = Case {
            words,
            chip: &[],
            script: &[],
            failing_read,
            failing_put,
        };
        assert!(&rt;
            runs(&rt, rt.alloc(), program, &case, status, text)?,
            "{text}"
        );
    }
    Ok(())
}

/// Words, the counts of zero bytes of the three files, the number of the text that fails, the status and the text.
const LIMITS: &[(&str, [usize; 3], u64, u8, &str)] = &[
    ("run prog.bin 0 --boot raw", [0, 0, 0], 0, 0, EMPTY_START),
    (
        "run prog.bin 0 --boot raw",
        [65_536, 0, 0],
        0,
        0,
        EMPTY_START,
    ),
    (
        "run prog.bin 0 --boot raw",
        [65_537, 0, 0],
        0,
        4,
        "error image size 65537\n",
    ),
    ("run prog.bin 100 --boot raw", [65_537, 0, 0], 1, 4, ""),
    (
        "run prog.bin 0 --boot raw",
        [2_097_152, 0, 0],
        0,
        4,
        "error image size 2097152\n",
    ),
    (
        "run prog.bin 0 --boot raw",
        [2_097_153, 0, 0],
        0,
        3,
        "error long prog.bin\n",
    ),
    (
        "run other.bin 0 --boot raw --chip chip.toml --script up.txt",
        [0, 65_536, 1],
        0,
        6,
        "error chip toml\n",
    ),
    (
        "run other.bin 0 --boot raw --chip chip.toml --script up.txt",
        [0, 65_537, 1],
        0,
        3,
        "error long chip.toml\n",
    ),
    (
        "run prog.bin 0 --boot raw --script up.txt",
        [0, 0, 1_048_576],
        0,
        5,
        "error script line 1 word\n",
    ),
    (
        "run prog.bin 0 --boot raw --script up.txt",
        [0, 0, 1_048_577],
        0,
        3,
        "error long up.txt\n",
    ),
];

#[test]
fn limits_files(rt: HostRuntime) -> Result<(), AllocError> {
    for &(words, counts, failing_put, status, text) in LIMITS {
        assert!(&rt;
            limits(&rt, rt.alloc(), words, counts, failing_put, status, text)?,
            "{text}"
        );
    }
    Ok(())
}

/// Words that give no job.
const NO_JOBS: &[&str] = &[
    "",
    "run prog.bin 100 --boot",
    "run prog.bin 100 --boot raw raw",
    "walk prog.bin 100 --boot raw",
    "image prog.bin",
    "image prog.bin up.txt up.txt",
    "check",
    "check prog.bin --boot raw",
    "run prog.bin 100 --boot other",
    "run prog.bin",
    "run prog.bin 10 --boot raw --groups hub,hub",
    "run prog.bin 10 --boot raw --chip",
    "run prog.bin 10 --boot raw --part lop",
    "run prog.bin  --boot raw",
    "run prog.bin 1x --boot raw",
    "run prog.bin -1 --boot raw",
    "run prog.bin +1 --boot raw",
    "run prog.bin 4294967296 --boot raw",
    "run prog.bin 00000000001 --boot raw",
];

#[test]
fn refuses_words(rt: HostRuntime) -> Result<(), AllocError> {
    for words in NO_JOBS {
        let case = plain(words, b"", b"");
        assert!(&rt;
            reports(&rt, rt.alloc(), &[], &case, 2, "error usage\n")?,
            "{words}"
        );
    }
    assert!(&rt; answers_no_words(&rt, rt.alloc(), 2, "error usage\n"));
    Ok(())
}

/// Chip files that are refused, and the text.
const CHIP_FAULTS: &[(&[u8], &str)] = &[
    (b"[delay]\nuart0 = 4097\n", "error chip range delay.uart0\n"),
    (b"imem = 5000\n", "error chip range imem\n"),
    (b"imm = 1\n", "error chip key\n"),
    (b"flash = 1\n", "error chip key\n"),
    (b"imem = 5000\ndmem = true\n", "error chip key\n"),
    (b"imem\n", "error chip toml\n"),
    (b"# \xff\n", "error chip toml\n"),
];

/// Scripts that are refused, and the text.
const SCRIPT_FAULTS: &[(&[u8], &str)] = &[
    (
        b"# pins\npin 5 32 1\nuart0 jump\n",
        "error script line 2 pin\n",
    ),
    (b"uart0 jump\n", "error script line 1 word\n"),
    (b"pin x 32 1\n", "error script line 1 number\n"),
    (b"pin 5 1 1\n\npin 4 1 0\n", "error script line 3 order\n"),
    (b"uart1 hex 4\n", "error script line 1 hex\n"),
    (b"uart0 expect \"\"\n", "error script line 1 text\n"),
];

/// Words, a chip file, the number of the read that fails, the status and the text, where `prog.bin` has 65,537 bytes and the script is
/// faulty.
const FILE_FAULTS: &[(&str, &[u8], u64, u8, &str)] = &[
    (
        "run prog.bin 0 --boot raw --chip other.toml --script up.txt",
        b"",
        0,
        3,
        "error read other.toml\n",
    ),
    (
        "run other.bin 0 --boot raw --chip chip.toml --script up.txt",
        b"imem = 131072\n",
        0,
        3,
        "error read other.bin\n",
    ),
    (
        "run prog.bin 0 --boot raw --chip chip.toml --script up.txt",
        b"imem = 4096\n",
        0,
        4,
        "error image size 65537\n",
    ),
    (
        "run prog.bin 0 --boot raw --chip chip.toml --script other.txt",
        b"imem = 131072\n",
        0,
        3,
        "error read other.txt\n",
    ),
    (
        "run prog.bin 0 --boot raw --chip chip.toml --script up.txt",
        b"imem = 131072\n",
        1,
        3,
        "error read chip.toml\n",
    ),
    (
        "run prog.bin 0 --boot raw --chip chip.toml --script up.txt",
        b"imem = 131072\n",
        2,
        3,
        "error read prog.bin\n",
    ),
    (
        "run prog.bin 0 --boot raw --chip chip.toml --script up.txt",
        b"imem = 131072\n",
        3,
        3,
        "error read up.txt\n",
    ),
    (
        "run prog.bin 0 --boot raw --chip chip.toml --script up.txt",
        b"imem = 131072\n",
        0,
        5,
        "error script line 1 word\n",
    ),
];

/// The chip file goes before the image and the script.
#[test]
fn refuses_chip_files(rt: HostRuntime) -> Result<(), AllocError> {
    for &(chip, text) in CHIP_FAULTS {
        let words = "run other.bin 10 --boot raw --chip chip.toml --script up.txt";
        let case = plain(words, chip, b"jump");
        assert!(&rt; reports(&rt, rt.alloc(), &[], &case, 6, text)?, "{text}");
    }
    Ok(())
}

#[test]
fn refuses_scripts(rt: HostRuntime) -> Result<(), AllocError> {
    for &(script, text) in SCRIPT_FAULTS {
        let case = plain("run prog.bin 10 --boot raw --script up.txt", b"", script);
        assert!(&rt; reports(&rt, rt.alloc(), &[], &case, 5, text)?, "{text}");
    }
    Ok(())
}

/// The first file that is refused decides, in the order chip file, image, script.
#[test]
fn refuses_files(rt: HostRuntime) -> Result<(), AllocError> {
    for &(words, chip, failing_read, status, text) in FILE_FAULTS {
        let case = Case {
            words,
            chip,
            script: b"jump",
            failing_read,
            failing_put: 0,
        };
        assert!(&rt;
            refuses(&rt, rt.alloc(), 65_537, &case, status, text)?,
            "{words} {text}"
        );
    }
    Ok(())
}

//! Runs whose reports tell their last issues.

use crate::debugging::JUMP_TOGETHER;
use crate::given::{answers, shelf_of};
use crate::programs::{EBREAK, EMPTY, PARCELS, SEND_A, STORE_FIVE, STORE_FIVE_RUN};
use crate::tests::bytes_of;
use std::alloc::{AllocError, Global};
use std::thread::Threads;

const STORE_FIVE_TWO: &str = "cycles 100
boot raw
hart 0 run pc 0000000c retired 19
x1 00000005
x2 80000000
mem 00000000 9300500037010080232011006f000000
mem 80000000 05000000000000000000000000000000
trace 93 0 0000000c 0000006f jal x0, 0000000c
trace 99 0 0000000c 0000006f jal x0, 0000000c
end
";

/// All issues, compressed parcels among them.
const PARCELS_ALL: &str = "cycles 20
boot raw
hart 0 ready pc 0000000a retired 6
x10 ffffffff
x12 00000005
mem 00000000 01007d5501001306650001a000000000
trace 0 0 00000000 0001 addi x0, x0, 0
trace 2 0 00000002 557d addi x10, x0, -1
trace 4 0 00000004 0001 addi x0, x0, 0
trace 6 0 00000006 00650613 addi x12, x10, 6
trace 8 0 0000000a a001 jal x0, 0000000a
trace 14 0 0000000a a001 jal x0, 0000000a
end
";

/// Both harts issue in the cycles 27 and 33.
const TOGETHER: &str = "cycles 36
boot raw
hart 0 run pc 00000024 retired 11
x1 fffe0000
x2 00000040
x3 fff40000
x4 00000001
x5 fffe00b7
hart 1 run pc 00000040 retired 4
mem 00000000 b700feff1301000423a02010b701f4ff
mem 00000010 1302100023a241008322000013000000
mem 00000020 130000006f0000000000000000000000
mem 00000040 6f000000000000000000000000000000
trace 25 0 00000020 00000013 addi x0, x0, 0
trace 27 0 00000024 0000006f jal x0, 00000024
trace 27 1 00000040 0000006f jal x0, 00000040
trace 33 0 00000024 0000006f jal x0, 00000024
trace 33 1 00000040 0000006f jal x0, 00000040
end
";

const EBREAK_ONE: &str = "cycles 1
boot raw
hart 0 run pc 00000000 retired 0
mem 00000000 73001000000000000000000000000000
trace 0 0 00000000 00100073 ebreak
end
";

/// Issues that no instruction came of.
const EMPTY_TWO: &str = "cycles 12
boot raw
hart 0 ready pc 00000000 retired 0
trace 0 0 00000000 0000 illegal
trace 6 0 00000000 0000 illegal
end
";

const SEND_A_THREE: &str = "cycles 5000
62 uart0 tx 41
boot raw
hart 0 run pc 00000014 retired 836
x1 fff50000
x2 00000041
mem 00000000 b700f5ff1301100023a0200013011004
mem 00000010 23a220006f0000000000000000000000
trace 4984 0 00000014 0000006f jal x0, 00000014
trace 4990 0 00000014 0000006f jal x0, 00000014
trace 4996 0 00000014 0000006f jal x0, 00000014
end
";

/// addi x1, x1, 1; jal x0, -4
const COUNT_UP: &[u32] = &[0x0010_8093, 0xffdf_f06f];

/// The lines before the trace of 6,000 cycles, in which 1,500 instructions are issued.
const COUNT_UP_HEAD: &str = "cycles 6000
boot raw
hart 0 ready pc 00000000 retired 1500
x1 000002ee
mem 00000000 938010006ff0dfff0000000000000000
";

/// Appends the lines of both instructions, issued in these cycles.
fn push_turn(alloc: Global, text: &mut String, add: u32, jump: u32) -> Result<(), AllocError> {
    let lines = format!(in alloc;
        "trace {add} 0 00000000 00108093 addi x1, x1, 1\ntrace {jump} 0 00000004 ffdff06f jal x0, 00000000\n"
    )?;
    text.push_str(lines.as_str())
}

/// The report of 6,000 cycles with the last 1,000 issues, which begin with that of cycle 2000: both instructions are issued every eight cycles.
fn counted(alloc: Global) -> Result<String, AllocError> {
    let mut text = String::from_str(alloc, COUNT_UP_HEAD)?;
    for turn in 250..750u32 {
        push_turn(alloc, &mut text, 8 * turn, 8 * turn + 2)?;
    }
    text.push_str("end\n")?;
    Ok(text)
}

/// Whether a call over this program answers with this status and text.
fn traces<R: Threads + Sync>(
    rt: &R,
    alloc: Global,
    words: &str,
    program: &[u32],
    status: u8,
    text: &str,
) -> Result<bool, AllocError> {
    let program = bytes_of(alloc, program)?;
    let mut shelf = shelf_of(alloc, &[("prog.bin", program.as_slice())], 0, 0)?;
    answers(rt, alloc, words, &mut shelf, 0, status, text)
}

/// Words, a program and its report.
const TRACES: &[(&str, &[u32], &str)] = &[
    (
        "run prog.bin 100 --boot raw --trace 2",
        STORE_FIVE,
        STORE_FIVE_TWO,
    ),
    (
        "run --trace=0002 prog.bin 100 --boot raw --groups each",
        STORE_FIVE,
        STORE_FIVE_TWO,
    ),
    (
        "run prog.bin 100 --boot raw --trace 0",
        STORE_FIVE,
        STORE_FIVE_RUN,
    ),
    (
        "run prog.bin 20 --boot raw --trace 1000",
        PARCELS,
        PARCELS_ALL,
    ),
    (
        "run prog.bin 36 --boot raw --trace 5",
        JUMP_TOGETHER,
        TOGETHER,
    ),
    ("run prog.bin 1 --boot raw --trace 9", EBREAK, EBREAK_ONE),
    ("run prog.bin 12 --boot raw --trace 9", EMPTY, EMPTY_TWO),
    (
        "run prog.bin 5000 --boot raw --trace 3",
        SEND_A,
        SEND_A_THREE,
    ),
];

#[test]
fn tells_the_last_issues(rt: HostRuntime) -> Result<(), AllocError> {
    for &(words, program, text) in TRACES {
        assert!(&rt;
            traces(&rt, rt.alloc(), words, program, 0, text)?,
            "{words}"
        );
    }
    Ok(())
}

#[test]
fn tells_a_thousand_of_more(rt: HostRuntime) -> Result<(), AllocError> {
    let text = counted(rt.alloc())?;
    for words in [
        "run prog.bin 6000 --boot raw --trace 1000",
        "run prog.bin 6000 --boot raw --trace 1000 --groups each",
    ] {
        assert!(&rt;
            traces(&rt, rt.alloc(), words, COUNT_UP, 0, text.as_str())?,
            "{words}"
        );
    }
    Ok(())
}

/// A number of issues in another form, twice, or with another command.
const REFUSED_COUNTS: &[&str] = &[
    "run prog.bin 4 --boot raw --trace 1001",
    "run prog.bin 4 --boot raw --trace 00002",
    "run prog.bin 4 --boot raw --trace=",
    "run prog.bin 4 --boot raw --trace",
    "run prog.bin 4 --boot raw --trace +1",
    "run prog.bin 4 --boot raw --trace x",
    "run prog.bin 4 --boot raw --trace 1 --trace 1",
    "debug prog.bin 4 d.txt --boot raw --trace 1",
    "demo 7 --trace 1",
];

#[test]
fn refuses_counts(rt: HostRuntime) -> Result<(), AllocError> {
    for words in REFUSED_COUNTS {
        assert!(&rt;
            traces(&rt, rt.alloc(), words, STORE_FIVE, 2, "error usage\n")?,
            "{words}"
        );
    }
    Ok(())
}

//! Runs with a part at the stream link, over files in memory.
ghost use Rattle.std.specs.Prelude.{◌+◌, ◌%◌, ◌^◌};
ghost use Rattle.bench_parts.specs.Behave.{no_reply, word_reply};
ghost use Rattle.bench_parts.specs.Parts.{each_event};

use crate::given::{answers_with, shelf_of, sink_of, words_of};
use crate::{bench_with_parts, hand_in};
use bench_parts::{Loop, NamedPart, Part, PartEvent, PartReply};
use bench_shelf::MemShelf;
use std::alloc::{AllocError, Global};
use std::thread::Threads;

/// The link is enabled, passes the last word 1, and the reply is read: lui x1, 0xffec0; addi x2, x0, 1; sw x2, 0(x1); sw x2, 8(x1);
/// mul x4, x2, x2; lw x3, 4(x1); jal x0, 0
const PASS_ONE: &[u8] = &[
    0xb7, 0x00, 0xec, 0xff, 0x13, 0x01, 0x10, 0x00, 0x23, 0xa0, 0x20, 0x00, 0x23, 0xa4, 0x20, 0x00,
    0x33, 0x02, 0x21, 0x02, 0x83, 0xa1, 0x40, 0x00, 0x6f, 0x00, 0x00, 0x00,
];

/// The lines of the report of 60 cycles before that of x3.
const HEAD: &str = "cycles 60
17 slink last 00000001
boot raw
hart 0 run pc 00000018 retired 7
x1 ffec0000
x2 00000001
";

/// The lines after it.
const TAIL: &str = "x4 00000001
mem 00000000 b700ecff1301100023a0200023a42000
mem 00000010 3302210283a140006f00000000000000
end
";

/// The report of 60 cycles, with this line of x3.
fn report(alloc: Global, reply: &str) -> Result<String, AllocError> {
    let mut text = String::from_str(alloc, HEAD)?;
    text.push_str(reply)?;
    text.push_str(TAIL)?;
    Ok(text)
}

fn program_shelf(alloc: Global) -> Result<MemShelf, AllocError> {
    shelf_of(alloc, &[("prog.bin", PASS_ONE)], 0, 0)
}

/// Whether a call with the three parts answers with this status and text.
fn answers<R: Threads + Sync>(
    rt: &R,
    alloc: Global,
    words: &str,
    status: u8,
    text: &str,
) -> Result<bool, AllocError> {
    let words = words_of(alloc, words)?;
    let mut shelf = program_shelf(alloc)?;
    let mut out = sink_of(alloc, 0)?;
    let answer = bench_with_parts(rt, alloc, &words, &mut shelf, &mut out)?;
    Ok(answer == status && out.bytes() == text.as_bytes())
}

/// Whether a run with the three parts shows this line of x3.
fn replies<R: Threads + Sync>(
    rt: &R,
    alloc: Global,
    words: &str,
    reply: &str,
) -> Result<bool, AllocError> {
    let text = report(alloc, reply)?;
    answers(rt, alloc, words, 0, text.as_str())
}

/// Whether a run with these parts, of which one is named `mine`, shows this line of x3.
fn shows<R: Threads + Sync>(
    rt: &R,
    alloc: Global,
    parts: Vec<NamedPart>,
    reply: &str,
) -> Result<bool, AllocError> {
    let text = report(alloc, reply)?;
    let mut shelf = program_shelf(alloc)?;
    let words = "run prog.bin 60 --boot raw --part mine";
    answers_with(rt, alloc, words, &mut shelf, parts, 0, 0, text.as_str())
}

/// Words, and the line of x3.
const PARTS: &[(&str, &str)] = &[
    ("run prog.bin 60 --boot raw", ""),
    ("run prog.bin 60 --boot raw --part loop", "x3 00000001\n"),
    ("run prog.bin 60 --part=counter --boot raw", "x3 00000001\n"),
    (
        "run --part scramble prog.bin 60 --boot raw",
        "x3 5a5a5ada\n",
    ),
];

#[test]
fn attaches_the_three_parts(rt: HostRuntime) -> Result<(), AllocError> {
    for &(words, reply) in PARTS {
        assert!(&rt; replies(&rt, rt.alloc(), words, reply)?, "{words}");
    }
    Ok(())
}

/// Words that give no job.
const NO_PARTS: &[&str] = &[
    "run prog.bin 60 --boot raw --part lop",
    "run prog.bin 60 --boot raw --part=",
    "run prog.bin 60 --boot raw --part loop --part loop",
];

#[test]
fn refuses_other_parts(rt: HostRuntime) -> Result<(), AllocError> {
    for words in NO_PARTS {
        assert!(&rt;
            answers(&rt, rt.alloc(), words, 2, "error usage\n")?,
            "{words}"
        );
    }
    Ok(())
}

/// A part that never replies.
#[derive(Drop)]
struct Mute;

impl Part for Mute {
    ghost behave = { λ _. each_event (λ e. no_reply) };

    #[tactic(auto, using(bench_parts::proofs::Answering::answers_each))]
    fn on(&mut self, _ev: PartEvent) -> PartReply {
        PartReply {
            has: false,
            word: 0,
        }
    }
}

/// A part that replies to each event with its word and one more.
#[derive(Drop)]
struct OneMore;

impl Part for OneMore {
    ghost behave = { λ _. each_event (λ e. word_reply ((e.word + 1) % 2 ^ 32)) };

    #[tactic(auto, using(bench_parts::proofs::Answering::answers_each))]
    fn on(&mut self, ev: PartEvent) -> PartReply {
        PartReply {
            has: true,
            word: ev.word.wrapping_add(1),
        }
    }
}

/// Whether a run with two parts, the first of this name and the second named `mine`, shows this line of x3.
fn shows_of_two<R: Threads + Sync>(
    rt: &R,
    alloc: Global,
    name: &str,
    first: Box<dyn Part + Send>,
    second: Box<dyn Part + Send>,
    reply: &str,
) -> Result<bool, AllocError> {
    let mut parts = Vec::new(alloc);
    hand_in(&mut parts, name, first)?;
    hand_in(&mut parts, "mine", second)?;
    shows(rt, alloc, parts, reply)
}

/// Of two parts of one name the first is taken.
#[test]
fn attaches_other_parts(rt: HostRuntime) -> Result<(), AllocError> {
    let alloc = rt.alloc();
    let first = Box::new(alloc, Loop::new())?;
    let second = Box::new(alloc, OneMore)?;
    assert!(&rt; shows_of_two(&rt, alloc, "loop", first, second, "x3 00000002\n")?);
    let first = Box::new(alloc, Mute)?;
    let second = Box::new(alloc, OneMore)?;
    assert!(&rt; shows_of_two(&rt, alloc, "mine", first, second, "")?);
    let first = Box::new(alloc, OneMore)?;
    let second = Box::new(alloc, Mute)?;
    assert!(&rt; shows_of_two(&rt, alloc, "mine", first, second, "x3 00000002\n")?);
    Ok(())
}

//! Words as they are typed.

use bench_parts::{Counter, Loop, NamedPart, Part, Scramble};
use bench_words::{CheckJob, DebugJob, DemoJob, ImageJob, Job, RunJob, read_job};
use chip_base::{Boot, Groups, Name};
use std::alloc::{AllocError, Global};
use std::process::Abort;

/// The words of a line, one blank between each two.
fn words_of(alloc: Global, line: &str) -> Result<Vec<String>, AllocError> {
    let mut words = Vec::new(alloc);
    for word in line.split(' ') {
        words.push(String::from_str(alloc, word)?)?;
    }
    Ok(words)
}

/// A raw run of `a.bin` over ten cycles, with all lanes together, on the standard chip without a script, a part and a trace.
const PLAIN: RunJob<'static> = RunJob {
    image: "a.bin",
    cycles: 10,
    boot: Boot::Raw,
    chip: None,
    script: None,
    groups: Groups { of: [0; 8] },
    part: None,
    trace: 0,
};

fn is_run(found: &RunJob<'_>, wanted: &RunJob<'_>) -> bool {
    let image = found.image == wanted.image;
    let cycles = found.cycles == wanted.cycles;
    let boot = found.boot == wanted.boot;
    let chip = found.chip == wanted.chip;
    let script = found.script == wanted.script;
    let groups = found.groups.of == wanted.groups.of;
    let part = found.part == wanted.part;
    let trace = found.trace == wanted.trace;
    image && cycles && boot && chip && script && groups && part && trace
}

fn is_debug(found: &DebugJob<'_>, wanted: &DebugJob<'_>) -> bool {
    found.commands == wanted.commands && is_run(&found.run, &wanted.run)
}

fn is_demo(found: &DemoJob, wanted: &DemoJob) -> bool {
    found.number == wanted.number && found.groups.of == wanted.groups.of
}

fn is_image(found: &ImageJob<'_>, wanted: &ImageJob<'_>) -> bool {
    let payload = found.payload == wanted.payload;
    let out = found.out == wanted.out;
    let chip = found.chip == wanted.chip;
    payload && out && chip
}

fn is_check(found: &CheckJob<'_>, wanted: &CheckJob<'_>) -> bool {
    let image = found.image == wanted.image;
    let chip = found.chip == wanted.chip;
    image && chip
}

fn is_job(found: &Job<'_>, wanted: &Job<'_>) -> bool {
    match (found, wanted) {
        (Job::Run(found), Job::Run(wanted)) => is_run(found, wanted),
        (Job::Debug(found), Job::Debug(wanted)) => is_debug(found, wanted),
        (Job::Demo(found), Job::Demo(wanted)) => is_demo(found, wanted),
        (Job::Image(found), Job::Image(wanted)) => is_image(found, wanted),
        (Job::Check(found), Job::Check(wanted)) => is_check(found, wanted),
        _ => false,
    }
}

/// Whether these words give this job, or none, where these parts were handed in.
fn gives(alloc: Global, parts: &[NamedPart], words: &[String], wanted: Option<&Job<'_>>) -> bool {
    match (read_job(alloc, words, parts), wanted) {
        (Ok(Some(found)), Some(wanted)) => is_job(&found, wanted),
        (Ok(None), None) => true,
        _ => false,
    }
}

/// Asserts that the words of a line give this job, or none, where these parts were handed in.
fn expect(
    rt: &impl Abort,
    alloc: Global,
    parts: &[NamedPart],
    line: &str,
    wanted: Option<&Job<'_>>,
) {
    let ok = match words_of(alloc, line) {
        Ok(words) => gives(alloc, parts, &words, wanted),
        Err(_) => false,
    };
    assert!(rt; ok, "{line}");
}

#[test]
fn reads_runs(rt: HostRuntime) {
    for &(line, image, cycles) in &[
        ("run a.bin 10 --boot raw", "a.bin", 10),
        ("run --boot raw a.bin 10", "a.bin", 10),
        ("run a.bin --boot raw 10", "a.bin", 10),
        ("run a.bin 10 --boot=raw", "a.bin", 10),
        ("run a.bin 10 --boot raw --groups all", "a.bin", 10),
        ("run a.bin 0 --boot raw", "a.bin", 0),
        ("run a.bin 0000000010 --boot raw", "a.bin", 10),
        ("run a.bin 4294967295 --boot raw", "a.bin", 4_294_967_295),
        ("run - 10 --boot raw", "-", 10),
        ("run  10 --boot raw", "", 10),
        ("run --boot raw -- --a 10", "--a", 10),
    ] {
        let run = RunJob {
            image,
            cycles,
            ..PLAIN
        };
        expect(&rt, rt.alloc(), &[], line, Some(&Job::Run(run)));
    }
}

#[test]
fn reads_how_a_run_begins(rt: HostRuntime) {
    for &(line, boot) in &[
        ("run a.bin 10", Boot::Monitor),
        ("run a.bin 10 --boot monitor", Boot::Monitor),
        ("run --boot=direct a.bin 10", Boot::Direct),
        ("run a.bin 10 --boot raw", Boot::Raw),
    ] {
        let run = RunJob { boot, ..PLAIN };
        expect(&rt, rt.alloc(), &[], line, Some(&Job::Run(run)));
    }
}

#[test]
fn reads_the_files_and_groups_of_a_run(rt: HostRuntime) {
    let none: Option<&str> = None;
    for &(line, chip, script, groups) in &[
        (
            "run --chip c.toml a.bin --script s.txt 10 --boot raw",
            Some("c.toml"),
            Some("s.txt"),
            [0, 0, 0, 0, 0, 0, 0, 0],
        ),
        (
            "run a.bin 10 --boot raw --chip= --script -",
            Some(""),
            Some("-"),
            [0, 0, 0, 0, 0, 0, 0, 0],
        ),
        (
            "run a.bin 10 --boot raw --script= --chip -",
            Some("-"),
            Some(""),
            [0, 0, 0, 0, 0, 0, 0, 0],
        ),
        (
            "run a.bin 10 --boot raw --chip  --script ",
            Some(""),
            Some(""),
            [0, 0, 0, 0, 0, 0, 0, 0],
        ),
        (
            "run a.bin 10 --boot raw --groups each",
            none,
            none,
            [0, 1, 2, 3, 4, 5, 6, 7],
        ),
        (
            "run a.bin 10 --boot raw --groups=hub,wdt/uart1,uart0,spi/slink,gpio,pwm",
            none,
            none,
            [0, 1, 1, 1, 2, 2, 2, 0],
        ),
    ] {
        let run = RunJob {
            chip,
            script,
            groups: Groups { of: groups },
            ..PLAIN
        };
        expect(&rt, rt.alloc(), &[], line, Some(&Job::Run(run)));
    }
}

#[test]
fn reads_how_much_a_run_traces(rt: HostRuntime) {
    for &(line, trace) in &[
        ("run a.bin 10 --boot raw --trace 2", 2),
        ("run --trace=0000 a.bin 10 --boot raw", 0),
        ("run a.bin --trace=0999 10 --boot raw", 999),
        ("run a.bin 10 --boot raw --trace 1000", 1_000),
    ] {
        let run = RunJob { trace, ..PLAIN };
        expect(&rt, rt.alloc(), &[], line, Some(&Job::Run(run)));
    }
}

#[test]
fn reads_sessions_of_the_debugger(rt: HostRuntime) {
    let none: Option<&str> = None;
    for &(line, commands, chip, script) in &[
        ("debug a.bin 10 c.txt --boot raw", "c.txt", none, none),
        (
            "debug --chip c.toml --boot=raw a.bin --script=s.txt 10 ",
            "",
            Some("c.toml"),
            Some("s.txt"),
        ),
        (
            "debug --boot raw --groups all -- a.bin 10 --trace",
            "--trace",
            none,
            none,
        ),
    ] {
        let run = RunJob {
            chip,
            script,
            ..PLAIN
        };
        let job = Job::Debug(DebugJob { run, commands });
        expect(&rt, rt.alloc(), &[], line, Some(&job));
    }
}

#[test]
fn reads_demos(rt: HostRuntime) {
    for &(line, number, groups) in &[
        ("demo 1", 1, [0, 0, 0, 0, 0, 0, 0, 0]),
        ("demo 007", 7, [0, 0, 0, 0, 0, 0, 0, 0]),
        ("demo --groups each 0", 0, [0, 1, 2, 3, 4, 5, 6, 7]),
        (
            "demo 4294967295 --groups=each",
            4_294_967_295,
            [0, 1, 2, 3, 4, 5, 6, 7],
        ),
    ] {
        let groups = Groups { of: groups };
        let job = Job::Demo(DemoJob { number, groups });
        expect(&rt, rt.alloc(), &[], line, Some(&job));
    }
}

#[test]
fn reads_what_images_are_made(rt: HostRuntime) {
    for &(line, payload, out, chip) in &[
        ("image p.bin p.img", "p.bin", "p.img", None),
        ("image p.bin p.bin", "p.bin", "p.bin", None),
        ("image --chip=c.toml - ", "-", "", Some("c.toml")),
        (
            "image p.bin --chip c.toml -- -o",
            "p.bin",
            "-o",
            Some("c.toml"),
        ),
    ] {
        let job = Job::Image(ImageJob { payload, out, chip });
        expect(&rt, rt.alloc(), &[], line, Some(&job));
    }
}

#[test]
fn reads_which_images_are_checked(rt: HostRuntime) {
    for &(line, image, chip) in &[
        ("check p.img", "p.img", None),
        ("check --chip c.toml p.img", "p.img", Some("c.toml")),
        ("check p.img --chip=", "p.img", Some("")),
    ] {
        let job = Job::Check(CheckJob { image, chip });
        expect(&rt, rt.alloc(), &[], line, Some(&job));
    }
}

#[test]
fn refuses_other_words(rt: HostRuntime) {
    for &line in &[
        "",
        "run",
        "run a.bin --boot raw",
        "run a.bin 10 20 --boot raw",
        "run a.bin 10 --boot",
        "run a.bin 10 --boot=",
        "run a.bin 10 --boot ",
        "run a.bin 10 --boot Monitor",
        "run a.bin 10 --boot mon",
        "run a.bin 10 --boot RAW",
        "run a.bin 10 --bo raw",
        "run a.bin 10 --boot raw --boot raw",
        "run a.bin 10 --boot raw --chip x --chip=y",
        "run a.bin 10 --boot raw --script x --script=y",
        "run a.bin 10 --groups all --boot raw --groups all",
        "run a.bin 10 --boot raw --chip",
        "run a.bin 10 --boot raw --script",
        "run a.bin 10 --boot raw --groups",
        "run a.bin 10 --boot raw --script --groups all",
        "run a.bin 10 --boot raw --chip -b",
        "run a.bin 10 --boot raw --fast",
        "run a.bin 10 --boot raw --part lop",
        "run a.bin 10 --boot raw --trace 1001",
        "run a.bin 10 --boot raw --trace 00001",
        "run a.bin 10 --boot raw --trace=",
        "run a.bin 10 --boot raw --trace",
        "run a.bin 10 --boot raw --trace +1",
        "run a.bin 10 --boot raw --trace 1 --trace=1",
        "run a.bin 10 --boot raw --help",
        "run a.bin 10 --boot raw -h",
        "run a.bin 10 --boot raw --version",
        "run a.bin 10 --boot raw -V",
        "run a.bin 10 --boot raw --groups hub,hub",
        "run a.bin 10 --boot raw --groups=",
        "run a.bin 10 --boot raw --groups ",
        "run a.bin 10 -- --boot raw",
        "run a.bin  --boot raw",
        "run a.bin -5 --boot raw",
        "run a.bin +5 --boot raw",
        "run a.bin 00000000010 --boot raw",
        "run a.bin 4294967296 --boot raw",
        "help",
        "--boot raw run a.bin 10",
        "image",
        "image a.bin",
        "image a.bin b.bin c.bin",
        "image a.bin b.bin --boot raw",
        "image a.bin b.bin --chip",
        "image a.bin b.bin --chip x --chip x",
        "image a.bin -b",
        "check",
        "check a.bin b.bin",
        "check a.bin --script x",
        "check a.bin --help",
        "Check a.bin",
        "check a.bin --trace 1",
        "debug",
        "debug a.bin 10 --boot raw",
        "debug a.bin 10 c.txt d.txt --boot raw",
        "debug a.bin c.txt 10 --boot raw",
        "debug a.bin 4294967296 c.txt --boot raw",
        "debug a.bin 10 c.txt --boot raw --trace 1",
        "debug a.bin 10 c.txt --boot raw --part loop",
        "debug a.bin 10 c.txt --boot RAW",
        "demo",
        "demo 1 2",
        "demo 4294967296",
        "demo 00000000001",
        "demo -1",
        "demo ",
        "demo 1 --boot raw",
        "demo 1 --trace 1",
        "demo 1 --groups=",
    ] {
        expect(&rt, rt.alloc(), &[], line, None);
    }
}

#[test]
fn refuses_a_part_that_was_not_handed_in(rt: HostRuntime) {
    expect(
        &rt,
        rt.alloc(),
        &[],
        "run a.bin 10 --boot raw --part loop",
        None,
    );
}

#[test]
fn refuses_no_words(rt: HostRuntime) {
    assert!(&rt; gives(rt.alloc(), &[], &[], None));
}

/// Hands in one part more.
fn hand_in(
    parts: &mut Vec<NamedPart>,
    name: &str,
    part: Box<dyn Part + Send>,
) -> Result<(), AllocError> {
    if let Some(name) = Name::new(name) {
        parts.push(NamedPart { name, part })?;
    }
    Ok(())
}

fn reads_names(rt: &impl Abort, alloc: Global, parts: &[NamedPart]) {
    for &(line, part) in &[
        ("run a.bin 10 --boot raw", None),
        ("run a.bin 10 --boot raw --part loop", Some("loop")),
        ("run a.bin --part=loop 10 --boot raw", Some("loop")),
        ("run --part loop --boot raw -- a.bin 10", Some("loop")),
    ] {
        let run = RunJob { part, ..PLAIN };
        expect(rt, alloc, parts, line, Some(&Job::Run(run)));
    }
}

fn refuses_names(rt: &impl Abort, alloc: Global, parts: &[NamedPart]) {
    for &line in &[
        "run a.bin 10 --boot raw --part lop",
        "run a.bin 10 --boot raw --part Loop",
        "run a.bin 10 --boot raw --part scramble",
        "run a.bin 10 --boot raw --part a",
        "run a.bin 10 --boot raw --part=",
        "run a.bin 10 --boot raw --part ",
        "run a.bin 10 --boot raw --part",
        "run a.bin 10 --boot raw --part loop --part=loop",
        "image a.bin b.bin --part loop",
        "check a.bin --part loop",
    ] {
        expect(rt, alloc, parts, line, None);
    }
}

/// Two of the parts have one name.
#[test]
fn reads_the_name_of_a_part(rt: HostRuntime) -> Result<(), AllocError> {
    let alloc = rt.alloc();
    let mut parts = Vec::new(alloc);
    hand_in(&mut parts, "loop", Box::new(alloc, Loop::new())?)?;
    hand_in(
        &mut parts,
        "a part of mine",
        Box::new(alloc, Counter::new())?,
    )?;
    hand_in(&mut parts, "loop", Box::new(alloc, Scramble::new())?)?;
    reads_names(&rt, alloc, &parts);
    refuses_names(&rt, alloc, &parts);
    Ok(())
}

//! The job that the words of the command line give.
ghost use Rattle.std.specs.Prelude.{◌≡◌, [], IfOk, Some, None, map, option_map, string_bytes, true};
ghost use Rattle.std.specs.List.{list_any};
ghost use Rattle.std.specs.Str.{bytes_eq};
ghost use Rattle.clap.specs.Words.{found_of, rows_of};
ghost use Rattle.bench_words.specs.Kinds.{job_found};
ghost use Rattle.bench_words.specs.Jobs.{boot_named, boot_or_monitor, checking_from, checking_of, checking_view, debug_from, debug_of, debug_view, demo_from, demo_of, demo_view, groups_or_all, job_named, job_of, job_view, making_from, making_of, making_view, part_named, run_from, run_view, run_with, trace_or_none, u32_of};

use crate::command::text_of;
use crate::kind::{JobKind, kind_named, matches_of_kind};
use bench_parts::NamedPart;
use chip_base::{Boot, Groups, NoMemory};
use clap::ArgMatches;
use std::alloc::Global;
use text_fields::numbers::number;

/// A run that the words ask for.
#[derive(Clone, Copy)]
pub struct RunJob<'a> {
    /// The name of the file that is run.
    pub image: &'a str,
    /// How many cycles are run.
    pub cycles: u32,
    /// How core 0 begins.
    pub boot: Boot,
    /// The name of the chip file; without it the chip is the standard one.
    pub chip: Option<&'a str>,
    /// The name of the script; without it nothing comes from outside.
    pub script: Option<&'a str>,
    /// Which lanes run together.
    pub groups: Groups,
    /// The name of the part that is attached to the stream link; without it none is.
    pub part: Option<&'a str>,
    /// The most issues that the report tells, the last ones: at most 1,000.
    pub trace: u32,
}

/// A session of the debugger that the words ask for.
#[derive(Clone, Copy)]
pub struct DebugJob<'a> {
    /// The run that the session goes through. Its cycles are the session's bound, and its trace is 0.
    pub run: RunJob<'a>,
    /// The name of the file of commands.
    pub commands: &'a str,
}

/// A demo that the words ask for.
#[derive(Clone, Copy)]
pub struct DemoJob {
    /// The number from which its data are generated.
    pub number: u32,
    /// Which lanes run together.
    pub groups: Groups,
}

/// An image that is to be made.
#[derive(Clone, Copy)]
pub struct ImageJob<'a> {
    /// The name of the payload's file.
    pub payload: &'a str,
    /// The name of the file that the image is written to.
    pub out: &'a str,
    /// The name of the chip file, whose IMEM must have room for the payload; without it any IMEM may.
    pub chip: Option<&'a str>,
}

/// An image that is to be checked.
#[derive(Clone, Copy)]
pub struct CheckJob<'a> {
    /// The name of the image's file.
    pub image: &'a str,
    /// The name of the chip file, whose IMEM must have room for the payload; without it any IMEM may.
    pub chip: Option<&'a str>,
}

/// What the words ask for.
#[derive(Clone, Copy)]
pub enum Job<'a> {
    Run(RunJob<'a>),
    Debug(DebugJob<'a>),
    Demo(DemoJob),
    Image(ImageJob<'a>),
    Check(CheckJob<'a>),
}

/// One to ten decimal digits of a value below 2 ^ 32.
fn read_u32(word: &str) -> Option<u32>
    ensures { result ≡ u32_of word.now }
{
    number(10, u32::MAX, word.as_bytes())
}

/// The way to start of this name.
fn boot_named(name: &str) -> Option<Boot>
    ensures { result ≡ boot_named name.now }
{
    match name {
        "monitor" => Some(Boot::Monitor),
        "direct" => Some(Boot::Direct),
        "raw" => Some(Boot::Raw),
        _ => None,
    }
}

/// The way to start that is named, or the boot monitor.
fn read_boot(word: Option<&str>) -> Option<Boot>
    ensures { result ≡ boot_or_monitor (option_map (λ s. s.now) word.entry) }
{
    match word {
        Some(name) => boot_named(name),
        None => Some(Boot::Monitor),
    }
}

/// The groups that are named, or one group of all lanes.
fn read_groups(word: Option<&str>) -> Option<Groups>
    ensures { option_map (λ g. g.of) result ≡ groups_or_all (option_map (λ s. s.now) word.entry) }
{
    match word {
        Some(text) => Groups::read(text),
        None => Groups::read("all"),
    }
}

/// One of the parts has this name.
fn has_part(parts: &[NamedPart], name: &str) -> bool
    ensures { result ≡ list_any (λ n. bytes_eq n name.now) (map (λ p. p.name) parts.now) }
{
    for part in parts {
        if part.is_named(name) {
            return true;
        }
    }
    false
}

/// The name of the part that is asked for, if one is. None where no part has it.
fn read_part<'a>(parts: &[NamedPart], word: Option<&'a str>) -> Option<Option<&'a str>>
    ensures { option_map (option_map (λ s. s.now)) result ≡ part_named (map (λ p. p.name) parts.now) (option_map (λ s. s.now) word.entry) }
{
    match word {
        Some(name) if !has_part(parts, name) => None,
        _ => Some(word),
    }
}

/// The number of issues that is asked for: one to four decimal digits of at most 1,000, and 0 where it isn't named.
fn read_trace(word: Option<&str>) -> Option<u32>
    ensures { result ≡ trace_or_none (option_map (λ s. s.now) word.entry) }
{
    match word {
        Some(text) => number(4, 1_000, text.as_bytes()),
        None => Some(0),
    }
}

/// The run of these values.
#[tactic(auto, unfolding(crate::specs::Jobs::run_from))]
fn run_of<'a>(
    parts: &[NamedPart],
    image: Option<&'a str>,
    cycles: Option<&'a str>,
    boot: Option<&'a str>,
    chip: Option<&'a str>,
    script: Option<&'a str>,
    groups: Option<&'a str>,
    part: Option<&'a str>,
    trace: Option<&'a str>,
) -> Option<RunJob<'a>>
    ensures { option_map run_view result ≡ run_from (map (λ p. p.name) parts.now) (option_map (λ s. s.now) image.entry)
        (option_map (λ s. s.now) cycles.entry) (option_map (λ s. s.now) boot.entry) (option_map (λ s. s.now) chip.entry)
        (option_map (λ s. s.now) script.entry) (option_map (λ s. s.now) groups.entry) (option_map (λ s. s.now) part.entry)
        (option_map (λ s. s.now) trace.entry) }
{
    let boot = read_boot(boot)?;
    let image = image?;
    let cycles = read_u32(cycles?)?;
    let groups = read_groups(groups)?;
    let part = read_part(parts, part)?;
    let trace = read_trace(trace)?;
    Some(RunJob {
        image,
        cycles,
        boot,
        chip,
        script,
        groups,
        part,
        trace,
    })
}

/// The run of what was found, with this number of issues.
fn run_found<'a>(
    found: &ArgMatches<'a>,
    parts: &[NamedPart],
    trace: Option<&'a str>,
) -> Option<RunJob<'a>>
    ensures { option_map run_view result ≡ run_with (map (λ p. p.name) parts.now) (option_map (λ s. s.now) trace.entry) (rows_of (found_of found.now)) }
{
    let image = text_of(found, "IMAGE");
    let cycles = text_of(found, "CYCLES");
    let boot = text_of(found, "boot");
    let chip = text_of(found, "chip");
    let script = text_of(found, "script");
    let groups = text_of(found, "groups");
    let part = text_of(found, "part");
    run_of(
        parts, image, cycles, boot, chip, script, groups, part, trace,
    )
}

/// The debugger's session of this run and this file of commands.
#[tactic(auto, unfolding(crate::specs::Jobs::debug_from))]
fn debug_with<'a>(run: Option<RunJob<'a>>, commands: Option<&'a str>) -> Option<DebugJob<'a>>
    ensures { option_map debug_view result ≡ debug_from (option_map run_view run.entry) (option_map (λ s. s.now) commands.entry) }
{
    let run = run?;
    let commands = commands?;
    Some(DebugJob { run, commands })
}

/// The debugger's session of what was found.
fn debug_found<'a>(found: &ArgMatches<'a>, parts: &[NamedPart]) -> Option<DebugJob<'a>>
    ensures { option_map debug_view result ≡ debug_of (map (λ p. p.name) parts.now) (rows_of (found_of found.now)) }
{
    let run = run_found(found, parts, None);
    debug_with(run, text_of(found, "COMMANDS"))
}

/// The demo of these values.
#[tactic(auto, unfolding(crate::specs::Jobs::demo_from))]
fn demo_with(number: Option<&str>, groups: Option<&str>) -> Option<DemoJob>
    ensures { option_map demo_view result ≡ demo_from (option_map (λ s. s.now) number.entry) (option_map (λ s. s.now) groups.entry) }
{
    let number = read_u32(number?)?;
    let groups = read_groups(groups)?;
    Some(DemoJob { number, groups })
}

/// The demo of what was found.
fn demo_found(found: &ArgMatches<'_>) -> Option<DemoJob>
    ensures { option_map demo_view result ≡ demo_of (rows_of (found_of found.now)) }
{
    let number = text_of(found, "NUMBER");
    let groups = text_of(found, "groups");
    demo_with(number, groups)
}

/// The image to be made, of these values.
#[tactic(auto, unfolding(crate::specs::Jobs::making_from))]
fn image_with<'a>(
    payload: Option<&'a str>,
    out: Option<&'a str>,
    chip: Option<&'a str>,
) -> Option<ImageJob<'a>>
    ensures { option_map making_view result ≡ making_from (option_map (λ s. s.now) payload.entry) (option_map (λ s. s.now) out.entry)
        (option_map (λ s. s.now) chip.entry) }
{
    let payload = payload?;
    let out = out?;
    Some(ImageJob { payload, out, chip })
}

/// The image to be made, of what was found.
fn image_found<'a>(found: &ArgMatches<'a>) -> Option<ImageJob<'a>>
    ensures { option_map making_view result ≡ making_of (rows_of (found_of found.now)) }
{
    let payload = text_of(found, "PAYLOAD");
    let out = text_of(found, "OUT");
    let chip = text_of(found, "chip");
    image_with(payload, out, chip)
}

/// The image to be checked, of these values.
#[tactic(auto, unfolding(crate::specs::Jobs::checking_from))]
fn check_with<'a>(image: Option<&'a str>, chip: Option<&'a str>) -> Option<CheckJob<'a>>
    ensures { option_map checking_view result ≡ checking_from (option_map (λ s. s.now) image.entry) (option_map (λ s. s.now) chip.entry) }
{
    let image = image?;
    Some(CheckJob { image, chip })
}

/// The image to be checked, of what was found.
fn check_found<'a>(found: &ArgMatches<'a>) -> Option<CheckJob<'a>>
    ensures { option_map checking_view result ≡ checking_of (rows_of (found_of found.now)) }
{
    let image = text_of(found, "IMAGE");
    let chip = text_of(found, "chip");
    check_with(image, chip)
}

/// The job of what was found in the words of a command of this kind.
fn job_found<'a>(kind: JobKind, found: &ArgMatches<'a>, parts: &[NamedPart]) -> Option<Job<'a>>
    ensures { option_map job_view result ≡ job_found (map (λ p. p.name) parts.now) kind (rows_of (found_of found.now)) }
{
    match kind {
        JobKind::Run => Some(Job::Run(run_found(found, parts, text_of(found, "trace"))?)),
        JobKind::Debug => Some(Job::Debug(debug_found(found, parts)?)),
        JobKind::Demo => Some(Job::Demo(demo_found(found)?)),
        JobKind::Image => Some(Job::Image(image_found(found)?)),
        JobKind::Check => Some(Job::Check(check_found(found)?)),
    }
}

/// The job of these words, of which `name` is the first.
fn read_named<'a>(
    alloc: Global,
    name: &str,
    words: &'a [String],
    parts: &[NamedPart],
) -> Result<Option<Job<'a>>, NoMemory>
    ensures { IfOk result (λ job. option_map job_view job ≡ job_named (map (λ p. p.name) parts.now) name.now (map string_bytes words.entry.now)) }
{
    let Some(kind) = kind_named(name) else {
        return Ok(None);
    };
    match matches_of_kind(alloc, kind, words) {
        Ok(Some(found)) => Ok(job_found(kind, &found, parts)),
        Ok(None) => Ok(None),
        Err(_) => Err(NoMemory),
    }
}

/// Reads the words after the program's name, where these parts were handed in. They are
/// - `run IMAGE CYCLES`, with `--boot BOOT`, `--chip FILE`, `--script FILE`, `--groups GROUPS`, `--part NAME` and `--trace COUNT` where they
///   are wanted,
/// - `debug IMAGE CYCLES COMMANDS`, with `--boot BOOT`, `--chip FILE`, `--script FILE`, `--groups GROUPS` and `--part NAME` where they are
///   wanted,
/// - `demo NUMBER`, with `--groups GROUPS` where it is wanted,
/// - `image PAYLOAD OUT`, with `--chip FILE` where it is wanted,
/// - `check IMAGE`, with `--chip FILE` where it is wanted.
///
/// `clap` judges the words after the first as those of one simple command without help and version flags: an option stands at any
/// place, at most once, with its value behind `=` or in the next word; after the word `--` each word is a positional.
///
/// CYCLES is one to ten decimal digits of a value of at most 4,294,967,295, and so is NUMBER. GROUPS is what `Groups::read` takes, and `all` where it isn't
/// named. BOOT is `monitor`, `direct` or `raw`, and `monitor` where it isn't named. NAME is the name of one of the parts, and no part is
/// asked for where it isn't named. COUNT is one to four decimal digits of a value of at most 1,000, and 0 where it isn't named.
///
/// None exactly where the words give no job. An error comes only where an allocation fails.
#[tactic(auto, unfolding(crate::specs::Jobs::job_of))]
pub fn read_job<'a>(
    alloc: Global,
    words: &'a [String],
    parts: &[NamedPart],
) -> Result<Option<Job<'a>>, NoMemory>
    ensures { IfOk result (λ job. option_map job_view job ≡ job_of (map (λ p. p.name) parts.now) (map string_bytes words.entry.now)) }
{
    match words {
        [] => Ok(None),
        [name, ..] => read_named(alloc, name.as_str(), words, parts),
    }
}

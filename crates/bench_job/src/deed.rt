//! What is done for what the words ask for.
ghost use Rattle.std.specs.Prelude.{List, map, string_bytes};
ghost use Rattle.bench_parts.specs.Attached.{HandedPart};
ghost use Rattle.bench_plan.specs.Steps.{IsRefusal, Reads, mapped};
ghost use Rattle.bench_words.specs.Jobs.{checking_view, debug_view, job_of, job_view, making_view, run_view};
ghost use Rattle.bench_job.specs.Plans.{checking_plan, debug_plan, done_of, job_plan, making_plan, plan_of, run_plan, usage_refusal};

use crate::files::read_power_on;
use crate::image_line::image_line;
use crate::power_on::PowerOn;
use bench_inputs::{read_commands_file, read_image, read_payload, read_room};
use bench_parts::NamedPart;
use bench_plan::{Stop, refused};
use bench_shelf::Shelf;
use bench_words::{CheckJob, DebugJob, ImageJob, Job, RunJob, read_job};
use chip_base::{Boot, Groups, NoMemory};
use command_text::Commands;
use std::alloc::Global;
use text_line::Line;

/// What is done for a job whose files are accepted.
#[derive(Drop)]
pub enum Deed<'a> {
    /// A line is written.
    Line {
        text: Line,
    },
    /// A file of this name is made, and then a line is written.
    Write {
        name: &'a str,
        bytes: Vec<u8>,
        text: Line,
    },
    /// A run of this many cycles from power-on, and its report, with the part of this name, where one is asked for, and at most so many
    /// issues. How the lanes are grouped doesn't change it.
    Report {
        power_on: PowerOn,
        groups: Groups,
        cycles: u32,
        part: Option<&'a str>,
        trace: u32,
    },
    /// A session of the debugger from power-on, up to a bound, with the part of this name, where one is asked for. How the lanes are
    /// grouped doesn't change it.
    Debug {
        power_on: PowerOn,
        groups: Groups,
        bound: u32,
        part: Option<&'a str>,
        commands: Commands,
    },
    /// The demo of a number. How the lanes are grouped doesn't change it.
    Demo {
        number: u32,
        groups: Groups,
    },
}

/// Reads the files of a run.
fn decide_run<'a, S: Shelf>(
    alloc: Global,
    job: &RunJob<'a>,
    shelf: &mut S,
) -> Result<Deed<'a>, Stop>
    ensures { (handed : List HandedPart) → Reads S.held shelf.old shelf.new (run_plan handed (run_view job.now)) (mapped (done_of handed) result) }
{
    let power_on = read_power_on(alloc, job, shelf)?;
    Ok(Deed::Report {
        power_on,
        groups: job.groups,
        cycles: job.cycles,
        part: job.part,
        trace: job.trace,
    })
}

/// Reads the files of a session of the debugger.
fn decide_debug<'a, S: Shelf>(
    alloc: Global,
    job: &DebugJob<'a>,
    shelf: &mut S,
) -> Result<Deed<'a>, Stop>
    ensures { (handed : List HandedPart) → Reads S.held shelf.old shelf.new (debug_plan handed (debug_view job.now)) (mapped (done_of handed) result) }
{
    let power_on = read_power_on(alloc, &job.run, shelf)?;
    let commands = read_commands_file(alloc, job.commands, shelf)?;
    Ok(Deed::Debug {
        power_on,
        groups: job.run.groups,
        bound: job.run.cycles,
        part: job.run.part,
        commands,
    })
}

/// Reads the payload of an image, and makes the image.
fn decide_image<'a, S: Shelf>(
    alloc: Global,
    job: &ImageJob<'a>,
    shelf: &mut S,
) -> Result<Deed<'a>, Stop>
    ensures { (handed : List HandedPart) → Reads S.held shelf.old shelf.new (making_plan (making_view job.now)) (mapped (done_of handed) result) }
{
    let room = read_room(alloc, job.chip, shelf)?;
    let image = read_payload(alloc, room, job.payload, shelf)?;
    let text = image_line(&image);
    Ok(Deed::Write {
        name: job.out,
        bytes: image,
        text,
    })
}

/// Reads an image that is checked.
fn decide_check<'a, S: Shelf>(
    alloc: Global,
    job: &CheckJob<'a>,
    shelf: &mut S,
) -> Result<Deed<'a>, Stop>
    ensures { (handed : List HandedPart) → Reads S.held shelf.old shelf.new (checking_plan (checking_view job.now)) (mapped (done_of handed) result) }
{
    let room = read_room(alloc, job.chip, shelf)?;
    let image = read_image(alloc, Boot::Direct, room, job.image, shelf)?;
    let text = image_line(&image);
    Ok(Deed::Line { text })
}

/// Reads the files of a job.
fn decide_job<'a, S: Shelf>(alloc: Global, job: &Job<'a>, shelf: &mut S) -> Result<Deed<'a>, Stop>
    ensures { (handed : List HandedPart) → Reads S.held shelf.old shelf.new (job_plan handed (job_view job.now)) (mapped (done_of handed) result) }
{
    match job {
        Job::Run(job) => decide_run(alloc, job, shelf),
        Job::Debug(job) => decide_debug(alloc, job, shelf),
        Job::Demo(job) => Ok(Deed::Demo {
            number: job.number,
            groups: job.groups,
        }),
        Job::Image(job) => decide_image(alloc, job, shelf),
        Job::Check(job) => decide_check(alloc, job, shelf),
    }
}

/// Refuses words that give no job.
#[tactic(auto, unfolding(crate::specs::Plans::usage_text))]
fn usage(alloc: Global) -> Stop
    ensures { IsRefusal usage_refusal result }
{
    refused(alloc, 2, b"error usage\n")
}

/// Reads the files of what the words ask for, where these parts are handed in. It looks at the parts' names alone, so what is asked for
/// comes to the same with any parts of these names, up to how they behave.
pub fn decide<'a, S: Shelf>(
    alloc: Global,
    words: &'a [String],
    shelf: &mut S,
    parts: &[NamedPart],
) -> Result<Deed<'a>, Stop>
    ensures { (handed : List HandedPart) → Reads S.held shelf.old shelf.new
        (plan_of handed (job_of (map (λ p. p.name) parts.now) (map string_bytes words.entry.now))) (mapped (done_of handed) result) }
{
    match read_job(alloc, words, parts) {
        Err(NoMemory) => Err(Stop::Memory),
        Ok(None) => Err(usage(alloc)),
        Ok(Some(job)) => decide_job(alloc, &job, shelf),
    }
}

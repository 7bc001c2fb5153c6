//! How a deed is done and told.
ghost use Rattle.std.specs.Prelude.{map, option_map};
ghost use Rattle.bench_plan.specs.Answers.{done};
ghost use Rattle.bench_plan.specs.Calls.{Says, Tells, call_of};
ghost use Rattle.bench_job.specs.Plans.{demo_done, done_of, power_on_view, report_done, session_done};

use crate::deed::Deed;
use crate::power_on::PowerOn;
use crate::session::debug_run;
use bench_demo::put_demo;
use bench_parts::{NamedPart, Part, attach};
use bench_plan::{made, said};
use bench_report::report_run;
use bench_shelf::{Shelf, Sink};
use chip_base::Groups;
use command_text::Commands;
use std::alloc::Global;
use std::thread::Threads;

/// Runs a chip this many cycles from power-on, with this part, if there is one, and writes its report, with at most so many issues.
fn tell_run<R: Threads + Sync, O: Sink>(
    rt: &R,
    alloc: Global,
    power_on: PowerOn,
    part: Option<Box<dyn Part + Send>>,
    groups: &Groups,
    cycles: u32,
    trace: u32,
    out: &mut O,
) -> u8
    ensures { Says (done (report_done (record { part = option_map (λ b. behave b) part }) (power_on_view power_on) cycles trace))
        O.written O.faults out.old out.new result }
{
    let PowerOn {
        setup,
        boot,
        image,
        script,
    } = power_on;
    said(report_run(
        rt, alloc, &setup, boot, image, script, part, groups, cycles, trace, out,
    ))
}

/// Runs a session of the debugger on a chip at power-on, with this part, if there is one, up to a bound.
fn tell_debug<R: Threads + Sync, O: Sink>(
    rt: &R,
    alloc: Global,
    power_on: PowerOn,
    part: Option<Box<dyn Part + Send>>,
    groups: &Groups,
    bound: u32,
    commands: &Commands,
    out: &mut O,
) -> u8
    ensures { Says (done (session_done (record { part = option_map (λ b. behave b) part }) (power_on_view power_on) bound commands.now))
        O.written O.faults out.old out.new result }
{
    said(debug_run(rt, alloc, power_on, part, groups, bound, commands, out))
}

/// Runs the demo of a number.
fn tell_demo<R: Threads + Sync, O: Sink>(
    rt: &R,
    alloc: Global,
    number: u32,
    groups: &Groups,
    out: &mut O,
) -> u8
    ensures { Says (done (demo_done number)) O.written O.faults out.old out.new result }
{
    said(put_demo(rt, alloc, number, groups, out))
}

/// Does a deed and tells it, where these parts are handed in, and gives the status.
pub fn tell<R: Threads + Sync, S: Shelf, O: Sink>(
    rt: &R,
    alloc: Global,
    deed: Deed<'_>,
    shelf: &mut S,
    out: &mut O,
    parts: Vec<NamedPart>,
) -> u8
    ensures { Tells (done (done_of (map (λ p. record { name = p.name; behave = behave (p.part.vtable, p.part.value) }) parts.items) deed.entry))
        (call_of S.held O.written O.faults shelf.old shelf.new out.old out.new result) }
{
    match deed {
        Deed::Line { text } => said(out.put(text.as_slice())),
        Deed::Write { name, bytes, text } => made(name, &bytes, text.as_slice(), shelf, out),
        Deed::Report {
            power_on,
            groups,
            cycles,
            part,
            trace,
        } => {
            let part = attach(parts, part);
            tell_run(rt, alloc, power_on, part, &groups, cycles, trace, out)
        }
        Deed::Debug {
            power_on,
            groups,
            bound,
            part,
            commands,
        } => {
            let part = attach(parts, part);
            tell_debug(rt, alloc, power_on, part, &groups, bound, &commands, out)
        }
        Deed::Demo { number, groups } => tell_demo(rt, alloc, number, &groups, out),
    }
}

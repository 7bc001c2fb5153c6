//! A run and its report. The events are written while the run goes on.
ghost use Rattle.std.specs.Prelude.{◌≡◌, option_map, ◌+◌, ◌^◌, ◌<◌, ◌≤◌, ◌++◌, [], OnOk, true};
ghost use Rattle.bench_report.specs.Report.{cycles_text, events_text, report, shown};
ghost use Rattle.trace_text.specs.Lines.{boot_text};
ghost use Rattle.bench_shelf.specs.Sink.{Writes};
ghost use Rattle.chip_base.specs.Settings.{values_of};
ghost use Rattle.chip_hub.specs.Start.{fits_in};
ghost use Rattle.chip_hub.specs.Views.{boot_view};
ghost use Rattle.chip_whole.specs.Chip.{after, start};
ghost use Rattle.chip_whole.specs.Next.{next_events};
ghost use Rattle.chip_whole.specs.Stands.{ForEach, IsStepped};

use crate::report::{cycles_line, put_events, put_harts, put_tail};
use bench_parts::Part;
use bench_shelf::{Sink, SinkFault};
use chip_base::{Boot, Groups, Script, Setup, Steps};
use chip_net::Chip;
use chip_whole::Standing;
use std::alloc::Global;
use std::marker::Brand;
use std::sync::ledger::{Blank, Ledger};
use std::thread::Threads;
use trace_text::{boot_line, put_line};

/// The cycles of a whole stretch.
const STRETCH: u32 = 4_096;

/// Steps the chip this many cycles, at most 4,096, and writes the events of these cycles.
fn put_stretch<R: Threads + Sync, C: Ledger, O: Sink>(
    rt: &R,
    chip: &mut Chip,
    cycles: u32,
    steps: &mut Steps<C>,
    out: &mut O,
) -> Result<(), SinkFault>
    requires cycles { cycles ≤ 4096 }
    requires time { ⟦<Chip as Standing>⟧.now chip.old + cycles + 4096 < 2 ^ 64 }
    ensures writes { ForEach ⟦<Chip as Standing>⟧.stands chip.old (λ board s. Writes O.written O.faults out.old out.new (events_text (next_events board s cycles)) result) }
    ensures state { OnOk result (IsStepped ⟦<Chip as Standing>⟧.stands chip.old cycles chip.new) }
    ensures now { OnOk result (⟦<Chip as Standing>⟧.now chip.new ≡ ⟦<Chip as Standing>⟧.now chip.old + cycles) }
{
    match chip.run(rt, cycles, steps) {
        Ok(()) => put_events(chip.events(), out),
        Err(_) => Err(SinkFault::Memory),
    }
}

/// Steps a chip at power-on this many cycles, in whole stretches and one rest, and writes all events, each stretch's after it.
fn put_run<R: Threads + Sync, C: Ledger, O: Sink>(
    rt: &R,
    chip: &mut Chip,
    cycles: u32,
    blank: Blank,
    out: &mut O,
) -> Result<(), SinkFault>
    requires name { blank.name ≡ C.name }
    requires parts { blank.parts ≡ C.parts }
    requires one { 0 < blank.parts }
    requires first { ⟦<Chip as Standing>⟧.now chip.old ≡ 0 }
    ensures writes { ForEach ⟦<Chip as Standing>⟧.stands chip.old (λ board s. Writes O.written O.faults out.old out.new (events_text (next_events board s cycles)) result) }
    ensures state { OnOk result (IsStepped ⟦<Chip as Standing>⟧.stands chip.old cycles chip.new) }
{
    let mut steps = Steps::<C>::new(blank);
    for _ in 0..cycles / STRETCH {
        put_stretch(rt, chip, STRETCH, &mut steps, out)?;
    }
    put_stretch(rt, chip, cycles % STRETCH, &mut steps, out)
}

/// Writes the lines before the harts, and runs the chip meanwhile.
fn put_head<R: Threads + Sync, O: Sink>(
    rt: &R,
    chip: &mut Chip,
    cycles: u32,
    out: &mut O,
) -> Result<(), SinkFault>
    requires first { ⟦<Chip as Standing>⟧.now chip.old ≡ 0 }
    ensures writes { ForEach ⟦<Chip as Standing>⟧.stands chip.old (λ board s. Writes O.written O.faults out.old out.new
        (cycles_text cycles ++ events_text (next_events board s cycles) ++ boot_text (boot_view (after board s cycles).seat)) result) }
    ensures state { OnOk result (IsStepped ⟦<Chip as Standing>⟧.stands chip.old cycles chip.new) }
{
    put_line(&cycles_line(cycles), out)?;
    put_run::<R, Brand, O>(rt, chip, cycles, Blank::new(1), out)?;
    put_line(&boot_line(chip.boot()), out)
}

/// Steps a chip at power-on this many cycles, and writes its report with the latest `trace` issues.
fn report_chip<R: Threads + Sync, O: Sink>(
    rt: &R,
    chip: &mut Chip,
    cycles: u32,
    trace: u32,
    out: &mut O,
) -> Result<(), SinkFault>
    requires first { ⟦<Chip as Standing>⟧.now chip.old ≡ 0 }
    ensures { ForEach ⟦<Chip as Standing>⟧.stands chip.old (λ board s. s.events ≡ []
        → Writes O.written O.faults out.old out.new (report (shown (after board s cycles) cycles trace)) result) }
{
    put_head(rt, chip, cycles, out)?;
    put_harts(&chip.hart(0), &chip.hart(1), out)?;
    put_tail(chip, trace, out)
}

/// Runs a chip this many cycles from power-on, where core 0 begins in a boot mode with a file, which must fit, as `fits` of chip_hub
/// tells, and the stream link is fitted with a part, if there is one; and writes its report, with the latest `trace` issues or all where
/// there are fewer, and never more than 1,000. How the lanes are grouped doesn't change it.
pub fn report_run<R: Threads + Sync, O: Sink>(
    rt: &R,
    alloc: Global,
    setup: &Setup,
    boot: Boot,
    image: Vec<u8>,
    script: Script,
    part: Option<Box<dyn Part + Send>>,
    groups: &Groups,
    cycles: u32,
    trace: u32,
    out: &mut O,
) -> Result<(), SinkFault>
    requires { fits_in boot image.items setup.now.imem ≡ true }
    ensures { Writes O.written O.faults out.old out.new
        (report (shown (after (record { part = option_map (λ b. behave b) part }) (start (values_of setup.now) boot image.items script) cycles) cycles trace)) result }
{
    match Chip::new(alloc, setup, boot, image, script, part, groups) {
        Ok(mut chip) => report_chip(rt, &mut chip, cycles, trace, out),
        Err(_) => Err(SinkFault::Memory),
    }
}

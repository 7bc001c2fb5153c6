//! A session of the debugger from power-on.
ghost use Rattle.std.specs.Prelude.{option_map};
ghost use Rattle.bench_debug.specs.Session.{debug_text};
ghost use Rattle.bench_job.specs.Plans.{power_on_view};
ghost use Rattle.bench_shelf.specs.Sink.{Writes};

use crate::power_on::PowerOn;
use bench_debug::debug;
use bench_parts::Part;
use bench_shelf::{Sink, SinkFault};
use chip_base::Groups;
use chip_net::Chip;
use command_text::Commands;
use std::alloc::Global;
use std::thread::Threads;

/// Runs a session of the debugger on a chip at power-on, with this part, if there is one, up to a bound, and writes its lines.
pub fn debug_run<R: Threads + Sync, O: Sink>(
    rt: &R,
    alloc: Global,
    power_on: PowerOn,
    part: Option<Box<dyn Part + Send>>,
    groups: &Groups,
    bound: u32,
    commands: &Commands,
    out: &mut O,
) -> Result<(), SinkFault>
    ensures { Writes O.written O.faults out.old out.new
        (debug_text (record { part = option_map (λ b. behave b) part }) (power_on_view power_on) bound commands.now) result }
{
    let PowerOn {
        setup,
        boot,
        image,
        script,
    } = power_on;
    match Chip::new(alloc, &setup, boot, image, script, part, groups) {
        Ok(mut chip) => debug(rt, &mut chip, bound, commands, out),
        Err(_) => Err(SinkFault::Memory),
    }
}

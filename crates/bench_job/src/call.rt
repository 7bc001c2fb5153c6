//! What is done for the words of a call.
ghost use Rattle.std.specs.Prelude.{map, string_bytes};
ghost use Rattle.bench_plan.specs.Calls.{call_of};
ghost use Rattle.bench_plan.specs.Keeps.{Keeps};
ghost use Rattle.bench_words.specs.Jobs.{job_of};
ghost use Rattle.bench_job.specs.Plans.{plan_of};

use crate::deed::decide;
use crate::tell::tell;
use bench_parts::NamedPart;
use bench_plan::stopped;
use bench_shelf::{Shelf, Sink};
use std::alloc::Global;
use std::thread::Threads;

/// Does what the words ask for, where these parts are handed in.
pub fn perform<R: Threads + Sync, S: Shelf, O: Sink>(
    rt: &R,
    alloc: Global,
    words: &[String],
    shelf: &mut S,
    out: &mut O,
    parts: Vec<NamedPart>,
) -> u8
    ensures { Keeps (plan_of (map (λ p. record { name = p.name; behave = behave (p.part.vtable, p.part.value) }) parts.items) (job_of (map (λ p. p.name) parts.items) (map string_bytes words.now)))
        (call_of S.held O.written O.faults shelf.old shelf.new out.old out.new result) }
{
    match decide(alloc, words, shelf, &parts) {
        Ok(deed) => tell(rt, alloc, deed, shelf, out, parts),
        Err(stop) => stopped(&stop, out),
    }
}

//! Telling an answer.
ghost use Rattle.std.specs.Prelude.{◌≡◌, ◌≢◌, ◌<◌, ℕ, List, Option, None, Some};
ghost use Rattle.bench_shelf.specs.Sink.{Appending};
ghost use Rattle.bench_plan.specs.Answers.{Answer, done, refused};
ghost use Rattle.bench_plan.specs.Calls.{Says, Stops, Tells, TellsText, call_of};

use crate::stop::{Refusal, Stop};
use bench_shelf::{Shelf, ShelfFault, Sink, SinkFault};

/// Writes the line of a refusal. The status stays where the sink fails.
fn refuse<O: Sink>(refusal: &Refusal, out: &mut O) -> u8
    ensures no_failure { refusal.now.status ≢ 7 }
    ensures no_want { refusal.now.status ≢ 9 }
    ensures says { Says (refused refusal.now) O.written O.faults out.old out.new result }
{
    let status = refusal.status();
    match out.put(refusal.line()) {
        Err(SinkFault::Memory) => 9,
        _ => status,
    }
}

/// Tells why a job isn't done.
pub fn stopped<O: Sink>(stop: &Stop, out: &mut O) -> u8
    ensures { Stops stop.now O.written O.faults out.old out.new result }
{
    match stop {
        Stop::Refused(refusal) => refuse(refusal, out),
        Stop::Memory => 9,
    }
}

/// The status of a text that was written to a sink.
pub fn said(wrote: Result<(), SinkFault>) -> u8
    ensures { (text : List ℕ) (old new : Option (List ℕ)) (before now : ℕ) → Appending old new before now text wrote
        → TellsText (done (record { text = text; out = None })) old new before now result }
{
    match wrote {
        Ok(()) => 0,
        Err(SinkFault::Failed) => 7,
        Err(SinkFault::Memory) => 9,
    }
}

/// Makes a file, and then writes a line.
pub fn made<S: Shelf, O: Sink>(
    name: &str,
    bytes: &[u8],
    line: &[u8],
    shelf: &mut S,
    out: &mut O,
) -> u8
    ensures { Tells (done (record { text = line.now; out = Some (record { name = name.now; bytes = bytes.now }) }))
        (call_of S.held O.written O.faults shelf.old shelf.new out.old out.new result) }
{
    match shelf.write(name, bytes) {
        Ok(()) => said(out.put(line)),
        Err(ShelfFault::Memory) => 9,
        Err(ShelfFault::Failed) => 7,
        // no write answers so
        Err(ShelfFault::Long { .. }) => 7,
    }
}

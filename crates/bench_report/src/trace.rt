//! The lines of the latest issues.
ghost use Rattle.bench_report.specs.Report.{issue_text_at, latest, trace_lines_text};
ghost use Rattle.bench_shelf.specs.Sink.{Writes};
ghost use Rattle.chip_whole.specs.Stands.{ForEach};

use bench_shelf::{Sink, SinkFault};
use chip_net::Chip;
use chip_whole::Standing;
use trace_text::trace_line;

/// How many issues are shown at most. A chip keeps as many.
const MOST: u32 = 1_000;

/// Writes the line of the issue that lies so many issues before the latest, where there is one.
fn put_issue<O: Sink>(chip: &Chip, back: u32, out: &mut O) -> Result<(), SinkFault>
    ensures { ForEach ⟦<Chip as Standing>⟧.stands chip.now (λ _ s. Writes O.written O.faults out.old out.new (issue_text_at s.issues back) result) }
{
    match chip.issues(back) {
        Some(issue) => trace_line(&issue, out),
        None => Ok(()),
    }
}

/// Writes the lines of the latest issues, so many or all where there are fewer, and never more than 1,000. The oldest of them is first.
pub fn put_trace<O: Sink>(chip: &Chip, trace: u32, out: &mut O) -> Result<(), SinkFault>
    ensures { ForEach ⟦<Chip as Standing>⟧.stands chip.now (λ _ s. Writes O.written O.faults out.old out.new (trace_lines_text (latest trace s.issues)) result) }
{
    let count = trace.min(MOST);
    for number in 0..count {
        put_issue(chip, count - 1 - number, out)?;
    }
    Ok(())
}

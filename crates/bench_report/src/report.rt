//! The lines of a report. Each is one call of the sink, and none takes memory.
ghost use Rattle.std.specs.Prelude.{◌≡◌, ◌==◌, ◌++◌};
ghost use Rattle.std.specs.List.{list_all};
ghost use Rattle.bench_shelf.specs.Sink.{Writes};
ghost use Rattle.bench_report.specs.Bank.{base_of, bytes_of};
ghost use Rattle.bench_report.specs.Report.{cycles_text, events_text, flash_text, latest, memory_row_text, memory_text, shown_flash, trace_lines_text, unless_parked};
ghost use Rattle.chip_whole.specs.Stands.{ForEach};
ghost use Rattle.trace_text.specs.Lines.{end_text, hart_lines_text};

use crate::bank::Bank;
use crate::flash_rows::put_flash;
use crate::trace::put_trace;
use bench_shelf::{Sink, SinkFault};
use chip_base::{Event, HartView, PhaseWord};
use chip_net::Chip;
use chip_whole::Standing;
use text_line::Line;
use trace_text::{RowKind, end_line, event_line, hart_lines, put_line, row_line};

#[tactic(auto, unfolding(crate::specs::Report::cycles_text))]
pub fn cycles_line(cycles: u32) -> Line
    ensures { result ≡ cycles_text cycles }
{
    let mut line = Line::new();
    line.push(b"cycles ");
    line.push_number(u64::from(cycles));
    line.push(b"\n");
    line
}

/// Writes the lines of hart 1, and nothing where it is parked.
#[tactic(auto, using(bench_shelf::proofs::Writing::writes_begin))]
fn put_second_hart<O: Sink>(view: &HartView, out: &mut O) -> Result<(), SinkFault>
    ensures { Writes O.written O.faults out.old out.new (unless_parked view.now.phase (hart_lines_text 1 view.now)) result }
{
    match view.phase {
        PhaseWord::Parked => Ok(()),
        _ => hart_lines(1, view, out),
    }
}

fn is_zero(row: &[u8; 16]) -> bool
    ensures { result ≡ list_all (λ b. b == 0) row.now }
{
    row.iter().all(|b| *b == 0)
}

/// Writes the line of a row of a memory, and nothing where all its bytes are zero.
#[tactic(auto, using(bench_shelf::proofs::Writing::writes_begin), unfolding(crate::specs::Report::memory_row_text))]
fn put_row<O: Sink>(address: u32, row: &[u8; 16], out: &mut O) -> Result<(), SinkFault>
    ensures { Writes O.written O.faults out.old out.new (memory_row_text address row.now) result }
{
    if is_zero(row) {
        return Ok(());
    }
    row_line(RowKind::Mem, address, row, out)
}

/// Writes the lines of a memory.
fn put_memory<O: Sink>(chip: &Chip, bank: Bank, out: &mut O) -> Result<(), SinkFault>
    ensures { ForEach ⟦<Chip as Standing>⟧.stands chip.now (λ _ s. Writes O.written O.faults out.old out.new (memory_text (base_of bank) (bytes_of s.hub bank)) result) }
{
    let rows = bank.rows(chip);
    for number in 0..rows {
        let row = bank.row(chip, number);
        put_row(bank.base() + 16 * number, &row, out)?;
    }
    Ok(())
}

/// Writes the lines of events, in their order.
pub fn put_events<O: Sink>(events: &[Event], out: &mut O) -> Result<(), SinkFault>
    ensures { Writes O.written O.faults out.old out.new (events_text events.now) result }
{
    for event in events {
        event_line(event, out)?;
    }
    Ok(())
}

/// Writes the lines of the harts.
pub fn put_harts<O: Sink>(first: &HartView, second: &HartView, out: &mut O) -> Result<(), SinkFault>
    ensures { Writes O.written O.faults out.old out.new (hart_lines_text 0 first.now ++ unless_parked second.now.phase (hart_lines_text 1 second.now)) result }
{
    hart_lines(0, first, out)?;
    put_second_hart(second, out)
}

/// Writes the lines of the memories, of the flash and of the latest issues, and the last line.
pub fn put_tail<O: Sink>(chip: &Chip, trace: u32, out: &mut O) -> Result<(), SinkFault>
    ensures { ForEach ⟦<Chip as Standing>⟧.stands chip.now (λ _ s. Writes O.written O.faults out.old out.new (memory_text 0 s.hub.memory.imem ++ memory_text 2147483648 s.hub.memory.dmem
        ++ flash_text (shown_flash s.units.spi.unit.flash) ++ trace_lines_text (latest trace s.issues) ++ end_text) result) }
{
    put_memory(chip, Bank::Imem, out)?;
    put_memory(chip, Bank::Dmem, out)?;
    put_flash(chip, out)?;
    put_trace(chip, trace, out)?;
    put_line(&end_line(), out)
}

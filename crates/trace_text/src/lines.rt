//! The lines of a report and of a trace.
ghost use Rattle.std.specs.Prelude.{◌≡◌, ◌+◌, ◌≤◌, ◌++◌, length, codes, decimal};
ghost use Rattle.soc_words.specs.Text.{hex_word, joined_below, line};
ghost use Rattle.bench_shelf.specs.Sink.{Writes};
ghost use Rattle.trace_text.specs.Instruction.{word_text};
ghost use Rattle.trace_text.specs.Lines.{boot_text, end_text, event_kind_name, event_text, hart_lines_text, hart_text, parked_text, phase_text, register_text, register_text_in, row_kind_name, row_text, trace_text, value_text};

use crate::instruction::{push_issued, push_short_number, push_word_digits};
use bench_shelf::{Sink, SinkFault};
use chip_base::chip_unit::lane_name;
use chip_base::{BootView, ChipUnit, Event, EventKind, HartView, IssueRecord, PhaseWord};
use text_line::Line;

/// What a row of bytes stands in.
#[derive(Clone, Copy, Debug, PartialEq, Eq)]
pub enum RowKind {
    /// A memory of the chip.
    Mem,
    /// The flash.
    Flash,
}

/// Writes a line by one call of the sink.
pub fn put_line<O: Sink>(line: &Line, out: &mut O) -> Result<(), SinkFault>
    ensures { Writes O.written O.faults out.old out.new line.now result }
{
    out.put(line.as_slice())
}

/// The line that tells how core 0 began.
#[tactic(auto, unfolding(crate::specs::Lines::boot_text))]
pub fn boot_line(boot: BootView) -> Line
    ensures { result ≡ boot_text boot }
{
    let mut line = Line::new();
    match boot {
        BootView::Raw => line.push(b"boot raw"),
        BootView::Direct => line.push(b"boot direct"),
        BootView::Monitor => line.push(b"boot monitor"),
        BootView::Handed { cycle } => {
            line.push(b"boot handover ");
            line.push_number(cycle);
        }
    }
    line.push(b"\n");
    line
}

/// The last line of a text of several lines.
#[tactic(auto, unfolding(crate::specs::Lines::end_text))]
pub fn end_line() -> Line
    ensures { result ≡ end_text }
{
    let mut line = Line::new();
    line.push(b"end\n");
    line
}

fn event_kind_name(kind: EventKind) -> &'static str
    ensures name { result.now ≡ event_kind_name kind }
    ensures short { length result.now ≤ 4 }
{
    match kind {
        EventKind::Tx => "tx",
        EventKind::Out => "out",
        EventKind::Word => "word",
        EventKind::Last => "last",
        EventKind::Fire => "fire",
    }
}

/// Appends the value of an event: of a UART a byte, of all else a word.
fn push_value(line: &mut Line, unit: u8, value: u32)
    requires { length line.old + 8 ≤ 128 }
    ensures text { line.new ≡ line.old ++ value_text unit value }
    ensures len { length line.new ≤ length line.old + 8 }
{
    if unit == ChipUnit::Uart0.number() || unit == ChipUnit::Uart1.number() {
        line.push_byte((value % 256) as u8);
    } else {
        line.push_word(value);
    }
}

#[tactic(auto, unfolding(crate::specs::Lines::event_text))]
fn line_of_event(event: &Event) -> Line
    ensures { result ≡ event_text event.now }
{
    let unit = lane_name(event.unit);
    let kind = event_kind_name(event.kind);
    let mut line = Line::new();
    line.push_number(event.cycle);
    line.push(b" ");
    line.push(unit.as_bytes());
    line.push(b" ");
    line.push(kind.as_bytes());
    line.push(b" ");
    push_value(&mut line, event.unit, event.value);
    line.push(b"\n");
    line
}

/// Writes `CYCLE UNIT KIND VALUE`. The unit goes by its number, whatever the kind: one that is no unit's is `hub`. Of a UART's value
/// the low eight bits are written, in two digits, and of any other all eight digits.
pub fn event_line<O: Sink>(event: &Event, out: &mut O) -> Result<(), SinkFault>
    ensures { Writes O.written O.faults out.old out.new (event_text event.now) result }
{
    put_line(&line_of_event(event), out)
}

fn phase_name(phase: PhaseWord) -> &'static str
    ensures name { result.now ≡ phase_text phase }
    ensures short { length result.now ≤ 7 }
{
    match phase {
        PhaseWord::Ready => "ready",
        PhaseWord::Run => "run",
        PhaseWord::Want => "want",
        PhaseWord::Sleep => "sleep",
        PhaseWord::Parked => "parked",
        PhaseWord::Monitor => "monitor",
    }
}

#[tactic(auto, unfolding(crate::specs::Lines::hart_text))]
fn line_of_hart(number: u8, view: &HartView) -> Line
    ensures { result ≡ hart_text number view.now }
{
    let phase = phase_name(view.phase);
    let mut line = Line::new();
    line.push(b"hart ");
    line.push_number(u64::from(number));
    line.push(b" ");
    line.push(phase.as_bytes());
    line.push(b" pc ");
    line.push_word(view.pc);
    line.push(b" retired ");
    line.push_number(view.retired);
    line.push(b"\n");
    line
}

#[tactic(auto, unfolding(crate::specs::Lines::parked_text))]
fn line_of_parked(number: u8) -> Line
    ensures { result ≡ parked_text number }
{
    let mut line = Line::new();
    line.push(b"hart ");
    line.push_number(u64::from(number));
    line.push(b" parked\n");
    line
}

/// The line of a register that isn't zero.
fn line_of_register(number: u32, value: u32) -> Line
    ensures { result ≡ line (codes "x" ++ decimal number ++ codes " " ++ hex_word value) }
{
    let mut line = Line::new();
    line.push(b"x");
    line.push_number(u64::from(number));
    line.push(b" ");
    line.push_word(value);
    line.push(b"\n");
    line
}

/// Writes the line of a register, and nothing where it is zero.
#[tactic(auto, using(bench_shelf::proofs::Writing::writes_begin), unfolding(crate::specs::Lines::register_text))]
fn put_register<O: Sink>(number: u32, value: u32, out: &mut O) -> Result<(), SinkFault>
    ensures { Writes O.written O.faults out.old out.new (register_text number value) result }
{
    if value == 0 {
        return Ok(());
    }
    put_line(&line_of_register(number, value), out)
}

fn put_registers<O: Sink>(regs: &[u32; 32], out: &mut O) -> Result<(), SinkFault>
    ensures { Writes O.written O.faults out.old out.new (joined_below (register_text_in regs.now) 32) result }
{
    for number in 0..32u32 {
        put_register(number, regs[number as usize], out)?;
    }
    Ok(())
}

/// Writes the line of a hart that isn't parked, and those of its registers.
fn put_hart<O: Sink>(number: u8, view: &HartView, out: &mut O) -> Result<(), SinkFault>
    ensures { Writes O.written O.faults out.old out.new (hart_text number view.now ++ joined_below (register_text_in view.now.regs) 32) result }
{
    put_line(&line_of_hart(number, view), out)?;
    put_registers(&view.regs, out)
}

/// Writes `hart H PHASE pc PC retired N`, and then `xK VALUE` for each register that isn't zero, rising. Of a hart that is parked it
/// writes `hart H parked` alone.
pub fn hart_lines<O: Sink>(hart: u8, view: &HartView, out: &mut O) -> Result<(), SinkFault>
    ensures { Writes O.written O.faults out.old out.new (hart_lines_text hart view.now) result }
{
    match view.phase {
        PhaseWord::Parked => put_line(&line_of_parked(hart), out),
        _ => put_hart(hart, view, out),
    }
}

fn row_kind_name(kind: RowKind) -> &'static str
    ensures name { result.now ≡ row_kind_name kind }
    ensures short { length result.now ≤ 5 }
{
    match kind {
        RowKind::Mem => "mem",
        RowKind::Flash => "flash",
    }
}

#[tactic(auto, unfolding(crate::specs::Lines::row_text))]
fn line_of_row(kind: RowKind, address: u32, row: &[u8; 16]) -> Line
    ensures { result ≡ row_text kind address row.now }
{
    let name = row_kind_name(kind);
    let mut line = Line::new();
    line.push(name.as_bytes());
    line.push(b" ");
    line.push_word(address);
    line.push(b" ");
    line.push_bytes_hex(row);
    line.push(b"\n");
    line
}

/// Writes `mem ADDRESS BYTES` or `flash ADDRESS BYTES`: sixteen bytes from an address on, each in two digits.
pub fn row_line<O: Sink>(
    kind: RowKind,
    at: u32,
    bytes: &[u8; 16],
    out: &mut O,
) -> Result<(), SinkFault>
    ensures { Writes O.written O.faults out.old out.new (row_text kind at bytes.now) result }
{
    put_line(&line_of_row(kind, at, bytes), out)
}

#[tactic(auto, unfolding(crate::specs::Lines::trace_text))]
fn line_of_issue(issue: &IssueRecord) -> Line
    ensures { result ≡ trace_text issue.now }
{
    let mut line = Line::new();
    line.push(b"trace ");
    line.push_number(issue.cycle);
    line.push(b" ");
    push_short_number(&mut line, issue.hart);
    line.push(b" ");
    line.push_word(issue.pc);
    line.push(b" ");
    push_word_digits(&mut line, issue.word);
    line.push(b" ");
    push_issued(&mut line, issue.pc, issue.word);
    line.push(b"\n");
    line
}

/// Writes `trace CYCLE H PC WORD TEXT` of an issued instruction. A word whose low two bits aren't 11 is a parcel in its low sixteen
/// bits, and has four digits; any other has eight. TEXT is `illegal` where the word or parcel stands for no instruction.
pub fn trace_line<O: Sink>(issue: &IssueRecord, out: &mut O) -> Result<(), SinkFault>
    ensures { Writes O.written O.faults out.old out.new (trace_text issue.now) result }
{
    put_line(&line_of_issue(issue), out)
}

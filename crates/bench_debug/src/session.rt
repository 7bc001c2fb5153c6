//! A session of the debugger on a chip.
ghost use Rattle.std.specs.Prelude.{◌≡◌, ℕ, ◌+◌, ◌*◌, ◌%◌, ◌^◌, ◌<◌, ◌≤◌, ◌++◌, List, OnOk, IfOk, true, []};
ghost use Rattle.std.specs.List.{list_all};
ghost use Rattle.soc_words.specs.Text.{joined_below};
ghost use Rattle.bench_shelf.specs.Sink.{Writes};
ghost use Rattle.chip_hub.specs.Views.{csr_view, hart_view};
ghost use Rattle.chip_whole.specs.Chip.{after};
ghost use Rattle.chip_whole.specs.Stands.{ForEach, IsStepped};
ghost use Rattle.trace_text.specs.Lines.{hart_lines_text};
ghost use Rattle.command_text.specs.CommandRead.{is_allowed};
ghost use Rattle.bench_debug.specs.Running.{InSession};
ghost use Rattle.bench_debug.specs.Session.{at_text, csr_text, cycles_told, debug_text, done_by, first_stop, stepped_to, stopped, text_by, mem_text_in};

use crate::lines::{at_line, csr_line, stop_line, word_line};
use crate::stop::Stop;
use crate::stops::{has_stop, stop_in};
use bench_shelf::{Sink, SinkFault};
use chip_base::{NoMemory, Steps};
use chip_net::Chip;
use chip_whole::Standing;
use command_text::{Command, Commands};
use std::marker::Brand;
use std::sync::ledger::{Blank, Ledger};
use std::thread::Threads;
use trace_text::{end_line, hart_lines, put_line};

/// The cycles of a whole stretch, in which nothing can stop the chip.
const STRETCH: u32 = 4_096;

/// Steps the chip this many cycles, in whole stretches and one rest.
fn run_on<R: Threads + Sync, C: Ledger>(
    rt: &R,
    chip: &mut Chip,
    cycles: u32,
    steps: &mut Steps<C>,
) -> Result<(), NoMemory>
    requires { ⟦<Chip as Standing>⟧.now chip.old < 2 ^ 32 }
    ensures state { OnOk result (IsStepped ⟦<Chip as Standing>⟧.stands chip.old cycles chip.new) }
    ensures now { OnOk result (⟦<Chip as Standing>⟧.now chip.new ≡ ⟦<Chip as Standing>⟧.now chip.old + cycles) }
{
    for _ in 0..cycles / STRETCH {
        chip.run(rt, STRETCH, steps)?;
    }
    chip.run(rt, cycles % STRETCH, steps)
}

/// Steps the chip one cycle after another, until a stop holds or the bound is reached.
fn seek<R: Threads + Sync, C: Ledger>(
    rt: &R,
    chip: &mut Chip,
    bound: u32,
    earlier: &[Command],
    steps: &mut Steps<C>,
) -> Result<Stop, NoMemory>
    requires { ⟦<Chip as Standing>⟧.now chip.old ≤ bound }
    ensures state { OnOk result (InSession ⟦<Chip as Standing>⟧.stands chip.old (λ board s n.
        ⟦<Chip as Standing>⟧.stands board chip.new (after board s (first_stop board s bound earlier.now n).cycles))) }
    ensures stop { IfOk result (λ stop. InSession ⟦<Chip as Standing>⟧.stands chip.old (λ board s n. (first_stop board s bound earlier.now n).stop ≡ stop)) }
    ensures bound { OnOk result (⟦<Chip as Standing>⟧.now chip.new ≤ bound) }
{
    let left = u64::from(bound) - chip.now();
    for _ in 0..left {
        chip.run(rt, 1, steps)?;
        if let Some(stop) = stop_in(earlier, chip) {
            return Ok(stop);
        }
    }
    Ok(Stop::Bound)
}

/// Steps the chip until a stop holds or the bound is reached.
fn run_to_stop<R: Threads + Sync, C: Ledger>(
    rt: &R,
    chip: &mut Chip,
    bound: u32,
    earlier: &[Command],
    steps: &mut Steps<C>,
) -> Result<Stop, NoMemory>
    requires { ⟦<Chip as Standing>⟧.now chip.old ≤ bound }
    ensures state { OnOk result (InSession ⟦<Chip as Standing>⟧.stands chip.old (λ board s n.
        ⟦<Chip as Standing>⟧.stands board chip.new (after board s (first_stop board s bound earlier.now n).cycles))) }
    ensures stop { IfOk result (λ stop. InSession ⟦<Chip as Standing>⟧.stands chip.old (λ board s n. (first_stop board s bound earlier.now n).stop ≡ stop)) }
    ensures bound { OnOk result (⟦<Chip as Standing>⟧.now chip.new ≤ bound) }
{
    if has_stop(earlier) {
        return seek(rt, chip, bound, earlier, steps);
    }
    let left = bound - chip.now() as u32;
    run_on(rt, chip, left, steps)?;
    Ok(Stop::Bound)
}

/// Runs so many cycles, not past the bound, and writes where the chip is then.
fn put_step<R: Threads + Sync, C: Ledger, O: Sink>(
    rt: &R,
    chip: &mut Chip,
    bound: u32,
    cycles: u32,
    steps: &mut Steps<C>,
    out: &mut O,
) -> Result<(), SinkFault>
    requires { ⟦<Chip as Standing>⟧.now chip.old ≤ bound }
    ensures text { InSession ⟦<Chip as Standing>⟧.stands chip.old (λ board s n. Writes O.written O.faults out.old out.new
        (at_text (s.cycle + stepped_to s bound n cycles)) result) }
    ensures state { OnOk result (InSession ⟦<Chip as Standing>⟧.stands chip.old (λ board s n.
        ⟦<Chip as Standing>⟧.stands board chip.new (after board s (stepped_to s bound n cycles)))) }
    ensures bound { OnOk result (⟦<Chip as Standing>⟧.now chip.new ≤ bound) }
{
    let left = bound - chip.now() as u32;
    match run_on(rt, chip, cycles.min(left), steps) {
        Ok(()) => put_line(&at_line(chip.now()), out),
        Err(NoMemory) => Err(SinkFault::Memory),
    }
}

/// Runs to the next stop, or to the bound, and writes why and where the chip stops.
fn put_cont<R: Threads + Sync, C: Ledger, O: Sink>(
    rt: &R,
    chip: &mut Chip,
    bound: u32,
    earlier: &[Command],
    steps: &mut Steps<C>,
    out: &mut O,
) -> Result<(), SinkFault>
    requires { ⟦<Chip as Standing>⟧.now chip.old ≤ bound }
    ensures text { InSession ⟦<Chip as Standing>⟧.stands chip.old (λ board s n. Writes O.written O.faults out.old out.new
        (stopped s (first_stop board s bound earlier.now n)).text result) }
    ensures state { OnOk result (InSession ⟦<Chip as Standing>⟧.stands chip.old (λ board s n.
        ⟦<Chip as Standing>⟧.stands board chip.new (after board s (first_stop board s bound earlier.now n).cycles))) }
    ensures bound { OnOk result (⟦<Chip as Standing>⟧.now chip.new ≤ bound) }
{
    match run_to_stop(rt, chip, bound, earlier, steps) {
        Ok(stop) => put_line(&stop_line(chip.now(), stop), out),
        Err(NoMemory) => Err(SinkFault::Memory),
    }
}

/// Writes the lines of a hart.
fn put_hart<O: Sink>(chip: &Chip, hart: u8, out: &mut O) -> Result<(), SinkFault>
    requires { hart ≤ 1 }
    ensures { ForEach ⟦<Chip as Standing>⟧.stands chip.now (λ _ s. Writes O.written O.faults out.old out.new
        (hart_lines_text hart (hart_view s.hub hart)) result) }
{
    hart_lines(hart, &chip.hart(hart), out)
}

/// Writes the line of a CSR.
fn put_csr<O: Sink>(chip: &Chip, hart: u8, addr: u16, out: &mut O) -> Result<(), SinkFault>
    requires { hart ≤ 1 }
    ensures { ForEach ⟦<Chip as Standing>⟧.stands chip.now (λ _ s. Writes O.written O.faults out.old out.new
        (csr_text hart addr (csr_view s.hub hart addr)) result) }
{
    put_line(&csr_line(hart, addr, chip.csr(hart, addr)), out)
}

/// Writes the lines of words, from an address on.
fn put_words<O: Sink>(chip: &Chip, at: u32, count: u32, out: &mut O) -> Result<(), SinkFault>
    requires { count ≤ 64 }
    ensures { ForEach ⟦<Chip as Standing>⟧.stands chip.now (λ _ s. Writes O.written O.faults out.old out.new
        (joined_below (mem_text_in s.hub at) count) result) }
{
    for k in 0..count {
        let address = at.wrapping_add(4 * k);
        put_line(&word_line(address, chip.word(address)), out)?;
    }
    Ok(())
}

/// Does what a command says, where these were read before it.
#[tactic(auto, using(bench_shelf::proofs::Writing::writes_begin), unfolding(crate::specs::Session::done_by))]
fn obey<R: Threads + Sync, C: Ledger, O: Sink>(
    rt: &R,
    chip: &mut Chip,
    bound: u32,
    earlier: &[Command],
    command: Command,
    steps: &mut Steps<C>,
    out: &mut O,
) -> Result<(), SinkFault>
    requires allowed { is_allowed command ≡ true }
    requires bound { ⟦<Chip as Standing>⟧.now chip.old ≤ bound }
    ensures text { InSession ⟦<Chip as Standing>⟧.stands chip.old (λ board s n. Writes O.written O.faults out.old out.new
        (done_by board s bound earlier.now n command).text result) }
    ensures state { OnOk result (InSession ⟦<Chip as Standing>⟧.stands chip.old (λ board s n.
        ⟦<Chip as Standing>⟧.stands board chip.new (after board s (done_by board s bound earlier.now n command).cycles))) }
    ensures bound { OnOk result (⟦<Chip as Standing>⟧.now chip.new ≤ bound) }
{
    match command {
        Command::Break { .. } | Command::Watch { .. } => Ok(()),
        Command::Step { cycles } => put_step(rt, chip, bound, cycles, steps, out),
        Command::Cont => put_cont(rt, chip, bound, earlier, steps, out),
        Command::Regs { hart } => put_hart(chip, hart, out),
        Command::Csr { hart, addr } => put_csr(chip, hart, addr, out),
        Command::Mem { at, count } => put_words(chip, at, count, out),
    }
}

/// Does what commands say, one after another.
fn obey_all<R: Threads + Sync, C: Ledger, O: Sink>(
    rt: &R,
    chip: &mut Chip,
    bound: u32,
    commands: &[Command],
    blank: Blank,
    out: &mut O,
) -> Result<(), SinkFault>
    requires name { blank.name ≡ C.name }
    requires parts { blank.parts ≡ C.parts }
    requires one { 0 < blank.parts }
    requires allowed { list_all is_allowed commands.now ≡ true }
    requires bound { ⟦<Chip as Standing>⟧.now chip.old ≤ bound }
    ensures text { ForEach ⟦<Chip as Standing>⟧.stands chip.old (λ board s. Writes O.written O.faults out.old out.new
        (text_by board s bound [] 0 commands.now) result) }
    ensures state { OnOk result (ForEach ⟦<Chip as Standing>⟧.stands chip.old (λ board s. ⟦<Chip as Standing>⟧.stands board chip.new
        (after board s (cycles_told board s bound commands.now)))) }
{
    let mut steps = Steps::<C>::new(blank);
    for i in 0..commands.len() {
        obey(
            rt,
            chip,
            bound,
            &commands[..i],
            commands[i],
            &mut steps,
            out,
        )?;
    }
    Ok(())
}

/// Does what the commands say, one after another, on a chip whose cycle number is at most `bound`, which no run goes past, and writes
/// the lines of the session, each by one call of the sink:
///
/// - after `step`, `at CYCLE`;
/// - after `cont`, `stop CYCLE` and `break HART PC`, `watch ADDR` or `bound`. The stop is the first one after the cycle count at which
///   the chip stands. At a cycle count a stop holds where a hart is ready with its pc at a break of it, and where the last cycle granted
///   a store, refused or not, one of whose bytes lies in a watched word. Of several stops at one cycle count, hart 0's break goes first,
///   then hart 1's, and then the watch that was added first;
/// - the lines of a hart as a report shows them, the line of a CSR, and the lines of words;
/// - `end` after the last command.
///
/// After Ok the chip stands at the last cycle count that the lines speak of, or where it stood if no line speaks of one. After a refusal
/// the chip is only dropped; `Memory` comes from a run of the chip or from the sink.
#[tactic(auto, unfolding(crate::specs::Session::debug_text))]
pub fn debug<R: Threads + Sync, O: Sink>(
    rt: &R,
    chip: &mut Chip,
    bound: u32,
    commands: &Commands,
    out: &mut O,
) -> Result<(), SinkFault>
    requires { ⟦<Chip as Standing>⟧.now chip.old ≤ bound }
    ensures text { ForEach ⟦<Chip as Standing>⟧.stands chip.old (λ board s. Writes O.written O.faults out.old out.new
        (debug_text board s bound commands.now) result) }
    ensures state { OnOk result (ForEach ⟦<Chip as Standing>⟧.stands chip.old (λ board s. ⟦<Chip as Standing>⟧.stands board chip.new
        (after board s (cycles_told board s bound commands.now)))) }
{
    obey_all::<R, Brand, O>(rt, chip, bound, commands.as_slice(), Blank::new(1), out)?;
    put_line(&end_line(), out)
}

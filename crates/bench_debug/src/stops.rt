//! The stops that hold in a cycle.
ghost use Rattle.std.specs.Prelude.{◌≡◌, ◌<◌, ◌==◌, ◌/◌, ◌%◌, ◌^◌, ◌+◌, option_map};
ghost use Rattle.std.specs.List.{list_any};
ghost use Rattle.bench_debug.specs.Running.{adds_stop};
ghost use Rattle.bench_debug.specs.Stops.{first_met, is_at_break, is_break_at, is_ready, meets, met_by, stop_at_break, stop_at_watch, stop_in};
ghost use Rattle.chip_whole.specs.Stands.{ForEach};

use crate::stop::Stop;
use chip_base::{HartView, PhaseWord};
use chip_net::Chip;
use chip_whole::Standing;
use command_text::Command;

/// Whether a command adds a break of a hart at an address.
fn is_break_at(command: &Command, hart: u8, pc: u32) -> bool
    ensures { result ≡ is_break_at hart pc command.now }
{
    match command {
        Command::Break { hart: h, at } => *h == hart && *at == pc,
        _ => false,
    }
}

fn is_ready(phase: PhaseWord) -> bool
    ensures { result ≡ is_ready phase }
{
    match phase {
        PhaseWord::Ready => true,
        _ => false,
    }
}

/// Whether one of these commands adds a break of a hart at an address.
fn has_break_at(earlier: &[Command], hart: u8, pc: u32) -> bool
    ensures { result ≡ list_any (is_break_at hart pc) earlier.now }
{
    earlier.iter().any(|command| is_break_at(command, hart, pc))
}

/// Whether a command adds a break or a watch.
fn adds_stop(command: &Command) -> bool
    ensures { result ≡ adds_stop command.now }
{
    matches!(command, Command::Break { .. } | Command::Watch { .. })
}

/// Whether one of these commands adds a break or a watch.
pub(crate) fn has_stop(earlier: &[Command]) -> bool
    ensures { result ≡ list_any adds_stop earlier.now }
{
    earlier.iter().any(adds_stop)
}

/// The stop at a break of a hart.
fn stop_at_break(earlier: &[Command], hart: u8, view: &HartView) -> Option<Stop>
    ensures { result ≡ stop_at_break earlier.now hart view.now }
{
    if is_ready(view.phase) && has_break_at(earlier, hart, view.pc) {
        Some(Stop::Break { hart, at: view.pc })
    } else {
        None
    }
}

/// Whether one of the bytes of a store, whose addresses wrap, lies in the word at an address that is a multiple of four.
fn meets(store: (u32, u8), at: u32) -> bool
    ensures { result ≡ meets store at }
{
    (0..u32::from(store.1)).any(|k| store.0.wrapping_add(k) / 4 == at / 4)
}

/// The watched word, where a command adds a watch that a store meets.
fn met_by(store: (u32, u8), command: &Command) -> Option<u32>
    ensures { result ≡ met_by store command.now }
{
    match command {
        Command::Watch { at } if meets(store, *at) => Some(*at),
        _ => None,
    }
}

/// The watch that was added first of those that a store meets.
fn first_met(earlier: &[Command], store: (u32, u8)) -> Option<u32>
    ensures { result ≡ first_met earlier.now store }
{
    for command in earlier {
        if let Some(at) = met_by(store, command) {
            return Some(at);
        }
    }
    None
}

/// The stop at a watch that a store meets, if there was one.
fn stop_at_watch(earlier: &[Command], stored: Option<(u32, u8)>) -> Option<Stop>
    ensures { result ≡ stop_at_watch earlier.now stored }
{
    let at = first_met(earlier, stored?)?;
    Some(Stop::Watch { at })
}

/// The stop that holds: hart 0's break goes before hart 1's, and a break before a watch.
pub(crate) fn stop_in(earlier: &[Command], chip: &Chip) -> Option<Stop>
    ensures { ForEach ⟦<Chip as Standing>⟧.stands chip.now (λ _ s. result ≡ stop_in earlier.now s) }
{
    if let Some(stop) = stop_at_break(earlier, 0, &chip.hart(0)) {
        return Some(stop);
    }
    if let Some(stop) = stop_at_break(earlier, 1, &chip.hart(1)) {
        return Some(stop);
    }
    stop_at_watch(earlier, chip.stored())
}

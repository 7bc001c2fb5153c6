//! Where a run of the debugger ends.
ghost use Rattle.std.specs.Prelude.{ℕ, ◌+◌, ◌-◌, ◌≤◌, List};
ghost use Rattle.chip_whole.specs.Chip.{Board, ChipState};
ghost use Rattle.bench_debug.specs.FirstStop.{IsFirstStop};
ghost use Rattle.bench_debug.specs.Session.{first_stop};
ghost use Rattle.command_text.specs.declared.command.Command.{Command};

/// A run that goes on from some cycle count, at most the bound, ends at the first one above it, and at most the bound, at which a stop
/// holds, with the stop that goes first there; or at the bound, where none holds at any of them.
pub fn of_runs()
    ensures { (board : Board) (s : ChipState) (bound : ℕ) (earlier : List Command) (n : ℕ) → s.cycle + n ≤ bound
        → IsFirstStop board s earlier n (bound - s.cycle) (first_stop board s bound earlier n) }
{}

//! What the units say in a cycle.
ghost use Rattle.std.specs.Prelude.{◌≡◌};
ghost use Rattle.board_units.specs.Messages.{change_event, done_with, word_up};

use chip_base::{Cycle, Event, EventKind, Up};

/// A word goes up.
pub(crate) fn with_word(word: u32) -> Up
    ensures { result ≡ word_up word }
{
    Up {
        has: true,
        word,
        ..Up::SILENT
    }
}

/// Says that a Reset was done, and carries a word.
pub(crate) fn done_and(word: u32) -> Up
    ensures { result ≡ done_with word }
{
    Up {
        has: true,
        word,
        ..Up::DONE
    }
}

/// The event of a unit whose outputs changed. None exactly where they are as before.
pub(crate) fn change(now: Cycle, unit: u8, before: u32, after: u32) -> Option<Event>
    ensures { result ≡ change_event now unit before after }
{
    if before == after {
        return None;
    }
    Some(Event {
        cycle: now,
        unit,
        kind: EventKind::Out,
        value: after,
    })
}

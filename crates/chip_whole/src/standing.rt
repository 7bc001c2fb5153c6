//! The code of a chip, and the definition.
ghost use Rattle.std.specs.Prelude.{ℕ, List};
ghost use Rattle.chip_base.specs.declared.event.Event.{Event};
ghost use Rattle.chip_whole.specs.Chip.{Board, ChipState};

/// A chip in code stands for chips of the definition, over a board.
pub trait Standing {
    /// The part that the chip was handed, whose behaviour `stands` speaks of.
    type Held;

    ghost stands: { Board → Self → ChipState → Type 0 };

    /// The cycle that is next to be stepped.
    ghost now: { Self → ℕ };

    /// The events of the last run.
    ghost told: { Self → List Event };
}

//! The code of a stream link, and the definition.
ghost use Rattle.std.specs.Prelude.{Option};
ghost use Rattle.bench_parts.specs.Behave.{Behaviour};
ghost use Rattle.stream_link.specs.StreamState.{StreamState};

/// A stream link in code stands for units of the definition, over the behaviour that their part had at power-on.
pub trait StreamStanding {
    /// What it was handed, whose behaviour `stands` speaks of.
    type Held;

    ghost stands: { Option Behaviour → Self → StreamState → Type 0 };
}

//! What holds of whatever is done in cycles, however long it runs.
ghost use Rattle.std.specs.Prelude.{ℕ};
ghost use Rattle.chip_base.specs.RunLaws.{RunsByArrivals, RunsInParts, RunsQuietly};
ghost use Rattle.chip_base.specs.Runs.{Transcript};

/// Of each step of a state `S` by the cycle and by an arrival `A`, which sends messages `M` and tells events `E`: a run of cycles is
/// one of the first of them and then one of the rest; it depends on nothing that arrives before or after it; and where none of its
/// cycles says anything, the run doesn't.
pub fn of_runs<S, A, M, E>()
    ensures parts { (step : S → ℕ → A → Transcript S M E) → RunsInParts step }
    ensures arrivals { (step : S → ℕ → A → Transcript S M E) → RunsByArrivals step }
    ensures quiet { (step : S → ℕ → A → Transcript S M E) → RunsQuietly step }
{}

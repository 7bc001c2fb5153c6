//! The answers that a front waits for after Resets.
ghost use Rattle.std.specs.Prelude.{◌≡◌, ◌<◌, ◌-◌};
ghost use Rattle.unit_fronts.specs.Owed.{is_open_at, one_more};

use std::marker::Model;

/// The most answers that a front waits for.
const MOST: u16 = 8_192;

/// How many answers to a Reset are still to come, at most 8,192. The front is open where there are none.
#[derive(Drop)]
pub struct Owed {
    answers: u16,
}

impl Model for Owed {
    ghost use Rattle.std.specs.Prelude.{ℕ, ◌≤◌};

    ghost Value = { ℕ };

    ghost view = { λ o. o.answers };

    ghost invariant = { λ o. o.answers ≤ 8192 };
}

impl Owed {
    /// No answer is owed.
    pub fn none() -> Owed
        ensures { result ≡ 0 }
    {
        Owed { answers: 0 }
    }

    /// Whether no answer is owed.
    pub fn is_open(&self) -> bool
        ensures { result ≡ is_open_at self.now }
    {
        self.answers == 0
    }

    /// One answer more is owed.
    pub fn close(&mut self)
        ensures { self.new ≡ one_more self.old }
    {
        if self.answers < MOST {
            self.answers += 1;
        }
    }

    /// One answer came.
    pub fn answer(&mut self)
        requires { 0 < self.old }
        ensures { self.new ≡ self.old - 1 }
    {
        self.answers -= 1;
    }
}

//! Why a job isn't done.
ghost use Rattle.std.specs.Prelude.{◌≡◌, ◌≢◌, ◌<◌};
ghost use Rattle.bench_plan.specs.Steps.{IsRefusal};

use std::alloc::{AllocError, Global};
use std::marker::Model;

/// A refusal: its status, and the line that is written first. It is seen as the refusal of the definition.
#[derive(Drop)]
pub struct Refusal {
    status: u8,
    line: Vec<u8>,
}

impl Model for Refusal {
    ghost use Rattle.std.specs.Prelude.{◌≢◌, ◌<◌};
    ghost use Rattle.bench_plan.specs.Readings.{Refusal};

    ghost Value = { Refusal };

    ghost view = { λ r. record { status = r.status; text = r.line.items } };

    ghost invariant = { λ r. (0 < r.status) × (r.status ≢ 7) × (r.status ≢ 9) };
}

impl Refusal {
    /// A refusal with this status, which isn't 0, 7 or 9, and this line.
    pub fn new(status: u8, line: Vec<u8>) -> Refusal
        requires positive { 0 < status }
        requires no_failure { status ≢ 7 }
        requires no_want { status ≢ 9 }
        ensures { result ≡ record { status = status; text = line.items } }
    {
        Refusal { status, line }
    }

    /// The status.
    pub fn status(&self) -> u8
        ensures status { result ≡ self.now.status }
        ensures positive { 0 < result }
        ensures no_failure { result ≢ 7 }
        ensures no_want { result ≢ 9 }
    {
        self.status
    }

    /// Lends the line.
    pub fn line(&self) -> &[u8]
        ensures { result.now ≡ self.now.text }
    {
        self.line.as_slice()
    }
}

/// Why a job isn't done.
#[derive(Drop)]
pub enum Stop {
    /// It is refused.
    Refused(Refusal),
    /// Memory was wanted.
    Memory,
}

impl From<AllocError> for Stop {
    ghost use Rattle.std.specs.Prelude.{◌≡◌};
    ghost use Rattle.bench_plan.specs.declared.stop.Stop.TheVariants.{Memory};

    ghost from_gives = { λ _ e. e ≡ Memory };

    fn from(_: AllocError) -> Self {
        Stop::Memory
    }
}

/// A job that is refused with this status, which isn't 0, 7 or 9, and this line.
pub fn refused(alloc: Global, status: u8, line: &[u8]) -> Stop
    requires positive { 0 < status }
    requires no_failure { status ≢ 7 }
    requires no_want { status ≢ 9 }
    ensures { IsRefusal (record { status = status; text = line.now }) result }
{
    match Vec::from_slice(alloc, line) {
        Ok(line) => Stop::Refused(Refusal::new(status, line)),
        Err(_) => Stop::Memory,
    }
}

//! A sink in memory.
ghost use Rattle.std.specs.Prelude.{◌≡◌, ℕ, [], List, Option, Some, Contains, ◌↔◌, OnErr, IsErrOf};
ghost use Rattle.bench_shelf.specs.Counts.{counted};
ghost use Rattle.bench_shelf.specs.Sink.{Writes};

use crate::sink::{Sink, SinkFault};
use std::alloc::Global;

/// A sink that keeps what is written in memory, and whose calls of given numbers fail.
#[derive(Drop)]
pub struct MemSink {
    bytes: Vec<u8>,
    failing: Vec<u64>,
    calls: u64,
    faults: u64,
}

impl MemSink {
    /// An empty sink. Its calls of the numbers in `failing`, counted from 1, fail.
    pub fn new(alloc: Global, failing: Vec<u64>) -> MemSink
        ensures empty { result.bytes.items ≡ [] }
        ensures numbers { result.failing ≡ failing }
        ensures no_calls { result.calls ≡ 0 }
        ensures no_faults { result.faults ≡ 0 }
    {
        MemSink {
            bytes: Vec::new(alloc),
            failing,
            calls: 0,
            faults: 0,
        }
    }

    /// Lends what was written.
    pub fn bytes(&self) -> &[u8]
        ensures { result.now ≡ self.now.bytes.items }
    {
        self.bytes.as_slice()
    }
}

impl Sink for MemSink {
    ghost written = { λ s. Some s.bytes.items };

    ghost faults = { λ s. s.faults };

    fn put(&mut self, bytes: &[u8]) -> Result<(), SinkFault>
        ensures writes { Writes (λ s. Some s.bytes.items) (λ s. s.faults) self.old self.new bytes.now result }
        // the call is counted, and a call that is refused changes no more than that but the count of faults
        ensures numbers { self.new.failing ≡ self.old.failing }
        ensures calls { self.new.calls ≡ counted self.old.calls }
        ensures numbered { IsErrOf result SinkFault.Failed ↔ Contains self.old.failing.items self.new.calls }
        ensures raised { IsErrOf result SinkFault.Failed → self.new.faults ≡ counted self.old.faults }
        ensures no_fault { (IsErrOf result SinkFault.Failed → ⊥) → self.new.faults ≡ self.old.faults }
        ensures refused { OnErr result (self.new.bytes.items ≡ self.old.bytes.items) }
    {
        self.calls = self.calls.saturating_add(1);
        if self.failing.contains(&self.calls) {
            self.faults = self.faults.saturating_add(1);
            return Err(SinkFault::Failed);
        }
        if self.bytes.extend_from_slice(bytes).is_err() {
            return Err(SinkFault::Memory);
        }
        Ok(())
    }
}

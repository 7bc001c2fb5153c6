//! The part `counter`.
ghost use Rattle.std.specs.Prelude.{◌≡◌};
ghost use Rattle.bench_parts.specs.Parts.{counted};
ghost use Rattle.bench_parts.specs.Packets.{CountsPackets};

use crate::event::{PartEvent, PartReply};
use crate::part::Part;

/// Replies to each event that is last, and to no other: with the number of words since the previous last word, this one included,
/// modulo 2^32.
#[derive(Drop)]
pub struct Counter {
    /// How many words came since the previous last word.
    begun: u32,
}

impl Counter {
    /// The part, before any event. It takes no memory.
    #[tactic(auto, using(crate::proofs::Counting::counts_packets))]
    pub fn new() -> Counter
        ensures replies { ⟦<Counter as Part>⟧.behave result ≡ counted 0 }
        ensures packets { CountsPackets (⟦<Counter as Part>⟧.behave result) }
    {
        Counter { begun: 0 }
    }
}

impl Part for Counter {
    ghost behave = { λ counter. counted counter.begun };

    fn on(&mut self, ev: PartEvent) -> PartReply {
        let count = self.begun.wrapping_add(1);
        if ev.last {
            self.begun = 0;
            return PartReply {
                has: true,
                word: count,
            };
        }
        self.begun = count;
        PartReply {
            has: false,
            word: 0,
        }
    }
}

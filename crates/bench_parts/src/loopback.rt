//! The part `loop`.
ghost use Rattle.std.specs.Prelude.{◌≡◌};
ghost use Rattle.bench_parts.specs.Parts.{looped};

use crate::event::{PartEvent, PartReply};
use crate::part::Part;

/// Replies to each event with its word.
#[derive(Drop)]
pub struct Loop;

impl Loop {
    /// The part. It takes no memory.
    pub fn new() -> Loop
        ensures { ⟦<Loop as Part>⟧.behave result ≡ looped }
    {
        Loop
    }
}

impl Part for Loop {
    ghost behave = { λ _. looped };

    #[tactic(auto, using(crate::proofs::Answering::answers_each))]
    fn on(&mut self, ev: PartEvent) -> PartReply {
        PartReply {
            has: true,
            word: ev.word,
        }
    }
}

//! The part `scramble`.
ghost use Rattle.std.specs.Prelude.{◌≡◌};
ghost use Rattle.bench_parts.specs.Parts.{scrambled};

use crate::event::{PartEvent, PartReply};
use crate::part::Part;

/// Replies to each event with its word, rotated left by 7 bits and then XORed with 5a5a5a5a.
#[derive(Drop)]
pub struct Scramble;

impl Scramble {
    /// The part. It takes no memory.
    pub fn new() -> Scramble
        ensures { ⟦<Scramble as Part>⟧.behave result ≡ scrambled }
    {
        Scramble
    }
}

impl Part for Scramble {
    ghost behave = { λ _. scrambled };

    #[tactic(auto, using(crate::proofs::Answering::answers_each))]
    fn on(&mut self, ev: PartEvent) -> PartReply {
        PartReply {
            has: true,
            word: ev.word.rotate_left(7) ^ 0x5a5a_5a5a,
        }
    }
}

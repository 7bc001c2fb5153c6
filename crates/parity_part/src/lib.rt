//! A part that checks packets by their longitudinal parity: a packet is whole where the XOR of all its words is zero, as it is where its
//! last word is the XOR of the others.
#![tactic(auto)]

ghost use Rattle.std.specs.Prelude.{◌≡◌};
ghost use Rattle.parity_part.specs.Parity.{ChecksPackets, parity_after, parity_replies, parity_reply};

use bench_parts::{Part, PartEvent, PartReply};

/// Replies to each event that is last, and to no other: with 0 where the words since the previous last word, its own included, have
/// the XOR 0, and with 1 otherwise.
#[derive(Drop)]
pub struct Parity {
    /// The XOR of the words since the previous last word.
    parity: u32,
}

impl Parity {
    /// The part, before any event. It takes no memory.
    #[tactic(auto, using(crate::proofs::Packets::checks_packets))]
    pub fn new() -> Parity
        ensures replies { ⟦<Parity as Part>⟧.behave result ≡ parity_replies 0 }
        ensures packets { ChecksPackets (⟦<Parity as Part>⟧.behave result) }
    {
        Parity { parity: 0 }
    }
}

/// The reply to an event.
fn reply(parity: u32, ev: PartEvent) -> PartReply
    ensures { result ≡ parity_reply parity ev }
{
    if !ev.last {
        return PartReply {
            has: false,
            word: 0,
        };
    }
    PartReply {
        has: true,
        word: if parity ^ ev.word == 0 { 0 } else { 1 },
    }
}

/// What is remembered after an event.
fn after(parity: u32, ev: PartEvent) -> u32
    ensures { result ≡ parity_after parity ev }
{
    if ev.last { 0 } else { parity ^ ev.word }
}

impl Part for Parity {
    ghost behave = { λ part. parity_replies part.parity };

    fn on(&mut self, ev: PartEvent) -> PartReply {
        let parity = self.parity;
        self.parity = after(parity, ev);
        reply(parity, ev)
    }
}

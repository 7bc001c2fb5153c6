//! The stream link's unit, one cycle at a time.
ghost use Rattle.std.specs.Prelude.{◌≡◌, List, [], ◌∷◌, length, Option, Some, option_map};
ghost use Rattle.bench_parts.specs.Behave.{Behaviour};
ghost use Rattle.bench_parts.specs.declared.event.PartEvent.{PartEvent};
ghost use Rattle.stream_link.specs.Laws.{AsksInOrder, CountsWaiting, KeepsPace, PassesAtOnce, PassesInOrder};
ghost use Rattle.stream_link.specs.Standing.{Asked, BehavesAfter, Passed, StreamStands};
ghost use Rattle.stream_link.specs.StreamCycle.{link_event, reply_up, stream_cycle, worked};
ghost use Rattle.stream_link.specs.StreamState.{StreamState, stream_start};

use crate::queue::WordQueue;
use crate::standing::StreamStanding;
use crate::word::StreamWord;
use bench_parts::{Part, PartEvent, PartReply};
use chip_base::{ChipUnit, Cycle, Down, Event, EventKind, UnitOut, Up};

/// The unit of the stream link, with the part that it is fitted with, if there is one: each word that it passes is an event, and the
/// part is called with it once. Without a part words are passed too, and no word comes back.
///
/// At most sixteen words wait; one more is lost, and no credit goes up for it. Behind each word is a gap of three cycles, in which none
/// is passed. A Reset loses what waits and ends the gap; the part isn't told of it. No call takes memory.
#[derive(Drop)]
pub struct Stream {
    queue: WordQueue,
    part: Option<Box<dyn Part + Send>>,
}

impl StreamStanding for Stream {
    type Held = Box<dyn Part + Send>;

    ghost stands = { λ part stream s. StreamStands (BehavesAfter part (option_map (λ b. (Part-box b).behave b.value) stream.part)) stream.queue s };
}

/// Calls a part.
fn call(part: &mut Box<dyn Part + Send>, ev: PartEvent) -> PartReply
    ensures replies { (later : List PartEvent) → behave part.old (ev ∷ later) ≡ result ∷ behave part.new later }
    ensures none { length (behave part.new []) ≡ 0 }
{
    part.on(ev)
}

/// Calls the part, if there is one.
fn ask(part: &mut Option<Box<dyn Part + Send>>, ev: PartEvent) -> PartReply
    ensures { (start : Option Behaviour) (passed : List PartEvent) → BehavesAfter start (option_map (λ b. behave b) part.old) passed
        → Asked start passed ev (option_map (λ b. behave b) part.new) result }
{
    match part {
        Some(part) => call(part, ev),
        None => PartReply {
            has: false,
            word: 0,
        },
    }
}

/// What goes up with a reply: a credit, and beside it the word of the reply, if it has one.
fn reply_up(reply: PartReply) -> Up
    ensures { result ≡ reply_up reply }
{
    if !reply.has {
        return Up::CREDIT;
    }
    Up {
        has: true,
        word: reply.word,
        ..Up::CREDIT
    }
}

/// The event of a word.
fn link_event(now: Cycle, word: StreamWord) -> Event
    ensures { result ≡ link_event now word }
{
    Event {
        cycle: now,
        unit: ChipUnit::Slink.number(),
        kind: if word.last {
            EventKind::Last
        } else {
            EventKind::Word
        },
        value: word.word,
    }
}

/// A word is passed to the part, if there is one.
#[inline(never)]
fn pass(part: &mut Option<Box<dyn Part + Send>>, now: Cycle, word: StreamWord) -> UnitOut
    ensures asks { (start : Option Behaviour) (passed : List PartEvent) → BehavesAfter start (option_map (λ b. behave b) part.old) passed
        → Passed start passed now word (option_map (λ b. behave b) part.new) result.up }
    ensures event { result.event ≡ Some (link_event now word) }
{
    let reply = ask(
        part,
        PartEvent {
            cycle: now,
            word: word.word,
            last: word.last,
        },
    );
    UnitOut {
        up: Some(reply_up(reply)),
        event: Some(link_event(now, word)),
    }
}

impl Stream {
    /// The unit at power-on, with this part.
    #[tactic(auto, using(crate::proofs::Asks::asks_in_order), unfolding(crate::specs::Standing::BehavesAfter))]
    pub fn new(part: Option<Box<dyn Part + Send>>) -> Stream
        ensures stands { ⟦<Stream as StreamStanding>⟧.stands (option_map (λ b. behave b) part) result stream_start }
        ensures asks { (part : Option Behaviour) → AsksInOrder part }
        ensures pace { (part : Option Behaviour) → KeepsPace part }
    {
        Stream {
            queue: WordQueue::new(),
            part,
        }
    }

    #[inline(always)]
    fn work(&mut self, now: Cycle) -> UnitOut
        ensures { (part : Option Behaviour) (s : StreamState) → ⟦<Stream as StreamStanding>⟧.stands part self.old s
            → ⟦<Stream as StreamStanding>⟧.stands part self.new (worked part s now).unit
            × (result.up ≡ (worked part s now).up) × (result.event ≡ (worked part s now).event) }
    {
        match self.queue.next_word() {
            Some(word) => pass(&mut self.part, now, word),
            None => UnitOut::QUIET,
        }
    }

    /// One cycle: takes the message that arrives in it, if there is one, then passes the word that waits first, if the unit is enabled
    /// and no gap is left. Gives what leaves the unit: the event of that word, and with its credit the word that the part replied, if
    /// it did. In the cycle of a Reset only its answer, done, goes up.
    #[inline(always)]
    pub fn cycle(&mut self, now: Cycle, down: Option<Down>) -> UnitOut
        ensures stands { (part : Option Behaviour) (s : StreamState) → ⟦<Stream as StreamStanding>⟧.stands part self.old s
            → ⟦<Stream as StreamStanding>⟧.stands part self.new (stream_cycle part s now down).unit
            × (result.up ≡ (stream_cycle part s now down).up) × (result.event ≡ (stream_cycle part s now down).event) }
        ensures order { (part : Option Behaviour) (s : StreamState) → PassesInOrder part s now down (stream_cycle part s now down) }
        ensures at_once { (part : Option Behaviour) (s : StreamState) → PassesAtOnce s down (stream_cycle part s now down) }
        ensures count { (part : Option Behaviour) (s : StreamState) → CountsWaiting s down (stream_cycle part s now down) }
    {
        match down {
            Some(Down::Reset) => {
                self.queue = WordQueue::new();
                UnitOut {
                    up: Some(Up::DONE),
                    event: None,
                }
            }
            Some(Down::Set { reg, word }) => {
                self.queue.set(reg, word);
                self.work(now)
            }
            None => self.work(now),
        }
    }
}

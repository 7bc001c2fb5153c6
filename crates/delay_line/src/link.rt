//! A link in one direction.
ghost use Rattle.std.specs.Prelude.{◌≡◌, ◌+◌, ◌<◌, ◌≤◌, ◌^◌, IfOk, OnOk, Option, length};
ghost use Rattle.std.specs.VecDeque.{deque_capacity};
ghost use Rattle.soc_words.specs.Link.{link_first, link_moved};
ghost use Rattle.delay_line.specs.Arrival.{ArrivesOnTime};
ghost use Rattle.delay_line.specs.Queue.{Flow, arriving_of, empty_link, flowed, left_after};

use chip_base::{Cycle, NoMemory};
use std::alloc::Global;
use std::collections::VecDeque;
use std::marker::Model;

/// A message and the cycle in which it arrives.
#[derive(Clone, Copy, Debug, PartialEq, Eq)]
pub struct Timed<M> {
    pub at: Cycle,
    pub msg: M,
}

/// A link in one direction with a delay of 1 to 4,096 cycles. Contracts see the list of its places, one for each cycle of the
/// delay, the one that arrives next first.
#[derive(Drop)]
pub struct DelayLine<M: Copy> {
    queue: VecDeque<Timed<M>>,
    cycle: Cycle,
    delay: u32,
}

impl<M: Copy> Model for DelayLine<M> {
    ghost use Rattle.std.specs.Prelude.{◌+◌, ◌≤◌};
    ghost use Rattle.std.specs.VecDeque.{deque_capacity};
    ghost use Rattle.delay_line.specs.Queue.{places_of, ArriveIn, Flow};

    ghost Value = { Flow M };

    ghost view = { λ l. record { cycle = l.cycle; places = places_of l.queue.items l.cycle l.delay } };

    ghost invariant = { λ l. (1 ≤ l.delay) × (l.delay ≤ 4096) × (l.delay ≤ deque_capacity l.queue) × ArriveIn l.cycle (l.cycle + l.delay) l.queue.items };
}

/// The message that arrives in a cycle.
#[inline(always)]
fn arriving_in<M: Copy>(queue: &VecDeque<Timed<M>>, now: Cycle) -> Option<M>
    ensures { result ≡ arriving_of queue.now.items now }
{
    match queue.front() {
        Some(first) => {
            if first.at == now {
                Some(first.msg)
            } else {
                None
            }
        }
        None => None,
    }
}

/// Takes off the message that arrives in this cycle, if one does.
#[inline(always)]
fn take_arrived<M: Copy>(queue: &mut VecDeque<Timed<M>>, now: Cycle)
    ensures items { queue.new.items ≡ left_after queue.old.items now }
    ensures capacity { deque_capacity queue.new ≡ deque_capacity queue.old }
{
    let arrived = match queue.front() {
        Some(first) => first.at == now,
        None => false,
    };
    if arrived {
        queue.pop_front();
    }
}

impl<M: Copy> DelayLine<M> {
    /// A link with this delay in cycles and nothing on its way, at cycle 0.
    #[tactic(auto, using(crate::proofs::Places::places_of_nothing))]
    pub fn new(alloc: Global, delay: u32) -> Result<DelayLine<M>, NoMemory>
        requires { (1 ≤ delay) × (delay ≤ 4096) }
        ensures link { IfOk result (λ l. l ≡ record { cycle = 0; places = empty_link delay }) }
        ensures places { IfOk result (λ l. length l.places ≡ delay) }
    {
        let Ok(queue) = VecDeque::with_capacity(alloc, delay as usize) else {
            return Err(NoMemory);
        };
        Ok(DelayLine {
            queue,
            cycle: 0,
            delay,
        })
    }

    /// The message that arrives in this cycle.
    #[inline(always)]
    #[tactic(auto, using(crate::proofs::Places::arriving_first))]
    pub fn arriving(&self) -> Option<M>
        ensures { result ≡ link_first self.now.places }
    {
        arriving_in(&self.queue, self.cycle)
    }

    /// Ends the cycle, in which `sent` was sent. It arrives as many cycles later as the link has places, which is its delay.
    #[inline(always)]
    pub fn step(&mut self, sent: Option<M>)
        requires { self.old.cycle + 4096 < 2 ^ 64 }
        ensures link { self.new ≡ flowed self.old sent }
        ensures places { length self.new.places ≡ length self.old.places }
        ensures on_time { ArrivesOnTime self.old sent }
    {
        take_arrived(&mut self.queue, self.cycle);
        let at = self.cycle + u64::from(self.delay);
        self.cycle += 1;
        if let Some(msg) = sent {
            self.queue.push_back_reserved(Timed { at, msg });
        }
    }
}

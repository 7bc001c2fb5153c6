//! The words that wait in a stream link, and when the next one is passed.
ghost use Rattle.std.specs.Prelude.{◌≡◌};

use crate::word::StreamWord;
use arrayvec::ArrayVec;
use std::marker::Model;

/// At most sixteen words wait; one more is lost. No call takes memory.
#[derive(Drop)]
pub(crate) struct WordQueue {
    enabled: bool,
    gap: u32,
    waiting: ArrayVec<StreamWord, 16>,
}

impl Model for WordQueue {
    ghost use Rattle.std.specs.Prelude.{◌≤◌};
    ghost use Rattle.arrayvec.specs.ArrayVec.{array_vec_len};
    ghost use Rattle.stream_link.specs.StreamState.{QueueState};

    ghost Value = { QueueState };

    ghost view = { λ q. record { enabled = q.enabled; gap = q.gap; waiting = q.waiting.items } };

    ghost invariant = { λ q. array_vec_len q.waiting ≤ 16 };
}

impl WordQueue {
    ghost use Rattle.stream_link.specs.StreamState.{queue_reset};
    ghost use Rattle.stream_link.specs.StreamCycle.{configured, next_word, queue_after, queued, set_in};

    /// The reset state: disabled, and nothing waits.
    pub fn new() -> WordQueue
        ensures { result ≡ queue_reset }
    {
        WordQueue {
            enabled: false,
            gap: 0,
            waiting: ArrayVec::new(),
        }
    }

    fn configure(&mut self, control: u32)
        ensures { self.new ≡ configured self.old control }
    {
        self.enabled = control % 2 == 1;
    }

    fn append(&mut self, word: StreamWord)
        ensures { self.new ≡ queued self.old word }
    {
        if !self.waiting.is_full() {
            self.waiting.push(word);
        }
    }

    /// A register is set.
    #[inline(never)]
    pub fn set(&mut self, reg: u8, word: u32)
        ensures { self.new ≡ set_in self.old reg word }
    {
        match reg {
            0 => self.configure(word),
            4 => self.append(StreamWord { word, last: false }),
            8 => self.append(StreamWord { word, last: true }),
            _ => {}
        }
    }

    /// A cycle's work: gives the word that is passed in it, if one is.
    #[inline(always)]
    pub fn next_word(&mut self) -> Option<StreamWord>
        ensures word { result ≡ next_word self.old }
        ensures queue { self.new ≡ queue_after self.old (next_word self.old) }
    {
        if !self.enabled || self.gap > 0 {
            self.gap = self.gap.saturating_sub(1);
            return None;
        }
        let word = self.waiting.pop_at(0)?;
        self.gap = 3;
        Some(word)
    }
}

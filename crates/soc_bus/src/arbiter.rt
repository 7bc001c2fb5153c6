//! Who is served where several masters want the bus.
ghost use Rattle.std.specs.Prelude.{◌≡◌, ◌<◌, ℕ, [], ◌∷◌, Contains, IsNone, IfNone, Some, true};
ghost use Rattle.soc_bus.specs.Rotation.{ArbiterState, granted, after_grant, next_of, served_in_turn, wants_it};
ghost use Rattle.soc_bus.specs.declared.arbiter.Master.{Master};
ghost use Rattle.soc_bus.specs.declared.arbiter.Master.TheVariants.{Core0, Core1, Dma};

use std::marker::Model;

/// Who makes accesses.
#[derive(Clone, Copy)]
pub enum Master {
    Core0,
    Core1,
    Dma,
}

impl Master {
    /// The master whose turn comes after this one's.
    fn next(self) -> Master
        ensures { result ≡ next_of self }
    {
        match self {
            Master::Core0 => Master::Core1,
            Master::Core1 => Master::Dma,
            Master::Dma => Master::Core0,
        }
    }

    /// Whether this master's bit is set.
    fn is_in(self, wants: u8) -> bool
        ensures { result ≡ wants_it wants self }
    {
        match self {
            Master::Core0 => wants % 2 == 1,
            Master::Core1 => wants / 2 % 2 == 1,
            Master::Dma => wants / 4 % 2 == 1,
        }
    }
}

/// Serves the masters in rotation.
#[derive(Drop)]
pub struct Arbiter {
    last: Master,
}

impl Model for Arbiter {
    ghost use Rattle.soc_bus.specs.Rotation.{ArbiterState};

    ghost Value = { ArbiterState };

    ghost view = { λ a. record { last = a.last } };
}

impl Arbiter {
    /// An arbiter whose last served master is the DMA.
    pub fn new() -> Arbiter
        ensures { result ≡ record { last = Dma } }
    {
        Arbiter { last: Master::Dma }
    }

    /// Serves one of the masters that want the bus: the first from the one after the last served on. Bits 0, 1 and 2 of
    /// `wants` are core 0, core 1 and the DMA. None exactly where nobody wants; the arbiter is unchanged then.
    pub fn grant(&mut self, wants: u8) -> Option<Master>
        requires { wants < 8 }
        ensures served { result ≡ granted self.old wants }
        ensures turns { self.new ≡ after_grant self.old wants }
        ensures none { IsNone result → wants ≡ 0 }
        // A master that goes on wanting is served within three grants, whoever else wants.
        ensures soon { (master : Master) (second third : ℕ) → wants_it wants master ≡ true → wants_it second master ≡ true → wants_it third master ≡ true
            → Contains (served_in_turn self.old (wants ∷ second ∷ third ∷ [])) (Some master) }
        ensures idle { wants ≡ 0 → (result ≡ None) × (self.new ≡ self.old) }
    {
        let first = self.last.next();
        let second = first.next();
        let served = if first.is_in(wants) {
            first
        } else if second.is_in(wants) {
            second
        } else if self.last.is_in(wants) {
            self.last
        } else {
            return None;
        };
        self.last = served;
        Some(served)
    }
}

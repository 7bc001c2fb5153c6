//! The links between a front in the hub and its unit.
ghost use Rattle.std.specs.Prelude.{◌≡◌, ◌<◌, ◌+◌, ◌^◌, suc, IfOk};
ghost use Rattle.chip_base.specs.Settings.{values_of};
ghost use Rattle.chip_whole.specs.Chip.{delay_of};
ghost use Rattle.delay_line.specs.Queue.{empty_link};
ghost use Rattle.soc_words.specs.Link.{link_first, link_moved};

use chip_base::{Down, NoMemory, Setup, Up};
use delay_line::DelayLine;
use std::alloc::Global;
use std::marker::Model;

/// The two links of a unit: down from its front, and up to it. Both have the unit's delay.
pub(crate) struct Links {
    down: DelayLine<Down>,
    up: DelayLine<Up>,
}

/// Written out, so that a function that drops links has one call in its proof.
impl Drop for Links {
    fn drop(self) {
        let Links { down: _, up: _ } = self;
    }
}

impl Model for Links {
    ghost use Rattle.std.specs.Prelude.{◌≡◌};
    ghost use Rattle.chip_net.specs.Links.{LinkState};

    ghost Value = { LinkState };

    ghost view = { λ l. record { cycle = l.down.cycle; down = l.down.places; up = l.up.places } };

    ghost invariant = { λ l. l.up.cycle ≡ l.down.cycle };
}

impl Links {
    /// The links of a unit, by its place among the settings' delays, at cycle 0 with nothing on its way.
    #[tactic(auto, using(crate::proofs::Delays::delay_at))]
    pub(crate) fn new(alloc: Global, setup: &Setup, place: usize) -> Result<Links, NoMemory>
        requires { place < 7 }
        ensures { IfOk result (λ l. l ≡ record {
          cycle = 0;
          down = empty_link (delay_of (values_of setup.now) place);
          up = empty_link (delay_of (values_of setup.now) place);
        }) }
    {
        let delay = setup.delay[place];
        let down = DelayLine::new(alloc, delay)?;
        let up = DelayLine::new(alloc, delay)?;
        Ok(Links { down, up })
    }

    /// The message that arrives at the unit in this cycle.
    #[inline(always)]
    pub(crate) fn at_unit(&self) -> Option<Down>
        ensures { result ≡ link_first self.now.down }
    {
        self.down.arriving()
    }

    /// The message that arrives at the front in this cycle.
    #[inline(always)]
    pub(crate) fn at_front(&self) -> Option<Up>
        ensures { result ≡ link_first self.now.up }
    {
        self.up.arriving()
    }

    /// Ends the cycle, in which these messages were sent.
    #[inline(always)]
    pub(crate) fn step(&mut self, down: Option<Down>, up: Option<Up>)
        requires { self.old.cycle + 4096 < 2 ^ 64 }
        ensures { self.new ≡ record { cycle = suc self.old.cycle; down = link_moved self.old.down down; up = link_moved self.old.up up } }
    {
        self.down.step(down);
        self.up.step(up);
    }
}

//! The boot monitor, one reply at a time.
ghost use Rattle.std.specs.Prelude.{◌≡◌, ℕ, List, Option, Some, None, IsOk};
ghost use Rattle.soc_bus.specs.Map.{admitted};
ghost use Rattle.soc_bus.specs.Memory.{IsSize};
ghost use Rattle.soc_bus.specs.declared.access.Request.{Request};
ghost use Rattle.boot_monitor.specs.Actions.{next};
ghost use Rattle.boot_monitor.specs.Standing.{IsDue, IsMine, Stands, given_by};
ghost use Rattle.boot_monitor.specs.declared.exchange.MonitorOut.TheVariants.{Bus};

use crate::exchange::{MonitorIn, MonitorOut};
use crate::phases::{MonitorState, Phase};
use crate::tally::Tally;
use std::marker::Model;

/// The boot monitor: it makes bus requests in core 0's place, until it hands over. No call takes memory.
#[derive(Drop)]
pub struct Monitor {
    state: MonitorState,
}

impl Model for Monitor {
    ghost use Rattle.boot_monitor.specs.declared.phases.MonitorState.{MonitorState};
    ghost use Rattle.boot_monitor.specs.Phases.{IsSound};

    ghost Value = { MonitorState };

    ghost view = { λ m. m.state };

    ghost invariant = { λ m. IsSound m.state };
}

impl Monitor {
    /// A monitor that wasn't started yet, in a chip whose IMEM has `room` bytes, a multiple of 4,096 from 4,096 to 1,048,576.
    /// `ctrl` is the word that it writes to UART0's CTRL.
    pub fn new(room: u32, ctrl: u32) -> Monitor
        requires { IsSize room }
        ensures stands { Stands result room ctrl None }
        ensures due { IsDue result MonitorIn.Start }
    {
        let state = MonitorState {
            room,
            ctrl,
            phase: Phase::Unstarted,
            held: None,
            status: 0,
            tally: Tally::new(),
        };
        Monitor { state }
    }

    /// Begins, or takes the word that answers the last request, and gives the next request, which has the width Word, or hands over.
    /// Start comes first and once, words afterwards, and nothing after the hand-over. A store may be answered by any word.
    pub fn act(&mut self, reply: MonitorIn) -> MonitorOut
        requires due { IsDue self.old reply }
        ensures answer { (room ctrl : ℕ) (given : Option (List ℕ)) → Stands self.old room ctrl given
            → Stands self.new room ctrl (Some (given_by given reply)) × (result ≡ next room ctrl (given_by given reply)) }
        ensures due { (request : Request) (word : ℕ) → result ≡ Bus request → IsDue self.new (MonitorIn.Word word) }
        ensures mine { (room ctrl : ℕ) (given : Option (List ℕ)) (request : Request) → Stands self.old room ctrl given → result ≡ Bus request → IsMine room request }
        // The map refuses none of its requests.
        ensures admitted { (room ctrl dmem : ℕ) (given : Option (List ℕ)) (request : Request) → Stands self.old room ctrl given → result ≡ Bus request
            → IsOk (admitted request room dmem) }
    {
        self.state = self.state.replied(reply);
        self.state.request()
    }
}

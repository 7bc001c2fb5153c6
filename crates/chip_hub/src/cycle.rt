//! One cycle of the hub.
ghost use Rattle.std.specs.Prelude.{◌≡◌, ◌<◌, ◌≤◌, ◌++◌, ℕ, List, Some, None, false, true};
ghost use Rattle.chip_base.specs.declared.hart.IssueRecord.{IssueRecord as Record};
ghost use Rattle.chip_hub.specs.Cycle.{fires, hub_cycle, hub_worked, reset_by, seat_after, served, served_core0, served_core1, served_dma, served_to, turn0, wanted0, wants_of};
ghost use Rattle.chip_hub.specs.Kept.{IssuesStand, SeatStands, StepStands};
ghost use Rattle.chip_hub.specs.Lines.{mip_of};
ghost use Rattle.chip_hub.specs.Observed.{hub_issues, hub_stored, stored_by, wanted_of, worked_issues, worked_stored};
ghost use Rattle.chip_hub.specs.Seat.{Seat};
ghost use Rattle.chip_hub.specs.Units.{messages_in, resets};
ghost use Rattle.core_pair.specs.Core.{wanted_in};
ghost use Rattle.core_pair.specs.Turn.{turned};
ghost use Rattle.dma_unit.specs.DmaRegisters.{dma_wanted};
ghost use Rattle.soc_bus.specs.Rotation.{granted};

use crate::access::{RESETS, SILENT};
use crate::hub::Hub;
use chip_base::{ChipUnit, Cycle, Down, IssueRecord, Up};
use core_pair::{Core, Phase};
use soc_bus::{Master, Request};

/// Whether the watchdog says that it fired.
fn fires(ups: &[Option<Up>; 7]) -> bool
    ensures { result ≡ fires ups.now }
{
    match ups[ChipUnit::Wdt.place()] {
        Some(up) => up.fire,
        None => false,
    }
}

/// The address of a request's store, and the number of its bytes. None for a load.
fn store_of(request: &Request) -> Option<(u32, u8)>
    ensures { result ≡ stored_by (Some request.now) }
{
    match request.store {
        Some(_) => Some((request.addr, request.width.bytes() as u8)),
        None => None,
    }
}

impl Hub {
    /// The monitor's turn in core 0's place: where it hands over, core 0 is as at reset.
    fn monitor_turn(&mut self, now: Cycle)
        requires { self.old.hub.core0.phase ≡ Phase.Monitor }
        ensures hub { (seat : Seat) → SeatStands self.old.seat seat → self.new.hub ≡ turn0 self.old.hub seat now }
        ensures seat { (seat : Seat) → SeatStands self.old.seat seat → SeatStands self.new.seat (seat_after seat now self.old.hub.core0.phase) }
        ensures rest { self.new.hub ≡ record self.old.hub { core0 = self.new.hub.core0 } }
        ensures issues { self.new.issues ≡ self.old.issues }
    {
        if self.seat.turn(now) {
            self.complex.core0 = Core::new(0);
        }
    }

    /// Core 0's turn, or the monitor's. Gives what core 0 issues.
    #[tactic(auto, using(crate::proofs::Observed::monitor_issues))]
    fn turn0(&mut self, now: Cycle) -> Option<IssueRecord>
        ensures hub { (seat : Seat) → SeatStands self.old.seat seat → self.new.hub ≡ turn0 self.old.hub seat now }
        ensures seat { (seat : Seat) → SeatStands self.old.seat seat → SeatStands self.new.seat (seat_after seat now self.old.hub.core0.phase) }
        ensures issued { result ≡ (turned self.old.hub.core0 now (mip_of self.old.hub 0) self.old.hub.memory).issued }
        ensures rest { self.new.hub ≡ record self.old.hub { core0 = self.new.hub.core0 } }
        ensures issues { self.new.issues ≡ self.old.issues }
    {
        match self.complex.phase0() {
            Phase::Monitor => {
                self.monitor_turn(now);
                None
            }
            _ => self.complex.turn0(now),
        }
    }

    /// What core 0, or the monitor in its place, wants of the bus.
    fn want0(&self) -> Option<Request>
        ensures { (seat : Seat) → SeatStands self.now.seat seat → result ≡ wanted0 seat self.now.hub.core0.phase }
    {
        match self.complex.phase0() {
            Phase::Monitor => self.seat.standing(),
            _ => self.complex.core0.want(),
        }
    }

    /// The bits of the masters that want the bus.
    fn wants(&self) -> u8
        ensures value { (seat : Seat) → SeatStands self.now.seat seat → result ≡ wants_of self.now.hub seat }
        ensures below { result < 8 }
    {
        u8::from(self.want0().is_some())
            + 2 * u8::from(self.complex.want1().is_some())
            + 4 * u8::from(self.complex.want2().is_some())
    }

    /// The monitor is granted the request that stands, if one does.
    fn serve_monitor(&mut self) -> [Option<Down>; 7]
        requires monitor { self.old.hub.core0.phase ≡ Phase.Monitor }
        requires stored { self.old.stored ≡ None }
        ensures step { (seat : Seat) → SeatStands self.old.seat seat
            → StepStands self.new result (served_core0 self.old.hub seat (wanted0 seat self.old.hub.core0.phase)) }
        ensures stored { (seat : Seat) → SeatStands self.old.seat seat → self.new.stored ≡ stored_by (wanted0 seat self.old.hub.core0.phase) }
        ensures issues { self.new.issues ≡ self.old.issues }
        ensures messages { messages_in result ≤ 1 }
    {
        let Some(request) = self.seat.standing() else {
            return SILENT;
        };
        self.stored = store_of(&request);
        let access = self.complex.access(&request);
        self.seat.answer(access.answer.unwrap_or(0));
        access.downs
    }

    fn serve0(&mut self) -> [Option<Down>; 7]
        requires { self.old.stored ≡ None }
        ensures step { (seat : Seat) → SeatStands self.old.seat seat
            → StepStands self.new result (served_core0 self.old.hub seat (wanted0 seat self.old.hub.core0.phase)) }
        ensures stored { (seat : Seat) → SeatStands self.old.seat seat → self.new.stored ≡ stored_by (wanted0 seat self.old.hub.core0.phase) }
        ensures issues { self.new.issues ≡ self.old.issues }
        ensures messages { messages_in result ≤ 1 }
    {
        match self.complex.phase0() {
            Phase::Monitor => self.serve_monitor(),
            Phase::Want(request) => {
                self.stored = store_of(&request);
                self.complex.serve0(&request)
            }
            _ => SILENT,
        }
    }

    fn serve1(&mut self) -> [Option<Down>; 7]
        requires { self.old.stored ≡ None }
        ensures step { (seat : Seat) → SeatStands self.old.seat seat
            → StepStands self.new result (served_core1 self.old.hub seat (wanted_in self.old.hub.core1.phase)) }
        ensures stored { self.new.stored ≡ stored_by (wanted_in self.old.hub.core1.phase) }
        ensures issues { self.new.issues ≡ self.old.issues }
        ensures messages { messages_in result ≤ 1 }
    {
        let Some(request) = self.complex.want1() else {
            return SILENT;
        };
        self.stored = store_of(&request);
        self.complex.serve1(&request)
    }

    fn serve2(&mut self) -> [Option<Down>; 7]
        requires { self.old.stored ≡ None }
        ensures step { (seat : Seat) → SeatStands self.old.seat seat
            → StepStands self.new result (served_dma self.old.hub seat (dma_wanted self.old.hub.dma)) }
        ensures stored { self.new.stored ≡ stored_by (dma_wanted self.old.hub.dma) }
        ensures issues { self.new.issues ≡ self.old.issues }
        ensures messages { messages_in result ≤ 1 }
    {
        let Some(request) = self.complex.want2() else {
            return SILENT;
        };
        self.stored = store_of(&request);
        self.complex.serve2(&request)
    }

    /// The master that the bus is granted to makes its access.
    #[inline(always)]
    fn serve_master(&mut self, master: Option<Master>) -> [Option<Down>; 7]
        requires { self.old.stored ≡ None }
        ensures step { (seat : Seat) → SeatStands self.old.seat seat → StepStands self.new result (served_to self.old.hub seat master) }
        ensures stored { (seat : Seat) → SeatStands self.old.seat seat → self.new.stored ≡ stored_by (wanted_of self.old.hub seat master) }
        ensures issues { self.new.issues ≡ self.old.issues }
        ensures messages { messages_in result ≤ 1 }
    {
        match master {
            Some(Master::Core0) => self.serve0(),
            Some(Master::Core1) => self.serve1(),
            Some(Master::Dma) => self.serve2(),
            None => SILENT,
        }
    }

    /// One of the masters that want the bus, by these bits, is granted its access.
    fn serve(&mut self, wants: u8) -> [Option<Down>; 7]
        requires { wants < 8 }
        ensures step { (seat : Seat) → SeatStands self.old.seat seat → StepStands self.new result (served self.old.hub seat wants) }
        ensures stored { (seat : Seat) → SeatStands self.old.seat seat
            → self.new.stored ≡ stored_by (wanted_of self.old.hub seat (granted self.old.hub.arbiter wants)) }
        ensures issues { self.new.issues ≡ self.old.issues }
        ensures messages { messages_in result ≤ 1 }
    {
        self.stored = None;
        let master = self.complex.grant(wants);
        self.serve_master(master)
    }

    /// A cycle without a Fire: the arrivals by unit, the time, core 0's turn or the monitor's, core 1's turn, who wants the bus, and one
    /// grant of it.
    fn work(&mut self, now: Cycle, ups: &[Option<Up>; 7]) -> [Option<Down>; 7]
        ensures step { (seat : Seat) → SeatStands self.old.seat seat → StepStands self.new result (hub_worked self.old.hub seat now ups.now) }
        ensures issues { (all : List Record) → IssuesStand self.old.issues all → IssuesStand self.new.issues (all ++ worked_issues self.old.hub now ups.now) }
        ensures stored { (seat : Seat) → SeatStands self.old.seat seat → self.new.stored ≡ worked_stored self.old.hub seat now ups.now }
        ensures messages { messages_in result ≤ 1 }
    {
        self.complex.hear(ups);
        self.complex.step_time();
        let first = self.turn0(now);
        self.issues.note(first);
        let second = self.complex.turn1(now);
        self.issues.note(second);
        let wants = self.wants();
        self.serve(wants)
    }

    /// A cycle in which a Fire arrives: answers to Resets are heard, and all else that arrives is lost. Then the hub is reset, but for its
    /// memories, and every front closes.
    fn reset(&mut self, ups: &[Option<Up>; 7]) -> [Option<Down>; 7]
        ensures step { (seat : Seat) → SeatStands self.old.seat seat → StepStands self.new result (reset_by self.old.hub seat ups.now) }
        ensures issues { self.new.issues ≡ self.old.issues }
        ensures stored { self.new.stored ≡ None }
        ensures resets { result ≡ resets }
    {
        self.complex.hear(ups);
        self.complex.close();
        self.complex.reset(self.seat.boot());
        self.seat.reset();
        self.stored = None;
        RESETS
    }

    /// One cycle, by what arrives from each unit. It gives, for each unit, the message that goes down to it.
    ///
    /// Where the watchdog fired, the answers to Resets are heard, all else that arrives is lost, and the hub takes its reset state, but
    /// for IMEM and DMEM. Every front closes, and a Reset goes down to each unit. In another cycle come the arrivals, the time, core 0's
    /// turn or the monitor's, core 1's turn, and one grant of the bus among those who want it. Then at most one message goes down.
    ///
    /// The latest 1,000 issues are kept, and the store that is granted in the cycle.
    #[tactic(auto, unfolding(crate::specs::Cycle::hub_cycle, crate::specs::Observed::hub_issues, crate::specs::Observed::hub_stored))]
    pub fn cycle(&mut self, now: Cycle, ups: &[Option<Up>; 7]) -> [Option<Down>; 7]
        ensures messages { fires ups.now ≡ false → messages_in result ≤ 1 }
        ensures resets { fires ups.now ≡ true → result ≡ resets }
        ensures step { (seat : Seat) → SeatStands self.old.seat seat → StepStands self.new result (hub_cycle self.old.hub seat now ups.now) }
        ensures issues { (all : List Record) → IssuesStand self.old.issues all → IssuesStand self.new.issues (all ++ hub_issues self.old.hub now ups.now) }
        ensures stored { (seat : Seat) → SeatStands self.old.seat seat → self.new.stored ≡ hub_stored self.old.hub seat now ups.now }
    {
        if fires(ups) {
            self.reset(ups)
        } else {
            self.work(now, ups)
        }
    }
}

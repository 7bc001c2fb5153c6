//! What the monitor does with the flash's answers, and how an errand goes on after a frame.
ghost use Rattle.std.specs.Prelude.{◌≡◌, ◌≤◌, ℕ, List};
ghost use Rattle.boot_monitor.specs.Actions.{ActionState, answered, settled};
ghost use Rattle.boot_monitor.specs.Errands.{IsReading, after_act, after_frame};
ghost use Rattle.boot_monitor.specs.Phases.{Goes, IsAbout, IsActed, IsDone, IsIn, IsSound, mind_of};
ghost use Rattle.boot_monitor.specs.Tallies.{Counts};

use crate::errands::{block_errand, entering, leading, next_errand, wording};
use crate::phases::{Errand, Frame, Held, MonitorState, Phase, Source, Text, Transfer};

impl MonitorState {
    /// Takes the flash's answer to a transfer.
    pub(crate) fn transferred(self, transfer: Transfer, word: u32) -> MonitorState
        requires sound { IsSound self }
        requires answering { self.phase ≡ Phase.Answering transfer }
        ensures goes { Goes self result }
        ensures is_in { (s : ActionState) → IsIn self s → IsIn result (answered self.room self.ctrl s.todo s.mind word) }
    {
        match transfer {
            Transfer::Lead(frame, errand, place) => self.at(leading(frame, errand, place + 1)),
            Transfer::Status(frame, errand) => self.seen(frame, errand, word),
            Transfer::HeaderByte => self.took_header(Source::Flash, (word % 256) as u8),
            Transfer::PayloadByte => self.took_payload(Source::Flash, (word % 256) as u8),
            Transfer::WordByte(page, index, sent, place) => {
                self.at(wording(page, index, sent, place + 1))
            }
        }
    }

    /// Takes the status.
    fn seen(self, frame: Frame, errand: Errand, status: u32) -> MonitorState
        ensures { result ≡ record self { phase = Phase.Deselecting frame errand; status = status } }
    {
        MonitorState {
            phase: Phase::Deselecting(frame, errand),
            status,
            ..self
        }
    }

    /// Goes on after a frame, once the flash is deselected.
    pub(crate) fn deselected(self, frame: Frame, errand: Errand) -> MonitorState
        requires sound { IsSound self }
        requires deselecting { self.phase ≡ Phase.Deselecting frame errand }
        ensures goes { Goes self result }
        ensures is_in { (s : ActionState) (word : ℕ) → IsIn self s → IsIn result (answered self.room self.ctrl s.todo s.mind word) }
    {
        match frame {
            Frame::Wait => self.waited(errand),
            Frame::Enable => self.at(Phase::Selecting(Frame::Act, errand)),
            Frame::Act => self.acted(errand),
        }
    }

    /// Begins an errand where the flash is ready, and else reads the status again.
    fn waited(self, errand: Errand) -> MonitorState
        requires sound { IsSound self }
        requires about { IsAbout errand Frame.Wait self.room self.tally.count self.tally.size }
        ensures goes { Goes self result }
        ensures is_in { (bytes : List ℕ) → (IsReading errand → Counts self.tally bytes)
            → IsIn result (settled self.room self.ctrl (after_frame Frame.Wait errand self.tally.size) (mind_of self bytes)) }
    {
        if self.status % 2 == 0 {
            self.at(entering(errand))
        } else {
            self.at(Phase::Selecting(Frame::Wait, errand))
        }
    }

    /// Goes on after an errand's own command.
    fn acted(self, errand: Errand) -> MonitorState
        requires sound { IsSound self }
        requires done { IsActed errand self.room self.tally.count self.tally.size }
        ensures goes { Goes self result }
        ensures is_in { (bytes : List ℕ) → (IsReading errand → Counts self.tally bytes)
            → IsIn result (settled self.room self.ctrl (after_act errand) (mind_of self bytes)) }
    {
        match errand {
            Errand::ReadHeader => self.judged_header(Source::Flash),
            Errand::ReadPayload => self.judged(),
            Errand::Test(image) => self.tested(image),
            _ => self.at(Phase::Selecting(Frame::Wait, next_errand(errand))),
        }
    }

    /// Begins to erase where the flash can be written, and else tells that it can't.
    fn tested(self, image: Held) -> MonitorState
        requires sound { IsSound self }
        requires fits { image.length ≤ self.room }
        ensures goes { Goes self result }
        ensures is_in { (bytes : List ℕ) → IsIn result (settled self.room self.ctrl (after_act (Errand.Test image)) (mind_of self bytes)) }
    {
        if self.status / 2 % 2 == 0 {
            self.at(Phase::AwaitingRoom(Text::BadFlash, 0))
        } else {
            self.at(entering(block_errand(image, 0)))
        }
    }
}

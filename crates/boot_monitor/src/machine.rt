//! What the monitor asks in each phase, and what it does with the reply.
ghost use Rattle.std.specs.Prelude.{◌≡◌, ◌<◌, ◌≤◌, ℕ, ◌+◌, ◌-◌, ◌*◌, ◌/◌, ◌%◌, ◌^◌, ◌==◌, List, [], ◌∷◌, ◌++◌, length, drop, bit_and, Option, Some, None};
ghost use Rattle.soc_bus.specs.declared.access.Width.TheVariants as width;
ghost use Rattle.image_tool.specs.Image.{is_allowed};
ghost use Rattle.soc_bus.specs.Memory.{IsSize};
ghost use Rattle.soc_bus.specs.declared.access.Request.{Request};
ghost use Rattle.boot_monitor.specs.Standing.{IsDue, Stands, given_by};
ghost use Rattle.boot_monitor.specs.Actions.{Load, Store, Upload, Mind, ActionState, answered, asks, begun, command, head, key_of, last_word, print, settled, tail};
ghost use Rattle.boot_monitor.specs.Errands.{IsPlaced};
ghost use Rattle.boot_monitor.specs.Gathers.{after_header, after_payload, checking, gathers_words, judging};
ghost use Rattle.boot_monitor.specs.Phases.{Goes, IsComing, IsComplete, IsCounted, IsFitIn, IsHeld, IsIn, IsLoading, IsPlain, IsReady, IsSound, IsStarted, IsStoring, IsTalk, IsUnderWay, address_of, after_text, from_of, held_of, mind_of, text_of, todo_in, todo_of};
ghost use Rattle.boot_monitor.specs.Tallies.{Counts};

use crate::errands::{awaiting_header, awaiting_payload, beginning_payload};
use crate::exchange::{MonitorIn, MonitorOut};
use crate::flash_bytes::{byte_sent, word_address};
use crate::phases::{
    Errand, Frame, Held, MonitorState, Phase, Purpose, Setting, Source, Text, Transfer,
};
use crate::tally::Tally;
use crate::text_bytes::byte_at;
use soc_bus::{Request, Width};

// UART0's CTRL and DATA
const UART_CTRL: u32 = 0xfff5_0000;

const UART_DATA: u32 = 0xfff5_0004;

// SPI's CTRL, DATA and SELECT
const SPI_CTRL: u32 = 0xfff8_0000;

const SPI_DATA: u32 = 0xfff8_0004;

const SPI_SELECT: u32 = 0xfff8_0008;

// the settings: clock, bytes of IMEM, bytes of DMEM, open fronts
const INFO_CLOCK: u32 = 0xfffe_0000;

const INFO_IMEM: u32 = 0xfffe_0004;

const INFO_DMEM: u32 = 0xfffe_0008;

const INFO_OPEN: u32 = 0xfffe_000c;

// bits of CTRL, the first one of SPI's too
const HAS_COME: u32 = 0x1_0000;

const IS_FULL: u32 = 0x20_0000;

const IS_BUSY: u32 = 0x8000_0000;

/// Every front is open.
const ALL_OPEN: u32 = 0xfe;

/// The first word of an image.
const SIGNATURE: u32 = 0x4788_cafe;

fn load(addr: u32) -> MonitorOut
    ensures { result ≡ MonitorOut.Bus (record { addr = addr; width = width.Word; store = None }) }
{
    MonitorOut::Bus(Request {
        addr,
        width: Width::Word,
        store: None,
    })
}

fn store(addr: u32, word: u32) -> MonitorOut
    ensures { result ≡ MonitorOut.Bus (record { addr = addr; width = width.Word; store = Some word }) }
{
    MonitorOut::Bus(Request {
        addr,
        width: Width::Word,
        store: Some(word),
    })
}

/// The address of a setting.
fn address(setting: Setting) -> u32
    ensures { result ≡ address_of setting }
{
    match setting {
        Setting::Imem => INFO_IMEM,
        Setting::Dmem => INFO_DMEM,
        Setting::Clock => INFO_CLOCK,
    }
}

/// What is asked in a phase, where so many bytes of an image were taken and this is the last whole word of them.
fn request_in(phase: Phase, ctrl: u32, count: u32, last: u32) -> MonitorOut
    requires ready { IsReady phase }
    requires started { IsStarted phase }
    requires fit { IsFitIn phase (2 ^ 20) }
    requires storing { (source : Source) → phase ≡ Phase.Storing source → 16 ≤ count }
    ensures asked { (size : ℕ) (bytes : List ℕ) → ((source : Source) → phase ≡ Phase.Storing source → last_word bytes ≡ last)
        → result ≡ asks (todo_in phase ctrl count size) bytes }
    ensures due { (request : Request) → result ≡ MonitorOut.Bus request → IsUnderWay phase }
{
    match phase {
        Phase::Unstarted => unreachable!(),
        Phase::Opening => load(INFO_OPEN),
        Phase::SettingUp => store(UART_CTRL, ctrl),
        Phase::AwaitingRoom(_, _) => load(UART_CTRL),
        Phase::Sending(text, place) => match byte_at(text, place) {
            Some(byte) => store(UART_DATA, u32::from(byte)),
            None => unreachable!(),
        },
        Phase::Asking(setting) => load(address(setting)),
        Phase::AwaitingByte(_) => load(UART_CTRL),
        Phase::Taking(_) => load(UART_DATA),
        Phase::Storing(_) => store(count - 16, last),
        Phase::Enabling(_) => store(SPI_CTRL, 1),
        Phase::Selecting(_, _) => store(SPI_SELECT, 1),
        Phase::Transferring(transfer) => store(SPI_DATA, u32::from(byte_sent(transfer))),
        Phase::AwaitingAnswer(_) => load(SPI_CTRL),
        Phase::Answering(_) => load(SPI_DATA),
        Phase::Fetching(page, index) => load(word_address(page, index)),
        Phase::Deselecting(_, _) => store(SPI_SELECT, 0),
        Phase::Finishing => load(UART_CTRL),
        Phase::Over => MonitorOut::HandOver,
    }
}

/// How a text goes on from a place.
fn printing(text: Text, place: u32) -> Phase
    requires { place ≤ length (text_of text) }
    ensures ready { IsReady result }
    ensures started { IsStarted result }
    ensures coming { (before : ℕ) → IsComing result → IsComing (Phase.Sending text before) }
    ensures counted { (before room count size : ℕ) → IsCounted (Phase.Sending text before) room count size → IsCounted result room count size }
    ensures same { (before ctrl room count size : ℕ) → IsCounted (Phase.Sending text before) room count size
        → todo_in result ctrl count size ≡ print (drop place (text_of text)) (after_text text) }
{
    match byte_at(text, place) {
        Some(_) => Phase::AwaitingRoom(text, place),
        None => after(text),
    }
}

/// How it goes on after a text.
fn after(text: Text) -> Phase
    ensures ready { IsReady result }
    ensures started { IsStarted result }
    ensures coming { (before : ℕ) → IsComing result → IsComing (Phase.Sending text before) }
    ensures counted { (before room count size : ℕ) → IsCounted (Phase.Sending text before) room count size → IsCounted result room count size }
    ensures same { (before ctrl room count size : ℕ) → IsCounted (Phase.Sending text before) room count size → todo_in result ctrl count size ≡ after_text text }
{
    match text {
        Text::Name(setting) => Phase::Asking(setting),
        Text::Digits(Setting::Imem, _) => Phase::AwaitingRoom(Text::Name(Setting::Dmem), 0),
        Text::Digits(Setting::Dmem, _) => Phase::AwaitingRoom(Text::Name(Setting::Clock), 0),
        Text::Digits(Setting::Clock, _) => Phase::AwaitingRoom(Text::InformationEnd, 0),
        Text::Up => Phase::AwaitingByte(Purpose::Header),
        Text::Go => Phase::Finishing,
        _ => Phase::AwaitingByte(Purpose::Command),
    }
}

/// Whether the bits under a mask are these.
fn meets(word: u32, mask: u32, bits: u32) -> bool
    ensures { result ≡ (bit_and word mask == bits) }
{
    word & mask == bits
}

/// Whether a payload of so many bytes is allowed.
fn has_room(room: u32, size: u32) -> bool
    ensures { result ≡ is_allowed room size }
{
    0 < size && size % 4 == 0 && size <= room
}

/// The phase of the talk over UART0 after a reply that brings no byte.
fn next_phase(phase: Phase, word: u32) -> Phase
    requires plain { IsPlain phase }
    requires ready { IsReady phase }
    requires started { IsStarted phase }
    ensures ready { IsReady result }
    ensures started { IsStarted result }
    ensures coming { IsComing result → IsComing phase }
    ensures counted { (room count size : ℕ) → IsCounted phase room count size → IsCounted result room count size }
    ensures same { (room ctrl count size : ℕ) (mind : Mind) → IsCounted phase room count size
        → answered room ctrl (todo_in phase ctrl count size) mind word ≡ record { todo = todo_in result ctrl count size; mind = mind } }
{
    match phase {
        Phase::Opening => {
            if meets(word, 0xffff_ffff, ALL_OPEN) {
                Phase::SettingUp
            } else {
                phase
            }
        }
        Phase::SettingUp => Phase::AwaitingRoom(Text::Greeting, 0),
        Phase::AwaitingRoom(text, place) => {
            if meets(word, IS_FULL, 0) {
                Phase::Sending(text, place)
            } else {
                phase
            }
        }
        Phase::Sending(text, place) => printing(text, place + 1),
        Phase::Asking(setting) => Phase::AwaitingRoom(Text::Digits(setting, word), 0),
        Phase::AwaitingByte(purpose) => {
            if meets(word, HAS_COME, HAS_COME) {
                Phase::Taking(purpose)
            } else {
                phase
            }
        }
        Phase::Finishing => {
            if meets(word, IS_BUSY, 0) {
                Phase::Over
            } else {
                phase
            }
        }
        Phase::Over => phase,
        _ => unreachable!(),
    }
}

/// The phase of the talk with the flash after a reply that isn't the flash's answer.
fn next_in_talk(phase: Phase, word: u32) -> Phase
    requires talk { IsTalk phase }
    requires ready { IsReady phase }
    ensures ready { IsReady result }
    ensures started { IsStarted result }
    ensures coming { IsComing result → IsComing phase }
    ensures counted { (room count size : ℕ) → IsCounted phase room count size → IsCounted result room count size }
    ensures same { (room ctrl count size : ℕ) (mind : Mind)
        → answered room ctrl (todo_in phase ctrl count size) mind word ≡ record { todo = todo_in result ctrl count size; mind = mind } }
{
    match phase {
        Phase::Enabling(errand) => Phase::Selecting(Frame::Wait, errand),
        Phase::Selecting(frame, errand) => Phase::Transferring(Transfer::Lead(frame, errand, 0)),
        Phase::Transferring(transfer) => Phase::AwaitingAnswer(transfer),
        Phase::AwaitingAnswer(transfer) => {
            if meets(word, HAS_COME, HAS_COME) {
                Phase::Answering(transfer)
            } else {
                phase
            }
        }
        Phase::Fetching(page, index) => {
            Phase::Transferring(Transfer::WordByte(page, index, word, 0))
        }
        _ => unreachable!(),
    }
}

impl MonitorState {
    /// In another phase.
    pub(crate) fn at(self, phase: Phase) -> MonitorState
        ensures { result ≡ record self { phase = phase } }
    {
        MonitorState { phase, ..self }
    }

    /// In the first phase of a command or of its answer.
    fn begun(self, phase: Phase) -> MonitorState
        ensures { result ≡ record self { phase = phase; status = 0 } }
    {
        MonitorState {
            phase,
            status: 0,
            ..self
        }
    }

    /// In the first phase of a command or of its answer, with nothing held.
    fn emptied(self, phase: Phase) -> MonitorState
        ensures { result ≡ record self { phase = phase; held = None; status = 0 } }
    {
        MonitorState {
            phase,
            held: None,
            status: 0,
            ..self
        }
    }

    /// Begins to print a text.
    fn telling(self, text: Text) -> MonitorState
        ensures { result ≡ record self { phase = Phase.AwaitingRoom text 0; status = 0 } }
    {
        self.begun(Phase::AwaitingRoom(text, 0))
    }

    /// Ends an upload or a load, with nothing held.
    fn refused(self, text: Text) -> MonitorState
        ensures { result ≡ record self { phase = Phase.AwaitingRoom text 0; held = None; status = 0 } }
    {
        self.emptied(Phase::AwaitingRoom(text, 0))
    }

    /// Begins, or begins anew, with nothing held.
    fn restarted(self) -> MonitorState
        requires sound { IsSound self }
        ensures goes { Goes self result }
        ensures is_in { (room : ℕ) → IsIn result (begun room self.ctrl) }
    {
        self.emptied(Phase::Opening)
    }

    /// Does the command of a byte.
    fn commanded(self, byte: u8) -> MonitorState
        requires sound { IsSound self }
        ensures goes { Goes self result }
        ensures is_in { (room : ℕ) → IsIn result (command room self.ctrl (key_of byte) (held_of self)) }
    {
        match byte {
            b'h' => self.telling(Text::Help),
            b'i' => self.telling(Text::Name(Setting::Imem)),
            b'r' => self.restarted(),
            b'u' => self.uploading(),
            b's' => self.storing(),
            b'l' => self.loading(),
            b'e' => match self.held {
                None => self.telling(Text::NoneHeld),
                Some(_) => self.telling(Text::Go),
            },
            _ => self.telling(Text::UnknownCommand),
        }
    }

    /// Begins an upload, with nothing held.
    fn uploading(self) -> MonitorState
        requires sound { IsSound self }
        ensures goes { Goes self result }
        ensures is_in { (room : ℕ) → IsIn result (command room self.ctrl Upload (held_of self)) }
    {
        MonitorState {
            tally: Tally::new(),
            ..self.emptied(Phase::AwaitingRoom(Text::Up, 0))
        }
    }

    /// Begins to store what is held in the flash.
    fn storing(self) -> MonitorState
        requires sound { IsSound self }
        ensures goes { Goes self result }
        ensures is_in { (room : ℕ) → IsIn result (command room self.ctrl Store (held_of self)) }
    {
        match self.held {
            None => self.telling(Text::NoneHeld),
            Some(image) => self.begun(Phase::Enabling(Errand::Test(image))),
        }
    }

    /// Begins to load an image from the flash, with nothing held.
    fn loading(self) -> MonitorState
        requires sound { IsSound self }
        ensures goes { Goes self result }
        ensures is_in { (room : ℕ) → IsIn result (command room self.ctrl Load (held_of self)) }
    {
        MonitorState {
            tally: Tally::new(),
            ..self.emptied(Phase::Enabling(Errand::ReadHeader))
        }
    }

    /// Takes a byte of a header.
    pub(crate) fn took_header(self, source: Source, byte: u8) -> MonitorState
        requires sound { IsSound self }
        requires few { self.tally.count < 12 }
        ensures goes { Goes self result }
        ensures is_in { (bytes : List ℕ) → Counts self.tally bytes
            → IsIn result (settled self.room self.ctrl (after_header (from_of source) self.tally.count) (mind_of self (bytes ++ byte ∷ []))) }
    {
        let tally = self.tally.with(byte);
        let next = MonitorState { tally, ..self };
        if tally.count == 12 {
            next.took_whole_header(source)
        } else {
            next.at(awaiting_header(source))
        }
    }

    /// Goes on after the last byte of a header.
    fn took_whole_header(self, source: Source) -> MonitorState
        requires size { IsSize self.room }
        requires part { self.tally.part ≡ 0 }
        requires count { self.tally.count ≡ 12 }
        requires held_fits { IsHeld self.held self.room }
        ensures goes { Goes self result }
        ensures is_in { (bytes : List ℕ) → Counts self.tally bytes → IsIn result (settled self.room self.ctrl (judging (from_of source)) (mind_of self bytes)) }
    {
        match source {
            Source::Uart => self.judged_header(source),
            Source::Flash => self.at(Phase::Deselecting(Frame::Act, Errand::ReadHeader)),
        }
    }

    /// Judges a header.
    pub(crate) fn judged_header(self, source: Source) -> MonitorState
        requires size { IsSize self.room }
        requires part { self.tally.part ≡ 0 }
        requires count { self.tally.count ≡ 12 }
        requires held_fits { IsHeld self.held self.room }
        ensures goes { Goes self result }
        ensures is_in { (bytes : List ℕ) → Counts self.tally bytes → IsIn result (head self.room self.ctrl (from_of source) (mind_of self bytes)) }
    {
        if self.tally.signature != SIGNATURE {
            self.refused(Text::BadSignature)
        } else if !has_room(self.room, self.tally.size) {
            self.refused(Text::BadSize)
        } else {
            self.at(beginning_payload(source))
        }
    }

    /// Takes a byte of a payload.
    pub(crate) fn took_payload(self, source: Source, byte: u8) -> MonitorState
        requires sound { IsSound self }
        requires loading { IsLoading self.room self.tally.count self.tally.size }
        ensures goes { Goes self result }
        ensures is_in { (bytes : List ℕ) → Counts self.tally bytes
            → IsIn result (settled self.room self.ctrl (after_payload (from_of source) self.tally.count self.tally.size) (mind_of self (bytes ++ byte ∷ []))) }
    {
        let tally = self.tally.with(byte);
        let next = MonitorState { tally, ..self };
        if tally.count % 4 == 0 {
            next.at(Phase::Storing(source))
        } else {
            next.at(awaiting_payload(source))
        }
    }

    /// Goes on after a word of the payload was stored.
    fn stored(self, source: Source) -> MonitorState
        requires sound { IsSound self }
        requires storing { IsStoring self.room self.tally.count self.tally.size }
        ensures goes { Goes self result }
        ensures is_in { (bytes : List ℕ) → Counts self.tally bytes
            → IsIn result (settled self.room self.ctrl (gathers_words (from_of source) (self.tally.count - 12) ((12 + self.tally.size - self.tally.count) / 4)) (mind_of self bytes)) }
    {
        if self.tally.count == self.tally.size + 12 {
            self.took_whole_payload(source)
        } else {
            self.at(awaiting_payload(source))
        }
    }

    /// Goes on after the last word of a payload was stored.
    fn took_whole_payload(self, source: Source) -> MonitorState
        requires sound { IsSound self }
        requires loaded { IsComplete self.room self.tally.count self.tally.size }
        ensures goes { Goes self result }
        ensures is_in { (bytes : List ℕ) → Counts self.tally bytes → IsIn result (settled self.room self.ctrl (checking (from_of source)) (mind_of self bytes)) }
    {
        match source {
            Source::Uart => self.judged(),
            Source::Flash => self.at(Phase::Deselecting(Frame::Act, Errand::ReadPayload)),
        }
    }

    /// Judges a header and its payload.
    pub(crate) fn judged(self) -> MonitorState
        requires sound { IsSound self }
        requires loaded { IsComplete self.room self.tally.count self.tally.size }
        ensures goes { Goes self result }
        ensures is_in { (bytes : List ℕ) → Counts self.tally bytes → IsIn result (tail self.room self.ctrl (mind_of self bytes)) }
    {
        if self.tally.sum != 0 {
            self.refused(Text::BadChecksum)
        } else {
            let held = Held {
                length: self.tally.size,
                check: self.tally.check,
            };
            MonitorState {
                held: Some(held),
                ..self.telling(Text::Done)
            }
        }
    }

    /// Takes the byte in the low bits of a word.
    fn took(self, purpose: Purpose, word: u32) -> MonitorState
        requires sound { IsSound self }
        requires taking { self.phase ≡ Phase.Taking purpose }
        ensures goes { Goes self result }
        ensures is_in { (s : ActionState) → IsIn self s → IsIn result (answered self.room self.ctrl s.todo s.mind word) }
    {
        let byte = (word % 256) as u8;
        match purpose {
            Purpose::Command => self.commanded(byte),
            Purpose::Header => self.took_header(Source::Uart, byte),
            Purpose::Payload => self.took_payload(Source::Uart, byte),
        }
    }

    /// Takes the word that answers the last request.
    fn answered(self, word: u32) -> MonitorState
        requires sound { IsSound self }
        requires due { IsUnderWay self.phase }
        ensures goes { Goes self result }
        ensures is_in { (s : ActionState) → IsIn self s → IsIn result (answered self.room self.ctrl s.todo s.mind word) }
    {
        match self.phase {
            Phase::Taking(purpose) => self.took(purpose, word),
            Phase::Storing(source) => self.stored(source),
            Phase::Answering(transfer) => self.transferred(transfer, word),
            Phase::Deselecting(frame, errand) => self.deselected(frame, errand),
            Phase::Enabling(_)
            | Phase::Selecting(_, _)
            | Phase::Transferring(_)
            | Phase::AwaitingAnswer(_)
            | Phase::Fetching(_, _) => self.at(next_in_talk(self.phase, word)),
            phase => self.at(next_phase(phase, word)),
        }
    }

    /// Begins, or takes the word that answers the last request.
    pub(crate) fn replied(self, reply: MonitorIn) -> MonitorState
        requires sound { IsSound self }
        requires due { IsDue self reply }
        ensures started { IsStarted result.phase }
        ensures sound { IsSound result }
        ensures stands { (room ctrl : ℕ) (given : Option (List ℕ)) → Stands self room ctrl given → Stands result room ctrl (Some (given_by given reply)) }
    {
        match reply {
            MonitorIn::Start => self.restarted(),
            MonitorIn::Word(word) => self.answered(word),
        }
    }

    /// The next request.
    pub(crate) fn request(self) -> MonitorOut
        requires sound { IsSound self }
        requires started { IsStarted self.phase }
        ensures asked { (s : ActionState) → IsIn self s → result ≡ asks s.todo s.mind.bytes }
        ensures due { (request : Request) → result ≡ MonitorOut.Bus request → IsUnderWay self.phase }
    {
        request_in(self.phase, self.ctrl, self.tally.count, self.tally.last)
    }
}

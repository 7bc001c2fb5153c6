//! What the boot monitor is in the midst of.

use crate::tally::Tally;

/// A word of the chip's settings that `i` prints.
#[derive(Clone, Copy)]
pub enum Setting {
    /// The bytes of IMEM.
    Imem,
    /// The bytes of DMEM.
    Dmem,
    /// The clock in hertz.
    Clock,
}

/// A text that is printed; where a command is awaited after it, the prompt is its end.
#[derive(Clone, Copy)]
pub enum Text {
    Greeting,
    Help,
    /// What stands before a setting.
    Name(Setting),
    /// The eight digits of a setting.
    Digits(Setting, u32),
    /// What stands after the settings.
    InformationEnd,
    Up,
    Done,
    NoneHeld,
    UnknownCommand,
    BadSignature,
    BadSize,
    BadChecksum,
    BadFlash,
    Go,
}

/// What a byte is taken for.
#[derive(Clone, Copy)]
pub enum Purpose {
    Command,
    Header,
    Payload,
}

/// Where an image comes from.
#[derive(Clone, Copy)]
pub enum Source {
    Uart,
    Flash,
}

/// A payload that stands in IMEM from address 0 on.
#[derive(Clone, Copy)]
pub struct Held {
    /// Its length in bytes.
    pub length: u32,
    /// The checksum word.
    pub check: u32,
}

/// Up to 256 bytes of a payload, which are programmed together.
#[derive(Clone, Copy)]
pub struct Page {
    pub image: Held,
    /// How many pages stand before it.
    pub number: u32,
}

/// What is done with the flash.
#[derive(Clone, Copy)]
pub enum Errand {
    /// The header of an image is read.
    ReadHeader,
    /// Its payload is read.
    ReadPayload,
    /// It is seen whether the flash can be written; then this payload is stored.
    Test(Held),
    /// The block with this number, from the header's on, is erased.
    Erase(Held, u32),
    /// A page is programmed.
    Program(Page),
    /// The header of this payload is programmed.
    ProgramHeader(Held),
    /// Nothing: an image was stored.
    Finish,
}

/// What the flash is selected for.
#[derive(Clone, Copy)]
pub enum Frame {
    /// To read the status, again and again until the flash is ready for the errand.
    Wait,
    /// To set write enable for the errand.
    Enable,
    /// The errand's own command.
    Act,
}

/// A byte that is sent to the flash, which answers it.
#[derive(Clone, Copy)]
pub enum Transfer {
    /// Of a frame's first bytes the one at this place.
    Lead(Frame, Errand, u32),
    /// 00, which the flash answers with its status.
    Status(Frame, Errand),
    /// 00, which it answers with a byte of a header.
    HeaderByte,
    /// 00, which it answers with a byte of a payload.
    PayloadByte,
    /// Of the word at the first place of a page the byte at the last place; between them stands the word.
    WordByte(Page, u32, u32, u32),
}

/// What was asked last.
#[derive(Clone, Copy)]
pub enum Phase {
    /// Nothing yet.
    Unstarted,
    /// Whether the front of every unit is open.
    Opening,
    /// To set UART0 up.
    SettingUp,
    /// Whether UART0 has room for the byte at this place of a text.
    AwaitingRoom(Text, u32),
    /// To send the byte at this place of a text.
    Sending(Text, u32),
    /// A setting.
    Asking(Setting),
    /// Whether UART0 has received a byte.
    AwaitingByte(Purpose),
    /// The byte.
    Taking(Purpose),
    /// To store the last word of the payload so far.
    Storing(Source),
    /// To set SPI up, for an errand.
    Enabling(Errand),
    /// To select the flash.
    Selecting(Frame, Errand),
    /// To send it a byte.
    Transferring(Transfer),
    /// Whether its answer has come.
    AwaitingAnswer(Transfer),
    /// The answer.
    Answering(Transfer),
    /// The word at this place of a page, from IMEM.
    Fetching(Page, u32),
    /// To deselect the flash.
    Deselecting(Frame, Errand),
    /// Whether UART0 has sent everything.
    Finishing,
    /// Nothing more: core 0 begins.
    Over,
}

/// The state of the boot monitor.
#[derive(Clone, Copy)]
pub struct MonitorState {
    /// The bytes of IMEM.
    pub room: u32,
    /// The word for UART0's CTRL.
    pub ctrl: u32,
    pub phase: Phase,
    pub held: Option<Held>,
    /// The flash's status, once the command under way has read it.
    pub status: u32,
    /// The image that is taken.
    pub tally: Tally,
}

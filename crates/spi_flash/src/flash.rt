//! The NOR flash.
ghost use Rattle.std.specs.Prelude.{◌≡◌, ◌<◌, ◌≤◌, ◌*◌, ◌+◌, ◌%◌, ◌^◌, Bool, ℕ, true, false, None, IfOk, IfSome, is_some, if◌then◌else◌, slice_set};
ghost use Rattle.spi_flash.specs.Flash.{addressed, blank, broken_off, byte_of, byte_sent, cells_of, command_in, commanded, deselected, done_by, enable_after, erase_of, flash_answer, flash_cycle, flash_start, followed, identity, opened, operation_of, selected, started, status_of, time_of, transfer_answer, worked};
ghost use Rattle.spi_flash.specs.Valid.{IsOperation, IsTransfer};
ghost use Rattle.spi_flash.specs.Unasked.{AnswersUnasked, ShowsBusy};
ghost use Rattle.spi_flash.specs.Laws.{HoldsOfAnswers, HoldsOfByte, HoldsOfCycle, HoldsOfSelection};

use crate::array::{Array, SIZE};
use crate::transfer::{Operation, Transfer, UnderWay};
use chip_base::NoMemory;
use std::alloc::Global;
use std::marker::Model;

/// The command that programs bytes of a page.
const PROGRAM: u8 = 0x02;
/// The command that reads from an address on.
const READ: u8 = 0x03;
/// The command that clears write enable.
const WRITE_DISABLE: u8 = 0x04;
/// The command that reads the status.
const STATUS: u8 = 0x05;
/// The command that sets write enable.
const WRITE_ENABLE: u8 = 0x06;
/// The command that erases a block of 4,096 bytes.
const ERASE_SMALL: u8 = 0x20;
/// The command that reads the flash's name.
const IDENTITY: u8 = 0x9f;
/// The command that erases a block of 65,536 bytes.
const ERASE_LARGE: u8 = 0xd8;

/// A NOR flash of 8,388,608 bytes, or the place for one.
#[derive(Drop)]
pub struct Flash {
    cells: Option<Array>,
    enable: bool,
    transfer: Transfer,
    work: Option<UnderWay>,
}

impl Model for Flash {
    ghost use Rattle.std.specs.Prelude.{◌≡◌, IfSome, None, is_some};
    ghost use Rattle.spi_flash.specs.Flash.{FlashState};
    ghost use Rattle.spi_flash.specs.Valid.{IsTransfer, IsWork, cells_in};

    ghost Value = { FlashState };

    ghost view = { λ f. record { fitted = is_some f.cells; cells = cells_in f.cells; enable = f.enable; transfer = f.transfer; work = f.work } };

    ghost invariant = { λ f. IsTransfer f.transfer × IfSome f.work IsWork × (f.cells ≡ None → f.work ≡ None) };
}

/// What a transfer starts when it ends, where write enable is set.
fn operation_of(transfer: &Transfer) -> Option<Operation>
    ensures value { result ≡ operation_of transfer.now }
    ensures valid { IsTransfer transfer.now → IfSome result IsOperation }
{
    match *transfer {
        Transfer::Command {
            code,
            count: 3,
            address,
        } => erase_of(code, address % SIZE),
        Transfer::Program {
            address,
            page,
            at: _,
            filled: true,
        } => Some(Operation::Program { address, page }),
        _ => None,
    }
}

/// The erase that a command starts.
fn erase_of(code: u8, address: u32) -> Option<Operation>
    requires { address < 2 ^ 23 }
    ensures value { result ≡ erase_of code address }
    ensures valid { IfSome result IsOperation }
{
    match code {
        ERASE_SMALL => Some(Operation::Erase {
            size: 4096,
            address,
        }),
        ERASE_LARGE => Some(Operation::Erase {
            size: 65536,
            address,
        }),
        _ => None,
    }
}

/// How many cycles an operation takes.
fn time_of(operation: &Operation) -> u32
    ensures value { result ≡ time_of operation.now }
    ensures from { 1 ≤ result }
{
    match operation {
        Operation::Program { .. } => 6_400,
        Operation::Erase { size: 4096, .. } => 64_000,
        Operation::Erase { .. } => 320_000,
    }
}

/// A page of which no byte is kept.
#[tactic(auto, unfolding(crate::specs::Flash::blank))]
fn blank() -> [u8; 256]
    ensures { result ≡ blank }
{
    [0xff; 256]
}

/// The transfer once the third byte after a command came.
fn addressed(code: u8, address: u32) -> Transfer
    requires { address < 2 ^ 24 }
    ensures value { result ≡ addressed code address }
    ensures valid { IsTransfer result }
{
    match code {
        READ => Transfer::Read { at: address % SIZE },
        PROGRAM => Transfer::Program {
            address: address % SIZE,
            page: blank(),
            at: (address % 256) as u8,
            filled: false,
        },
        _ => Transfer::Command {
            code,
            count: 3,
            address,
        },
    }
}

/// The transfer once a byte after a command came.
fn commanded(code: u8, count: u8, address: u32, byte: u8) -> Transfer
    requires { IsTransfer (Transfer.Command code count address) }
    ensures value { result ≡ commanded code count address byte }
    ensures valid { IsTransfer result }
{
    match count {
        0 => Transfer::Command {
            code,
            count: 1,
            address: address * 256 + u32::from(byte),
        },
        1 => Transfer::Command {
            code,
            count: 2,
            address: address * 256 + u32::from(byte),
        },
        2 => addressed(code, address * 256 + u32::from(byte)),
        _ => Transfer::Command {
            code,
            count,
            address,
        },
    }
}

/// The transfer once its first byte came.
fn command_in(busy: bool, code: u8) -> Transfer
    ensures value { result ≡ command_in busy code }
    ensures valid { IsTransfer result }
{
    if busy && code != STATUS {
        Transfer::Ignored
    } else {
        Transfer::Command {
            code,
            count: 0,
            address: 0,
        }
    }
}

/// The page with one byte more.
fn with_byte(mut page: [u8; 256], at: u8, byte: u8) -> [u8; 256]
    ensures { result ≡ slice_set page at byte }
{
    page[usize::from(at)] = byte;
    page
}

/// A transfer with one byte more.
fn followed(busy: bool, transfer: &Transfer, byte: u8) -> Transfer
    requires { IsTransfer transfer.now }
    ensures value { result ≡ followed busy transfer.now byte }
    ensures valid { IsTransfer result }
{
    match *transfer {
        Transfer::Idle => Transfer::Idle,
        Transfer::Ignored => Transfer::Ignored,
        Transfer::Opened => command_in(busy, byte),
        Transfer::Command {
            code,
            count,
            address,
        } => commanded(code, count, address, byte),
        Transfer::Read { at } => Transfer::Read {
            at: (at + 1) % SIZE,
        },
        Transfer::Program {
            address,
            page,
            at,
            filled: _,
        } => Transfer::Program {
            address,
            page: with_byte(page, at, byte),
            at: at.wrapping_add(1),
            filled: true,
        },
    }
}

/// A byte of the flash's name.
fn identity(place: u8) -> u8
    ensures { result ≡ identity place }
{
    match place {
        0 => 0xef,
        1 => 0x40,
        2 => 0x17,
        _ => 0,
    }
}

impl Flash {
    /// A flash at power-on, each of whose bytes is ff, or the place for one.
    pub fn new(alloc: Global, fitted: bool) -> Result<Flash, NoMemory>
        ensures { IfOk result (λ f. f ≡ flash_start fitted) }
    {
        let cells = if fitted {
            Some(Array::new(alloc)?)
        } else {
            None
        };
        Ok(Flash {
            cells,
            enable: false,
            transfer: Transfer::Idle,
            work: None,
        })
    }

    /// Whether there is a flash.
    pub fn is_fitted(&self) -> bool
        ensures { result ≡ self.now.fitted }
    {
        self.cells.is_some()
    }

    /// The byte at an address.
    #[tactic(auto, using(crate::proofs::Cells::unused_at))]
    pub fn byte(&self, at: u32) -> u8
        ensures { result ≡ byte_of self.now.cells at }
    {
        match &self.cells {
            Some(cells) => cells.byte(at),
            None => 0xff,
        }
    }

    /// An address from which on each byte is ff.
    #[tactic(auto, using(crate::proofs::Cells::unused_at))]
    pub fn end(&self) -> u32
        ensures bytes { (i : ℕ) → result ≤ i → byte_of self.now.cells i ≡ 255 }
        ensures to { result ≤ 2 ^ 23 }
    {
        match &self.cells {
            Some(cells) => cells.end(),
            None => 0,
        }
    }

    /// Whether an operation is under way.
    pub fn is_busy(&self) -> bool
        ensures { result ≡ is_some self.now.work }
    {
        self.work.is_some()
    }

    fn status(&self) -> u8
        ensures { result ≡ status_of self.now }
    {
        let busy = if self.work.is_some() { 1 } else { 0 };
        let enable = if self.enable { 2 } else { 0 };
        busy + enable
    }

    fn transfer_answer(&self, transfer: &Transfer) -> u8
        ensures { result ≡ transfer_answer (status_of self.now) self.now.cells transfer.now }
    {
        match *transfer {
            Transfer::Command { code: STATUS, .. } => self.status(),
            Transfer::Command {
                code: IDENTITY,
                count,
                ..
            } => identity(count),
            Transfer::Read { at } => self.byte(at),
            _ => 0xff,
        }
    }

    /// The answer to the next byte. A read is answered the bytes from its address on, the command for the name its three bytes and
    /// then 00, and the command for the status the status of this cycle; nothing else but ff.
    pub fn answer(&self) -> u8
        ensures value { result ≡ flash_answer self.now }
        ensures law { HoldsOfAnswers self.now }
        ensures unasked { AnswersUnasked self.now }
    {
        if self.is_fitted() {
            self.transfer_answer(&self.transfer)
        } else {
            0
        }
    }

    /// A byte is sent to the flash. A command that comes while an operation is under way, but the one to read the status, does
    /// nothing until the flash is deselected.
    pub fn send(&mut self, byte: u8)
        ensures value { self.new ≡ byte_sent self.old byte }
        ensures law { HoldsOfByte self.old byte }
    {
        if self.is_fitted() {
            self.transfer = followed(self.work.is_some(), &self.transfer, byte);
        }
    }
}

impl Flash {
    fn open(&mut self)
        ensures { self.new ≡ record self.old { transfer = opened self.old.transfer } }
    {
        if let Transfer::Idle = self.transfer {
            self.transfer = Transfer::Opened;
        }
    }

    fn deselect(&mut self)
        requires { self.old.fitted ≡ true }
        ensures { self.new ≡ deselected self.old }
    {
        let operation = operation_of(&self.transfer);
        self.start(operation);
        self.enable = enable_after(&self.transfer, self.enable);
        self.transfer = Transfer::Idle;
    }

    fn start(&mut self, operation: Option<Operation>)
        requires fitted { self.old.fitted ≡ true }
        requires operation { IfSome operation IsOperation }
        ensures { self.new ≡ record self.old { work = started operation self.old.enable self.old.work } }
    {
        if let Some(operation) = operation
            && self.enable
        {
            self.work = Some(UnderWay {
                left: time_of(&operation),
                operation,
            });
        }
    }

    /// The flash is selected, or deselected: then it does what it was sent, and starts an operation where write enable is set. The
    /// operation ends after exactly its time: 6,400 cycles for a program, 64,000 and 320,000 for an erase.
    pub fn select(&mut self, on: bool)
        ensures value { self.new ≡ selected self.old on }
        ensures law { HoldsOfSelection self.old on }
        ensures busy { ShowsBusy self.old }
    {
        if !self.is_fitted() {
            return;
        }
        if on {
            self.open();
        } else {
            self.deselect();
        }
    }

    /// The flash is deselected, and what it was sent is forgotten.
    pub fn break_off(&mut self)
        ensures { self.new ≡ broken_off self.old }
    {
        self.transfer = Transfer::Idle;
    }

    /// One cycle of the operation under way. In its last one a program clears bits of its page alone, an erase makes its block ff
    /// and nothing else, and write enable is cleared. Between, no byte changes.
    pub fn cycle(&mut self)
        ensures value { self.new ≡ flash_cycle self.old }
        ensures law { HoldsOfCycle self.old }
    {
        if !self.is_busy() {
            return;
        }
        let Some(work) = self.work else {
            return;
        };
        if work.left == 1 {
            self.finish(&work.operation);
        } else {
            self.work = Some(UnderWay {
                left: work.left - 1,
                operation: work.operation,
            });
        }
    }

    fn finish(&mut self, operation: &Operation)
        requires fitted { self.old.fitted ≡ true }
        requires operation { IsOperation operation.now }
        ensures { self.new ≡ record self.old { cells = cells_of (done_by operation.now (byte_of self.old.cells)); enable = false; work = None } }
    {
        if let Some(cells) = &mut self.cells {
            perform(cells, operation);
        }
        self.enable = false;
        self.work = None;
    }
}

/// What an operation does to the bytes.
fn perform(cells: &mut Array, operation: &Operation)
    requires { IsOperation operation.now }
    ensures { cells.new ≡ cells_of (done_by operation.now (byte_of cells.old)) }
{
    match operation {
        Operation::Program { address, page } => cells.program(*address, page),
        Operation::Erase { size, address } => cells.erase(*size, *address),
    }
}

/// Write enable once a transfer has ended.
fn enable_after(transfer: &Transfer, enable: bool) -> bool
    ensures { result ≡ enable_after transfer.now enable }
{
    match *transfer {
        Transfer::Command {
            code: WRITE_ENABLE,
            ..
        } => true,
        Transfer::Command {
            code: WRITE_DISABLE,
            ..
        } => false,
        _ => enable,
    }
}

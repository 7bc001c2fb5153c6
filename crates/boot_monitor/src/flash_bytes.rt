//! The bytes that the monitor sends to the flash.
ghost use Rattle.std.specs.Prelude.{◌≡◌, ◌<◌, ◌≤◌, ◌^◌, ◌++◌, slice_get, nat_lt, ◌/◌};
ghost use Rattle.image_tool.specs.Image.{bytes_of};
ghost use Rattle.boot_monitor.specs.Actions.{header_address, header_by};
ghost use Rattle.boot_monitor.specs.Errands.{IsBlock, IsFit, addressed, byte_of, lead, lead_of, page_address, block_address, word_address, words_in};
ghost use Rattle.boot_monitor.specs.Phases.{IsFitBy, IsWord};

use crate::phases::{Errand, Frame, Held, Page, Transfer};
use crate::text_bytes::at;

/// Where an image stands in the flash: its header, and its payload.
const HEADER: u32 = 0x40_0000;

const PAYLOAD: u32 = 0x40_0100;

/// The four bytes of a word, the low byte first.
fn bytes(word: u32) -> [u8; 4]
    ensures { result ≡ bytes_of word }
{
    [
        (word % 0x100) as u8,
        (word / 0x100 % 0x100) as u8,
        (word / 0x1_0000 % 0x100) as u8,
        (word / 0x100_0000 % 0x100) as u8,
    ]
}

/// A command and its address, the high byte first.
fn addressed(code: u8, address: u32) -> [u8; 4]
    ensures { result ≡ addressed code address }
{
    [
        code,
        (address / 0x1_0000 % 0x100) as u8,
        (address / 0x100 % 0x100) as u8,
        (address % 0x100) as u8,
    ]
}

/// The command that programs the header of a payload.
fn header(image: Held) -> [u8; 16]
    ensures { result ≡ addressed 0x02 header_address ++ header_by image.length image.check }
{
    let [a, b, c, d] = bytes(image.length);
    let [e, f, g, h] = bytes(image.check);
    [
        0x02, 0x40, 0x00, 0x00, 0xfe, 0xca, 0x88, 0x47, a, b, c, d, e, f, g, h,
    ]
}

/// The byte at a place of the first bytes of a block's erasing.
fn erasing_at(image: Held, number: u32, place: u32) -> Option<u8>
    requires fit { IsBlock image number (2 ^ 20) }
    ensures { result ≡ slice_get (addressed 0x20 (block_address number)) place }
{
    at(&addressed(0x20, HEADER + 4096 * number), place)
}

/// The byte at a place of the first bytes of a page's programming.
fn programming_at(number: u32, place: u32) -> Option<u8>
    requires fit { number ≤ 2 ^ 12 }
    ensures { result ≡ slice_get (addressed 0x02 (page_address number)) place }
{
    at(&addressed(0x02, PAYLOAD + 256 * number), place)
}

/// The byte at a place of an errand's own command.
fn act_at(errand: Errand, place: u32) -> Option<u8>
    requires fit { IsFit errand (2 ^ 20) }
    ensures { result ≡ slice_get (lead_of errand) place }
{
    match errand {
        Errand::ReadHeader => at(&addressed(0x03, HEADER), place),
        Errand::ReadPayload => at(&addressed(0x03, PAYLOAD), place),
        Errand::Test(_) => at(&[0x05], place),
        Errand::Erase(image, number) => erasing_at(image, number, place),
        Errand::Program(page) => programming_at(page.number, place),
        Errand::ProgramHeader(image) => at(&header(image), place),
        Errand::Finish => None,
    }
}

/// The byte at a place of a frame's first bytes.
pub(crate) fn lead_at(frame: Frame, errand: Errand, place: u32) -> Option<u8>
    requires fit { IsFit errand (2 ^ 20) }
    ensures { result ≡ slice_get (lead frame errand) place }
{
    match frame {
        Frame::Wait => at(&[0x05], place),
        Frame::Enable => at(&[0x06], place),
        Frame::Act => act_at(errand, place),
    }
}

/// The byte of a transfer.
pub(crate) fn byte_sent(transfer: Transfer) -> u8
    requires fit { IsFitBy transfer (2 ^ 20) }
    ensures { result ≡ byte_of transfer }
{
    match transfer {
        Transfer::Lead(frame, errand, place) => lead_at(frame, errand, place).unwrap_or(0),
        Transfer::WordByte(_, _, word, place) => at(&bytes(word), place).unwrap_or(0),
        Transfer::Status(_, _) | Transfer::HeaderByte | Transfer::PayloadByte => 0,
    }
}

/// Whether a page has 256 bytes.
pub(crate) fn is_whole(page: Page) -> bool
    ensures { result ≡ nat_lt page.number (page.image.length / 256) }
{
    page.number < page.image.length / 256
}

/// How many words of the payload a page has.
pub(crate) fn words_in(page: Page) -> u32
    ensures count { result ≡ words_in page }
    ensures few { result ≤ 64 }
{
    if is_whole(page) {
        64
    } else {
        page.image.length % 256 / 4
    }
}

/// Where a word of a page stands in IMEM.
pub(crate) fn word_address(page: Page, index: u32) -> u32
    requires word { IsWord page index (2 ^ 20) }
    ensures { result ≡ word_address page index }
{
    256 * page.number + 4 * index
}

//! How the errands to the flash go on.
ghost use Rattle.std.specs.Prelude.{◌≡◌, ◌<◌, ◌≤◌, ℕ, suc, ◌+◌, ◌-◌, ◌*◌, ◌/◌, ◌%◌, ◌^◌, List, length, drop};
ghost use Rattle.image_tool.specs.Image.{bytes_of};
ghost use Rattle.boot_monitor.specs.Actions.{blocks, payload_from, send};
ghost use Rattle.boot_monitor.specs.Errands.{IsFit, IsPage, IsReading, after_act, blocks_left, errand_of, following, frame_rest, lead, pages_left, rest_of, words_in, words_left};
ghost use Rattle.boot_monitor.specs.Gathers.{after_header, after_payload, gathers, gathers_words, judging, stores};
ghost use Rattle.boot_monitor.specs.Phases.{IsAbout, IsComing, IsCounted, IsHeaded, IsLoading, IsReady, IsStarted, from_of, todo_in};

use crate::flash_bytes::{is_whole, lead_at, words_in};
use crate::phases::{Errand, Frame, Held, Page, Phase, Purpose, Source, Text, Transfer};

/// How many blocks hold an image whose payload has so many bytes.
fn blocks(size: u32) -> u32
    requires { size ≤ 2 ^ 20 }
    ensures { result ≡ blocks size }
{
    (256 + size + 4095) / 4096
}

/// The errand from a page on.
fn page_errand(image: Held, number: u32) -> Errand
    requires number { number ≤ image.length / 256 }
    ensures reading { IsReading result → ⊥ }
    ensures about { (room count size : ℕ) → image.length ≤ room → IsAbout result Frame.Wait room count size }
    ensures same { (size : ℕ) → errand_of result size ≡ pages_left image number }
{
    let page = Page { image, number };
    if words_in(page) == 0 {
        Errand::ProgramHeader(image)
    } else {
        Errand::Program(page)
    }
}

/// The errand from a block on.
pub(crate) fn block_errand(image: Held, number: u32) -> Errand
    requires fits { image.length ≤ 2 ^ 20 }
    ensures reading { IsReading result → ⊥ }
    ensures about { (room count size : ℕ) → image.length ≤ room → IsAbout result Frame.Wait room count size }
    ensures same { (size : ℕ) → errand_of result size ≡ blocks_left image number }
{
    if number < blocks(image.length) {
        Errand::Erase(image, number)
    } else {
        page_errand(image, 0)
    }
}

/// The errand after a page.
fn next_page(page: Page) -> Errand
    requires fit { IsPage page (2 ^ 20) }
    ensures reading { IsReading result → ⊥ }
    ensures about { (room count size : ℕ) → page.image.length ≤ room → IsAbout result Frame.Wait room count size }
    ensures same { (size : ℕ) → errand_of result size ≡ following (Errand.Program page) }
{
    if is_whole(page) {
        page_errand(page.image, page.number + 1)
    } else {
        Errand::ProgramHeader(page.image)
    }
}

/// The errand after one that changes the flash.
pub(crate) fn next_errand(errand: Errand) -> Errand
    requires fit { IsFit errand (2 ^ 20) }
    ensures reading { IsReading result → ⊥ }
    ensures about { (room count size : ℕ) → IsFit errand room → IsAbout result Frame.Wait room count size }
    ensures same { (size : ℕ) → errand_of result size ≡ following errand }
{
    match errand {
        Errand::Erase(image, number) => block_errand(image, number + 1),
        Errand::Program(page) => next_page(page),
        _ => Errand::Finish,
    }
}

/// How an errand begins, where the flash is ready.
pub(crate) fn entering(errand: Errand) -> Phase
    ensures ready { IsReady result }
    ensures started { IsStarted result }
    ensures coming { IsComing result → IsReading errand }
    ensures counted { (room count size : ℕ) → IsAbout errand Frame.Wait room count size → IsCounted result room count size }
    ensures same { (ctrl count size : ℕ) → todo_in result ctrl count size ≡ errand_of errand size }
{
    match errand {
        Errand::ReadHeader | Errand::ReadPayload => Phase::Selecting(Frame::Act, errand),
        Errand::Finish => Phase::AwaitingRoom(Text::Done, 0),
        _ => Phase::Selecting(Frame::Enable, errand),
    }
}

/// How a frame goes on from a place of its first bytes.
pub(crate) fn leading(frame: Frame, errand: Errand, place: u32) -> Phase
    requires fit { IsFit errand (2 ^ 20) }
    requires place { place ≤ length (lead frame errand) }
    ensures ready { IsReady result }
    ensures started { IsStarted result }
    ensures coming { IsComing result → IsReading errand }
    ensures counted { (room count size : ℕ) → IsAbout errand frame room count size → IsCounted result room count size }
    ensures same { (ctrl room count size : ℕ) → IsAbout errand frame room count size
        → todo_in result ctrl count size ≡ send (drop place (lead frame errand)) (frame_rest frame errand size) }
{
    match lead_at(frame, errand, place) {
        Some(_) => Phase::Transferring(Transfer::Lead(frame, errand, place)),
        None => led(frame, errand),
    }
}

/// How a frame goes on after its first bytes.
fn led(frame: Frame, errand: Errand) -> Phase
    ensures ready { IsReady result }
    ensures started { IsStarted result }
    ensures coming { IsComing result → IsReading errand }
    ensures counted { (room count size : ℕ) → IsAbout errand frame room count size → IsCounted result room count size }
    ensures same { (ctrl room count size : ℕ) → IsAbout errand frame room count size → todo_in result ctrl count size ≡ frame_rest frame errand size }
{
    match frame {
        Frame::Wait => Phase::Transferring(Transfer::Status(frame, errand)),
        Frame::Enable => Phase::Deselecting(frame, errand),
        Frame::Act => acting(errand),
    }
}

/// How an errand's own command goes on after its first bytes.
fn acting(errand: Errand) -> Phase
    ensures ready { IsReady result }
    ensures started { IsStarted result }
    ensures coming { IsComing result → IsReading errand }
    ensures counted { (room count size : ℕ) → IsAbout errand Frame.Act room count size → IsCounted result room count size }
    ensures same { (ctrl room count size : ℕ) → IsAbout errand Frame.Act room count size → todo_in result ctrl count size ≡ rest_of errand size }
{
    match errand {
        Errand::ReadHeader => Phase::Transferring(Transfer::HeaderByte),
        Errand::ReadPayload => Phase::Transferring(Transfer::PayloadByte),
        Errand::Test(_) => Phase::Transferring(Transfer::Status(Frame::Act, errand)),
        Errand::Program(page) => Phase::Fetching(page, 0),
        _ => Phase::Deselecting(Frame::Act, errand),
    }
}

/// How a page goes on from a word's place.
fn fetching(page: Page, index: u32) -> Phase
    ensures ready { IsReady result }
    ensures started { IsStarted result }
    ensures coming { IsComing result → ⊥ }
    ensures counted { (room count size : ℕ) → IsPage page room → IsCounted result room count size }
    ensures same { (ctrl count size : ℕ) → todo_in result ctrl count size ≡ words_left page index }
{
    if index < words_in(page) {
        Phase::Fetching(page, index)
    } else {
        Phase::Deselecting(Frame::Act, Errand::Program(page))
    }
}

/// How a word of a page goes on from a byte's place.
pub(crate) fn wording(page: Page, index: u32, word: u32, place: u32) -> Phase
    requires index { index < words_in page }
    requires place { place ≤ 4 }
    ensures ready { IsReady result }
    ensures started { IsStarted result }
    ensures coming { IsComing result → ⊥ }
    ensures counted { (room count size : ℕ) → IsPage page room → IsCounted result room count size }
    ensures same { (ctrl count size : ℕ) → todo_in result ctrl count size ≡ send (drop place (bytes_of word)) (words_left page (index + 1)) }
{
    if place < 4 {
        Phase::Transferring(Transfer::WordByte(page, index, word, place))
    } else {
        fetching(page, index + 1)
    }
}

/// The next byte of a header is awaited.
pub(crate) fn awaiting_header(source: Source) -> Phase
    ensures ready { IsReady result }
    ensures started { IsStarted result }
    ensures counted { (room count size : ℕ) → count < 12 → IsCounted result room count size }
    ensures same { (ctrl count size : ℕ) → todo_in result ctrl count size ≡ gathers (from_of source) (suc (11 - count)) (judging (from_of source)) }
{
    match source {
        Source::Uart => Phase::AwaitingByte(Purpose::Header),
        Source::Flash => Phase::Transferring(Transfer::HeaderByte),
    }
}

/// The next byte of a payload is awaited.
pub(crate) fn awaiting_payload(source: Source) -> Phase
    ensures ready { IsReady result }
    ensures started { IsStarted result }
    ensures counted { (room count size : ℕ) → IsLoading room count size → IsCounted result room count size }
    ensures same { (ctrl count size : ℕ) → todo_in result ctrl count size
        ≡ gathers (from_of source) (suc (3 - count % 4)) (stores (from_of source) (count + 4 - count % 4) size) }
{
    match source {
        Source::Uart => Phase::AwaitingByte(Purpose::Payload),
        Source::Flash => Phase::Transferring(Transfer::PayloadByte),
    }
}

/// A payload begins.
pub(crate) fn beginning_payload(source: Source) -> Phase
    ensures ready { IsReady result }
    ensures started { IsStarted result }
    ensures counted { (room count size : ℕ) → IsHeaded room count size → IsCounted result room count size }
    ensures same { (ctrl room count size : ℕ) → IsHeaded room count size → todo_in result ctrl count size ≡ payload_from (from_of source) size }
{
    match source {
        Source::Uart => Phase::AwaitingByte(Purpose::Payload),
        Source::Flash => Phase::Selecting(Frame::Act, Errand::ReadPayload),
    }
}

//! One line of a script.
ghost use Rattle.std.specs.Prelude.{◌≡◌, ◌≤◌, ◌<◌, ◌⊎◌, ◌^◌, ◌&&◌, length, if◌then◌else◌, Ok, Err, IfErr, IfOk, true};
ghost use Rattle.chip_base.specs.Steps.{is_step};
ghost use Rattle.chip_base.specs.declared.script.UartStep.TheVariants.{Expect};
ghost use Rattle.script_text.specs.ScriptLine.{at_of, closed, ends, expect_of, hex_field, hex_of, number_field, pin_of, send_of, text_field, uart_of};
ghost use Rattle.text_fields.specs.Quoted.{quoted_text};
ghost use Rattle.script_text.specs.ScriptFile.{item_named, line_of};
ghost use Rattle.script_text.specs.ScriptRead.{bytes_view, may_follow, number_view};

use crate::script_fault::ScriptKind;
use crate::script_item::Item;
use chip_base::{Bytes, ChipUnit, PinStep, UartStep};
use hex::FromHexError;
use std::alloc::Global;
use text_fields::fields::{after_field, ends_field, field, skip};
use text_fields::numbers::number;
use text_fields::quoted::read_quoted;

/// A number at the front of a line, and what follows it.
#[tactic(auto, unfolding(crate::specs::ScriptLine::number_field))]
fn number_field<'a>(text: &'a [u8]) -> Result<(u32, &'a [u8]), ScriptKind>
    ensures { number_view result ≡ number_field text.entry.now }
{
    if text.is_empty() {
        return Err(ScriptKind::Word);
    }
    match number(10, u32::MAX, field(text)) {
        Some(value) => Ok((value, after_field(text))),
        None => Err(ScriptKind::Number),
    }
}

/// The bytes of hexadecimal digits at the front of a line, and what follows them.
#[tactic(auto, unfolding(crate::specs::ScriptLine::hex_field))]
fn hex_field<'a>(alloc: Global, text: &'a [u8]) -> Result<(Bytes, &'a [u8]), ScriptKind>
    ensures ok { IfOk result (λ r. hex_field text.entry.now ≡ Ok (bytes_view r)) }
    ensures err { IfErr result (λ k. (k ≡ ScriptKind.Memory) ⊎ (hex_field text.entry.now ≡ Err k)) }
{
    if text.is_empty() {
        return Err(ScriptKind::Word);
    }
    match hex::decode(alloc, field(text)) {
        Ok(bytes) => Ok((Bytes::from_vec(bytes), after_field(text))),
        Err(FromHexError::OutOfMemory) => Err(ScriptKind::Memory),
        Err(_) => Err(ScriptKind::Hex),
    }
}

/// The bytes of a text behind its opening quote, and what follows its closing one.
fn closed_text<'a>(alloc: Global, text: &'a [u8]) -> Result<(Bytes, &'a [u8]), ScriptKind>
    ensures ok { IfOk result (λ r. closed (quoted_text text.entry.now) ≡ Ok (bytes_view r)) }
    ensures err { IfErr result (λ k. (k ≡ ScriptKind.Memory) ⊎ (closed (quoted_text text.entry.now) ≡ Err k)) }
{
    match read_quoted(alloc, text) {
        Ok(Some((bytes, rest))) => {
            if !ends_field(rest) {
                return Err(ScriptKind::Text);
            }
            Ok((Bytes::from_vec(bytes), skip(rest)))
        }
        Ok(None) => Err(ScriptKind::Text),
        Err(_) => Err(ScriptKind::Memory),
    }
}

/// The bytes of a quoted text at the front of a line, and what follows it.
#[tactic(auto, unfolding(crate::specs::ScriptLine::text_field))]
fn text_field<'a>(alloc: Global, text: &'a [u8]) -> Result<(Bytes, &'a [u8]), ScriptKind>
    ensures ok { IfOk result (λ r. text_field text.entry.now ≡ Ok (bytes_view r)) }
    ensures err { IfErr result (λ k. (k ≡ ScriptKind.Memory) ⊎ (text_field text.entry.now ≡ Err k)) }
{
    let (first, more) = match text.split_first() {
        Some(parts) => parts,
        None => return Err(ScriptKind::Word),
    };
    if *first != b'"' {
        return Err(ScriptKind::Text);
    }
    closed_text(alloc, more)
}

/// A pin's change, after a pin line with the cycle `last`.
#[tactic(auto, unfolding(crate::specs::ScriptLine::pin_of))]
fn read_pin(last: u32, text: &[u8]) -> Result<PinStep, ScriptKind>
    ensures value { result ≡ pin_of last text.now }
    ensures valid { IfOk result (λ p. may_follow last (Item.Pin p) ≡ true) }
{
    let (cycle, text) = match number_field(text) {
        Ok(read) => read,
        Err(kind) => return Err(kind),
    };
    if cycle < last {
        return Err(ScriptKind::Order);
    }
    let (pin, text) = match number_field(text) {
        Ok(read) => read,
        Err(kind) => return Err(kind),
    };
    if pin > 31 {
        return Err(ScriptKind::Pin);
    }
    let (level, text) = match number_field(text) {
        Ok(read) => read,
        Err(kind) => return Err(kind),
    };
    if level > 1 {
        return Err(ScriptKind::Pin);
    }
    if !text.is_empty() {
        return Err(ScriptKind::Word);
    }
    Ok(PinStep {
        cycle: cycle as u64,
        pin: pin as u8,
        level: level == 1,
    })
}

/// The step at the end of a line.
fn last_field(step: UartStep, text: &[u8]) -> Result<UartStep, ScriptKind>
    ensures value { result ≡ ends step text.now }
    ensures valid { IfOk result (λ s. s ≡ step) }
{
    if text.is_empty() {
        Ok(step)
    } else {
        Err(ScriptKind::Word)
    }
}

/// A wait for a cycle.
#[tactic(auto, unfolding(crate::specs::ScriptLine::at_of))]
fn read_at(text: &[u8]) -> Result<UartStep, ScriptKind>
    ensures value { result ≡ at_of text.now }
    ensures valid { IfOk result (λ s. is_step s ≡ true) }
{
    match number_field(text) {
        Ok((cycle, rest)) => last_field(UartStep::At(cycle as u64), rest),
        Err(kind) => Err(kind),
    }
}

/// A wait for these bytes at the end of a line.
fn expected(bytes: Bytes, rest: &[u8]) -> Result<UartStep, ScriptKind>
    ensures value { result ≡ (if is_step (Expect bytes) then ends (Expect bytes) rest.now else Err ScriptKind.Text) }
    ensures valid { IfOk result (λ s. is_step s ≡ true) }
{
    let count = bytes.as_slice().len();
    if count == 0 || count > 64 {
        return Err(ScriptKind::Text);
    }
    last_field(UartStep::Expect(bytes), rest)
}

/// A wait for a text.
#[tactic(auto, unfolding(crate::specs::ScriptLine::expect_of))]
fn read_expect(alloc: Global, text: &[u8]) -> Result<UartStep, ScriptKind>
    ensures ok { IfOk result (λ s. expect_of text.now ≡ Ok s) }
    ensures err { IfErr result (λ k. (k ≡ ScriptKind.Memory) ⊎ (expect_of text.now ≡ Err k)) }
    ensures valid { IfOk result (λ s. is_step s ≡ true) }
{
    match text_field(alloc, text) {
        Ok((bytes, rest)) => expected(bytes, rest),
        Err(kind) => Err(kind),
    }
}

/// Bytes to send, as a text.
#[tactic(auto, unfolding(crate::specs::ScriptLine::send_of))]
fn read_send(alloc: Global, text: &[u8]) -> Result<UartStep, ScriptKind>
    ensures ok { IfOk result (λ s. send_of text.now ≡ Ok s) }
    ensures err { IfErr result (λ k. (k ≡ ScriptKind.Memory) ⊎ (send_of text.now ≡ Err k)) }
    ensures valid { IfOk result (λ s. is_step s ≡ true) }
{
    match text_field(alloc, text) {
        Ok((bytes, rest)) => last_field(UartStep::Send(bytes), rest),
        Err(kind) => Err(kind),
    }
}

/// Bytes to send, as digits.
#[tactic(auto, unfolding(crate::specs::ScriptLine::hex_of))]
fn read_hex(alloc: Global, text: &[u8]) -> Result<UartStep, ScriptKind>
    ensures ok { IfOk result (λ s. hex_of text.now ≡ Ok s) }
    ensures err { IfErr result (λ k. (k ≡ ScriptKind.Memory) ⊎ (hex_of text.now ≡ Err k)) }
    ensures valid { IfOk result (λ s. is_step s ≡ true) }
{
    match hex_field(alloc, text) {
        Ok((bytes, rest)) => last_field(UartStep::Send(bytes), rest),
        Err(kind) => Err(kind),
    }
}

/// A UART's step.
#[tactic(auto, unfolding(crate::specs::ScriptLine::uart_of))]
fn read_uart(alloc: Global, text: &[u8]) -> Result<UartStep, ScriptKind>
    ensures ok { IfOk result (λ s. uart_of text.now ≡ Ok s) }
    ensures err { IfErr result (λ k. (k ≡ ScriptKind.Memory) ⊎ (uart_of text.now ≡ Err k)) }
    ensures valid { IfOk result (λ s. is_step s ≡ true) }
{
    let rest = after_field(text);
    let word = field(text);
    if word == b"at".as_slice() {
        read_at(rest)
    } else if word == b"expect".as_slice() {
        read_expect(alloc, rest)
    } else if word == b"send".as_slice() {
        read_send(alloc, rest)
    } else if word == b"hex".as_slice() {
        read_hex(alloc, rest)
    } else if word == b"image".as_slice() {
        last_field(UartStep::Image, rest)
    } else {
        Err(ScriptKind::Word)
    }
}

/// The item of a line whose first field is known.
fn read_named(alloc: Global, last: u32, word: &[u8], rest: &[u8]) -> Result<Item, ScriptKind>
    ensures ok { IfOk result (λ i. item_named last word.now rest.now ≡ Ok i) }
    ensures err { IfErr result (λ k. (k ≡ ScriptKind.Memory) ⊎ (item_named last word.now rest.now ≡ Err k)) }
    ensures valid { IfOk result (λ i. may_follow last i ≡ true) }
{
    if word == b"pin".as_slice() {
        match read_pin(last, rest) {
            Ok(pin) => Ok(Item::Pin(pin)),
            Err(kind) => Err(kind),
        }
    } else if word == ChipUnit::Uart0.name().as_bytes() {
        match read_uart(alloc, rest) {
            Ok(step) => Ok(Item::Uart0(step)),
            Err(kind) => Err(kind),
        }
    } else if word == ChipUnit::Uart1.name().as_bytes() {
        match read_uart(alloc, rest) {
            Ok(step) => Ok(Item::Uart1(step)),
            Err(kind) => Err(kind),
        }
    } else {
        Err(ScriptKind::Word)
    }
}

/// What a line means, after a pin line with the cycle `last`.
#[tactic(auto, unfolding(crate::specs::ScriptFile::line_of))]
pub(crate) fn read_line(alloc: Global, last: u32, text: &[u8]) -> Result<Item, ScriptKind>
    ensures ok { IfOk result (λ i. line_of last text.now ≡ Ok i) }
    ensures err { IfErr result (λ k. (k ≡ ScriptKind.Memory) ⊎ (line_of last text.now ≡ Err k)) }
    ensures some { IfErr result (λ k. 0 < length text.now) }
    ensures valid { IfOk result (λ i. may_follow last i ≡ true) }
{
    let text = skip(text);
    if text.is_empty() || text[0] == b'#' {
        return Ok(Item::Nothing);
    }
    read_named(alloc, last, field(text), after_field(text))
}

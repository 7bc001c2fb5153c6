//! One line of a command file.
ghost use Rattle.std.specs.Prelude.{◌≡◌, ◌<◌, IfErr, IfOk, IfSome, length, true};
ghost use Rattle.text_fields.specs.Fields.{fields};
ghost use Rattle.command_text.specs.CommandLine.{begins_comment, break_of, command_named, command_of, cont_of, csr_of, mem_of, regs_of, step_of, watch_of};
ghost use Rattle.command_text.specs.CommandRead.{is_allowed};

use crate::arguments::{
    address, csr_address, cycles, hart, one_field, two_fields, word_address, word_count,
};
use crate::command::Command;
use text_fields::fields::cut_field;

/// A line that the grammar refuses.
#[derive(Clone, Copy)]
pub(crate) struct FaultyLine;

/// `break HART ADDR`.
#[tactic(auto, unfolding(crate::specs::CommandLine::break_of))]
fn read_break(text: &[u8]) -> Option<Command>
    ensures value { result ≡ break_of (fields text.now) }
    ensures allowed { IfSome result (λ c. is_allowed c ≡ true) }
{
    let (first, second) = two_fields(text)?;
    let hart = hart(first)?;
    let at = address(second)?;
    Some(Command::Break { hart, at })
}

/// `watch ADDR`.
#[tactic(auto, unfolding(crate::specs::CommandLine::watch_of))]
fn read_watch(text: &[u8]) -> Option<Command>
    ensures value { result ≡ watch_of (fields text.now) }
    ensures allowed { IfSome result (λ c. is_allowed c ≡ true) }
{
    let at = word_address(one_field(text)?)?;
    Some(Command::Watch { at })
}

/// `step N`.
#[tactic(auto, unfolding(crate::specs::CommandLine::step_of))]
fn read_step(text: &[u8]) -> Option<Command>
    ensures value { result ≡ step_of (fields text.now) }
    ensures allowed { IfSome result (λ c. is_allowed c ≡ true) }
{
    let cycles = cycles(one_field(text)?)?;
    Some(Command::Step { cycles })
}

/// `cont`.
#[tactic(auto, unfolding(crate::specs::CommandLine::cont_of))]
fn read_cont(text: &[u8]) -> Option<Command>
    ensures value { result ≡ cont_of (fields text.now) }
    ensures allowed { IfSome result (λ c. is_allowed c ≡ true) }
{
    match cut_field(text) {
        Some(_) => None,
        None => Some(Command::Cont),
    }
}

/// `regs HART`.
#[tactic(auto, unfolding(crate::specs::CommandLine::regs_of))]
fn read_regs(text: &[u8]) -> Option<Command>
    ensures value { result ≡ regs_of (fields text.now) }
    ensures allowed { IfSome result (λ c. is_allowed c ≡ true) }
{
    let hart = hart(one_field(text)?)?;
    Some(Command::Regs { hart })
}

/// `csr HART ADDR`.
#[tactic(auto, unfolding(crate::specs::CommandLine::csr_of))]
fn read_csr(text: &[u8]) -> Option<Command>
    ensures value { result ≡ csr_of (fields text.now) }
    ensures allowed { IfSome result (λ c. is_allowed c ≡ true) }
{
    let (first, second) = two_fields(text)?;
    let hart = hart(first)?;
    let addr = csr_address(second)?;
    Some(Command::Csr { hart, addr })
}

/// `mem ADDR N`.
#[tactic(auto, unfolding(crate::specs::CommandLine::mem_of))]
fn read_mem(text: &[u8]) -> Option<Command>
    ensures value { result ≡ mem_of (fields text.now) }
    ensures allowed { IfSome result (λ c. is_allowed c ≡ true) }
{
    let (first, second) = two_fields(text)?;
    let at = word_address(first)?;
    let count = word_count(second)?;
    Some(Command::Mem { at, count })
}

/// The command of this name, with the arguments in this text.
fn read_named(name: &[u8], text: &[u8]) -> Option<Command>
    ensures value { result ≡ command_named name.now (fields text.now) }
    ensures allowed { IfSome result (λ c. is_allowed c ≡ true) }
{
    if name == b"break".as_slice() {
        read_break(text)
    } else if name == b"watch".as_slice() {
        read_watch(text)
    } else if name == b"step".as_slice() {
        read_step(text)
    } else if name == b"cont".as_slice() {
        read_cont(text)
    } else if name == b"regs".as_slice() {
        read_regs(text)
    } else if name == b"csr".as_slice() {
        read_csr(text)
    } else if name == b"mem".as_slice() {
        read_mem(text)
    } else {
        None
    }
}

/// Whether a field begins a comment.
fn begins_comment(field: &[u8]) -> bool
    ensures { result ≡ begins_comment field.now }
{
    !field.is_empty() && field[0] == b'#'
}

/// What a line means: a command, or nothing where it has no field or is a comment.
#[tactic(auto, unfolding(crate::specs::CommandLine::command_of))]
pub(crate) fn read_line(text: &[u8]) -> Result<Option<Command>, FaultyLine>
    ensures value { result ≡ command_of text.now }
    ensures allowed { IfOk result (λ o. IfSome o (λ c. is_allowed c ≡ true)) }
    ensures some { IfErr result (λ e. 0 < length text.now) }
{
    let Some((name, rest)) = cut_field(text) else {
        return Ok(None);
    };
    if begins_comment(name) {
        return Ok(None);
    }
    match read_named(name, rest) {
        Some(command) => Ok(Some(command)),
        None => Err(FaultyLine),
    }
}

//! Reading a command file.
ghost use Rattle.std.specs.Prelude.{◌≡◌, ◌<◌, ◌≤◌, ◌^◌, ◌++◌, length, Ok, IfErr, IfOk, true};
ghost use Rattle.std.specs.List.{list_all};
ghost use Rattle.command_text.specs.CommandFile.{commands_of, is_accepted, line_commands};
ghost use Rattle.command_text.specs.CommandRead.{IsCommandsAnswer, IsFault, IsLineFault, is_allowed};

use crate::command::Command;
use crate::command_line::{FaultyLine, read_line};
use std::alloc::Global;
use std::marker::Model;
use text_fields::lines::cut_line;

/// Why a command file is refused.
#[derive(Clone, Copy, Debug, PartialEq, Eq)]
pub enum CommandFault {
    /// The first faulty line, counted from 1.
    Line { line: u32 },
    /// An allocation failed.
    Memory,
}

/// The commands of a file, in their order.
#[derive(Drop)]
pub struct Commands {
    items: Vec<Command>,
}

impl Model for Commands {
    ghost use Rattle.std.specs.Prelude.{◌≡◌, List, true};
    ghost use Rattle.std.specs.List.{list_all};
    ghost use Rattle.command_text.specs.CommandRead.{is_allowed};
    ghost use Rattle.command_text.specs.declared.command.Command.{Command};

    ghost Value = { List Command };

    ghost view = { λ c. c.items.items };

    ghost invariant = { λ c. list_all is_allowed c.items.items ≡ true };
}

impl Commands {
    ghost use Rattle.command_text.specs.CommandRead.{is_allowed};

    /// Lends the commands.
    pub fn as_slice(&self) -> &[Command]
        ensures value { result.now ≡ self.now }
        ensures allowed { list_all is_allowed self.now ≡ true }
    {
        self.items.as_slice()
    }
}

/// The commands found, with those of one line more.
fn add_line(mut found: Vec<Command>, number: u64, text: &[u8]) -> Result<Vec<Command>, CommandFault>
    requires allowed { list_all is_allowed found.items ≡ true }
    requires number { 0 < length text.now → number < 2 ^ 32 }
    ensures accepted { IfOk result (λ v. is_accepted text.now ≡ true) }
    ensures added { IfOk result (λ v. v.items ≡ found.items ++ line_commands text.now) }
    ensures allowed { IfOk result (λ v. list_all is_allowed v.items ≡ true) }
    ensures err { IfErr result (λ f. IsLineFault number text.now f) }
{
    match read_line(text) {
        Ok(Some(command)) => match found.push(command) {
            Ok(()) => Ok(found),
            Err(_) => Err(CommandFault::Memory),
        },
        Ok(None) => Ok(found),
        Err(FaultyLine) => Err(CommandFault::Line {
            line: number as u32,
        }),
    }
}

/// The commands of the lines of a text.
#[tactic(auto, unfolding(crate::specs::CommandFile::commands_of))]
fn read_found(alloc: Global, text: &[u8]) -> Result<Vec<Command>, CommandFault>
    requires { length text.now < 2 ^ 32 }
    ensures ok { IfOk result (λ v. commands_of text.now ≡ Ok v.items) }
    ensures allowed { IfOk result (λ v. list_all is_allowed v.items ≡ true) }
    ensures err { IfErr result (λ f. IsFault (commands_of text.now) f) }
{
    let mut found = Vec::new(alloc);
    let mut line: u64 = 1;
    let mut rest = Some(text);
    while let Some(left) = rest {
        let (this, more) = cut_line(left);
        found = add_line(found, line, this)?;
        rest = more;
        line += 1;
    }
    Ok(found)
}

/// Reads a command file of fewer than 2^32 bytes. Its lines are `break HART ADDR`, `watch ADDR`, `step N`, `cont`, `regs HART`,
/// `csr HART ADDR` and `mem ADDR N`; lines without a field, and those whose first field begins with `#`, mean nothing. HART is 0 or 1.
/// ADDR has one to eight hexadecimal digits, and is a multiple of four for `watch` and `mem` and at most fff for `csr`. N has one to ten
/// decimal digits, and is at most 4,294,967,295, and 1 to 64 for `mem`. The answer for a faulty text is its first faulty line, counted
/// from 1, or `Memory` where an allocation fails.
pub fn read_commands(alloc: Global, text: &[u8]) -> Result<Commands, CommandFault>
    requires { length text.now < 2 ^ 32 }
    ensures { IsCommandsAnswer (commands_of text.now) result }
{
    match read_found(alloc, text) {
        Ok(items) => Ok(Commands { items }),
        Err(fault) => Err(fault),
    }
}

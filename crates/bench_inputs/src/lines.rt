//! The lines of refusals.
ghost use Rattle.std.specs.Prelude.{◌≡◌, ℕ, ◌+◌, ◌≤◌, ◌++◌, List, IfOk, codes, length};
ghost use Rattle.soc_words.specs.Text.{line};
ghost use Rattle.bench_inputs.specs.Lines.{command_refusal, command_text, fault_kind_name, image_fault_text, image_refusal, line_refusal, line_text, range_text};
ghost use Rattle.bench_plan.specs.Steps.{IsRefusal};

use bench_plan::{Refusal, Stop, refused};
use image_tool::ImageFault;
use script_text::{ScriptFault, ScriptKind};
use std::alloc::{AllocError, Global};
use text_line::Line;

/// The line of a chip file in which the value of this key is outside its range.
#[tactic(auto, unfolding(crate::specs::Lines::range_text))]
fn range_line(alloc: Global, key: &[u8]) -> Result<Vec<u8>, AllocError>
    ensures { IfOk result (λ v. v.items ≡ range_text key.now) }
{
    let mut line = Vec::new(alloc);
    line.extend_from_slice(b"error chip range ")?;
    line.extend_from_slice(key)?;
    line.push(b'\n')?;
    Ok(line)
}

/// Refuses a chip file in which the value of this key is outside its range.
pub fn range_refused(alloc: Global, key: &[u8]) -> Stop
    ensures { IsRefusal (record { status = 6; text = range_text key.now }) result }
{
    match range_line(alloc, key) {
        Ok(line) => Stop::Refused(Refusal::new(6, line)),
        Err(_) => Stop::Memory,
    }
}

/// The line of an image with this fault.
#[tactic(auto, unfolding(crate::specs::Lines::image_fault_text))]
fn image_line(fault: ImageFault) -> Line
    ensures { result ≡ image_fault_text fault }
{
    let mut line = Line::new();
    line.push(b"error image ");
    match fault {
        ImageFault::Short { have } => {
            line.push(b"short ");
            line.push_number(u64::from(have));
        }
        ImageFault::Signature { found } => {
            line.push(b"signature ");
            line.push_word(found);
        }
        ImageFault::Size { found } => {
            line.push(b"size ");
            line.push_number(u64::from(found));
        }
        ImageFault::Checksum { sum } => {
            line.push(b"checksum ");
            line.push_word(sum);
        }
        ImageFault::Extra { have } => {
            line.push(b"extra ");
            line.push_number(u64::from(have));
        }
        ImageFault::Memory => line.push(b"memory"),
    }
    line.push(b"\n");
    line
}

/// Refuses an image with this fault.
pub fn image_refused(alloc: Global, fault: ImageFault) -> Stop
    ensures { IsRefusal (image_refusal fault) result }
{
    refused(alloc, 4, image_line(fault).as_slice())
}

/// The word for what is wrong in a line of a script.
fn kind_word(kind: ScriptKind) -> &'static [u8]
    ensures word { result.now ≡ fault_kind_name kind }
    ensures short { length result.now ≤ 6 }
{
    match kind {
        ScriptKind::Word => b"word",
        ScriptKind::Number => b"number",
        ScriptKind::Order => b"order",
        ScriptKind::Hex => b"hex",
        ScriptKind::Pin => b"pin",
        ScriptKind::Text => b"text",
        ScriptKind::Memory => b"memory",
    }
}

/// The line of a script's first faulty line.
#[tactic(auto, unfolding(crate::specs::Lines::line_text))]
fn fault_line(fault: &ScriptFault) -> Line
    ensures { result ≡ line_text fault.now }
{
    let mut line = Line::new();
    line.push(b"error script line ");
    line.push_number(fault.line as u64);
    line.push(b" ");
    line.push(kind_word(fault.kind));
    line.push(b"\n");
    line
}

/// Refuses a script by its first faulty line.
pub fn line_refused(alloc: Global, fault: &ScriptFault) -> Stop
    ensures { IsRefusal (line_refusal fault.now) result }
{
    refused(alloc, 5, fault_line(fault).as_slice())
}

/// The line of a command file's first faulty line.
#[tactic(auto, unfolding(crate::specs::Lines::command_text))]
fn command_line(number: u32) -> Line
    ensures { result ≡ command_text number }
{
    let mut line = Line::new();
    line.push(b"error debug line ");
    line.push_number(u64::from(number));
    line.push(b"\n");
    line
}

/// Refuses a command file by its first faulty line, counted from 1.
pub fn command_refused(alloc: Global, number: u32) -> Stop
    ensures { IsRefusal (command_refusal number) result }
{
    refused(alloc, 10, command_line(number).as_slice())
}

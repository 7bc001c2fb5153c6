//! The files of a job, read and judged one by one.
ghost use Rattle.std.specs.Prelude.{◌≡◌, ◌%◌, ◌≤◌, IfOk, None, length, option_map};
ghost use Rattle.chip_base.specs.Settings.{values_of};
ghost use Rattle.bench_inputs.specs.Inputs.{boot_fault, commands_reading, image_reading, room_reading, script_reading, settings_reading, wrapped_reading};
ghost use Rattle.bench_plan.specs.Steps.{Reads, mapped};
ghost use Rattle.script_text.specs.ScriptFile.{empty};

use crate::judge::{judge_chip, judge_commands, judge_image, judge_script, wrap_payload};
use bench_plan::{Stop, fetch};
use bench_shelf::Shelf;
use chip_base::{Boot, Pins, Script, Setup, Steps0};
use command_text::Commands;
use std::alloc::Global;

/// The settings of the chip: those of the file of this name, of at most 65,536 bytes, or the standard ones where none is named.
pub fn read_settings<S: Shelf>(
    alloc: Global,
    name: Option<&str>,
    shelf: &mut S,
) -> Result<Setup, Stop>
    ensures { Reads S.held shelf.old shelf.new (settings_reading (option_map (λ s. s.now) name.entry)) (mapped values_of result) }
{
    let Some(name) = name else {
        return Ok(Setup::standard());
    };
    let bytes = fetch(alloc, name, 65_536, shelf)?;
    judge_chip(alloc, &bytes)
}

/// The most bytes that a payload may have: those of IMEM, by the chip file of this name, or 1,048,576, those of the largest IMEM, where
/// none is named.
pub fn read_room<S: Shelf>(alloc: Global, name: Option<&str>, shelf: &mut S) -> Result<u32, Stop>
    ensures { Reads S.held shelf.old shelf.new (room_reading (option_map (λ s. s.now) name.entry)) result }
{
    let Some(name) = name else {
        return Ok(1_048_576);
    };
    let setup = read_settings(alloc, Some(name), shelf)?;
    Ok(setup.imem)
}

/// The file of this name, of at most 2,097,152 bytes, which core 0 must be able to begin with in this way, where IMEM has this many
/// bytes.
pub fn read_image<S: Shelf>(
    alloc: Global,
    boot: Boot,
    room: u32,
    name: &str,
    shelf: &mut S,
) -> Result<Vec<u8>, Stop>
    ensures reads { Reads S.held shelf.old shelf.new (image_reading boot room name.now) (mapped (λ v. v.items) result) }
    ensures fits { IfOk result (λ v. boot_fault boot room v.items ≡ None) }
{
    let image = fetch(alloc, name, 2_097_152, shelf)?;
    judge_image(alloc, boot, image, room)
}

/// The image of the payload in the file of this name, of at most 2,097,152 bytes. With zero bytes up to a multiple of four it must have
/// at least one byte and at most this many.
pub fn read_payload<S: Shelf>(
    alloc: Global,
    room: u32,
    name: &str,
    shelf: &mut S,
) -> Result<Vec<u8>, Stop>
    ensures reads { Reads S.held shelf.old shelf.new (wrapped_reading room name.now) (mapped (λ v. v.items) result) }
    ensures whole { IfOk result (λ v. (12 ≤ length v.items) × (length v.items % 4 ≡ 0)) }
{
    let payload = fetch(alloc, name, 2_097_152, shelf)?;
    wrap_payload(alloc, &payload, room)
}

/// A script that does nothing.
fn no_script(alloc: Global) -> Script
    ensures { result ≡ empty }
{
    Script {
        pins: Pins::from_vec(Vec::new(alloc)).unwrap(),
        uart0: Steps0::from_vec(Vec::new(alloc)).unwrap(),
        uart1: Steps0::from_vec(Vec::new(alloc)).unwrap(),
    }
}

/// The script: the file of this name, of at most 1,048,576 bytes, or one that does nothing where none is named.
pub fn read_script_file<S: Shelf>(
    alloc: Global,
    name: Option<&str>,
    shelf: &mut S,
) -> Result<Script, Stop>
    ensures { Reads S.held shelf.old shelf.new (script_reading (option_map (λ s. s.now) name.entry)) result }
{
    let Some(name) = name else {
        return Ok(no_script(alloc));
    };
    let text = fetch(alloc, name, 1_048_576, shelf)?;
    judge_script(alloc, &text)
}

/// The commands of the debugger: the file of this name, of at most 65,536 bytes.
pub fn read_commands_file<S: Shelf>(
    alloc: Global,
    name: &str,
    shelf: &mut S,
) -> Result<Commands, Stop>
    ensures { Reads S.held shelf.old shelf.new (commands_reading name.now) result }
{
    let text = fetch(alloc, name, 65_536, shelf)?;
    judge_commands(alloc, &text)
}

//! What the bytes of the files mean, and what is wrong in them.
ghost use Rattle.std.specs.Prelude.{◌≡◌, ◌%◌, ◌^◌, ◌<◌, ◌≤◌, IfOk, None, Option, length};
ghost use Rattle.chip_base.specs.Settings.{values_of};
ghost use Rattle.image_tool.specs.declared.faults.ImageFault.{ImageFault};
ghost use Rattle.bench_inputs.specs.Inputs.{boot_fault, commands_in, image_in, script_in, settings_in, wrapped_in};
ghost use Rattle.bench_inputs.specs.Lines.{toml_refusal};
ghost use Rattle.bench_plan.specs.Steps.{IsRefusal, Judges, mapped};

use crate::lines::{command_refused, image_refused, line_refused, range_refused};
use bench_plan::{Stop, refused};
use chip_base::{Boot, Script, Setup};
use command_text::{CommandFault, Commands, read_commands};
use image_tool::{ImageFault, check, wrap};
use script_text::{ScriptKind, SetupFault, read_chip, read_script};
use std::alloc::Global;

/// The settings that a chip file gives.
#[tactic(auto, using(crate::proofs::Judged::settings_ok, crate::proofs::Judged::settings_key, crate::proofs::Judged::settings_range, crate::proofs::Judged::settings_toml), unfolding(crate::specs::Lines::toml_text, crate::specs::Lines::key_text))]
pub fn judge_chip(alloc: Global, bytes: &[u8]) -> Result<Setup, Stop>
    ensures { Judges (settings_in bytes.now) (mapped values_of result) }
{
    match read_chip(alloc, bytes) {
        Ok(setup) => Ok(setup),
        Err(SetupFault::Toml) => Err(refused(alloc, 6, b"error chip toml\n")),
        Err(SetupFault::Key { .. }) => Err(refused(alloc, 6, b"error chip key\n")),
        Err(SetupFault::Range { name }) => Err(range_refused(alloc, name.as_slice())),
        Err(SetupFault::Memory) => Err(Stop::Memory),
    }
}

/// What is wrong in a file of raw bytes, for an IMEM of this many bytes.
fn raw_fault(image: &[u8], room: u32) -> Option<ImageFault>
    requires { length image.now < 2 ^ 32 }
    ensures { result ≡ boot_fault Boot.Raw room image.now }
{
    let size = image.len() as u32;
    if size <= room {
        None
    } else {
        Some(ImageFault::Size { found: size })
    }
}

/// What is wrong in an image, for an IMEM of this many bytes.
fn direct_fault(image: &[u8], room: u32) -> Option<ImageFault>
    requires { length image.now < 2 ^ 32 }
    ensures { result ≡ boot_fault Boot.Direct room image.now }
{
    match check(image, room) {
        Ok(_) => None,
        Err(fault) => Some(fault),
    }
}

/// Why core 0 can't begin with a file in this way, where IMEM has this many bytes.
fn fault_of(boot: Boot, image: &[u8], room: u32) -> Option<ImageFault>
    requires { length image.now < 2 ^ 32 }
    ensures { result ≡ boot_fault boot room image.now }
{
    match boot {
        Boot::Raw => raw_fault(image, room),
        Boot::Direct => direct_fault(image, room),
        Boot::Monitor => None,
    }
}

/// A file of fewer than 2^32 bytes, which core 0 must be able to begin with in this way, where IMEM has this many bytes.
pub fn judge_image(alloc: Global, boot: Boot, image: Vec<u8>, room: u32) -> Result<Vec<u8>, Stop>
    requires { length image.items < 2 ^ 32 }
    ensures judges { Judges (image_in boot room image.items) (mapped (λ v. v.items) result) }
    ensures fits { IfOk result (λ v. boot_fault boot room v.items ≡ None) }
{
    match fault_of(boot, &image, room) {
        None => Ok(image),
        Some(fault) => Err(image_refused(alloc, fault)),
    }
}

/// The image of a payload of fewer than 2^31 bytes, which must have room.
#[tactic(auto, using(crate::proofs::Payloads::wrapped_ok, crate::proofs::Payloads::wrapped_size))]
pub fn wrap_payload(alloc: Global, payload: &[u8], room: u32) -> Result<Vec<u8>, Stop>
    requires { length payload.now < 2 ^ 31 }
    ensures judges { Judges (wrapped_in room payload.now) (mapped (λ v. v.items) result) }
    ensures whole { IfOk result (λ v. (12 ≤ length v.items) × (length v.items % 4 ≡ 0)) }
{
    match wrap(alloc, payload, room) {
        Ok(image) => Ok(image),
        Err(ImageFault::Memory) => Err(Stop::Memory),
        Err(fault) => Err(image_refused(alloc, fault)),
    }
}

/// The script that a text of fewer than 2^32 bytes gives.
pub fn judge_script(alloc: Global, text: &[u8]) -> Result<Script, Stop>
    requires { length text.now < 2 ^ 32 }
    ensures { Judges (script_in text.now) result }
{
    match read_script(alloc, text) {
        Ok(script) => Ok(script),
        Err(fault) => match fault.kind {
            ScriptKind::Memory => Err(Stop::Memory),
            _ => Err(line_refused(alloc, &fault)),
        },
    }
}

/// The commands that a text of fewer than 2^32 bytes gives.
pub fn judge_commands(alloc: Global, text: &[u8]) -> Result<Commands, Stop>
    requires { length text.now < 2 ^ 32 }
    ensures { Judges (commands_in text.now) result }
{
    match read_commands(alloc, text) {
        Ok(commands) => Ok(commands),
        Err(CommandFault::Line { line }) => Err(command_refused(alloc, line)),
        Err(CommandFault::Memory) => Err(Stop::Memory),
    }
}

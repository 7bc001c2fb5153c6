//! The demonstration.
ghost use Rattle.std.specs.Prelude.{◌≡◌, ℕ, ◌++◌, [], length};
ghost use Rattle.bench_demo.specs.Demo.{demo_text, made_text, number_text, run_text, serial_text, size_text, sum_text};
ghost use Rattle.trace_text.specs.Lines.{boot_text, end_text};
ghost use Rattle.bench_shelf.specs.Sink.{Writes};
ghost use Rattle.chip_whole.specs.Chip.{after};
ghost use Rattle.chip_whole.specs.Stands.{ForEach};

use crate::image::demo_image;
use crate::power_on::{demo_script, demo_settings};
use crate::run::run;
use bench_shelf::{Sink, SinkFault};
use chip_base::{Boot, BootView, Groups};
use chip_net::Chip;
use chip_whole::Standing;
use std::alloc::Global;
use std::marker::Brand;
use std::sync::ledger::Blank;
use std::thread::Threads;
use text_line::Line;
use trace_text::{boot_line, end_line, put_line};

/// The stretches of the run, of 4,000 cycles each.
const STRETCHES: u32 = 100;

#[tactic(auto, unfolding(crate::specs::Demo::number_text))]
fn number_line(number: u32) -> Line
    ensures { result ≡ number_text number }
{
    let mut line = Line::new();
    line.push(b"demo ");
    line.push_number(u64::from(number));
    line.push(b"\n");
    line
}

#[tactic(auto, unfolding(crate::specs::Demo::size_text))]
fn size_line(size: u64) -> Line
    ensures { result ≡ size_text size }
{
    let mut line = Line::new();
    line.push(b"image ");
    line.push_number(size);
    line.push(b"\n");
    line
}

#[tactic(auto, unfolding(crate::specs::Demo::serial_text))]
fn serial_line(count: u64) -> Line
    ensures { result ≡ serial_text count }
{
    let mut line = Line::new();
    line.push(b"serial ");
    line.push_number(count);
    line.push(b"\n");
    line
}

#[tactic(auto, unfolding(crate::specs::Demo::sum_text))]
fn sum_line(sum: u32) -> Line
    ensures { result ≡ sum_text sum }
{
    let mut line = Line::new();
    line.push(b"sum ");
    line.push_word(sum);
    line.push(b"\n");
    line
}

/// Writes the lines of the number and of the image's size.
fn put_image<O: Sink>(number: u32, size: u64, out: &mut O) -> Result<(), SinkFault>
    ensures { Writes O.written O.faults out.old out.new (made_text number size) result }
{
    put_line(&number_line(number), out)?;
    put_line(&size_line(size), out)
}

/// Writes the lines of what the run came to, and the last line.
fn put_run<O: Sink>(count: u64, sum: u32, boot: BootView, out: &mut O) -> Result<(), SinkFault>
    ensures { Writes O.written O.faults out.old out.new (serial_text count ++ sum_text sum ++ boot_text boot ++ end_text) result }
{
    put_line(&serial_line(count), out)?;
    put_line(&sum_line(sum), out)?;
    put_line(&boot_line(boot), out)?;
    put_line(&end_line(), out)
}

/// Runs a chip at power-on, and writes what is shown of it.
fn put_shown<R: Threads + Sync, O: Sink>(
    rt: &R,
    chip: &mut Chip,
    number: u32,
    size: u64,
    out: &mut O,
) -> Result<(), SinkFault>
    requires first { ⟦<Chip as Standing>⟧.now chip.old ≡ 0 }
    ensures { ForEach ⟦<Chip as Standing>⟧.stands chip.old (λ board s. s.events ≡ []
        → Writes O.written O.faults out.old out.new (made_text number size ++ run_text (after board s 400000)) result) }
{
    put_image(number, size, out)?;
    match run::<R, Brand>(rt, chip, STRETCHES, Blank::new(1)) {
        Ok(count) => put_run(count, chip.word(0x8000_0000).unwrap_or(0), chip.boot(), out),
        Err(_) => Err(SinkFault::Memory),
    }
}

/// Makes an image from a number, uploads it to the boot monitor of a chip without a part, runs the chip for 400,000 cycles from
/// power-on, and writes what is shown of the run. How the lanes are grouped doesn't change it. `Memory` comes where an allocation fails.
pub fn put_demo<R: Threads + Sync, O: Sink>(
    rt: &R,
    alloc: Global,
    number: u32,
    groups: &Groups,
    out: &mut O,
) -> Result<(), SinkFault>
    ensures { Writes O.written O.faults out.old out.new (demo_text number) result }
{
    let Ok(image) = demo_image(alloc, number) else {
        return Err(SinkFault::Memory);
    };
    let Ok(script) = demo_script(alloc) else {
        return Err(SinkFault::Memory);
    };
    let size = image.len() as u64;
    let setup = demo_settings();
    match Chip::new(alloc, &setup, Boot::Monitor, image, script, None, groups) {
        Ok(mut chip) => put_shown(rt, &mut chip, number, size, out),
        Err(_) => Err(SinkFault::Memory),
    }
}

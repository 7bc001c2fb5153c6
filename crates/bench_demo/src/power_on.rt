//! What the chip begins with.
ghost use Rattle.std.specs.Prelude.{◌≡◌, IfOk, true};
ghost use Rattle.std.specs.List.{list_all};
ghost use Rattle.bench_demo.specs.Demo.{demo_script, demo_settings};
ghost use Rattle.chip_base.specs.Settings.{values_of};
ghost use Rattle.chip_base.specs.Steps.{is_step};

use chip_base::{Bytes, Pins, Script, Setup, Steps0, UartStep};
use std::alloc::{AllocError, Global};

/// The settings of a chip without a chip file, but that UART0 has the baud divisor 0.
pub fn demo_settings() -> Setup
    ensures { values_of result ≡ demo_settings }
{
    let mut setup = Setup::standard();
    setup.baud = 0;
    setup
}

fn text(alloc: Global, text: &[u8]) -> Result<Bytes, AllocError>
    ensures { IfOk result (λ bytes. bytes ≡ text.now) }
{
    let mut bytes = Vec::new(alloc);
    bytes.extend_from_slice(text)?;
    Ok(Bytes::from_vec(bytes))
}

/// Uploads the image, and runs it.
fn upload(alloc: Global) -> Result<Vec<UartStep>, AllocError>
    ensures { IfOk result (λ steps. steps.items ≡ demo_script.uart0) }
{
    let mut steps = Vec::new(alloc);
    steps.push(UartStep::Expect(text(alloc, b"> ")?))?;
    steps.push(UartStep::Send(text(alloc, b"u")?))?;
    steps.push(UartStep::Expect(text(alloc, b"UP\r\n")?))?;
    steps.push(UartStep::Image)?;
    steps.push(UartStep::Expect(text(alloc, b"> ")?))?;
    steps.push(UartStep::Send(text(alloc, b"e")?))?;
    Ok(steps)
}

/// Steps whose texts and cycles are in their ranges.
fn steps_of(steps: Vec<UartStep>) -> Steps0
    requires { list_all is_step steps.items ≡ true }
    ensures { result ≡ steps.items }
{
    match Steps0::from_vec(steps) {
        Some(steps) => steps,
        None => unreachable!(),
    }
}

/// No pin changes.
fn no_pins(alloc: Global) -> Pins
    ensures { result ≡ demo_script.pins }
{
    match Pins::from_vec(Vec::new(alloc)) {
        Some(pins) => pins,
        None => unreachable!(),
    }
}

/// The script that uploads the image and runs it.
pub fn demo_script(alloc: Global) -> Result<Script, AllocError>
    ensures { IfOk result (λ script. script ≡ demo_script) }
{
    let uart0 = upload(alloc)?;
    Ok(Script {
        pins: no_pins(alloc),
        uart0: steps_of(uart0),
        uart1: steps_of(Vec::new(alloc)),
    })
}

//! Printing a script.
ghost use Rattle.std.specs.Prelude.{◌≡◌, ◌++◌, IfOk, Ok, true};
ghost use Rattle.std.specs.Fmt.{decimal};
ghost use Rattle.std.specs.List.{flat_map, list_all};
ghost use Rattle.chip_base.specs.UnitTable.{unit_row};
ghost use Rattle.chip_base.specs.declared.chip_unit.ChipUnit.TheVariants.{Uart0, Uart1};
ghost use Rattle.chip_base.specs.declared.script.UartStep.TheVariants.{Send};
ghost use Rattle.script_text.specs.ScriptFile.{script_of};
ghost use Rattle.text_fields.specs.QuotedMeaning.{stands_alone};
ghost use Rattle.script_text.specs.ScriptText.{has_bytes, is_byte, level_text, pin_line, quoted_byte, script_text, step_line, step_text, terminated};

use chip_base::{Bytes, ChipUnit, NoMemory, PinStep, Script, UartStep};
use std::alloc::{AllocError, Global};

/// Appends a text and a number.
fn print_number(
    alloc: Global,
    out: &mut Vec<u8>,
    front: &str,
    number: u64,
) -> Result<(), AllocError>
    ensures { IfOk result (λ _. out.new.items ≡ out.old.items ++ (front.now ++ decimal number)) }
{
    let text = format!(in alloc; "{front}{number}")?;
    out.extend_from_slice(text.as_bytes())
}

/// Appends a pin's level and the end of its line.
#[tactic(auto, unfolding(crate::specs::ScriptText::level_text))]
fn print_level(out: &mut Vec<u8>, level: bool) -> Result<(), AllocError>
    ensures { IfOk result (λ _. out.new.items ≡ out.old.items ++ terminated (level_text level)) }
{
    if level {
        out.extend_from_slice(b" 1\n")
    } else {
        out.extend_from_slice(b" 0\n")
    }
}

/// Appends the line of a pin's change.
#[tactic(auto, unfolding(crate::specs::ScriptText::pin_text))]
fn print_pin(alloc: Global, out: &mut Vec<u8>, pin: &PinStep) -> Result<(), AllocError>
    ensures { IfOk result (λ _. out.new.items ≡ out.old.items ++ pin_line pin.now) }
{
    print_number(alloc, out, "pin ", pin.cycle)?;
    print_number(alloc, out, " ", pin.pin as u64)?;
    print_level(out, pin.level)
}

/// Whether a byte stands by itself in a text in double quotes.
fn stands_alone(byte: u8) -> bool
    ensures { result ≡ stands_alone byte }
{
    byte >= b' ' && byte <= b'~' && byte != b'"' && byte != b'\\'
}

/// Appends a byte of a text in double quotes.
#[tactic(auto, unfolding(crate::specs::ScriptText::quoted_byte))]
fn print_byte(alloc: Global, out: &mut Vec<u8>, byte: u8) -> Result<(), AllocError>
    ensures { IfOk result (λ _. out.new.items ≡ out.old.items ++ quoted_byte byte) }
{
    if stands_alone(byte) {
        return out.extend_from_slice(&[byte]);
    }
    out.extend_from_slice(b"\\x")?;
    let digits = hex::encode(alloc, [byte])?;
    out.extend_from_slice(digits.as_bytes())
}

/// Appends the bytes of a text in double quotes.
fn print_bytes(alloc: Global, out: &mut Vec<u8>, bytes: &[u8]) -> Result<(), AllocError>
    ensures { IfOk result (λ _. out.new.items ≡ out.old.items ++ flat_map quoted_byte bytes.now) }
{
    for byte in bytes {
        print_byte(alloc, out, *byte)?;
    }
    Ok(())
}

/// Appends the bytes that are sent, as digits, or as an empty text.
#[tactic(auto, unfolding(crate::specs::ScriptText::step_text))]
fn print_sent(alloc: Global, out: &mut Vec<u8>, bytes: &[u8]) -> Result<(), AllocError>
    ensures { IfOk result (λ _. out.new.items ≡ out.old.items ++ step_text (Send bytes.now)) }
{
    if bytes.is_empty() {
        return out.extend_from_slice(b" send \"\"");
    }
    out.extend_from_slice(b" hex ")?;
    let digits = hex::encode(alloc, bytes)?;
    out.extend_from_slice(digits.as_bytes())
}

/// The same bytes, each of which is below 256.
fn small_bytes<'a>(bytes: &'a [u8]) -> &'a [u8]
    ensures value { result.now ≡ bytes.entry.now }
    ensures small { list_all is_byte bytes.entry.now ≡ true }
{
    bytes
}

/// Lends the bytes of a step.
fn bytes_of<'a>(text: &'a Bytes) -> &'a [u8]
    ensures value { result.now ≡ text.entry.now }
    ensures small { list_all is_byte text.entry.now ≡ true }
{
    small_bytes(text.as_slice())
}

/// Appends a step.
#[tactic(auto, unfolding(crate::specs::ScriptText::step_text))]
fn print_step(alloc: Global, out: &mut Vec<u8>, step: &UartStep) -> Result<(), AllocError>
    ensures text { IfOk result (λ _. out.new.items ≡ out.old.items ++ step_text step.now) }
    ensures bytes { IfOk result (λ _. has_bytes step.now ≡ true) }
{
    match step {
        UartStep::At(cycle) => print_number(alloc, out, " at ", *cycle),
        UartStep::Expect(bytes) => {
            out.extend_from_slice(b" expect \"")?;
            print_bytes(alloc, out, bytes_of(bytes))?;
            out.extend_from_slice(b"\"")
        }
        UartStep::Send(bytes) => print_sent(alloc, out, bytes_of(bytes)),
        UartStep::Image => out.extend_from_slice(b" image"),
    }
}

/// Appends the line of a step of the UART with this name.
fn print_step_line(
    alloc: Global,
    out: &mut Vec<u8>,
    name: &str,
    step: &UartStep,
) -> Result<(), AllocError>
    ensures text { IfOk result (λ _. out.new.items ≡ out.old.items ++ step_line name.now step.now) }
    ensures bytes { IfOk result (λ _. has_bytes step.now ≡ true) }
{
    out.extend_from_slice(name.as_bytes())?;
    print_step(alloc, out, step)?;
    out.extend_from_slice(b"\n")
}

/// Appends the lines of all pin changes.
fn print_pins(alloc: Global, out: &mut Vec<u8>, pins: &[PinStep]) -> Result<(), AllocError>
    ensures { IfOk result (λ _. out.new.items ≡ out.old.items ++ flat_map pin_line pins.now) }
{
    for pin in pins {
        print_pin(alloc, out, pin)?;
    }
    Ok(())
}

/// Appends the lines of all steps of the UART with this name.
fn print_steps(
    alloc: Global,
    out: &mut Vec<u8>,
    name: &str,
    steps: &[UartStep],
) -> Result<(), AllocError>
    ensures text { IfOk result (λ _. out.new.items ≡ out.old.items ++ flat_map (step_line name.now) steps.now) }
    ensures bytes { IfOk result (λ _. list_all has_bytes steps.now ≡ true) }
{
    for step in steps {
        print_step_line(alloc, out, name, step)?;
    }
    Ok(())
}

/// The lines of a script.
fn printed(
    alloc: Global,
    pins: &[PinStep],
    uart0: &[UartStep],
    uart1: &[UartStep],
) -> Result<Vec<u8>, AllocError>
    ensures text { IfOk result (λ v. v.items ≡ flat_map pin_line pins.now ++ (flat_map (step_line (unit_row Uart0).name) uart0.now ++ flat_map (step_line (unit_row Uart1).name) uart1.now)) }
    ensures bytes0 { IfOk result (λ v. list_all has_bytes uart0.now ≡ true) }
    ensures bytes1 { IfOk result (λ v. list_all has_bytes uart1.now ≡ true) }
{
    let mut out = Vec::new(alloc);
    print_pins(alloc, &mut out, pins)?;
    print_steps(alloc, &mut out, ChipUnit::Uart0.name(), uart0)?;
    print_steps(alloc, &mut out, ChipUnit::Uart1.name(), uart1)?;
    Ok(out)
}

/// Prints a script: its pin changes, then the steps of `uart0`, then those of `uart1`. Bytes to send are printed as hexadecimal digits,
/// and none as `send ""`; a byte of an expected text that can't stand by itself as `\xHH`. The text is read as the same script.
/// `NoMemory` comes only where an allocation fails.
pub fn print_script(alloc: Global, script: &Script) -> Result<Vec<u8>, NoMemory>
    ensures text { IfOk result (λ v. v.items ≡ script_text script.now) }
    ensures reads { IfOk result (λ v. script_of v.items ≡ Ok script.now) }
{
    let pins = script.pins.as_slice();
    let uart0 = script.uart0.as_slice();
    let uart1 = script.uart1.as_slice();
    match printed(alloc, pins, uart0, uart1) {
        Ok(out) => Ok(out),
        Err(_) => Err(NoMemory),
    }
}

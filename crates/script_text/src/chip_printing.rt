//! Printing a chip file.
ghost use Rattle.std.specs.Prelude.{◌≡◌, ◌++◌, IfOk, Ok, Some};
ghost use Rattle.std.specs.Fmt.{decimal};
ghost use Rattle.chip_base.specs.Settings.{values_of};
ghost use Rattle.script_text.specs.ChipText.{chip_text, delay_header, delay_line, first_delays, last_delays, flag_text, pair_line, plain_lines};
ghost use Rattle.std.specs.List.{concat};
ghost use Rattle.std.specs.Prelude.{Result};
ghost use Rattle.std.specs.Str.{IsUtf8};
ghost use Rattle.script_text.specs.ChipFile.{chip_of};
ghost use Rattle.script_text.specs.ChipRead.{IsChipAnswer, IsSettingsOrMemory};
ghost use Rattle.script_text.specs.declared.chip.SetupFault.{SetupFault};
ghost use Rattle.chip_base.specs.declared.setup.Setup.{Setup};

use chip_base::{ChipUnit, NoMemory, Setup};
use std::alloc::{AllocError, Global};

/// Appends `key = number`.
#[tactic(auto, unfolding(crate::specs::ChipText::pair_line))]
fn number_line(alloc: Global, out: &mut Vec<u8>, key: &str, number: u32) -> Result<(), AllocError>
    ensures { IfOk result (λ _. out.new.items ≡ out.old.items ++ pair_line key.now (decimal number)) }
{
    let line = format!(in alloc; "{key} = {number}\n")?;
    out.extend_from_slice(line.as_bytes())
}

/// Appends `key = true` or `key = false`.
#[tactic(auto, unfolding(crate::specs::ChipText::pair_line))]
fn flag_line(out: &mut Vec<u8>, key: &str, flag: bool) -> Result<(), AllocError>
    ensures { IfOk result (λ _. out.new.items ≡ out.old.items ++ pair_line key.now (flag_text flag)) }
{
    out.extend_from_slice(key.as_bytes())?;
    out.extend_from_slice(b" = ")?;
    out.extend_from_slice(if flag {
        b"true".as_slice()
    } else {
        b"false".as_slice()
    })?;
    out.extend_from_slice(b"\n")
}

/// Appends the lines of the plain keys.
fn plain_lines(alloc: Global, out: &mut Vec<u8>, setup: &Setup) -> Result<(), AllocError>
    ensures { IfOk result (λ _. out.new.items ≡ out.old.items ++ concat (plain_lines (values_of setup.now))) }
{
    number_line(alloc, out, "clock", setup.clock)?;
    number_line(alloc, out, "imem", setup.imem)?;
    number_line(alloc, out, "dmem", setup.dmem)?;
    number_line(alloc, out, "prescaler", setup.prescaler as u32)?;
    number_line(alloc, out, "baud", setup.baud as u32)?;
    flag_line(out, "flash", setup.flash)
}

/// Appends the head of the table of delays.
#[tactic(auto, unfolding(crate::specs::ChipText::delay_header))]
fn header_line(out: &mut Vec<u8>) -> Result<(), AllocError>
    ensures { IfOk result (λ _. out.new.items ≡ out.old.items ++ delay_header) }
{
    out.extend_from_slice(b"[delay]\n")
}

/// Appends the line of a unit's delay.
fn delay_line(
    alloc: Global,
    out: &mut Vec<u8>,
    setup: &Setup,
    unit: ChipUnit,
) -> Result<(), AllocError>
    ensures { IfOk result (λ _. out.new.items ≡ out.old.items ++ delay_line unit (values_of setup.now)) }
{
    number_line(alloc, out, unit.name(), setup.delay[unit.place()])
}

/// Appends the head of the table of delays and its first four lines.
fn first_delays(alloc: Global, out: &mut Vec<u8>, setup: &Setup) -> Result<(), AllocError>
    ensures { IfOk result (λ _. out.new.items ≡ out.old.items ++ concat (first_delays (values_of setup.now))) }
{
    header_line(out)?;
    delay_line(alloc, out, setup, ChipUnit::Uart0)?;
    delay_line(alloc, out, setup, ChipUnit::Uart1)?;
    delay_line(alloc, out, setup, ChipUnit::Spi)?;
    delay_line(alloc, out, setup, ChipUnit::Gpio)
}

/// Appends the last three delays.
fn last_delays(alloc: Global, out: &mut Vec<u8>, setup: &Setup) -> Result<(), AllocError>
    ensures { IfOk result (λ _. out.new.items ≡ out.old.items ++ concat (last_delays (values_of setup.now))) }
{
    delay_line(alloc, out, setup, ChipUnit::Pwm)?;
    delay_line(alloc, out, setup, ChipUnit::Slink)?;
    delay_line(alloc, out, setup, ChipUnit::Wdt)
}

/// The text of a chip file.
fn printed(alloc: Global, setup: &Setup) -> Result<Vec<u8>, AllocError>
    ensures { IfOk result (λ v. v.items ≡ chip_text (values_of setup.now)) }
{
    let mut out = Vec::new(alloc);
    plain_lines(alloc, &mut out, setup)?;
    first_delays(alloc, &mut out, setup)?;
    last_delays(alloc, &mut out, setup)?;
    Ok(out)
}

/// Prints the settings of a chip as a chip file: the six plain keys, then those of the table `delay`, each in a line `key = value`.
/// The text is in UTF-8, and is read as the same settings. `NoMemory` comes only where an allocation fails.
pub fn print_chip(alloc: Global, setup: &Setup) -> Result<Vec<u8>, NoMemory>
    ensures text { IfOk result (λ v. v.items ≡ chip_text (values_of setup.now)) }
    ensures utf8 { IfOk result (λ v. IsUtf8 v.items) }
    ensures reads { IfOk result (λ v. chip_of v.items ≡ Some (Ok (values_of setup.now))) }
    ensures reads_back { IfOk result (λ v. (answer : Result Setup SetupFault) → IsChipAnswer v.items answer → IsSettingsOrMemory (values_of setup.now) answer) }
{
    match printed(alloc, setup) {
        Ok(out) => Ok(out),
        Err(_) => Err(NoMemory),
    }
}

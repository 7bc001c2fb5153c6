//! Reading a script.
ghost use Rattle.std.specs.Prelude.{◌≡◌, ◌<◌, ◌≤◌, ◌^◌, ◌⊎◌, length, Ok, Err, IfErr, IfOk, true};
ghost use Rattle.std.specs.List.{list_all};
ghost use Rattle.chip_base.specs.Steps.{are_pins, is_step};
ghost use Rattle.script_text.specs.ScriptFile.{added, script_of, with_line};
ghost use Rattle.script_text.specs.ScriptRead.{IsFound, IsScriptAnswer, may_follow, script_found};

use crate::script_fault::{ScriptFault, ScriptKind};
use crate::script_item::{Found, Item};
use crate::script_line::read_line;
use chip_base::{PinStep, Pins, Script, Steps0, UartStep};
use std::alloc::Global;
use text_fields::lines::cut_line;

/// Adds one item to what was found.
#[tactic(auto, using(crate::proofs::Valid::pins_more, crate::proofs::Valid::steps_more, crate::proofs::Valid::last_more))]
fn add_item(found: &mut Found, item: Item) -> Result<(), ScriptKind>
    requires found { IsFound found.old }
    requires follows { may_follow found.old.last item ≡ true }
    ensures added { IfOk result (λ _. script_found found.new ≡ added (script_found found.old) item) }
    ensures valid { IfOk result (λ _. IsFound found.new) }
    ensures memory { IfErr result (λ k. k ≡ ScriptKind.Memory) }
{
    match item {
        Item::Nothing => Ok(()),
        Item::Pin(pin) => {
            found.last = pin.cycle as u32;
            match found.pins.push(pin) {
                Ok(()) => Ok(()),
                Err(_) => Err(ScriptKind::Memory),
            }
        }
        Item::Uart0(step) => match found.uart0.push(step) {
            Ok(()) => Ok(()),
            Err(_) => Err(ScriptKind::Memory),
        },
        Item::Uart1(step) => match found.uart1.push(step) {
            Ok(()) => Ok(()),
            Err(_) => Err(ScriptKind::Memory),
        },
    }
}

/// Adds one line to what was found.
fn add_line(alloc: Global, found: &mut Found, text: &[u8]) -> Result<(), ScriptKind>
    requires { IsFound found.old }
    ensures ok { IfOk result (λ _. with_line (script_found found.old) text.now ≡ Ok (script_found found.new)) }
    ensures valid { IfOk result (λ _. IsFound found.new) }
    ensures err { IfErr result (λ k. (k ≡ ScriptKind.Memory) ⊎ (with_line (script_found found.old) text.now ≡ Err k)) }
    ensures some { IfErr result (λ k. 0 < length text.now) }
{
    if text.is_empty() {
        return Ok(());
    }
    match read_line(alloc, found.last, text) {
        Ok(item) => add_item(found, item),
        Err(kind) => Err(kind),
    }
}

/// All that the lines of a text mean.
#[tactic(auto, using(crate::proofs::ReadSteps::read_step, crate::proofs::ReadSteps::read_end))]
fn read_found(alloc: Global, text: &[u8]) -> Result<Found, ScriptFault>
    requires { length text.now < 2 ^ 32 }
    ensures ok { IfOk result (λ f. script_of text.now ≡ Ok (script_found f)) }
    ensures valid { IfOk result (λ f. IsFound f) }
    ensures err { IfErr result (λ e. (e.kind ≡ ScriptKind.Memory) ⊎ (script_of text.now ≡ Err e)) }
{
    let mut found = Found {
        pins: Vec::new(alloc),
        uart0: Vec::new(alloc),
        uart1: Vec::new(alloc),
        last: 0,
    };
    let mut line: u64 = 1;
    let mut rest = Some(text);
    while let Some(left) = rest {
        let (this, more) = cut_line(left);
        match add_line(alloc, &mut found, this) {
            Ok(()) => {}
            Err(kind) => return Err(ScriptFault {
                line: line as u32,
                kind,
            }),
        }
        rest = more;
        line += 1;
    }
    Ok(found)
}

/// Pin changes in their order.
fn pins_of(pins: Vec<PinStep>) -> Pins
    requires { are_pins pins.items ≡ true }
    ensures { result ≡ pins.items }
{
    match Pins::from_vec(pins) {
        Some(pins) => pins,
        None => unreachable!(),
    }
}

/// Steps whose texts and cycles are in their ranges.
fn steps_of(steps: Vec<UartStep>) -> Steps0
    requires { list_all is_step steps.items ≡ true }
    ensures { result ≡ steps.items }
{
    match Steps0::from_vec(steps) {
        Some(steps) => steps,
        None => unreachable!(),
    }
}

/// Reads a script of fewer than 2^32 bytes. Its lines are `pin CYCLE NUMBER LEVEL`, and for `uart0` and `uart1` the steps `at CYCLE`,
/// `expect TEXT`, `send TEXT`, `hex DIGITS` and `image`; lines without a field, and those whose first field begins with `#`, mean
/// nothing. The answer for a faulty text is its first faulty line, counted from 1, with its first fault from the left, or `Memory`
/// where an allocation fails.
pub fn read_script(alloc: Global, text: &[u8]) -> Result<Script, ScriptFault>
    requires { length text.now < 2 ^ 32 }
    ensures { IsScriptAnswer (script_of text.now) result }
{
    match read_found(alloc, text) {
        Ok(found) => Ok(Script {
            pins: pins_of(found.pins),
            uart0: steps_of(found.uart0),
            uart1: steps_of(found.uart1),
        }),
        Err(fault) => Err(fault),
    }
}

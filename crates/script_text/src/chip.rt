//! The chip file.
ghost use Rattle.std.specs.Prelude.{◌≡◌, ◌≤◌, ◌<◌, IfOk, IfErr, IfSome, Ok, Err, true};
ghost use Rattle.script_text.specs.Faults.{key_name};
ghost use Rattle.toml.specs.View.{table_view, view};
ghost use Rattle.chip_base.specs.Settings.{Values, standard, values_of};
ghost use Rattle.script_text.specs.ChipRead.{IsChipAnswer, NamesFault, fault_view, read_view};
ghost use Rattle.script_text.specs.ChipFile.{at_key, boolean_in, delay_place, integer_in, is_in, read_at, read_delay, read_delays, read_key, read_keys, read_plain, with_value};

use chip_base::{Bytes, ChipUnit, Setup};
use std::alloc::{AllocError, Global};
use toml::{Table, Value};

/// What is wrong at a key.
#[derive(Clone, Copy, Debug, Drop, PartialEq)]
pub enum KeyFault {
    /// It is unknown, or its value is of another kind.
    Key,
    /// Its value is outside its range.
    Range,
}

/// An integer from `least` to `most` that is a multiple of `step`.
fn integer_at(value: &Value, least: u32, most: u32, step: u32) -> Result<u32, KeyFault>
    requires { 0 < step }
    ensures value { result ≡ integer_in least most step (view value.now) }
    ensures range { IfOk result (λ n. is_in least most step n ≡ true) }
{
    let number = match value.as_integer() {
        Some(number) => number,
        None => return Err(KeyFault::Key),
    };
    if number < 0 {
        return Err(KeyFault::Range);
    }
    let number = number as u64;
    if number < least as u64 || number > most as u64 || number % step as u64 != 0 {
        return Err(KeyFault::Range);
    }
    Ok(number as u32)
}

/// A boolean.
fn boolean_at(value: &Value) -> Result<bool, KeyFault>
    ensures { result ≡ boolean_in (view value.now) }
{
    match value.as_bool() {
        Some(b) => Ok(b),
        None => Err(KeyFault::Key),
    }
}

/// The setup with one key of the top table read, which isn't `delay`.
fn with_key(mut setup: Setup, key: &str, value: &Value) -> Result<Setup, KeyFault>
    ensures { with_value values_of result ≡ read_plain key.now (view value.now) (values_of setup) }
{
    match key {
        "clock" => {
            setup.clock = integer_at(value, 1, 4_294_967_295, 1)?;
            Ok(setup)
        }
        "imem" => {
            setup.imem = integer_at(value, 4096, 1_048_576, 4096)?;
            Ok(setup)
        }
        "dmem" => {
            setup.dmem = integer_at(value, 4096, 1_048_576, 4096)?;
            Ok(setup)
        }
        "prescaler" => {
            setup.prescaler = integer_at(value, 0, 7, 1)? as u8;
            Ok(setup)
        }
        "baud" => {
            setup.baud = integer_at(value, 0, 1023, 1)? as u16;
            Ok(setup)
        }
        "flash" => {
            setup.flash = boolean_at(value)?;
            Ok(setup)
        }
        _ => Err(KeyFault::Key),
    }
}

/// Where a unit's delay stands.
fn place_of(key: &str) -> Option<usize>
    ensures value { result ≡ delay_place key.now }
    ensures bound { IfSome result (λ p. p < 7) }
{
    match ChipUnit::named(key) {
        Some(unit) => Some(unit.place()),
        None => None,
    }
}

/// The setup with one key of the table of delays read.
fn with_delay_key(mut setup: Setup, key: &str, value: &Value) -> Result<Setup, KeyFault>
    ensures { with_value values_of result ≡ read_delay key.now (view value.now) (values_of setup) }
{
    let Some(place) = place_of(key) else {
        return Err(KeyFault::Key);
    };
    match integer_at(value, 1, 4096, 1) {
        Ok(cycles) => {
            setup.delay[place] = cycles;
            Ok(setup)
        }
        Err(fault) => Err(fault),
    }
}

/// A fault at a key, which may be one of the table of delays.
#[derive(Clone, Copy, Drop)]
pub(crate) struct KeyAt<'a> {
    pub kind: KeyFault,
    pub in_delay: bool,
    pub key: &'a str,
}

/// The fault of a key, with this key.
fn at_key<'a>(
    in_delay: bool,
    key: &'a str,
    read: Result<Setup, KeyFault>,
) -> Result<Setup, KeyAt<'a>>
    ensures { read_view result ≡ at_key in_delay key.entry.now (with_value values_of read) }
{
    match read {
        Ok(setup) => Ok(setup),
        Err(kind) => Err(KeyAt {
            kind,
            in_delay,
            key,
        }),
    }
}

/// The setup with the table of delays read.
fn with_delays<'a>(mut setup: Setup, table: &'a Table) -> Result<Setup, KeyAt<'a>>
    ensures { read_view result ≡ read_delays (table_view table.entry.now) (values_of setup) }
{
    for (key, value) in table.iter() {
        let read = with_delay_key(setup, key.as_str(), value);
        match at_key(true, key.as_str(), read) {
            Ok(next) => setup = next,
            Err(fault) => return Err(fault),
        }
    }
    Ok(setup)
}

/// The setup with one key of the top table read.
fn with_table_key<'a>(setup: Setup, key: &'a str, value: &'a Value) -> Result<Setup, KeyAt<'a>>
    ensures { read_view result ≡ read_key key.entry.now (view value.entry.now) (values_of setup) }
{
    if key == "delay" {
        return match value {
            Value::Table(table) => with_delays(setup, table),
            _ => Err(KeyAt {
                kind: KeyFault::Key,
                in_delay: false,
                key,
            }),
        };
    }
    let read = with_key(setup, key, value);
    at_key(false, key, read)
}

/// The setup that a table means.
fn setup_of<'a>(table: &'a Table) -> Result<Setup, KeyAt<'a>>
    ensures { read_view result ≡ read_keys (table_view table.entry.now) standard }
{
    let mut setup = Setup::standard();
    for (key, value) in table.iter() {
        match with_table_key(setup, key.as_str(), value) {
            Ok(next) => setup = next,
            Err(fault) => return Err(fault),
        }
    }
    Ok(setup)
}

/// Why a chip file is refused. The name of a key of the table of delays begins with `delay.`.
#[derive(Drop)]
pub enum SetupFault {
    /// It is no TOML document in UTF-8.
    Toml,
    /// This key is unknown, or its value is of another kind.
    Key { name: Bytes },
    /// The value of this key is outside its range.
    Range { name: Bytes },
    /// An allocation failed.
    Memory,
}

/// The name of a key.
fn name_at(alloc: Global, in_delay: bool, key: &str) -> Result<Bytes, AllocError>
    ensures { IfOk result (λ b. b ≡ key_name in_delay key.now) }
{
    let mut name = Vec::new(alloc);
    if in_delay {
        name.extend_from_slice(b"delay.")?;
    }
    name.extend_from_slice(key.as_bytes())?;
    Ok(Bytes::from_vec(name))
}

/// The fault with its name.
fn named(alloc: Global, fault: KeyAt<'_>) -> SetupFault
    ensures { NamesFault (fault_view fault.entry) result }
{
    match name_at(alloc, fault.in_delay, fault.key) {
        Ok(name) => match fault.kind {
            KeyFault::Key => SetupFault::Key { name },
            KeyFault::Range => SetupFault::Range { name },
        },
        Err(_) => SetupFault::Memory,
    }
}

/// Reads a chip file, where each key may be missing: `clock` in hertz from 1 to 4,294,967,295, `imem` and `dmem` in bytes, multiples
/// of 4,096 from 4,096 to 1,048,576, `prescaler` from 0 to 7, `baud` from 0 to 1,023, `flash`, a boolean, and the table `delay` with
/// the cycles, 1 to 4,096, of the links of `uart0`, `uart1`, `spi`, `gpio`, `pwm`, `slink` and `wdt`. Keys are looked at in the order
/// of their bytes, those of `delay` in its place, and the first fault is the answer.
pub fn read_chip(alloc: Global, bytes: &[u8]) -> Result<Setup, SetupFault>
    ensures { IsChipAnswer bytes.now result }
{
    let Ok(text) = std::str::from_utf8(bytes) else {
        return Err(SetupFault::Toml);
    };
    let table = match toml::table_from_str(alloc, text) {
        Ok(table) => table,
        Err(error) => {
            if error.is_memory() {
                return Err(SetupFault::Memory);
            }
            return Err(SetupFault::Toml);
        }
    };
    match setup_of(&table) {
        Ok(setup) => Ok(setup),
        Err(fault) => Err(named(alloc, fault)),
    }
}

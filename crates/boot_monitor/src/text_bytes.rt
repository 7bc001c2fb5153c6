//! The bytes of the texts that the monitor prints.
ghost use Rattle.std.specs.Prelude.{◌≡◌, ◌<◌, slice_get};
ghost use Rattle.boot_monitor.specs.Actions.{digit, digits};
ghost use Rattle.boot_monitor.specs.Phases.{name_of, text_of};

use crate::phases::{Setting, Text};

/// A hexadecimal digit.
fn digit(n: u32) -> u8
    requires { n < 16 }
    ensures { result ≡ digit n }
{
    if n < 10 { 48 + n as u8 } else { 87 + n as u8 }
}

/// The eight hexadecimal digits of a word, the highest first.
fn digits(word: u32) -> [u8; 8]
    ensures { result ≡ digits 8 word }
{
    [
        digit(word >> 28 & 15),
        digit(word >> 24 & 15),
        digit(word >> 20 & 15),
        digit(word >> 16 & 15),
        digit(word >> 12 & 15),
        digit(word >> 8 & 15),
        digit(word >> 4 & 15),
        digit(word & 15),
    ]
}

/// What stands before a setting.
fn name(setting: Setting) -> &'static [u8]
    ensures { result.now ≡ name_of setting }
{
    match setting {
        Setting::Imem => b"IMEM ",
        Setting::Dmem => b" DMEM ",
        Setting::Clock => b" CLK ",
    }
}

/// The byte at a place, from 0.
pub(crate) fn at(text: &[u8], place: u32) -> Option<u8>
    ensures { result ≡ slice_get text.now place }
{
    text.get(place as usize).copied()
}

/// The byte at a place of a text, from 0; None from the text's end on.
pub(crate) fn byte_at(text: Text, place: u32) -> Option<u8>
    ensures { result ≡ slice_get (text_of text) place }
{
    match text {
        Text::Greeting => at(b"N1\r\n> ", place),
        Text::Help => at(
            b"h help\r\ni information\r\nr restart\r\nu upload\r\ns store\r\nl load\r\ne execute\r\n> ",
            place,
        ),
        Text::Name(setting) => at(name(setting), place),
        Text::Digits(_, word) => at(&digits(word), place),
        Text::InformationEnd => at(b"\r\n> ", place),
        Text::Up => at(b"UP\r\n", place),
        Text::Done => at(b"OK\r\n> ", place),
        Text::NoneHeld => at(b"ERR none\r\n> ", place),
        Text::UnknownCommand => at(b"ERR command\r\n> ", place),
        Text::BadSignature => at(b"ERR signature\r\n> ", place),
        Text::BadSize => at(b"ERR size\r\n> ", place),
        Text::BadChecksum => at(b"ERR checksum\r\n> ", place),
        Text::BadFlash => at(b"ERR flash\r\n> ", place),
        Text::Go => at(b"GO\r\n", place),
    }
}

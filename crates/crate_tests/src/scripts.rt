//! Chip files and scripts, as users write them.

use chip_base::Setup;
use script_text::{
    ScriptFault, ScriptKind, SetupFault, print_chip, print_script, read_chip, read_script,
};
use std::alloc::Global;

/// Whether a script is refused at this line with this kind.
fn is_refused(alloc: Global, text: &[u8], line: u32, kind: ScriptKind) -> bool {
    if text.len() > 1_048_576 {
        return false;
    }
    match read_script(alloc, text) {
        Ok(_) => false,
        Err(fault) => fault == ScriptFault { line, kind },
    }
}

/// One fault of each kind, in the first faulty line and in a line's first faulty field.
#[test]
fn refuses_scripts(rt: HostRuntime) {
    let faulty: &[(&[u8], u32, ScriptKind)] = &[
        (b"pin 4 0 1\npin 5 32 1\n", 2, ScriptKind::Pin),
        (b"# pins\r\n\r\nuart2 image\n", 3, ScriptKind::Word),
        (b"pin 5 1 1\nuart0 wait\npin x\n", 2, ScriptKind::Word),
        (b"pin 5 x 9", 1, ScriptKind::Number),
        (b"pin 5 1 1\n\npin 4 40 1\nuart0\n", 3, ScriptKind::Order),
        (b"uart0 hex 41f", 1, ScriptKind::Hex),
        (b"uart0 expect \"\" x", 1, ScriptKind::Text),
    ];
    for &(text, line, kind) in faulty {
        assert!(&rt; is_refused(rt.alloc(), text, line, kind));
    }
}

/// Whether a script is printed as this text, and this text as itself.
fn is_printed(alloc: Global, text: &[u8], printed: &[u8]) -> bool {
    if text.len() > 1_048_576 {
        return false;
    }
    match read_script(alloc, text) {
        Ok(script) => match print_script(alloc, &script) {
            Ok(out) => out.as_slice() == printed,
            Err(_) => false,
        },
        Err(_) => false,
    }
}

#[test]
fn prints_scripts(rt: HostRuntime) {
    let scripts: &[(&[u8], &[u8])] = &[
        (
            b"#\r\n\tuart1 image\npin 7 3 0\r\nuart0 expect \"> \"\nuart0 send \"\"\nuart0 at 10\n",
            b"pin 7 3 0\nuart0 expect \"> \"\nuart0 send \"\"\nuart0 at 10\nuart1 image\n",
        ),
        (
            b"pin 0 31 01\nuart0 send \"A\\r\"\nuart1 expect \"a\\\"\\\\\\n~\"",
            b"pin 0 31 1\nuart0 hex 410d\nuart1 expect \"a\\x22\\x5c\\x0a~\"\n",
        ),
    ];
    for &(text, printed) in scripts {
        assert!(&rt; is_printed(rt.alloc(), text, printed));
        assert!(&rt; is_printed(rt.alloc(), printed, printed));
    }
}

/// What is expected of a faulty chip file.
#[derive(Clone, Copy)]
enum Fault {
    Toml,
    Key,
    Range,
}

/// Whether a chip file has this fault at the key of this name.
fn is_faulty(alloc: Global, text: &[u8], fault: Fault, key: &[u8]) -> bool {
    match (read_chip(alloc, text), fault) {
        (Err(SetupFault::Toml), Fault::Toml) => true,
        (Err(SetupFault::Key { name }), Fault::Key) => name.as_slice() == key,
        (Err(SetupFault::Range { name }), Fault::Range) => name.as_slice() == key,
        _ => false,
    }
}

#[test]
fn refuses_chip_files(rt: HostRuntime) {
    let faulty: &[(&[u8], Fault, &[u8])] = &[
        (b"[delay]\nuart0 = 4097\n", Fault::Range, b"delay.uart0"),
        (b"[delay]\nhub = 3\n", Fault::Key, b"delay.hub"),
        (
            b"imem = 5000\nflash = 1\nbaud = 1024\n",
            Fault::Range,
            b"baud",
        ),
        (b"clock = \"1\"", Fault::Key, b"clock"),
        (b"baud = 1\nbaud = 2\n", Fault::Toml, b""),
        (b"# \xff\n", Fault::Toml, b""),
    ];
    for &(text, fault, key) in faulty {
        assert!(&rt; is_faulty(rt.alloc(), text, fault, key));
    }
}

const STANDARD: &[u8] = b"clock = 64000000
imem = 65536
dmem = 65536
prescaler = 0
baud = 277
flash = true
[delay]
uart0 = 32
uart1 = 32
spi = 8
gpio = 8
pwm = 32
slink = 8
wdt = 64
";

/// Whether the chip file of these settings is this text, and is read as the same settings.
fn is_chip_file(alloc: Global, setup: &Setup, text: &[u8]) -> bool {
    let same_text = match print_chip(alloc, setup) {
        Ok(out) => out.as_slice() == text,
        Err(_) => false,
    };
    let same_setup = match read_chip(alloc, text) {
        Ok(read) => read == *setup,
        Err(_) => false,
    };
    same_text && same_setup
}

#[test]
fn prints_chip_files(rt: HostRuntime) {
    assert!(&rt; is_chip_file(rt.alloc(), &Setup::standard(), STANDARD));
    match read_chip(
        rt.alloc(),
        b"delay.wdt = 4096\nimem = 1_048_576\nflash = false\nbaud = 0\n",
    ) {
        Ok(setup) => {
            assert!(&rt; setup.imem == 1_048_576 && setup.dmem == 65_536 && setup.baud == 0);
            assert!(&rt; !setup.flash && setup.delay == [32, 32, 8, 8, 32, 8, 4096]);
        }
        Err(_) => assert!(&rt; false),
    }
}

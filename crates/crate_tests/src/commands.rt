//! Command files, as users write them.

use command_text::{Command, CommandFault, read_commands};
use std::alloc::Global;

/// Whether a text has these commands.
fn has_commands(alloc: Global, text: &[u8], expected: &[Command]) -> bool {
    if text.len() > 1_048_576 {
        return false;
    }
    match read_commands(alloc, text) {
        Ok(commands) => commands.as_slice() == expected,
        Err(_) => false,
    }
}

/// Whether a text is refused at this line.
fn is_refused(alloc: Global, text: &[u8], line: u32) -> bool {
    if text.len() > 1_048_576 {
        return false;
    }
    match read_commands(alloc, text) {
        Ok(_) => false,
        Err(fault) => fault == CommandFault::Line { line },
    }
}

#[test]
fn reads_each_command(rt: HostRuntime) {
    for &(text, command) in &[
        (
            b"break 1 80000000".as_slice(),
            Command::Break {
                hart: 1,
                at: 0x8000_0000,
            },
        ),
        (
            b"break 00 ffFFfffe",
            Command::Break {
                hart: 0,
                at: 0xffff_fffe,
            },
        ),
        (b"watch 0000100c", Command::Watch { at: 0x100c }),
        (b"step 0", Command::Step { cycles: 0 }),
        (
            b"step 4294967295",
            Command::Step {
                cycles: 4_294_967_295,
            },
        ),
        (b"cont", Command::Cont),
        (b"regs 1", Command::Regs { hart: 1 }),
        (
            b"csr 0 fff",
            Command::Csr {
                hart: 0,
                addr: 0xfff,
            },
        ),
        (b"mem 4 1", Command::Mem { at: 4, count: 1 }),
        (
            b"mem fffffffc 0000000064",
            Command::Mem {
                at: 0xffff_fffc,
                count: 64,
            },
        ),
    ] {
        assert!(&rt; has_commands(rt.alloc(), text, &[command]));
    }
}

#[test]
fn reads_lines(rt: HostRuntime) {
    let expected = [
        Command::Cont,
        Command::Watch { at: 8 },
        Command::Step { cycles: 5 },
    ];
    for &text in &[
        b"cont\nwatch 8\nstep 5\n".as_slice(),
        b"cont\r\nwatch 8\r\nstep 5",
        b"\t# breaks\n\n \t cont \t\n#watch 4\nwatch\t 8\r\n \r\nstep 5\n# step 6",
    ] {
        assert!(&rt; has_commands(rt.alloc(), text, &expected));
    }
    assert!(&rt; has_commands(rt.alloc(), b"", &[]));
    assert!(&rt; has_commands(rt.alloc(), b"#", &[]));
}

#[test]
fn refuses_each_faulty_line(rt: HostRuntime) {
    for &text in &[
        b"go".as_slice(),
        b"Cont",
        b"break",
        b"break 1",
        b"break 1 4 5",
        b"break 2 4",
        b"break 0 g",
        b"break 0 0x4",
        b"break 0 000000004",
        b"watch",
        b"watch 4 # word",
        b"watch 101",
        b"watch 000000004",
        b"step",
        b"step 4294967296",
        b"step 00000000001",
        b"step a",
        b"step 1 2",
        b"cont 1",
        b"cont\r",
        b"regs",
        b"regs 2",
        b"regs 0 1",
        b"csr 0",
        b"csr 2 300",
        b"csr 0 g",
        b"csr 0 1000",
        b"csr 0 300 1",
        b"mem 4",
        b"mem 2 1",
        b"mem 4 0",
        b"mem 4 65",
        b"mem 4 a",
        b"mem 4 1 1",
        b"mem 000000004 1",
    ] {
        assert!(&rt; is_refused(rt.alloc(), text, 1));
    }
}

#[test]
fn refuses_the_first_faulty_line(rt: HostRuntime) {
    for &(text, line) in &[
        (b"cont\n# next\r\n\nregs 2\ncsr\n".as_slice(), 4),
        (b"mem 4 65\nmem 4 0", 1),
        (b"step 1\nstep -1", 2),
    ] {
        assert!(&rt; is_refused(rt.alloc(), text, line));
    }
}

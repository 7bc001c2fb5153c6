//! Sessions of the debugger: programs, command files, and the texts that they give.

use crate::given::{answers, shelf_of};
use crate::programs::{COPY_TWO, LIGHT, PARCELS};
use crate::tests::bytes_of;
use std::alloc::{AllocError, Global};
use std::thread::Threads;

/// lui x1, 0x80000; addi x2, x0, 0x55; sb x2, 1(x1); sh x2, 6(x1); sw x2, 8(x1); jal x0, 0
const STORE_NARROW: &[u32] = &[
    0x8000_00b7,
    0x0550_0113,
    0x0020_80a3,
    0x0020_9323,
    0x0020_a423,
    0x0000_006f,
];

/// addi x3, x0, -4; sb x0, 3(x3), which is refused and traps to address 0; jal x0, 0
const STORE_ABOVE: &[u32] = &[0xffc0_0193, 0x0001_81a3, 0x0000_006f];

/// addi x3, x0, -4; sw x0, 2(x3), whose bytes wrap, and which is refused and traps to address 0; jal x0, 0
const STORE_WRAPPING: &[u32] = &[0xffc0_0193, 0x0001_a123, 0x0000_006f];

/// Core 0 starts core 1 at 40, which jumps to itself, and goes on: lw x5, 0(x0); nop; nop; jal x0, 0
pub const JUMP_TOGETHER: &[u32] = &[
    0xfffe_00b7,
    0x0400_0113,
    0x1020_a023,
    0xfff4_01b7,
    0x0010_0213,
    0x0041_a223,
    0x0000_2283,
    0x0000_0013,
    0x0000_0013,
    0x0000_006f,
    0,
    0,
    0,
    0,
    0,
    0,
    0x0000_006f,
];

/// Core 0 starts core 1 at 40, which jumps to itself, and goes on: nop; sw x0, 0(x1); jal x0, 0
const STORE_TOGETHER: &[u32] = &[
    0xfffe_00b7,
    0x0400_0113,
    0x1020_a023,
    0xfff4_01b7,
    0x0010_0213,
    0x0041_a223,
    0x0000_0013,
    0x0000_a023,
    0x0000_006f,
    0,
    0,
    0,
    0,
    0,
    0,
    0,
    0x0000_006f,
];

const LIGHT_COMMANDS: &str = "break 0 c
cont
regs 0
watch fffc0004
cont
cont
mem 0 1
csr 0 7c0
";

const LIGHT_TEXT: &str = "stop 7 break 0 0000000c
hart 0 ready pc 0000000c retired 3
x1 fffc0000
x2 00000001
stop 8 watch fffc0004
stop 100 bound
word 00000000 fffc00b7
csr 0 7c0 none
end
";

/// Breaks at compressed instructions, and at the second parcel of a word.
const PARCEL_COMMANDS: &str = "break 0 2
cont
break 0 4
cont
break 0 a
cont
regs 0
csr 0 b02
";

const PARCEL_TEXT: &str = "stop 2 break 0 00000002
stop 4 break 0 00000004
stop 8 break 0 0000000a
hart 0 ready pc 0000000a retired 4
x10 ffffffff
x12 00000005
csr 0 b02 00000004
end
";

/// At cycle count 27 and each sixth one after it both harts are at a jump; from 33 on both have a break there.
const TOGETHER_COMMANDS: &str = "regs 1
break 1 40
cont
cont
cont
break 0 24
cont
cont
regs 1
csr 1 f14
";

const TOGETHER_TEXT: &str = "hart 1 parked
stop 15 break 1 00000040
stop 21 break 1 00000040
stop 27 break 1 00000040
stop 33 break 0 00000024
stop 39 break 0 00000024
hart 1 ready pc 00000040 retired 4
csr 1 f14 00000001
end
";

/// The watch of core 0's store, which holds at cycle count 21.
const STORED_COMMANDS: &str = "watch fffe0000
cont
";

const STORED_TEXT: &str = "stop 21 watch fffe0000
end
";

/// At cycle count 21 hart 1 is at a break too, which goes first.
const BOTH_HOLD_COMMANDS: &str = "watch fffe0000
break 1 40
cont
cont
cont
";

const BOTH_HOLD_TEXT: &str = "stop 15 break 1 00000040
stop 21 break 1 00000040
stop 27 break 1 00000040
end
";

/// Watches that a byte, a half word and a word meet.
const NARROW_COMMANDS: &str = "watch 80000008
watch 80000004
watch 80000000
cont
mem 80000000 3
cont
cont
mem 80000000 3
cont
";

const NARROW_TEXT: &str = "stop 5 watch 80000000
word 80000000 00005500
word 80000004 00000000
word 80000008 00000000
stop 10 watch 80000004
stop 15 watch 80000008
word 80000000 00005500
word 80000004 00550000
word 80000008 00000055
stop 100 bound
end
";

/// A watch that the DMA meets.
const COPY_COMMANDS: &str = "watch 80000004
cont
mem 80000000 2
watch 80000000
cont
";

const COPY_TEXT: &str = "stop 28 watch 80000004
word 80000000 ffed00b7
word 80000004 0000a223
stop 60 bound
end
";

/// A watch at the top of the address space, which a refused store meets; addresses of words wrap.
const ABOVE_COMMANDS: &str = "watch 0
watch fffffffc
cont
csr 0 342
mem fffffff8 3
break 0 0
cont
";

const ABOVE_TEXT: &str = "stop 3 watch fffffffc
csr 0 342 00000007
word fffffff8 none
word fffffffc none
word 00000000 ffc00193
stop 8 break 0 00000000
end
";

/// The last two bytes of a refused store lie in the first word; it meets neither the word after that nor the one below its first bytes.
const WRAPPED_COMMANDS: &str = "watch fffffff8
watch 4
watch 0
cont
csr 0 342
csr 0 343
";

const WRAPPED_TEXT: &str = "stop 3 watch 00000000
csr 0 342 00000006
csr 0 343 fffffffe
end
";

/// The first two bytes of the same store lie in the last word.
const WRAPPING_COMMANDS: &str = "watch fffffff8
watch 4
watch fffffffc
cont
";

const WRAPPING_TEXT: &str = "stop 3 watch fffffffc
end
";

/// No run goes past the bound.
const BOUND_COMMANDS: &str = "step 7
step 0
break 0 c
cont
step 4294967295
cont
step 1
";

const BOUND_TEXT: &str = "at 7
at 7
stop 100 bound
at 100
stop 100 bound
at 100
end
";

/// Whether a session over these bytes of a program and these commands answers with this status and text.
fn debugs_bytes<'a, R: Threads + Sync>(
    rt: &R,
    alloc: Global,
    words: &str,
    program: &'a [u8],
    commands: &'a str,
    status: u8,
    text: &str,
) -> Result<bool, AllocError> {
    let files = [("prog.bin", program), ("d.txt", commands.as_bytes())];
    let mut shelf = shelf_of(alloc, &files, 0, 0)?;
    answers(rt, alloc, words, &mut shelf, 0, status, text)
}

/// Whether a session over this program and these commands answers with this status and text.
fn debugs<R: Threads + Sync>(
    rt: &R,
    alloc: Global,
    words: &str,
    program: &[u32],
    commands: &str,
    status: u8,
    text: &str,
) -> Result<bool, AllocError> {
    let program = bytes_of(alloc, program)?;
    debugs_bytes(rt, alloc, words, &program, commands, status, text)
}

/// Words, a program, the commands and the text.
const SESSIONS: &[(&str, &[u32], &str, &str)] = &[
    (
        "debug prog.bin 100 d.txt --boot raw --groups each",
        LIGHT,
        LIGHT_COMMANDS,
        LIGHT_TEXT,
    ),
    (
        "debug prog.bin 100 d.txt --boot raw --groups all",
        LIGHT,
        LIGHT_COMMANDS,
        LIGHT_TEXT,
    ),
    (
        "debug prog.bin 20 d.txt --boot raw",
        PARCELS,
        PARCEL_COMMANDS,
        PARCEL_TEXT,
    ),
    (
        "debug prog.bin 60 d.txt --boot raw",
        JUMP_TOGETHER,
        TOGETHER_COMMANDS,
        TOGETHER_TEXT,
    ),
    (
        "debug prog.bin 40 d.txt --boot raw",
        STORE_TOGETHER,
        STORED_COMMANDS,
        STORED_TEXT,
    ),
    (
        "debug prog.bin 40 d.txt --boot raw",
        STORE_TOGETHER,
        BOTH_HOLD_COMMANDS,
        BOTH_HOLD_TEXT,
    ),
    (
        "debug prog.bin 100 d.txt --boot raw",
        STORE_NARROW,
        NARROW_COMMANDS,
        NARROW_TEXT,
    ),
    (
        "debug prog.bin 60 d.txt --boot raw",
        COPY_TWO,
        COPY_COMMANDS,
        COPY_TEXT,
    ),
    (
        "debug prog.bin 60 d.txt --boot raw",
        STORE_ABOVE,
        ABOVE_COMMANDS,
        ABOVE_TEXT,
    ),
    (
        "debug prog.bin 60 d.txt --boot raw",
        STORE_WRAPPING,
        WRAPPED_COMMANDS,
        WRAPPED_TEXT,
    ),
    (
        "debug prog.bin 60 d.txt --boot raw",
        STORE_WRAPPING,
        WRAPPING_COMMANDS,
        WRAPPING_TEXT,
    ),
    (
        "debug prog.bin 100 d.txt --boot raw",
        LIGHT,
        BOUND_COMMANDS,
        BOUND_TEXT,
    ),
    (
        "debug prog.bin 0 d.txt --boot raw",
        LIGHT,
        "cont",
        "stop 0 bound\nend\n",
    ),
    ("debug prog.bin 10 d.txt --boot raw", LIGHT, "", "end\n"),
];

#[test]
fn stops_and_tells(rt: HostRuntime) -> Result<(), AllocError> {
    for &(words, program, commands, text) in SESSIONS {
        assert!(&rt;
            debugs(&rt, rt.alloc(), words, program, commands, 0, text)?,
            "{words} {commands}"
        );
    }
    Ok(())
}

/// Commands that are refused, and the text.
const REFUSED: &[(&str, &str)] = &[
    ("cont\njump 4\n", "error debug line 2\n"),
    ("# watch 3\n\n watch 3", "error debug line 3\n"),
    ("csr 0 1000\nregs 2\n", "error debug line 1\n"),
    ("mem 0 65\n", "error debug line 1\n"),
];

/// The first faulty line of a command file.
#[test]
fn refuses_commands(rt: HostRuntime) -> Result<(), AllocError> {
    for &(commands, text) in REFUSED {
        assert!(&rt;
            debugs(
                &rt,
                rt.alloc(),
                "debug prog.bin 100 d.txt --boot raw",
                LIGHT,
                commands,
                10,
                text
            )?,
            "{commands}"
        );
    }
    Ok(())
}

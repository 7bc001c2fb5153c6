//! Small programs for the tests, and the reports that they give.

/// addi x1, x0, 5; lui x2, 0x80000; sw x1, 0(x2); jal x0, 0
pub const STORE_FIVE: &[u32] = &[0x0050_0093, 0x8000_0137, 0x0011_2023, 0x0000_006f];

pub const STORE_FIVE_RUN: &str = "cycles 100
boot raw
hart 0 run pc 0000000c retired 19
x1 00000005
x2 80000000
mem 00000000 9300500037010080232011006f000000
mem 80000000 05000000000000000000000000000000
end
";

pub const STORE_FIVE_START: &str = "cycles 0
boot raw
hart 0 ready pc 00000000 retired 0
mem 00000000 9300500037010080232011006f000000
end
";

/// ebreak
pub const EBREAK: &[u32] = &[0x0010_0073];

pub const EBREAK_START: &str = "cycles 0
boot raw
hart 0 ready pc 00000000 retired 0
mem 00000000 73001000000000000000000000000000
end
";

pub const EBREAK_TRAPS: &str = "cycles 1
boot raw
hart 0 run pc 00000000 retired 0
mem 00000000 73001000000000000000000000000000
end
";

/// No instruction: the first word is zero.
pub const EMPTY: &[u32] = &[];

pub const EMPTY_START: &str = "cycles 0
boot raw
hart 0 ready pc 00000000 retired 0
end
";

pub const EMPTY_TRAPS: &str = "cycles 12
boot raw
hart 0 ready pc 00000000 retired 0
end
";

/// UART0 is enabled and sends an A: lui x1, 0xfff50; addi x2, x0, 1; sw x2, 0(x1); addi x2, x0, 0x41; sw x2, 4(x1); jal x0, 0
pub const SEND_A: &[u32] = &[
    0xfff5_00b7,
    0x0010_0113,
    0x0020_a023,
    0x0410_0113,
    0x0020_a223,
    0x0000_006f,
];

pub const SEND_A_SENT: &str = "cycles 63
62 uart0 tx 41
boot raw
hart 0 run pc 00000014 retired 13
x1 fff50000
x2 00000041
mem 00000000 b700f5ff1301100023a0200013011004
mem 00000010 23a220006f0000000000000000000000
end
";

pub const SEND_A_SENDING: &str = "cycles 62
boot raw
hart 0 run pc 00000014 retired 13
x1 fff50000
x2 00000041
mem 00000000 b700f5ff1301100023a0200013011004
mem 00000010 23a220006f0000000000000000000000
end
";

/// The same with UART1: lui x1, 0xfff60 in place of the first word.
pub const SEND_BY_UART1: &[u32] = &[
    0xfff6_00b7,
    0x0010_0113,
    0x0020_a023,
    0x0410_0113,
    0x0020_a223,
    0x0000_006f,
];

pub const SENT_BY_UART1: &str = "cycles 63
62 uart1 tx 41
boot raw
hart 0 run pc 00000014 retired 13
x1 fff60000
x2 00000041
mem 00000000 b700f6ff1301100023a0200013011004
mem 00000010 23a220006f0000000000000000000000
end
";

/// Both UARTs are enabled, then each sends an A, UART0 in cycle 18 and UART1 in cycle 23: lui x1, 0xfff50; lui x2, 0xfff60;
/// addi x3, x0, 1; sw x3, 0(x1); sw x3, 0(x2); addi x3, x0, 0x41; sw x3, 4(x1); sw x3, 4(x2); jal x0, 0
pub const SEND_BY_BOTH: &[u32] = &[
    0xfff5_00b7,
    0xfff6_0137,
    0x0010_0193,
    0x0030_a023,
    0x0031_2023,
    0x0410_0193,
    0x0030_a223,
    0x0031_2223,
    0x0000_006f,
];

/// UART1's link is five cycles shorter, so both bytes are out in the same cycle.
pub const SENT_BY_BOTH: &str = "cycles 70
69 uart0 tx 41
69 uart1 tx 41
boot raw
hart 0 ready pc 00000020 retired 15
x1 fff50000
x2 fff60000
x3 00000041
mem 00000000 b700f5ff3701f6ff9301100023a03000
mem 00000010 232031009301100423a2300023223100
mem 00000020 6f000000000000000000000000000000
end
";

/// The DMA copies the first two words to 80000000, from cycle 24 on, one access a cycle. CTRL is loaded in cycle 28, and the copy is
/// done: lui x1, 0xffed0; sw x0, 4(x1); lui x2, 0x80000; sw x2, 8(x1); addi x3, x0, 2; sw x3, 12(x1); addi x3, x0, 1; sw x3, 0(x1);
/// lw x4, 0(x1); jal x0, -4
pub const COPY_TWO: &[u32] = &[
    0xffed_00b7,
    0x0000_a223,
    0x8000_0137,
    0x0020_a423,
    0x0020_0193,
    0x0030_a623,
    0x0010_0193,
    0x0030_a023,
    0x0000_a203,
    0xffdf_f06f,
];

pub const COPIED_TWO: &str = "cycles 30
boot raw
hart 0 run pc 00000024 retired 9
x1 ffed0000
x2 80000000
x3 00000001
x4 00000100
mem 00000000 b700edff23a200003701008023a42000
mem 00000010 9301200023a630009301100023a03000
mem 00000020 03a200006ff0dfff0000000000000000
mem 80000000 b700edff23a200000000000000000000
end
";

/// The DMA is to copy to 40000000, where nothing is: its first store is refused. Then CTRL and FAULT are loaded, the latter by
/// lw x5, 16(x1).
pub const COPY_NOWHERE: &[u32] = &[
    0xffed_00b7,
    0x0000_a223,
    0x4000_0137,
    0x0020_a423,
    0x0020_0193,
    0x0030_a623,
    0x0010_0193,
    0x0030_a023,
    0x0000_a203,
    0x0100_a283,
    0xff9f_f06f,
];

pub const COPIED_NOTHING: &str = "cycles 40
boot raw
hart 0 run pc 00000020 retired 11
x1 ffed0000
x2 40000000
x3 00000001
x4 00000200
x5 40000000
mem 00000000 b700edff23a200003701004023a42000
mem 00000010 9301200023a630009301100023a03000
mem 00000020 03a2000083a200016ff09fff00000000
end
";

/// The jump takes six cycles, and is begun in cycles 16, 22 and so on up to 4,996.
pub const SEND_A_LONG: &str = "cycles 5000
62 uart0 tx 41
boot raw
hart 0 run pc 00000014 retired 836
x1 fff50000
x2 00000041
mem 00000000 b700f5ff1301100023a0200013011004
mem 00000010 23a220006f0000000000000000000000
end
";

/// c.nop; c.li x10, -1; c.nop; addi x12, x10, 6, which crosses a word border; c.j 0
pub const PARCELS: &[u32] = &[0x557d_0001, 0x0613_0001, 0xa001_0065];

pub const PARCELS_RUN: &str = "cycles 20
boot raw
hart 0 ready pc 0000000a retired 6
x10 ffffffff
x12 00000005
mem 00000000 01007d5501001306650001a000000000
end
";

/// mtvec becomes 0x11, vectored: csrrwi x0, mtvec, 17. The zero parcel after it traps to the base, where jal x0, 0 stands.
pub const VECTORED: &[u32] = &[0x3058_d073, 0, 0, 0, 0x0000_006f];

pub const VECTORED_RUN: &str = "cycles 20
boot raw
hart 0 run pc 00000010 retired 3
mem 00000000 73d05830000000000000000000000000
mem 00000010 6f000000000000000000000000000000
end
";

/// Core 0 puts 0x40 into the mailbox, raises core 1's software interrupt and sleeps. Core 1 begins at 0x40, sets mtvec to 0x1c
/// and stores to an address where nothing is, which traps to the jump there.
pub const START_SECOND: &[u32] = &[
    0xfffe_00b7,
    0x0400_0113,
    0x1020_a023,
    0xfff4_01b7,
    0x0010_0213,
    0x0041_a223,
    0x1050_0073,
    0x0000_006f,
    0,
    0,
    0,
    0,
    0,
    0,
    0,
    0,
    0x305e_5073,
    0x4000_02b7,
    0x0052_a023,
];

pub const START_SECOND_RUN: &str = "cycles 30
boot raw
hart 0 sleep pc 0000001c retired 7
x1 fffe0000
x2 00000040
x3 fff40000
x4 00000001
hart 1 run pc 0000001c retired 3
x5 40000000
mem 00000000 b700feff1301000423a02010b701f4ff
mem 00000010 1302100023a24100730050106f000000
mem 00000040 73505e30b702004023a0520000000000
end
";

/// mtimecmp becomes 32, the timer interrupt is enabled in mie alone, and the core sleeps till it comes, without a trap.
pub const SLEEP_TO_32: &[u32] = &[
    0xfff4_40b7,
    0x0200_0113,
    0x0020_a023,
    0x0000_a223,
    0x0800_0193,
    0x3041_9073,
    0x1050_0073,
    0x0000_006f,
];

pub const SLEEP_TO_32_ASLEEP: &str = "cycles 31
boot raw
hart 0 sleep pc 0000001c retired 7
x1 fff44000
x2 00000020
x3 00000080
mem 00000000 b740f4ff1301000223a0200023a20000
mem 00000010 9301000873904130730050106f000000
end
";

pub const SLEEP_TO_32_AWAKE: &str = "cycles 40
boot raw
hart 0 run pc 0000001c retired 9
x1 fff44000
x2 00000020
x3 00000080
mem 00000000 b740f4ff1301000223a0200023a20000
mem 00000010 9301000873904130730050106f000000
end
";

/// Pin 0 goes up: lui x1, 0xfffc0; addi x2, x0, 1; csrr x0, mscratch; sw x2, 4(x1); jal x0, 0
pub const LIGHT: &[u32] = &[
    0xfffc_00b7,
    0x0010_0113,
    0x3400_2073,
    0x0020_a223,
    0x0000_006f,
];

pub const LIGHT_ON: &str = "cycles 16
15 gpio out 00000001
boot raw
hart 0 run pc 00000010 retired 5
x1 fffc0000
x2 00000001
mem 00000000 b700fcff130110007320003423a22000
mem 00000010 6f000000000000000000000000000000
end
";

pub const LIGHT_OFF: &str = "cycles 15
boot raw
hart 0 run pc 00000010 retired 5
x1 fffc0000
x2 00000001
mem 00000000 b700fcff130110007320003423a22000
mem 00000010 6f000000000000000000000000000000
end
";

/// UART0 is enabled, then pins and received bytes are gathered: lui x1, 0xfff50; addi x2, x0, 1; sw x2, 0(x1); lui x3, 0xfffc0;
/// lw x4, 0(x3); lw x5, 4(x1); or x6, x6, x5; jal x0, -12
pub const HEAR: &[u32] = &[
    0xfff5_00b7,
    0x0010_0113,
    0x0020_a023,
    0xfffc_01b7,
    0x0001_a203,
    0x0040_a283,
    0x0053_6333,
    0xff5f_f06f,
];

pub const HEAR_SCRIPT: &[u8] = b"pin 20 3 1\nuart0 at 100\nuart0 send \"A\"\n";

/// Pin 3 went up, and UART0 received an A.
pub const HEAR_HEARD: &str = "cycles 200
boot raw
hart 0 run pc 00000018 retired 46
x1 fff50000
x2 00000001
x3 fffc0000
x4 00000008
x6 00000041
mem 00000000 b700f5ff1301100023a02000b701fcff
mem 00000010 03a2010083a24000336353006ff05fff
end
";

/// With the standard 32 cycles of the link the byte isn't received yet.
pub const HEAR_STANDARD: &str = "cycles 150
boot raw
hart 0 run pc 00000010 retired 36
x1 fff50000
x2 00000001
x3 fffc0000
x4 00000008
mem 00000000 b700f5ff1301100023a02000b701fcff
mem 00000010 03a2010083a24000336353006ff05fff
end
";

/// With eight cycles it is.
pub const HEAR_QUICK: &str = "cycles 150
boot raw
hart 0 run pc 00000010 retired 36
x1 fff50000
x2 00000001
x3 fffc0000
x4 00000008
x5 00000041
x6 00000041
mem 00000000 b700f5ff1301100023a02000b701fcff
mem 00000010 03a2010083a24000336353006ff05fff
end
";

/// GPIO's PENDING is cleared in cycle 12, then PENDING and IN are loaded: lui x1, 0xfffc0; addi x2, x0, -1; four times addi x0, x0, 0;
/// sw x2, 12(x1); lw x3, 12(x1); lw x4, 0(x1); jal x0, 0
pub const CLEAR_PENDING: &[u32] = &[
    0xfffc_00b7,
    0xfff0_0113,
    0x0000_0013,
    0x0000_0013,
    0x0000_0013,
    0x0000_0013,
    0x0020_a623,
    0x00c0_a183,
    0x0000_a203,
    0x0000_006f,
];

/// Pin 3's rise reaches the front in cycle 12 and is cleared, pin 5's comes a cycle later and stays.
pub const CLEARED_PENDING: &str = "cycles 40
boot raw
hart 0 run pc 00000024 retired 12
x1 fffc0000
x2 ffffffff
x3 00000020
x4 00000028
mem 00000000 b700fcff1301f0ff1300000013000000
mem 00000010 130000001300000023a6200083a1c000
mem 00000020 03a200006f0000000000000000000000
end
";

/// Pin 0 goes up in cycle 12, and down in cycle 5,616, which is in the second stretch of 4,096 cycles: lui x1, 0xfffc0;
/// addi x2, x0, 1; sw x2, 4(x1); addi x3, x0, 700; addi x3, x3, -1; bne x3, x0, -4; sw x0, 4(x1); jal x0, 0
pub const TOGGLE_LATE: &[u32] = &[
    0xfffc_00b7,
    0x0010_0113,
    0x0020_a223,
    0x2bc0_0193,
    0xfff1_8193,
    0xfe01_9ee3,
    0x0000_a223,
    0x0000_006f,
];

pub const TOGGLED_LATE: &str = "cycles 5617
12 gpio out 00000001
5616 gpio out 00000000
boot raw
hart 0 run pc 0000001c retired 1406
x1 fffc0000
x2 00000001
mem 00000000 b700fcff1301100023a220009301c02b
mem 00000010 9381f1ffe39e01fe23a200006f000000
end
";

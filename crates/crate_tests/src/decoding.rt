//! Words and parcels as an assembler writes them.

use rv_decode::{Instr, Op, decode, expand, length, name};

/// A word, the name of its instruction, and the instruction: rd, rs1 and rs2, the immediate value and the CSR.
type Row = (u32, &'static str, Op, (u8, u8, u8), u32, u16);

fn is_decoded(row: &Row) -> bool {
    let (word, text, op, (rd, rs1, rs2), imm, csr) = *row;
    let instr = Instr {
        op,
        rd,
        rs1,
        rs2,
        imm,
        csr,
    };
    decode(word) == Some(instr) && name(op).as_slice() == text.as_bytes()
}

#[test]
fn decodes_words(rt: HostRuntime) {
    let words: &[Row] = &[
        // add x5, x6, x7
        (0x0073_02b3, "add", Op::Add, (5, 6, 7), 0, 0),
        // mulhsu x10, x10, x11
        (0x02b5_2533, "mulhsu", Op::Mulhsu, (10, 10, 11), 0, 0),
        // addi x2, x2, -48
        (0xfd01_0113, "addi", Op::Addi, (2, 2, 0), 0xffff_ffd0, 0),
        // lw x14, 4(x15)
        (0x0047_a703, "lw", Op::Lw, (14, 15, 0), 4, 0),
        // srai x15, x15, 4
        (0x4047_d793, "srai", Op::Srai, (15, 15, 0), 4, 0),
        // sw x8, -20(x8)
        (0xfe84_2623, "sw", Op::Sw, (0, 8, 8), 0xffff_ffec, 0),
        // bne x2, x3, -12
        (0xfe31_1ae3, "bne", Op::Bne, (0, 2, 3), 0xffff_fff4, 0),
        // auipc x1, 0x12345
        (0x1234_5097, "auipc", Op::Auipc, (1, 0, 0), 0x1234_5000, 0),
        // jal x1, 2048
        (0x0010_00ef, "jal", Op::Jal, (1, 0, 0), 0x800, 0),
        // jal x0, -2
        (0xffff_f06f, "jal", Op::Jal, (0, 0, 0), 0xffff_fffe, 0),
        // csrrs x10, mhartid, x0
        (0xf140_2573, "csrrs", Op::Csrrs, (10, 0, 0), 0, 0xf14),
        // csrrwi x0, mtvec, 17
        (0x3058_d073, "csrrwi", Op::Csrrwi, (0, 0, 0), 17, 0x305),
        // fence.i
        (0x0000_100f, "fence.i", Op::FenceI, (0, 0, 0), 0, 0),
        // mret
        (0x3020_0073, "mret", Op::Mret, (0, 0, 0), 0, 0),
    ];
    for row in words {
        assert!(&rt; is_decoded(row), "at {:08x}", row.0);
    }
    // no row: zeros, ones, sd x0, 0(x0), slli x10, x10, 32 and uret
    for &word in &[
        0x0000_0000,
        0xffff_ffff,
        0x0000_3023,
        0x0205_1513,
        0x0020_0073,
    ] {
        assert!(&rt; decode(word) == None, "at {word:08x}");
    }
}

#[test]
fn expands_parcels(rt: HostRuntime) {
    for &(half, word) in &[
        (0x0001, 0x0000_0013),
        (0x0808, 0x0101_0513),
        (0x43d8, 0x0047_a703),
        (0xc3d8, 0x00e7_a223),
        (0x1141, 0xff01_0113),
        (0x7179, 0xfd01_0113),
        (0x6785, 0x0000_17b7),
        (0x8791, 0x4047_d793),
        (0x8f89, 0x40a7_87b3),
        (0xbffd, 0xffff_f06f),
        (0xc399, 0x0007_8363),
        (0x078a, 0x0027_9793),
        (0x40b2, 0x00c1_2083),
        (0xc606, 0x0011_2623),
        (0x8082, 0x0000_8067),
        (0x853e, 0x00f0_0533),
        (0x9002, 0x0010_0073),
        (0x557d, 0xfff0_0513),
        // hints: li x0, 1
        (0x4005, 0x0010_0013),
        // lui x0, 1
        (0x6005, 0x0000_1037),
        // slli x0, x0, 1
        (0x0006, 0x0010_1013),
        // add x0, x0, x1
        (0x8006, 0x0010_0033),
        // srli x8, x8, 0
        (0x8001, 0x0004_5413),
    ] {
        assert!(&rt; expand(half) == Some(word), "at {half:04x}");
        assert!(&rt; length(half) == 2, "at {half:04x}");
    }
    for &half in &[0x0000, 0x6101, 0x6081, 0x4002, 0x8002, 0x9c01, 0x1002] {
        assert!(&rt; expand(half) == None, "at {half:04x}");
    }
    assert!(&rt; length(0x0093) == 4);
}

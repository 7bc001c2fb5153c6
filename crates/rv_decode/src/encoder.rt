//! Words from operations and operands.

ghost use Rattle.std.specs.Prelude.{◌≡◌, ◌<◌, ◌≤◌, ◌+◌, ◌*◌, ◌%◌, ◌^◌};
ghost use Rattle.rv_decode.specs.Fields.{placed, s_bits, b_bits, u_bits, j_bits};

/// The word of `addi` with all operands 0.
pub const ADDI: u32 = 0x0000_0013;
/// The word of `andi` with all operands 0.
pub const ANDI: u32 = 0x0000_7013;
/// The word of `slli` with all operands 0.
pub const SLLI: u32 = 0x0000_1013;
/// The word of `srli` with all operands 0.
pub const SRLI: u32 = 0x0000_5013;
/// The word of `srai` with all operands 0.
pub const SRAI: u32 = 0x4000_5013;
/// The word of `lw` with all operands 0.
pub const LW: u32 = 0x0000_2003;
/// The word of `sw` with all operands 0.
pub const SW: u32 = 0x0000_2023;
/// The word of `lui` with all operands 0.
pub const LUI: u32 = 0x0000_0037;
/// The word of `jal` with all operands 0.
pub const JAL: u32 = 0x0000_006f;
/// The word of `jalr` with all operands 0.
pub const JALR: u32 = 0x0000_0067;
/// The word of `beq` with all operands 0.
pub const BEQ: u32 = 0x0000_0063;
/// The word of `bne` with all operands 0.
pub const BNE: u32 = 0x0000_1063;
/// The word of `add` with all operands 0.
pub const ADD: u32 = 0x0000_0033;
/// The word of `sub` with all operands 0.
pub const SUB: u32 = 0x4000_0033;
/// The word of `xor` with all operands 0.
pub const XOR: u32 = 0x0000_4033;
/// The word of `or` with all operands 0.
pub const OR: u32 = 0x0000_6033;
/// The word of `and` with all operands 0.
pub const AND: u32 = 0x0000_7033;
/// The word of `ebreak`.
pub const EBREAK: u32 = 0x0010_0073;

/// The word of a row with two source registers, or of a shift with its amount as `rs2`.
pub fn register_word(base: u32, rd: u32, rs1: u32, rs2: u32) -> u32
    requires base { base ≤ 0xfe00707f }
    requires rd { rd < 32 }
    requires rs1 { rs1 < 32 }
    requires rs2 { rs2 < 32 }
    ensures { result ≡ base + (rd * 2 ^ 7 + rs1 * 2 ^ 15 + rs2 * 2 ^ 20) }
{
    base + (rd * 0x80 + rs1 * 0x8000 + rs2 * 0x10_0000)
}

/// The word of a row with a register and an immediate of twelve bits.
pub fn immediate_word(base: u32, rd: u32, rs1: u32, imm: u32) -> u32
    requires base { base ≤ 0x707f }
    requires rd { rd < 32 }
    requires rs1 { rs1 < 32 }
    ensures { result ≡ base + (rd * 2 ^ 7 + rs1 * 2 ^ 15 + imm % 2 ^ 12 * 2 ^ 20) }
{
    base + (rd * 0x80 + rs1 * 0x8000 + (imm % 0x1000) * 0x10_0000)
}

/// The word of `sw`.
pub fn store_word(rs1: u32, rs2: u32, imm: u32) -> u32
    requires rs1 { rs1 < 32 }
    requires rs2 { rs2 < 32 }
    ensures { result ≡ SW + (rs1 * 2 ^ 15 + rs2 * 2 ^ 20 + placed 11 s_bits imm) }
{
    SW + (rs1 * 0x8000 + rs2 * 0x10_0000 + ((imm >> 5 & 0x7f) * 0x200_0000 + (imm & 0x1f) * 0x80))
}

/// The word of a branch that compares with x0.
pub fn branch_word(base: u32, rs1: u32, imm: u32) -> u32
    requires base { base ≤ 0x707f }
    requires rs1 { rs1 < 32 }
    ensures { result ≡ base + (rs1 * 2 ^ 15 + 0 * 2 ^ 20 + placed 12 b_bits imm) }
{
    let high = (imm >> 12 & 1) * 0x8000_0000 + (imm >> 11 & 1) * 0x80;
    base + (rs1 * 0x8000 + (high + ((imm >> 5 & 0x3f) * 0x200_0000 + (imm >> 1 & 0xf) * 0x100)))
}

/// The word of `lui`.
pub fn upper_word(rd: u32, imm: u32) -> u32
    requires rd { rd < 32 }
    ensures { result ≡ LUI + (rd * 2 ^ 7 + placed 31 u_bits imm) }
{
    LUI + (rd * 0x80 + (imm >> 12) * 0x1000)
}

/// The word of `jal`.
pub fn jump_word(rd: u32, imm: u32) -> u32
    requires rd { rd < 32 }
    ensures { result ≡ JAL + (rd * 2 ^ 7 + placed 20 j_bits imm) }
{
    let high = (imm >> 20 & 1) * 0x8000_0000 + (imm >> 12 & 0xff) * 0x1000;
    JAL + (rd * 0x80 + (high + ((imm >> 11 & 1) * 0x10_0000 + (imm >> 1 & 0x3ff) * 0x20_0000)))
}

//! Decoded instructions.

/// The operation of an instruction, one for each row of the instruction table, in the table's order.
#[derive(Clone, Copy, Debug, PartialEq, Eq)]
pub enum Op {
    Lui,
    Auipc,
    Jal,
    Jalr,
    Beq,
    Bne,
    Blt,
    Bge,
    Bltu,
    Bgeu,
    Lb,
    Lh,
    Lw,
    Lbu,
    Lhu,
    Sb,
    Sh,
    Sw,
    Addi,
    Slti,
    Sltiu,
    Xori,
    Ori,
    Andi,
    Slli,
    Srli,
    Srai,
    Add,
    Sll,
    Slt,
    Sltu,
    Xor,
    Srl,
    Or,
    And,
    Sub,
    Sra,
    Mul,
    Mulh,
    Mulhsu,
    Mulhu,
    Div,
    Divu,
    Rem,
    Remu,
    Fence,
    FenceI,
    Csrrw,
    Csrrs,
    Csrrc,
    Csrrwi,
    Csrrsi,
    Csrrci,
    Ecall,
    Ebreak,
    Mret,
    Wfi,
}

/// A decoded instruction. A field that its format lacks is 0.
#[derive(Clone, Copy, Debug, PartialEq, Eq)]
pub struct Instr {
    /// The operation.
    pub op: Op,
    /// The destination register, below 32.
    pub rd: u8,
    /// The first source register, below 32.
    pub rs1: u8,
    /// The second source register, below 32.
    pub rs2: u8,
    /// The immediate as a word, sign-extended where it has fewer than 32 bits. A shift by an immediate has its amount here, and
    /// an immediate form of the control and status rows its five bits.
    pub imm: u32,
    /// The number of a control and status register, below 4,096.
    pub csr: u16,
}

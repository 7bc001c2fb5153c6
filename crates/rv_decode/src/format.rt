//! How operands lie in a word and are written.

/// Where an instruction's operands lie in its word, and how they are written.
#[derive(Clone, Copy)]
pub enum Format {
    /// rd, rs1 and rs2, written `rd, rs1, rs2`.
    Register,
    /// rd, rs1 and an immediate of twelve bits, written `rd, rs1, imm`.
    Immediate,
    /// rd, rs1 and a shift's amount of five bits, written `rd, rs1, amount`.
    Shift,
    /// rd, rs1 and an offset of twelve bits, written `rd, offset(rs1)`.
    Offset,
    /// rs1, rs2 and an offset of twelve bits in two parts, written `rs2, offset(rs1)`.
    Store,
    /// rs1, rs2 and a branch's offset, written `rs1, rs2, target`.
    Branch,
    /// rd and the upper twenty bits of a word, written `rd, upper`.
    Upper,
    /// rd and a jump's offset, written `rd, target`.
    Jump,
    /// rd, rs1 and the number of a control and status register, written `rd, csr, rs1`.
    Csr,
    /// rd, a number of five bits and the number of a control and status register, written `rd, csr, number`.
    CsrNumber,
    /// No operands.
    Bare,
}

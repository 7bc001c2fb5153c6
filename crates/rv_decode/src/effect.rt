//! What instructions do, and what their cycles depend on.

/// What a row of arithmetic computes from two words.
#[derive(Clone, Copy)]
pub enum AluFunction {
    Sum,
    Difference,
    ShiftLeft,
    /// 1 where the first is less, both signed, else 0.
    SetLess,
    /// The same for unsigned words.
    SetLessUnsigned,
    BitXor,
    /// Zeros come in.
    ShiftRight,
    /// The sign bit comes in.
    ShiftRightArithmetic,
    BitOr,
    BitAnd,
    /// The low word of the product.
    Product,
    /// The high word of the signed product.
    ProductHigh,
    /// The high word of the product of a signed and an unsigned word.
    ProductHighMixed,
    /// The high word of the unsigned product.
    ProductHighUnsigned,
    Quotient,
    QuotientUnsigned,
    Remainder,
    RemainderUnsigned,
}

/// Where a branch is taken, by the words of its two registers.
#[derive(Clone, Copy)]
pub enum BranchCondition {
    Equal,
    NotEqual,
    Less,
    NotLess,
    LessUnsigned,
    NotLessUnsigned,
}

/// What an instruction writes to a control and status register, by the word that it holds and the operand.
#[derive(Clone, Copy)]
pub enum CsrChange {
    /// The operand.
    Replace,
    /// The word with the operand's bits set.
    SetBits,
    /// The word with the operand's bits cleared.
    ClearBits,
}

/// What an instruction does.
#[derive(Clone, Copy)]
pub enum Does {
    /// Puts a function of rs1 and a second operand into rd: of rs2, or of the immediate, as the format has it.
    Computes(AluFunction),
    /// Puts its immediate, or the sum of it and pc, into rd.
    PutsUpper,
    /// Goes to pc and its immediate where a condition on rs1 and rs2 holds.
    Branches(BranchCondition),
    /// Goes to another address, and puts the address of the next instruction into rd.
    Jumps,
    /// Loads from the bus.
    Loads,
    /// Stores to the bus.
    Stores,
    /// Changes nothing but pc.
    Fences,
    /// Reads a control and status register and puts its word into rd, and maybe writes it.
    UsesCsr(CsrChange),
    /// Enters a trap.
    Traps,
    /// Returns from a trap.
    Returns,
    /// Sleeps until an interrupt is pending.
    Sleeps,
}

/// What the cycles of an instruction depend on.
#[derive(Clone, Copy)]
pub enum CostKind {
    /// Simple that is none of the following, and the upper part of a word.
    Simple,
    /// A shift, whose amount counts.
    ByAmount,
    /// A product, a quotient or a remainder.
    Multiply,
    /// A branch: it counts whether it is taken.
    ByTaken,
    /// A jump, a fence, a return from a trap, or the entry of one.
    Transfer,
    /// A load or store.
    Access,
    /// An access to a control and status register, or sleep.
    System,
}

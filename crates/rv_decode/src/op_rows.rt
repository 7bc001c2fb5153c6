//! The table of instructions, by operation.

ghost use Rattle.std.specs.Prelude.{◌≡◌, ◌≤◌, length};
ghost use Rattle.rv_decode.specs.Rows.{row_of, name_of};

use crate::effect::{AluFunction, BranchCondition, CostKind, CsrChange, Does};
use crate::format::Format;
use crate::instr::Op;
use chip_base::Name;

/// What the table of instructions says of an operation, but for its code.
#[derive(Clone, Copy)]
pub struct OpRow {
    /// The printed name, in lower case.
    pub name: &'static str,
    /// The format of the operands.
    pub format: Format,
    /// What the cycles depend on.
    pub cost: CostKind,
    /// What it does.
    pub does: Does,
}

/// The printed name of an operation.
fn text_of(op: Op) -> &'static str
    ensures { result.now ≡ (row_of op).name }
{
    match op {
        Op::Lui => "lui",
        Op::Auipc => "auipc",
        Op::Jal => "jal",
        Op::Jalr => "jalr",
        Op::Beq => "beq",
        Op::Bne => "bne",
        Op::Blt => "blt",
        Op::Bge => "bge",
        Op::Bltu => "bltu",
        Op::Bgeu => "bgeu",
        Op::Lb => "lb",
        Op::Lh => "lh",
        Op::Lw => "lw",
        Op::Lbu => "lbu",
        Op::Lhu => "lhu",
        Op::Sb => "sb",
        Op::Sh => "sh",
        Op::Sw => "sw",
        Op::Addi => "addi",
        Op::Slti => "slti",
        Op::Sltiu => "sltiu",
        Op::Xori => "xori",
        Op::Ori => "ori",
        Op::Andi => "andi",
        Op::Slli => "slli",
        Op::Srli => "srli",
        Op::Srai => "srai",
        Op::Add => "add",
        Op::Sll => "sll",
        Op::Slt => "slt",
        Op::Sltu => "sltu",
        Op::Xor => "xor",
        Op::Srl => "srl",
        Op::Or => "or",
        Op::And => "and",
        Op::Sub => "sub",
        Op::Sra => "sra",
        Op::Mul => "mul",
        Op::Mulh => "mulh",
        Op::Mulhsu => "mulhsu",
        Op::Mulhu => "mulhu",
        Op::Div => "div",
        Op::Divu => "divu",
        Op::Rem => "rem",
        Op::Remu => "remu",
        Op::Fence => "fence",
        Op::FenceI => "fence.i",
        Op::Csrrw => "csrrw",
        Op::Csrrs => "csrrs",
        Op::Csrrc => "csrrc",
        Op::Csrrwi => "csrrwi",
        Op::Csrrsi => "csrrsi",
        Op::Csrrci => "csrrci",
        Op::Ecall => "ecall",
        Op::Ebreak => "ebreak",
        Op::Mret => "mret",
        Op::Wfi => "wfi",
    }
}

/// The format of an operation's operands.
fn format_of(op: Op) -> Format
    ensures { result ≡ (row_of op).format }
{
    match op {
        Op::Lui | Op::Auipc => Format::Upper,
        Op::Jal => Format::Jump,
        Op::Jalr | Op::Lb | Op::Lh | Op::Lw | Op::Lbu | Op::Lhu => Format::Offset,
        Op::Beq | Op::Bne | Op::Blt | Op::Bge | Op::Bltu | Op::Bgeu => Format::Branch,
        Op::Sb | Op::Sh | Op::Sw => Format::Store,
        Op::Addi | Op::Slti | Op::Sltiu | Op::Xori | Op::Ori | Op::Andi => Format::Immediate,
        Op::Slli | Op::Srli | Op::Srai => Format::Shift,
        Op::Add
        | Op::Sll
        | Op::Slt
        | Op::Sltu
        | Op::Xor
        | Op::Srl
        | Op::Or
        | Op::And
        | Op::Sub
        | Op::Sra
        | Op::Mul
        | Op::Mulh
        | Op::Mulhsu
        | Op::Mulhu
        | Op::Div
        | Op::Divu
        | Op::Rem
        | Op::Remu => Format::Register,
        Op::Fence | Op::FenceI | Op::Ecall | Op::Ebreak | Op::Mret | Op::Wfi => Format::Bare,
        Op::Csrrw | Op::Csrrs | Op::Csrrc => Format::Csr,
        Op::Csrrwi | Op::Csrrsi | Op::Csrrci => Format::CsrNumber,
    }
}

/// What an operation's cycles depend on.
fn cost_of(op: Op) -> CostKind
    ensures { result ≡ (row_of op).cost }
{
    match op {
        Op::Lui
        | Op::Auipc
        | Op::Addi
        | Op::Slti
        | Op::Sltiu
        | Op::Xori
        | Op::Ori
        | Op::Andi
        | Op::Add
        | Op::Slt
        | Op::Sltu
        | Op::Xor
        | Op::Or
        | Op::And
        | Op::Sub => CostKind::Simple,
        Op::Jal | Op::Jalr | Op::Fence | Op::FenceI | Op::Ecall | Op::Ebreak | Op::Mret =>
            CostKind::Transfer,
        Op::Beq | Op::Bne | Op::Blt | Op::Bge | Op::Bltu | Op::Bgeu => CostKind::ByTaken,
        Op::Lb | Op::Lh | Op::Lw | Op::Lbu | Op::Lhu | Op::Sb | Op::Sh | Op::Sw => CostKind::Access,
        Op::Slli | Op::Srli | Op::Srai | Op::Sll | Op::Srl | Op::Sra => CostKind::ByAmount,
        Op::Mul | Op::Mulh | Op::Mulhsu | Op::Mulhu | Op::Div | Op::Divu | Op::Rem | Op::Remu =>
            CostKind::Multiply,
        Op::Csrrw | Op::Csrrs | Op::Csrrc | Op::Csrrwi | Op::Csrrsi | Op::Csrrci | Op::Wfi =>
            CostKind::System,
    }
}

/// What an operation does.
fn effect_of(op: Op) -> Does
    ensures { result ≡ (row_of op).does }
{
    match op {
        Op::Lui | Op::Auipc => Does::PutsUpper,
        Op::Jal | Op::Jalr => Does::Jumps,
        Op::Beq => Does::Branches(BranchCondition::Equal),
        Op::Bne => Does::Branches(BranchCondition::NotEqual),
        Op::Blt => Does::Branches(BranchCondition::Less),
        Op::Bge => Does::Branches(BranchCondition::NotLess),
        Op::Bltu => Does::Branches(BranchCondition::LessUnsigned),
        Op::Bgeu => Does::Branches(BranchCondition::NotLessUnsigned),
        Op::Lb | Op::Lh | Op::Lw | Op::Lbu | Op::Lhu => Does::Loads,
        Op::Sb | Op::Sh | Op::Sw => Does::Stores,
        Op::Addi | Op::Add => Does::Computes(AluFunction::Sum),
        Op::Slti | Op::Slt => Does::Computes(AluFunction::SetLess),
        Op::Sltiu | Op::Sltu => Does::Computes(AluFunction::SetLessUnsigned),
        Op::Xori | Op::Xor => Does::Computes(AluFunction::BitXor),
        Op::Ori | Op::Or => Does::Computes(AluFunction::BitOr),
        Op::Andi | Op::And => Does::Computes(AluFunction::BitAnd),
        Op::Slli | Op::Sll => Does::Computes(AluFunction::ShiftLeft),
        Op::Srli | Op::Srl => Does::Computes(AluFunction::ShiftRight),
        Op::Srai | Op::Sra => Does::Computes(AluFunction::ShiftRightArithmetic),
        Op::Sub => Does::Computes(AluFunction::Difference),
        Op::Mul => Does::Computes(AluFunction::Product),
        Op::Mulh => Does::Computes(AluFunction::ProductHigh),
        Op::Mulhsu => Does::Computes(AluFunction::ProductHighMixed),
        Op::Mulhu => Does::Computes(AluFunction::ProductHighUnsigned),
        Op::Div => Does::Computes(AluFunction::Quotient),
        Op::Divu => Does::Computes(AluFunction::QuotientUnsigned),
        Op::Rem => Does::Computes(AluFunction::Remainder),
        Op::Remu => Does::Computes(AluFunction::RemainderUnsigned),
        Op::Fence | Op::FenceI => Does::Fences,
        Op::Csrrw | Op::Csrrwi => Does::UsesCsr(CsrChange::Replace),
        Op::Csrrs | Op::Csrrsi => Does::UsesCsr(CsrChange::SetBits),
        Op::Csrrc | Op::Csrrci => Does::UsesCsr(CsrChange::ClearBits),
        Op::Ecall | Op::Ebreak => Does::Traps,
        Op::Mret => Does::Returns,
        Op::Wfi => Does::Sleeps,
    }
}

/// The row of an operation.
pub fn op_row(op: Op) -> OpRow
    ensures name { result.name.now ≡ (row_of op).name }
    ensures format { result.format ≡ (row_of op).format }
    ensures cost { result.cost ≡ (row_of op).cost }
    ensures does { result.does ≡ (row_of op).does }
    ensures bounds { (1 ≤ length result.name.now) × (length result.name.now ≤ 16) }
{
    OpRow {
        name: text_of(op),
        format: format_of(op),
        cost: cost_of(op),
        does: effect_of(op),
    }
}

/// The printed name of an operation, in lower case, as `fence.i`.
pub fn name(op: Op) -> Name
    ensures { result ≡ name_of op }
{
    match Name::new(op_row(op).name) {
        Some(name) => name,
        None => unreachable!(),
    }
}

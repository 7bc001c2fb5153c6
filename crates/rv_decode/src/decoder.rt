//! Words as instructions.

ghost use Rattle.std.specs.Prelude.{◌≡◌, ◌<◌, ◌^◌, ◌/◌, ◌%◌, Some, None, IfSome};
ghost use Rattle.rv_decode.specs.declared.format.Format.TheVariants.{Bare};
ghost use Rattle.rv_decode.specs.declared.instr.Op.{Op};
ghost use Rattle.rv_decode.specs.ByFields.{op_at};
ghost use Rattle.rv_decode.specs.Rows.{HasRow, row_of, operands, instr_of, decoded};

use crate::format::Format;
use crate::immediate::{immediate_b, immediate_i, immediate_j, immediate_s, immediate_u};
use crate::instr::{Instr, Op};
use crate::op_rows::op_row;

/// The branch rows.
fn branch_op(funct3: u32) -> Option<Op>
    ensures { result ≡ op_at 0b1100011 funct3 0 0 }
{
    match funct3 {
        0 => Some(Op::Beq),
        1 => Some(Op::Bne),
        4 => Some(Op::Blt),
        5 => Some(Op::Bge),
        6 => Some(Op::Bltu),
        7 => Some(Op::Bgeu),
        _ => None,
    }
}

/// The load rows.
fn load_op(funct3: u32) -> Option<Op>
    ensures { result ≡ op_at 0b0000011 funct3 0 0 }
{
    match funct3 {
        0 => Some(Op::Lb),
        1 => Some(Op::Lh),
        2 => Some(Op::Lw),
        4 => Some(Op::Lbu),
        5 => Some(Op::Lhu),
        _ => None,
    }
}

/// The store rows.
fn store_op(funct3: u32) -> Option<Op>
    ensures { result ≡ op_at 0b0100011 funct3 0 0 }
{
    match funct3 {
        0 => Some(Op::Sb),
        1 => Some(Op::Sh),
        2 => Some(Op::Sw),
        _ => None,
    }
}

/// The rows of register and immediate.
fn immediate_op(funct3: u32, funct7: u32) -> Option<Op>
    ensures { result ≡ op_at 0b0010011 funct3 funct7 0 }
{
    match (funct3, funct7) {
        (0, _) => Some(Op::Addi),
        (2, _) => Some(Op::Slti),
        (3, _) => Some(Op::Sltiu),
        (4, _) => Some(Op::Xori),
        (6, _) => Some(Op::Ori),
        (7, _) => Some(Op::Andi),
        (1, 0) => Some(Op::Slli),
        (5, 0) => Some(Op::Srli),
        (5, 0b0100000) => Some(Op::Srai),
        _ => None,
    }
}

/// The register rows with funct7 0.
fn base_op(funct3: u32) -> Option<Op>
    ensures { result ≡ op_at 0b0110011 funct3 0b0000000 0 }
{
    match funct3 {
        0 => Some(Op::Add),
        1 => Some(Op::Sll),
        2 => Some(Op::Slt),
        3 => Some(Op::Sltu),
        4 => Some(Op::Xor),
        5 => Some(Op::Srl),
        6 => Some(Op::Or),
        7 => Some(Op::And),
        _ => None,
    }
}

/// The multiply and divide rows.
fn multiply_op(funct3: u32) -> Option<Op>
    ensures { result ≡ op_at 0b0110011 funct3 0b0000001 0 }
{
    match funct3 {
        0 => Some(Op::Mul),
        1 => Some(Op::Mulh),
        2 => Some(Op::Mulhsu),
        3 => Some(Op::Mulhu),
        4 => Some(Op::Div),
        5 => Some(Op::Divu),
        6 => Some(Op::Rem),
        7 => Some(Op::Remu),
        _ => None,
    }
}

/// The register rows with bit 30 set.
fn alternate_op(funct3: u32) -> Option<Op>
    ensures { result ≡ op_at 0b0110011 funct3 0b0100000 0 }
{
    match funct3 {
        0 => Some(Op::Sub),
        5 => Some(Op::Sra),
        _ => None,
    }
}

/// The rows of two registers.
fn register_op(funct3: u32, funct7: u32) -> Option<Op>
    ensures { result ≡ op_at 0b0110011 funct3 funct7 0 }
{
    match funct7 {
        0b0000000 => base_op(funct3),
        0b0000001 => multiply_op(funct3),
        0b0100000 => alternate_op(funct3),
        _ => None,
    }
}

/// The fence rows.
fn fence_op(funct3: u32) -> Option<Op>
    ensures { result ≡ op_at 0b0001111 funct3 0 0 }
{
    match funct3 {
        0 => Some(Op::Fence),
        1 => Some(Op::FenceI),
        _ => None,
    }
}

/// The control and status rows, and the rows that are one word.
fn system_op(funct3: u32, word: u32) -> Option<Op>
    requires opcode { word % 128 ≡ 0b1110011 }
    requires funct3 { funct3 ≡ word / 2 ^ 12 % 8 }
    ensures { result ≡ op_at 0b1110011 funct3 0 word }
{
    match funct3 {
        0 => match word {
            0x00000073 => Some(Op::Ecall),
            0x00100073 => Some(Op::Ebreak),
            0x30200073 => Some(Op::Mret),
            0x10500073 => Some(Op::Wfi),
            _ => None,
        },
        1 => Some(Op::Csrrw),
        2 => Some(Op::Csrrs),
        3 => Some(Op::Csrrc),
        5 => Some(Op::Csrrwi),
        6 => Some(Op::Csrrsi),
        7 => Some(Op::Csrrci),
        _ => None,
    }
}

/// The operation of a word.
fn op_of(word: u32) -> Option<Op>
    ensures { result ≡ op_at (word % 128) (word / 2 ^ 12 % 8) (word / 2 ^ 25) word }
{
    let funct3 = word / 4096 % 8;
    let funct7 = word >> 25;
    match word & 0x7f {
        0b0110111 => Some(Op::Lui),
        0b0010111 => Some(Op::Auipc),
        0b1101111 => Some(Op::Jal),
        0b1100111 => { if funct3 == 0 { Some(Op::Jalr) } else { None } }
        0b1100011 => branch_op(funct3),
        0b0000011 => load_op(funct3),
        0b0100011 => store_op(funct3),
        0b0010011 => immediate_op(funct3, funct7),
        0b0110011 => register_op(funct3, funct7),
        0b0001111 => fence_op(funct3),
        0b1110011 => system_op(funct3, word),
        _ => None,
    }
}

/// The instruction whose operands are all 0.
fn without_operands(op: Op) -> Instr
    ensures { result ≡ operands Bare op 0 }
{
    Instr {
        op,
        rd: 0,
        rs1: 0,
        rs2: 0,
        imm: 0,
        csr: 0,
    }
}

/// The immediate of a word in a format: the amount of a shift and the number of five bits among them, and 0 where the format has
/// none.
fn immediate_of(format: Format, word: u32) -> u32
    ensures { (op : Op) → result ≡ (operands format op word).imm }
{
    match format {
        Format::Immediate | Format::Offset => immediate_i(word),
        Format::Shift => word >> 20 & 0x1f,
        Format::Store => immediate_s(word),
        Format::Branch => immediate_b(word),
        Format::Upper => immediate_u(word),
        Format::Jump => immediate_j(word),
        Format::CsrNumber => word >> 15 & 0x1f,
        Format::Register | Format::Csr | Format::Bare => 0,
    }
}

/// The instruction of a word whose operation and format are known.
fn operands_of(format: Format, op: Op, word: u32) -> Instr
    ensures value { result ≡ operands format op word }
    ensures registers { (result.rd < 32) × (result.rs1 < 32) × (result.rs2 < 32) }
    ensures number { result.csr < 2 ^ 12 }
{
    let rd = (word >> 7 & 0x1f) as u8;
    let rs1 = (word >> 15 & 0x1f) as u8;
    let rs2 = (word >> 20 & 0x1f) as u8;
    let csr = (word >> 20) as u16;
    let bare = Instr {
        imm: immediate_of(format, word),
        ..without_operands(op)
    };
    match format {
        Format::Register => Instr {
            rd,
            rs1,
            rs2,
            ..bare
        },
        Format::Immediate | Format::Shift | Format::Offset => Instr { rd, rs1, ..bare },
        Format::Store | Format::Branch => Instr { rs1, rs2, ..bare },
        Format::Upper | Format::Jump => Instr { rd, ..bare },
        Format::Csr => Instr {
            rd,
            rs1,
            csr,
            ..bare
        },
        Format::CsrNumber => Instr { rd, csr, ..bare },
        Format::Bare => bare,
    }
}

#[tactic(auto, using(crate::proofs::Masks::decoded_by_fields))]
fn decode_fields(word: u32) -> Option<Instr>
    ensures value { result ≡ decoded word }
    ensures registers { IfSome result (λ i. (i.rd < 32) × (i.rs1 < 32) × (i.rs2 < 32)) }
    ensures number { IfSome result (λ i. i.csr < 2 ^ 12) }
{
    let op = op_of(word)?;
    Some(operands_of(op_row(op).format, op, word))
}

/// The instruction of a word: that of the row which the word has, of which there is at most one. None exactly where it has no
/// row.
#[tactic(auto, using(crate::proofs::Unique::decoded_row, crate::proofs::Unique::decoded_none, crate::proofs::Unique::one_row))]
pub fn decode(word: u32) -> Option<Instr>
    ensures value { result ≡ decoded word }
    ensures row { (op : Op) → HasRow word op → result ≡ Some (instr_of word (row_of op)) }
    ensures none { ((op : Op) → ¬ HasRow word op) → result ≡ None }
    ensures unique { (o p : Op) → HasRow word o → HasRow word p → o ≡ p }
    ensures registers { IfSome result (λ i. (i.rd < 32) × (i.rs1 < 32) × (i.rs2 < 32)) }
    ensures number { IfSome result (λ i. i.csr < 2 ^ 12) }
{
    decode_fields(word)
}

//! The printed text of an instruction.
ghost use Rattle.std.specs.Prelude.{◌≡◌, ◌+◌, ◌≤◌, ◌++◌, length, codes, decimal};
ghost use Rattle.rv_decode.specs.Parcels.{equivalent_of};
ghost use Rattle.rv_decode.specs.declared.format.Format.TheVariants.{Register, Immediate, Offset, Store, Branch, Upper, Jump, Csr, CsrNumber};
ghost use Rattle.trace_text.specs.Instruction.{address_text, after_name, instruction_text, issued, issued_text, last_digits, operands_text, register_name, signed_text, target_text, word_text};

use rv_decode::{Format, Instr, decode, expand, op_row};
use text_line::Line;

/// Appends a number below 256 in decimal digits, of which it has at most three.
#[tactic(auto, using(crate::proofs::Numbers::grown))]
pub fn push_short_number(line: &mut Line, number: u8)
    requires { length line.old + 20 ≤ 128 }
    ensures text { line.new ≡ line.old ++ decimal number }
    ensures len { length line.new ≤ length line.old + 3 }
{
    line.push_number(u64::from(number));
}

/// Appends a register, as `x5`.
#[tactic(auto, unfolding(crate::specs::Instruction::register_name))]
fn push_register(line: &mut Line, number: u8)
    requires { length line.old + 21 ≤ 128 }
    ensures text { line.new ≡ line.old ++ register_name number }
    ensures len { length line.new ≤ length line.old + 4 }
{
    line.push(b"x");
    push_short_number(line, number);
}

/// Appends a register and the comma after it.
fn push_first(line: &mut Line, number: u8)
    requires { length line.old + 21 ≤ 128 }
    ensures text { line.new ≡ line.old ++ register_name number ++ codes ", " }
    ensures len { length line.new ≤ length line.old + 6 }
{
    push_register(line, number);
    line.push(b", ");
}

/// Appends a word in signed decimal.
#[tactic(auto, unfolding(crate::specs::Instruction::signed_text))]
fn push_signed(line: &mut Line, word: u32)
    requires { length line.old + 21 ≤ 128 }
    ensures text { line.new ≡ line.old ++ signed_text word }
    ensures len { length line.new ≤ length line.old + 21 }
{
    if word < 0x8000_0000 {
        line.push_number(u64::from(word));
    } else {
        line.push(b"-");
        line.push_number(0x1_0000_0000 - u64::from(word));
    }
}

/// Appends the last digits of a word's eight hexadecimal ones.
#[tactic(auto, unfolding(crate::specs::Instruction::last_digits))]
fn push_last_digits(line: &mut Line, count: usize, word: u32)
    requires some { count ≤ 8 }
    requires room { length line.old + count ≤ 128 }
    ensures text { line.new ≡ line.old ++ last_digits count word }
    ensures len { length line.new ≡ length line.old + count }
{
    let mut digits = [0; 8];
    hex::encode_to_slice(word.to_be_bytes(), &mut digits).unwrap();
    line.push(&digits[8 - count..]);
}

/// Appends the three digits of a control and status register and the comma after them.
fn push_csr_digits(line: &mut Line, csr: u16)
    requires { length line.old + 5 ≤ 128 }
    ensures text { line.new ≡ line.old ++ last_digits 3 csr ++ codes ", " }
    ensures len { length line.new ≤ length line.old + 5 }
{
    push_last_digits(line, 3, u32::from(csr));
    line.push(b", ");
}

/// Appends an address as an offset from a register: `imm(rs1)`.
fn push_address(line: &mut Line, i: &Instr)
    requires { length line.old + 43 ≤ 128 }
    ensures text { line.new ≡ line.old ++ address_text i.now }
    ensures len { length line.new ≤ length line.old + 27 }
{
    push_signed(line, i.imm);
    line.push(b"(");
    push_register(line, i.rs1);
    line.push(b")");
}

/// Appends the address to which a branch or a jump goes.
fn push_target(line: &mut Line, pc: u32, i: &Instr)
    requires { length line.old + 8 ≤ 128 }
    ensures text { line.new ≡ line.old ++ target_text pc i.now }
    ensures len { length line.new ≤ length line.old + 8 }
{
    line.push_word(pc.wrapping_add(i.imm));
}

/// Appends `rd, rs1, rs2`.
#[tactic(auto, unfolding(crate::specs::Instruction::operands_text))]
fn push_registers(line: &mut Line, pc: u32, i: &Instr)
    requires { length line.old + 49 ≤ 128 }
    ensures text { line.new ≡ line.old ++ operands_text Register pc i.now }
    ensures len { length line.new ≤ length line.old + 33 }
{
    push_first(line, i.rd);
    push_first(line, i.rs1);
    push_register(line, i.rs2);
}

/// Appends `rd, rs1, imm`, and of a shift its amount.
#[tactic(auto, unfolding(crate::specs::Instruction::operands_text))]
fn push_immediate(line: &mut Line, pc: u32, i: &Instr)
    requires { length line.old + 49 ≤ 128 }
    ensures text { line.new ≡ line.old ++ operands_text Immediate pc i.now }
    ensures len { length line.new ≤ length line.old + 33 }
{
    push_first(line, i.rd);
    push_first(line, i.rs1);
    push_signed(line, i.imm);
}

/// Appends `rd, imm(rs1)`.
#[tactic(auto, unfolding(crate::specs::Instruction::operands_text))]
fn push_offset(line: &mut Line, pc: u32, i: &Instr)
    requires { length line.old + 49 ≤ 128 }
    ensures text { line.new ≡ line.old ++ operands_text Offset pc i.now }
    ensures len { length line.new ≤ length line.old + 33 }
{
    push_first(line, i.rd);
    push_address(line, i);
}

/// Appends `rs2, imm(rs1)`.
#[tactic(auto, unfolding(crate::specs::Instruction::operands_text))]
fn push_store(line: &mut Line, pc: u32, i: &Instr)
    requires { length line.old + 49 ≤ 128 }
    ensures text { line.new ≡ line.old ++ operands_text Store pc i.now }
    ensures len { length line.new ≤ length line.old + 33 }
{
    push_first(line, i.rs2);
    push_address(line, i);
}

/// Appends `rs1, rs2, target`.
#[tactic(auto, unfolding(crate::specs::Instruction::operands_text))]
fn push_branch(line: &mut Line, pc: u32, i: &Instr)
    requires { length line.old + 49 ≤ 128 }
    ensures text { line.new ≡ line.old ++ operands_text Branch pc i.now }
    ensures len { length line.new ≤ length line.old + 33 }
{
    push_first(line, i.rs1);
    push_first(line, i.rs2);
    push_target(line, pc, i);
}

/// Appends `rd, upper`: the upper twenty bits, in five digits.
#[tactic(auto, unfolding(crate::specs::Instruction::operands_text))]
fn push_upper(line: &mut Line, pc: u32, i: &Instr)
    requires { length line.old + 49 ≤ 128 }
    ensures text { line.new ≡ line.old ++ operands_text Upper pc i.now }
    ensures len { length line.new ≤ length line.old + 33 }
{
    push_first(line, i.rd);
    push_last_digits(line, 5, i.imm >> 12);
}

/// Appends `rd, target`.
#[tactic(auto, unfolding(crate::specs::Instruction::operands_text))]
fn push_jump(line: &mut Line, pc: u32, i: &Instr)
    requires { length line.old + 49 ≤ 128 }
    ensures text { line.new ≡ line.old ++ operands_text Jump pc i.now }
    ensures len { length line.new ≤ length line.old + 33 }
{
    push_first(line, i.rd);
    push_target(line, pc, i);
}

/// Appends `rd, csr, rs1`.
#[tactic(auto, unfolding(crate::specs::Instruction::operands_text))]
fn push_csr(line: &mut Line, pc: u32, i: &Instr)
    requires { length line.old + 49 ≤ 128 }
    ensures text { line.new ≡ line.old ++ operands_text Csr pc i.now }
    ensures len { length line.new ≤ length line.old + 33 }
{
    push_first(line, i.rd);
    push_csr_digits(line, i.csr);
    push_register(line, i.rs1);
}

/// Appends `rd, csr, number`.
#[tactic(auto, unfolding(crate::specs::Instruction::operands_text))]
fn push_csr_number(line: &mut Line, pc: u32, i: &Instr)
    requires { length line.old + 49 ≤ 128 }
    ensures text { line.new ≡ line.old ++ operands_text CsrNumber pc i.now }
    ensures len { length line.new ≤ length line.old + 33 }
{
    push_first(line, i.rd);
    push_csr_digits(line, i.csr);
    line.push_number(u64::from(i.imm));
}

/// Appends the operands of an instruction in a format.
#[tactic(auto, unfolding(crate::specs::Instruction::operands_text))]
fn push_operands(line: &mut Line, format: Format, pc: u32, i: &Instr)
    requires { length line.old + 49 ≤ 128 }
    ensures text { line.new ≡ line.old ++ operands_text format pc i.now }
    ensures len { length line.new ≤ length line.old + 33 }
{
    match format {
        Format::Register => push_registers(line, pc, i),
        Format::Immediate | Format::Shift => push_immediate(line, pc, i),
        Format::Offset => push_offset(line, pc, i),
        Format::Store => push_store(line, pc, i),
        Format::Branch => push_branch(line, pc, i),
        Format::Upper => push_upper(line, pc, i),
        Format::Jump => push_jump(line, pc, i),
        Format::Csr => push_csr(line, pc, i),
        Format::CsrNumber => push_csr_number(line, pc, i),
        Format::Bare => {}
    }
}

/// Appends a blank and the operands of an instruction, and nothing where its format has none.
fn push_after_name(line: &mut Line, format: Format, pc: u32, i: &Instr)
    requires { length line.old + 50 ≤ 128 }
    ensures text { line.new ≡ line.old ++ after_name format (operands_text format pc i.now) }
    ensures len { length line.new ≤ length line.old + 34 }
{
    match format {
        Format::Bare => {}
        _ => {
            line.push(b" ");
            push_operands(line, format, pc, i);
        }
    }
}

/// Appends the text of an instruction.
#[tactic(auto, unfolding(crate::specs::Instruction::instruction_text))]
fn push_instruction(line: &mut Line, pc: u32, i: &Instr)
    requires { length line.old + 66 ≤ 128 }
    ensures text { line.new ≡ line.old ++ instruction_text pc i.now }
    ensures len { length line.new ≤ length line.old + 50 }
{
    let row = op_row(i.op);
    line.push(row.name.as_bytes());
    push_after_name(line, row.format, pc, i);
}

/// The instruction that a parcel stands for.
fn instruction_of_parcel(half: u16) -> Option<Instr>
    ensures { result ≡ equivalent_of half }
{
    decode(expand(half)?)
}

/// The instruction of an issued word.
fn issued(word: u32) -> Option<Instr>
    ensures { result ≡ issued word }
{
    if word % 4 == 3 {
        decode(word)
    } else {
        instruction_of_parcel((word % 0x1_0000) as u16)
    }
}

/// Appends the text of an issued word.
#[tactic(auto, unfolding(crate::specs::Instruction::issued_text))]
pub fn push_issued(line: &mut Line, pc: u32, word: u32)
    requires { length line.old + 66 ≤ 128 }
    ensures text { line.new ≡ line.old ++ issued_text pc word }
    ensures len { length line.new ≤ length line.old + 50 }
{
    match issued(word) {
        Some(i) => push_instruction(line, pc, &i),
        None => line.push(b"illegal"),
    }
}

/// Appends the digits of an issued word.
#[tactic(auto, unfolding(crate::specs::Instruction::word_text))]
pub fn push_word_digits(line: &mut Line, word: u32)
    requires { length line.old + 8 ≤ 128 }
    ensures text { line.new ≡ line.old ++ word_text word }
    ensures len { length line.new ≤ length line.old + 8 }
{
    if word % 4 == 3 {
        line.push_word(word);
    } else {
        push_last_digits(line, 4, word);
    }
}

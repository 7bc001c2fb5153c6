//! The rows of arithmetic.

ghost use Rattle.std.specs.Prelude.{◌≡◌, ◌<◌, ◌≤◌, ◌^◌, ◌*ℤ◌, IsTrue, unsigned_abs};
ghost use Rattle.rv_exec.specs.Alu.{alu_of, alu_result, takes_immediate, is_alu, is_alu_immediate, high_word};

use rv_decode::{AluFunction, Does, Format, Op, op_row};

/// Whether an operation is a row of arithmetic with two registers, or with a register and an immediate.
pub fn is_alu(op: Op) -> bool
    ensures { result ≡ is_alu op }
{
    matches!(op_row(op).does, Does::Computes(_))
}

fn takes_immediate(format: Format) -> bool
    ensures { result ≡ takes_immediate format }
{
    matches!(format, Format::Immediate | Format::Shift)
}

/// Whether an operation is a row of arithmetic whose second operand is its immediate.
pub fn is_alu_immediate(op: Op) -> bool
    ensures { result ≡ is_alu_immediate op }
{
    is_alu(op) && takes_immediate(op_row(op).format)
}

/// The upper word of a product.
fn multiply_high(a: i64, b: i64) -> u32
    requires first { unsigned_abs a ≤ 2 ^ 31 }
    requires second { unsigned_abs b < 2 ^ 32 }
    ensures { result ≡ high_word (a *ℤ b) }
{
    let product = a * b;
    ((product >> 32).cast_unsigned() & 0xffff_ffff) as u32
}

/// A word shifted right, with its sign bit coming in.
fn shift_right_signed(a: u32, amount: u32) -> u32
    requires { amount < 32 }
    ensures { result ≡ alu_result AluFunction.ShiftRightArithmetic a amount }
{
    (a.cast_signed() >> amount).cast_unsigned()
}

/// The quotient of two signed words, rounded towards zero.
fn divide_signed(a: u32, b: u32) -> u32
    ensures { result ≡ alu_result AluFunction.Quotient a b }
{
    if b == 0 {
        u32::MAX
    } else {
        a.cast_signed()
            .wrapping_div(b.cast_signed())
            .cast_unsigned()
    }
}

/// The remainder of two signed words, with the dividend's sign.
fn remainder_signed(a: u32, b: u32) -> u32
    ensures { result ≡ alu_result AluFunction.Remainder a b }
{
    if b == 0 {
        a
    } else {
        a.cast_signed()
            .wrapping_rem(b.cast_signed())
            .cast_unsigned()
    }
}

fn compute(function: AluFunction, a: u32, b: u32) -> u32
    ensures { result ≡ alu_result function a b }
{
    match function {
        AluFunction::Sum => a.wrapping_add(b),
        AluFunction::Difference => a.wrapping_sub(b),
        AluFunction::ShiftLeft => a << (b % 32),
        AluFunction::SetLess => u32::from(a.cast_signed() < b.cast_signed()),
        AluFunction::SetLessUnsigned => u32::from(a < b),
        AluFunction::BitXor => a ^ b,
        AluFunction::ShiftRight => a >> (b % 32),
        AluFunction::ShiftRightArithmetic => shift_right_signed(a, b % 32),
        AluFunction::BitOr => a | b,
        AluFunction::BitAnd => a & b,
        AluFunction::Product => a.wrapping_mul(b),
        AluFunction::ProductHigh => multiply_high(
            i64::from(a.cast_signed()),
            i64::from(b.cast_signed()),
        ),
        AluFunction::ProductHighMixed => multiply_high(i64::from(a.cast_signed()), i64::from(b)),
        AluFunction::ProductHighUnsigned => (u64::from(a) * u64::from(b) >> 32) as u32,
        AluFunction::Quotient => divide_signed(a, b),
        AluFunction::QuotientUnsigned => a.checked_div(b).unwrap_or(u32::MAX),
        AluFunction::Remainder => remainder_signed(a, b),
        AluFunction::RemainderUnsigned => a.checked_rem(b).unwrap_or(a),
    }
}

/// The result of a row of arithmetic, as `is_alu` tells them, at the values `a` and `b` of its two operands.
///
/// Sums, differences and products wrap, and a shift takes the low five bits of `b`. Division by zero gives `ffff_ffff`, and its
/// remainder is `a`.
pub fn alu(op: Op, a: u32, b: u32) -> u32
    requires { IsTrue (is_alu op) }
    ensures { result ≡ alu_of op a b }
{
    match op_row(op).does {
        Does::Computes(function) => compute(function, a, b),
        _ => unreachable!(),
    }
}

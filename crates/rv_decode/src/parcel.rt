//! Compressed parcels of 16 bits, as the words that they stand for.

ghost use Rattle.std.specs.Prelude.{◌≡◌, ◌<◌, Some, None, IfSome, IsSome};
ghost use Rattle.rv_decode.specs.Parcels.{ParcelRow, HasParcelRow, expanded, expanded_at, equivalent_of, word_at, length_of};
ghost use Rattle.rv_decode.specs.Rows.{decoded};

use crate::encoder::{
    ADD, ADDI, AND, ANDI, BEQ, BNE, EBREAK, JALR, LW, OR, SLLI, SRAI, SRLI, SUB, XOR, branch_word,
    immediate_word, jump_word, register_word, store_word, upper_word,
};
use crate::parcel_immediate::{
    branch_immediate, frame_immediate, jump_immediate, short_register, small_immediate,
    stack_load_immediate, stack_store_immediate, step_immediate, upper_immediate, word_immediate,
};

/// The parcels with low bits 00, by their high three bits.
fn expand_memory(high: u32, half: u32) -> Option<u32>
    ensures { result ≡ expanded_at 0b00 high half }
{
    match high {
        0 => {
            if (half >> 5) % 0x100 != 0 {
                Some(immediate_word(ADDI, short_register(half, 2), 2, frame_immediate(half)))
            } else {
                None
            }
        }
        2 => Some(immediate_word(
            LW,
            short_register(half, 2),
            short_register(half, 7),
            word_immediate(half),
        )),
        6 => Some(store_word(
            short_register(half, 7),
            short_register(half, 2),
            word_immediate(half),
        )),
        _ => None,
    }
}

/// The parcels that step the stack pointer or load a register's upper part.
fn expand_upper(half: u32) -> Option<u32>
    ensures { result ≡ expanded_at 0b01 0b011 half }
{
    let rd = (half >> 7) % 0x20;
    if (half >> 12) % 2 == 0 && (half >> 2) % 0x20 == 0 {
        None
    } else if rd == 2 {
        Some(immediate_word(ADDI, 2, 2, step_immediate(half)))
    } else {
        Some(upper_word(rd, upper_immediate(half)))
    }
}

/// The parcels with low bits 01 that work on one or two of x8 to x15.
fn expand_register(half: u32) -> Option<u32>
    ensures { result ≡ expanded_at 0b01 0b100 half }
{
    let rd = short_register(half, 7);
    let rs2 = short_register(half, 2);
    let amount = (half >> 2) % 0x20;
    match ((half >> 10) % 4, (half >> 12) % 2, (half >> 5) % 4) {
        (0, 0, _) => Some(register_word(SRLI, rd, rd, amount)),
        (1, 0, _) => Some(register_word(SRAI, rd, rd, amount)),
        (2, _, _) => Some(immediate_word(ANDI, rd, rd, small_immediate(half))),
        (3, 0, 0) => Some(register_word(SUB, rd, rd, rs2)),
        (3, 0, 1) => Some(register_word(XOR, rd, rd, rs2)),
        (3, 0, 2) => Some(register_word(OR, rd, rd, rs2)),
        (3, 0, 3) => Some(register_word(AND, rd, rd, rs2)),
        _ => None,
    }
}

/// The parcels with low bits 01, by their high three bits.
fn expand_immediate(high: u32, half: u32) -> Option<u32>
    requires { high < 8 }
    ensures { result ≡ expanded_at 0b01 high half }
{
    let rd = (half >> 7) % 0x20;
    match high {
        0 => Some(immediate_word(ADDI, rd, rd, small_immediate(half))),
        1 => Some(jump_word(1, jump_immediate(half))),
        2 => Some(immediate_word(ADDI, rd, 0, small_immediate(half))),
        3 => expand_upper(half),
        4 => expand_register(half),
        5 => Some(jump_word(0, jump_immediate(half))),
        6 => Some(branch_word(BEQ, short_register(half, 7), branch_immediate(half))),
        7 => Some(branch_word(BNE, short_register(half, 7), branch_immediate(half))),
        _ => None,
    }
}

/// The parcels that jump to a register, move, add or break.
fn expand_jump(half: u32) -> Option<u32>
    ensures { result ≡ expanded_at 0b10 0b100 half }
{
    let rd = (half >> 7) % 0x20;
    let rs2 = (half >> 2) % 0x20;
    match ((half >> 12) % 2, rd, rs2) {
        (0, 0, 0) => None,
        (0, _, 0) => Some(immediate_word(JALR, 0, rd, 0)),
        (0, _, _) => Some(register_word(ADD, rd, 0, rs2)),
        (_, 0, 0) => Some(EBREAK),
        (_, _, 0) => Some(immediate_word(JALR, 1, rd, 0)),
        (_, _, _) => Some(register_word(ADD, rd, rd, rs2)),
    }
}

/// The parcels with low bits 10, by their high three bits.
fn expand_stack(high: u32, half: u32) -> Option<u32>
    ensures { result ≡ expanded_at 0b10 high half }
{
    let rd = (half >> 7) % 0x20;
    let rs2 = (half >> 2) % 0x20;
    match high {
        0 => {
            if (half >> 12) % 2 == 0 {
                Some(register_word(SLLI, rd, rd, rs2))
            } else {
                None
            }
        }
        2 => {
            if rd != 0 {
                Some(immediate_word(LW, rd, 2, stack_load_immediate(half)))
            } else {
                None
            }
        }
        4 => expand_jump(half),
        6 => Some(store_word(2, rs2, stack_store_immediate(half))),
        _ => None,
    }
}

/// The parcels, by their low two bits.
fn expand_parts(half: u16) -> Option<u32>
    ensures { result ≡ expanded half }
{
    let half = u32::from(half);
    let high = half >> 13;
    match half % 4 {
        0 => expand_memory(high, half),
        1 => expand_immediate(high, half),
        2 => expand_stack(high, half),
        _ => None,
    }
}

/// The word that a parcel stands for: that of the row which the parcel has, of which there is at most one. None exactly where the
/// parcel has no row. The word decodes to the operation and the operands of the row.
#[tactic(auto, using(crate::proofs::UniqueParcel::expanded_row, crate::proofs::UniqueParcel::expanded_none, crate::proofs::UniqueParcel::one_parcel_row, crate::proofs::RoundParcels::expanded_decodes, crate::proofs::RoundParcels::expanded_equivalent))]
pub fn expand(half: u16) -> Option<u32>
    ensures value { result ≡ expanded half }
    ensures row { (r : ParcelRow) → HasParcelRow half r → result ≡ Some (word_at half r) }
    ensures none { ((r : ParcelRow) → ¬ HasParcelRow half r) → result ≡ None }
    ensures unique { (r s : ParcelRow) → HasParcelRow half r → HasParcelRow half s → r ≡ s }
    ensures decodes { IfSome result (λ word. IsSome (decoded word)) }
    ensures equivalent { IfSome result (λ word. decoded word ≡ equivalent_of half) }
{
    expand_parts(half)
}

/// The length in bytes of the instruction whose first parcel this is: 4 where its low two bits are 11, else 2.
pub fn length(half: u16) -> u8
    ensures { result ≡ length_of half }
{
    if half % 4 == 3 { 4 } else { 2 }
}

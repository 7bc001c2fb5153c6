//! What a row does to its CSR.
ghost use Rattle.std.specs.Prelude.{◌≡◌};
ghost use Rattle.core_pair.specs.CsrRows.{changed_word, csr_change, csr_source, csr_word, csr_writes, is_made, takes_number};

use rv_decode::{CsrChange, Does, Format, Instr, Op, op_row};

/// The change that a row makes to its CSR. None exactly where it uses none.
fn csr_change(does: Does) -> Option<CsrChange>
    ensures { result ≡ csr_change does }
{
    match does {
        Does::UsesCsr(change) => Some(change),
        _ => None,
    }
}

/// Whether the operand of a CSR row of this format is a number of five bits, and not a register.
pub(crate) fn takes_number(format: Format) -> bool
    ensures { result ≡ takes_number format }
{
    matches!(format, Format::CsrNumber)
}

/// The word that a change makes of a CSR's.
fn changed_word(change: CsrChange, old: u32, operand: u32) -> u32
    ensures { result ≡ changed_word change old operand }
{
    match change {
        CsrChange::Replace => operand,
        CsrChange::SetBits => old | operand,
        CsrChange::ClearBits => old & !operand,
    }
}

/// The word that a CSR row writes.
pub(crate) fn csr_word(op: Op, old: u32, operand: u32) -> u32
    ensures { result ≡ csr_word op old operand }
{
    match csr_change(op_row(op).does) {
        Some(change) => changed_word(change, old, operand),
        None => old,
    }
}

/// Whether a change is made, by the five bits of its operand.
fn is_made(change: CsrChange, source: u32) -> bool
    ensures { result ≡ is_made change source }
{
    match change {
        CsrChange::Replace => true,
        CsrChange::SetBits | CsrChange::ClearBits => source != 0,
    }
}

/// The five bits that a CSR row has for its operand.
fn csr_source(i: &Instr) -> u32
    ensures { result ≡ csr_source i.now }
{
    if takes_number(op_row(i.op).format) {
        i.imm
    } else {
        u32::from(i.rs1)
    }
}

/// Whether a row writes its CSR.
pub(crate) fn writes_csr(i: &Instr) -> bool
    ensures { result ≡ csr_writes i.now }
{
    match csr_change(op_row(i.op).does) {
        Some(change) => is_made(change, csr_source(i)),
        None => false,
    }
}

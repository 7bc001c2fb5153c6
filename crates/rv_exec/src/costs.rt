//! How many cycles an instruction takes.

ghost use Rattle.std.specs.Prelude.{◌≡◌, ◌<◌, IsTrue};
ghost use Rattle.rv_exec.specs.Cost.{cost_of, kind_cycles, counts_amount, is_shift};

use rv_decode::{CostKind, Op, op_row};

/// Whether an operation is a shift.
pub fn is_shift(op: Op) -> bool
    ensures { result ≡ is_shift op }
{
    op_row(op).cost == CostKind::ByAmount
}

fn cycles(kind: CostKind, amount: u32, taken: bool) -> u32
    requires { IsTrue (counts_amount kind) → amount < 32 }
    ensures { result ≡ kind_cycles kind amount taken }
{
    match kind {
        CostKind::Simple => 2,
        CostKind::ByAmount => 3 + amount,
        CostKind::Multiply => 36,
        CostKind::ByTaken => { if taken { 6 } else { 3 } }
        CostKind::Transfer => 6,
        CostKind::Access => 5,
        CostKind::System => 3,
    }
}

/// The cycles of an instruction. `amount` is below 32 at a shift and counts there alone; `taken` counts for branches alone. A load
/// or store counts from its grant, and `ecall` and `ebreak` count the entry of their trap.
pub fn cost(op: Op, amount: u32, taken: bool) -> u32
    requires { IsTrue (is_shift op) → amount < 32 }
    ensures { result ≡ cost_of op amount taken }
{
    cycles(op_row(op).cost, amount, taken)
}

//! The branch rows.

ghost use Rattle.std.specs.Prelude.{◌≡◌, IsTrue};
ghost use Rattle.rv_exec.specs.Alu.{condition_holds, is_branch, taken_at};

use rv_decode::{BranchCondition, Does, Op, op_row};

/// Whether an operation is a branch row.
pub fn is_branch(op: Op) -> bool
    ensures { result ≡ is_branch op }
{
    matches!(op_row(op).does, Does::Branches(_))
}

fn holds(condition: BranchCondition, a: u32, b: u32) -> bool
    ensures { result ≡ condition_holds condition a b }
{
    match condition {
        BranchCondition::Equal => a == b,
        BranchCondition::NotEqual => a != b,
        BranchCondition::Less => a.cast_signed() < b.cast_signed(),
        BranchCondition::NotLess => a.cast_signed() >= b.cast_signed(),
        BranchCondition::LessUnsigned => a < b,
        BranchCondition::NotLessUnsigned => a >= b,
    }
}

/// Whether a branch is taken, at the values `a` and `b` of its two registers. `op` is a branch row.
pub fn branch(op: Op, a: u32, b: u32) -> bool
    requires { IsTrue (is_branch op) }
    ensures { result ≡ taken_at op a b }
{
    match op_row(op).does {
        Does::Branches(condition) => holds(condition, a, b),
        _ => unreachable!(),
    }
}

//! What printed texts are, and what they tell.
ghost use Rattle.std.specs.Prelude.{ℕ};
ghost use Rattle.trace_text.specs.Printed.{PrintsParcels, PrintsWords, TellsInstruction, TellsIssued};

/// Each row of the table of instructions prints its name and its operands by its format: so does a word with the row, and a parcel of
/// the table of parcels by the row of the instruction that it stands for.
///
/// Two instructions that were decoded from words and print alike at one address are the same instruction, and two issued words that
/// print alike there are the same instruction, or neither is one. What a text leaves out, decoding leaves out too: which word or parcel
/// of those with this meaning it was (a compressed one or not), and the fields of fence and fence.i that have no effect.
pub fn of_texts()
    ensures words { (pc : ℕ) → PrintsWords pc }
    ensures parcels { (pc : ℕ) → PrintsParcels pc }
    ensures instructions { (pc : ℕ) → TellsInstruction pc }
    ensures issued { (pc : ℕ) → TellsIssued pc }
{}

//! Which CSRs there are: their numbers, their values at reset, and what a write does to them.

/// A control and status register, by its name in the privileged manual.
#[derive(Clone, Copy)]
pub enum Csr {
    Mstatus,
    Misa,
    Mie,
    Mtvec,
    Mstatush,
    Mscratch,
    Mepc,
    Mcause,
    Mtval,
    Mip,
    Mcycle,
    Mcycleh,
    Minstret,
    Minstreth,
    Mvendorid,
    Marchid,
    Mimpid,
    Mhartid,
    Mconfigptr,
}

/// What a CSR holds at reset.
#[derive(Clone, Copy)]
pub enum ResetValue {
    /// This word.
    Word(u32),
    /// The number of the hart.
    HartNumber,
    /// What the interrupt lines give.
    InterruptLines,
}

/// What a write does to a CSR.
#[derive(Clone, Copy)]
pub enum WriteRule {
    /// It keeps the bits under this mask; all others are 0.
    Masked(u32),
    /// It keeps the bits under the first mask; of the others those of the second are 1.
    MaskedBeside(u32, u32),
    /// It keeps the whole word.
    Whole,
    /// It is ignored.
    Ignored,
    /// It is refused.
    ReadOnly,
}

/// A row of the table of CSRs.
#[derive(Clone, Copy)]
pub struct CsrRow {
    /// The number by which an instruction names it, below 4,096.
    pub number: u16,
    /// What it holds at reset.
    pub reset: ResetValue,
    /// What a write does.
    pub rule: WriteRule,
}

/// All CSRs.
const EVERY: [Csr; 19] = [
    Csr::Mstatus,
    Csr::Misa,
    Csr::Mie,
    Csr::Mtvec,
    Csr::Mstatush,
    Csr::Mscratch,
    Csr::Mepc,
    Csr::Mcause,
    Csr::Mtval,
    Csr::Mip,
    Csr::Mcycle,
    Csr::Mcycleh,
    Csr::Minstret,
    Csr::Minstreth,
    Csr::Mvendorid,
    Csr::Marchid,
    Csr::Mimpid,
    Csr::Mhartid,
    Csr::Mconfigptr,
];

impl ResetValue {
    ghost use Rattle.std.specs.Prelude.{◌≡◌};
    ghost use Rattle.csr_file.specs.Table.{reset_word};

    /// The word, for a hart of this number, where `mip` is what the interrupt lines give.
    pub(crate) fn word(self, hart: u8, mip: u32) -> u32
        ensures { result ≡ reset_word hart mip self }
    {
        match self {
            ResetValue::Word(word) => word,
            ResetValue::HartNumber => u32::from(hart),
            ResetValue::InterruptLines => mip,
        }
    }
}

impl WriteRule {
    ghost use Rattle.std.specs.Prelude.{◌≡◌};
    ghost use Rattle.csr_file.specs.Table.{allows_write, kept};

    /// What a CSR that held `old` holds after a write.
    #[tactic(auto, using(crate::proofs::Fixed::masked_twice, crate::proofs::Fixed::beside_twice))]
    pub(crate) fn kept(self, old: u32, value: u32) -> u32
        ensures value { result ≡ kept self old value }
        ensures fixed { kept self result result ≡ result }
    {
        match self {
            WriteRule::Masked(mask) => value & mask,
            WriteRule::MaskedBeside(mask, ones) => value & mask | ones,
            WriteRule::Whole => value,
            WriteRule::Ignored | WriteRule::ReadOnly => old,
        }
    }

    /// Whether a write is done or ignored, and not refused.
    pub(crate) fn allows_write(self) -> bool
        ensures { result ≡ allows_write self }
    {
        !matches!(self, WriteRule::ReadOnly)
    }
}

impl Csr {
    ghost use Rattle.std.specs.Prelude.{◌≡◌};
    ghost use Rattle.csr_file.specs.Table.{csr_at, csr_row};

    /// Its row of the table.
    pub fn row(self) -> CsrRow
        ensures { result ≡ csr_row self }
    {
        use ResetValue::{HartNumber, InterruptLines, Word};
        use WriteRule::{Ignored, Masked, MaskedBeside, ReadOnly, Whole};
        let (number, reset, rule) = match self {
            Csr::Mstatus => (0x300, Word(0x1800), MaskedBeside(0x88, 0x1800)),
            Csr::Misa => (0x301, Word(0x4000_1104), Ignored),
            Csr::Mie => (0x304, Word(0), Masked(0xffff_0888)),
            Csr::Mtvec => (0x305, Word(0), Masked(0xffff_fffd)),
            Csr::Mstatush => (0x310, Word(0), Ignored),
            Csr::Mscratch => (0x340, Word(0), Whole),
            Csr::Mepc => (0x341, Word(0), Masked(0xffff_fffe)),
            Csr::Mcause => (0x342, Word(0), Whole),
            Csr::Mtval => (0x343, Word(0), Whole),
            Csr::Mip => (0x344, InterruptLines, Ignored),
            Csr::Mcycle => (0xb00, Word(0), Whole),
            Csr::Mcycleh => (0xb80, Word(0), Whole),
            Csr::Minstret => (0xb02, Word(0), Whole),
            Csr::Minstreth => (0xb82, Word(0), Whole),
            Csr::Mvendorid => (0xf11, Word(0), ReadOnly),
            Csr::Marchid => (0xf12, Word(0x13), ReadOnly),
            Csr::Mimpid => (0xf13, Word(0x1_0000), ReadOnly),
            Csr::Mhartid => (0xf14, HartNumber, ReadOnly),
            Csr::Mconfigptr => (0xf15, Word(0), ReadOnly),
        };
        CsrRow {
            number,
            reset,
            rule,
        }
    }

    /// The CSR of a number. None exactly where the table has no such CSR.
    #[tactic(auto, unfolding(crate::specs::Table::csr_at))]
    pub fn at(number: u16) -> Option<Csr>
        ensures { result ≡ csr_at number }
    {
        first_with(number, &EVERY)
    }
}

ghost use Rattle.std.specs.Prelude.{◌≡◌, ◌==◌};
ghost use Rattle.std.specs.List.{find};
ghost use Rattle.csr_file.specs.Table.{csr_row};

/// The first of these CSRs that has a number.
fn first_with(number: u16, csrs: &[Csr]) -> Option<Csr>
    ensures { result ≡ find (λ c. (csr_row c).number == number) csrs.now }
{
    for csr in csrs {
        if csr.row().number == number {
            return Some(*csr);
        }
    }
    None
}

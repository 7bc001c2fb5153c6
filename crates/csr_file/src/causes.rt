//! Why a trap is entered.
ghost use Rattle.std.specs.Prelude.{◌≡◌};
ghost use Rattle.csr_file.specs.Causes.{cause_of};

/// An exception, by its name in the privileged manual.
#[derive(Clone, Copy)]
pub enum Exception {
    InstructionAccessFault,
    IllegalInstruction,
    Breakpoint,
    LoadAddressMisaligned,
    LoadAccessFault,
    StoreAddressMisaligned,
    StoreAccessFault,
    EnvironmentCall,
}

/// What the cause of an interrupt is above the number of its line.
pub(crate) const INTERRUPT: u32 = 0x8000_0000;

impl Exception {
    /// What mcause takes. It is below 2^31, where the causes of interrupts begin.
    pub fn cause(self) -> u32
        ensures { result ≡ cause_of self }
    {
        match self {
            Exception::InstructionAccessFault => 1,
            Exception::IllegalInstruction => 2,
            Exception::Breakpoint => 3,
            Exception::LoadAddressMisaligned => 4,
            Exception::LoadAccessFault => 5,
            Exception::StoreAddressMisaligned => 6,
            Exception::StoreAccessFault => 7,
            Exception::EnvironmentCall => 11,
        }
    }
}

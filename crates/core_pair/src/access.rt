//! Loads and stores: the request at issue, and the grant.
ghost use Rattle.std.specs.Prelude.{◌≡◌, ℕ, ◌%◌, ◌^◌, ◌<◌, IfErr, IfOk, IfSome, None, if◌then◌else◌};
ghost use Rattle.soc_bus.specs.declared.access.Width.TheVariants.{Byte, Half};
ghost use Rattle.core_pair.specs.Access.{extended, core_granted, load_awaited, load_request, access_exception, store_awaited, store_request};
ghost use Rattle.core_pair.specs.Core.{hart_of, wanted_in};
ghost use Rattle.core_pair.specs.GrantLaws.{AccessRetires, AccessTraps};

use crate::core_state::Core;
use crate::phase::{Awaited, Phase};
use csr_file::Exception;
use rv_decode::Instr;
use soc_bus::{BusFault, Request, Width};

/// The cycles that a load or store takes from its grant.
const ACCESS_CYCLES: u32 = 5;

/// A loaded byte as a word.
fn extended_byte(byte: u32, signed: bool) -> u32
    ensures { result ≡ extended Byte signed byte }
{
    let byte = byte & 0xff;
    if signed && byte >= 0x80 {
        byte + 0xffff_ff00
    } else {
        byte
    }
}

/// A loaded half as a word.
fn extended_half(half: u32, signed: bool) -> u32
    ensures { result ≡ extended Half signed half }
{
    let half = half & 0xffff;
    if signed && half >= 0x8000 {
        half + 0xffff_0000
    } else {
        half
    }
}

/// A loaded value as a word: its low bytes, sign-extended or with zeros above.
fn extend(width: Width, signed: bool, value: u32) -> u32
    ensures { result ≡ extended width signed value }
{
    match width {
        Width::Byte => extended_byte(value, signed),
        Width::Half => extended_half(value, signed),
        Width::Word => value,
    }
}

/// The exception of a refused load or store.
fn access_exception(is_store: bool, fault: BusFault) -> Exception
    ensures { result ≡ access_exception is_store fault }
{
    match (fault, is_store) {
        (BusFault::Misaligned, false) => Exception::LoadAddressMisaligned,
        (BusFault::Misaligned, true) => Exception::StoreAddressMisaligned,
        (BusFault::Unmapped | BusFault::Narrow, false) => Exception::LoadAccessFault,
        (BusFault::Unmapped | BusFault::Narrow, true) => Exception::StoreAccessFault,
    }
}

impl Core {
    /// Issues a load.
    pub(crate) fn want_load(&mut self, i: &Instr, next: u32, width: Width, signed: bool)
        requires rd { i.now.rd < 32 }
        requires rs1 { i.now.rs1 < 32 }
        requires next { next % 2 ≡ 0 }
        ensures { self.new ≡ record self.old { phase = Phase.Want (load_request (hart_of self.old) i.now width); awaited = load_awaited i.now next signed } }
    {
        let addr = self.register(i.rs1).wrapping_add(i.imm);
        self.phase = Phase::Want(Request {
            addr,
            width,
            store: None,
        });
        self.awaited = Awaited {
            rd: i.rd,
            signed,
            next,
        };
    }

    /// Issues a store.
    pub(crate) fn want_store(&mut self, i: &Instr, next: u32, width: Width)
        requires rs1 { i.now.rs1 < 32 }
        requires rs2 { i.now.rs2 < 32 }
        requires next { next % 2 ≡ 0 }
        ensures { self.new ≡ record self.old { phase = Phase.Want (store_request (hart_of self.old) i.now width); awaited = store_awaited next } }
    {
        let addr = self.register(i.rs1).wrapping_add(i.imm);
        self.phase = Phase::Want(Request {
            addr,
            width,
            store: Some(self.register(i.rs2)),
        });
        self.awaited = Awaited {
            rd: 0,
            signed: false,
            next,
        };
    }

    #[tactic(auto, unfolding(crate::specs::Access::core_granted))]
    fn resume(&mut self, answer: Result<u32, BusFault>)
        ensures { self.new ≡ core_granted self.old answer }
    {
        let Phase::Want(request) = self.phase else {
            return;
        };
        let awaited = self.awaited;
        match answer {
            Ok(value) => {
                let word = extend(request.width, awaited.signed, value);
                self.count_and_complete(awaited.rd, word, awaited.next, ACCESS_CYCLES);
            }
            Err(fault) => {
                let exception = access_exception(request.store.is_some(), fault);
                self.enter(exception.cause(), request.addr);
            },
        }
    }

    /// Gives the core the answer to the request that it waits for: at a load the value, with zeros above. The load or store retires,
    /// or, where it is refused, the core enters a trap. Without a request nothing changes.
    #[tactic(auto, using(crate::proofs::Grants::granted_retires, crate::proofs::Grants::granted_traps, crate::proofs::Grants::granted_unasked))]
    pub fn granted(&mut self, answer: Result<u32, BusFault>)
        ensures state { self.new ≡ core_granted self.old answer }
        ensures retires { IfSome (wanted_in self.old.phase) (λ r. IfOk answer (λ value. AccessRetires self.old self.new r value)) }
        ensures traps { IfSome (wanted_in self.old.phase) (λ r. IfErr answer (λ fault. AccessTraps self.old self.new r fault)) }
        ensures unasked { wanted_in self.old.phase ≡ None → self.new ≡ self.old }
    {
        let _invariant = &self.regs;
        self.resume(answer);
    }
}

//! A core's turn.
ghost use Rattle.std.specs.Prelude.{◌≡◌, ◌==◌, ℕ, ◌+◌, ◌-◌, ◌%◌, ◌^◌, ◌<◌, ◌&&◌, IsTrue, IfSome, if◌then◌else◌, None, ◌⊎◌, false, is_some, not, true};
ghost use Rattle.std.specs.Option.{option_and_then};
ghost use Rattle.rv_decode.specs.Rows.{decoded};
ghost use Rattle.rv_decode.specs.Parcels.{expanded};
ghost use Rattle.soc_words.specs.Word.{wrapped_sum};
ghost use Rattle.core_pair.specs.Core.{hart_of, wanted_in};
ghost use Rattle.core_pair.specs.Execute.{is_jump};
ghost use Rattle.core_pair.specs.Fetch.{fetched_at};
ghost use Rattle.core_pair.specs.Turn.{acted, issued_by, issued_from, running, sleeping, ticked, turned};
ghost use Rattle.core_pair.specs.TurnLaws.{NamesNoMcycle, acts, counts_turns, hart_after, is_whole, length_in, waited};
ghost use Rattle.csr_file.specs.Traps.{after_tick, pending_in};

use crate::core_state::Core;
use crate::fetch::{Fetched, fetch};
use crate::phase::Phase;
use chip_base::{Cycle, IssueRecord};
use csr_file::Exception;
use rv_decode::{Instr, decode, expand};
use soc_bus::Memory;

/// The instruction of a word.
#[tactic(auto, using(crate::proofs::Jumps::even_decoded))]
fn decode_word(word: u32) -> Option<Instr>
    ensures value { result ≡ decoded word }
    ensures registers { IfSome result (λ i. (i.rd < 32) × (i.rs1 < 32) × (i.rs2 < 32)) }
    ensures even { IfSome result (λ i. IsTrue (is_jump i.op) → i.imm % 2 ≡ 0) }
{
    decode(word)
}

/// The instruction of a compressed parcel.
fn decode_parcel(parcel: u16) -> Option<Instr>
    ensures value { result ≡ option_and_then decoded (expanded parcel) }
    ensures registers { IfSome result (λ i. (i.rd < 32) × (i.rs1 < 32) × (i.rs2 < 32)) }
    ensures even { IfSome result (λ i. IsTrue (is_jump i.op) → i.imm % 2 ≡ 0) }
{
    match expand(parcel) {
        Some(word) => decode_word(word),
        None => None,
    }
}

impl Core {
    fn record(&self, now: Cycle, word: u32) -> IssueRecord
        ensures { result ≡ record { cycle = now; hart = self.now.csrs.hart; pc = self.now.pc; word = word } }
    {
        IssueRecord {
            cycle: now,
            hart: self.csrs.hart(),
            pc: self.pc,
            word,
        }
    }

    /// Fetches an instruction and issues it.
    fn next(&mut self, now: Cycle, mip: u32, memory: &Memory) -> Option<IssueRecord>
        ensures after { self.new ≡ (issued_by self.old now mip (fetched_at memory.now self.old.pc)).after }
        ensures issued { result ≡ (issued_by self.old now mip (fetched_at memory.now self.old.pc)).issued }
    {
        match fetch(memory, self.pc) {
            Fetched::Absent(address) => {
                self.enter(Exception::InstructionAccessFault.cause(), address);
                None
            }
            Fetched::Parcel(parcel) => {
                let issued = self.record(now, u32::from(parcel));
                self.execute(decode_parcel(parcel), u32::from(parcel), 2, mip);
                Some(issued)
            }
            Fetched::Word(word) => {
                let issued = self.record(now, word);
                self.execute(decode_word(word), word, 4, mip);
                Some(issued)
            }
        }
    }

    /// Takes an interrupt, or else issues an instruction.
    #[tactic(auto, unfolding(crate::specs::Turn::acted))]
    fn act(&mut self, now: Cycle, mip: u32, memory: &Memory) -> Option<IssueRecord>
        ensures after { self.new ≡ (acted self.old now mip memory.now).after }
        ensures issued { result ≡ (acted self.old now mip memory.now).issued }
    {
        match self.csrs.pending(mip) {
            Some(cause) => {
                self.enter(cause, 0);
                None
            }
            None => self.next(now, mip, memory),
        }
    }

    fn run(&mut self, left: u32, now: Cycle, mip: u32, memory: &Memory) -> Option<IssueRecord>
        ensures after { self.new ≡ (running (ticked self.old) now mip memory.now left).after }
        ensures issued { result ≡ (running (ticked self.old) now mip memory.now left).issued }
    {
        self.csrs.tick();
        if left == 0 {
            return self.act(now, mip, memory);
        }
        self.phase = Phase::Run(left - 1);
        None
    }

    fn sleep_on(&mut self, left: u32, now: Cycle, mip: u32, memory: &Memory) -> Option<IssueRecord>
        ensures after { self.new ≡ (sleeping (ticked self.old) now mip memory.now left).after }
        ensures issued { result ≡ (sleeping (ticked self.old) now mip memory.now left).issued }
    {
        self.csrs.tick();
        if left > 0 {
            self.phase = Phase::Sleep(left - 1);
            return None;
        }
        if self.csrs.wakes(mip) {
            self.act(now, mip, memory)
        } else {
            None
        }
    }

    #[tactic(auto, unfolding(crate::specs::Turn::turned))]
    fn turn(&mut self, now: Cycle, mip: u32, memory: &Memory) -> Option<IssueRecord>
        ensures after { self.new ≡ (turned self.old now mip memory.now).after }
        ensures issued { result ≡ (turned self.old now mip memory.now).issued }
    {
        match self.phase {
            Phase::Run(left) => self.run(left, now, mip, memory),
            Phase::Want(_) => {
                self.csrs.tick();
                None
            }
            Phase::Sleep(left) => self.sleep_on(left, now, mip, memory),
            Phase::Parked | Phase::Monitor => None,
        }
    }

    /// The core's turn in the cycle `now`, where `mip` is what the interrupt lines give. An instruction is issued exactly where the
    /// core acts, takes no interrupt and finds all halves of the instruction; an illegal word counts as issued. None otherwise.
    /// mcycle adds one before the core acts, but where the core is parked or the monitor stands in its place: it doesn't change then.
    /// A turn in which the core doesn't act changes nothing but mcycle and how long the core still waits.
    #[tactic(auto, using(crate::proofs::Issues::recorded, crate::proofs::Waits::waiting, crate::proofs::Turns::issues, crate::proofs::Turns::waits, crate::proofs::Turns::counts), unfolding(crate::specs::Turn::turned))]
    pub fn issue(&mut self, now: Cycle, mip: u32, memory: &Memory) -> Option<IssueRecord>
        ensures after { self.new ≡ (turned self.old now mip memory.now).after }
        ensures issued { result ≡ (turned self.old now mip memory.now).issued }
        ensures issues { is_some result ≡ (acts self.old mip && (not (is_some (pending_in self.old.csrs mip)) && is_whole memory.now self.old.pc)) }
        ensures recorded { IfSome result (λ r. (r.cycle ≡ now) × (r.hart ≡ self.old.csrs.hart) × (r.pc ≡ self.old.pc)) }
        // it does to the hart what its row says, and where it wants an access it keeps the address to go on from
        ensures executes { IfSome result (λ r. (hart_of self.new ≡ hart_after (hart_of (ticked self.old)) mip (fetched_at memory.now self.old.pc)) × (IfSome (wanted_in self.new.phase) (λ request. self.new.awaited.next ≡ wrapped_sum self.old.pc (length_in (fetched_at memory.now self.old.pc))))) }
        ensures out { (self.old.phase ≡ Phase.Parked) ⊎ (self.old.phase ≡ Phase.Monitor) → (self.new ≡ self.old) × (result ≡ None) }
        ensures counts { IfSome result (λ r. NamesNoMcycle (fetched_at memory.now self.old.pc)) → self.new.csrs.mcycle ≡ (if counts_turns self.old.phase then (self.old.csrs.mcycle + 1) % 2 ^ 64 else self.old.csrs.mcycle) }
        ensures busy { acts self.old mip ≡ false → counts_turns self.old.phase ≡ true → self.new ≡ record self.old { csrs = after_tick self.old.csrs; phase = waited self.old.phase } }
        // until the grant of its access pc is the instruction's own, no register changes, and it isn't counted
        ensures waits { IfSome (wanted_in self.new.phase) (λ request. (self.new.pc ≡ self.old.pc) × (self.new.regs ≡ self.old.regs) × (self.new.csrs.minstret ≡ self.old.csrs.minstret)) }
    {
        self.turn(now, mip, memory)
    }
}

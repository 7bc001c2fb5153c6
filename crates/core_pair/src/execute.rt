//! What an instruction does, row by row.
ghost use Rattle.std.specs.Prelude.{◌≡◌, ◌==◌, ℕ, ◌-◌, ◌/◌, ◌%◌, ◌<◌, IsTrue, IfSome, slice_index};
ghost use Rattle.csr_file.specs.Table.{read_at};
ghost use Rattle.csr_file.specs.Traps.{returned};
ghost use Rattle.rv_exec.specs.Alu.{is_alu, is_branch};
ghost use Rattle.core_pair.specs.Core.{busy_after, hart_of};
ghost use Rattle.core_pair.specs.CsrRows.{csr_operand};
ghost use Rattle.core_pair.specs.Execute.{branched, by_row, computed, counted, csr_done, csr_written, cycles, executed, illegal, is_jump, second_operand};
ghost use Rattle.core_pair.specs.Hart.{retires};

use crate::core_state::Core;
use crate::csr_rows::{csr_word, takes_number, writes_csr};
use crate::phase::Phase;
use csr_file::{Csr, Exception};
use rv_decode::{Instr, Op, op_row};
use rv_exec::{alu, branch, cost, is_alu_immediate};
use soc_bus::Width;

/// The cycles of an instruction that is neither a shift nor a branch.
fn cycles(i: &Instr) -> u32
    ensures value { result ≡ cycles i.now }
    ensures some { 0 < result }
{
    cost(i.op, 0, false)
}

impl Core {
    /// An arithmetic row.
    fn compute(&mut self, i: &Instr, next: u32)
        requires rd { i.now.rd < 32 }
        requires rs1 { i.now.rs1 < 32 }
        requires rs2 { i.now.rs2 < 32 }
        requires row { IsTrue (is_alu i.now.op) }
        requires next { next % 2 ≡ 0 }
        ensures { self.new ≡ busy_after self.old (computed (hart_of self.old) i.now next) }
    {
        let first = self.register(i.rs1);
        let second = if is_alu_immediate(i.op) {
            i.imm
        } else {
            self.register(i.rs2)
        };
        let value = alu(i.op, first, second);
        self.count_and_complete(i.rd, value, next, cost(i.op, second % 32, false));
    }

    /// A branch row.
    fn branch(&mut self, i: &Instr, next: u32)
        requires rs1 { i.now.rs1 < 32 }
        requires rs2 { i.now.rs2 < 32 }
        requires row { IsTrue (is_branch i.now.op) }
        requires even { i.now.imm % 2 ≡ 0 }
        requires next { next % 2 ≡ 0 }
        ensures { self.new ≡ busy_after self.old (branched (hart_of self.old) i.now next) }
    {
        let taken = branch(i.op, self.register(i.rs1), self.register(i.rs2));
        let target = if taken {
            self.pc.wrapping_add(i.imm)
        } else {
            next
        };
        self.count_and_complete(0, 0, target, cost(i.op, 0, taken));
    }

    /// The operand of a CSR row.
    fn csr_operand(&self, i: &Instr) -> u32
        requires rs1 { i.now.rs1 < 32 }
        ensures { result ≡ csr_operand (hart_of self.now) i.now }
    {
        if takes_number(op_row(i.op).format) {
            i.imm
        } else {
            self.register(i.rs1)
        }
    }

    /// Counts an instruction that wrote a CSR, but for a write of minstret or minstreth.
    fn count_but(&mut self, number: u16)
        ensures { self.new ≡ record self.old { csrs = counted self.old.csrs number } }
    {
        match Csr::at(number) {
            Some(Csr::Minstret | Csr::Minstreth) => {}
            _ => self.csrs.retire(),
        }
    }

    /// An illegal instruction.
    fn trap_illegal(&mut self, word: u32)
        ensures { self.new ≡ busy_after self.old (illegal (hart_of self.old) word) }
    {
        self.enter(Exception::IllegalInstruction.cause(), word);
    }

    /// A CSR row that writes, where its CSR holds `old`.
    fn write_csr(&mut self, i: &Instr, word: u32, next: u32, old: u32)
        requires rd { i.now.rd < 32 }
        requires rs1 { i.now.rs1 < 32 }
        requires next { next % 2 ≡ 0 }
        ensures { self.new ≡ busy_after self.old (csr_written (hart_of self.old) i.now word next old) }
    {
        let value = csr_word(i.op, old, self.csr_operand(i));
        if self.csrs.write(i.csr, value) {
            self.count_but(i.csr);
            self.complete(i.rd, old, next, cycles(i));
        } else {
            self.trap_illegal(word);
        }
    }

    /// A CSR row.
    fn access_csr(&mut self, i: &Instr, word: u32, next: u32, mip: u32)
        requires rd { i.now.rd < 32 }
        requires rs1 { i.now.rs1 < 32 }
        requires next { next % 2 ≡ 0 }
        ensures { self.new ≡ busy_after self.old (csr_done (hart_of self.old) i.now word next (read_at self.old.csrs i.now.csr mip)) }
    {
        match self.csrs.read(i.csr, mip) {
            None => self.trap_illegal(word),
            Some(old) => {
                if writes_csr(i) {
                    self.write_csr(i, word, next, old);
                } else {
                    self.count_and_complete(i.rd, old, next, cycles(i));
                }
            }
        }
    }

    /// Returns from a trap.
    fn leave(&mut self, i: &Instr)
        ensures { self.new ≡ busy_after self.old (retires (record (hart_of self.old) { csrs = returned self.old.csrs }) 0 0 self.old.csrs.mepc (cycles i.now)) }
    {
        let target = self.csrs.mret();
        self.count_and_complete(0, 0, target, cycles(i));
    }

    /// Sleeps until an interrupt is pending.
    fn sleep(&mut self, i: &Instr, next: u32)
        requires next { next % 2 ≡ 0 }
        ensures { self.new ≡ record (busy_after self.old (retires (hart_of self.old) 0 0 next (cycles i.now))) { phase = Phase.Sleep (cycles i.now - 1) } }
    {
        let cycles = cycles(i);
        self.count_and_complete(0, 0, next, cycles);
        self.phase = Phase::Sleep(cycles - 1);
    }

    /// Does an instruction that was issued from `word`; `next` is the address after it.
    fn by_row(&mut self, i: &Instr, word: u32, next: u32, mip: u32)
        requires rd { i.now.rd < 32 }
        requires rs1 { i.now.rs1 < 32 }
        requires rs2 { i.now.rs2 < 32 }
        requires even { IsTrue (is_jump i.now.op) → i.now.imm % 2 ≡ 0 }
        requires next { next % 2 ≡ 0 }
        ensures { self.new ≡ by_row self.old i.now word next mip i.now.op }
    {
        match i.op {
            Op::Lui => self.count_and_complete(i.rd, i.imm, next, cycles(i)),
            Op::Auipc => self.count_and_complete(
                i.rd,
                self.pc.wrapping_add(i.imm),
                next,
                cycles(i),
            ),
            Op::Jal => self.count_and_complete(i.rd, next, self.pc.wrapping_add(i.imm), cycles(i)),
            Op::Jalr => {
                let target = self.register(i.rs1).wrapping_add(i.imm) / 2 * 2;
                self.count_and_complete(i.rd, next, target, cycles(i));
            }
            Op::Beq | Op::Bne | Op::Blt | Op::Bge | Op::Bltu | Op::Bgeu => self.branch(i, next),
            Op::Lb => self.want_load(i, next, Width::Byte, true),
            Op::Lh => self.want_load(i, next, Width::Half, true),
            Op::Lw => self.want_load(i, next, Width::Word, false),
            Op::Lbu => self.want_load(i, next, Width::Byte, false),
            Op::Lhu => self.want_load(i, next, Width::Half, false),
            Op::Sb => self.want_store(i, next, Width::Byte),
            Op::Sh => self.want_store(i, next, Width::Half),
            Op::Sw => self.want_store(i, next, Width::Word),
            Op::Fence | Op::FenceI => self.count_and_complete(0, 0, next, cycles(i)),
            Op::Csrrw | Op::Csrrs | Op::Csrrc | Op::Csrrwi | Op::Csrrsi | Op::Csrrci => {
                self.access_csr(i, word, next, mip);
            }
            Op::Ecall => self.enter(Exception::EnvironmentCall.cause(), 0),
            Op::Ebreak => self.enter(Exception::Breakpoint.cause(), self.pc),
            Op::Mret => self.leave(i),
            Op::Wfi => self.sleep(i, next),
            _ => self.compute(i, next),
        }
    }

    /// Does the instruction that was issued from `word`, which has so many bytes. Without a row it is illegal.
    #[tactic(auto, unfolding(crate::specs::Execute::executed))]
    pub(crate) fn execute(&mut self, instr: Option<Instr>, word: u32, length: u32, mip: u32)
        requires registers { IfSome instr (λ i. (i.rd < 32) × (i.rs1 < 32) × (i.rs2 < 32)) }
        requires even { IfSome instr (λ i. IsTrue (is_jump i.op) → i.imm % 2 ≡ 0) }
        requires length { length % 2 ≡ 0 }
        ensures { self.new ≡ executed self.old instr word length mip }
    {
        match instr {
            None => self.trap_illegal(word),
            Some(i) => self.by_row(&i, word, self.pc.wrapping_add(length), mip),
        }
    }
}

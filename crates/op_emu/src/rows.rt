//! The rows of the table of instructions that touch no stream, a function each.
ghost use Rattle.std.specs.Prelude.{◌≡◌, ◌*◌, ◌<◌, ◌^◌};
ghost use Rattle.op_rv.specs.Step.{act, word_from, offset_from};
ghost use Rattle.op_emu.specs.Acts.{RowIs};

use crate::{Hart, Right, Stepped};
use op_rv::operation::{alu, imm_operation, is_taken, shift};
use op_rv::{AluOp, BranchOp, FaultKind, ImmOp, Instr, LoadOp, ShiftOp, StoreOp};

/// A number with a sign as a word.
#[inline(always)]
pub(crate) fn word_of(number: i32) -> u32
    ensures { result ≡ word_from number }
{
    number.cast_unsigned()
}

/// The address at a distance from another; addresses wrap.
#[inline(always)]
pub(crate) fn address_at(from: u32, offset: i32) -> u32
    ensures { result ≡ offset_from from offset }
{
    from.wrapping_add(word_of(offset))
}

/// The word whose upper 20 bits are these.
#[inline(always)]
pub(crate) fn upper_value(upper: u32) -> u32
    requires { upper < 2 ^ 20 }
    ensures { result ≡ upper * 2 ^ 12 }
{
    upper << 12
}

impl Hart {
    #[inline(always)]
    #[tactic(auto, unfolding(op_rv::specs::Step::act))]
    pub(crate) fn lui(&mut self, rd: u8, upper: u32) -> Stepped
        requires rd { rd < 32 }
        requires upper { upper < 2 ^ 20 }
        ensures { RowIs (act (Instr.Lui rd upper)) result self.old self.new }
    {
        self.set(rd, upper_value(upper));
        Stepped::Went
    }

    #[inline(always)]
    #[tactic(auto, unfolding(op_rv::specs::Step::act))]
    pub(crate) fn auipc(&mut self, rd: u8, upper: u32) -> Stepped
        requires rd { rd < 32 }
        requires upper { upper < 2 ^ 20 }
        ensures { RowIs (act (Instr.Auipc rd upper)) result self.old self.new }
    {
        let value = self.pc.wrapping_add(upper_value(upper));
        self.set(rd, value);
        Stepped::Went
    }

    #[inline(always)]
    #[tactic(auto, unfolding(op_rv::specs::Step::act))]
    pub(crate) fn jal(&mut self, rd: u8, offset: i32) -> Stepped
        requires rd { rd < 32 }
        ensures { RowIs (act (Instr.Jal rd offset)) result self.old self.new }
    {
        let target = address_at(self.pc, offset);
        self.registers.set(rd, self.pc.wrapping_add(4));
        self.pc = target;
        Stepped::Went
    }

    /// The target is that of the old rs1, with bit 0 cleared.
    #[inline(always)]
    #[tactic(auto, unfolding(op_rv::specs::Step::act))]
    pub(crate) fn jalr(&mut self, rd: u8, rs1: u8, offset: i32) -> Stepped
        requires rd { rd < 32 }
        requires rs1 { rs1 < 32 }
        ensures { RowIs (act (Instr.Jalr rd rs1 offset)) result self.old self.new }
    {
        let target = address_at(self.registers.get(rs1), offset) / 2 * 2;
        self.registers.set(rd, self.pc.wrapping_add(4));
        self.pc = target;
        Stepped::Went
    }

    #[inline(always)]
    #[tactic(auto, unfolding(op_rv::specs::Step::act))]
    pub(crate) fn branch_on(&mut self, op: BranchOp, rs1: u8, rs2: u8, offset: i32) -> Stepped
        requires rs1 { rs1 < 32 }
        requires rs2 { rs2 < 32 }
        ensures { RowIs (act (Instr.Branch op rs1 rs2 offset)) result self.old self.new }
    {
        let a = self.registers.get(rs1);
        let b = self.registers.get(rs2);
        self.pc = if is_taken(op, a, b) {
            address_at(self.pc, offset)
        } else {
            self.pc.wrapping_add(4)
        };
        Stepped::Went
    }

    #[inline(always)]
    #[tactic(auto, unfolding(op_rv::specs::Step::act, op_rv::specs::Step::load))]
    pub(crate) fn load(&mut self, op: LoadOp, rd: u8, rs1: u8, offset: i32) -> Stepped
        requires rd { rd < 32 }
        requires rs1 { rs1 < 32 }
        ensures { RowIs (act (Instr.Load op rd rs1 offset)) result self.old self.new }
    {
        let at = address_at(self.registers.get(rs1), offset);
        if !self.memory.can_load(op, at) {
            return Stepped::Fault(FaultKind::Load, self.pc);
        }
        let value = self.memory.load(op, at);
        self.set(rd, value);
        Stepped::Went
    }

    #[inline(always)]
    #[tactic(auto, unfolding(op_rv::specs::Step::act, op_rv::specs::Step::store))]
    pub(crate) fn store(&mut self, op: StoreOp, rs1: u8, rs2: u8, offset: i32) -> Stepped
        requires rs1 { rs1 < 32 }
        requires rs2 { rs2 < 32 }
        ensures { RowIs (act (Instr.Store op rs1 rs2 offset)) result self.old self.new }
    {
        let at = address_at(self.registers.get(rs1), offset);
        if !self.memory.can_store(op, at) {
            return Stepped::Fault(FaultKind::Store, self.pc);
        }
        let value = self.registers.get(rs2);
        self.memory.store(op, at, value);
        self.pc = self.pc.wrapping_add(4);
        Stepped::Went
    }

    #[inline(always)]
    #[tactic(auto, unfolding(op_rv::specs::Step::act))]
    pub(crate) fn imm(&mut self, op: ImmOp, rd: u8, rs1: u8, imm: i32) -> Stepped
        requires rd { rd < 32 }
        requires rs1 { rs1 < 32 }
        ensures { RowIs (act (Instr.Imm op rd rs1 imm)) result self.old self.new }
    {
        let value = imm_operation(op, self.registers.get(rs1), word_of(imm));
        self.set(rd, value);
        Stepped::Went
    }

    #[inline(always)]
    #[tactic(auto, unfolding(op_rv::specs::Step::act))]
    pub(crate) fn shift(&mut self, op: ShiftOp, rd: u8, rs1: u8, amount: u8) -> Stepped
        requires rd { rd < 32 }
        requires rs1 { rs1 < 32 }
        requires amount { amount < 32 }
        ensures { RowIs (act (Instr.Shift op rd rs1 amount)) result self.old self.new }
    {
        let value = shift(op, self.registers.get(rs1), amount);
        self.set(rd, value);
        Stepped::Went
    }

    #[inline(always)]
    #[tactic(auto, unfolding(op_rv::specs::Step::act))]
    pub(crate) fn alu(&mut self, op: AluOp, rd: u8, rs1: u8, rs2: u8) -> Stepped
        requires rd { rd < 32 }
        requires rs1 { rs1 < 32 }
        requires rs2 { rs2 < 32 }
        ensures { RowIs (act (Instr.Alu op rd rs1 rs2)) result self.old self.new }
    {
        let a = self.registers.get(rs1);
        let b = self.registers.get(rs2);
        self.set(rd, alu(op, a, b));
        Stepped::Went
    }

    #[inline(always)]
    #[tactic(auto, unfolding(op_rv::specs::Step::act))]
    pub(crate) fn fence(&mut self, rd: u8, rs1: u8, bits: u32) -> Stepped
        ensures { RowIs (act (Instr.Fence rd rs1 bits)) result self.old self.new }
    {
        self.pc = self.pc.wrapping_add(4);
        Stepped::Went
    }

    #[inline(always)]
    #[tactic(auto, unfolding(op_rv::specs::Step::act))]
    pub(crate) fn ebreak(&self) -> Stepped
        ensures { RowIs (act Instr.Ebreak) result self.now self.now }
    {
        Stepped::Fault(FaultKind::Break, self.pc)
    }
}

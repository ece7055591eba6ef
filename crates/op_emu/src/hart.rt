//! The machine without its streams: registers, program counter and memory.
ghost use Rattle.std.specs.Prelude.{◌≡◌, ◌+◌, ◌%◌, ◌^◌, ◌<◌, ◌≤◌, IsTrue};
ghost use Rattle.op_rv.specs.Encoding.{fits};
ghost use Rattle.op_rv.specs.State.{Running};
ghost use Rattle.op_rv.specs.Step.{act, running_step, after};
ghost use Rattle.op_emu.specs.Acts.{streams, faults, moment, Fetches, Leads, StepIs, Rises};
ghost use Rattle.op_emu.specs.Registers.{with_value};

use crate::{Memory, Registers, Right, Stepped};
use op_base::{Sink, Source};
use op_rv::{FaultKind, Instr, decode};

/// A hardware thread.
#[derive(Drop)]
pub struct Hart {
    pub registers: Registers,
    pub pc: u32,
    pub memory: Memory,
    /// Whether the source has answered that it is at its end. It is not asked again.
    pub input_ended: bool,
}

impl Hart {
    /// Writes a register and goes on to the next instruction.
    #[inline(always)]
    pub(crate) fn set(&mut self, rd: u8, value: u32)
        requires { rd < 32 }
        ensures registers { self.new.registers.words ≡ with_value self.old.registers.words rd value }
        ensures pc { self.new.pc ≡ (self.old.pc + 4) % 2 ^ 32 }
        ensures memory { self.new.memory ≡ self.old.memory }
        ensures input { self.new.input_ended ≡ self.old.input_ended }
    {
        self.registers.set(rd, value);
        self.pc = self.pc.wrapping_add(4);
    }

    /// Does an instruction.
    #[inline(always)]
    fn perform<R: Source, W: Sink, E: Sink>(
        &mut self,
        i: Instr,
        input: &mut R,
        out: &mut W,
        err: &mut E,
    ) -> Stepped
        requires { IsTrue (fits i) }
        ensures acts { StepIs (act i) result self.old self.new
            (streams (R.left input.old) (R.left input.new) (W.written out.old) (W.written out.new) (E.written err.old) (E.written err.new))
            (faults (R.faults input.old) (R.faults input.new) (W.faults out.old) (W.faults out.new) (E.faults err.old) (E.faults err.new)) }
        ensures counts { Rises (faults (R.faults input.old) (R.faults input.new) (W.faults out.old) (W.faults out.new) (E.faults err.old) (E.faults err.new)) }
    {
        match i {
            Instr::Lui { rd, upper } => self.lui(rd, upper),
            Instr::Auipc { rd, upper } => self.auipc(rd, upper),
            Instr::Jal { rd, offset } => self.jal(rd, offset),
            Instr::Jalr { rd, rs1, offset } => self.jalr(rd, rs1, offset),
            Instr::Branch {
                op,
                rs1,
                rs2,
                offset,
            } => self.branch_on(op, rs1, rs2, offset),
            Instr::Load {
                op,
                rd,
                rs1,
                offset,
            } => self.load(op, rd, rs1, offset),
            Instr::Store {
                op,
                rs1,
                rs2,
                offset,
            } => self.store(op, rs1, rs2, offset),
            Instr::Imm { op, rd, rs1, imm } => self.imm(op, rd, rs1, imm),
            Instr::Shift {
                op,
                rd,
                rs1,
                amount,
            } => self.shift(op, rd, rs1, amount),
            Instr::Alu { op, rd, rs1, rs2 } => self.alu(op, rd, rs1, rs2),
            Instr::Fence { rd, rs1, bits } => self.fence(rd, rs1, bits),
            Instr::Ecall => self.call(input, out, err),
            Instr::Ebreak => self.ebreak(),
        }
    }

    /// The word at the pc, if it may be executed.
    #[inline(always)]
    fn fetch(&self) -> Option<u32>
        ensures { Fetches self.now result }
    {
        if self.pc % 4 == 0 {
            self.memory.allowed_word(Right::Execute, self.pc)
        } else {
            None
        }
    }

    /// Does at most so many steps over words that were decoded ahead, and answers how many. They touch no stream.
    pub(crate) fn glide(&mut self, most: u64) -> u64
        ensures bounded { result ≤ most }
        ensures leads { Leads (after result) self.old (moment self.new Running) }
    {
        let (done, pc) = self.memory.glide(self.pc, most, &mut self.registers);
        self.pc = pc;
        done
    }

    /// One step: fetches the word at the pc and does its row of the table.
    #[inline(always)]
    pub fn step<R: Source, W: Sink, E: Sink>(
        &mut self,
        input: &mut R,
        out: &mut W,
        err: &mut E,
    ) -> Stepped
        ensures acts { StepIs running_step result self.old self.new
            (streams (R.left input.old) (R.left input.new) (W.written out.old) (W.written out.new) (E.written err.old) (E.written err.new))
            (faults (R.faults input.old) (R.faults input.new) (W.faults out.old) (W.faults out.new) (E.faults err.old) (E.faults err.new)) }
        ensures counts { Rises (faults (R.faults input.old) (R.faults input.new) (W.faults out.old) (W.faults out.new) (E.faults err.old) (E.faults err.new)) }
    {
        match self.fetch() {
            Some(word) => match decode(word) {
                Some(i) => self.perform(i, input, out, err),
                None => Stepped::Fault(FaultKind::Illegal, self.pc),
            },
            None => Stepped::Fault(FaultKind::Fetch, self.pc),
        }
    }
}

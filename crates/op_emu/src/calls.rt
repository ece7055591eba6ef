//! The environment calls.
ghost use Rattle.std.specs.Prelude.{◌≡◌, ◌≤◌};
ghost use Rattle.op_rv.specs.Environment.{environment_call, write_call};
ghost use Rattle.op_emu.specs.Acts.{streams, faults, StepIs, ReadIs, WriteIs, Rises};
ghost use Rattle.op_emu.specs.Registers.{value_of};

use crate::fill::Filled;
use crate::{Hart, Right, Stepped};
use op_base::{Put, Sink, Source};
use op_rv::FaultKind;

/// The number of an environment call that reads.
const READ: u32 = 63;

/// The number of an environment call that writes.
const WRITE: u32 = 64;

/// The number of an environment call that ends the program.
const EXIT: u32 = 93;

impl Hart {
    /// The environment call that reads: descriptor 0 is the input.
    fn read<R: Source>(&mut self, input: &mut R) -> Stepped
        ensures acts { ReadIs result self.old self.new (R.left input.old) (R.left input.new) (R.faults input.old) (R.faults input.new) }
        ensures counts { R.faults input.old ≤ R.faults input.new }
    {
        match self.registers.get(10) {
            0 => self.read_input(input),
            _ => Stepped::Fault(FaultKind::Call, self.pc),
        }
    }

    /// Takes up to a2 bytes from the input to a1, and gives their number back. A source that has answered that it is at
    /// its end is not asked.
    fn read_input<R: Source>(&mut self, input: &mut R) -> Stepped
        requires { value_of self.old.registers.words 10 ≡ 0 }
        ensures acts { ReadIs result self.old self.new (R.left input.old) (R.left input.new) (R.faults input.old) (R.faults input.new) }
        ensures counts { R.faults input.old ≤ R.faults input.new }
    {
        let at = self.registers.get(11);
        let count = self.registers.get(12);
        if !self.memory.allows(Right::Write, at, count) {
            return Stepped::Fault(FaultKind::Store, self.pc);
        }
        if self.input_ended {
            self.set(10, 0);
            return Stepped::Went;
        }
        match self.memory.fill(at, count, input) {
            Filled::Whole => {
                self.set(10, count);
                Stepped::Went
            }
            Filled::Ended(taken) => {
                self.input_ended = true;
                self.set(10, taken);
                Stepped::Went
            }
            Filled::Failed => Stepped::ReadFault,
        }
    }

    /// Writes the a2 bytes at a1 to a sink, and gives their number back.
    fn write_to<S: Sink>(&mut self, to: &mut S) -> Stepped
        ensures acts { WriteIs result self.old self.new (S.written to.old) (S.written to.new) (S.faults to.old) (S.faults to.new) }
        ensures counts { S.faults to.old ≤ S.faults to.new }
    {
        let at = self.registers.get(11);
        let count = self.registers.get(12);
        if !self.memory.allows(Right::Read, at, count) {
            return Stepped::Fault(FaultKind::Load, self.pc);
        }
        match self.memory.put(at, count, to) {
            Put::Done => {
                self.set(10, count);
                Stepped::Went
            }
            Put::Failed => Stepped::WriteFault,
        }
    }

    /// The environment call that writes: descriptor 1 is the output and 2 the errors.
    fn write<R: Source, W: Sink, E: Sink>(
        &mut self,
        input: &mut R,
        out: &mut W,
        err: &mut E,
    ) -> Stepped
        ensures acts { StepIs write_call result self.old self.new
            (streams (R.left input.old) (R.left input.new) (W.written out.old) (W.written out.new) (E.written err.old) (E.written err.new))
            (faults (R.faults input.old) (R.faults input.new) (W.faults out.old) (W.faults out.new) (E.faults err.old) (E.faults err.new)) }
        ensures counts { Rises (faults (R.faults input.old) (R.faults input.new) (W.faults out.old) (W.faults out.new) (E.faults err.old) (E.faults err.new)) }
    {
        match self.registers.get(10) {
            1 => self.write_to(out),
            2 => self.write_to(err),
            _ => Stepped::Fault(FaultKind::Call, self.pc),
        }
    }

    /// An environment call.
    pub(crate) fn call<R: Source, W: Sink, E: Sink>(
        &mut self,
        input: &mut R,
        out: &mut W,
        err: &mut E,
    ) -> Stepped
        ensures acts { StepIs environment_call result self.old self.new
            (streams (R.left input.old) (R.left input.new) (W.written out.old) (W.written out.new) (E.written err.old) (E.written err.new))
            (faults (R.faults input.old) (R.faults input.new) (W.faults out.old) (W.faults out.new) (E.faults err.old) (E.faults err.new)) }
        ensures counts { Rises (faults (R.faults input.old) (R.faults input.new) (W.faults out.old) (W.faults out.new) (E.faults err.old) (E.faults err.new)) }
    {
        match self.registers.get(17) {
            READ => self.read(input),
            WRITE => self.write(input, out, err),
            EXIT => Stepped::Ended((self.registers.get(10) % 256) as u8),
            _ => Stepped::Fault(FaultKind::Call, self.pc),
        }
    }
}

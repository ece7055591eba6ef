//! The machine: a hart, how it stands and how many steps it has done.
ghost use Rattle.std.specs.Prelude.{◌≡◌, ◌≢◌, ℕ, ◌+◌, ◌-◌, ◌^◌, ◌<◌, ◌≤◌, ◌↔◌, IsTrue, if◌then◌else◌};
ghost use Rattle.op_rv.specs.State.{Running};
ghost use Rattle.op_rv.specs.Step.{step, after};
ghost use Rattle.op_emu.specs.Acts.{streams, faults, moment, Leads, StepIs, Rises};
ghost use Rattle.op_emu.specs.Runs.{one_more, is_done, stop_of, RunIs};

use crate::{Hart, Stepped, Stop};
use op_base::{Sink, Source};

/// A machine that an image was loaded into.
#[derive(Drop)]
pub struct Machine {
    pub(crate) hart: Hart,
    /// What the last step did. `Went` before the first one.
    pub(crate) last: Stepped,
    pub(crate) steps: u64,
}

/// The count of steps after one more, if it was done.
fn counted(steps: u64, done: bool) -> u64
    ensures { result ≡ (if done then one_more steps else steps) }
{
    if done { steps.saturating_add(1) } else { steps }
}

impl Machine {
    /// A machine before its first step, with this hart.
    pub fn new(hart: Hart) -> Machine
        ensures hart { result.hart ≡ hart }
        ensures ready { result.last ≡ Stepped.Went }
        ensures unstepped { result.steps ≡ 0 }
    {
        Machine {
            hart,
            last: Stepped::Went,
            steps: 0,
        }
    }

    /// How many steps were done: one that ended the program is counted, and one that faulted is not. The count stops at
    /// its greatest value, 2^64 - 1.
    pub fn steps(&self) -> u64
        ensures { result ≡ self.now.steps }
    {
        self.steps
    }

    /// Does one step. A machine that has stopped answers as before.
    pub fn step<R: Source, W: Sink, E: Sink>(
        &mut self,
        input: &mut R,
        out: &mut W,
        err: &mut E,
    ) -> Stepped
        ensures stands { self.new.last ≡ result }
        ensures counted { self.old.last ≡ Stepped.Went
            → self.new.steps ≡ (if is_done result then one_more self.old.steps else self.old.steps) }
        ensures acts { self.old.last ≡ Stepped.Went → StepIs step result self.old.hart self.new.hart
            (streams (R.left input.old) (R.left input.new) (W.written out.old) (W.written out.new) (E.written err.old) (E.written err.new))
            (faults (R.faults input.old) (R.faults input.new) (W.faults out.old) (W.faults out.new) (E.faults err.old) (E.faults err.new)) }
        ensures counts { Rises (faults (R.faults input.old) (R.faults input.new) (W.faults out.old) (W.faults out.new) (E.faults err.old) (E.faults err.new)) }

        // After it has stopped it changes nothing.
        ensures again { self.old.last ≢ Stepped.Went → self.new ≡ self.old }
        ensures again_input { self.old.last ≢ Stepped.Went → input.new ≡ input.old }
        ensures again_out { self.old.last ≢ Stepped.Went → out.new ≡ out.old }
        ensures again_err { self.old.last ≢ Stepped.Went → err.new ≡ err.old }
    {
        if !self.goes_on() {
            return self.last;
        }
        let stepped = self.hart.step(input, out, err);
        self.steps = counted(self.steps, stepped.is_done());
        self.last = stepped;
        stepped
    }

    /// Whether the machine has not ended, faulted or met a failing stream.
    fn goes_on(&self) -> bool
        ensures { IsTrue result ↔ (self.now.last ≡ Stepped.Went) }
    {
        matches!(self.last, Stepped::Went)
    }

    /// Does at most `n` steps. A machine that has stopped answers as before. Where the program has ended, the steps that were counted
    /// are the first number of them after which the machine of the definition has, and where the next step is a fault, the first number
    /// after which it is.
    pub fn run<R: Source, W: Sink, E: Sink>(
        &mut self,
        n: u64,
        input: &mut R,
        out: &mut W,
        err: &mut E,
    ) -> Stop
        ensures stands { result ≡ stop_of self.new.last }
        ensures runs { self.old.last ≡ Stepped.Went → RunIs n result self.old self.new
            (streams (R.left input.old) (R.left input.new) (W.written out.old) (W.written out.new) (E.written err.old) (E.written err.new))
            (faults (R.faults input.old) (R.faults input.new) (W.faults out.old) (W.faults out.new) (E.faults err.old) (E.faults err.new)) }
        ensures counts { Rises (faults (R.faults input.old) (R.faults input.new) (W.faults out.old) (W.faults out.new) (E.faults err.old) (E.faults err.new)) }

        // After it has stopped it changes nothing.
        ensures again { self.old.last ≢ Stepped.Went → self.new ≡ self.old }
        ensures again_input { self.old.last ≢ Stepped.Went → input.new ≡ input.old }
        ensures again_out { self.old.last ≢ Stepped.Went → out.new ≡ out.old }
        ensures again_err { self.old.last ≢ Stepped.Went → err.new ≡ err.old }
    {
        if !self.goes_on() {
            return self.last.stop();
        }
        let mut done = 0;
        while done < n {
            if self.steps == u64::MAX {
                return Stop::Spent;
            }
            let glided = self.glide(n - 1 - done);
            let stepped = self.step(input, out, err);
            if !self.goes_on() {
                return stepped.stop();
            }
            done += glided + 1;
        }
        Stop::Spent
    }

    /// Does at most so many steps that touch no stream, over words that were decoded ahead, and answers how many. The
    /// count of steps stays below its greatest value.
    fn glide(&mut self, most: u64) -> u64
        requires { self.old.steps < 2 ^ 64 - 1 }
        ensures bounded { result ≤ most }
        ensures counted { self.new.steps ≡ self.old.steps + result }
        ensures below { self.new.steps < 2 ^ 64 - 1 }
        ensures last { self.new.last ≡ self.old.last }
        ensures leads { Leads (after result) self.old.hart (moment self.new.hart Running) }
    {
        let done = self.hart.glide(most.min(u64::MAX - 1 - self.steps));
        self.steps += done;
        done
    }
}

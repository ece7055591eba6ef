//! The run of an image.
ghost use Rattle.std.specs.Prelude.{◌≡◌};
ghost use Rattle.op_emu.specs.Acts.{streams, faults, Rises};
ghost use Rattle.op_tool.specs.Effects.{Says};
ghost use Rattle.op_tool.specs.ImageRun.{OwesImage};
ghost use Rattle.op_tool.specs.Leaves.{RunsNothing};

use crate::Finish;
use crate::report::{report, report_bad_image, report_fault, report_no_memory};
use op_base::{Sink, Source};
use op_emu::{MachineError, Stop, load};
use std::alloc::Global;

/// Loads an image and runs it for at most so many steps. Once it runs no memory is taken.
pub(crate) fn run_image<R: Source, W: Sink, E: Sink>(
    alloc: Global,
    image: &[u8],
    steps: u64,
    input: &mut R,
    out: &mut W,
    err: &mut E,
) -> Finish
    ensures says { Says (OwesImage image.now steps (R.faults input.old) (R.faults input.new)) result
        (streams (R.left input.old) (R.left input.new) (W.written out.old) (W.written out.new) (E.written err.old) (E.written err.new))
        (faults (R.faults input.old) (R.faults input.new) (W.faults out.old) (W.faults out.new) (E.faults err.old) (E.faults err.new)) }
    ensures counts { Rises (faults (R.faults input.old) (R.faults input.new) (W.faults out.old) (W.faults out.new) (E.faults err.old) (E.faults err.new)) }
    ensures leaves_input { RunsNothing result (R.faults input.old) (R.faults input.new) → input.new ≡ input.old }
    ensures leaves_output { RunsNothing result (R.faults input.old) (R.faults input.new) → out.new ≡ out.old }
{
    match load(alloc, image) {
        Ok(mut machine) => match machine.run(steps, input, out, err) {
            Stop::Ended(status) => Finish::Ended(status),
            Stop::Spent => report(err, b"opc: step limit reached\n", Finish::Spent),
            Stop::Fault(kind, pc) => report_fault(kind, pc, err),
            Stop::ReadFault => report(err, b"opc: read fault\n", Finish::ReadFault),
            Stop::WriteFault => Finish::WriteFault,
        },
        Err(MachineError::NoMemory) => report_no_memory(err),
        Err(MachineError::Bad(condition)) => report_bad_image(alloc, condition, err),
    }
}

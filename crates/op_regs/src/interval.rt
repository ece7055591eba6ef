//! The intervals of registers.
ghost use Rattle.op_regs.specs.Intervals.{AreIntervals, HasMarksBelow, IsInterval, reaching as is_reaching};
ghost use Rattle.op_regs.specs.Lines.{starts_from};
ghost use Rattle.std.specs.Prelude.{◌≡◌, IfOk, length};

use crate::line::{lines_of, starts_of};
use crate::liveness::live_at;
use op_base::NoMemory;
use op_low::{Block, Routine, VirtualRegister};
use std::alloc::Global;

/// A run of positions, from its first to its last one.
#[derive(Clone, Copy)]
pub struct Interval {
    pub first: usize,
    pub last: usize,
}

/// A run with one more position behind it, if that has a mark.
fn reaching(mark: bool, position: usize, run: Option<Interval>) -> Option<Interval>
    ensures { result ≡ is_reaching mark position run }
{
    if !mark {
        return run;
    }
    let first = match run {
        None => position,
        Some(interval) => interval.first,
    };
    Some(Interval {
        first,
        last: position,
    })
}

/// The least run of positions that has all marks.
fn interval_in(marks: &[bool]) -> Option<Interval>
    ensures { HasMarksBelow marks.now (length marks.now) result }
{
    let mut run = None;
    for (position, mark) in marks.iter().enumerate() {
        run = reaching(*mark, position, run);
    }
    run
}

fn interval_of(
    alloc: Global,
    starts: &[usize],
    blocks: &[Block],
    register: VirtualRegister,
) -> Result<Option<Interval>, NoMemory>
    requires { starts.now ≡ starts_from 0 blocks.now }
    ensures { IfOk result (IsInterval blocks.now register) }
{
    let lines = lines_of(alloc, starts, register, blocks)?;
    let marks = live_at(alloc, lines.as_slice())?;
    Ok(interval_in(marks.as_slice()))
}

/// The interval of each register of a routine; of one that is live nowhere there is none. A register needs time for each
/// instruction, and that again for each loop within a loop.
pub fn intervals_of(alloc: Global, routine: &Routine) -> Result<Vec<Option<Interval>>, NoMemory>
    ensures { IfOk result (λ spans. AreIntervals routine.now.blocks routine.now.registers spans.items) }
{
    let blocks = routine.blocks.as_slice();
    let starts = starts_of(alloc, blocks)?;
    let mut spans = Vec::new(alloc);
    for number in 0..routine.registers {
        let register = VirtualRegister(number);
        spans.push(interval_of(alloc, starts.as_slice(), blocks, register)?)?;
    }
    Ok(spans)
}

//! Routines and programs.
ghost use Rattle.op_low.specs.declared.code.Block.{Block as BlockIn};
ghost use Rattle.op_optimize.specs.Each.{Each};
ghost use Rattle.op_optimize.specs.Optimizing.{Optimizes, OptimizesRoutine};
ghost use Rattle.op_optimize.specs.Simplifying.{BlockIs, BlocksAre, RoutineIs, SimplifiesBlock, nothing_of, simplified as simplified_of};
ghost use Rattle.std.specs.Prelude.{◌≡◌, ◌<◌, [], IfOk, IsTrue};

use crate::block::{Way, simplified};
use crate::dataflow::{is_closed, live_in};
use crate::liveness::WATCHED;
use crate::renaming::rename;
use op_base::{NoMemory, Sequence};
use op_low::{Block, Low, Routine, VirtualRegister};
use std::alloc::Global;

/// A block gone through in one way.
fn in_one_way(
    alloc: Global,
    live: &[u64],
    routine: &Routine,
    thorough: bool,
    block: &Block,
) -> Result<Option<Block>, NoMemory>
    ensures { IfOk result (BlockIs live.now routine.now block.now) }
{
    let way = Way {
        thorough,
        nothing: VirtualRegister(routine.registers),
    };
    match simplified(alloc, live, way, block.code.as_slice())? {
        None => Ok(None),
        Some(code) => Ok(Some(Block { code })),
    }
}

/// A block with fewer instructions, or as it is.
fn simplified_block(
    alloc: Global,
    live: &[u64],
    routine: &Routine,
    block: &Block,
) -> Result<Option<Block>, NoMemory>
    ensures { IfOk result (BlockIs live.now routine.now block.now) }
{
    match in_one_way(alloc, live, routine, true, block)? {
        Some(better) => Ok(Some(better)),
        None => in_one_way(alloc, live, routine, false, block),
    }
}

fn simplified_blocks(
    alloc: Global,
    live: &[u64],
    routine: &Routine,
) -> Result<Option<Sequence<Block>>, NoMemory>
    ensures { IfOk result (BlocksAre live.now routine.now routine.now.blocks) }
{
    let mut made = Vec::new(alloc);
    for block in routine.blocks.as_slice() {
        match simplified_block(alloc, live, routine, block)? {
            None => return Ok(None),
            Some(better) => made.push(better)?,
        }
    }
    Ok(Some(Sequence::from(made)))
}

/// A routine with simplified blocks.
fn simplified_routine(alloc: Global, routine: &Routine) -> Result<Option<Routine>, NoMemory>
    ensures { IfOk result (RoutineIs routine.now) }
{
    if WATCHED <= routine.registers {
        return Ok(None);
    }
    let live = live_in(alloc, routine)?;
    if !is_closed(live.as_slice(), routine) {
        return Ok(None);
    }
    match simplified_blocks(alloc, live.as_slice(), routine)? {
        None => Ok(None),
        Some(blocks) => Ok(Some(Routine {
            parameters: routine.parameters,
            registers: routine.registers + 1,
            locals: routine.locals,
            blocks,
        })),
    }
}

fn optimized(alloc: Global, routine: Routine) -> Result<Routine, NoMemory>
    ensures { IfOk result (OptimizesRoutine routine) }
{
    match simplified_routine(alloc, &routine)? {
        None => Ok(routine),
        Some(simple) => {
            let better = rename(alloc, simple)?;
            if better.registers <= routine.registers {
                Ok(better)
            } else {
                Ok(routine)
            }
        }
    }
}

fn optimized_routines(alloc: Global, routines: Sequence<Routine>) -> Result<Vec<Routine>, NoMemory>
    ensures { IfOk result (λ made. Each OptimizesRoutine routines made.items) }
{
    let mut made = Vec::new(alloc);
    for routine in routines.into_vec() {
        made.push(optimized(alloc, routine)?)?;
    }
    Ok(made)
}

/// A program that does the same in no more steps: moves, numbers and comparisons are taken where they are used, and the registers that are
/// used most come first, since those live in registers of the machine. `NoMemory` comes only where the allocator has no room.
pub fn optimize(alloc: Global, low: Low) -> Result<Low, NoMemory>
    ensures { IfOk result (Optimizes low) }
{
    let Low {
        routines,
        entry,
        counts,
        globals,
    } = low;
    let routines = optimized_routines(alloc, routines)?;
    Ok(Low {
        routines: Sequence::from(routines),
        entry,
        counts,
        globals,
    })
}

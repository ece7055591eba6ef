//! Routines.
ghost use Rattle.op_places.specs.Frames.{frame_of};
ghost use Rattle.op_expand.specs.Routines.{all_blocks, error_block, low_parameters, low_routine, routine_with};
ghost use Rattle.std.specs.Prelude.{◌≡◌, ◌∷◌, [], IfOk};

use crate::block::{overflow_block, push_blocks, push_error_blocks};
use crate::receive::push_beginning;
use crate::registers::registers_in;
use op_base::{NoMemory, Sequence};
use op_constants::Texts;
use op_core::{Core, RoutineId};
use op_mir::{Mir, Routine};
use op_places::{Frame, frame_of, parameters_of, sum};
use std::alloc::Global;

/// No stack has room for an activation that is charged more.
const MOST_CHARGE: u64 = 1 << 26;

/// The routine with this number, where these are the literals. What is charged more than any stack has ends with error 202 at once.
pub fn routine(
    alloc: Global,
    core: &Core,
    mir: &Mir,
    literals: &Texts,
    id: RoutineId,
    routine: &Routine,
) -> Result<op_low::Routine, NoMemory>
    ensures { IfOk result (λ low. low ≡ low_routine core.now mir.now literals.now id.0 routine.now) }
{
    let parameters = parameters_in(core, id)?;
    if MOST_CHARGE < routine.charge {
        let mut blocks = Vec::new(alloc);
        blocks.push(overflow_block(alloc)?)?;
        return routine_with(parameters, 0, blocks);
    }
    let frame = frame_of(alloc, core, id, routine)?;
    let blocks = all_blocks(alloc, core, mir, &frame, literals, id, routine)?;
    routine_with(parameters, frame.locals, blocks)
}

/// How many parameters it has in low code. The program itself takes nothing.
fn parameters_in(core: &Core, id: RoutineId) -> Result<u32, NoMemory>
    ensures { IfOk result (λ n. n ≡ low_parameters core.now id.0) }
{
    if id.0 as usize == core.routines.as_slice().len() {
        return Ok(0);
    }
    sum(2, parameters_of(core, id)?)
}

/// A routine with as many registers as its code names.
pub fn routine_with(
    parameters: u32,
    locals: u32,
    blocks: Vec<op_low::Block>,
) -> Result<op_low::Routine, NoMemory>
    ensures { IfOk result (λ low. low ≡ routine_with parameters locals blocks.items) }
{
    Ok(op_low::Routine {
        parameters,
        registers: registers_in(parameters, &blocks)?,
        locals,
        blocks: Sequence::from(blocks),
    })
}

fn all_blocks(
    alloc: Global,
    core: &Core,
    mir: &Mir,
    frame: &Frame,
    literals: &Texts,
    id: RoutineId,
    routine: &Routine,
) -> Result<Vec<op_low::Block>, NoMemory>
    requires { frame.now ≡ frame_of core.now id.0 routine.now }
    ensures { IfOk result (λ blocks. blocks.items ≡ all_blocks core.now mir.now literals.now id.0 routine.now) }
{
    let mut front = Vec::new(alloc);
    push_beginning(alloc, &mut front, core, frame, id)?;
    let mut blocks = Vec::new(alloc);
    push_blocks(
        alloc,
        &mut blocks,
        core,
        mir,
        frame,
        literals,
        front,
        routine.blocks.as_slice(),
    )?;
    push_error_blocks(alloc, &mut blocks)?;
    Ok(blocks)
}

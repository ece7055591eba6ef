//! The beginning of a routine: what it makes of what it was given.
ghost use Rattle.op_expand.specs.Routines.{all_received, beginning, begun_with_stack, received, received_number};
ghost use Rattle.std.specs.Prelude.{◌≡◌, ◌≤◌, ◌++◌, OnOk, length, take};

use crate::call::LEFT;
use op_base::NoMemory;
use op_constants::{is_composite, size_of};
use op_core::{Core, RoutineId, TypeId, Variable};
use op_low::Instruction;
use op_mir::{LocalId, Root};
use op_places::{
    Frame, Home, Returning, home_at, kind_of, parameter, parameters_of, push_address, push_load,
    push_store_to, push_taken, sum, variables_of,
};
use op_rv::{GlobalId, LoadOp, Symbol};
use std::alloc::Global;

/// A number that has an address, from the register in which it came.
fn push_received_number(
    code: &mut Vec<Instruction>,
    core: &Core,
    frame: &Frame,
    k: u32,
    of: TypeId,
) -> Result<(), NoMemory>
    ensures { OnOk result (code.new.items ≡ code.old.items ++ received_number core.now frame.now k of) }
{
    let root = Root::Local {
        variable: LocalId(k),
    };
    let free = frame.bank.scratch(0)?;
    push_store_to(
        code,
        core,
        frame,
        kind_of(core, of),
        parameter(k)?,
        root,
        &[],
        free,
    )
}

fn push_received(
    alloc: Global,
    code: &mut Vec<Instruction>,
    core: &Core,
    frame: &Frame,
    k: u32,
    variable: &Variable,
) -> Result<(), NoMemory>
    ensures { OnOk result (code.new.items ≡ code.old.items ++ received core.now frame.now k variable.now) }
{
    match home_at(frame.homes.as_slice(), LocalId(k)) {
        Home::Stored { .. } => {
            if is_composite(core, variable.of) {
                let size = size_of(core, variable.of);
                return push_taken(alloc, code, core, frame, parameter(k)?, size, LocalId(k));
            }
            push_received_number(code, core, frame, k, variable.of)
        }
        _ => Ok(()),
    }
}

fn push_all_received(
    alloc: Global,
    code: &mut Vec<Instruction>,
    core: &Core,
    frame: &Frame,
    parameters: &[Variable],
) -> Result<(), NoMemory>
    ensures { OnOk result (code.new.items ≡ code.old.items ++ all_received core.now frame.now 0 parameters.now) }
{
    let mut k = 0u32;
    for variable in parameters {
        push_received(alloc, code, core, frame, k, variable)?;
        k = sum(k, 1)?;
    }
    Ok(())
}

/// The program itself begins with all of the stack.
fn push_begun_with_stack(code: &mut Vec<Instruction>, core: &Core) -> Result<(), NoMemory>
    ensures { OnOk result (code.new.items ≡ code.old.items ++ begun_with_stack core.now) }
{
    let count = core.variables.as_slice().len();
    let id = GlobalId(u32::try_from(count).ok().ok_or(NoMemory)?);
    push_address(code, LEFT, Symbol::Global(id))?;
    push_load(code, LoadOp::Lw, LEFT, LEFT, 0)
}

/// So many rows from the beginning, if there are as many.
fn front(rows: &[Variable], count: usize) -> &[Variable]
    ensures { result.now ≡ take count rows.now }
{
    let (front, _) = rows.split_at(rows.len().min(count));
    front
}

/// What stands in front of a routine's first block.
pub fn push_beginning(
    alloc: Global,
    code: &mut Vec<Instruction>,
    core: &Core,
    frame: &Frame,
    routine: RoutineId,
) -> Result<(), NoMemory>
    ensures { OnOk result (code.new.items ≡ code.old.items ++ beginning core.now frame.now routine.0) }
{
    match frame.returning {
        Returning::Ending => push_begun_with_stack(code, core),
        _ => {
            let rows = core.variables.rows(variables_of(core, routine));
            let count = parameters_of(core, routine)? as usize;
            push_all_received(alloc, code, core, frame, front(rows, count))
        }
    }
}

//! Programs.
ghost use Rattle.op_expand.specs.Programs.{low_with, routine_without_code, routines_from, without_code};
ghost use Rattle.op_expand.specs.Routines.{low_routine};
ghost use Rattle.std.specs.Prelude.{◌≡◌, ◌∷◌, ◌++◌, [], IfOk, OnOk, length};

use crate::closing::{push_closing_routine, small};
use crate::global::globals;
use crate::routine::routine;
use op_base::{NoMemory, Sequence};
use op_constants::Texts;
use op_core::{Core, RoutineId};
use op_low::{Counts, Low};
use op_mir::{Mir, Routine};
use op_places::sum;
use op_rt_text::{RUNTIME, routines};
use std::alloc::Global;

/// A program in low code, of a program in managed code beside its tables, for a stack of so many bytes, where these are the literals. The
/// managed code of each routine is freed once low code is made of it. `NoMemory` comes only where the allocator has no room, or a number
/// would pass 32 bits.
pub fn expand(
    alloc: Global,
    core: &Core,
    mir: Mir,
    stack: u32,
    literals: &Texts,
) -> Result<Low, NoMemory>
    ensures { IfOk result (λ low. low ≡ low_with literals.now core.now mir stack) }
{
    let charges = without_code(alloc, &mir)?;
    expanded(alloc, core, &charges, mir, stack, literals)
}

fn expanded(
    alloc: Global,
    core: &Core,
    charges: &Mir,
    mir: Mir,
    stack: u32,
    literals: &Texts,
) -> Result<Low, NoMemory>
    requires { charges.now ≡ without_code mir }
    ensures { IfOk result (λ low. low ≡ low_with literals.now core.now mir stack) }
{
    let Mir {
        routines: list,
        program,
        ..
    } = mir;
    let mut low = routines(alloc)?;
    let id = push_routines(alloc, &mut low, core, charges, literals, list)?;
    push_routine(alloc, &mut low, core, charges, literals, id, program)?;
    push_closing_routine(alloc, &mut low, core, charges, stack)?;
    Ok(Low {
        routines: Sequence::from(low),
        entry: op_rv::RoutineId(sum(RUNTIME, id.0)?),
        counts: Counts {
            literals: small(literals.len())?,
            tables: 0,
            descriptors: 0,
        },
        globals: Sequence::from(globals(alloc, core, stack)?),
    })
}

/// The routines in order. The answer is the next number of a routine.
fn push_routines(
    alloc: Global,
    low: &mut Vec<op_low::Routine>,
    core: &Core,
    charges: &Mir,
    literals: &Texts,
    list: Sequence<Routine>,
) -> Result<RoutineId, NoMemory>
    ensures routines { OnOk result (low.new.items ≡ low.old.items ++ routines_from core.now charges.now literals.now 0 list) }
    ensures next { IfOk result (λ next. next.0 ≡ length list) }
{
    let mut id = RoutineId(0);
    for each in list.into_vec() {
        push_routine(alloc, low, core, charges, literals, id, each)?;
        id = RoutineId(sum(id.0, 1)?);
    }
    Ok(id)
}

/// The routine with this number.
fn push_routine(
    alloc: Global,
    low: &mut Vec<op_low::Routine>,
    core: &Core,
    charges: &Mir,
    literals: &Texts,
    id: RoutineId,
    each: Routine,
) -> Result<(), NoMemory>
    ensures { OnOk result (low.new.items ≡ low.old.items ++ low_routine core.now charges.now literals.now id.0 each ∷ []) }
{
    low.push(routine(alloc, core, charges, literals, id, &each)?)?;
    Ok(())
}

/// What calls read of a program: its routines with their charges, and no code.
fn without_code(alloc: Global, mir: &Mir) -> Result<Mir, NoMemory>
    ensures { IfOk result (λ charges. charges ≡ without_code mir.now) }
{
    let mut list = Vec::new(alloc);
    for each in mir.routines.as_slice() {
        list.push(routine_without_code(alloc, each))?;
    }
    Ok(Mir {
        routines: Sequence::from(list),
        program: routine_without_code(alloc, &mir.program),
        counts: mir.counts,
    })
}

fn routine_without_code(alloc: Global, routine: &Routine) -> Routine
    ensures { result ≡ routine_without_code routine.now }
{
    Routine {
        locals: routine.locals,
        temporaries: routine.temporaries,
        charge: routine.charge,
        blocks: Sequence::from(Vec::new(alloc)),
    }
}

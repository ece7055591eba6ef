//! Global variables.
ghost use Rattle.op_expand.specs.Programs.{global_of, global_with, globals_in, no_bytes, stack_global, with_global};
ghost use Rattle.std.specs.Option.{option_copied};
ghost use Rattle.std.specs.Prelude.{◌≡◌, ◌∷◌, ◌++◌, [], IfOk, OnOk, length, replicate, slice_set};

use crate::closing::small;
use op_base::{NoMemory, Sequence};
use op_constants::{are_zeros, first_bytes, size_of};
use op_core::{Core, Variable, VariableId};
use op_rv::GlobalVariable;
use std::alloc::Global;

/// So many zeros.
fn zeros(alloc: Global, count: u32) -> GlobalVariable
    ensures { result ≡ record { initial = []; zeros = count } }
{
    GlobalVariable {
        initial: Sequence::from(Vec::new(alloc)),
        zeros: count,
    }
}

fn with_bytes(bytes: Vec<u8>) -> GlobalVariable
    ensures { result ≡ record { initial = bytes.items; zeros = 0 } }
{
    GlobalVariable {
        initial: Sequence::from(bytes),
        zeros: 0,
    }
}

/// What begins with these bytes. What begins as zero has none of its own.
fn global_with(alloc: Global, bytes: Vec<u8>) -> Result<GlobalVariable, NoMemory>
    ensures { IfOk result (λ global. global ≡ global_with bytes.items) }
{
    if are_zeros(&bytes) {
        return Ok(zeros(alloc, small(bytes.len())?));
    }
    Ok(with_bytes(bytes))
}

/// A variable with what it begins with.
fn global(
    alloc: Global,
    core: &Core,
    variable: Option<&Variable>,
) -> Result<GlobalVariable, NoMemory>
    ensures { IfOk result (λ global. global ≡ global_of core.now (option_copied variable.entry)) }
{
    let Some(row) = variable else {
        return Ok(zeros(alloc, 0));
    };
    match &row.first_value {
        None => Ok(zeros(alloc, size_of(core, row.of))),
        Some(initial) => global_with(alloc, first_bytes(alloc, core, row.of, initial)?),
    }
}

fn empty_globals(alloc: Global, count: usize) -> Result<Vec<GlobalVariable>, NoMemory>
    ensures { IfOk result (λ globals. globals.items ≡ replicate count no_bytes) }
{
    let mut globals = Vec::new(alloc);
    for _row in 0..count {
        globals.push(zeros(alloc, 0))?;
    }
    Ok(globals)
}

/// Takes the place of another one, if that is there.
#[tactic(auto, using(std::proofs::lemmas::List::set_past))]
fn put(globals: &mut Vec<GlobalVariable>, place: usize, made: GlobalVariable)
    ensures { globals.new.items ≡ slice_set globals.old.items place made }
{
    if place < globals.len() {
        globals[place] = made;
    }
}

/// Puts a global variable at its number.
fn put_global(
    alloc: Global,
    core: &Core,
    globals: &mut Vec<GlobalVariable>,
    id: VariableId,
) -> Result<(), NoMemory>
    ensures { OnOk result (globals.new.items ≡ with_global core.now globals.old.items id) }
{
    let place = id.0 as usize;
    let made = global(alloc, core, core.variables.as_slice().get(place))?;
    put(globals, place, made);
    Ok(())
}

/// One for each row of the table of variables, with its number; rows that are no global variables have no bytes.
fn globals_in(alloc: Global, core: &Core) -> Result<Vec<GlobalVariable>, NoMemory>
    ensures { IfOk result (λ globals. globals.items ≡ globals_in core.now) }
{
    let mut globals = empty_globals(alloc, core.variables.as_slice().len())?;
    for id in core.globals.as_slice() {
        put_global(alloc, core, &mut globals, *id)?;
    }
    Ok(globals)
}

/// The global variables, and behind them the bytes of stack.
pub fn globals(alloc: Global, core: &Core, stack: u32) -> Result<Vec<GlobalVariable>, NoMemory>
    ensures { IfOk result (λ globals. globals.items ≡ globals_in core.now ++ stack_global stack ∷ []) }
{
    let mut globals = globals_in(alloc, core)?;
    let bytes = Vec::from_slice(alloc, &stack.to_le_bytes())?;
    globals.push(with_bytes(bytes))?;
    Ok(globals)
}

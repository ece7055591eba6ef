//! A whole program in managed code.
ghost use Rattle.std.specs.Prelude.{◌≡◌, ◌++◌, ◌∷◌, [], ℕ, IfOk, length};
ghost use Rattle.op_core.specs.declared.program.Core.{Core};
ghost use Rattle.op_items.specs.View.{items_view};
ghost use Rattle.op_meaning.specs.Shapes.{variables_of};
ghost use Rattle.op_mir.specs.Code.{becoming_due, blocks_of, entering, unit_code};
ghost use Rattle.op_lower.specs.Lowers.{AreRoutines, IsProgram, IsRoutine, Lowers};
ghost use Rattle.op_lower.specs.Seen.{seen, seen_blocks};
ghost use Rattle.op_lower.specs.Temporaries.{in_blocks};

use crate::blocks::Blocks;
use crate::exits::Exits;
use crate::instructions::Instructions;
use crate::{items, temporaries};
use op_base::{NoMemory, Sequence};
use op_core::{Core, RoutineId, Unit};
use op_items::{Item, routine_items};
use op_meaning::charge;
use op_mir::{Block, BlockId, Call, Counts, Instruction, Mir, Receiver, Routine};
use std::alloc::Global;

/// The managed code of a program: for each routine its blocks, how many variables and temporaries it has, and what an activation of it
/// is charged; and the code that enters the parts of the units.
pub fn lower(alloc: Global, core: &Core) -> Result<Mir, NoMemory>
    ensures { IfOk result (Lowers core.now) }
{
    let routines = routines(alloc, core)?;
    let program = program(alloc, core.units.as_slice())?;
    let counts = counts(core)?;
    Ok(Mir {
        routines,
        program,
        counts,
    })
}

// ---- routines

fn routines(alloc: Global, core: &Core) -> Result<Sequence<Routine>, NoMemory>
    ensures number { IfOk result (λ routines. length routines ≡ length core.now.routines) }
    ensures each { IfOk result (AreRoutines core.now) }
{
    let mut routines = Vec::new(alloc);
    for number in 0..core.routines.as_slice().len() {
        let number = number_of(number)?;
        routines.push(routine(alloc, core, RoutineId(number))?)?;
    }
    Ok(Sequence::from(routines))
}

fn routine(alloc: Global, core: &Core, id: RoutineId) -> Result<Routine, NoMemory>
    ensures { IfOk result (IsRoutine core.now id.0) }
{
    let items = routine_items(alloc, core, id)?;
    let blocks = blocks_of(alloc, items)?;
    let temporaries = temporaries(blocks.as_slice())?;
    Ok(Routine {
        locals: locals(core, id),
        temporaries,
        charge: charge(core, id),
        blocks,
    })
}

/// The blocks of a routine: the first one begins, and the second one returns.
fn blocks_of(alloc: Global, items: Vec<Item>) -> Result<Sequence<Block>, NoMemory>
    ensures { IfOk result (λ blocks. (core : Core) (r : ℕ) → seen_blocks core r blocks ≡ blocks_of (items_view core r items.items)) }
{
    let mut blocks = begin(alloc)?;
    let mut items = items;
    let mut now = Instructions::jump(alloc, BlockId(1))?;
    items::code(alloc, &mut blocks, &Exits::Routine, &mut items, &mut now)?;
    blocks.fill(BlockId(0), &mut now);
    Ok(blocks.into_sequence())
}

/// The two blocks that each routine has.
fn begin(alloc: Global) -> Result<Blocks, NoMemory>
    ensures { IfOk result (λ blocks. blocks ≡ record { code = [] } ∷ record { code = Instruction.Return ∷ [] } ∷ []) }
{
    let mut blocks = Blocks::new(alloc);
    blocks.reserve()?;
    let mut end = Instructions::none(alloc);
    end.put(Instruction::Return)?;
    blocks.put(end)?;
    Ok(blocks)
}

fn temporaries(blocks: &[Block]) -> Result<u32, NoMemory>
    ensures { IfOk result (λ count. count ≡ in_blocks blocks.now) }
{
    match u32::try_from(temporaries::in_blocks(blocks)) {
        Ok(count) => Ok(count),
        Err(_) => Err(NoMemory),
    }
}

/// How many variables the routine has. None where there is no such routine.
fn locals(core: &Core, id: RoutineId) -> u32
    ensures { result ≡ (variables_of core.now id.0).count }
{
    match core.routines.as_slice().get(id.0 as usize) {
        None => 0,
        Some(row) => row.variables.count,
    }
}

// ---- the program itself

/// The routine below all activations: it enters the initialization of each unit, and makes its finalization due.
fn program(alloc: Global, units: &[Unit]) -> Result<Routine, NoMemory>
    ensures { IfOk result (IsProgram units.now) }
{
    let mut code = Vec::new(alloc);
    for unit in units {
        begin_unit(alloc, &mut code, unit)?;
    }
    code.push(Instruction::Return)?;
    Ok(Routine {
        locals: 0,
        temporaries: 0,
        charge: 0,
        blocks: with_end(alloc, code)?,
    })
}

/// The code for a unit is put behind that of the others.
fn begin_unit(alloc: Global, code: &mut Vec<Instruction>, unit: &Unit) -> Result<(), NoMemory>
    ensures { IfOk result (λ _. (core : Core) (r : ℕ) → seen core r code.new.items ≡ seen core r code.old.items ++ unit_code unit.now) }
{
    enter(alloc, code, unit.initialization)?;
    make_due(code, unit.finalization)
}

fn enter(
    alloc: Global,
    code: &mut Vec<Instruction>,
    part: Option<RoutineId>,
) -> Result<(), NoMemory>
    ensures { IfOk result (λ _. (core : Core) (r : ℕ) → seen core r code.new.items ≡ seen core r code.old.items ++ entering part) }
{
    match part {
        None => Ok(()),
        Some(routine) => {
            let call = Call {
                given: Sequence::from(Vec::new(alloc)),
                receiver: Receiver::Nowhere,
                landing: None,
            };
            code.push(Instruction::Call { routine, call })?;
            Ok(())
        }
    }
}

fn make_due(code: &mut Vec<Instruction>, part: Option<RoutineId>) -> Result<(), NoMemory>
    ensures { IfOk result (λ _. (core : Core) (r : ℕ) → seen core r code.new.items ≡ seen core r code.old.items ++ becoming_due part) }
{
    match part {
        None => Ok(()),
        Some(finalization) => {
            code.push(Instruction::MakeDue { finalization })?;
            Ok(())
        }
    }
}

/// The block with this code, and the one that returns.
fn with_end(alloc: Global, code: Vec<Instruction>) -> Result<Sequence<Block>, NoMemory>
    ensures { IfOk result (λ blocks. blocks ≡ record { code = code.items } ∷ record { code = Instruction.Return ∷ [] } ∷ []) }
{
    let mut blocks = Vec::new(alloc);
    blocks.push(Block {
        code: Sequence::from(code),
    })?;
    let mut end = Vec::new(alloc);
    end.push(Instruction::Return)?;
    blocks.push(Block {
        code: Sequence::from(end),
    })?;
    Ok(Sequence::from(blocks))
}

// ---- numbers

fn counts(core: &Core) -> Result<Counts, NoMemory>
    ensures types { IfOk result (λ counts. counts.types ≡ length core.now.types) }
    ensures variables { IfOk result (λ counts. counts.variables ≡ length core.now.variables) }
{
    let types = number_of(core.types.as_slice().len())?;
    let variables = number_of(core.variables.as_slice().len())?;
    Ok(Counts { types, variables })
}

/// A number of 32 bits.
fn number_of(n: usize) -> Result<u32, NoMemory>
    ensures { IfOk result (λ number. number ≡ n) }
{
    match u32::try_from(n) {
        Ok(number) => Ok(number),
        Err(_) => Err(NoMemory),
    }
}

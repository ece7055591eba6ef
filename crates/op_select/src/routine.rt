//! Programs, routines and blocks.
ghost use Rattle.std.specs.Prelude.{◌≡◌, ◌≤◌, ◌∷◌, ◌++◌, [], IfOk, IsTrue, map, true};
ghost use Rattle.std.specs.List.{All};
ghost use Rattle.op_low.specs.Valid.{is_valid, is_valid_routine, most_registers};
ghost use Rattle.op_select.specs.Selection.{code_items, items_of, object_block_of, object_routine_of, select_of};
ghost use Rattle.op_low.specs.declared.instruction.Instruction.{Instruction};

use crate::frame::push_head;
use crate::instruction::{push_code, push_raise};
use op_base::{NoMemory, Sequence};
use op_low::{Block, Low, Routine};
use op_rv::{ObjectBlock, ObjectRoutine, Objects};
use std::alloc::Global;

/// The objects of a program in low code: for each routine its head, its blocks and a block that raises. The code of each
/// routine is freed once it is selected. `NoMemory` comes
/// only where the allocator has no room.
#[tactic(auto, unfolding(crate::specs::Selection::select_of))]
pub fn select(alloc: Global, low: Low) -> Result<Objects, NoMemory>
    requires { IsTrue (is_valid low) }
    ensures { IfOk result (λ o. o ≡ select_of low) }
{
    let Low {
        routines,
        entry,
        globals,
        ..
    } = low;
    let routines = object_routines(alloc, routines)?;
    Ok(Objects {
        routines: Sequence::from(routines),
        entry,
        globals,
    })
}

fn object_routines(alloc: Global, list: Sequence<Routine>) -> Result<Vec<ObjectRoutine>, NoMemory>
    requires { All (λ r. r.registers ≤ most_registers) list }
    ensures { IfOk result (λ routines. routines.items ≡ map object_routine_of list) }
{
    let mut routines = Vec::new(alloc);
    for routine in list.into_vec() {
        routines.push(object_routine(alloc, &routine)?)?;
    }
    Ok(routines)
}

#[tactic(auto, unfolding(crate::specs::Selection::object_routine_of))]
fn object_routine(alloc: Global, routine: &Routine) -> Result<ObjectRoutine, NoMemory>
    requires { routine.now.registers ≤ most_registers }
    ensures { IfOk result (λ o. o ≡ object_routine_of routine.now) }
{
    let mut head = Vec::new(alloc);
    push_head(&mut head, routine)?;
    head.shrink_to_fit();
    let mut blocks = object_blocks(alloc, routine)?;
    blocks.push(raise_stub(alloc, routine)?)?;
    Ok(ObjectRoutine {
        head: Sequence::from(head),
        blocks: Sequence::from(blocks),
    })
}

fn object_blocks(alloc: Global, routine: &Routine) -> Result<Vec<ObjectBlock>, NoMemory>
    requires { routine.now.registers ≤ most_registers }
    ensures { IfOk result (λ blocks. blocks.items ≡ map (object_block_of routine.now) routine.now.blocks) }
{
    let mut blocks = Vec::new(alloc);
    for block in routine.blocks.as_slice() {
        blocks.push(object_block(alloc, routine, block)?)?;
    }
    Ok(blocks)
}

#[tactic(auto, unfolding(crate::specs::Selection::object_block_of))]
fn object_block(alloc: Global, routine: &Routine, block: &Block) -> Result<ObjectBlock, NoMemory>
    requires { routine.now.registers ≤ most_registers }
    ensures { IfOk result (λ o. o ≡ object_block_of routine.now block.now) }
{
    let mut items = Vec::new(alloc);
    push_code(&mut items, routine, block.code.as_slice())?;
    items.shrink_to_fit();
    Ok(ObjectBlock {
        items: Sequence::from(items),
    })
}

/// The block that raises, for the calls with no landing.
fn raise_stub(alloc: Global, routine: &Routine) -> Result<ObjectBlock, NoMemory>
    requires { routine.now.registers ≤ most_registers }
    ensures { IfOk result (λ o. o ≡ record { items = items_of routine.now Instruction.Raise }) }
{
    let mut items = Vec::new(alloc);
    push_raise(&mut items, routine)?;
    items.shrink_to_fit();
    Ok(ObjectBlock {
        items: Sequence::from(items),
    })
}

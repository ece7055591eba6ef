//! Calls: how arguments are passed, and what stands behind a call.
ghost use Rattle.std.specs.Prelude.{◌≡◌, ◌≤◌, ◌+◌, ◌*◌, ◌%◌, ◌<◌, ◌^◌, ◌∷◌, ◌++◌, [], OnOk, length, min};
ghost use Rattle.op_low.specs.Valid.{most_registers};
ghost use Rattle.op_select.specs.Frames.{bring, fetch, operand, passed, passed_in_memory, passed_one};
ghost use Rattle.op_select.specs.Selection.{answered, landing_of, raise_block};
ghost use Rattle.op_select.specs.Sequences.{below};

use crate::frame::{operand, push_bring, push_fetch, push_keep};
use crate::registers::{A0, A1, RA, SP, X0};
use crate::sequence::{down, push_store};
use op_low::{Call, Routine, VirtualRegister};
use op_rv::{BlockId, BranchOp, Item};
use std::alloc::AllocError;

/// How far below sp an argument from the ninth on is stored. The caller's own code cannot have so many that it wraps.
fn argument_distance(k: usize) -> u32
    ensures { result ≡ below ((4 * k + 8) % 2 ^ 32) }
{
    let words = (k % (1 << 30)) as u32;
    down((4 * words).wrapping_add(8))
}

#[tactic(auto, unfolding(crate::specs::Frames::passed_in_memory))]
fn push_passed_in_memory(
    items: &mut Vec<Item>,
    routine: &Routine,
    k: usize,
    register: VirtualRegister,
) -> Result<(), AllocError>
    requires { routine.now.registers ≤ most_registers }
    ensures { OnOk result (items.new.items ≡ items.old.items ++ passed_in_memory routine.now k register) }
{
    push_bring(items, routine, A0, register)?;
    let value = operand(routine, A0, register);
    push_store(items, value, SP, RA, argument_distance(k))
}

#[tactic(auto, unfolding(crate::specs::Frames::passed_one))]
fn push_passed_one(
    items: &mut Vec<Item>,
    routine: &Routine,
    k: usize,
    register: VirtualRegister,
) -> Result<(), AllocError>
    requires { routine.now.registers ≤ most_registers }
    ensures { OnOk result (items.new.items ≡ items.old.items ++ passed_one routine.now k register) }
{
    if k < 8 {
        return push_fetch(items, routine, A0 + k as u8, register);
    }
    push_passed_in_memory(items, routine, k, register)
}

/// Passes the arguments, the last one first: those in memory need a0 on their way.
pub fn push_passed(
    items: &mut Vec<Item>,
    routine: &Routine,
    arguments: &[VirtualRegister],
) -> Result<(), AllocError>
    requires { routine.now.registers ≤ most_registers }
    ensures { OnOk result (items.new.items ≡ items.old.items ++ passed routine.now 0 arguments.now) }
{
    let mut k = arguments.len();
    while 0 < k {
        k -= 1;
        push_passed_one(items, routine, k, arguments[k])?;
    }
    Ok(())
}

/// The block behind the others of a routine, which raises.
#[tactic(auto, unfolding(crate::specs::Selection::raise_block))]
fn raising(routine: &Routine) -> BlockId
    ensures { result ≡ raise_block routine.now }
{
    let count = routine.blocks.as_slice().len();
    if count < u32::MAX as usize {
        BlockId(count as u32)
    } else {
        BlockId(u32::MAX)
    }
}

#[tactic(auto, unfolding(crate::specs::Selection::landing_of))]
fn landing(routine: &Routine, landing: Option<BlockId>) -> BlockId
    ensures { result ≡ landing_of routine.now landing }
{
    match landing {
        None => raising(routine),
        Some(block) => block,
    }
}

/// What stands behind a call: on to the landing where it raised, and otherwise its value is kept.
#[tactic(auto, unfolding(crate::specs::Selection::answered))]
pub fn push_answered(
    items: &mut Vec<Item>,
    routine: &Routine,
    call: &Call,
) -> Result<(), AllocError>
    requires { routine.now.registers ≤ most_registers }
    ensures { OnOk result (items.new.items ≡ items.old.items ++ answered routine.now call.now.to call.now.landing) }
{
    let raised = Item::Branch {
        op: BranchOp::Bne,
        left: A1,
        right: X0,
        block: landing(routine, call.landing),
    };
    items.push(raised)?;
    push_keep(items, routine, call.to, A0)
}

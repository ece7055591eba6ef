//! Branches by a number (Free Pascal Reference Guide, "The Case statement", "The If..then..else statement" and "Exceptions").
ghost use Rattle.op_compute.specs.Branches.{arm_code, arms_code, block_of, dispatch_code, false_code, label_code, labels_code, switch_code, true_code, way_code};
ghost use Rattle.op_compute.specs.Bank.{register_of, work_of};
ghost use Rattle.std.specs.Prelude.{◌≡◌, ◌++◌, OnOk};

use crate::instruction::{push_branch, push_const};
use crate::range::push_distance;
use crate::{Bank, Work};
use op_base::NoMemory;
use op_core::Label;
use op_low::{Instruction, VirtualRegister};
use op_mir::{Arm, BlockId, TemporaryId};
use op_rv::BranchOp;

/// The block of low code of the same number.
fn low_block(block: BlockId) -> op_rv::BlockId
    ensures { result ≡ block_of block }
{
    op_rv::BlockId(block.0)
}

/// To a block where a temporary is true.
#[tactic(auto, unfolding(crate::specs::Branches::true_code))]
pub fn branch_if_true(
    code: &mut Vec<Instruction>,
    bank: Bank,
    temporary: TemporaryId,
    block: BlockId,
) -> Result<(), NoMemory>
    ensures { OnOk result (code.new.items ≡ code.old.items ++ true_code (work_of bank) (register_of bank temporary) block) }
{
    let work = bank.work()?;
    let from = bank.temporary(temporary)?;
    push_const(code, work.first, 0)?;
    push_branch(code, BranchOp::Bne, from, work.first, low_block(block))
}

/// To a block where a temporary is false.
#[tactic(auto, unfolding(crate::specs::Branches::false_code))]
pub fn branch_if_false(
    code: &mut Vec<Instruction>,
    bank: Bank,
    temporary: TemporaryId,
    block: BlockId,
) -> Result<(), NoMemory>
    ensures { OnOk result (code.new.items ≡ code.old.items ++ false_code (work_of bank) (register_of bank temporary) block) }
{
    let work = bank.work()?;
    let from = bank.temporary(temporary)?;
    push_const(code, work.first, 0)?;
    push_branch(code, BranchOp::Beq, from, work.first, low_block(block))
}

/// To the block of the first arm that has the number of a temporary.
#[tactic(auto, unfolding(crate::specs::Branches::switch_code))]
pub fn switch(
    code: &mut Vec<Instruction>,
    bank: Bank,
    temporary: TemporaryId,
    arms: &[Arm],
) -> Result<(), NoMemory>
    ensures { OnOk result (code.new.items ≡ code.old.items ++ switch_code (work_of bank) (register_of bank temporary) arms.now) }
{
    let work = bank.work()?;
    let from = bank.temporary(temporary)?;
    push_arms(code, work, from, arms)?;
    push_const(code, work.first, 0)
}

#[tactic(auto, unfolding(crate::specs::Branches::arms_code, crate::specs::Branches::arm_code))]
fn push_arms(
    code: &mut Vec<Instruction>,
    work: Work,
    from: VirtualRegister,
    arms: &[Arm],
) -> Result<(), NoMemory>
    ensures { OnOk result (code.new.items ≡ code.old.items ++ arms_code work from arms.now) }
{
    for arm in arms {
        push_labels(
            code,
            work,
            from,
            low_block(arm.block),
            arm.labels.as_slice(),
        )?;
    }
    Ok(())
}

#[tactic(auto, unfolding(crate::specs::Branches::labels_code))]
fn push_labels(
    code: &mut Vec<Instruction>,
    work: Work,
    from: VirtualRegister,
    block: op_rv::BlockId,
    labels: &[Label],
) -> Result<(), NoMemory>
    ensures { OnOk result (code.new.items ≡ code.old.items ++ labels_code work from block labels.now) }
{
    for label in labels {
        push_label(code, work, from, block, *label)?;
    }
    Ok(())
}

#[tactic(auto, unfolding(crate::specs::Branches::label_code))]
fn push_label(
    code: &mut Vec<Instruction>,
    work: Work,
    from: VirtualRegister,
    block: op_rv::BlockId,
    label: Label,
) -> Result<(), NoMemory>
    ensures { OnOk result (code.new.items ≡ code.old.items ++ label_code work from block label) }
{
    if label.last < label.first {
        return Ok(());
    }
    if label.first == label.last {
        push_const(code, work.first, label.first.cast_unsigned())?;
        return push_branch(code, BranchOp::Beq, from, work.first, block);
    }
    let distance = push_distance(code, work.first, from, label.first)?;
    push_const(code, work.second, label.last.abs_diff(label.first))?;
    push_branch(code, BranchOp::Bgeu, work.second, distance, block)
}

/// Where the reason in a temporary is 1, 2 or 3, to so many blocks behind this one.
#[tactic(auto, unfolding(crate::specs::Branches::dispatch_code))]
pub fn dispatch(
    code: &mut Vec<Instruction>,
    bank: Bank,
    temporary: TemporaryId,
    block: BlockId,
) -> Result<(), NoMemory>
    ensures { OnOk result (code.new.items ≡ code.old.items ++ dispatch_code (work_of bank) (register_of bank temporary) block) }
{
    let work = bank.work()?;
    let from = bank.temporary(temporary)?;
    push_way(code, work, from, block, 1)?;
    push_way(code, work, from, block, 2)?;
    push_way(code, work, from, block, 3)
}

#[tactic(auto, unfolding(crate::specs::Branches::way_code))]
fn push_way(
    code: &mut Vec<Instruction>,
    work: Work,
    from: VirtualRegister,
    block: BlockId,
    reason: u32,
) -> Result<(), NoMemory>
    ensures { OnOk result (code.new.items ≡ code.old.items ++ way_code work from block reason) }
{
    let way = block.0.checked_add(reason).ok_or(NoMemory)?;
    push_const(code, work.first, reason)?;
    push_branch(code, BranchOp::Beq, from, work.first, op_rv::BlockId(way))
}

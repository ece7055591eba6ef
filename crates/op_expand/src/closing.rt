//! The closing: where a program with finalization parts ends.
ghost use Rattle.op_expand.specs.Calls.{closing_call, closing_number, due_code, due_word, ending_code, finalizations, has_closing, is_there, stop_code};
ghost use Rattle.op_expand.specs.Closing.{closing_blocks, closing_routine, closing_routines, count_code, due_for, find_code, finding_code, part_blocks, part_code};
ghost use Rattle.op_low.specs.declared.instruction.Instruction.{Instruction as LowInstruction};
ghost use Rattle.std.specs.Option.{option_to_list};
ghost use Rattle.std.specs.Prelude.{◌≡◌, ◌∷◌, ◌++◌, ◌+◌, [], IfOk, OnOk, length};

use crate::block::overflow_block;
use crate::call::{LEFT, charge_of};
use crate::routine::routine_with;
use op_base::{NoMemory, Sequence};
use op_compute::{push, push_alu, push_branch, push_const, push_immediate};
use op_core::{Core, RoutineId, Unit};
use op_low::{Block, Instruction, VirtualRegister};
use op_mir::Mir;
use op_places::{Frame, push_address, push_call, push_load, push_store, sum};
use op_rt_text::RUNTIME;
use op_rv::{AluOp, BlockId, BranchOp, GlobalId, ImmOp, LoadOp, StoreOp, Symbol};
use std::alloc::Global;

/// The status with which the program ends.
const STATUS: VirtualRegister = VirtualRegister(1);

/// How many parts are due, and the address of the word that tells it.
const DUE: VirtualRegister = VirtualRegister(2);

const NUMBER: VirtualRegister = VirtualRegister(3);

// ---- what a program has

fn is_finalized(unit: &Unit) -> bool
    ensures { result ≡ is_there unit.now.finalization }
{
    unit.finalization.is_some()
}

/// Whether a program has finalization parts.
fn has_closing(core: &Core) -> bool
    ensures { result ≡ has_closing core.now }
{
    core.units.as_slice().iter().any(|unit| is_finalized(unit))
}

fn add_part(parts: &mut Vec<RoutineId>, part: Option<RoutineId>) -> Result<(), NoMemory>
    ensures { OnOk result (parts.new.items ≡ parts.old.items ++ option_to_list part) }
{
    match part {
        None => Ok(()),
        Some(routine) => {
            parts.push(routine)?;
            Ok(())
        }
    }
}

/// The finalization parts, in the order in which they become due.
fn finalizations(alloc: Global, core: &Core) -> Result<Vec<RoutineId>, NoMemory>
    ensures { IfOk result (λ parts. parts.items ≡ finalizations core.now) }
{
    let mut parts = Vec::new(alloc);
    for unit in core.units.as_slice() {
        add_part(&mut parts, unit.finalization)?;
    }
    Ok(parts)
}

pub fn small(number: usize) -> Result<u32, NoMemory>
    ensures { IfOk result (λ n. n ≡ number) }
{
    u32::try_from(number).ok().ok_or(NoMemory)
}

/// The word that counts the parts that are due.
fn due_word(core: &Core) -> Result<Symbol, NoMemory>
    ensures { IfOk result (λ symbol. symbol ≡ due_word core.now) }
{
    let number = small(core.variables.as_slice().len())?;
    Ok(Symbol::Global(GlobalId(number)))
}

// ---- instructions

/// One part more is due.
pub fn push_due(code: &mut Vec<Instruction>, core: &Core, frame: &Frame) -> Result<(), NoMemory>
    ensures { OnOk result (code.new.items ≡ code.old.items ++ due_code core.now frame.now) }
{
    let word = frame.bank.scratch(0)?;
    let count = frame.bank.scratch(1)?;
    push_address(code, word, due_word(core)?)?;
    push_load(code, LoadOp::Lw, count, word, 0)?;
    push_immediate(code, ImmOp::Addi, count, count, 1)?;
    push_store(code, StoreOp::Sw, count, word, 0)
}

fn push_closing_call(
    alloc: Global,
    code: &mut Vec<Instruction>,
    core: &Core,
    status: VirtualRegister,
) -> Result<(), NoMemory>
    ensures { OnOk result (code.new.items ≡ code.old.items ++ closing_call core.now status ∷ []) }
{
    let program = sum(RUNTIME, small(core.routines.as_slice().len())?)?;
    let number = op_rv::RoutineId(sum(program, 1)?);
    let arguments = vec![in alloc; LEFT, status]?;
    push_call(code, number, arguments, LEFT)
}

pub fn push_exit(code: &mut Vec<Instruction>, status: VirtualRegister) -> Result<(), NoMemory>
    ensures { OnOk result (code.new.items ≡ code.old.items ++ LowInstruction.Exit status ∷ []) }
{
    push(code, Instruction::Exit { status })
}

/// The program ends with the status that is in the register.
pub fn push_stop(
    alloc: Global,
    code: &mut Vec<Instruction>,
    core: &Core,
    status: VirtualRegister,
) -> Result<(), NoMemory>
    ensures { OnOk result (code.new.items ≡ code.old.items ++ stop_code core.now status) }
{
    if has_closing(core) {
        return push_closing_call(alloc, code, core, status);
    }
    let to = LEFT;
    push(code, Instruction::Move { to, from: status })?;
    push_exit(code, LEFT)
}

/// The program itself returns.
pub fn push_ending(
    alloc: Global,
    code: &mut Vec<Instruction>,
    core: &Core,
    frame: &Frame,
) -> Result<(), NoMemory>
    ensures { OnOk result (code.new.items ≡ code.old.items ++ ending_code core.now frame.now) }
{
    if has_closing(core) {
        let status = frame.bank.scratch(0)?;
        push_const(code, status, 0)?;
        push_closing_call(alloc, code, core, status)?;
        return push_exit(code, LEFT);
    }
    push_const(code, LEFT, 0)?;
    push_exit(code, LEFT)
}

// ---- the routine

/// What the word is where so many parts are due.
fn due_for(stack: u32, parts: u32) -> u32
    ensures { result ≡ due_for stack parts }
{
    stack.wrapping_add(parts)
}

/// To the block of the last part that is due.
fn push_find(code: &mut Vec<Instruction>, stack: u32, parts: u32) -> Result<(), NoMemory>
    ensures { OnOk result (code.new.items ≡ code.old.items ++ find_code stack parts) }
{
    if parts == 0 {
        return push_exit(code, STATUS);
    }
    push_const(code, NUMBER, due_for(stack, parts))?;
    push_branch(code, BranchOp::Beq, DUE, NUMBER, BlockId(parts))?;
    push_find(code, stack, parts - 1)
}

fn finding_block(alloc: Global, core: &Core, stack: u32, parts: u32) -> Result<Block, NoMemory>
    ensures { IfOk result (λ block. block ≡ record { code = finding_code core.now stack parts }) }
{
    let mut code = Vec::new(alloc);
    push_address(&mut code, DUE, due_word(core)?)?;
    push_load(&mut code, LoadOp::Lw, DUE, DUE, 0)?;
    push_find(&mut code, stack, parts)?;
    Ok(Block {
        code: Sequence::from(code),
    })
}

/// The word that counts the parts that are due gets another value.
fn push_count(code: &mut Vec<Instruction>, core: &Core, count: u32) -> Result<(), NoMemory>
    ensures { OnOk result (code.new.items ≡ code.old.items ++ count_code core.now count) }
{
    push_address(code, DUE, due_word(core)?)?;
    push_const(code, NUMBER, count)?;
    push_store(code, StoreOp::Sw, NUMBER, DUE, 0)
}

fn part_block(
    alloc: Global,
    core: &Core,
    mir: &Mir,
    stack: u32,
    parts: u32,
    before: u32,
    part: RoutineId,
) -> Result<Block, NoMemory>
    ensures { IfOk result (λ block. block ≡ record { code = part_code core.now mir.now stack parts before part }) }
{
    let mut code = Vec::new(alloc);
    push_count(&mut code, core, due_for(stack, before))?;
    push_const(&mut code, NUMBER, charge_of(mir, part))?;
    push_branch(
        &mut code,
        BranchOp::Bltu,
        LEFT,
        NUMBER,
        BlockId(sum(parts, 1)?),
    )?;
    push_alu(&mut code, AluOp::Sub, NUMBER, LEFT, NUMBER)?;
    let number = op_rv::RoutineId(sum(RUNTIME, part.0)?);
    push_call(&mut code, number, vec![in alloc; NUMBER, LEFT]?, NUMBER)?;
    push(&mut code, Instruction::Jump { block: BlockId(0) })?;
    Ok(Block {
        code: Sequence::from(code),
    })
}

fn push_parts(
    alloc: Global,
    blocks: &mut Vec<Block>,
    core: &Core,
    mir: &Mir,
    stack: u32,
    count: u32,
    parts: &[RoutineId],
) -> Result<(), NoMemory>
    ensures { OnOk result (blocks.new.items ≡ blocks.old.items ++ part_blocks core.now mir.now stack count 0 parts.now) }
{
    let mut before = 0u32;
    for part in parts {
        blocks.push(part_block(alloc, core, mir, stack, count, before, *part)?)?;
        before = sum(before, 1)?;
    }
    Ok(())
}

fn closing_routine(
    alloc: Global,
    core: &Core,
    mir: &Mir,
    stack: u32,
) -> Result<op_low::Routine, NoMemory>
    ensures { IfOk result (λ low. low ≡ closing_routine core.now mir.now stack) }
{
    let parts = finalizations(alloc, core)?;
    let count = small(parts.len())?;
    let mut blocks = Vec::new(alloc);
    blocks.push(finding_block(alloc, core, stack, count)?)?;
    push_parts(alloc, &mut blocks, core, mir, stack, count, &parts)?;
    blocks.push(overflow_block(alloc)?)?;
    routine_with(2, 0, blocks)
}

/// The closing stands behind all other routines, in a program that has it.
pub fn push_closing_routine(
    alloc: Global,
    low: &mut Vec<op_low::Routine>,
    core: &Core,
    mir: &Mir,
    stack: u32,
) -> Result<(), NoMemory>
    ensures { OnOk result (low.new.items ≡ low.old.items ++ closing_routines core.now mir.now stack) }
{
    if has_closing(core) {
        low.push(closing_routine(alloc, core, mir, stack)?)?;
    }
    Ok(())
}

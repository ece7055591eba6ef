//! The items of each instruction of low code.
ghost use Rattle.std.specs.Prelude.{◌≡◌, ◌≤◌, ◌-◌, ◌∷◌, ◌++◌, [], OnOk};
ghost use Rattle.op_low.specs.Valid.{most_registers};
ghost use Rattle.op_select.specs.Frames.{bring, epilogue, fetch, keep, operand, passed, put};
ghost use Rattle.op_select.specs.Selection.{answered, code_items, computed, descriptor_of, items_of, target, transfer};
ghost use Rattle.op_select.specs.Sequences.{below, constant, small, sum};

use crate::call::{push_answered, push_passed};
use crate::frame::{operand, push_bring, push_epilogue, push_fetch, push_keep, push_put};
use crate::registers::{A0, A1, A2, A7, RA, S0};
use crate::sequence::{down, push, push_constant, push_item, push_small, push_sum};
use op_low::{Call, Instruction, Output, Routine, VirtualRegister};
use op_rv::{
    AluOp, BlockId, BranchOp, ImmOp, Instr, Item, LoadOp, RoutineId, ShiftOp, StoreOp, Symbol,
};
use std::alloc::AllocError;

/// The numbers of the environment calls.
const READ: u8 = 63;

const WRITE: u8 = 64;

const EXIT: u8 = 93;

/// Appends the items of instructions, one after the other.
#[tactic(auto, unfolding(crate::specs::Selection::code_items))]
pub fn push_code(
    items: &mut Vec<Item>,
    routine: &Routine,
    code: &[Instruction],
) -> Result<(), AllocError>
    requires { routine.now.registers ≤ most_registers }
    ensures { OnOk result (items.new.items ≡ items.old.items ++ code_items routine.now code.now) }
{
    for instruction in code {
        push_instruction(items, routine, instruction)?;
    }
    Ok(())
}

#[tactic(auto, unfolding(crate::specs::Selection::items_of))]
fn push_instruction(
    items: &mut Vec<Item>,
    routine: &Routine,
    instruction: &Instruction,
) -> Result<(), AllocError>
    requires { routine.now.registers ≤ most_registers }
    ensures { OnOk result (items.new.items ≡ items.old.items ++ items_of routine.now instruction.now) }
{
    match instruction {
        Instruction::Const { to, value } => push_const(items, routine, *to, *value),
        Instruction::Address { to, symbol } => push_address(items, routine, *to, *symbol),
        Instruction::Local { to, offset } => push_local(items, routine, *to, *offset),
        Instruction::Move { to, from } => push_move(items, routine, *to, *from),
        Instruction::Alu {
            op,
            to,
            left,
            right,
        } => push_alu(items, routine, *op, *to, *left, *right),
        Instruction::AluImm { op, to, left, imm } => {
            push_immediate(items, routine, *op, *to, *left, *imm)
        }
        Instruction::Shift {
            op,
            to,
            left,
            amount,
        } => push_shift(items, routine, *op, *to, *left, *amount),
        Instruction::Load {
            op,
            to,
            base,
            offset,
        } => push_load_from(items, routine, *op, *to, *base, *offset),
        Instruction::Store {
            op,
            value,
            base,
            offset,
        } => push_store_to(items, routine, *op, *value, *base, *offset),
        Instruction::Call { routine: id, call } => push_call(items, routine, *id, call),
        Instruction::CallAt { address, call } => push_call_at(items, routine, *address, call),
        Instruction::Branch {
            op,
            left,
            right,
            block,
        } => push_branch(items, routine, *op, *left, *right, *block),
        Instruction::Jump { block } => push_item(items, Item::Jump { block: *block }),
        Instruction::Return { value } => push_return(items, routine, *value),
        Instruction::Raise => push_raise(items, routine),
        Instruction::Read { to, buffer, length } => {
            push_read(items, routine, *to, *buffer, *length)
        }
        Instruction::Write {
            output,
            buffer,
            length,
        } => push_write(items, routine, *output, *buffer, *length),
        Instruction::Exit { status } => push_exit(items, routine, *status),
    }
}

/// The register that a result is written to.
fn target(routine: &Routine, to: VirtualRegister) -> u8
    requires { routine.now.registers ≤ most_registers }
    ensures { result ≡ target routine.now to }
{
    operand(routine, A0, to)
}

/// A virtual register becomes what an instruction makes of another one.
fn push_computed(
    items: &mut Vec<Item>,
    routine: &Routine,
    from: VirtualRegister,
    instr: Instr,
    to: VirtualRegister,
) -> Result<(), AllocError>
    requires { routine.now.registers ≤ most_registers }
    ensures { OnOk result (items.new.items ≡ items.old.items ++ computed routine.now from instr to) }
{
    push_bring(items, routine, A0, from)?;
    push(items, instr)?;
    push_put(items, routine, to)
}

#[tactic(auto, unfolding(crate::specs::Selection::items_of))]
fn push_immediate(
    items: &mut Vec<Item>,
    routine: &Routine,
    op: ImmOp,
    to: VirtualRegister,
    left: VirtualRegister,
    imm: i32,
) -> Result<(), AllocError>
    requires { routine.now.registers ≤ most_registers }
    ensures { OnOk result (items.new.items ≡ items.old.items ++ items_of routine.now (Instruction.AluImm op to left imm)) }
{
    let instr = Instr::Imm {
        op,
        rd: target(routine, to),
        rs1: operand(routine, A0, left),
        imm,
    };
    push_computed(items, routine, left, instr, to)
}

#[tactic(auto, unfolding(crate::specs::Selection::items_of))]
fn push_shift(
    items: &mut Vec<Item>,
    routine: &Routine,
    op: ShiftOp,
    to: VirtualRegister,
    left: VirtualRegister,
    amount: u8,
) -> Result<(), AllocError>
    requires { routine.now.registers ≤ most_registers }
    ensures { OnOk result (items.new.items ≡ items.old.items ++ items_of routine.now (Instruction.Shift op to left amount)) }
{
    let instr = Instr::Shift {
        op,
        rd: target(routine, to),
        rs1: operand(routine, A0, left),
        amount,
    };
    push_computed(items, routine, left, instr, to)
}

#[tactic(auto, unfolding(crate::specs::Selection::items_of))]
fn push_load_from(
    items: &mut Vec<Item>,
    routine: &Routine,
    op: LoadOp,
    to: VirtualRegister,
    base: VirtualRegister,
    offset: i32,
) -> Result<(), AllocError>
    requires { routine.now.registers ≤ most_registers }
    ensures { OnOk result (items.new.items ≡ items.old.items ++ items_of routine.now (Instruction.Load op to base offset)) }
{
    let instr = Instr::Load {
        op,
        rd: target(routine, to),
        rs1: operand(routine, A0, base),
        offset,
    };
    push_computed(items, routine, base, instr, to)
}

#[tactic(auto, unfolding(crate::specs::Selection::items_of))]
fn push_const(
    items: &mut Vec<Item>,
    routine: &Routine,
    to: VirtualRegister,
    value: u32,
) -> Result<(), AllocError>
    requires { routine.now.registers ≤ most_registers }
    ensures { OnOk result (items.new.items ≡ items.old.items ++ items_of routine.now (Instruction.Const to value)) }
{
    push_constant(items, target(routine, to), value)?;
    push_put(items, routine, to)
}

#[tactic(auto, unfolding(crate::specs::Selection::items_of))]
fn push_address(
    items: &mut Vec<Item>,
    routine: &Routine,
    to: VirtualRegister,
    symbol: Symbol,
) -> Result<(), AllocError>
    requires { routine.now.registers ≤ most_registers }
    ensures { OnOk result (items.new.items ≡ items.old.items ++ items_of routine.now (Instruction.Address to symbol)) }
{
    items.push(Item::Address {
        rd: target(routine, to),
        symbol,
    })?;
    push_put(items, routine, to)
}

#[tactic(auto, unfolding(crate::specs::Selection::items_of))]
fn push_local(
    items: &mut Vec<Item>,
    routine: &Routine,
    to: VirtualRegister,
    offset: u32,
) -> Result<(), AllocError>
    requires { routine.now.registers ≤ most_registers }
    ensures { OnOk result (items.new.items ≡ items.old.items ++ items_of routine.now (Instruction.Local to offset)) }
{
    let register = target(routine, to);
    let distance = down(routine.locals.saturating_sub(offset));
    push_sum(items, register, S0, register, distance)?;
    push_put(items, routine, to)
}

#[tactic(auto, unfolding(crate::specs::Selection::items_of))]
fn push_move(
    items: &mut Vec<Item>,
    routine: &Routine,
    to: VirtualRegister,
    from: VirtualRegister,
) -> Result<(), AllocError>
    requires { routine.now.registers ≤ most_registers }
    ensures { OnOk result (items.new.items ≡ items.old.items ++ items_of routine.now (Instruction.Move to from)) }
{
    push_fetch(items, routine, target(routine, to), from)?;
    push_put(items, routine, to)
}

/// Brings two operands, by a0 and a1 where they are not in registers of the machine.
fn push_two(
    items: &mut Vec<Item>,
    routine: &Routine,
    left: VirtualRegister,
    right: VirtualRegister,
) -> Result<(), AllocError>
    requires { routine.now.registers ≤ most_registers }
    ensures { OnOk result (items.new.items ≡ items.old.items ++ bring routine.now 10 left ++ bring routine.now 11 right) }
{
    push_bring(items, routine, A0, left)?;
    push_bring(items, routine, A1, right)
}

#[tactic(auto, unfolding(crate::specs::Selection::items_of))]
fn push_alu(
    items: &mut Vec<Item>,
    routine: &Routine,
    op: AluOp,
    to: VirtualRegister,
    left: VirtualRegister,
    right: VirtualRegister,
) -> Result<(), AllocError>
    requires { routine.now.registers ≤ most_registers }
    ensures { OnOk result (items.new.items ≡ items.old.items ++ items_of routine.now (Instruction.Alu op to left right)) }
{
    push_two(items, routine, left, right)?;
    let instr = Instr::Alu {
        op,
        rd: target(routine, to),
        rs1: operand(routine, A0, left),
        rs2: operand(routine, A1, right),
    };
    push(items, instr)?;
    push_put(items, routine, to)
}

#[tactic(auto, unfolding(crate::specs::Selection::items_of))]
fn push_store_to(
    items: &mut Vec<Item>,
    routine: &Routine,
    op: StoreOp,
    value: VirtualRegister,
    base: VirtualRegister,
    offset: i32,
) -> Result<(), AllocError>
    requires { routine.now.registers ≤ most_registers }
    ensures { OnOk result (items.new.items ≡ items.old.items ++ items_of routine.now (Instruction.Store op value base offset)) }
{
    push_two(items, routine, base, value)?;
    let instr = Instr::Store {
        op,
        rs1: operand(routine, A0, base),
        rs2: operand(routine, A1, value),
        offset,
    };
    push(items, instr)
}

#[tactic(auto, unfolding(crate::specs::Selection::items_of))]
fn push_call(
    items: &mut Vec<Item>,
    routine: &Routine,
    id: RoutineId,
    call: &Call,
) -> Result<(), AllocError>
    requires { routine.now.registers ≤ most_registers }
    ensures { OnOk result (items.new.items ≡ items.old.items ++ items_of routine.now (Instruction.Call id call.now)) }
{
    push_passed(items, routine, call.arguments.as_slice())?;
    items.push(Item::Call {
        routine: id,
        landing: call.landing,
    })?;
    push_answered(items, routine, call)
}

#[tactic(auto, unfolding(crate::specs::Selection::items_of))]
fn push_call_at(
    items: &mut Vec<Item>,
    routine: &Routine,
    address: VirtualRegister,
    call: &Call,
) -> Result<(), AllocError>
    requires { routine.now.registers ≤ most_registers }
    ensures { OnOk result (items.new.items ≡ items.old.items ++ items_of routine.now (Instruction.CallAt address call.now)) }
{
    push_passed(items, routine, call.arguments.as_slice())?;
    push_fetch(items, routine, RA, address)?;
    items.push(Item::CallAt {
        landing: call.landing,
    })?;
    push_answered(items, routine, call)
}

#[tactic(auto, unfolding(crate::specs::Selection::items_of))]
fn push_branch(
    items: &mut Vec<Item>,
    routine: &Routine,
    op: BranchOp,
    left: VirtualRegister,
    right: VirtualRegister,
    block: BlockId,
) -> Result<(), AllocError>
    requires { routine.now.registers ≤ most_registers }
    ensures { OnOk result (items.new.items ≡ items.old.items ++ items_of routine.now (Instruction.Branch op left right block)) }
{
    push_two(items, routine, left, right)?;
    items.push(Item::Branch {
        op,
        left: operand(routine, A0, left),
        right: operand(routine, A1, right),
        block,
    })?;
    Ok(())
}

#[tactic(auto, unfolding(crate::specs::Selection::items_of))]
fn push_return(
    items: &mut Vec<Item>,
    routine: &Routine,
    value: VirtualRegister,
) -> Result<(), AllocError>
    requires { routine.now.registers ≤ most_registers }
    ensures { OnOk result (items.new.items ≡ items.old.items ++ items_of routine.now (Instruction.Return value)) }
{
    push_fetch(items, routine, A0, value)?;
    push_small(items, A1, 0)?;
    push_epilogue(items, routine)
}

#[tactic(auto, unfolding(crate::specs::Selection::items_of))]
pub fn push_raise(items: &mut Vec<Item>, routine: &Routine) -> Result<(), AllocError>
    requires { routine.now.registers ≤ most_registers }
    ensures { OnOk result (items.new.items ≡ items.old.items ++ items_of routine.now Instruction.Raise) }
{
    push_small(items, A1, 1)?;
    push_epilogue(items, routine)
}

/// An environment call on the bytes at a buffer.
fn push_transfer(
    items: &mut Vec<Item>,
    routine: &Routine,
    buffer: VirtualRegister,
    length: VirtualRegister,
    descriptor: u8,
    number: u8,
) -> Result<(), AllocError>
    requires { routine.now.registers ≤ most_registers }
    ensures { OnOk result (items.new.items ≡ items.old.items ++ transfer routine.now buffer length descriptor number) }
{
    push_fetch(items, routine, A1, buffer)?;
    push_fetch(items, routine, A2, length)?;
    push_small(items, A0, descriptor)?;
    push_small(items, A7, number)?;
    push(items, Instr::Ecall)
}

#[tactic(auto, unfolding(crate::specs::Selection::items_of))]
fn push_read(
    items: &mut Vec<Item>,
    routine: &Routine,
    to: VirtualRegister,
    buffer: VirtualRegister,
    length: VirtualRegister,
) -> Result<(), AllocError>
    requires { routine.now.registers ≤ most_registers }
    ensures { OnOk result (items.new.items ≡ items.old.items ++ items_of routine.now (Instruction.Read to buffer length)) }
{
    push_transfer(items, routine, buffer, length, 0, READ)?;
    push_keep(items, routine, to, A0)
}

#[tactic(auto, unfolding(crate::specs::Selection::items_of))]
fn push_write(
    items: &mut Vec<Item>,
    routine: &Routine,
    output: Output,
    buffer: VirtualRegister,
    length: VirtualRegister,
) -> Result<(), AllocError>
    requires { routine.now.registers ≤ most_registers }
    ensures { OnOk result (items.new.items ≡ items.old.items ++ items_of routine.now (Instruction.Write output buffer length)) }
{
    push_transfer(items, routine, buffer, length, descriptor(output), WRITE)
}

fn descriptor(output: Output) -> u8
    ensures { result ≡ descriptor_of output }
{
    match output {
        Output::Console => 1,
        Output::Errors => 2,
    }
}

#[tactic(auto, unfolding(crate::specs::Selection::items_of))]
fn push_exit(
    items: &mut Vec<Item>,
    routine: &Routine,
    status: VirtualRegister,
) -> Result<(), AllocError>
    requires { routine.now.registers ≤ most_registers }
    ensures { OnOk result (items.new.items ≡ items.old.items ++ items_of routine.now (Instruction.Exit status)) }
{
    push_fetch(items, routine, A0, status)?;
    push_small(items, A7, EXIT)?;
    push(items, Instr::Ecall)
}

//! Fixed code, which stands once, in constants, and the parts of the routines that are made of it.
ghost use Rattle.op_rt_text.specs.Names.{block};
ghost use Rattle.op_rt_text.specs.Parts.{code, instruction_of, listed};
ghost use Rattle.op_low.specs.declared.instruction.Instruction.{Instruction};
ghost use Rattle.std.specs.Prelude.{◌≡◌, IfOk, None, map};

use op_base::{NoMemory, Sequence};
use op_low::{Block, Call, Instruction, Output, Routine, VirtualRegister};
use op_rv::{AluOp, BlockId, BranchOp, ImmOp, LoadOp, RoutineId, StoreOp, Symbol};
use std::alloc::Global;

/// The arguments of a call.
#[derive(Clone, Copy)]
pub enum Arguments {
    One(VirtualRegister),
    Two(VirtualRegister, VirtualRegister),
    Three(VirtualRegister, VirtualRegister, VirtualRegister),
}

/// An instruction of fixed code, with its operands in the order of those of low code. No call has a landing, since none of the routines raises.
#[derive(Clone, Copy)]
pub enum Fixed {
    Const(VirtualRegister, u32),
    Address(VirtualRegister, Symbol),
    Local(VirtualRegister, u32),
    Move(VirtualRegister, VirtualRegister),
    Alu(AluOp, VirtualRegister, VirtualRegister, VirtualRegister),
    AluImm(ImmOp, VirtualRegister, VirtualRegister, i32),
    Load(LoadOp, VirtualRegister, VirtualRegister, i32),
    Store(StoreOp, VirtualRegister, VirtualRegister, i32),
    Call(RoutineId, Arguments, VirtualRegister),
    Branch(BranchOp, VirtualRegister, VirtualRegister, BlockId),
    Jump(BlockId),
    Return(VirtualRegister),
    Write(Output, VirtualRegister, VirtualRegister),
}

fn listed(alloc: Global, arguments: Arguments) -> Result<Vec<VirtualRegister>, NoMemory>
    ensures { IfOk result (λ list. list.items ≡ listed arguments) }
{
    Ok(match arguments {
        Arguments::One(first) => vec![in alloc; first]?,
        Arguments::Two(first, second) => vec![in alloc; first, second]?,
        Arguments::Three(first, second, third) => vec![in alloc; first, second, third]?,
    })
}

fn call(
    alloc: Global,
    routine: RoutineId,
    arguments: Arguments,
    to: VirtualRegister,
) -> Result<Instruction, NoMemory>
    ensures { IfOk result (λ call. call ≡ Instruction.Call routine (record { arguments = listed arguments; to = to; landing = None })) }
{
    let arguments = listed(alloc, arguments)?;
    let call = Call {
        arguments: Sequence::from(arguments),
        to,
        landing: None,
    };
    Ok(Instruction::Call { routine, call })
}

fn instruction_of(alloc: Global, fixed: Fixed) -> Result<Instruction, NoMemory>
    ensures { IfOk result (λ instruction. instruction ≡ instruction_of fixed) }
{
    Ok(match fixed {
        Fixed::Const(to, value) => Instruction::Const { to, value },
        Fixed::Address(to, symbol) => Instruction::Address { to, symbol },
        Fixed::Local(to, offset) => Instruction::Local { to, offset },
        Fixed::Move(to, from) => Instruction::Move { to, from },
        Fixed::Alu(op, to, left, right) => Instruction::Alu {
            op,
            to,
            left,
            right,
        },
        Fixed::AluImm(op, to, left, imm) => Instruction::AluImm { op, to, left, imm },
        Fixed::Load(op, to, base, offset) => Instruction::Load {
            op,
            to,
            base,
            offset,
        },
        Fixed::Store(op, value, base, offset) => Instruction::Store {
            op,
            value,
            base,
            offset,
        },
        Fixed::Call(routine, arguments, to) => return call(alloc, routine, arguments, to),
        Fixed::Branch(op, left, right, block) => Instruction::Branch {
            op,
            left,
            right,
            block,
        },
        Fixed::Jump(block) => Instruction::Jump { block },
        Fixed::Return(value) => Instruction::Return { value },
        Fixed::Write(output, buffer, length) => Instruction::Write {
            output,
            buffer,
            length,
        },
    })
}

/// A block of this code.
fn block(alloc: Global, fixed: &[Fixed]) -> Result<Block, NoMemory>
    ensures { IfOk result (λ made. made ≡ block (code fixed.now)) }
{
    let mut code = Vec::new(alloc);
    for each in fixed {
        code.push(instruction_of(alloc, *each)?)?;
    }
    Ok(Block {
        code: Sequence::from(code),
    })
}

/// A routine of these blocks.
pub fn routine(
    alloc: Global,
    parameters: u32,
    registers: u32,
    locals: u32,
    blocks: &[&[Fixed]],
) -> Result<Routine, NoMemory>
    ensures { IfOk result (λ made. made ≡ record { parameters = parameters; registers = registers; locals = locals; blocks = map (λ each. block (code each.now)) blocks.now }) }
{
    let mut made = Vec::new(alloc);
    for each in blocks {
        made.push(block(alloc, *each)?)?;
    }
    Ok(Routine {
        parameters,
        registers,
        locals,
        blocks: Sequence::from(made),
    })
}

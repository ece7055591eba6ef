//! Fixed code, which stands once, in constants, and the parts of the routines that are made of it.
ghost use Rattle.op_low.specs.declared.instruction.Instruction.{Instruction};
ghost use Rattle.op_rt_heap.specs.Names.{block};
ghost use Rattle.op_rt_heap.specs.Parts.{code, instruction_of};
ghost use Rattle.std.specs.Prelude.{◌≡◌, IfOk, map};

use op_base::{NoMemory, Sequence};
use op_low::{Block, Instruction, Output, Routine, VirtualRegister};
use op_rv::{AluOp, BlockId, BranchOp, ImmOp, LoadOp, ShiftOp, StoreOp, Symbol};
use std::alloc::Global;

/// An instruction of fixed code, with its operands in the order of those of low code.
#[derive(Clone, Copy)]
pub enum Fixed {
    Const(VirtualRegister, u32),
    Address(VirtualRegister, Symbol),
    Move(VirtualRegister, VirtualRegister),
    Alu(AluOp, VirtualRegister, VirtualRegister, VirtualRegister),
    AluImm(ImmOp, VirtualRegister, VirtualRegister, i32),
    Shift(ShiftOp, VirtualRegister, VirtualRegister, u8),
    Load(LoadOp, VirtualRegister, VirtualRegister, i32),
    Store(StoreOp, VirtualRegister, VirtualRegister, i32),
    Branch(BranchOp, VirtualRegister, VirtualRegister, BlockId),
    Jump(BlockId),
    Return(VirtualRegister),
    Write(Output, VirtualRegister, VirtualRegister),
    Exit(VirtualRegister),
}

fn instruction_of(fixed: Fixed) -> Instruction
    ensures { result ≡ instruction_of fixed }
{
    match fixed {
        Fixed::Const(to, value) => Instruction::Const { to, value },
        Fixed::Address(to, symbol) => Instruction::Address { to, symbol },
        Fixed::Move(to, from) => Instruction::Move { to, from },
        Fixed::Alu(op, to, left, right) => Instruction::Alu {
            op,
            to,
            left,
            right,
        },
        Fixed::AluImm(op, to, left, imm) => Instruction::AluImm { op, to, left, imm },
        Fixed::Shift(op, to, left, amount) => Instruction::Shift {
            op,
            to,
            left,
            amount,
        },
        Fixed::Load(op, to, base, offset) => Instruction::Load {
            op,
            to,
            base,
            offset,
        },
        Fixed::Store(op, value, base, offset) => Instruction::Store {
            op,
            value,
            base,
            offset,
        },
        Fixed::Branch(op, left, right, block) => Instruction::Branch {
            op,
            left,
            right,
            block,
        },
        Fixed::Jump(block) => Instruction::Jump { block },
        Fixed::Return(value) => Instruction::Return { value },
        Fixed::Write(output, buffer, length) => Instruction::Write {
            output,
            buffer,
            length,
        },
        Fixed::Exit(status) => Instruction::Exit { status },
    }
}

/// A block of this code.
fn block(alloc: Global, fixed: &[Fixed]) -> Result<Block, NoMemory>
    ensures { IfOk result (λ made. made ≡ block (code fixed.now)) }
{
    let mut code = Vec::new(alloc);
    for each in fixed {
        code.push(instruction_of(*each))?;
    }
    Ok(Block {
        code: Sequence::from(code),
    })
}

/// A routine of these blocks, without locals.
pub fn routine(
    alloc: Global,
    parameters: u32,
    registers: u32,
    blocks: &[&[Fixed]],
) -> Result<Routine, NoMemory>
    ensures { IfOk result (λ made. made ≡ record { parameters = parameters; registers = registers; locals = 0; blocks = map (λ each. block (code each.now)) blocks.now }) }
{
    let mut made = Vec::new(alloc);
    for each in blocks {
        made.push(block(alloc, *each)?)?;
    }
    Ok(Routine {
        parameters,
        registers,
        locals: 0,
        blocks: Sequence::from(made),
    })
}

//! Registers by other numbers: the first ones live in registers of the machine, so that those that are used most come first.
ghost use Rattle.op_optimize.specs.Renaming.{RenamesRoutine, is_idle as is_idle_move, renamed as renamed_to, renamed_block as block_of, renamed_call as call_of, renamed_code as code_of, renamed_instruction as instruction_of, renamed_routine as routine_of};
ghost use Rattle.std.specs.Prelude.{◌≡◌, IfOk, map};

use crate::coloring::{Coloring, coloring_of};
use crate::dataflow::live_in;
use crate::harmless::is_renaming;
use crate::liveness::WATCHED;
use op_base::{NoMemory, Sequence};
use op_low::{Block, Call, Instruction, Routine, VirtualRegister, same};
use std::alloc::Global;

/// The new number of a register: the table has those of the first ones, and the others keep theirs.
#[tactic(auto, unfolding(crate::specs::Renaming::renamed))]
pub fn renamed(names: &[u32], register: VirtualRegister) -> VirtualRegister
    ensures { result ≡ renamed_to names.now register }
{
    match names.get(register.0 as usize) {
        None => register,
        Some(name) => VirtualRegister(*name),
    }
}

fn renamed_all(
    alloc: Global,
    names: &[u32],
    registers: &[VirtualRegister],
) -> Result<Vec<VirtualRegister>, NoMemory>
    ensures { IfOk result (λ v. v.items ≡ map (renamed_to names.now) registers.now) }
{
    let mut made = Vec::with_capacity(alloc, registers.len())?;
    for register in registers {
        made.push(renamed(names, *register))?;
    }
    Ok(made)
}

#[tactic(auto, unfolding(crate::specs::Renaming::renamed_call))]
fn renamed_call(alloc: Global, names: &[u32], call: &Call) -> Result<Call, NoMemory>
    ensures { IfOk result (λ c. c ≡ call_of names.now call.now) }
{
    let arguments = renamed_all(alloc, names, call.arguments.as_slice())?;
    Ok(Call {
        arguments: Sequence::from(arguments),
        to: renamed(names, call.to),
        landing: call.landing,
    })
}

#[tactic(auto, unfolding(crate::specs::Renaming::renamed_instruction))]
fn renamed_instruction(
    alloc: Global,
    n: &[u32],
    instruction: &Instruction,
) -> Result<Instruction, NoMemory>
    ensures { IfOk result (λ i. i ≡ instruction_of n.now instruction.now) }
{
    match instruction {
        Instruction::Const { to, value } => Ok(Instruction::Const {
            to: renamed(n, *to),
            value: *value,
        }),
        Instruction::Address { to, symbol } => Ok(Instruction::Address {
            to: renamed(n, *to),
            symbol: *symbol,
        }),
        Instruction::Local { to, offset } => Ok(Instruction::Local {
            to: renamed(n, *to),
            offset: *offset,
        }),
        Instruction::Move { to, from } => Ok(Instruction::Move {
            to: renamed(n, *to),
            from: renamed(n, *from),
        }),
        Instruction::Alu {
            op,
            to,
            left,
            right,
        } => Ok(Instruction::Alu {
            op: *op,
            to: renamed(n, *to),
            left: renamed(n, *left),
            right: renamed(n, *right),
        }),
        Instruction::AluImm { op, to, left, imm } => Ok(Instruction::AluImm {
            op: *op,
            to: renamed(n, *to),
            left: renamed(n, *left),
            imm: *imm,
        }),
        Instruction::Shift {
            op,
            to,
            left,
            amount,
        } => Ok(Instruction::Shift {
            op: *op,
            to: renamed(n, *to),
            left: renamed(n, *left),
            amount: *amount,
        }),
        Instruction::Load {
            op,
            to,
            base,
            offset,
        } => Ok(Instruction::Load {
            op: *op,
            to: renamed(n, *to),
            base: renamed(n, *base),
            offset: *offset,
        }),
        Instruction::Store {
            op,
            value,
            base,
            offset,
        } => Ok(Instruction::Store {
            op: *op,
            value: renamed(n, *value),
            base: renamed(n, *base),
            offset: *offset,
        }),
        Instruction::Call { routine, call } => {
            let call = renamed_call(alloc, n, call)?;
            Ok(Instruction::Call {
                routine: *routine,
                call,
            })
        }
        Instruction::CallAt { address, call } => {
            let call = renamed_call(alloc, n, call)?;
            Ok(Instruction::CallAt {
                address: renamed(n, *address),
                call,
            })
        }
        Instruction::Branch {
            op,
            left,
            right,
            block,
        } => Ok(Instruction::Branch {
            op: *op,
            left: renamed(n, *left),
            right: renamed(n, *right),
            block: *block,
        }),
        Instruction::Jump { block } => Ok(Instruction::Jump { block: *block }),
        Instruction::Return { value } => Ok(Instruction::Return {
            value: renamed(n, *value),
        }),
        Instruction::Raise => Ok(Instruction::Raise),
        Instruction::Read { to, buffer, length } => Ok(Instruction::Read {
            to: renamed(n, *to),
            buffer: renamed(n, *buffer),
            length: renamed(n, *length),
        }),
        Instruction::Write {
            output,
            buffer,
            length,
        } => Ok(Instruction::Write {
            output: *output,
            buffer: renamed(n, *buffer),
            length: renamed(n, *length),
        }),
        Instruction::Exit { status } => Ok(Instruction::Exit {
            status: renamed(n, *status),
        }),
    }
}

/// Whether it is a move between two registers of one new name.
#[tactic(auto, unfolding(crate::specs::Renaming::is_idle))]
fn is_idle(names: &[u32], instruction: &Instruction) -> bool
    ensures { result ≡ is_idle_move names.now instruction.now }
{
    match instruction {
        Instruction::Move { to, from } => same(renamed(names, *to), renamed(names, *from)),
        _ => false,
    }
}

#[tactic(auto, unfolding(crate::specs::Renaming::renamed_code))]
fn renamed_code(
    alloc: Global,
    names: &[u32],
    code: &[Instruction],
) -> Result<Vec<Instruction>, NoMemory>
    ensures { IfOk result (λ v. v.items ≡ code_of names.now code.now) }
{
    let mut made = Vec::with_capacity(alloc, code.len())?;
    for instruction in code {
        if !is_idle(names, instruction) {
            made.push(renamed_instruction(alloc, names, instruction)?)?;
        }
    }
    Ok(made)
}

#[tactic(auto, unfolding(crate::specs::Renaming::renamed_block))]
fn renamed_block(alloc: Global, names: &[u32], block: &Block) -> Result<Block, NoMemory>
    ensures { IfOk result (λ b. b ≡ block_of names.now block.now) }
{
    let code = renamed_code(alloc, names, block.code.as_slice())?;
    Ok(Block {
        code: Sequence::from(code),
    })
}

fn renamed_blocks(alloc: Global, names: &[u32], blocks: &[Block]) -> Result<Vec<Block>, NoMemory>
    ensures { IfOk result (λ v. v.items ≡ map (block_of names.now) blocks.now) }
{
    let mut made = Vec::with_capacity(alloc, blocks.len())?;
    for block in blocks {
        made.push(renamed_block(alloc, names, block)?)?;
    }
    Ok(made)
}

/// A routine with other numbers for its registers, of which there are then so many.
#[tactic(auto, unfolding(crate::specs::Renaming::renamed_routine))]
fn renamed_routine(
    alloc: Global,
    names: &[u32],
    registers: u32,
    routine: &Routine,
) -> Result<Routine, NoMemory>
    ensures { IfOk result (λ r. r ≡ routine_of names.now registers routine.now) }
{
    let blocks = renamed_blocks(alloc, names, routine.blocks.as_slice())?;
    Ok(Routine {
        parameters: routine.parameters,
        registers,
        locals: routine.locals,
        blocks: Sequence::from(blocks),
    })
}

/// A routine with other numbers for its registers, or as it was, where no others are found that do no harm. It does the same.
#[tactic(auto, using(crate::proofs::Choosing::stays))]
pub fn rename(alloc: Global, routine: Routine) -> Result<Routine, NoMemory>
    ensures { IfOk result (RenamesRoutine routine) }
{
    if WATCHED < routine.registers {
        return Ok(routine);
    }
    let live = live_in(alloc, &routine)?;
    let coloring = coloring_of(alloc, live.as_slice(), &routine)?;
    rename_by(alloc, live.as_slice(), &coloring, routine)
}

#[tactic(auto, using(crate::proofs::Choosing::stays))]
fn rename_by(
    alloc: Global,
    live: &[u64],
    coloring: &Coloring,
    routine: Routine,
) -> Result<Routine, NoMemory>
    ensures { IfOk result (RenamesRoutine routine) }
{
    let names = coloring.names.as_slice();
    if !is_renaming(live, names, coloring.registers, &routine) {
        return Ok(routine);
    }
    renamed_routine(alloc, names, coloring.registers, &routine)
}

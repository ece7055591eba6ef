//! Instructions and blocks.
ghost use Rattle.op_low.specs.declared.instruction.Instruction.{Instruction as LowInstruction};
ghost use Rattle.op_expand.specs.Routines.{blocks_of, code_of, error_block, error_blocks, error_code, instruction_code};
ghost use Rattle.std.specs.Prelude.{◌≡◌, ◌∷◌, ◌++◌, [], IfOk, OnOk};

use crate::action::push_action;
use crate::call::{LEFT, RESULT_ADDRESS, push_call_of, push_return};
use crate::closing::{push_due, push_exit, push_stop};
use op_base::{NoMemory, Sequence};
use op_compute::{branch_if_false, branch_if_true, dispatch, push, push_const, switch};
use op_constants::{ERROR_200, ERROR_201, ERROR_202, ERROR_215, Texts};
use op_core::Core;
use op_low::Output;
use op_mir::{Block, Instruction, Mir};
use op_places::{Frame, push_address};
use op_rv::{BlockId, LiteralId, Symbol};
use std::alloc::Global;

/// What an instruction does, where these are the literals.
fn push_instruction(
    alloc: Global,
    code: &mut Vec<op_low::Instruction>,
    core: &Core,
    mir: &Mir,
    frame: &Frame,
    literals: &Texts,
    instruction: &Instruction,
) -> Result<(), NoMemory>
    ensures { OnOk result (code.new.items ≡ code.old.items ++ instruction_code core.now mir.now frame.now literals.now instruction.now) }
{
    let bank = frame.bank;
    match instruction {
        Instruction::Act { action, .. } => push_action(alloc, code, core, frame, literals, action),
        Instruction::Call { routine, call } => {
            push_call_of(alloc, code, core, mir, frame, *routine, call)
        }
        Instruction::Jump { block } => push_jump(code, block.0),
        Instruction::When { temporary, block } => branch_if_true(code, bank, *temporary, *block),
        Instruction::Unless { temporary, block } => branch_if_false(code, bank, *temporary, *block),
        Instruction::Switch { temporary, arms } => switch(code, bank, *temporary, arms.as_slice()),
        Instruction::Dispatch { temporary, block } => dispatch(code, bank, *temporary, *block),
        Instruction::MakeDue { .. } => push_due(code, core, frame),
        Instruction::OpenTemporaries { .. } => Ok(()),
        Instruction::EndTemporary { .. } => Ok(()),
        Instruction::Stop { status } => push_stop(alloc, code, core, bank.temporary(*status)?),
        Instruction::Return => push_return(alloc, code, core, frame),
    }
}

fn push_jump(code: &mut Vec<op_low::Instruction>, block: u32) -> Result<(), NoMemory>
    ensures { OnOk result (code.new.items ≡ code.old.items ++ LowInstruction.Jump (record { 0 = block }) ∷ []) }
{
    let block = BlockId(block);
    push(code, op_low::Instruction::Jump { block })
}

/// The code of a block.
fn push_code(
    alloc: Global,
    code: &mut Vec<op_low::Instruction>,
    core: &Core,
    mir: &Mir,
    frame: &Frame,
    literals: &Texts,
    instructions: &[Instruction],
) -> Result<(), NoMemory>
    ensures { OnOk result (code.new.items ≡ code.old.items ++ code_of core.now mir.now frame.now literals.now instructions.now) }
{
    for instruction in instructions {
        push_instruction(alloc, code, core, mir, frame, literals, instruction)?;
    }
    Ok(())
}

/// Blocks, with code that stands in front of the first one.
pub fn push_blocks(
    alloc: Global,
    low: &mut Vec<op_low::Block>,
    core: &Core,
    mir: &Mir,
    frame: &Frame,
    literals: &Texts,
    front: Vec<op_low::Instruction>,
    blocks: &[Block],
) -> Result<(), NoMemory>
    ensures { OnOk result (low.new.items ≡ low.old.items ++ blocks_of core.now mir.now frame.now literals.now front.items blocks.now) }
{
    let mut code = front;
    for block in blocks {
        let instructions = block.code.as_slice();
        push_code(alloc, &mut code, core, mir, frame, literals, instructions)?;
        code.shrink_to_fit();
        low.push(op_low::Block {
            code: Sequence::from(code),
        })?;
        code = Vec::new(alloc);
    }
    Ok(())
}

/// Ends the program with an error, whose line is a literal of 18 bytes.
fn error_block(alloc: Global, error: u32, line: LiteralId) -> Result<op_low::Block, NoMemory>
    ensures { IfOk result (λ block. block ≡ error_block error line.0) }
{
    let mut code = Vec::new(alloc);
    push_address(&mut code, LEFT, Symbol::Literal(line))?;
    push_const(&mut code, RESULT_ADDRESS, 18)?;
    let write = op_low::Instruction::Write {
        output: Output::Errors,
        buffer: LEFT,
        length: RESULT_ADDRESS,
    };
    push(&mut code, write)?;
    push_const(&mut code, LEFT, error)?;
    push_exit(&mut code, LEFT)?;
    Ok(op_low::Block {
        code: Sequence::from(code),
    })
}

/// The block of error 202.
pub fn overflow_block(alloc: Global) -> Result<op_low::Block, NoMemory>
    ensures { IfOk result (λ block. block ≡ error_block 202 5) }
{
    error_block(alloc, 202, ERROR_202)
}

/// The blocks of the errors, behind the others.
pub fn push_error_blocks(alloc: Global, low: &mut Vec<op_low::Block>) -> Result<(), NoMemory>
    ensures { OnOk result (low.new.items ≡ low.old.items ++ error_blocks) }
{
    low.push(error_block(alloc, 200, ERROR_200)?)?;
    low.push(error_block(alloc, 201, ERROR_201)?)?;
    low.push(overflow_block(alloc)?)?;
    low.push(error_block(alloc, 215, ERROR_215)?)?;
    Ok(())
}

//! A routine as one register sees it: a line for each instruction.
ghost use Rattle.op_regs.specs.Lines.{line_of as is_line_of, lines_of as are_lines_of, position_at as is_position_at, starts_from};
ghost use Rattle.std.specs.Prelude.{◌≡◌, ◌++◌, IfOk, OnOk, map};

use op_base::NoMemory;
use op_low::{Block, Instruction, VirtualRegister, leaves, other_block, reads, writes};
use op_rv::BlockId;
use std::alloc::{AllocError, Global};

/// What an instruction is for a register.
#[derive(Clone, Copy)]
pub struct Line {
    pub reads: bool,
    /// Whether the code goes on at the next line, where the register still has what it had.
    pub passes: bool,
    /// Another position at which the code may go on.
    pub other: Option<usize>,
}

/// The positions at which blocks begin.
#[tactic(auto, unfolding(crate::specs::Lines::starts_from))]
pub fn starts_of(alloc: Global, blocks: &[Block]) -> Result<Vec<usize>, NoMemory>
    ensures { IfOk result (λ starts. starts.items ≡ starts_from 0 blocks.now) }
{
    let mut starts = Vec::new(alloc);
    let mut position: usize = 0;
    for block in blocks {
        starts.push(position)?;
        position = position
            .checked_add(block.code.as_slice().len())
            .ok_or(NoMemory)?;
    }
    Ok(starts)
}

fn position_at(starts: &[usize], block: Option<BlockId>) -> Option<usize>
    ensures { result ≡ is_position_at starts.now block }
{
    match block {
        None => None,
        Some(block) => starts.get(block.0 as usize).copied(),
    }
}

#[tactic(auto, unfolding(crate::specs::Lines::line_of))]
fn line_of(starts: &[usize], register: VirtualRegister, instruction: &Instruction) -> Line
    ensures { result ≡ is_line_of starts.now register instruction.now }
{
    Line {
        reads: reads(instruction, register),
        passes: !(leaves(instruction) || writes(instruction, register)),
        other: position_at(starts, other_block(instruction)),
    }
}

fn push_lines(
    lines: &mut Vec<Line>,
    starts: &[usize],
    register: VirtualRegister,
    code: &[Instruction],
) -> Result<(), AllocError>
    ensures { OnOk result (lines.new.items ≡ lines.old.items ++ map (is_line_of starts.now register) code.now) }
{
    for instruction in code {
        lines.push(line_of(starts, register, instruction))?;
    }
    Ok(())
}

/// The lines of blocks, by the positions at which these begin.
#[tactic(auto, unfolding(crate::specs::Lines::lines_of))]
pub fn lines_of(
    alloc: Global,
    starts: &[usize],
    register: VirtualRegister,
    blocks: &[Block],
) -> Result<Vec<Line>, NoMemory>
    ensures { IfOk result (λ lines. lines.items ≡ are_lines_of starts.now register blocks.now) }
{
    let mut lines = Vec::new(alloc);
    for block in blocks {
        push_lines(&mut lines, starts, register, block.code.as_slice())?;
    }
    Ok(lines)
}

//! The blocks of a routine while they are made.
ghost use Rattle.std.specs.Prelude.{◌≡◌, ◌<◌, ◌+◌, ℕ, [], ◌∷◌, ◌++◌, IfOk, length, slice_set};
ghost use Rattle.op_core.specs.declared.program.Core.{Core};
ghost use Rattle.op_mir.specs.Code.{continued, jump};
ghost use Rattle.op_lower.specs.Seen.{seen};

use crate::instructions::Instructions;
use op_base::{NoMemory, Sequence};
use op_mir::{Block, BlockId};
use std::alloc::Global;
use std::marker::Model;

/// The block with the code behind a construct, and the block to which one jumps in order to come to that code.
#[derive(Clone, Copy)]
pub struct Joint {
    pub block: BlockId,
    pub on: BlockId,
}

/// The blocks of a loop.
#[derive(Clone, Copy)]
pub struct LoopBlocks {
    pub behind: BlockId,
    pub head: BlockId,
    pub body: BlockId,
}

/// Blocks, each found by its number. More are put behind them.
#[derive(Drop)]
pub struct Blocks {
    blocks: Vec<Block>,
}

impl Model for Blocks {
    ghost use Rattle.std.specs.Prelude.{List};
    ghost use Rattle.op_mir.specs.declared.code.Block.{Block};

    ghost Value = { List Block };

    ghost view = { λ b. b.blocks.items };
}

impl Blocks {
    pub fn new(alloc: Global) -> Blocks
        ensures { result ≡ [] }
    {
        Blocks {
            blocks: Vec::new(alloc),
        }
    }

    /// The number of the next block.
    pub fn next(&self) -> Result<BlockId, NoMemory>
        ensures { IfOk result (λ block. block.0 ≡ length self.now) }
    {
        match u32::try_from(self.blocks.len()) {
            Ok(number) => Ok(BlockId(number)),
            Err(_) => Err(NoMemory),
        }
    }

    /// Puts a block of this code behind the others, and answers its number.
    pub fn put(&mut self, code: Instructions) -> Result<BlockId, NoMemory>
        ensures number { IfOk result (λ block. block.0 ≡ length self.old) }
        ensures blocks { IfOk result (λ _. self.new ≡ self.old ++ record { code = code } ∷ []) }
    {
        let number = self.next()?;
        self.blocks.push(code.into_block())?;
        Ok(number)
    }

    /// Puts a block behind the others whose code is not known yet.
    #[inline(never)]
    pub fn reserve(&mut self) -> Result<BlockId, NoMemory>
        ensures number { IfOk result (λ block. block.0 ≡ length self.old) }
        ensures blocks { IfOk result (λ _. self.new ≡ self.old ++ record { code = [] } ∷ []) }
    {
        let alloc = *self.blocks.allocator();
        self.put(Instructions::none(alloc))
    }

    /// Makes a block of the code behind a construct, which is taken.
    #[inline(never)]
    pub fn join(&mut self, behind: &mut Instructions) -> Result<Joint, NoMemory>
        ensures number { IfOk result (λ end. end.block.0 ≡ length self.old) }
        ensures on { IfOk result (λ end. (core : Core) (r : ℕ) → jump end.on.0 ∷ [] ≡ continued (length self.old) (seen core r behind.old)) }
        ensures blocks { IfOk result (λ _. self.new ≡ self.old ++ record { code = behind.old } ∷ []) }
    {
        let block = self.next()?;
        let on = behind.reached_by(block);
        self.put(behind.take())?;
        Ok(Joint { block, on })
    }

    /// Makes a block of the code behind a loop, which is taken, and reserves those of its head and its body.
    #[inline(never)]
    pub fn begin_loop(&mut self, behind: &mut Instructions) -> Result<LoopBlocks, NoMemory>
        ensures behind { IfOk result (λ made. made.behind.0 ≡ length self.old) }
        ensures head { IfOk result (λ made. made.head.0 ≡ length self.old + 1) }
        ensures body { IfOk result (λ made. made.body.0 ≡ length self.old + 2) }
        ensures blocks { IfOk result (λ _. self.new ≡ self.old ++ record { code = behind.old } ∷ record { code = [] } ∷ record { code = [] } ∷ []) }
    {
        let behind = self.put(behind.take())?;
        let head = self.reserve()?;
        let body = self.reserve()?;
        Ok(LoopBlocks { behind, head, body })
    }

    /// Gives a block its code, which is taken.
    #[inline(never)]
    pub fn fill(&mut self, block: BlockId, code: &mut Instructions)
        requires { block.0 < length self.old }
        ensures { self.new ≡ slice_set self.old block.0 (record { code = code.old }) }
    {
        self.blocks[block.0 as usize] = code.take().into_block();
    }

    pub fn into_sequence(self) -> Sequence<Block>
        ensures { result ≡ self }
    {
        Sequence::from(self.blocks)
    }
}

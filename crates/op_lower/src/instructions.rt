//! Code that is made from its last instruction on.
ghost use Rattle.std.specs.Prelude.{◌≡◌, ℕ, [], ◌∷◌, map, IfOk, IfSome, MatchOption};
ghost use Rattle.op_core.specs.declared.program.Core.{Core};
ghost use Rattle.op_mir.specs.Code.{continued, ends, jump};
ghost use Rattle.op_mir.specs.View.{view_temporary};
ghost use Rattle.op_lower.specs.Seen.{seen};

use op_base::{NoMemory, Sequence};
use op_mir::{Block, BlockId, Instruction, Temporary};
use std::alloc::Global;
use std::marker::Model;
use std::mem::replace;

/// Instructions in front of which more are put.
#[derive(Drop)]
pub struct Instructions {
    /// The first one stands last.
    reversed: Vec<Instruction>,
}

impl Model for Instructions {
    ghost use Rattle.std.specs.Prelude.{List, reverse};
    ghost use Rattle.op_mir.specs.declared.instruction.Instruction.{Instruction};

    ghost Value = { List Instruction };

    ghost view = { λ code. reverse code.reversed.items };
}

impl Instructions {
    pub fn none(alloc: Global) -> Instructions
        ensures { result ≡ [] }
    {
        Instructions {
            reversed: Vec::new(alloc),
        }
    }

    /// A jump alone.
    pub fn jump(alloc: Global, block: BlockId) -> Result<Instructions, NoMemory>
        ensures { IfOk result (λ code. code ≡ Instruction.Jump block ∷ []) }
    {
        let mut code = Instructions::none(alloc);
        code.put(Instruction::Jump { block })?;
        Ok(code)
    }

    /// Puts an instruction in front.
    #[inline(never)]
    pub fn put(&mut self, first: Instruction) -> Result<(), NoMemory>
        ensures { IfOk result (λ _. self.new ≡ first ∷ self.old) }
    {
        self.reversed.push(first)?;
        Ok(())
    }

    /// Puts in front what ends temporaries, in this order.
    #[inline(never)]
    pub fn end(&mut self, temporaries: &[Temporary]) -> Result<(), NoMemory>
        ensures { IfOk result (λ _. (core : Core) (r : ℕ) → seen core r self.new ≡ ends (map view_temporary temporaries.now) (seen core r self.old)) }
    {
        let mut rest = temporaries;
        while let Some((last, front)) = rest.split_last() {
            self.put(Instruction::EndTemporary { temporary: *last })?;
            rest = front;
        }
        Ok(())
    }

    /// Puts a jump alone in place of them.
    #[inline(never)]
    pub fn lead_to(&mut self, block: BlockId) -> Result<(), NoMemory>
        ensures { IfOk result (λ _. self.new ≡ Instruction.Jump block ∷ []) }
    {
        self.clear();
        self.put(Instruction::Jump { block })
    }

    /// Drops them.
    #[inline(never)]
    pub fn clear(&mut self)
        ensures { self.new ≡ [] }
    {
        self.reversed.clear();
    }

    /// Takes them out.
    pub fn take(&mut self) -> Instructions
        ensures { result ≡ self.old }
    {
        let alloc = *self.reversed.allocator();
        replace(self, Instructions::none(alloc))
    }

    /// The block of them, in memory of its own size where there is room for that.
    pub fn into_block(self) -> Block
        ensures { result.code ≡ self }
    {
        let mut code = self.reversed;
        code.reverse();
        code.shrink_to_fit();
        Block {
            code: Sequence::from(code),
        }
    }

    /// The block to which one jumps in order to come to these instructions, if they stand in the block of this number: to where a jump
    /// alone leads, else to that block.
    pub fn reached_by(&self, block: BlockId) -> BlockId
        ensures { (core : Core) (r : ℕ) → jump result.0 ∷ [] ≡ continued block.0 (seen core r self.now) }
    {
        match self.reversed.as_slice() {
            [Instruction::Jump { block: target }] => *target,
            _ => block,
        }
    }
}

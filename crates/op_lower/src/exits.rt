//! Where Exit, Break and Continue lead.
ghost use Rattle.std.specs.Prelude.{◌≡◌, ℕ, suc, [], ◌∷◌, map, pos, IfOk};
ghost use Rattle.op_core.specs.declared.program.Core.{Core};
ghost use Rattle.op_mir.specs.Code.{ends, finally_exits, open_temporaries};
ghost use Rattle.op_mir.specs.View.{view_temporary};
ghost use Rattle.op_lower.specs.Exits.{exits_of, reason_of};
ghost use Rattle.op_lower.specs.Seen.{seen};

use crate::instructions::Instructions;
use op_base::{NoMemory, Sequence};
use op_items::Way;
use op_mir::{Action, BlockId, Instruction, Temporary, TemporaryId};
use std::alloc::Global;

/// What stands round the code that is made, as far as it is left.
#[derive(Clone, Copy)]
pub enum Exits<'a> {
    /// The routine, whose block 1 returns.
    Routine,
    /// A loop within something else: behind it is the block of this number, and the next one is its head.
    Loop {
        around: &'a Exits<'a>,
        behind: BlockId,
    },
    /// Items within something else that may make these temporaries: they end in this order, and then it is left.
    Scope {
        around: &'a Exits<'a>,
        temporaries: &'a [Temporary],
    },
    /// A part with a finally part, which is the block of this number: the reason is put into the temporary.
    Finally {
        reason: TemporaryId,
        finalization: BlockId,
    },
}

impl Exits<'_> {
    /// The code that leaves.
    pub fn leave(&self, alloc: Global, way: Way) -> Result<Instructions, NoMemory>
        ensures { IfOk result (λ code. (core : Core) (r : ℕ) → seen core r code ≡ exits_of self.now (reason_of way)) }
    {
        match self {
            Exits::Routine => Instructions::jump(alloc, BlockId(1)),
            Exits::Loop { around, behind } => match way {
                Way::Exit => around.leave(alloc, way),
                Way::Break => Instructions::jump(alloc, *behind),
                Way::Continue => Instructions::jump(alloc, following(*behind)?),
            },
            Exits::Scope {
                around,
                temporaries,
            } => {
                let mut code = around.leave(alloc, way)?;
                end_scope(alloc, temporaries, &mut code)?;
                Ok(code)
            }
            Exits::Finally {
                reason,
                finalization,
            } => leave_part(alloc, *reason, *finalization, way),
        }
    }
}

/// The number of the next block.
fn following(block: BlockId) -> Result<BlockId, NoMemory>
    ensures { IfOk result (λ next. next.0 ≡ suc block.0) }
{
    match block.0.checked_add(1) {
        None => Err(NoMemory),
        Some(number) => Ok(BlockId(number)),
    }
}

/// Puts in front of code that leaves what ends temporaries, in this order. None is open any more that could be made.
#[inline(never)]
fn end_scope(
    alloc: Global,
    temporaries: &[Temporary],
    code: &mut Instructions,
) -> Result<(), NoMemory>
    ensures { IfOk result (λ _. (core : Core) (r : ℕ) → seen core r code.new ≡ open_temporaries [] ∷ ends (map view_temporary temporaries.now) (seen core r code.old)) }
{
    code.end(temporaries)?;
    code.put(Instruction::OpenTemporaries {
        temporaries: Sequence::from(Vec::new(alloc)),
    })?;
    Ok(())
}

/// The code that leaves a part with a finally part.
fn leave_part(
    alloc: Global,
    reason: TemporaryId,
    finalization: BlockId,
    way: Way,
) -> Result<Instructions, NoMemory>
    ensures { IfOk result (λ code. (core : Core) (r : ℕ) → seen core r code ≡ finally_exits reason.0 finalization.0 (reason_of way)) }
{
    let mut code = Instructions::jump(alloc, finalization)?;
    let action = Action::Constant {
        to: reason,
        value: number_of(way),
    };
    code.put(Instruction::Act {
        action,
        landing: None,
    })?;
    Ok(code)
}

/// The number of the reason.
fn number_of(way: Way) -> i32
    ensures { result ≡ pos (reason_of way) }
{
    match way {
        Way::Exit => 1,
        Way::Break => 2,
        Way::Continue => 3,
    }
}

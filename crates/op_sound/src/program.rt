//! Whole programs.
ghost use Rattle.std.specs.Prelude.{IfErr, IfOk, map};
ghost use Rattle.op_check_unit.specs.Checking.{CheckIs};
ghost use Rattle.op_check_unit.specs.Programs.{program_means};
ghost use Rattle.op_check_unit.specs.Rules.{Obeys, ProgramBreaks};
ghost use Rattle.op_core.specs.Sound.{IsSound, IsSoundNesting};
ghost use Rattle.op_judgement.specs.Judgement.{RefusalHasText};
ghost use Rattle.op_tree.specs.File.{file_of};

use op_base::Text;
use op_core::{CheckError, Core};
use op_tree::Tree;
use std::alloc::Global;

/// The typed program of these files, the main one first, or the first rule that it breaks.
///
/// It answers as `check` of op_check_unit does, and `sound` says what the passes behind it ask of a program: each number in it is that of a row,
/// each part has the type that is written at it, and a body names only what stands in its own scope or round it.
pub fn check(alloc: Global, trees: &[Tree], order: &[Text]) -> Result<Core, CheckError>
    ensures means { CheckIs (program_means (map file_of trees.now) order.now) result }
    ensures law { Obeys (ProgramBreaks (map file_of trees.now) order.now) result }
    ensures told { IfErr result RefusalHasText }
    ensures sound { IfOk result (λ core. IsSound core × IsSoundNesting core) }
{
    op_check_unit::check(alloc, trees, order)
}

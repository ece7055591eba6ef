//! Which loops and routines a statement may leave.
ghost use Rattle.std.specs.Prelude.{◌≡◌, [], ◌∷◌, ◌++◌, IfOk};
ghost use Rattle.std.specs.Option.{option_map};
ghost use Rattle.op_core.specs.Statement.{stmt_of};
ghost use Rattle.op_judgement.specs.Judgement.{Reports};
ghost use Rattle.op_check_stmt.specs.Leaving.{entered, in_finally, is_finally, jump_of, reach_of};
ghost use Rattle.op_check_stmt.specs.Procedure.{leaving};

use op_base::{NoMemory, Place};
use op_check_expr::Around;
use op_core::{CoreStmt, FirstRefusal};
use op_judgement::{LanguageRule, refuse};
use std::alloc::Global;

/// How far the innermost loop is from a place.
#[derive(Clone, Copy)]
pub enum Reach {
    /// There is no loop round it.
    Nowhere,
    /// It may be left.
    Inside,
    /// A finally part lies between, which may not be left.
    Beyond,
}

/// What stands round a place within one part more.
#[inline(never)]
pub fn within(alloc: Global, around: &[Around], part: Around) -> Result<Vec<Around>, NoMemory>
    ensures { IfOk result (λ v. v.items ≡ around.now ++ part ∷ []) }
{
    let mut parts = Vec::from_slice(alloc, around)?;
    parts.push(part)?;
    Ok(parts)
}

/// What leaves a loop, or its turn.
#[derive(Clone, Copy)]
pub enum Jump {
    Break,
    Continue,
}

/// A jump at a word: rule 58 where there is no loop, 59 where a finally part would be left.
pub fn leaving(
    sink: &mut FirstRefusal,
    around: &[Around],
    place: Place,
    jump: Jump,
) -> Option<CoreStmt>
    ensures { Reports (leaving place (jump_of jump) around.now) sink.old sink.new (option_map stmt_of result) }
{
    match reach_of(around) {
        Reach::Nowhere => refuse(sink, LanguageRule::NoLoop, place),
        Reach::Inside => Some(jump_of(jump)),
        Reach::Beyond => refuse(sink, LanguageRule::LeavesFinally, place),
    }
}

fn jump_of(jump: Jump) -> CoreStmt
    ensures { stmt_of result ≡ jump_of jump }
{
    match jump {
        Jump::Break => CoreStmt::Break,
        Jump::Continue => CoreStmt::Continue,
    }
}

fn reach_of(around: &[Around]) -> Reach
    ensures { result ≡ reach_of around.now }
{
    let mut reach = Reach::Nowhere;
    for part in around {
        reach = entered(reach, *part);
    }
    reach
}

fn entered(reach: Reach, part: Around) -> Reach
    ensures { result ≡ entered reach part }
{
    match (part, reach) {
        (Around::Loop(_), _) => Reach::Inside,
        (Around::Handler, _) => reach,
        (Around::Finally, Reach::Nowhere) => Reach::Nowhere,
        (Around::Finally, _) => Reach::Beyond,
    }
}

/// Whether leaving the routine would leave a finally part.
pub fn in_finally(around: &[Around]) -> bool
    ensures { result ≡ in_finally around.now }
{
    around.iter().any(|part| is_finally(*part))
}

fn is_finally(part: Around) -> bool
    ensures { result ≡ is_finally part }
{
    matches!(part, Around::Finally)
}

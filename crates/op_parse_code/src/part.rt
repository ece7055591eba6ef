//! The parts that other crates ask for.
ghost use Rattle.std.specs.Prelude.{◌≡◌, ◌-◌, ◌<◌, ◌≤◌, IfOk, IfErr, List, MatchResult, drop, length};
ghost use Rattle.op_parse_code.specs.Refusal.{IsFree, RefusalHasText, Refuses};
ghost use Rattle.op_parse_code.specs.Whole.{Chain};
ghost use Rattle.op_parse_code.specs.WholeStatement.{SomeStatement};
ghost use Rattle.op_tree.specs.Ends.{EndsChain, EndsExpr, EndsStatement};
ghost use Rattle.op_tree.specs.Expression.{Expression, expr_of};
ghost use Rattle.op_tree.specs.ExpressionGrammar.{IsExpr, IsSimple};
ghost use Rattle.op_tree.specs.Statement.{Statement, stmt_of};
ghost use Rattle.op_tree.specs.StatementGrammar.{IsStatement};
ghost use Rattle.op_tree.specs.Terminal.{Terminal, terminals};
ghost use Rattle.op_tree.specs.declared.operator.Level.TheVariants.{Additive, Relational};

use crate::ParseError;
use crate::chain::chain;
use crate::compound::statement_at;
use op_scan::Tokens;
use op_tree::{Expr, Level, Stmt};
use std::alloc::Global;

/// How deep parts may be nested.
const DEEPEST: u32 = 200;

/// The expression at a place among the tokens, and the place behind it. Around it stand so many parts that count.
///
/// `Refused` is rule 9 at the first token that no expression goes on with, or at the file's end, 61 at a token that is
/// nested too deep, 13 at a form that is left out. `NoMemory` comes where the allocator has no room.
pub fn expression(
    alloc: Global,
    tokens: &Tokens,
    at: usize,
    depth: u32,
) -> Result<(Expr, usize), ParseError>
    requires within { at ≤ length tokens.now.list }
    requires depth { depth ≤ 200 }
    // It has tokens, and ends among them.
    ensures range { IfOk result (λ f. (at < f.1) × (f.1 ≤ length tokens.now.list)) }
    // The grammar derives it from these tokens.
    ensures spells { IfOk result (λ f. IsExpr (200 - depth) (expr_of f.0) (drop at (terminals tokens.now.list)) (drop f.1 (terminals tokens.now.list))) }
    // Nothing that follows would belong to it.
    ensures whole { IfOk result (λ f. EndsExpr (expr_of f.0) (drop f.1 (terminals tokens.now.list))) }
    // There is none, or a form that is left out.
    ensures refused { IfErr result (Refuses (Chain Relational) (200 - depth) tokens.now.end (drop at (terminals tokens.now.list))) }
    // No other one stands there, and where one stands it is refused for a form of statements and expressions alone.
    ensures only { (e : Expression) (r : List Terminal) → IsExpr (200 - depth) e (drop at (terminals tokens.now.list)) r → EndsExpr e r → MatchResult result (λ f. (expr_of f.0 ≡ e) × (drop f.1 (terminals tokens.now.list) ≡ r)) (IsFree tokens.now.end (drop at (terminals tokens.now.list))) }
    // What is refused breaks a rule that has a text.
    ensures told { IfErr result RefusalHasText }
{
    part(alloc, Level::Relational, tokens, at, DEEPEST - depth)
}

/// The same of a bound of a subrange type, which has no comparison outside brackets.
pub fn simple(
    alloc: Global,
    tokens: &Tokens,
    at: usize,
    depth: u32,
) -> Result<(Expr, usize), ParseError>
    requires within { at ≤ length tokens.now.list }
    requires depth { depth ≤ 200 }
    ensures range { IfOk result (λ f. (at < f.1) × (f.1 ≤ length tokens.now.list)) }
    ensures spells { IfOk result (λ f. IsSimple (200 - depth) (expr_of f.0) (drop at (terminals tokens.now.list)) (drop f.1 (terminals tokens.now.list))) }
    ensures whole { IfOk result (λ f. EndsChain Additive (expr_of f.0) (drop f.1 (terminals tokens.now.list))) }
    ensures refused { IfErr result (Refuses (Chain Additive) (200 - depth) tokens.now.end (drop at (terminals tokens.now.list))) }
    ensures only { (e : Expression) (r : List Terminal) → IsSimple (200 - depth) e (drop at (terminals tokens.now.list)) r → EndsChain Additive e r → MatchResult result (λ f. (expr_of f.0 ≡ e) × (drop f.1 (terminals tokens.now.list) ≡ r)) (IsFree tokens.now.end (drop at (terminals tokens.now.list))) }
    ensures told { IfErr result RefusalHasText }
{
    part(alloc, Level::Additive, tokens, at, DEEPEST - depth)
}

/// The chain of a level at a place, and the place behind it.
fn part(
    alloc: Global,
    level: Level,
    tokens: &Tokens,
    at: usize,
    left: u32,
) -> Result<(Expr, usize), ParseError>
    requires within { at ≤ length tokens.now.list }
    ensures range { IfOk result (λ f. (at < f.1) × (f.1 ≤ length tokens.now.list)) }
    ensures whole { IfOk result (λ f. Chain level left (expr_of f.0) (drop at (terminals tokens.now.list)) (drop f.1 (terminals tokens.now.list))) }
    ensures refused { IfErr result (Refuses (Chain level) left tokens.now.end (drop at (terminals tokens.now.list))) }
{
    let list = tokens.list.as_slice();
    let (_, rest) = list.split_at(at);
    let (tree, behind) = chain(alloc, level, left, tokens.end, rest)?;
    Ok((tree, list.len() - behind.len()))
}

/// The statement at a place among the tokens, and the place behind it, as for `expression`. Where none begins it is the
/// empty statement.
pub fn statement(
    alloc: Global,
    tokens: &Tokens,
    at: usize,
    depth: u32,
) -> Result<(Stmt, usize), ParseError>
    requires within { at ≤ length tokens.now.list }
    requires depth { depth ≤ 200 }
    ensures range { IfOk result (λ f. (at ≤ f.1) × (f.1 ≤ length tokens.now.list)) }
    ensures spells { IfOk result (λ f. IsStatement (200 - depth) (stmt_of f.0) (drop at (terminals tokens.now.list)) (drop f.1 (terminals tokens.now.list))) }
    ensures whole { IfOk result (λ f. EndsStatement (stmt_of f.0) (drop f.1 (terminals tokens.now.list))) }
    ensures refused { IfErr result (Refuses SomeStatement (200 - depth) tokens.now.end (drop at (terminals tokens.now.list))) }
    ensures only { (s : Statement) (r : List Terminal) → IsStatement (200 - depth) s (drop at (terminals tokens.now.list)) r → EndsStatement s r → MatchResult result (λ f. (stmt_of f.0 ≡ s) × (drop f.1 (terminals tokens.now.list) ≡ r)) (IsFree tokens.now.end (drop at (terminals tokens.now.list))) }
    ensures told { IfErr result RefusalHasText }
{
    statement_part(alloc, tokens, at, DEEPEST - depth)
}

/// The statement at a place, and the place behind it.
fn statement_part(
    alloc: Global,
    tokens: &Tokens,
    at: usize,
    left: u32,
) -> Result<(Stmt, usize), ParseError>
    requires within { at ≤ length tokens.now.list }
    ensures range { IfOk result (λ f. (at ≤ f.1) × (f.1 ≤ length tokens.now.list)) }
    ensures whole { IfOk result (λ f. SomeStatement left (stmt_of f.0) (drop at (terminals tokens.now.list)) (drop f.1 (terminals tokens.now.list))) }
    ensures refused { IfErr result (Refuses SomeStatement left tokens.now.end (drop at (terminals tokens.now.list))) }
{
    let list = tokens.list.as_slice();
    let (_, rest) = list.split_at(at);
    let (tree, behind) = statement_at(alloc, left, tokens.end, rest)?;
    Ok((tree, list.len() - behind.len()))
}

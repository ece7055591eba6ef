//! Statements that repeat others.
ghost use Rattle.std.specs.Prelude.{◌≡◌, ℕ, ◌≤◌, ◌<◌, IfOk, IfErr, length};
ghost use Rattle.op_parse_code.specs.Refusal.{Refuses};
ghost use Rattle.op_parse_code.specs.WholeStatement.{Behind, SomeDirection};
ghost use Rattle.op_scan.specs.declared.token.TokenKind.TheVariants.{For_, Repeat, While_};
ghost use Rattle.op_tree.specs.Statement.{stmt_of};
ghost use Rattle.op_tree.specs.StatementGrammar.{direction_of};
ghost use Rattle.op_tree.specs.Terminal.{terminals};

use crate::ParseError;
use crate::chain::{boxed_expression, chain};
use crate::compound::{boxed_statement, statements};
use crate::error::syntax;
use crate::mark::{Mark, after_mark, behind_mark};
use crate::statement_nodes::{for_in_node, for_node, repeat_node, while_node};
use crate::token::name;
use op_base::Place;
use op_scan::{Token, TokenKind};
use op_tree::{Direction, Level, Position, Stmt};
use std::alloc::Global;

/// What stands behind `while`.
#[cycle(statement)]
#[inline(never)]
pub fn while_loop<'a>(
    alloc: Global,
    position: Position,
    left: u32,
    end: Place,
    tokens: &'a [Token],
) -> Result<(Stmt, &'a [Token]), ParseError>
    ensures whole { IfOk result (λ f. Behind While_ position left (stmt_of f.0) (terminals tokens.now) (terminals f.1.now)) }
    ensures refused { IfErr result (Refuses (Behind While_ position) left end (terminals tokens.now)) }
    ensures shorter { IfOk result (λ f. length f.1.now ≤ length tokens.now) }
{
    let (condition, rest) = chain(alloc, Level::Relational, left, end, tokens)?;
    let rest = after_mark(Mark::Do_, end, rest)?;
    let (body, rest) = boxed_statement(alloc, left, end, rest)?;
    Ok((while_node(condition, body), rest))
}

/// What stands behind `repeat`.
#[cycle(statement)]
#[inline(never)]
pub fn repeat_loop<'a>(
    alloc: Global,
    position: Position,
    left: u32,
    end: Place,
    tokens: &'a [Token],
) -> Result<(Stmt, &'a [Token]), ParseError>
    ensures whole { IfOk result (λ f. Behind Repeat position left (stmt_of f.0) (terminals tokens.now) (terminals f.1.now)) }
    ensures refused { IfErr result (Refuses (Behind Repeat position) left end (terminals tokens.now)) }
    ensures shorter { IfOk result (λ f. length f.1.now ≤ length tokens.now) }
{
    let (body, rest) = statements(alloc, left, end, tokens)?;
    let rest = after_mark(Mark::Until, end, rest)?;
    let (condition, rest) = boxed_expression(alloc, left, end, rest)?;
    Ok((repeat_node(body, condition), rest))
}

/// What stands behind `for`.
#[cycle(statement)]
#[inline(never)]
pub fn for_loop<'a>(
    alloc: Global,
    position: Position,
    left: u32,
    end: Place,
    tokens: &'a [Token],
) -> Result<(Stmt, &'a [Token]), ParseError>
    ensures whole { IfOk result (λ f. Behind For_ position left (stmt_of f.0) (terminals tokens.now) (terminals f.1.now)) }
    ensures refused { IfErr result (Refuses (Behind For_ position) left end (terminals tokens.now)) }
    ensures shorter { IfOk result (λ f. length f.1.now ≤ length tokens.now) }
{
    let (variable, rest) = name(alloc, end, tokens)?;
    match behind_mark(Mark::Assign, rest) {
        Some(after) => {
            let (first, rest) = boxed_expression(alloc, left, end, after)?;
            let (direction, rest) = direction_at(end, rest)?;
            let (last, rest) = boxed_expression(alloc, left, end, rest)?;
            let rest = after_mark(Mark::Do_, end, rest)?;
            let (body, rest) = boxed_statement(alloc, left, end, rest)?;
            Ok((for_node(variable, first, direction, last, body), rest))
        }
        None => {
            let after = after_mark(Mark::In_, end, rest)?;
            let (collection, rest) = boxed_expression(alloc, left, end, after)?;
            let rest = after_mark(Mark::Do_, end, rest)?;
            let (body, rest) = boxed_statement(alloc, left, end, rest)?;
            Ok((for_in_node(variable, collection, body), rest))
        }
    }
}

/// The word `to` or `downto`, with which the tokens must begin.
fn direction_at(end: Place, tokens: &[Token]) -> Result<(Direction, &[Token]), ParseError>
    ensures whole { IfOk result (λ f. SomeDirection 0 f.0 (terminals tokens.now) (terminals f.1.now)) }
    ensures refused { IfErr result (λ e. (d : ℕ) → Refuses SomeDirection d end (terminals tokens.now) e) }
    ensures shorter { IfOk result (λ f. length f.1.now < length tokens.now) }
{
    let Some((first, rest)) = tokens.split_first() else {
        return Err(syntax(end, tokens));
    };
    match direction_of(&first.kind) {
        Some(direction) => Ok((direction, rest)),
        None => Err(syntax(end, tokens)),
    }
}

fn direction_of(kind: &TokenKind) -> Option<Direction>
    ensures { result ≡ direction_of kind.now }
{
    match kind {
        TokenKind::To => Some(Direction::To),
        TokenKind::Downto => Some(Direction::Downto),
        _ => None,
    }
}

//! Statements (Free Pascal Reference Guide, "Statements").
ghost use Rattle.std.specs.Prelude.{◌≤◌, IfOk, IfErr, length};
ghost use Rattle.op_parse_code.specs.Opening.{kind_of_word};
ghost use Rattle.op_parse_code.specs.Refusal.{Refuses};
ghost use Rattle.op_parse_code.specs.WholeStatement.{Behind, SomeStatement, SomeStatements};
ghost use Rattle.op_scan.specs.declared.token.TokenKind.TheVariants.{Begin, If_};
ghost use Rattle.op_tree.specs.Statement.{stmt_of, stmts_of};
ghost use Rattle.op_tree.specs.Terminal.{terminals};

use crate::ParseError;
use crate::branch::case_statement;
use crate::call::{call_or_assignment, inherited_call, raise};
use crate::chain::chain;
use crate::factor::enter;
use crate::handler::try_statement;
use crate::mark::{Mark, after_mark, behind_mark};
use crate::nodes::fitted;
use crate::opening::{StatementOpening, Word, statement_opening};
use crate::repetition::{for_loop, repeat_loop, while_loop};
use crate::statement_nodes::{block_node, boxed_node, if_else_node, if_node};
use crate::token::position_of;
use op_base::Place;
use op_scan::Token;
use op_tree::{Level, Position, Stmt};
use std::alloc::Global;

/// A statement. Where none begins it is the empty one.
#[cycle(statement)]
pub fn statement_at<'a>(
    alloc: Global,
    left: u32,
    end: Place,
    tokens: &'a [Token],
) -> Result<(Stmt, &'a [Token]), ParseError>
    ensures whole { IfOk result (λ f. SomeStatement left (stmt_of f.0) (terminals tokens.now) (terminals f.1.now)) }
    ensures refused { IfErr result (Refuses SomeStatement left end (terminals tokens.now)) }
    ensures shorter { IfOk result (λ f. length f.1.now ≤ length tokens.now) }
{
    let Some((first, rest)) = tokens.split_first() else {
        return Ok((Stmt::Empty, tokens));
    };
    match statement_opening(&first.kind) {
        StatementOpening::Nothing => Ok((Stmt::Empty, tokens)),
        StatementOpening::Designator => {
            let inner = enter(left, end, tokens)?;
            call_or_assignment(alloc, inner, end, tokens)
        }
        StatementOpening::Raise => {
            let inner = enter(left, end, tokens)?;
            raise(alloc, position_of(first), inner, end, tokens, rest)
        }
        StatementOpening::Word(word) => {
            let inner = enter(left, end, tokens)?;
            behind_word(alloc, word, position_of(first), inner, end, rest)
        }
    }
}

/// The statement in a box, where another one holds it: all that the other has of it on the stack is where it is.
#[cycle(statement)]
#[inline(never)]
pub fn boxed_statement<'a>(
    alloc: Global,
    left: u32,
    end: Place,
    tokens: &'a [Token],
) -> Result<(Box<Stmt>, &'a [Token]), ParseError>
    ensures whole { IfOk result (λ f. SomeStatement left (stmt_of f.0.value) (terminals tokens.now) (terminals f.1.now)) }
    ensures refused { IfErr result (Refuses SomeStatement left end (terminals tokens.now)) }
    ensures shorter { IfOk result (λ f. length f.1.now ≤ length tokens.now) }
{
    let (statement, rest) = statement_at(alloc, left, end, tokens)?;
    let boxed = boxed_node(alloc, statement)?;
    Ok((boxed, rest))
}

/// The statement that begins with a word, from the tokens behind it.
#[cycle(statement)]
fn behind_word<'a>(
    alloc: Global,
    word: Word,
    position: Position,
    left: u32,
    end: Place,
    tokens: &'a [Token],
) -> Result<(Stmt, &'a [Token]), ParseError>
    ensures whole { IfOk result (λ f. Behind (kind_of_word word) position left (stmt_of f.0) (terminals tokens.now) (terminals f.1.now)) }
    ensures refused { IfErr result (Refuses (Behind (kind_of_word word) position) left end (terminals tokens.now)) }
    ensures shorter { IfOk result (λ f. length f.1.now ≤ length tokens.now) }
{
    match word {
        Word::Begin => block(alloc, position, left, end, tokens),
        Word::If_ => if_statement(alloc, position, left, end, tokens),
        Word::Case => case_statement(alloc, position, left, end, tokens),
        Word::While_ => while_loop(alloc, position, left, end, tokens),
        Word::Repeat => repeat_loop(alloc, position, left, end, tokens),
        Word::For_ => for_loop(alloc, position, left, end, tokens),
        Word::Try_ => try_statement(alloc, position, left, end, tokens),
        Word::Inherited => inherited_call(alloc, position, left, end, tokens),
    }
}

/// The statements behind `begin`, up to `end`.
#[cycle(statement)]
#[inline(never)]
fn block<'a>(
    alloc: Global,
    position: Position,
    left: u32,
    end: Place,
    tokens: &'a [Token],
) -> Result<(Stmt, &'a [Token]), ParseError>
    ensures whole { IfOk result (λ f. Behind Begin position left (stmt_of f.0) (terminals tokens.now) (terminals f.1.now)) }
    ensures refused { IfErr result (Refuses (Behind Begin position) left end (terminals tokens.now)) }
    ensures shorter { IfOk result (λ f. length f.1.now ≤ length tokens.now) }
{
    let (statements, rest) = statements(alloc, left, end, tokens)?;
    let rest = after_mark(Mark::End, end, rest)?;
    Ok((block_node(statements), rest))
}

/// Statements with semicolons between them.
#[cycle(statement)]
#[inline(never)]
pub fn statements<'a>(
    alloc: Global,
    left: u32,
    end: Place,
    tokens: &'a [Token],
) -> Result<(Vec<Stmt>, &'a [Token]), ParseError>
    ensures whole { IfOk result (λ f. SomeStatements left (stmts_of f.0.items) (terminals tokens.now) (terminals f.1.now)) }
    ensures refused { IfErr result (Refuses SomeStatements left end (terminals tokens.now)) }
    ensures shorter { IfOk result (λ f. length f.1.now ≤ length tokens.now) }
{
    let mut statements = Vec::new(alloc);
    let mut rest = tokens;
    loop {
        let (statement, behind) = statement_at(alloc, left, end, rest)?;
        statements.push(statement)?;
        match behind_mark(Mark::Semicolon, behind) {
            Some(after) => rest = after,
            None => return Ok((fitted(statements), behind)),
        }
    }
}

/// What stands behind `if`. An `else` belongs to the nearest one.
#[cycle(statement)]
#[inline(never)]
fn if_statement<'a>(
    alloc: Global,
    position: Position,
    left: u32,
    end: Place,
    tokens: &'a [Token],
) -> Result<(Stmt, &'a [Token]), ParseError>
    ensures whole { IfOk result (λ f. Behind If_ position left (stmt_of f.0) (terminals tokens.now) (terminals f.1.now)) }
    ensures refused { IfErr result (Refuses (Behind If_ position) left end (terminals tokens.now)) }
    ensures shorter { IfOk result (λ f. length f.1.now ≤ length tokens.now) }
{
    let (condition, rest) = chain(alloc, Level::Relational, left, end, tokens)?;
    let rest = after_mark(Mark::Then, end, rest)?;
    let (then, rest) = boxed_statement(alloc, left, end, rest)?;
    match behind_mark(Mark::Else_, rest) {
        None => Ok((if_node(condition, then), rest)),
        Some(after) => {
            let (otherwise, rest) = boxed_statement(alloc, left, end, after)?;
            Ok((if_else_node(condition, then, otherwise), rest))
        }
    }
}

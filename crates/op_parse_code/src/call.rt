//! Statements that hold no statement.
ghost use Rattle.std.specs.Prelude.{◌≡◌, ◌≤◌, ◌<◌, ◌∷◌, IfOk, IfErr, IfSome, IsTrue, MatchOption, length};
ghost use Rattle.op_parse_code.specs.Refusal.{Refuses};
ghost use Rattle.op_parse_code.specs.Whole.{Marked, NoMark};
ghost use Rattle.op_parse_code.specs.WholeStatement.{Behind, SomeCall, front_is};
ghost use Rattle.op_parse_code.specs.declared.mark.Mark.TheVariants.{Assign};
ghost use Rattle.op_scan.specs.declared.token.TokenKind.TheVariants.{Inherited, Raise};
ghost use Rattle.op_tree.specs.Ends.{begins_designator, begins_expression};
ghost use Rattle.op_tree.specs.Statement.{stmt_of};
ghost use Rattle.op_tree.specs.Terminal.{◌at◌, terminals};

use crate::ParseError;
use crate::chain::{boxed_expression, chain};
use crate::designator::designator;
use crate::mark::{Mark, behind_mark};
use crate::statement_nodes::{assign_node, call_statement_node, inherited_call_node};
use crate::token::position_of;
use op_base::Place;
use op_scan::{Token, TokenKind};
use op_tree::{Level, Position, Stmt};
use std::alloc::Global;

/// A designator, and what is assigned to it.
#[inline(never)]
pub fn call_or_assignment<'a>(
    alloc: Global,
    left: u32,
    end: Place,
    tokens: &'a [Token],
) -> Result<(Stmt, &'a [Token]), ParseError>
    requires { IsTrue (front_is begins_designator (terminals tokens.now)) }
    ensures whole { IfOk result (λ f. SomeCall left (stmt_of f.0) (terminals tokens.now) (terminals f.1.now)) }
    ensures refused { IfErr result (Refuses (SomeCall) left end (terminals tokens.now)) }
    ensures shorter { IfOk result (λ f. length f.1.now ≤ length tokens.now) }
{
    let (target, rest) = designator(alloc, left, end, tokens)?;
    let Some((position, after)) = assignment_at(rest) else {
        return Ok((call_statement_node(target), rest));
    };
    let (value, rest) = boxed_expression(alloc, left, end, after)?;
    Ok((assign_node(target, position, value), rest))
}

/// The statement `raise`, from the tokens behind the word; `all` are those from the word on.
#[inline(never)]
pub fn raise<'a>(
    alloc: Global,
    position: Position,
    left: u32,
    end: Place,
    all: &[Token],
    tokens: &'a [Token],
) -> Result<(Stmt, &'a [Token]), ParseError>
    requires { terminals all.now ≡ Raise at position ∷ terminals tokens.now }
    ensures whole { IfOk result (λ f. Behind Raise position left (stmt_of f.0) (terminals tokens.now) (terminals f.1.now)) }
    ensures refused { IfErr result (Refuses SomeCall left end (terminals all.now)) }
    ensures shorter { IfOk result (λ f. length f.1.now ≤ length tokens.now) }
{
    if !begins_expression(tokens) {
        return Ok((Stmt::Reraise { position }, tokens));
    }
    let (exception, rest) = chain(alloc, Level::Relational, left, end, tokens)?;
    Ok((
        Stmt::Raise {
            position,
            exception,
        },
        rest,
    ))
}

/// What stands behind `inherited`.
#[inline(never)]
pub fn inherited_call<'a>(
    alloc: Global,
    position: Position,
    left: u32,
    end: Place,
    tokens: &'a [Token],
) -> Result<(Stmt, &'a [Token]), ParseError>
    ensures whole { IfOk result (λ f. Behind Inherited position left (stmt_of f.0) (terminals tokens.now) (terminals f.1.now)) }
    ensures refused { IfErr result (Refuses (Behind Inherited position) left end (terminals tokens.now)) }
    ensures shorter { IfOk result (λ f. length f.1.now ≤ length tokens.now) }
{
    if !begins_designator(tokens) {
        return Ok((Stmt::Inherited { position }, tokens));
    }
    let (call, rest) = designator(alloc, left, end, tokens)?;
    Ok((inherited_call_node(position, call), rest))
}

/// The position of a `:=` at the front, and the tokens behind it.
fn assignment_at(tokens: &[Token]) -> Option<(Position, &[Token])>
    ensures stands { MatchOption result (NoMark Assign (terminals tokens.now)) (λ f. Marked Assign 0 f.0 (terminals tokens.now) (terminals f.1.now)) }
    ensures shorter { IfSome result (λ f. length f.1.now < length tokens.now) }
{
    let after = behind_mark(Mark::Assign, tokens)?;
    let (first, _) = tokens.split_first()?;
    Some((position_of(first), after))
}

pub fn begins_expression(tokens: &[Token]) -> bool
    ensures { result ≡ front_is begins_expression (terminals tokens.now) }
{
    match tokens.split_first() {
        Some((first, _)) => opens_expression(&first.kind),
        None => false,
    }
}

fn opens_expression(kind: &TokenKind) -> bool
    ensures { result ≡ begins_expression kind.now }
{
    matches!(
        kind,
        TokenKind::Identifier(_)
            | TokenKind::String
            | TokenKind::OpenParenthesis
            | TokenKind::Number(_)
            | TokenKind::Nil
            | TokenKind::OpenBracket
            | TokenKind::CharacterString(_)
            | TokenKind::Inherited
            | TokenKind::Not
            | TokenKind::Plus
            | TokenKind::Minus
    )
}

fn begins_designator(tokens: &[Token]) -> bool
    ensures { result ≡ front_is begins_designator (terminals tokens.now) }
{
    match tokens.split_first() {
        Some((first, _)) => opens_designator(&first.kind),
        None => false,
    }
}

fn opens_designator(kind: &TokenKind) -> bool
    ensures { result ≡ begins_designator kind.now }
{
    matches!(
        kind,
        TokenKind::Identifier(_) | TokenKind::String | TokenKind::OpenParenthesis
    )
}

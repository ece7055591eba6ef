//! The statement `try` and its handlers.
ghost use Rattle.std.specs.Prelude.{◌≡◌, ◌∷◌, ◌++◌, [], ℕ, ◌≤◌, ◌<◌, IfOk, IfErr, length};
ghost use Rattle.op_parse_code.specs.Refusal.{MadeOf, Refuses};
ghost use Rattle.op_parse_code.specs.WholeStatement.{Behind, ClassTail, SomeExcept, SomeHandlers, SomeOn, begins_handler, class_of, rest_of};
ghost use Rattle.op_scan.specs.declared.token.TokenKind.TheVariants.{Try_};
ghost use Rattle.op_tree.specs.Lists.{handlers_of};
ghost use Rattle.op_tree.specs.Statement.{stmt_of};
ghost use Rattle.op_tree.specs.StatementGrammar.{IsOn};
ghost use Rattle.op_tree.specs.Terminal.{terminals};

use crate::ParseError;
use crate::branch::ends_list;
use crate::compound::{statement_at, statements};
use crate::error::syntax;
use crate::mark::{Mark, after_mark, behind_mark};
use crate::nodes::fitted;
use crate::statement_nodes::try_node;
use crate::token::{is_identifier, is_word, name};
use op_base::Place;
use op_scan::Token;
use op_tree::{Handler, Name, Position, QualifiedName, Stmt};
use std::alloc::Global;

/// What stands behind the body of a `try`.
#[derive(Drop)]
pub enum TryRest {
    Finally(Vec<Stmt>),
    Except(Vec<Stmt>),
    On(Vec<Handler>),
    OnElse(Vec<Handler>, Vec<Stmt>),
}

/// What stands behind `try`.
#[cycle(statement)]
#[inline(never)]
pub fn try_statement<'a>(
    alloc: Global,
    position: Position,
    left: u32,
    end: Place,
    tokens: &'a [Token],
) -> Result<(Stmt, &'a [Token]), ParseError>
    ensures whole { IfOk result (λ f. Behind Try_ position left (stmt_of f.0) (terminals tokens.now) (terminals f.1.now)) }
    ensures refused { IfErr result (Refuses (Behind Try_ position) left end (terminals tokens.now)) }
    ensures shorter { IfOk result (λ f. length f.1.now ≤ length tokens.now) }
{
    let (body, rest) = statements(alloc, left, end, tokens)?;
    match behind_mark(Mark::Finally, rest) {
        Some(after) => {
            let (finalization, rest) = statements(alloc, left, end, after)?;
            let rest = after_mark(Mark::End, end, rest)?;
            Ok((try_node(body, TryRest::Finally(finalization)), rest))
        }
        None => {
            let after = after_mark(Mark::Except, end, rest)?;
            let (others, rest) = except_part(alloc, left, end, after)?;
            Ok((try_node(body, others), rest))
        }
    }
}

/// What stands behind `except`.
#[cycle(statement)]
#[inline(never)]
fn except_part<'a>(
    alloc: Global,
    left: u32,
    end: Place,
    tokens: &'a [Token],
) -> Result<(TryRest, &'a [Token]), ParseError>
    ensures whole { IfOk result (λ f. SomeExcept left (rest_of f.0) (terminals tokens.now) (terminals f.1.now)) }
    ensures refused { IfErr result (Refuses (SomeExcept) left end (terminals tokens.now)) }
    ensures shorter { IfOk result (λ f. length f.1.now ≤ length tokens.now) }
{
    if !begins_handler(tokens) {
        let (handler, rest) = statements(alloc, left, end, tokens)?;
        let rest = after_mark(Mark::End, end, rest)?;
        return Ok((TryRest::Except(handler), rest));
    }
    let (handlers, rest) = handlers(alloc, left, end, tokens)?;
    match behind_mark(Mark::Else_, rest) {
        None => {
            let rest = after_mark(Mark::End, end, rest)?;
            Ok((TryRest::On(handlers), rest))
        }
        Some(after) => {
            let (otherwise, rest) = statements(alloc, left, end, after)?;
            let rest = after_mark(Mark::End, end, rest)?;
            Ok((TryRest::OnElse(handlers, otherwise), rest))
        }
    }
}

/// Handlers, up to `end` or `else`. The last semicolon may be missing.
#[cycle(statement)]
#[inline(never)]
fn handlers<'a>(
    alloc: Global,
    left: u32,
    end: Place,
    tokens: &'a [Token],
) -> Result<(Vec<Handler>, &'a [Token]), ParseError>
    ensures whole { IfOk result (λ f. SomeHandlers left (handlers_of f.0.items) (terminals tokens.now) (terminals f.1.now)) }
    ensures refused { IfErr result (Refuses (SomeHandlers) left end (terminals tokens.now)) }
    ensures shorter { IfOk result (λ f. length f.1.now ≤ length tokens.now) }
{
    let mut handlers = Vec::new(alloc);
    let mut rest = tokens;
    loop {
        if ends_list(rest) {
            return Ok((fitted(handlers), rest));
        }
        let (variable, class, after) = on_clause(alloc, end, rest)?;
        let behind = handled(
            statement_at(alloc, left, end, after),
            variable,
            class,
            &mut handlers,
        )?;
        match behind_mark(Mark::Semicolon, behind) {
            Some(after) => rest = after,
            None => {
                if ends_list(behind) {
                    return Ok((fitted(handlers), behind));
                }
                return Err(syntax(end, behind));
            }
        }
    }
}

/// Puts a handler whose statement was read behind those of a list.
#[inline(never)]
fn handled<'a>(
    read: Result<(Stmt, &'a [Token]), ParseError>,
    variable: Option<Name>,
    class: QualifiedName,
    list: &mut Vec<Handler>,
) -> Result<&'a [Token], ParseError>
    ensures { MadeOf (λ f rest. (list.new.items ≡ list.old.items ++ (record { variable = variable; class = class; body = f.0 } ∷ [])) × (rest.now ≡ f.1.now)) read.entry result }
{
    match read {
        Ok((body, rest)) => {
            list.push(Handler {
                variable,
                class,
                body,
            })?;
            Ok(rest)
        }
        Err(error) => Err(error),
    }
}

/// The word `on` and a name stand at the front: no statement begins so.
fn begins_handler(tokens: &[Token]) -> bool
    ensures { result ≡ begins_handler (terminals tokens.now) }
{
    let Some((first, rest)) = tokens.split_first() else {
        return false;
    };
    let Some((second, _)) = rest.split_first() else {
        return false;
    };
    is_word(b"on", &first.kind) && is_identifier(&second.kind)
}

/// `on variable : class do`, with or without the variable.
fn on_clause<'a>(
    alloc: Global,
    end: Place,
    tokens: &'a [Token],
) -> Result<(Option<Name>, QualifiedName, &'a [Token]), ParseError>
    ensures whole { IfOk result (λ f. IsOn f.0 f.1 (terminals tokens.now) (terminals f.2.now)) }
    ensures refused { IfErr result (λ e. (d : ℕ) → Refuses SomeOn d end (terminals tokens.now) e) }
    ensures shorter { IfOk result (λ f. length f.2.now < length tokens.now) }
{
    let Some((first, rest)) = tokens.split_first() else {
        return Err(syntax(end, tokens));
    };
    if !is_word(b"on", &first.kind) {
        return Err(syntax(end, tokens));
    }
    let (first, rest) = name(alloc, end, rest)?;
    match behind_mark(Mark::Colon, rest) {
        Some(after) => {
            let (class, rest) = name(alloc, end, after)?;
            let (second, rest) = class_tail(alloc, end, rest)?;
            Ok((Some(first), class_of(class, second), rest))
        }
        None => {
            let (second, rest) = class_tail(alloc, end, rest)?;
            Ok((None, class_of(first, second), rest))
        }
    }
}

/// What stands behind the first name of a class, up to `do`: nothing, or a dot and a name.
fn class_tail<'a>(
    alloc: Global,
    end: Place,
    tokens: &'a [Token],
) -> Result<(Option<Name>, &'a [Token]), ParseError>
    ensures whole { IfOk result (λ f. ClassTail 0 f.0 (terminals tokens.now) (terminals f.1.now)) }
    ensures refused { IfErr result (λ e. (d : ℕ) → Refuses ClassTail d end (terminals tokens.now) e) }
    ensures shorter { IfOk result (λ f. length f.1.now < length tokens.now) }
{
    match behind_mark(Mark::Dot, tokens) {
        None => {
            let rest = after_mark(Mark::Do_, end, tokens)?;
            Ok((None, rest))
        }
        Some(after) => {
            let (name, rest) = name(alloc, end, after)?;
            let rest = after_mark(Mark::Do_, end, rest)?;
            Ok((Some(name), rest))
        }
    }
}

fn class_of(first: Name, second: Option<Name>) -> QualifiedName
    ensures { result ≡ class_of first second }
{
    match second {
        None => QualifiedName {
            unit: None,
            name: first,
        },
        Some(name) => QualifiedName {
            unit: Some(first),
            name,
        },
    }
}

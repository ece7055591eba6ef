//! Lists with commas between their parts, each up to the token behind it.
ghost use Rattle.std.specs.Prelude.{◌≡◌, ◌≤◌, List, [], IfOk, IfErr, length};
ghost use Rattle.op_parse_code.specs.Refusal.{Grown, MadeOf, MadeOrRefused, Refuses, refused_at};
ghost use Rattle.op_parse_code.specs.Whole.{Chain, ClosesElements, ElementsBefore, IndicesBefore, InsideCall, Marked, NoMark, SomeArgument, SomeElement};
ghost use Rattle.op_parse_code.specs.declared.mark.Mark.TheVariants.{Colon};
ghost use Rattle.op_tree.specs.Expression.{argument_of, element_of, expr_of, one, padded, range, value};
ghost use Rattle.op_tree.specs.Lists.{arguments_of, expressions_of};
ghost use Rattle.op_tree.specs.Statement.{elements_of};
ghost use Rattle.op_tree.specs.Terminal.{Terminal, terminals};
ghost use Rattle.op_tree.specs.declared.operator.Level.TheVariants.{Relational};
ghost use Rattle.op_tree.specs.declared.position.Position.{Position};

use crate::ParseError;
use crate::chain::{read_chain, unread, unread_boxed};
use crate::error::{FRACTION_WIDTH, left_out};
use crate::mark::{Mark, after_mark, behind_mark};
use crate::nodes::{append, appended, range_node};
use op_base::{NoMemory, Place};
use op_scan::Token;
use op_tree::{Argument, Element, Expr, Level};
use std::alloc::Global;
use std::mem::replace;

/// Elements, up to a mark, into a list of the caller's; what stands behind the mark.
#[cycle(expression)]
#[inline(never)]
pub fn elements<'a>(
    alloc: Global,
    close: Mark,
    left: u32,
    end: Place,
    list: &mut Vec<Element>,
    tokens: &'a [Token],
) -> Result<&'a [Token], ParseError>
    requires { ClosesElements close }
    ensures whole { IfOk result (λ rest. ElementsBefore close left (elements_of list.new.items) (terminals tokens.now) (terminals rest.now)) }
    ensures refused { IfErr result (Refuses (ElementsBefore close) left end (terminals tokens.now)) }
    ensures shorter { IfOk result (λ rest. length rest.now ≤ length tokens.now) }
{
    emptied(list);
    let mut rest = tokens;
    loop {
        let behind = element(alloc, left, end, list, rest)?;
        match behind_mark(Mark::Comma, behind) {
            Some(after) => rest = after,
            None => return after_mark(close, end, behind),
        }
    }
}

/// Puts an expression, or two with `..` between them, behind the elements of a list.
#[cycle(expression)]
fn element<'a>(
    alloc: Global,
    left: u32,
    end: Place,
    list: &mut Vec<Element>,
    tokens: &'a [Token],
) -> Result<&'a [Token], ParseError>
    ensures whole { IfOk result (λ rest. Grown list.old.items list.new.items (λ x. SomeElement left (element_of x) (terminals tokens.now) (terminals rest.now))) }
    ensures refused { IfErr result (Refuses SomeElement left end (terminals tokens.now)) }
    ensures shorter { IfOk result (λ rest. length rest.now ≤ length tokens.now) }
{
    let mut first = unread(end);
    with_last(
        read_chain(alloc, Level::Relational, left, end, &mut first, tokens),
        alloc,
        left,
        end,
        &mut first,
        list,
    )
}

/// Puts an expression that was read, with the last one behind `..` if there is one, behind the elements of a list.
#[cycle(expression)]
#[inline(never)]
fn with_last<'a>(
    read: Result<&'a [Token], ParseError>,
    alloc: Global,
    left: u32,
    end: Place,
    first: &mut Expr,
    list: &mut Vec<Element>,
) -> Result<&'a [Token], ParseError>
    ensures { MadeOrRefused
        (λ behind rest. Grown list.old.items list.new.items (λ x. (ks : List Terminal) → Chain Relational left (expr_of first.old) ks (terminals behind.now) → SomeElement left (element_of x) ks (terminals rest.now)) × (length rest.now ≤ length behind.now))
        (λ behind e. (ks : List Terminal) → Chain Relational left (expr_of first.old) ks (terminals behind.now) → Refuses SomeElement left end ks e)
        read.entry result }
{
    match read {
        Ok(rest) => match behind_mark(Mark::DotDot, rest) {
            None => {
                single(end, first, list)?;
                Ok(rest)
            }
            Some(after) => {
                let mut last = unread_boxed(alloc, end)?;
                ranged(
                    read_chain(alloc, Level::Relational, left, end, &mut *last, after),
                    alloc,
                    end,
                    first,
                    last,
                    list,
                )
            }
        },
        Err(error) => Err(error),
    }
}

/// Puts an expression behind the elements of a list.
#[inline(never)]
fn single(end: Place, first: &mut Expr, list: &mut Vec<Element>) -> Result<(), NoMemory>
    ensures { IfOk result (λ _. Grown list.old.items list.new.items (λ x. element_of x ≡ one (expr_of first.old))) }
{
    let taken = replace(first, unread(end));
    append(list, Element::One(taken))?;
    Ok(())
}

/// Puts an expression and the last one that was read behind it behind the elements of a list.
#[inline(never)]
fn ranged<'a>(
    read: Result<&'a [Token], ParseError>,
    alloc: Global,
    end: Place,
    first: &mut Expr,
    last: Box<Expr>,
    list: &mut Vec<Element>,
) -> Result<&'a [Token], ParseError>
    ensures { MadeOf (λ behind rest. Grown list.old.items list.new.items (λ x. element_of x ≡ range (expr_of first.old) (expr_of last.value)) × (rest.now ≡ behind.now)) read.entry result }
{
    match read {
        Ok(rest) => {
            let taken = replace(first, unread(end));
            let range = range_node(alloc, taken, last)?;
            append(list, range)?;
            Ok(rest)
        }
        Err(error) => Err(error),
    }
}

/// Indices, up to the closing bracket, into a list of the caller's; what stands behind the bracket.
#[cycle(expression)]
#[inline(never)]
pub fn indices<'a>(
    alloc: Global,
    left: u32,
    end: Place,
    list: &mut Vec<Expr>,
    tokens: &'a [Token],
) -> Result<&'a [Token], ParseError>
    ensures whole { IfOk result (λ rest. IndicesBefore left (expressions_of list.new.items) (terminals tokens.now) (terminals rest.now)) }
    ensures refused { IfErr result (Refuses IndicesBefore left end (terminals tokens.now)) }
    ensures shorter { IfOk result (λ rest. length rest.now ≤ length tokens.now) }
{
    emptied(list);
    let mut rest = tokens;
    loop {
        let mut index = unread(end);
        let behind = appended(
            read_chain(alloc, Level::Relational, left, end, &mut index, rest),
            list,
            index,
        )?;
        match behind_mark(Mark::Comma, behind) {
            Some(after) => rest = after,
            None => return after_mark(Mark::CloseBracket, end, behind),
        }
    }
}

/// Arguments, up to the closing bracket, into a list of the caller's; what stands behind the bracket.
#[cycle(expression)]
#[inline(never)]
pub fn arguments<'a>(
    alloc: Global,
    left: u32,
    end: Place,
    list: &mut Vec<Argument>,
    tokens: &'a [Token],
) -> Result<&'a [Token], ParseError>
    ensures whole { IfOk result (λ rest. InsideCall left (arguments_of list.new.items) (terminals tokens.now) (terminals rest.now)) }
    ensures refused { IfErr result (Refuses InsideCall left end (terminals tokens.now)) }
    ensures shorter { IfOk result (λ rest. length rest.now ≤ length tokens.now) }
{
    emptied(list);
    if let Some(rest) = behind_mark(Mark::CloseParenthesis, tokens) {
        return Ok(rest);
    }
    let mut rest = tokens;
    loop {
        let behind = argument(alloc, left, end, list, rest)?;
        match behind_mark(Mark::Comma, behind) {
            Some(after) => rest = after,
            None => return after_mark(Mark::CloseParenthesis, end, behind),
        }
    }
}

/// Empties a list.
#[inline(never)]
fn emptied<T: Drop>(list: &mut Vec<T>)
    ensures { list.new.items ≡ [] }
{
    list.clear();
}

/// Puts an expression, with a width behind a colon if there is one, behind the arguments of a list.
#[cycle(expression)]
fn argument<'a>(
    alloc: Global,
    left: u32,
    end: Place,
    list: &mut Vec<Argument>,
    tokens: &'a [Token],
) -> Result<&'a [Token], ParseError>
    ensures whole { IfOk result (λ rest. Grown list.old.items list.new.items (λ x. SomeArgument left (argument_of x) (terminals tokens.now) (terminals rest.now))) }
    ensures refused { IfErr result (Refuses SomeArgument left end (terminals tokens.now)) }
    ensures shorter { IfOk result (λ rest. length rest.now ≤ length tokens.now) }
{
    let mut shown = unread_boxed(alloc, end)?;
    with_width(
        read_chain(alloc, Level::Relational, left, end, &mut *shown, tokens),
        alloc,
        left,
        end,
        shown,
        list,
    )
}

/// Puts an expression that was read, with a width behind a colon if there is one, behind the arguments of a list.
#[cycle(expression)]
#[inline(never)]
fn with_width<'a>(
    read: Result<&'a [Token], ParseError>,
    alloc: Global,
    left: u32,
    end: Place,
    shown: Box<Expr>,
    list: &mut Vec<Argument>,
) -> Result<&'a [Token], ParseError>
    ensures { MadeOrRefused
        (λ behind rest. Grown list.old.items list.new.items (λ x. (ks : List Terminal) → Chain Relational left (expr_of shown.value) ks (terminals behind.now) → SomeArgument left (argument_of x) ks (terminals rest.now)) × (length rest.now ≤ length behind.now))
        (λ behind e. (ks : List Terminal) → Chain Relational left (expr_of shown.value) ks (terminals behind.now) → Refuses SomeArgument left end ks e)
        read.entry result }
{
    match read {
        Ok(rest) => match behind_mark(Mark::Colon, rest) {
            None => {
                valued(shown, list)?;
                Ok(rest)
            }
            Some(after) => {
                let mut width = unread_boxed(alloc, end)?;
                padded(
                    read_chain(alloc, Level::Relational, left, end, &mut *width, after),
                    end,
                    shown,
                    width,
                    list,
                )
            }
        },
        Err(error) => Err(error),
    }
}

/// Puts an expression behind the arguments of a list.
#[inline(never)]
fn valued(shown: Box<Expr>, list: &mut Vec<Argument>) -> Result<(), NoMemory>
    ensures { IfOk result (λ _. Grown list.old.items list.new.items (λ x. argument_of x ≡ value (expr_of shown.value))) }
{
    let argument = Argument::Value(Box::into_inner(shown));
    append(list, argument)?;
    Ok(())
}

/// Puts an expression and a width that was read behind it behind the arguments of a list.
#[inline(never)]
fn padded<'a>(
    read: Result<&'a [Token], ParseError>,
    end: Place,
    shown: Box<Expr>,
    width: Box<Expr>,
    list: &mut Vec<Argument>,
) -> Result<&'a [Token], ParseError>
    ensures { MadeOrRefused
        (λ behind rest. Grown list.old.items list.new.items (λ x. argument_of x ≡ padded (expr_of shown.value) (expr_of width.value)) × NoMark Colon (terminals behind.now) × (rest.now ≡ behind.now))
        (λ behind e. (e ≡ refused_at 13 35 end (terminals behind.now)) × ((p : Position) × (r : List Terminal) × Marked Colon 0 p (terminals behind.now) r))
        read.entry result }
{
    match read {
        Ok(rest) => match behind_mark(Mark::Colon, rest) {
            None => {
                append(list, Argument::Padded(shown, width))?;
                Ok(rest)
            }
            Some(_) => Err(left_out(FRACTION_WIDTH, end, rest)),
        },
        Err(error) => Err(error),
    }
}

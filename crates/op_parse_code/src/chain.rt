//! Operands with operators between them, level by level (Free Pascal Reference Guide, "Expressions").
ghost use Rattle.std.specs.Prelude.{◌≡◌, ℕ, ◌≤◌, ◌<◌, IfOk, IfErr, IfSome, IsTrue, MatchOption, length};
ghost use Rattle.op_parse_code.specs.Opening.{NoOperator, NotTighter, StandsOperator};
ghost use Rattle.op_parse_code.specs.Refusal.{Extended, Grown, MadeOf, Refuses};
ghost use Rattle.op_parse_code.specs.Whole.{Chain, Factor, Operand, SomeOperations};
ghost use Rattle.op_tree.specs.Expression.{expr_of};
ghost use Rattle.op_tree.specs.ExpressionGrammar.{chain_of};
ghost use Rattle.op_tree.specs.Lists.{operations_of};
ghost use Rattle.op_tree.specs.Terminal.{terminals};
ghost use Rattle.op_tree.specs.declared.operator.Level.TheVariants.{Relational};
ghost use Rattle.op_tree.specs.declared.operator.Operator.TheVariants.{Slash};

use crate::ParseError;
use crate::error::{FLOATING_POINT, left_out};
use crate::factor::factor;
use crate::nodes::{append, chain_node};
use crate::token::position_of;
use op_base::{NoMemory, Place};
use op_scan::{Switches, Token};
use op_tree::{Expr, Level, Operation, Operator, Position, operator_of};
use std::alloc::Global;
use std::mem::replace;

/// An operand, and the operators of a level and operands behind it.
#[inline(never)]
pub fn chain<'a>(
    alloc: Global,
    level: Level,
    left: u32,
    end: Place,
    tokens: &'a [Token],
) -> Result<(Expr, &'a [Token]), ParseError>
    ensures whole { IfOk result (λ f. Chain level left (expr_of f.0) (terminals tokens.now) (terminals f.1.now)) }
    ensures refused { IfErr result (Refuses (Chain level) left end (terminals tokens.now)) }
    ensures shorter { IfOk result (λ f. length f.1.now < length tokens.now) }
{
    let mut tree = unread(end);
    let rest = read_chain(alloc, level, left, end, &mut tree, tokens)?;
    Ok((tree, rest))
}

/// What stands in the place of an expression before it is read.
#[inline(never)]
pub fn unread(end: Place) -> Expr {
    Expr::Nil {
        position: Position {
            place: end,
            switches: Switches::OFF,
        },
    }
}

/// The same in a box.
#[inline(never)]
pub fn unread_boxed(alloc: Global, end: Place) -> Result<Box<Expr>, NoMemory> {
    let boxed = Box::new(alloc, unread(end))?;
    Ok(boxed)
}

/// The chain of a level into a place of the caller's, so that the levels within one another keep no expressions on the stack.
#[cycle(expression)]
#[inline(never)]
pub fn read_chain<'a>(
    alloc: Global,
    level: Level,
    left: u32,
    end: Place,
    tree: &mut Expr,
    tokens: &'a [Token],
) -> Result<&'a [Token], ParseError>
    ensures whole { IfOk result (λ rest. Chain level left (expr_of tree.new) (terminals tokens.now) (terminals rest.now)) }
    ensures refused { IfErr result (Refuses (Chain level) left end (terminals tokens.now)) }
    ensures shorter { IfOk result (λ rest. length rest.now < length tokens.now) }
{
    let behind = read_operand(alloc, level, left, end, tree, tokens)?;
    let mut operations = Vec::new(alloc);
    extend(
        read_operations(alloc, level, left, end, &mut operations, behind),
        alloc,
        end,
        tree,
        operations,
    )
}

/// Makes the chain of an operand and the operations that were read behind it; where there is none the operand stays.
#[inline(never)]
fn extend<'a>(
    read: Result<&'a [Token], ParseError>,
    alloc: Global,
    end: Place,
    tree: &mut Expr,
    operations: Vec<Operation>,
) -> Result<&'a [Token], ParseError>
    ensures { MadeOf (λ behind rest. (expr_of tree.new ≡ chain_of (expr_of tree.old) (operations_of operations.items)) × (rest.now ≡ behind.now)) read.entry result }
{
    match read {
        Ok(rest) => {
            if operations.is_empty() {
                return Ok(rest);
            }
            let first = replace(tree, unread(end));
            let chain = chain_node(alloc, first, operations)?;
            *tree = chain;
            Ok(rest)
        }
        Err(error) => Err(error),
    }
}

/// The operators of a level and operands at the front. Before them stands an operand of the level.
#[inline(never)]
pub fn operations<'a>(
    alloc: Global,
    level: Level,
    left: u32,
    end: Place,
    tokens: &'a [Token],
) -> Result<(Vec<Operation>, &'a [Token]), ParseError>
    requires follows { NotTighter level (terminals tokens.now) }
    ensures whole { IfOk result (λ f. SomeOperations level left (operations_of f.0.items) (terminals tokens.now) (terminals f.1.now)) }
    ensures refused { IfErr result (Refuses (SomeOperations level) left end (terminals tokens.now)) }
    ensures shorter { IfOk result (λ f. length f.1.now ≤ length tokens.now) }
{
    let mut operations = Vec::new(alloc);
    let rest = read_operations(alloc, level, left, end, &mut operations, tokens)?;
    Ok((operations, rest))
}

/// The same behind those of a list of the caller's.
#[cycle(expression)]
#[inline(never)]
fn read_operations<'a>(
    alloc: Global,
    level: Level,
    left: u32,
    end: Place,
    list: &mut Vec<Operation>,
    tokens: &'a [Token],
) -> Result<&'a [Token], ParseError>
    requires follows { NotTighter level (terminals tokens.now) }
    ensures whole { IfOk result (λ rest. Extended list.old.items list.new.items (λ xs. SomeOperations level left (operations_of xs) (terminals tokens.now) (terminals rest.now))) }
    ensures refused { IfErr result (Refuses (SomeOperations level) left end (terminals tokens.now)) }
    ensures shorter { IfOk result (λ rest. length rest.now ≤ length tokens.now) }
{
    let mut rest = tokens;
    while let Some(after) = begin_operation(level, end, list, rest)? {
        if let Some(operation) = list.last_mut() {
            rest = read_operand(alloc, level, left, end, &mut operation.operand, after)?;
        }
    }
    Ok(rest)
}

/// Puts the operator of a level that stands at the front, if one does, behind the operations of a list. Its operand is still to
/// be read.
#[inline(never)]
fn begin_operation<'a>(
    level: Level,
    end: Place,
    list: &mut Vec<Operation>,
    tokens: &'a [Token],
) -> Result<Option<&'a [Token]>, ParseError>
    ensures stands { IfOk result (λ found. MatchOption found (NoOperator level (terminals tokens.now) × (list.new.items ≡ list.old.items))
        (λ after. Grown list.old.items list.new.items (λ x. StandsOperator level x.operator x.position (terminals tokens.now) (terminals after.now)))) }
    ensures refused { IfErr result (λ e. (d : ℕ) → Refuses (SomeOperations level) d end (terminals tokens.now) e) }
    ensures shorter { IfOk result (λ found. IfSome found (λ after. length after.now < length tokens.now)) }
{
    let Some((operator, position, after)) = operator_at(level, tokens) else {
        return Ok(None);
    };
    if is_slash(operator) {
        return Err(left_out(FLOATING_POINT, end, tokens));
    }
    let operation = Operation {
        operator,
        position,
        operand: unread(end),
    };
    append(list, operation)?;
    Ok(Some(after))
}

/// The operator of a level at the front, its position, and the tokens behind it.
fn operator_at(level: Level, tokens: &[Token]) -> Option<(Operator, Position, &[Token])>
    ensures stands { MatchOption result (NoOperator level (terminals tokens.now))
        (λ f. StandsOperator level f.0 f.1 (terminals tokens.now) (terminals f.2.now)) }
    ensures shorter { IfSome result (λ f. length f.2.now < length tokens.now) }
{
    let (first, rest) = tokens.split_first()?;
    let operator = operator_of(&first.kind)?;
    if operator.level() == level {
        Some((operator, position_of(first), rest))
    } else {
        None
    }
}

fn is_slash(operator: Operator) -> bool
    ensures { IsTrue result → operator ≡ Slash }
{
    matches!(operator, Operator::Slash)
}

/// An operand of a chain of a level, into a place of the caller's.
#[cycle(expression)]
fn read_operand<'a>(
    alloc: Global,
    level: Level,
    left: u32,
    end: Place,
    tree: &mut Expr,
    tokens: &'a [Token],
) -> Result<&'a [Token], ParseError>
    ensures whole { IfOk result (λ rest. Operand level left (expr_of tree.new) (terminals tokens.now) (terminals rest.now)) }
    ensures refused { IfErr result (Refuses (Operand level) left end (terminals tokens.now)) }
    ensures shorter { IfOk result (λ rest. length rest.now < length tokens.now) }
{
    match level {
        Level::Relational => read_chain(alloc, Level::Additive, left, end, tree, tokens),
        Level::Additive => read_chain(alloc, Level::Multiplicative, left, end, tree, tokens),
        Level::Multiplicative => read_factor(alloc, left, end, tree, tokens),
    }
}

/// A factor, into a place of the caller's.
#[cycle(expression)]
#[inline(never)]
fn read_factor<'a>(
    alloc: Global,
    left: u32,
    end: Place,
    tree: &mut Expr,
    tokens: &'a [Token],
) -> Result<&'a [Token], ParseError>
    ensures whole { IfOk result (λ rest. Factor left (expr_of tree.new) (terminals tokens.now) (terminals rest.now)) }
    ensures refused { IfErr result (Refuses Factor left end (terminals tokens.now)) }
    ensures shorter { IfOk result (λ rest. length rest.now < length tokens.now) }
{
    put(tree, factor(alloc, left, end, tokens))
}

/// Puts an expression that was read into a place.
#[inline(never)]
fn put<'a>(
    tree: &mut Expr,
    read: Result<(Expr, &'a [Token]), ParseError>,
) -> Result<&'a [Token], ParseError>
    ensures { MadeOf (λ f rest. (tree.new ≡ f.0) × (rest.now ≡ f.1.now)) read.entry result }
{
    match read {
        Ok((expression, rest)) => {
            *tree = expression;
            Ok(rest)
        }
        Err(error) => Err(error),
    }
}

/// An expression in a box.
#[inline(never)]
pub fn boxed_expression<'a>(
    alloc: Global,
    left: u32,
    end: Place,
    tokens: &'a [Token],
) -> Result<(Box<Expr>, &'a [Token]), ParseError>
    ensures whole { IfOk result (λ f. Chain Relational left (expr_of f.0.value) (terminals tokens.now) (terminals f.1.now)) }
    ensures refused { IfErr result (Refuses (Chain Relational) left end (terminals tokens.now)) }
    ensures shorter { IfOk result (λ f. length f.1.now < length tokens.now) }
{
    let (expression, rest) = chain(alloc, Level::Relational, left, end, tokens)?;
    let boxed = Box::new(alloc, expression)?;
    Ok((boxed, rest))
}

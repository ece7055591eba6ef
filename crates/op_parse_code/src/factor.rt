//! Factors: what stands between two operators.
ghost use Rattle.std.specs.Prelude.{◌≡◌, ◌≤◌, ◌<◌, ◌∷◌, Some, suc, IfOk, IfErr, length};
ghost use Rattle.op_parse_code.specs.Opening.{spelled};
ghost use Rattle.op_parse_code.specs.Refusal.{MadeOf, Refuses, refused_at};
ghost use Rattle.op_parse_code.specs.Whole.{CannotEnter, Factor, InsideSet};
ghost use Rattle.op_scan.specs.declared.token.TokenKind.TheVariants.{CharacterString, Inherited};
ghost use Rattle.op_tree.specs.Expression.{Elements, designated, expr_of, inherited, set};
ghost use Rattle.op_tree.specs.Operator.{prefix_operator_of};
ghost use Rattle.op_tree.specs.Statement.{designator_of, elements_of};
ghost use Rattle.op_tree.specs.Terminal.{terminal_of, terminals};

use crate::ParseError;
use crate::call::begins_expression;
use crate::designator::{designator, selectors};
use crate::error::{nested, syntax};
use crate::list::elements;
use crate::mark::{Mark, behind_mark};
use crate::nodes::{designator_node, inherited_node, literal_node, prefix_node, set_node};
use crate::opening::{FactorOpening, factor_opening};
use crate::token::{position_of, spelled};
use op_base::Place;
use op_scan::Token;
use op_tree::{Designator, Element, Expr, Position, PrefixOperator};
use std::alloc::Global;

/// A factor.
#[cycle(expression)]
#[inline(never)]
pub fn factor<'a>(
    alloc: Global,
    left: u32,
    end: Place,
    tokens: &'a [Token],
) -> Result<(Expr, &'a [Token]), ParseError>
    ensures whole { IfOk result (λ f. Factor left (expr_of f.0) (terminals tokens.now) (terminals f.1.now)) }
    ensures refused { IfErr result (Refuses Factor left end (terminals tokens.now)) }
    ensures shorter { IfOk result (λ f. length f.1.now < length tokens.now) }
{
    let Some((first, rest)) = tokens.split_first() else {
        return Err(syntax(end, tokens));
    };
    let position = position_of(first);
    match factor_opening(&first.kind) {
        FactorOpening::Number(value) => Ok((Expr::Number { value, position }, rest)),
        FactorOpening::Nil => Ok((Expr::Nil { position }, rest)),
        FactorOpening::Set => {
            let inner = enter(left, end, tokens)?;
            set_elements(alloc, position, inner, end, rest)
        }
        FactorOpening::Literal => literal(alloc, left, end, first, rest),
        FactorOpening::Inherited => inherited(alloc, left, end, first, rest),
        FactorOpening::Prefix(operator) => prefixed(alloc, operator, left, end, first, rest),
        FactorOpening::Designator => designated(designator(alloc, left, end, tokens)),
        FactorOpening::Nothing => Err(syntax(end, tokens)),
    }
}

/// The set of the elements that were read.
#[inline(never)]
fn set_factor<'a>(
    read: Result<&'a [Token], ParseError>,
    position: Position,
    elements: Vec<Element>,
) -> Result<(Expr, &'a [Token]), ParseError>
    ensures { MadeOf (λ rest f. (expr_of f.0 ≡ set position (elements_of elements.items)) × (f.1.now ≡ rest.now)) read.entry result }
{
    match read {
        Ok(rest) => Ok((set_node(position, elements), rest)),
        Err(error) => Err(error),
    }
}

/// The factor of a designator that was read.
#[inline(never)]
fn designated<'a>(
    read: Result<(Designator, &'a [Token]), ParseError>,
) -> Result<(Expr, &'a [Token]), ParseError>
    ensures { MadeOf (λ g f. (expr_of f.0 ≡ designated (designator_of g.0)) × (f.1.now ≡ g.1.now)) read.entry result }
{
    match read {
        Ok((designator, rest)) => Ok((designator_node(designator), rest)),
        Err(error) => Err(error),
    }
}

/// What stands behind a string, with that token.
#[cycle(expression)]
#[inline(never)]
fn literal<'a>(
    alloc: Global,
    left: u32,
    end: Place,
    first: &Token,
    tokens: &'a [Token],
) -> Result<(Expr, &'a [Token]), ParseError>
    requires { first.now.kind ≡ CharacterString (spelled first.now.kind) }
    ensures whole { IfOk result (λ f. Factor left (expr_of f.0) (terminal_of first.now ∷ terminals tokens.now) (terminals f.1.now)) }
    ensures refused { IfErr result (Refuses Factor left end (terminal_of first.now ∷ terminals tokens.now)) }
    ensures shorter { IfOk result (λ f. length f.1.now ≤ length tokens.now) }
{
    let position = position_of(first);
    let text = spelled(alloc, &first.kind)?;
    let (selectors, rest) = selectors(alloc, left, end, tokens)?;
    Ok((literal_node(text, position, selectors), rest))
}

/// What stands behind `inherited`, with that token.
#[cycle(expression)]
#[inline(never)]
fn inherited<'a>(
    alloc: Global,
    left: u32,
    end: Place,
    first: &Token,
    tokens: &'a [Token],
) -> Result<(Expr, &'a [Token]), ParseError>
    requires { first.now.kind ≡ Inherited }
    ensures whole { IfOk result (λ f. Factor left (expr_of f.0) (terminal_of first.now ∷ terminals tokens.now) (terminals f.1.now)) }
    ensures refused { IfErr result (Refuses Factor left end (terminal_of first.now ∷ terminals tokens.now)) }
    ensures shorter { IfOk result (λ f. length f.1.now ≤ length tokens.now) }
{
    let position = position_of(first);
    inherited_factor(designator(alloc, left, end, tokens), alloc, position)
}

/// The factor of a designator that was read behind `inherited` at a position.
#[inline(never)]
fn inherited_factor<'a>(
    read: Result<(Designator, &'a [Token]), ParseError>,
    alloc: Global,
    position: Position,
) -> Result<(Expr, &'a [Token]), ParseError>
    ensures { MadeOf (λ g f. (expr_of f.0 ≡ inherited position (designator_of g.0)) × (f.1.now ≡ g.1.now)) read.entry result }
{
    match read {
        Ok((designator, rest)) => {
            let factor = inherited_node(alloc, position, designator)?;
            Ok((factor, rest))
        }
        Err(error) => Err(error),
    }
}

/// What stands behind a sign or `not`, with that token.
#[cycle(expression)]
#[inline(never)]
fn prefixed<'a>(
    alloc: Global,
    operator: PrefixOperator,
    left: u32,
    end: Place,
    first: &Token,
    tokens: &'a [Token],
) -> Result<(Expr, &'a [Token]), ParseError>
    requires { prefix_operator_of first.now.kind ≡ Some operator }
    ensures whole { IfOk result (λ f. Factor left (expr_of f.0) (terminal_of first.now ∷ terminals tokens.now) (terminals f.1.now)) }
    ensures refused { IfErr result (Refuses Factor left end (terminal_of first.now ∷ terminals tokens.now)) }
    ensures shorter { IfOk result (λ f. length f.1.now ≤ length tokens.now) }
{
    let position = position_of(first);
    let inner = enter_operand(left, end, tokens)?;
    let (operand, rest) = factor(alloc, inner, end, tokens)?;
    let factor = prefix_node(alloc, operator, position, operand)?;
    Ok((factor, rest))
}

/// The set whose opening bracket stands at a position, from the elements behind it, up to the closing one.
#[cycle(expression)]
#[inline(never)]
fn set_elements<'a>(
    alloc: Global,
    position: Position,
    left: u32,
    end: Place,
    tokens: &'a [Token],
) -> Result<(Expr, &'a [Token]), ParseError>
    ensures whole { IfOk result (λ f. (es : Elements) × (expr_of f.0 ≡ set position es) × InsideSet left es (terminals tokens.now) (terminals f.1.now)) }
    ensures refused { IfErr result (Refuses InsideSet left end (terminals tokens.now)) }
    ensures shorter { IfOk result (λ f. length f.1.now ≤ length tokens.now) }
{
    match behind_mark(Mark::CloseBracket, tokens) {
        Some(rest) => Ok((set_node(position, Vec::new(alloc)), rest)),
        None => {
            let mut list = Vec::new(alloc);
            set_factor(
                elements(alloc, Mark::CloseBracket, left, end, &mut list, tokens),
                position,
                list,
            )
        }
    }
}

/// The depth that is left inside a bracket at the front.
pub fn enter(left: u32, end: Place, tokens: &[Token]) -> Result<u32, ParseError>
    ensures inside { IfOk result (λ inner. left ≡ suc inner) }
    ensures refused { IfErr result (λ e. (left ≡ 0) × (e ≡ refused_at 61 0 end (terminals tokens.now))) }
{
    if left == 0 {
        return Err(nested(end, tokens));
    }
    Ok(left - 1)
}

/// The depth that is left for the operand of a sign or `not`, which is to stand at the front.
fn enter_operand(left: u32, end: Place, tokens: &[Token]) -> Result<u32, ParseError>
    ensures inside { IfOk result (λ inner. left ≡ suc inner) }
    ensures refused { IfErr result (λ e. (left ≡ 0) × CannotEnter end (terminals tokens.now) e) }
{
    if left > 0 {
        return Ok(left - 1);
    }
    if begins_expression(tokens) {
        return Err(nested(end, tokens));
    }
    Err(syntax(end, tokens))
}

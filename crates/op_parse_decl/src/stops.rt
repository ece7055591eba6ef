//! What may not follow a part.
ghost use Rattle.std.specs.Prelude.{◌≡◌, ℕ, IfOk, IfErr};
ghost use Rattle.op_parse_decl.specs.Refusal.{RefusesHere};
ghost use Rattle.op_parse_code.specs.Whole.{NoMark};
ghost use Rattle.op_parse_code.specs.declared.mark.Mark.TheVariants as mark;
ghost use Rattle.op_parse_decl.specs.Opening.{continues_expression, continues_type};
ghost use Rattle.op_parse_decl.specs.Types.{NoDot, NoMoreExpression, NoMoreType};
ghost use Rattle.op_tree.specs.Ends.{Stops, StopsDenoter, begins_selector, binds, is_dot_dot};
ghost use Rattle.op_tree.specs.Terminal.{terminals};
ghost use Rattle.op_tree.specs.declared.operator.Level.TheVariants.{Additive, Relational};

use op_base::Place;
use op_parse_code::ParseError;
use op_parse_code::shared::{Mark, behind_mark, syntax};
use op_scan::{Token, TokenKind};
use op_tree::{Level, operator_of};

/// A type must not go on there.
pub fn stop_type(end: Place, tokens: &[Token]) -> Result<(), ParseError>
    ensures stops { IfOk result (λ _. StopsDenoter (terminals tokens.now)) }
    ensures refused { IfErr result (λ e. (d : ℕ) → RefusesHere NoMoreType d end (terminals tokens.now) e) }
{
    let Some((first, _)) = tokens.split_first() else {
        return Ok(());
    };
    if continues_type(&first.kind) {
        return Err(syntax(end, tokens));
    }
    Ok(())
}

/// An expression must not go on there.
pub fn stop_expression(end: Place, tokens: &[Token]) -> Result<(), ParseError>
    ensures stops { IfOk result (λ _. Stops (terminals tokens.now)) }
    ensures refused { IfErr result (λ e. (d : ℕ) → RefusesHere NoMoreExpression d end (terminals tokens.now) e) }
{
    let Some((first, _)) = tokens.split_first() else {
        return Ok(());
    };
    if continues_expression(&first.kind) {
        return Err(syntax(end, tokens));
    }
    Ok(())
}

/// No dot may stand there.
pub fn no_dot(end: Place, tokens: &[Token]) -> Result<(), ParseError>
    ensures stops { IfOk result (λ _. NoMark mark.Dot (terminals tokens.now)) }
    ensures refused { IfErr result (λ e. (d : ℕ) → RefusesHere NoDot d end (terminals tokens.now) e) }
{
    match behind_mark(Mark::Dot, tokens) {
        None => Ok(()),
        Some(_) => Err(syntax(end, tokens)),
    }
}

fn continues_type(kind: &TokenKind) -> bool
    ensures { result ≡ continues_type kind.now }
{
    is_additive(kind) || begins_selector(kind) || is_dot_dot(kind)
}

fn continues_expression(kind: &TokenKind) -> bool
    ensures { result ≡ continues_expression kind.now }
{
    is_operator(kind) || begins_selector(kind)
}

fn is_operator(kind: &TokenKind) -> bool
    ensures { result ≡ binds Relational kind.now }
{
    operator_of(kind).is_some()
}

/// An operator that may stand in a bound of a subrange.
fn is_additive(kind: &TokenKind) -> bool
    ensures { result ≡ binds Additive kind.now }
{
    match operator_of(kind) {
        None => false,
        Some(operator) => operator.level() != Level::Relational,
    }
}

fn begins_selector(kind: &TokenKind) -> bool
    ensures { result ≡ begins_selector kind.now }
{
    matches!(
        kind,
        TokenKind::Dot | TokenKind::OpenBracket | TokenKind::OpenParenthesis
    )
}

fn is_dot_dot(kind: &TokenKind) -> bool
    ensures { result ≡ is_dot_dot kind.now }
{
    matches!(kind, TokenKind::DotDot)
}

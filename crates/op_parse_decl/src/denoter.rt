//! Types as they are written, but for classes and interfaces (Free Pascal Reference Guide, "Types").
ghost use Rattle.std.specs.Prelude.{◌≡◌, ◌∷◌, ◌≤◌, ◌<◌, ℕ, true, false, IfOk, IfErr, length};
ghost use Rattle.op_parse_decl.specs.Refusal.{RefusesPart};
ghost use Rattle.op_parse_decl.specs.Opening.{lists_names};
ghost use Rattle.op_parse_decl.specs.Types.{DenoterBehind, DenotersBefore, FieldsBefore, RecordFields, SomeBounded, SomeDenoter, SomeFields, SomeIndices, SomeStructure};
ghost use Rattle.op_scan.specs.declared.token.TokenKind.TheVariants as kind;
ghost use Rattle.op_tree.proofs.ExpressionUnique.{Begins};
ghost use Rattle.op_tree.specs.Denoter.{denoter_of};
ghost use Rattle.op_tree.specs.Ends.{begins_expression};
ghost use Rattle.op_tree.specs.Lists.{denoters_of, field_lists_of};
ghost use Rattle.op_tree.specs.Terminal.{◌at◌, terminals};
ghost use Rattle.op_tree.specs.declared.position.Position.{Position};

use crate::form::{
    GIVEN_VALUE, PROCEDURAL_TYPE, form_of_bound, form_of_record, gives_value, is_procedural,
};
use crate::names::names;
use crate::nodes::{array_node, denoted, record_node, set_node, subrange_node};
use crate::opening::{DenoterOpening, denoter_opening};
use crate::part::{Answer, Setting};
use crate::stops::stop_type;
use op_base::Place;
use op_parse_code::ParseError;
use op_parse_code::shared::{
    Mark, after_mark, behind_mark, chain, enter, is_identifier, left_out, position_of, syntax, told,
};
use op_scan::Token;
use op_tree::{Fields, Level, Position, TypeDenoter};

/// A type, before what belongs to none.
#[cycle(denoter)]
pub fn denoter<'a>(setting: Setting, tokens: &'a [Token]) -> Answer<'a, TypeDenoter>
    ensures whole { IfOk result (λ f. SomeDenoter setting.left (denoter_of f.0) (terminals tokens.now) (terminals f.1.now)) }
    ensures refused { IfErr result (RefusesPart SomeDenoter setting.left setting.end (terminals tokens.now)) }
    ensures shorter { IfOk result (λ f. length f.1.now < length tokens.now) }
{
    let Some((first, rest)) = tokens.split_first() else {
        return Err(syntax(setting.end, tokens));
    };
    let position = position_of(first);
    match denoter_opening(&first.kind) {
        DenoterOpening::Nothing => Err(syntax(setting.end, tokens)),
        DenoterOpening::LeftOut(feature) => Err(left_out(feature, setting.end, tokens)),
        DenoterOpening::Procedural => {
            if is_procedural(tokens) {
                return Err(left_out(PROCEDURAL_TYPE, setting.end, tokens));
            }
            Err(syntax(setting.end, tokens))
        }
        DenoterOpening::Bound => {
            let left = enter(setting.left, setting.end, tokens)?;
            bounded(Setting { left, ..setting }, tokens)
        }
        DenoterOpening::Set => {
            let left = enter(setting.left, setting.end, tokens)?;
            set(Setting { left, ..setting }, position, rest)
        }
        DenoterOpening::Array => {
            let left = enter(setting.left, setting.end, tokens)?;
            array(Setting { left, ..setting }, position, false, rest)
        }
        DenoterOpening::Record => {
            let left = enter(setting.left, setting.end, tokens)?;
            record(Setting { left, ..setting }, position, false, rest)
        }
        DenoterOpening::Packed => {
            let left = enter(setting.left, setting.end, tokens)?;
            packed(Setting { left, ..setting }, position, rest)
        }
    }
}

/// What stands behind `set`.
#[cycle(denoter)]
fn set<'a>(setting: Setting, position: Position, tokens: &'a [Token]) -> Answer<'a, TypeDenoter>
    ensures whole { IfOk result (λ f. DenoterBehind kind.Set position setting.left (denoter_of f.0) (terminals tokens.now) (terminals f.1.now)) }
    ensures refused { IfErr result (RefusesPart (DenoterBehind kind.Set position) setting.left setting.end (terminals tokens.now)) }
    ensures shorter { IfOk result (λ f. length f.1.now < length tokens.now) }
{
    let rest = after_mark(Mark::Of, setting.end, tokens)?;
    let (base, rest) = denoter(setting, rest)?;
    let node = set_node(setting.alloc, position, base)?;
    Ok((node, rest))
}

/// What stands behind `packed`: an array or a record.
#[cycle(denoter)]
fn packed<'a>(setting: Setting, position: Position, tokens: &'a [Token]) -> Answer<'a, TypeDenoter>
    ensures whole { IfOk result (λ f. SomeStructure position true setting.left (denoter_of f.0) (terminals tokens.now) (terminals f.1.now)) }
    ensures refused { IfErr result (RefusesPart (SomeStructure position true) setting.left setting.end (terminals tokens.now)) }
    ensures shorter { IfOk result (λ f. length f.1.now < length tokens.now) }
{
    match behind_mark(Mark::Array, tokens) {
        Some(rest) => array(setting, position, true, rest),
        None => {
            let rest = after_mark(Mark::Record, setting.end, tokens)?;
            record(setting, position, true, rest)
        }
    }
}

/// What stands behind `array`.
#[cycle(denoter)]
fn array<'a>(
    setting: Setting,
    position: Position,
    packed: bool,
    tokens: &'a [Token],
) -> Answer<'a, TypeDenoter>
    ensures whole { IfOk result (λ f. (q : Position) → SomeStructure position packed setting.left (denoter_of f.0) (kind.Array at q ∷ terminals tokens.now) (terminals f.1.now)) }
    ensures refused { IfErr result (λ e. (q : Position) → RefusesPart (SomeStructure position packed) setting.left setting.end (kind.Array at q ∷ terminals tokens.now) e) }
    ensures shorter { IfOk result (λ f. length f.1.now < length tokens.now) }
{
    let (indices, rest) = indices(setting, tokens)?;
    let (element, rest) = denoter(setting, rest)?;
    let node = array_node(setting.alloc, position, packed, indices, element)?;
    Ok((node, rest))
}

/// What stands between `array` and the type of its elements.
#[cycle(denoter)]
fn indices<'a>(setting: Setting, tokens: &'a [Token]) -> Answer<'a, Vec<TypeDenoter>>
    ensures whole { IfOk result (λ f. SomeIndices setting.left (denoters_of f.0.items) (terminals tokens.now) (terminals f.1.now)) }
    ensures refused { IfErr result (RefusesPart SomeIndices setting.left setting.end (terminals tokens.now)) }
    ensures shorter { IfOk result (λ f. length f.1.now < length tokens.now) }
{
    match behind_mark(Mark::OpenBracket, tokens) {
        None => {
            let rest = after_mark(Mark::Of, setting.end, tokens)?;
            Ok((Vec::new(setting.alloc), rest))
        }
        Some(rest) => {
            let left = enter(setting.left, setting.end, tokens)?;
            let (indices, rest) = index_types(Setting { left, ..setting }, rest)?;
            let rest = after_mark(Mark::Of, setting.end, rest)?;
            Ok((indices, rest))
        }
    }
}

/// Types, up to the closing bracket, and what stands behind it.
#[cycle(denoter)]
fn index_types<'a>(setting: Setting, tokens: &'a [Token]) -> Answer<'a, Vec<TypeDenoter>>
    ensures whole { IfOk result (λ f. DenotersBefore setting.left (denoters_of f.0.items) (terminals tokens.now) (terminals f.1.now)) }
    ensures refused { IfErr result (RefusesPart DenotersBefore setting.left setting.end (terminals tokens.now)) }
    ensures shorter { IfOk result (λ f. length f.1.now < length tokens.now) }
{
    let mut types = Vec::new(setting.alloc);
    let mut rest = tokens;
    loop {
        let (index, behind) = denoter(setting, rest)?;
        types.push(index)?;
        match behind_mark(Mark::Comma, behind) {
            Some(after) => rest = after,
            None => {
                let rest = after_mark(Mark::CloseBracket, setting.end, behind)?;
                return Ok((types, rest));
            }
        }
    }
}

/// What stands behind `record`.
#[cycle(denoter)]
fn record<'a>(
    setting: Setting,
    position: Position,
    packed: bool,
    tokens: &'a [Token],
) -> Answer<'a, TypeDenoter>
    ensures whole { IfOk result (λ f. (q : Position) → SomeStructure position packed setting.left (denoter_of f.0) (kind.Record at q ∷ terminals tokens.now) (terminals f.1.now)) }
    ensures refused { IfErr result (λ e. (q : Position) → RefusesPart (SomeStructure position packed) setting.left setting.end (kind.Record at q ∷ terminals tokens.now) e) }
    ensures shorter { IfOk result (λ f. length f.1.now < length tokens.now) }
{
    let (fields, rest) = field_lists(setting, tokens)?;
    stop_type(setting.end, rest)?;
    Ok((record_node(position, packed, fields), rest))
}

/// The fields of a record, up to its end. The last semicolon may be missing.
#[cycle(denoter)]
fn field_lists<'a>(setting: Setting, tokens: &'a [Token]) -> Answer<'a, Vec<Fields>>
    ensures whole { IfOk result (λ f. FieldsBefore setting.left (field_lists_of f.0.items) (terminals tokens.now) (terminals f.1.now)) }
    ensures refused { IfErr result (λ e. (q : Position) → RefusesPart RecordFields setting.left setting.end (kind.Record at q ∷ terminals tokens.now) e) }
    ensures shorter { IfOk result (λ f. length f.1.now < length tokens.now) }
{
    let mut lists = Vec::new(setting.alloc);
    let mut rest = tokens;
    loop {
        if let Some(after) = behind_mark(Mark::End, rest) {
            return Ok((lists, after));
        }
        if let Some(feature) = form_of_record(rest) {
            return Err(left_out(feature, setting.end, rest));
        }
        let (fields, behind) = fields_of_one_type(setting, rest)?;
        lists.push(fields)?;
        match behind_mark(Mark::Semicolon, behind) {
            Some(after) => rest = after,
            None => {
                let rest = after_mark(Mark::End, setting.end, behind)?;
                return Ok((lists, rest));
            }
        }
    }
}

/// Names, a colon and a type.
#[cycle(denoter)]
pub fn fields_of_one_type<'a>(setting: Setting, tokens: &'a [Token]) -> Answer<'a, Fields>
    ensures whole { IfOk result (λ f. SomeFields setting.left (f.0.names, denoter_of f.0.denoter) (terminals tokens.now) (terminals f.1.now)) }
    ensures refused { IfErr result (RefusesPart SomeFields setting.left setting.end (terminals tokens.now)) }
    ensures shorter { IfOk result (λ f. length f.1.now < length tokens.now) }
{
    let (names, rest) = names(setting, tokens)?;
    let rest = after_mark(Mark::Colon, setting.end, rest)?;
    let (denoter, rest) = denoter(setting, rest)?;
    Ok((Fields { names, denoter }, rest))
}

/// A type that begins as a bound of a subrange does: an enumeration, a subrange or a name.
fn bounded<'a>(setting: Setting, tokens: &'a [Token]) -> Answer<'a, TypeDenoter>
    requires { Begins begins_expression (terminals tokens.now) }
    ensures whole { IfOk result (λ f. SomeBounded setting.left (denoter_of f.0) (terminals tokens.now) (terminals f.1.now)) }
    ensures refused { IfErr result (RefusesPart SomeBounded setting.left setting.end (terminals tokens.now)) }
    ensures shorter { IfOk result (λ f. length f.1.now < length tokens.now) }
{
    if lists_names(tokens) {
        return enumeration(setting, tokens);
    }
    match subrange_or_name(setting, tokens) {
        Ok(found) => Ok(found),
        Err(error) => Err(or_form(error, setting.end, tokens)),
    }
}

/// An opening bracket, a name and a comma stand at the front: no expression begins so.
fn lists_names(tokens: &[Token]) -> bool
    ensures { result ≡ lists_names (terminals tokens.now) }
{
    let Some(inside) = behind_mark(Mark::OpenParenthesis, tokens) else {
        return false;
    };
    let Some((first, rest)) = inside.split_first() else {
        return false;
    };
    if !is_identifier(&first.kind) {
        return false;
    }
    match behind_mark(Mark::Comma, rest) {
        Some(_) => true,
        None => false,
    }
}

/// Names in brackets, before what belongs to no type.
fn enumeration<'a>(setting: Setting, tokens: &'a [Token]) -> Answer<'a, TypeDenoter>
    requires { lists_names (terminals tokens.now) ≡ true }
    ensures whole { IfOk result (λ f. SomeBounded setting.left (denoter_of f.0) (terminals tokens.now) (terminals f.1.now)) }
    ensures refused { IfErr result (RefusesPart SomeBounded setting.left setting.end (terminals tokens.now)) }
    ensures shorter { IfOk result (λ f. length f.1.now < length tokens.now) }
{
    let Some((first, rest)) = tokens.split_first() else {
        return Err(syntax(setting.end, tokens));
    };
    let position = position_of(first);
    enter(setting.left, setting.end, tokens)?;
    let (values, rest) = names(setting, rest)?;
    if gives_value(rest) {
        return Err(left_out(GIVEN_VALUE, setting.end, rest));
    }
    let rest = after_mark(Mark::CloseParenthesis, setting.end, rest)?;
    stop_type(setting.end, rest)?;
    Ok((TypeDenoter::Enumeration { position, values }, rest))
}

/// A bound, and another one behind `..`; or what names a type and reads as a bound.
fn subrange_or_name<'a>(setting: Setting, tokens: &'a [Token]) -> Answer<'a, TypeDenoter>
    requires begins { Begins begins_expression (terminals tokens.now) }
    requires lists { lists_names (terminals tokens.now) ≡ false }
    ensures whole { IfOk result (λ f. SomeBounded setting.left (denoter_of f.0) (terminals tokens.now) (terminals f.1.now)) }
    ensures refused { IfErr result (RefusesPart SomeBounded setting.left setting.end (terminals tokens.now)) }
    ensures shorter { IfOk result (λ f. length f.1.now < length tokens.now) }
{
    let (first, rest) = chain(
        setting.alloc,
        Level::Additive,
        setting.left,
        setting.end,
        tokens,
    )?;
    if let Some(after) = behind_mark(Mark::DotDot, rest) {
        let (last, rest) = chain(
            setting.alloc,
            Level::Additive,
            setting.left,
            setting.end,
            after,
        )?;
        stop_type(setting.end, rest)?;
        let node = subrange_node(setting.alloc, first, last)?;
        return Ok((node, rest));
    }
    match denoted(setting.alloc, first)? {
        Some(denoter) => Ok((denoter, rest)),
        None => Err(syntax(setting.end, rest)),
    }
}

/// The same refusal; but where no type stands there, and a form that is left out does, that form.
fn or_form(error: ParseError, end: Place, tokens: &[Token]) -> ParseError
    ensures { (d : ℕ) → RefusesPart SomeBounded d end (terminals tokens.now) error → RefusesPart SomeBounded d end (terminals tokens.now) result }
{
    match form_of_bound(tokens) {
        Some((feature, form)) => told(feature, end, form, error),
        None => error,
    }
}

//! Designators: what can be called or assigned.
ghost use Rattle.std.specs.Prelude.{◌≡◌, ℕ, ◌≤◌, ◌<◌, IfOk, IfErr, IfSome, IsSomeAnd, MatchOption, length};
ghost use Rattle.op_parse_code.specs.Refusal.{Extended, Grown, MadeOf, MadeOrRefused, Refuses};
ghost use Rattle.op_parse_code.specs.Whole.{Marked, SomeDesignator, SomeName, SomeSelectors};
ghost use Rattle.op_parse_code.specs.declared.mark.Mark.TheVariants.{CloseParenthesis};
ghost use Rattle.op_tree.specs.Ends.{IsNot, begins_selector};
ghost use Rattle.op_tree.specs.Expression.{bracketed, call, designator, expr_of, index, member, root_of, selector_of};
ghost use Rattle.op_tree.specs.ExpressionGrammar.{IsRoot, IsSelector};
ghost use Rattle.op_tree.specs.Lists.{arguments_of, expressions_of};
ghost use Rattle.op_tree.specs.NameGrammar.{IsName};
ghost use Rattle.op_tree.specs.Statement.{designator_of, selectors_of};
ghost use Rattle.op_tree.specs.Terminal.{terminals};
ghost use Rattle.op_tree.specs.declared.position.Name.{Name};
ghost use Rattle.op_tree.specs.declared.position.Position.{Position};

use crate::ParseError;
use crate::chain::{read_chain, unread};
use crate::error::syntax;
use crate::factor::enter;
use crate::list::{arguments, indices};
use crate::mark::{Mark, after_mark};
use crate::nodes::{append, bracketed_node, call_node, fitted, index_node};
use crate::opening::{RootOpening, SelectorOpening, root_opening, selector_opening};
use crate::token::{name, position_of};
use op_base::Place;
use op_scan::Token;
use op_tree::{Argument, Designator, Expr, Level, Position, Root, Selector};
use std::alloc::Global;

/// A root, and what is selected of it.
#[cycle(expression)]
#[inline(never)]
pub fn designator<'a>(
    alloc: Global,
    left: u32,
    end: Place,
    tokens: &'a [Token],
) -> Result<(Designator, &'a [Token]), ParseError>
    ensures whole { IfOk result (λ f. SomeDesignator left (designator_of f.0) (terminals tokens.now) (terminals f.1.now)) }
    ensures refused { IfErr result (Refuses SomeDesignator left end (terminals tokens.now)) }
    ensures shorter { IfOk result (λ f. length f.1.now < length tokens.now) }
{
    let (root, rest) = root(alloc, left, end, tokens)?;
    let mut behind = Vec::new(alloc);
    let read = read_selectors(alloc, left, end, &mut behind, rest);
    selected(root, behind, read)
}

/// The designator of a root and what was read behind it.
#[inline(never)]
fn selected<'a>(
    root: Root,
    selectors: Vec<Selector>,
    read: Result<&'a [Token], ParseError>,
) -> Result<(Designator, &'a [Token]), ParseError>
    ensures { MadeOf (λ rest f. (designator_of f.0 ≡ designator (root_of root) (selectors_of selectors.items)) × (f.1.now ≡ rest.now)) read.entry result }
{
    match read {
        Ok(rest) => {
            let selectors = fitted(selectors);
            Ok((Designator { root, selectors }, rest))
        }
        Err(error) => Err(error),
    }
}

/// A name, the word `string`, or an expression in brackets.
#[cycle(expression)]
#[inline(never)]
fn root<'a>(
    alloc: Global,
    left: u32,
    end: Place,
    tokens: &'a [Token],
) -> Result<(Root, &'a [Token]), ParseError>
    ensures whole { IfOk result (λ f. IsRoot left (root_of f.0) (terminals tokens.now) (terminals f.1.now)) }
    ensures refused { IfErr result (Refuses IsRoot left end (terminals tokens.now)) }
    ensures shorter { IfOk result (λ f. length f.1.now < length tokens.now) }
{
    let Some((first, rest)) = tokens.split_first() else {
        return Err(syntax(end, tokens));
    };
    let position = position_of(first);
    match root_opening(&first.kind) {
        RootOpening::Name => named_root(alloc, end, tokens),
        RootOpening::String => Ok((Root::String { position }, rest)),
        RootOpening::Bracket => {
            let inner = enter(left, end, tokens)?;
            let mut inside = unread(end);
            closed_root(
                read_chain(alloc, Level::Relational, inner, end, &mut inside, rest),
                alloc,
                position,
                inside,
                end,
            )
        }
        RootOpening::Nothing => Err(syntax(end, tokens)),
    }
}

#[inline(never)]
fn named_root<'a>(
    alloc: Global,
    end: Place,
    tokens: &'a [Token],
) -> Result<(Root, &'a [Token]), ParseError>
    ensures whole { IfOk result (λ f. (d : ℕ) → IsRoot d (root_of f.0) (terminals tokens.now) (terminals f.1.now)) }
    ensures refused { IfErr result (λ e. (d : ℕ) → Refuses SomeName d end (terminals tokens.now) e) }
    ensures shorter { IfOk result (λ f. length f.1.now < length tokens.now) }
{
    let (name, rest) = name(alloc, end, tokens)?;
    Ok((Root::Named(name), rest))
}

/// An expression that was read in brackets, with the closing one.
#[inline(never)]
fn closed_root<'a>(
    read: Result<&'a [Token], ParseError>,
    alloc: Global,
    position: Position,
    inside: Expr,
    end: Place,
) -> Result<(Root, &'a [Token]), ParseError>
    ensures { MadeOrRefused
        (λ behind f. (root_of f.0 ≡ bracketed position (expr_of inside)) × ((p : Position) × Marked CloseParenthesis 0 p (terminals behind.now) (terminals f.1.now)) × (length f.1.now < length behind.now))
        (λ behind e. (d : ℕ) → Refuses (Marked CloseParenthesis) d end (terminals behind.now) e)
        read.entry result }
{
    match read {
        Ok(behind) => {
            let rest = after_mark(Mark::CloseParenthesis, end, behind)?;
            let root = bracketed_node(alloc, position, inside)?;
            Ok((root, rest))
        }
        Err(error) => Err(error),
    }
}

/// All that is selected at the front.
#[cycle(expression)]
#[inline(never)]
pub fn selectors<'a>(
    alloc: Global,
    left: u32,
    end: Place,
    tokens: &'a [Token],
) -> Result<(Vec<Selector>, &'a [Token]), ParseError>
    ensures whole { IfOk result (λ f. SomeSelectors left (selectors_of f.0.items) (terminals tokens.now) (terminals f.1.now)) }
    ensures refused { IfErr result (Refuses SomeSelectors left end (terminals tokens.now)) }
    ensures shorter { IfOk result (λ f. length f.1.now ≤ length tokens.now) }
{
    let mut selectors = Vec::new(alloc);
    let rest = read_selectors(alloc, left, end, &mut selectors, tokens)?;
    Ok((selectors, rest))
}

/// The same behind those of a list of the caller's.
#[cycle(expression)]
#[inline(never)]
fn read_selectors<'a>(
    alloc: Global,
    left: u32,
    end: Place,
    list: &mut Vec<Selector>,
    tokens: &'a [Token],
) -> Result<&'a [Token], ParseError>
    ensures whole { IfOk result (λ rest. Extended list.old.items list.new.items (λ xs. SomeSelectors left (selectors_of xs) (terminals tokens.now) (terminals rest.now))) }
    ensures refused { IfErr result (Refuses SomeSelectors left end (terminals tokens.now)) }
    ensures shorter { IfOk result (λ rest. length rest.now ≤ length tokens.now) }
{
    let mut rest = tokens;
    while let Some(behind) = selector(alloc, left, end, list, rest)? {
        rest = behind;
    }
    Ok(rest)
}

/// Puts the selector that begins at the front, if one does, behind those of a list.
#[cycle(expression)]
fn selector<'a>(
    alloc: Global,
    left: u32,
    end: Place,
    list: &mut Vec<Selector>,
    tokens: &'a [Token],
) -> Result<Option<&'a [Token]>, ParseError>
    ensures whole { IfOk result (λ found. MatchOption found (IsNot begins_selector (terminals tokens.now) × (list.new.items ≡ list.old.items))
        (λ rest. Grown list.old.items list.new.items (λ x. IsSelector left (selector_of x) (terminals tokens.now) (terminals rest.now)))) }
    ensures refused { IfErr result (Refuses SomeSelectors left end (terminals tokens.now)) }
    ensures shorter { IfOk result (λ found. IfSome found (λ rest. length rest.now < length tokens.now)) }
{
    let Some((first, rest)) = tokens.split_first() else {
        return Ok(None);
    };
    match selector_opening(&first.kind) {
        SelectorOpening::Member => member(alloc, end, list, rest),
        SelectorOpening::Index => {
            let inner = enter(left, end, tokens)?;
            let mut inside = Vec::new(alloc);
            indexed(
                indices(alloc, inner, end, &mut inside, rest),
                position_of(first),
                inside,
                list,
            )
        }
        SelectorOpening::Call => {
            let inner = enter(left, end, tokens)?;
            let mut inside = Vec::new(alloc);
            called(
                arguments(alloc, inner, end, &mut inside, rest),
                inside,
                list,
            )
        }
        SelectorOpening::Nothing => Ok(None),
    }
}

/// Puts the member whose name stands at the front behind the selectors of a list.
#[inline(never)]
fn member<'a>(
    alloc: Global,
    end: Place,
    list: &mut Vec<Selector>,
    tokens: &'a [Token],
) -> Result<Option<&'a [Token]>, ParseError>
    ensures whole { IfOk result (λ found. IsSomeAnd found (λ rest. Grown list.old.items list.new.items (λ x. (n : Name) × (selector_of x ≡ member n) × IsName n (terminals tokens.now) (terminals rest.now)))) }
    ensures refused { IfErr result (λ e. (d : ℕ) → Refuses SomeName d end (terminals tokens.now) e) }
    ensures shorter { IfOk result (λ found. IfSome found (λ rest. length rest.now < length tokens.now)) }
{
    let (name, rest) = name(alloc, end, tokens)?;
    append(list, Selector::Member(name))?;
    Ok(Some(rest))
}

/// Puts the indices that were read behind the selectors of a list.
#[inline(never)]
fn indexed<'a>(
    behind: Result<&'a [Token], ParseError>,
    position: Position,
    indices: Vec<Expr>,
    list: &mut Vec<Selector>,
) -> Result<Option<&'a [Token]>, ParseError>
    ensures { MadeOf (λ read found. IsSomeAnd found (λ rest. Grown list.old.items list.new.items (λ x. selector_of x ≡ index position (expressions_of indices.items)) × (rest.now ≡ read.now))) behind.entry result }
{
    match behind {
        Ok(rest) => {
            append(list, index_node(position, indices))?;
            Ok(Some(rest))
        }
        Err(error) => Err(error),
    }
}

/// Puts a call with the arguments that were read behind the selectors of a list.
#[inline(never)]
fn called<'a>(
    behind: Result<&'a [Token], ParseError>,
    arguments: Vec<Argument>,
    list: &mut Vec<Selector>,
) -> Result<Option<&'a [Token]>, ParseError>
    ensures { MadeOf (λ read found. IsSomeAnd found (λ rest. Grown list.old.items list.new.items (λ x. selector_of x ≡ call (arguments_of arguments.items)) × (rest.now ≡ read.now))) behind.entry result }
{
    match behind {
        Ok(rest) => {
            append(list, call_node(arguments))?;
            Ok(Some(rest))
        }
        Err(error) => Err(error),
    }
}

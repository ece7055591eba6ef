//! The selector of a case and its labels.
ghost use Rattle.std.specs.Prelude.{◌≡◌, [], ◌++◌, IfOk};
ghost use Rattle.std.specs.Option.{option_map, option_to_list};
ghost use Rattle.op_check_expr.specs.Scopes.{here_of};
ghost use Rattle.op_check_expr.specs.Values.{value_of};
ghost use Rattle.op_judgement.specs.Judgement.{Reports, checked};
ghost use Rattle.op_check_stmt.specs.Case.{bound, bound_means, both_bounds, branch_labels, distinct, fits, label, labels, number, of_type, range_means, selected, selector, spot, spots};
ghost use Rattle.op_check_stmt.specs.Parts.{items_of};
ghost use Rattle.op_core.specs.Expression.{expr_of as typed_of};
ghost use Rattle.op_tree.specs.Expression.{element_of, expr_of, range};
ghost use Rattle.op_tree.specs.Statement.{elements_of};

use crate::list::collect;
use crate::repeated::repeated;
use crate::unplaced::place_of_body;
use crate::variable::host_of;
use op_base::{NoMemory, Place};
use op_check_expr::{Checker, Done, Value, as_type, put};
use op_core::{Const, Core, CoreExpr, FirstRefusal, Label, TypeId};
use op_judgement::{Feature, LanguageRule, refuse};
use op_tree::{Element, Expr};
use op_types::{Constant, Sort, Weight, assignable, plus, sort_of, start_of};
use std::alloc::Global;

/// A bound of a label: its number, and what it counts for in the charge of its routine.
#[derive(Clone, Copy)]
pub struct Bound {
    pub number: i32,
    pub weight: Weight,
}

/// A label, with the place of its first token.
#[derive(Clone, Copy)]
pub struct Spot {
    pub label: Label,
    pub place: Place,
}

/// What selects a branch, as a value of its type's host: rule 23 where it is not ordinal. Cases of strings are left out.
#[inline(never)]
pub fn check_selector(
    here: &Checker,
    sink: &mut FirstRefusal,
    e: &Expr,
    out: &mut Option<CoreExpr>,
) -> Done
    ensures { IfOk result (λ _. Reports (selector (here_of here.now.scope) (expr_of e.now)) sink.old sink.new (option_map typed_of out.new)) }
{
    let made = match here.value(sink, None, e)? {
        None => None,
        Some(value) => selected(here.alloc, here.scope.core, sink, start_of(e), value)?,
    };
    put(out, made);
    Ok(())
}

fn selected(
    alloc: Global,
    core: &Core,
    sink: &mut FirstRefusal,
    place: Place,
    value: Value,
) -> Result<Option<CoreExpr>, NoMemory>
    ensures { IfOk result (λ s. Reports (selected core.now place (value_of value)) sink.old sink.new (option_map typed_of s)) }
{
    let of = value.type_of();
    match sort_of(core, of) {
        Sort::Ordinal(_) => Ok(Some(as_type(alloc, core, false, host_of(core, of), value)?)),
        Sort::String => Ok(refuse(
            sink,
            LanguageRule::NotInProfile(Feature::CaseOnStrings),
            place,
        )),
        _ => Ok(refuse(sink, LanguageRule::NotOrdinal, place)),
    }
}

/// The labels of a branch, where the selector has this type; those that have values go behind the others of the case. The grammar has one at
/// least: a branch without any breaks rule 9.
#[inline(never)]
pub fn branch_labels(
    here: Checker,
    sink: &mut FirstRefusal,
    others: &mut Vec<Spot>,
    of: Option<TypeId>,
    elements: &[Element],
) -> Result<Option<Vec<Label>>, NoMemory>
    ensures reports { IfOk result (λ l. Reports (branch_labels (here_of here.entry.scope) of (elements_of elements.now)) sink.old sink.new (items_of l)) }
    ensures notes { IfOk result (λ l. others.new.items ≡ others.old.items ++ spots (here_of here.entry.scope) of (elements_of elements.now)) }
{
    match elements.split_first() {
        None => Ok(refuse(sink, LanguageRule::Syntax, place_of_body(here))),
        Some(_) => labels(here, sink, others, of, elements),
    }
}

/// So many labels, in the order of the text.
fn labels(
    here: Checker,
    sink: &mut FirstRefusal,
    others: &mut Vec<Spot>,
    of: Option<TypeId>,
    elements: &[Element],
) -> Result<Option<Vec<Label>>, NoMemory>
    ensures reports { IfOk result (λ l. Reports (labels (here_of here.entry.scope) of (elements_of elements.now)) sink.old sink.new (items_of l)) }
    ensures notes { IfOk result (λ l. others.new.items ≡ others.old.items ++ spots (here_of here.entry.scope) of (elements_of elements.now)) }
{
    let mut typed = Some(Vec::new(here.alloc));
    for element in elements {
        let spot = label(here, sink, of, element)?;
        note(others, spot)?;
        collect(&mut typed, Ok(()), label_of(spot))?;
    }
    Ok(typed)
}

fn label_of(spot: Option<Spot>) -> Option<Label>
    ensures { result ≡ option_map (λ s. s.label) spot }
{
    match spot {
        None => None,
        Some(spot) => Some(spot.label),
    }
}

fn note(others: &mut Vec<Spot>, spot: Option<Spot>) -> Result<(), NoMemory>
    ensures { IfOk result (λ _. others.new.items ≡ others.old.items ++ option_to_list spot) }
{
    match spot {
        None => Ok(()),
        Some(spot) => {
            others.push(spot)?;
            Ok(())
        }
    }
}

/// A label: rule 20 where a bound is not assignable to the selector's type, 30 where it is no constant, 31 where the first bound is
/// above the last.
fn label(
    here: Checker,
    sink: &mut FirstRefusal,
    of: Option<TypeId>,
    element: &Element,
) -> Result<Option<Spot>, NoMemory>
    ensures { IfOk result (Reports (label (here_of here.entry.scope) of (element_of element.now)) sink.old sink.new) }
{
    match element {
        Element::One(e) => match check_bound(here, sink, of, e)? {
            None => Ok(None),
            Some(bound) => Ok(Some(make_spot(start_of(e), bound, bound, bound.weight))),
        },
        Element::Range(first, last) => {
            let low = check_bound(here, sink, of, first)?;
            let high = check_bound(here, sink, of, last)?;
            Ok(range_of(sink, start_of(first), low, high))
        }
    }
}

fn make_spot(place: Place, low: Bound, high: Bound, weight: Weight) -> Spot
    ensures { result ≡ spot place low high weight }
{
    let label = Label {
        first: low.number,
        last: high.number,
        nodes: weight.nodes,
        words: weight.words,
    };
    Spot { label, place }
}

fn range_of(
    sink: &mut FirstRefusal,
    place: Place,
    low: Option<Bound>,
    high: Option<Bound>,
) -> Option<Spot>
    ensures { Reports (both_bounds place low high) sink.old sink.new result }
{
    let (Some(low), Some(high)) = (low, high) else {
        return None;
    };
    if low.number <= high.number {
        Some(make_spot(place, low, high, plus(low.weight, high.weight)))
    } else {
        refuse(sink, LanguageRule::EmptyRange, place)
    }
}

fn check_bound(
    here: Checker,
    sink: &mut FirstRefusal,
    of: Option<TypeId>,
    e: &Expr,
) -> Result<Option<Bound>, NoMemory>
    ensures { IfOk result (Reports (bound (here_of here.entry.scope) of (expr_of e.now)) sink.old sink.new) }
{
    match here.value(sink, None, e)? {
        None => Ok(None),
        Some(value) => Ok(bound_of(here.scope.core, sink, start_of(e), of, value)),
    }
}

/// A value at a place as a bound of a label, where the selector has this type.
fn bound_of(
    core: &Core,
    sink: &mut FirstRefusal,
    place: Place,
    of: Option<TypeId>,
    value: Value,
) -> Option<Bound>
    ensures { Reports (bound_means core.now place of (value_of value)) sink.old sink.new result }
{
    if !fits(core, value.type_of(), of) {
        return refuse(sink, LanguageRule::NotAssignable, place);
    }
    match &value {
        Value::Computed(_) => refuse(sink, LanguageRule::NoConstant, place),
        Value::Constant(c) => of_type(of, c),
    }
}

/// A bound, where the selector has a type.
fn of_type(of: Option<TypeId>, c: &Constant) -> Option<Bound>
    ensures { result ≡ (checked (of_type of c.now)).typed }
{
    match of {
        None => None,
        Some(_) => Some(number(c)),
    }
}

fn fits(core: &Core, from: TypeId, to: Option<TypeId>) -> bool
    ensures { result ≡ fits core.now from to }
{
    match to {
        None => true,
        Some(to) => assignable(core, from, to),
    }
}

fn number(c: &Constant) -> Bound
    ensures { result ≡ number c.now }
{
    let weight = c.weight;
    match c.value {
        Const::Ordinal(number) => Bound { number, weight },
        _ => Bound { number: 0, weight },
    }
}

/// What has these labels, where no value has two of them: rule 32 at the first label, in the order of the text, that has a value of
/// another one in front of it.
#[inline(never)]
pub fn distinct<T: Drop>(
    alloc: Global,
    sink: &mut FirstRefusal,
    labels: &[Spot],
    typed: Option<T>,
) -> Result<Option<T>, NoMemory>
    ensures { IfOk result (Reports (distinct typed labels.now) sink.old sink.new) }
{
    match repeated(alloc, labels)? {
        None => Ok(typed),
        Some(place) => Ok(refuse(sink, LanguageRule::LabelTwice, place)),
    }
}

//! The built-in procedures that write and change variables.
ghost use Rattle.std.specs.Prelude.{◌≡◌, IfOk, map};
ghost use Rattle.std.specs.Option.{option_map};
ghost use Rattle.op_check_expr.specs.Scopes.{here_of};
ghost use Rattle.op_check_expr.specs.Values.{value_of};
ghost use Rattle.op_judgement.specs.Judgement.{Reports};
ghost use Rattle.op_check_stmt.specs.Parts.{items_of};
ghost use Rattle.op_check_stmt.specs.Procedure.{base_in, change, base_of, change_means, count_means, counted, counted_means, is_text, item, items, member, place_counted, set, set_means, text, text_means, unwritten, values_of, written};
ghost use Rattle.op_core.specs.Expression.{expr_of as typed_of};
ghost use Rattle.op_core.specs.Statement.{built_in, count, item_of, padded, stmt_of, target_of};
ghost use Rattle.op_tree.specs.Expression.{argument_of, expr_of};
ghost use Rattle.op_tree.specs.Lists.{arguments_of};

use crate::given::Given;
use crate::list::{collect, fitted};
use crate::node::{Typed, pair};
use crate::variable::is_ordinal;
use op_base::{NoMemory, Place};
use op_check_expr::{Checker, Value, conversion, position_of, type_of};
use op_core::{
    Const, Conversion, Core, CoreAction, CoreExpr, CoreItem, CoreStmt, CoreTarget, CoreType,
    FirstRefusal, Root, TypeId, type_at,
};
use op_judgement::{Feature, LanguageRule, refuse};
use op_tree::{Argument, Direction, Expr, Name};
use op_types::{OrdinalKind, Sort, sort_of, start_of};
use std::alloc::Global;

/// Write and WriteLn, which ends the line.
pub fn write(
    here: Checker,
    sink: &mut FirstRefusal,
    ends_line: bool,
    arguments: &[Argument],
) -> Result<Option<CoreStmt>, NoMemory>
    ensures { IfOk result (λ t. Reports (written (here_of here.entry.scope) ends_line (arguments_of arguments.now)) sink.old sink.new (option_map stmt_of t)) }
{
    match items(here, sink, arguments)? {
        None => Ok(None),
        Some(items) => {
            let action = Box::new(here.alloc, CoreAction::Write { items, ends_line })?;
            Ok(Some(CoreStmt::Do(action)))
        }
    }
}

fn items(
    here: Checker,
    sink: &mut FirstRefusal,
    arguments: &[Argument],
) -> Result<Option<Vec<CoreItem>>, NoMemory>
    ensures { IfOk result (λ t. Reports (items (here_of here.entry.scope) (arguments_of arguments.now)) sink.old sink.new (option_map (map item_of) (items_of t))) }
{
    let mut typed = Some(Vec::new(here.alloc));
    for argument in arguments {
        let part = item(here, sink, argument)?;
        collect(&mut typed, Ok(()), part)?;
    }
    Ok(fitted(typed))
}

/// What is written, with its width: an Integer.
fn item(
    here: Checker,
    sink: &mut FirstRefusal,
    argument: &Argument,
) -> Result<Option<CoreItem>, NoMemory>
    ensures { IfOk result (λ t. Reports (item (here_of here.entry.scope) (argument_of argument.now)) sink.old sink.new (option_map item_of t)) }
{
    match argument {
        Argument::Value(e) => match text(here, sink, e)? {
            None => Ok(None),
            Some(e) => Ok(Some(CoreItem::Plain(e))),
        },
        Argument::Padded(e, width) => {
            let e = text(here, sink, e)?;
            let width = here.given(sink, TypeId::INTEGER, false, width)?;
            padded(here.alloc, pair(e, width))
        }
        Argument::Rounded(_, _, digits) => Ok(refuse(
            sink,
            LanguageRule::NotInProfile(Feature::FractionWidth),
            start_of(digits),
        )),
    }
}

fn padded(alloc: Global, parts: Option<(CoreExpr, CoreExpr)>) -> Result<Option<CoreItem>, NoMemory>
    ensures { IfOk result (λ i. option_map item_of i ≡ option_map (λ p. padded (typed_of p.0) (typed_of p.1)) parts) }
{
    match parts {
        None => Ok(None),
        Some((e, width)) => Ok(Some(CoreItem::Padded(e, Box::new(alloc, width)?))),
    }
}

/// What has a text: rule 60 where it is no integer, Boolean, Char or string.
fn text(here: Checker, sink: &mut FirstRefusal, e: &Expr) -> Result<Option<CoreExpr>, NoMemory>
    ensures { IfOk result (λ t. Reports (text (here_of here.entry.scope) (expr_of e.now)) sink.old sink.new (option_map typed_of t)) }
{
    match here.value(sink, None, e)? {
        None => Ok(None),
        Some(value) => Ok(text_of(here.alloc, here.scope.core, sink, start_of(e), value)),
    }
}

fn text_of(
    alloc: Global,
    core: &Core,
    sink: &mut FirstRefusal,
    place: Place,
    value: Value,
) -> Option<CoreExpr>
    ensures { Reports (text_means core.now place (value_of value)) sink.old sink.new (option_map typed_of result) }
{
    if is_text(sort_of(core, value.type_of())) {
        Some(value.into_tree(alloc))
    } else {
        refuse(sink, LanguageRule::NotWritten, place)
    }
}

fn is_text(sort: Sort) -> bool
    ensures { result ≡ is_text sort }
{
    match sort {
        Sort::Ordinal(OrdinalKind::Enumeration(_)) => false,
        Sort::Ordinal(_) => true,
        Sort::String => true,
        _ => false,
    }
}

/// Inc, upwards, and Dec: by an amount that is an Integer, or by one.
pub fn count(
    here: Checker,
    sink: &mut FirstRefusal,
    direction: Direction,
    name: &Name,
    values: Given,
) -> Result<Option<CoreStmt>, NoMemory>
    ensures { IfOk result (λ t. Reports (count_means (here_of here.entry.scope) direction name.now (values_of values.entry)) sink.old sink.new (option_map stmt_of t)) }
{
    let checked = name.position.switches.q;
    match values {
        Given::One(e) => {
            let target = counted(here, sink, position_of(e).switches.r, e)?;
            let amount = unwritten(here.alloc, 1);
            count_by(here.alloc, direction, checked, pair(target, Some(amount)))
        }
        Given::Two(e, by) => {
            let target = counted(here, sink, position_of(e).switches.r, e)?;
            let amount = here.given(sink, TypeId::INTEGER, false, by)?;
            count_by(here.alloc, direction, checked, pair(target, amount))
        }
        _ => Ok(refuse(sink, LanguageRule::WrongArguments, name.position.place)),
    }
}

fn count_by(
    alloc: Global,
    direction: Direction,
    checked: bool,
    parts: Option<(CoreTarget, CoreExpr)>,
) -> Typed
    ensures { IfOk result (λ s. option_map stmt_of s ≡ option_map (λ p. built_in (count direction (target_of p.0) (typed_of p.1) checked)) parts) }
{
    match parts {
        None => Ok(None),
        Some((target, amount)) => {
            let action = CoreAction::Count {
                direction,
                target,
                amount,
                checked,
            };
            Ok(Some(CoreStmt::Do(Box::new(alloc, action)?)))
        }
    }
}

/// An Integer that is not written, and so is no node of the text.
pub fn unwritten(alloc: Global, n: i32) -> CoreExpr
    ensures { typed_of result ≡ unwritten n }
{
    let root = Root::Constant {
        value: Const::Ordinal(n),
        nodes: 0,
        words: 0,
    };
    CoreExpr::new(alloc, root, TypeId::INTEGER)
}

/// A variable that is counted: rule 23 where it is not ordinal. `checked` is whether ranges are.
fn counted(
    here: Checker,
    sink: &mut FirstRefusal,
    checked: bool,
    e: &Expr,
) -> Result<Option<CoreTarget>, NoMemory>
    ensures { IfOk result (λ t. Reports (counted (here_of here.entry.scope) checked (expr_of e.now)) sink.old sink.new (option_map target_of t)) }
{
    match here.variable(sink, None, e)? {
        None => Ok(None),
        Some(place) => Ok(counted_of(here.scope.core, sink, start_of(e), checked, place)),
    }
}

fn counted_of(
    core: &Core,
    sink: &mut FirstRefusal,
    at: Place,
    checked: bool,
    place: CoreExpr,
) -> Option<CoreTarget>
    ensures { Reports (counted_means core.now at checked (typed_of place)) sink.old sink.new (option_map target_of result) }
{
    let of = type_of(&place);
    if !is_ordinal(sort_of(core, of)) {
        return refuse(sink, LanguageRule::NotOrdinal, at);
    }
    let store = conversion(core, checked, TypeId::INTEGER, of).unwrap_or(Conversion::Keep);
    Some(CoreTarget { place, store })
}

/// Include and Exclude.
pub fn change(
    here: Checker,
    sink: &mut FirstRefusal,
    includes: bool,
    name: &Name,
    values: Given,
) -> Result<Option<CoreStmt>, NoMemory>
    ensures { IfOk result (λ t. Reports (change_means (here_of here.entry.scope) includes name.now (values_of values.entry)) sink.old sink.new (option_map stmt_of t)) }
{
    match values {
        Given::Two(set, element) => {
            let set = check_set(here, sink, set)?;
            let base = base_in(here.scope.core, &set);
            let element = member(here, sink, base, element)?;
            changed(here.alloc, includes, pair(set, element))
        }
        _ => Ok(refuse(sink, LanguageRule::WrongArguments, name.position.place)),
    }
}

fn changed(alloc: Global, includes: bool, parts: Option<(CoreExpr, CoreExpr)>) -> Typed
    ensures { IfOk result (λ s. option_map stmt_of s ≡ option_map (λ p. change includes (typed_of p.0) (typed_of p.1)) parts) }
{
    match (parts, includes) {
        (None, _) => Ok(None),
        (Some((set, element)), true) => {
            let action = Box::new(alloc, CoreAction::Include { set, element })?;
            Ok(Some(CoreStmt::Do(action)))
        }
        (Some((set, element)), false) => {
            let action = Box::new(alloc, CoreAction::Exclude { set, element })?;
            Ok(Some(CoreStmt::Do(action)))
        }
    }
}

/// A variable that is a set: rule 28 where it is none.
fn check_set(here: Checker, sink: &mut FirstRefusal, e: &Expr) -> Result<Option<CoreExpr>, NoMemory>
    ensures { IfOk result (λ t. Reports (set (here_of here.entry.scope) (expr_of e.now)) sink.old sink.new (option_map typed_of t)) }
{
    match here.variable(sink, None, e)? {
        None => Ok(None),
        Some(place) => Ok(set_of(here.scope.core, sink, start_of(e), place)),
    }
}

fn set_of(core: &Core, sink: &mut FirstRefusal, at: Place, place: CoreExpr) -> Option<CoreExpr>
    ensures { Reports (set_means core.now at (typed_of place)) sink.old sink.new (option_map typed_of result) }
{
    match base_of(core, type_of(&place)) {
        None => refuse(sink, LanguageRule::VariableOfAnotherType, at),
        Some(_) => Some(place),
    }
}

/// The base of a set type.
fn base_of(core: &Core, of: TypeId) -> Option<TypeId>
    ensures { result ≡ base_of core.now of }
{
    match type_at(core, of) {
        Some(CoreType::Set { base }) => Some(base),
        _ => None,
    }
}

fn base_in(core: &Core, set: &Option<CoreExpr>) -> Option<TypeId>
    ensures { result ≡ base_in core.now (option_map typed_of set.now) }
{
    match set {
        None => None,
        Some(e) => base_of(core, type_of(e)),
    }
}

/// An element of a set of this base, where there is one.
fn member(
    here: Checker,
    sink: &mut FirstRefusal,
    base: Option<TypeId>,
    e: &Expr,
) -> Result<Option<CoreExpr>, NoMemory>
    ensures { IfOk result (λ t. Reports (member (here_of here.entry.scope) base (expr_of e.now)) sink.old sink.new (option_map typed_of t)) }
{
    match base {
        Some(base) => here.element(sink, base, e),
        None => match here.value(sink, None, e)? {
            None => Ok(None),
            Some(value) => Ok(Some(value.into_tree(here.alloc))),
        },
    }
}

//! What operators make of values.
ghost use Rattle.std.specs.Prelude.{◌≡◌, IfOk};
ghost use Rattle.std.specs.Option.{option_map};
ghost use Rattle.op_core.specs.Expression.{expr_of};
ghost use Rattle.op_judgement.specs.Judgement.{Reports, with_part};
ghost use Rattle.op_check_expr.specs.Operating.{computed_operation, feature_of_operands, left_type, makes_strings, operand_by, operated, operation_of, operation_tree, prefix_of, right_type, type_of_kind};
ghost use Rattle.op_check_expr.specs.Parts.{Behind};
ghost use Rattle.op_check_expr.specs.Values.{value_of};

use crate::convert::as_type;
use crate::tree::{then, type_of};
use crate::value::{Value, constant_value};
use op_base::{NoMemory, Place};
use op_core::{Action, Core, CoreExpr, FirstRefusal, TypeId};
use op_judgement::{Feature, LanguageRule, refuse};
use op_tree::{Operator, Position, PrefixOperator};
use op_types::{
    OrdinalKind, Setting, Sort, common_set, is_folded, operation, prefixed, set_over, sort_of,
};
use std::alloc::Global;

/// What an expression gives; None where a rule is broken in it.
pub type Valued = Result<Option<Value>, NoMemory>;

/// That something was put in its place.
pub type Done = Result<(), NoMemory>;

/// Puts a value in a place of the caller. What stood there is dropped here, and not written out in the caller's frame.
#[inline(never)]
pub fn put<T: Drop>(out: &mut Option<T>, value: Option<T>)
    ensures { out.new ≡ value }
{
    *out = value;
}

/// Puts in the place of the first part what an operator at a position makes of both, in an expression that begins at `start`.
#[inline(never)]
pub fn operation_of(
    setting: Setting,
    sink: &mut FirstRefusal,
    start: Place,
    operator: Operator,
    position: Position,
    a: &mut Option<Value>,
    done: Done,
    b: Option<Value>,
) -> Done
    ensures { IfOk result (λ _. Behind done (Reports (operation_of setting.entry.core.now start operator position (option_map value_of a.old) (option_map value_of b)) sink.old sink.new (option_map value_of a.new))) }
{
    done?;
    let (Some(left), Some(right)) = (a.take(), b) else {
        return Ok(());
    };
    let made = operated(setting, sink, start, operator, position, left, right)?;
    put(a, made);
    Ok(())
}

fn operated(
    setting: Setting,
    sink: &mut FirstRefusal,
    start: Place,
    operator: Operator,
    position: Position,
    a: Value,
    b: Value,
) -> Valued
    ensures { IfOk result (λ v. Reports (operated setting.entry.core.now start operator position (value_of a) (value_of b)) sink.old sink.new (option_map value_of v)) }
{
    match (a, b) {
        (Value::Constant(a), Value::Constant(b)) => {
            if is_folded(operator) {
                let place = position.place;
                let c = setting.operation(sink, start, operator, place, Some(a), Some(b))?;
                Ok(constant_value(c))
            } else {
                let (a, b) = (Value::Constant(a), Value::Constant(b));
                computed_operation(setting, sink, operator, position, a, b)
            }
        }
        (Value::Constant(a), Value::Computed(b)) => {
            let (a, b) = (Value::Constant(a), Value::Computed(b));
            computed_operation(setting, sink, operator, position, a, b)
        }
        (Value::Computed(a), b) => {
            computed_operation(setting, sink, operator, position, Value::Computed(a), b)
        }
    }
}

/// An operator between two values that are not both constants.
fn computed_operation(
    setting: Setting,
    sink: &mut FirstRefusal,
    operator: Operator,
    position: Position,
    a: Value,
    b: Value,
) -> Valued
    ensures { IfOk result (λ v. Reports (computed_operation setting.entry.core.now operator position (value_of a) (value_of b)) sink.old sink.new (option_map value_of v)) }
{
    let core = setting.core;
    let sorts = (sort_of(core, a.type_of()), sort_of(core, b.type_of()));
    let sets = common_set(core, a.type_of(), b.type_of());
    let Some(of) = operation(operator, sorts.0, sorts.1, sets) else {
        return Ok(refuse(sink, LanguageRule::NoOperator, position.place));
    };
    if makes_strings(operator, sorts.0, sorts.1) {
        return Ok(refuse(
            sink,
            LanguageRule::NotInProfile(Feature::Strings),
            position.place,
        ));
    }
    let e = operation_tree(setting.alloc, core, operator, position.switches.q, a, b, of)?;
    Ok(Some(Value::Computed(e)))
}

fn operation_tree(
    alloc: Global,
    core: &Core,
    operator: Operator,
    checked: bool,
    a: Value,
    b: Value,
    of: TypeId,
) -> Result<CoreExpr, NoMemory>
    ensures { IfOk result (λ e. value_of (Value.Computed e) ≡ operation_tree core.now operator checked (value_of a) (value_of b) of) }
{
    let left = left_type(core, operator, a.type_of(), b.type_of());
    let right = right_type(core, operator, a.type_of(), b.type_of());
    let e = as_type(alloc, core, true, left, a)?;
    let operand = as_type(alloc, core, true, right, b)?;
    let action = Action::Operate {
        operator,
        checked,
        operand,
    };
    then(e, action, of)
}

/// The type that the left operand goes to.
fn left_type(core: &Core, operator: Operator, a: TypeId, b: TypeId) -> TypeId
    ensures { result ≡ left_type core.now operator a b }
{
    match operator {
        Operator::In_ => a,
        _ => operand_by(common_set(core, a, b), a, sort_of(core, a)),
    }
}

fn right_type(core: &Core, operator: Operator, a: TypeId, b: TypeId) -> TypeId
    ensures { result ≡ right_type core.now operator a b }
{
    match (operator, sort_of(core, b)) {
        (Operator::In_, Sort::EmptySet) => set_over(core, a),
        (Operator::In_, _) => b,
        (_, sort) => operand_by(common_set(core, a, b), b, sort),
    }
}

/// The type that an operand goes to, where sets go to `sets`.
fn operand_by(sets: TypeId, of: TypeId, sort: Sort) -> TypeId
    ensures { result ≡ operand_by sets of sort }
{
    match sort {
        Sort::Ordinal(kind) => type_of_kind(kind),
        Sort::Set(_) | Sort::EmptySet => sets,
        _ => of,
    }
}

fn type_of_kind(kind: OrdinalKind) -> TypeId
    ensures { result ≡ type_of_kind kind }
{
    match kind {
        OrdinalKind::Integer => TypeId::INTEGER,
        OrdinalKind::Boolean => TypeId::BOOLEAN,
        OrdinalKind::Char => TypeId::CHAR,
        OrdinalKind::Enumeration(of) => of,
    }
}

/// Whether an operand becomes a string.
fn makes_strings(operator: Operator, a: Sort, b: Sort) -> bool
    ensures { result ≡ makes_strings operator a b }
{
    a.is_text()
        && b.is_text()
        && (matches!(operator, Operator::Add)
            || matches!(a, Sort::String)
            || matches!(b, Sort::String))
}

/// Puts in the place of a part what a sign or `not` at a position makes of it.
#[inline(never)]
pub fn prefix_of(
    setting: Setting,
    sink: &mut FirstRefusal,
    operator: PrefixOperator,
    position: Position,
    a: &mut Option<Value>,
) -> Done
    ensures { IfOk result (λ _. Reports (with_part (prefix_of setting.entry.core.now operator position) (option_map value_of a.old)) sink.old sink.new (option_map value_of a.new)) }
{
    let made = match a.take() {
        Some(a) => prefix_value(setting, sink, operator, position, a)?,
        None => None,
    };
    put(a, made);
    Ok(())
}

fn prefix_value(
    setting: Setting,
    sink: &mut FirstRefusal,
    operator: PrefixOperator,
    position: Position,
    value: Value,
) -> Valued
    ensures { IfOk result (λ v. Reports (prefix_of setting.entry.core.now operator position (value_of value)) sink.old sink.new (option_map value_of v)) }
{
    match value {
        Value::Constant(c) => {
            Ok(constant_value(setting.prefix(sink, position.place, operator, c)))
        }
        Value::Computed(e) => {
            let Some(of) = prefixed(operator, sort_of(setting.core, type_of(&e))) else {
                return Ok(refuse(sink, LanguageRule::NoOperator, position.place));
            };
            let checked = position.switches.q;
            let e = as_type(setting.alloc, setting.core, true, of, Value::Computed(e))?;
            let action = Action::Prefix { operator, checked };
            Ok(Some(Value::Computed(then(e, action, of)?)))
        }
    }
}

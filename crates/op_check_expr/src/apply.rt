//! What casts and built-in functions make of values.
ghost use Rattle.std.specs.Prelude.{◌≡◌, IfOk};
ghost use Rattle.std.specs.Option.{option_map};
ghost use Rattle.op_core.specs.Expression.{expr_of};
ghost use Rattle.op_core.specs.Sizes.{type_at};
ghost use Rattle.op_judgement.specs.Judgement.{Reports, changed, with_part};
ghost use Rattle.op_check_expr.specs.Operating.{application_of, argument_type, becomes_string, cast_by, cast_conversion, cast_of, computed_use, function_type, index_type, is_evaluated, keeps_low_bits, rule_of, used};
ghost use Rattle.op_check_expr.specs.Scopes.{here_of};
ghost use Rattle.op_check_expr.specs.Values.{constant, value_of};
ghost use Rattle.op_types.specs.Folding.{bound_means};
ghost use Rattle.op_types.specs.Sorts.{sort_of};

use crate::convert::{as_type, is_wider};
use crate::operate::{Done, Valued, put};
use crate::scope::Checker;
use crate::tree::{then, type_of};
use crate::value::{Value, constant_value};
use op_base::Place;
use op_core::{
    Action, Conversion, Core, CoreExpr, CoreType, FirstRefusal, Function, Origin, TypeId, range_of,
    type_at,
};
use op_judgement::{Feature, LanguageRule, refuse};
use op_tree::Position;
use op_types::{Applied, Setting, Sort, application, sort_of};

/// Puts in the place of an argument, which begins at a place, what a cast or a function at a position makes of it.
#[inline(never)]
pub fn used(
    setting: Setting,
    sink: &mut FirstRefusal,
    position: Position,
    what: Applied,
    at: Place,
    a: &mut Option<Value>,
) -> Done
    ensures { IfOk result (λ _. Reports (with_part (used setting.entry.core.now position what at) (option_map value_of a.old)) sink.old sink.new (option_map value_of a.new)) }
{
    let made = match a.take() {
        Some(a) => used_value(setting, sink, position, what, at, a)?,
        None => None,
    };
    put(a, made);
    Ok(())
}

fn used_value(
    setting: Setting,
    sink: &mut FirstRefusal,
    position: Position,
    what: Applied,
    at: Place,
    value: Value,
) -> Valued
    ensures { IfOk result (λ v. Reports (used setting.entry.core.now position what at (value_of value)) sink.old sink.new (option_map value_of v)) }
{
    match value {
        Value::Constant(c) => {
            if is_evaluated(setting.core, what) {
                Ok(constant_value(setting.used(sink, what, position.place, at, c)?))
            } else {
                computed_use(setting, sink, position, what, at, Value::Constant(c))
            }
        }
        Value::Computed(e) => {
            computed_use(setting, sink, position, what, at, Value::Computed(e))
        }
    }
}

impl<'a> Checker<'a> {
    /// Puts there Low or High of a type that is named at a place.
    #[inline(never)]
    pub fn bound_value(
        &self,
        sink: &mut FirstRefusal,
        function: Function,
        of: TypeId,
        at: Place,
        out: &mut Option<Value>,
    )
        ensures { Reports (changed constant (bound_means (here_of self.now.scope).core function (of, at))) sink.old sink.new (option_map value_of out.new) }
    {
        put(
            out,
            constant_value(self.setting().bound(sink, function, of, at)),
        );
    }
}

/// Whether it is evaluated where the argument is a constant.
fn is_evaluated(core: &Core, what: Applied) -> bool
    ensures { result ≡ is_evaluated core.now what }
{
    match what {
        Applied::Cast(of) => matches!(sort_of(core, of), Sort::Ordinal(_)),
        Applied::Function(Function::Low | Function::High) => false,
        Applied::Function(_) => true,
    }
}

fn computed_use(
    setting: Setting,
    sink: &mut FirstRefusal,
    position: Position,
    what: Applied,
    at: Place,
    value: Value,
) -> Valued
    ensures { IfOk result (λ v. Reports (computed_use setting.entry.core.now position what at (value_of value)) sink.old sink.new (option_map value_of v)) }
{
    match what {
        Applied::Cast(to) => {
            let from = value.type_of();
            let e = value.into_tree(setting.alloc);
            cast_of(setting.core, sink, position.place, to, e, from)
        }
        Applied::Function(function) => {
            application_of(setting, sink, position, function, at, value)
        }
    }
}

fn cast_of(
    core: &Core,
    sink: &mut FirstRefusal,
    place: Place,
    to: TypeId,
    e: CoreExpr,
    from: TypeId,
) -> Valued
    ensures { IfOk result (λ v. Reports (cast_of core.now place to (expr_of e) from) sink.old sink.new (option_map value_of v)) }
{
    match (sort_of(core, from), sort_of(core, to)) {
        (Sort::Ordinal(_), Sort::Ordinal(_)) => {
            let conversion = cast_conversion(core, from, to);
            let origin = Origin::Cast;
            Ok(Some(Value::Computed(then(e, Action::Convert { conversion, origin }, to)?)))
        }
        _ => Ok(refuse(sink, LanguageRule::NoCast, place)),
    }
}

fn cast_conversion(core: &Core, from: TypeId, to: TypeId) -> Conversion
    ensures { result ≡ cast_conversion core.now from to }
{
    if is_wider(range_of(core, from), range_of(core, to)) {
        Conversion::Keep
    } else if keeps_low_bits(core, to) {
        Conversion::LowBits
    } else {
        Conversion::Check
    }
}

fn keeps_low_bits(core: &Core, to: TypeId) -> bool
    ensures { result ≡ keeps_low_bits (type_at core.now to) }
{
    match type_at(core, to) {
        Some(CoreType::Char) => true,
        Some(CoreType::Integer(_)) => true,
        _ => false,
    }
}

/// A function at a position, of an argument at a place.
fn application_of(
    setting: Setting,
    sink: &mut FirstRefusal,
    position: Position,
    function: Function,
    at: Place,
    value: Value,
) -> Valued
    ensures { IfOk result (λ v. Reports (application_of setting.entry.core.now position function at (value_of value)) sink.old sink.new (option_map value_of v)) }
{
    let core = setting.core;
    let Some(of) = function_type(core, function, value.type_of()) else {
        return Ok(refuse(sink, rule_of(function), at));
    };
    if becomes_string(core, function, value.type_of()) {
        return Ok(refuse(
            sink,
            LanguageRule::NotInProfile(Feature::Strings),
            position.place,
        ));
    }
    let to = argument_type(core, function, value.type_of());
    let e = as_type(setting.alloc, core, true, to, value)?;
    let checked = position.switches.q;
    let action = Action::Apply { function, checked };
    Ok(Some(Value::Computed(then(e, action, of)?)))
}

/// Whether the argument becomes a string: Length takes a Char as one.
fn becomes_string(core: &Core, function: Function, of: TypeId) -> bool
    ensures { result ≡ becomes_string core.now function of }
{
    match (function, sort_of(core, of)) {
        (Function::Length, Sort::Ordinal(_)) => true,
        _ => false,
    }
}

/// The rule that an argument breaks which the function does not take.
fn rule_of(function: Function) -> LanguageRule
    ensures { result ≡ rule_of function }
{
    match function {
        Function::Ord | Function::Succ | Function::Pred | Function::Low | Function::High => {
            LanguageRule::NotOrdinal
        }
        _ => LanguageRule::NotAssignable,
    }
}

/// What a function gives of a value of a type, where it takes it.
fn function_type(core: &Core, function: Function, of: TypeId) -> Option<TypeId>
    ensures { result ≡ function_type core.now function of }
{
    let sort = sort_of(core, of);
    match (function, index_type(core, of)) {
        (Function::Length, Some(_)) => Some(TypeId::INTEGER),
        (Function::Low | Function::High, Some(index)) => Some(index),
        (Function::Low | Function::High, None) => { matches!(sort, Sort::Ordinal(_)).then_some(of) }
        _ => application(function, sort, of),
    }
}

/// What the bounds of an array or a string are of.
fn index_type(core: &Core, of: TypeId) -> Option<TypeId>
    ensures { result ≡ index_type (type_at core.now of) }
{
    match type_at(core, of) {
        Some(CoreType::Array { index, .. }) => Some(index),
        Some(CoreType::DynamicArray { .. } | CoreType::OpenArray { .. } | CoreType::String) => {
            Some(TypeId::INTEGER)
        }
        _ => None,
    }
}

/// The type that the argument of a function goes to.
fn argument_type(core: &Core, function: Function, of: TypeId) -> TypeId
    ensures { result ≡ argument_type core.now function of }
{
    match (function, sort_of(core, of)) {
        (Function::Abs | Function::Sqr | Function::Odd, _) => TypeId::INTEGER,
        (Function::UpCase, _) => TypeId::CHAR,
        (Function::Length, Sort::Ordinal(_)) => TypeId::STRING,
        _ => of,
    }
}

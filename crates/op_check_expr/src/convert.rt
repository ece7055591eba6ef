//! How a value becomes one of another type (Free Pascal Reference Guide, "Assignments").
ghost use Rattle.std.specs.Prelude.{◌≡◌, IfOk};
ghost use Rattle.std.specs.List.{list_all};
ghost use Rattle.std.specs.Option.{option_map};
ghost use Rattle.op_core.specs.Expression.{expr_of};
ghost use Rattle.op_core.specs.Sizes.{type_at};
ghost use Rattle.op_core.specs.Typing as typing;
ghost use Rattle.op_judgement.specs.Judgement.{Reports};
ghost use Rattle.op_check_expr.specs.Values.{are_in, as_type, conversion, index_at, is_in, is_integer, is_wider, ordinal_conversion, retyped, stored, value_of};

use crate::tree::{constant_tree, type_of, with_conversion};
use crate::value::Value;
use op_base::{NoMemory, Place, Sequence};
use op_core::{
    Const, Conversion, Core, CoreExpr, CoreType, FirstRefusal, TypeId, one_type, range_of, type_at,
};
use op_judgement::{LanguageRule, refuse};
use op_types::{Constant, Sort, assignable, bytes_of, in_range, sort_of};
use std::alloc::Global;

/// A value at a place, stored in what has a type. `checked` is whether ranges are.
pub fn stored(
    alloc: Global,
    core: &Core,
    sink: &mut FirstRefusal,
    place: Place,
    checked: bool,
    to: TypeId,
    value: Value,
) -> Result<Option<CoreExpr>, NoMemory>
    ensures { IfOk result (λ e. Reports (stored core.now place checked to (value_of value)) sink.old sink.new (option_map expr_of e)) }
{
    if assignable(core, value.type_of(), to) {
        Ok(Some(as_type(alloc, core, checked, to, value)?))
    } else {
        Ok(refuse(sink, LanguageRule::NotAssignable, place))
    }
}

/// An index of what has the first type, at a place: assignable to the second.
pub fn index_at(
    alloc: Global,
    core: &Core,
    sink: &mut FirstRefusal,
    place: Place,
    of: Option<CoreType>,
    to: TypeId,
    index: Value,
) -> Result<Option<CoreExpr>, NoMemory>
    ensures { IfOk result (λ e. Reports (index_at core.now place of to (value_of index)) sink.old sink.new (option_map expr_of e)) }
{
    if assignable(core, index.type_of(), to) {
        Ok(Some(match of {
            Some(CoreType::Array { .. }) => index.into_tree(alloc),
            _ => as_type(alloc, core, true, to, index)?,
        }))
    } else {
        Ok(refuse(sink, LanguageRule::NotAssignable, place))
    }
}

/// A value as one of a type to which it is assignable.
pub fn as_type(
    alloc: Global,
    core: &Core,
    checked: bool,
    to: TypeId,
    value: Value,
) -> Result<CoreExpr, NoMemory>
    ensures { IfOk result (λ e. expr_of e ≡ as_type core.now checked to (value_of value)) }
{
    match value {
        Value::Constant(c) => match retyped(alloc, core, to, &c.value)? {
            Some(value) => {
                let weight = c.weight;
                Ok(constant_tree(
                    alloc,
                    Constant {
                        value,
                        of: to,
                        weight,
                    },
                ))
            }
            None => {
                let conversion = conversion(core, checked, c.of, to);
                with_conversion(constant_tree(alloc, c), to, conversion)
            }
        },
        Value::Computed(e) => {
            let conversion = conversion(core, checked, type_of(&e), to);
            with_conversion(e, to, conversion)
        }
    }
}

/// The same constant as one of another type, where it is one.
pub fn retyped(
    alloc: Global,
    core: &Core,
    to: TypeId,
    value: &Const,
) -> Result<Option<Const>, NoMemory>
    ensures { IfOk result (λ v. v ≡ retyped core.now to value.now) }
{
    match (sort_of(core, to), value) {
        (Sort::Ordinal(_), Const::Ordinal(n)) => Ok(in_range(core, to, *n as i64)),
        (Sort::String, _) => Ok(Some(Const::Text(bytes_of(alloc, value)?))),
        (Sort::Set(_), Const::Set(members)) => {
            if are_in(core, base_of(core, to), members.as_slice()) {
                let members = Vec::from_slice(alloc, members.as_slice())?;
                Ok(Some(Const::Set(Sequence::from(members))))
            } else {
                Ok(None)
            }
        }
        (sort, Const::Nil) => Ok(sort.is_reference().then_some(Const::Nil)),
        _ => Ok(None),
    }
}

/// The type whose values are the elements of a set.
pub fn base_of(core: &Core, of: TypeId) -> Option<TypeId>
    ensures { result ≡ typing.base_of (type_at core.now of) }
{
    match type_at(core, of) {
        Some(CoreType::Set { base }) => Some(base),
        _ => None,
    }
}

/// Whether each element is a value of the base.
fn are_in(core: &Core, base: Option<TypeId>, members: &[u8]) -> bool
    ensures { result ≡ are_in core.now base members.now }
{
    match base {
        None => false,
        Some(base) => all_in(core, base, members),
    }
}

fn all_in(core: &Core, base: TypeId, members: &[u8]) -> bool
    ensures { result ≡ list_all (is_in core.now base) members.now }
{
    members.iter().all(|n| is_in(core, base, *n))
}

#[tactic(auto, unfolding(crate::specs::Values::is_in))]
fn is_in(core: &Core, base: TypeId, n: u8) -> bool
    ensures { result ≡ is_in core.now base n }
{
    in_range(core, base, n as i64).is_some()
}

/// What makes of a value of one type one of another, to which it is assignable; None where the types are one.
pub fn conversion(core: &Core, checked: bool, from: TypeId, to: TypeId) -> Option<Conversion>
    ensures { result ≡ conversion core.now checked from to }
{
    if one_type(core.types.as_slice(), from, to) {
        return None;
    }
    match (sort_of(core, from), sort_of(core, to)) {
        (Sort::Ordinal(_), Sort::Ordinal(_)) => Some(ordinal_conversion(core, checked, from, to)),
        (Sort::Ordinal(_), Sort::String) => Some(Conversion::ToString),
        (Sort::Set(_), Sort::Set(_)) => Some(Conversion::Check),
        (Sort::Class(_), Sort::Interface(_)) => Some(Conversion::ToInterface),
        _ => Some(Conversion::Keep),
    }
}

fn ordinal_conversion(core: &Core, checked: bool, from: TypeId, to: TypeId) -> Conversion
    ensures { result ≡ ordinal_conversion core.now checked from to }
{
    if is_wider(range_of(core, from), range_of(core, to)) {
        Conversion::Keep
    } else if checked || !is_integer(core, to) {
        Conversion::Check
    } else {
        Conversion::LowBits
    }
}

/// Whether all values that range so are among those of the second range.
pub fn is_wider(from: Option<(i64, i64)>, to: Option<(i64, i64)>) -> bool
    ensures { result ≡ is_wider from to }
{
    match (from, to) {
        (Some(from), Some(to)) => {
            to.0 <= from.0 && from.0 <= to.1 && (to.0 <= from.1 && from.1 <= to.1)
        }
        _ => false,
    }
}

/// Whether the type is a predefined integer type.
pub fn is_integer(core: &Core, of: TypeId) -> bool
    ensures { result ≡ is_integer (type_at core.now of) }
{
    matches!(type_at(core, of), Some(CoreType::Integer(_)))
}

//! Set constructors, once their elements have values.
ghost use Rattle.std.specs.Prelude.{◌≡◌, Some, IfOk, map};
ghost use Rattle.std.specs.List.{list_all};
ghost use Rattle.std.specs.Option.{option_map};
ghost use Rattle.op_core.specs.Expression.{element_of, expr_of, expression, no_steps, set as set_root};
ghost use Rattle.op_core.specs.Nodes.{elements_of};
ghost use Rattle.op_core.specs.Sizes.{type_at};
ghost use Rattle.op_core.specs.Typing as typing;
ghost use Rattle.op_judgement.specs.Judgement.{Reports, both_typed, with_part};
ghost use Rattle.op_check_expr.specs.Constructors.{are_constants, both_in_set, computed_set, constant_member, constant_members, constant_of, element_tree, is_constant, is_small, member_in_set, member_of, members_of, one, or_own, place_of, set_by, set_of, set_tree, type_of_set, value_in_set, wanted_or};
ghost use Rattle.op_check_expr.specs.Expressions.{ranged, with_member};
ghost use Rattle.op_check_expr.specs.Parts.{Behind};
ghost use Rattle.op_check_expr.specs.Values.{value_of};
ghost use Rattle.op_types.specs.ConstantParts.{no_members};
ghost use Rattle.op_types.specs.Operators as table;

use crate::convert::{as_type, base_of};
use crate::operate::{Done, Valued, put};
use crate::value::{Value, constant_value};
use op_base::{NoMemory, Place};
use op_core::{Const, Core, CoreElement, CoreExpr, FirstRefusal, Root, TypeId};
use op_judgement::{LanguageRule, refuse};
use op_types::{
    Constant, Setting, Sort, assignable, common_set, in_brackets, no_members, set_over, sort_of,
};
use std::alloc::Global;

/// An element of a set with the values that it is made of, each with the place where it begins.
#[derive(Drop)]
pub enum Member {
    One(Place, Value),
    Range(Place, Value, Place, Value),
}

/// Puts there the element that is a value at a place.
#[inline(never)]
pub fn alone(at: Place, done: Done, value: Option<Value>, out: &mut Option<Member>) -> Done
    ensures { IfOk result (λ _. Behind done (option_map member_of out.new ≡ option_map (one at) (option_map value_of value))) }
{
    done?;
    let made = match value {
        Some(v) => Some(Member::One(at, v)),
        None => None,
    };
    put(out, made);
    Ok(())
}

/// Puts there the elements from one value to another.
#[inline(never)]
pub fn ranged(
    places: (Place, Place),
    done: (Done, Done),
    a: Option<Value>,
    b: Option<Value>,
    out: &mut Option<Member>,
) -> Done
    ensures { IfOk result (λ _. Behind done.0 (Behind done.1 (option_map member_of out.new ≡ both_typed (ranged places.0 places.1) (option_map value_of a) (option_map value_of b)))) }
{
    done.0?;
    done.1?;
    let made = match a {
        Some(a) => match b {
            Some(b) => Some(Member::Range(places.0, a, places.1, b)),
            None => None,
        },
        None => None,
    };
    put(out, made);
    Ok(())
}

/// The elements of a set so far; None where a rule is broken in one.
pub type Members = Option<Vec<Member>>;

/// Puts an element behind those so far.
#[inline(never)]
pub fn add_member(members: &mut Members, done: Done, more: Option<Member>) -> Done
    ensures { IfOk result (λ _. Behind done (option_map members_of members.new ≡ with_member (option_map members_of members.old) (option_map member_of more))) }
{
    done?;
    let Some(mut list) = members.take() else {
        return Ok(());
    };
    let Some(more) = more else {
        return Ok(());
    };
    list.push(more)?;
    put(members, Some(list));
    Ok(())
}

/// Puts there a set constructor; a constant where all its elements are. Its use may want a type.
#[inline(never)]
pub fn set_of(
    setting: Setting,
    sink: &mut FirstRefusal,
    wanted: Option<TypeId>,
    done: Done,
    members: Members,
    out: &mut Option<Value>,
) -> Done
    ensures { IfOk result (λ _. Behind done (Reports (with_part (set_of setting.entry.core.now wanted) (option_map members_of members)) sink.old sink.new (option_map value_of out.new))) }
{
    done?;
    let made = match members {
        Some(members) => set_value(setting, sink, wanted, members)?,
        None => None,
    };
    put(out, made);
    Ok(())
}

fn set_value(
    setting: Setting,
    sink: &mut FirstRefusal,
    wanted: Option<TypeId>,
    members: Vec<Member>,
) -> Valued
    ensures { IfOk result (λ v. Reports (set_of setting.entry.core.now wanted (map member_of members.items)) sink.old sink.new (option_map value_of v)) }
{
    let constant = all_constants(members.as_slice());
    set_by(setting, sink, wanted, members, constant)
}

fn set_by(
    setting: Setting,
    sink: &mut FirstRefusal,
    wanted: Option<TypeId>,
    members: Vec<Member>,
    constant: bool,
) -> Valued
    ensures { IfOk result (λ v. Reports (set_by setting.entry.core.now wanted (map member_of members.items) constant) sink.old sink.new (option_map value_of v)) }
{
    if constant {
        let set = constant_members(setting, sink, members)?;
        Ok(constant_value(in_brackets(set)))
    } else {
        computed_set(setting, sink, wanted, members)
    }
}

fn all_constants(members: &[Member]) -> bool
    ensures { result ≡ list_all (λ m. are_constants (member_of m)) members.now }
{
    members.iter().all(|m| m.are_constants())
}

fn constant_members(
    setting: Setting,
    sink: &mut FirstRefusal,
    members: Vec<Member>,
) -> Result<Option<Constant>, NoMemory>
    ensures { IfOk result (λ c. Reports (constant_members setting.entry.core.now (Some no_members) (map member_of members.items)) sink.old sink.new c) }
{
    let mut set = Some(no_members(setting.alloc));
    for member in members {
        let at = member.place();
        let more = constant_member(setting, sink, member)?;
        set = setting.gather(sink, at, set, more)?;
    }
    Ok(set)
}

fn constant_member(
    setting: Setting,
    sink: &mut FirstRefusal,
    member: Member,
) -> Result<Option<Constant>, NoMemory>
    ensures { IfOk result (λ c. Reports (constant_member setting.entry.core.now (member_of member)) sink.old sink.new c) }
{
    match member {
        Member::One(at, a) => setting.single(sink, at, a.into_constant()),
        Member::Range(at, a, end, b) => {
            setting.range(sink, (at, a.into_constant()), (end, b.into_constant()))
        }
    }
}

fn computed_set(
    setting: Setting,
    sink: &mut FirstRefusal,
    wanted: Option<TypeId>,
    members: Vec<Member>,
) -> Valued
    ensures { IfOk result (λ v. Reports (computed_set setting.entry.core.now wanted (map member_of members.items)) sink.old sink.new (option_map value_of v)) }
{
    let core = setting.core;
    let Some(own) = type_of_set(core, sink, members.as_slice()) else {
        return Ok(None);
    };
    let of = wanted_or(core, wanted, own);
    Ok(Some(Value::Computed(set_tree(setting.alloc, core, of, members)?)))
}

/// The type of a set of these members.
fn type_of_set(core: &Core, sink: &mut FirstRefusal, members: &[Member]) -> Option<TypeId>
    ensures { Reports (type_of_set core.now (Some table.empty_set) (map member_of members.now)) sink.old sink.new result }
{
    let mut of = Some(TypeId::EMPTY_SET);
    for member in members {
        let more = member_in_set(core, sink, member);
        of = both_in_set(core, sink, member.place(), of, more);
    }
    of
}

fn member_in_set(core: &Core, sink: &mut FirstRefusal, member: &Member) -> Option<TypeId>
    ensures { Reports (member_in_set core.now (member_of member.now)) sink.old sink.new result }
{
    match member {
        Member::One(at, v) => value_in_set(core, sink, *at, v),
        Member::Range(at, v, end, w) => {
            let a = value_in_set(core, sink, *at, v);
            let b = value_in_set(core, sink, *end, w);
            let (Some(a), Some(b)) = (a, b) else {
                return None;
            };
            if assignable(core, w.type_of(), v.type_of()) {
                Some(common_set(core, a, b))
            } else {
                refuse(sink, LanguageRule::NotAssignable, *end)
            }
        }
    }
}

/// The type of a set of a value: one of an ordinal type, and no constant out of 0 to 31.
fn value_in_set(core: &Core, sink: &mut FirstRefusal, at: Place, value: &Value) -> Option<TypeId>
    ensures { Reports (value_in_set core.now at (value_of value.now)) sink.old sink.new result }
{
    let of = value.type_of();
    match sort_of(core, of) {
        Sort::Ordinal(_) => {
            if value.is_small() {
                Some(set_over(core, of))
            } else {
                refuse(sink, LanguageRule::NoSetElement, at)
            }
        }
        _ => refuse(sink, LanguageRule::NotOrdinal, at),
    }
}

/// The type of a set of the one type and one of another that begins at a place.
fn both_in_set(
    core: &Core,
    sink: &mut FirstRefusal,
    at: Place,
    a: Option<TypeId>,
    b: Option<TypeId>,
) -> Option<TypeId>
    ensures { Reports (both_in_set core.now at a b) sink.old sink.new result }
{
    let (Some(a), Some(b)) = (a, b) else {
        return None;
    };
    if sort_of(core, a).is_set_as(sort_of(core, b)) {
        Some(common_set(core, a, b))
    } else {
        refuse(sink, LanguageRule::NotAssignable, at)
    }
}

/// The type of a set whose own is known: the one that its use wants, where that is one of such elements.
fn wanted_or(core: &Core, wanted: Option<TypeId>, own: TypeId) -> TypeId
    ensures { result ≡ wanted_or core.now wanted own }
{
    match wanted {
        Some(to) => { if assignable(core, own, to) { to } else { own } }
        None => own,
    }
}

fn set_tree(
    alloc: Global,
    core: &Core,
    of: TypeId,
    members: Vec<Member>,
) -> Result<CoreExpr, NoMemory>
    ensures { IfOk result (λ e. value_of (Value.Computed e) ≡ set_tree core.now of (map member_of members.items)) }
{
    let base = base_or_own(core, of);
    let mut elements = Vec::new(alloc);
    for member in members {
        elements.push(element_tree(alloc, core, base, member)?)?;
    }
    Ok(set_expression(alloc, elements, of))
}

fn set_expression(alloc: Global, elements: Vec<CoreElement>, of: TypeId) -> CoreExpr
    ensures { expr_of result ≡ expression (set_root (elements_of elements.items)) of no_steps }
{
    CoreExpr::new(alloc, Root::Set(elements), of)
}

fn base_or_own(core: &Core, of: TypeId) -> TypeId
    ensures { result ≡ or_own of (typing.base_of (type_at core.now of)) }
{
    match base_of(core, of) {
        Some(base) => base,
        None => of,
    }
}

fn element_tree(
    alloc: Global,
    core: &Core,
    base: TypeId,
    member: Member,
) -> Result<CoreElement, NoMemory>
    ensures { IfOk result (λ e. element_of e ≡ element_tree core.now base (member_of member)) }
{
    match member {
        Member::One(_, v) => Ok(CoreElement::One(as_type(alloc, core, true, base, v)?)),
        Member::Range(_, v, _, w) => {
            let first = as_type(alloc, core, true, base, v)?;
            let first = Box::new(alloc, first)?;
            let last = as_type(alloc, core, true, base, w)?;
            Ok(CoreElement::Range(first, Box::new(alloc, last)?))
        }
    }
}

impl Member {
    fn place(&self) -> Place
        ensures { result ≡ place_of (member_of self.now) }
    {
        match self {
            Member::One(at, _) => *at,
            Member::Range(at, _, _, _) => *at,
        }
    }

    fn are_constants(&self) -> bool
        ensures { result ≡ are_constants (member_of self.now) }
    {
        match self {
            Member::One(_, v) => v.is_constant(),
            Member::Range(_, v, _, w) => v.is_constant() && w.is_constant(),
        }
    }
}

impl Value {
    fn is_constant(&self) -> bool
        ensures { result ≡ is_constant (value_of self.now) }
    {
        match self {
            Value::Constant(_) => true,
            Value::Computed(_) => false,
        }
    }

    fn into_constant(self) -> Option<Constant>
        ensures { result ≡ constant_of (value_of self) }
    {
        match self {
            Value::Constant(c) => Some(c),
            Value::Computed(_) => None,
        }
    }

    /// Whether it is not a constant out of 0 to 31.
    pub fn is_small(&self) -> bool
        ensures { result ≡ is_small (value_of self.now) }
    {
        match self {
            Value::Constant(c) => match c.value {
                Const::Ordinal(n) => 0 <= n && n <= 31,
                _ => true,
            },
            Value::Computed(_) => true,
        }
    }
}

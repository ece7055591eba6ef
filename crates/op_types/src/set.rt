//! Sets: the type of one whose use does not tell it, and what operators make of two (Free Pascal Reference Guide, "Set types"
//! and "Set operators").
ghost use Rattle.std.specs.Prelude.{◌≡◌, ◌++◌, IfOk};
ghost use Rattle.op_core.specs.Sizes.{type_at};
ghost use Rattle.op_types.specs.Sets.{behind, between, combined, common_set, has, is_between, is_kept, is_part, is_set_of, only, set_behind, set_over, widest_set};

use crate::sort::{OrdinalKind, Sort, kind_of, sort_of};
use op_base::NoMemory;
use op_core::{Core, CoreType, TypeId, type_at};
use op_tree::Operator;
use std::alloc::Global;

/// The set type of a base, which stands right behind that in the table. None where there is none.
pub fn set_behind(core: &Core, base: TypeId) -> Option<TypeId>
    ensures { result ≡ set_behind core.now base }
{
    is_set_of(core, base, behind(base, 1)).then_some(behind(base, 1))
}

fn is_set_of(core: &Core, base: TypeId, of: TypeId) -> bool
    ensures { result ≡ is_set_of base (type_at core.now of) }
{
    match type_at(core, of) {
        Some(CoreType::Set { base: own }) => own.0 == base.0,
        _ => false,
    }
}

fn behind(of: TypeId, rows: u32) -> TypeId
    ensures { result ≡ behind of rows }
{
    TypeId(of.0.saturating_add(rows))
}

/// The set type of the values 0 to 31 of a kind.
pub fn widest_set(core: &Core, kind: OrdinalKind) -> TypeId
    ensures { result ≡ widest_set core.now kind }
{
    match kind {
        OrdinalKind::Integer => behind(TypeId::SMALL_INTEGERS, 1),
        OrdinalKind::Char => behind(TypeId::SMALL_CHARS, 1),
        OrdinalKind::Boolean => TypeId::SET_OF_BOOLEANS,
        OrdinalKind::Enumeration(of) => match set_behind(core, of) {
            Some(set) => set,
            None => match set_behind(core, behind(of, 1)) {
                Some(set) => set,
                None => behind(TypeId::SMALL_INTEGERS, 1),
            },
        },
    }
}

/// The type of a set of elements of an ordinal type, where its use does not tell it: over that type, where that is an enumeration
/// or a subrange within 0 to 31, else over the values 0 to 31 of its kind.
pub fn set_over(core: &Core, element: TypeId) -> TypeId
    ensures { result ≡ set_over core.now element }
{
    match (set_behind(core, element), kind_of(core, element)) {
        (Some(set), _) => set,
        (None, Some(kind)) => widest_set(core, kind),
        (None, None) => TypeId::EMPTY_SET,
    }
}

/// The type to which sets of two types go that are operands of one operator, where their elements are of one kind.
pub fn common_set(core: &Core, a: TypeId, b: TypeId) -> TypeId
    ensures { result ≡ common_set core.now a b }
{
    match (sort_of(core, a), sort_of(core, b)) {
        (Sort::EmptySet, _) => b,
        (Sort::Set(kind), Sort::Set(_)) => {
            if a.0 == b.0 {
                a
            } else {
                widest_set(core, kind)
            }
        }
        _ => a,
    }
}

/// The elements, ascending, of what `+`, `-` or `*` makes of two sets.
pub fn combined(alloc: Global, operator: Operator, a: &[u8], b: &[u8]) -> Result<Vec<u8>, NoMemory>
    ensures { IfOk result (λ v. v.items ≡ combined operator a.now b.now) }
{
    let mut set = Vec::new(alloc);
    for n in 0..32 {
        push_if(&mut set, n, is_kept(operator, has(a, n), has(b, n)))?;
    }
    Ok(set)
}

fn push_if(set: &mut Vec<u8>, n: u8, is_in: bool) -> Result<(), NoMemory>
    ensures { IfOk result (λ _. set.new.items ≡ set.old.items ++ only n is_in) }
{
    if is_in {
        set.push(n)?;
    }
    Ok(())
}

fn is_kept(operator: Operator, a: bool, b: bool) -> bool
    ensures { result ≡ is_kept operator a b }
{
    match operator {
        Operator::Add => a || b,
        Operator::Subtract => a && !b,
        _ => a && b,
    }
}

/// The numbers from one to another that are from 0 to 31.
pub fn between(alloc: Global, low: i32, high: i32) -> Result<Vec<u8>, NoMemory>
    ensures { IfOk result (λ v. v.items ≡ between low high) }
{
    let mut set = Vec::new(alloc);
    for n in 0..32 {
        push_if(&mut set, n, is_between(low, high, n))?;
    }
    Ok(set)
}

fn is_between(low: i32, high: i32, n: u8) -> bool
    ensures { result ≡ is_between low high n }
{
    low <= n as i32 && n as i32 <= high
}

pub fn has(set: &[u8], n: u8) -> bool
    ensures { result ≡ has set.now n }
{
    set.contains(&n)
}

/// Whether each element of the first set is one of the second.
pub fn is_part(a: &[u8], b: &[u8]) -> bool
    ensures { result ≡ is_part a.now b.now }
{
    a.iter().all(|n| has(b, *n))
}

//! Which types are assignable to which (Free Pascal Reference Guide, "Assignments", "Classes" and "Interfaces").
ghost use Rattle.std.specs.Prelude.{◌≡◌, IsTrue, length, slice_get};
ghost use Rattle.std.specs.List.{list_any};
ghost use Rattle.op_core.specs.Rows.{rows};
ghost use Rattle.op_types.specs.Assignable.{Assignable, ChainsEnd, ancestor_of, assignable, descends_within, extends_any, extends_within, fits, implements_within, listed_by, parent_of};

use crate::sort::{Sort, sort_of};
use op_core::{Class, ClassId, Core, Interface, InterfaceId, TypeId, one_type};

/// Whether a value of the one type may be assigned to a variable of the other.
pub fn assignable(core: &Core, from: TypeId, to: TypeId) -> bool
    ensures value { result ≡ assignable core.now from to }
    ensures means { IsTrue result → Assignable core.now from to }
    ensures whole { ChainsEnd core.now → Assignable core.now from to → IsTrue result }
{
    is_assignable(core, from, to)
}

fn is_assignable(core: &Core, from: TypeId, to: TypeId) -> bool
    ensures { result ≡ assignable core.now from to }
{
    one_type(core.types.as_slice(), from, to) || fits(core, sort_of(core, from), sort_of(core, to))
}

fn fits(core: &Core, from: Sort, to: Sort) -> bool
    ensures { result ≡ fits core.now from to }
{
    match (from, to) {
        (Sort::Ordinal(a), Sort::Ordinal(b)) => a.is_same(b),
        (Sort::Set(a), Sort::Set(b)) => a.is_same(b),
        (Sort::EmptySet, Sort::Set(_)) => true,
        (Sort::Ordinal(_), Sort::String) => from.is_text(),
        (Sort::Nil, _) => to.is_reference(),
        (Sort::Class(a), Sort::Class(b)) => { descends_within(core.classes.as_slice(), core, a, b) }
        (Sort::Class(a), Sort::Interface(b)) => {
            implements_within(core.classes.as_slice(), core, a, b)
        }
        (Sort::Interface(a), Sort::Interface(b)) => {
            extends_within(core.interfaces.as_slice(), core, a, b)
        }
        _ => false,
    }
}

/// Whether a class is the other one or descends from it, in no more steps than are given.
fn descends_within(steps: &[Class], core: &Core, a: ClassId, b: ClassId) -> bool
    ensures { result ≡ descends_within steps.now core.now a b }
{
    let Some((_, steps)) = steps.split_first() else {
        return a.0 == b.0;
    };
    a.0 == b.0
        || match ancestor_of(core, a) {
            None => false,
            Some(parent) => descends_within(steps, core, parent, b),
        }
}

fn ancestor_of(core: &Core, id: ClassId) -> Option<ClassId>
    ensures { result ≡ ancestor_of core.now id }
{
    match core.classes.as_slice().get(id.0 as usize) {
        None => None,
        Some(class) => class.ancestor,
    }
}

/// Whether an interface is the other one or descends from it, in no more steps than are given.
fn extends_within(steps: &[Interface], core: &Core, a: InterfaceId, b: InterfaceId) -> bool
    ensures { result ≡ extends_within steps.now core.now a b }
{
    let Some((_, steps)) = steps.split_first() else {
        return a.0 == b.0;
    };
    a.0 == b.0
        || match parent_of(core, a) {
            None => false,
            Some(parent) => extends_within(steps, core, parent, b),
        }
}

fn parent_of(core: &Core, id: InterfaceId) -> Option<InterfaceId>
    ensures { result ≡ parent_of core.now id }
{
    match core.interfaces.as_slice().get(id.0 as usize) {
        None => None,
        Some(face) => face.ancestor,
    }
}

/// Whether a class or one of its ancestors, in no more steps than are given, lists the interface or one that descends from it.
fn implements_within(steps: &[Class], core: &Core, a: ClassId, b: InterfaceId) -> bool
    ensures { result ≡ implements_within steps.now core.now a b }
{
    let lists = extends_any(core, listed_by(core, a), b);
    let Some((_, steps)) = steps.split_first() else {
        return lists;
    };
    lists
        || match ancestor_of(core, a) {
            None => false,
            Some(parent) => implements_within(steps, core, parent, b),
        }
}

fn extends_any(core: &Core, listed: &[InterfaceId], b: InterfaceId) -> bool
    ensures { result ≡ extends_any core.now listed.now b }
{
    for a in listed {
        if extends_within(core.interfaces.as_slice(), core, *a, b) {
            return true;
        }
    }
    false
}

fn listed_by(core: &Core, id: ClassId) -> &[InterfaceId]
    ensures { result.now ≡ listed_by core.now id }
{
    match core.classes.as_slice().get(id.0 as usize) {
        None => &[],
        Some(class) => core.listed.rows(class.interfaces),
    }
}

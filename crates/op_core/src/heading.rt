//! Whether two routines have the same heading.
ghost use Rattle.std.specs.Prelude.{◌≡◌, ◌<◌, length, slice_get};
ghost use Rattle.op_core.specs.Heading.{is_same_heading, same_headings, same_kind, same_mode, same_parameter, same_parameters, same_result};
ghost use Rattle.op_core.specs.Types.{are_one, elements, is_one_type};

use crate::{Core, CoreType, Parameter, Routine, TypeId};
use op_tree::{ParameterMode, RoutineKind};

/// Whether two routines have the same heading: of one kind, with parameters of the same modes and types, and a result of
/// the same type. The names of parameters do not count. `a` and `b` are numbers of routines.
pub fn same_heading(core: &Core, a: u32, b: u32) -> bool
    requires first { a < length core.now.routines }
    requires second { b < length core.now.routines }
    ensures { result ≡ same_headings core.now a b }
{
    let routines = core.routines.as_slice();
    same_routines(core, &routines[a as usize], &routines[b as usize])
}

fn same_routines(core: &Core, a: &Routine, b: &Routine) -> bool
    ensures { result ≡ is_same_heading core.now a.now b.now }
{
    let types = core.types.as_slice();
    is_same_kind(a.kind, b.kind)
        && is_same_result(types, a.result, b.result)
        && are_same_parameters(
            types,
            core.parameters.rows(a.parameters),
            core.parameters.rows(b.parameters),
        )
}

fn is_same_kind(a: RoutineKind, b: RoutineKind) -> bool
    ensures { result ≡ same_kind a b }
{
    a == b
}

fn is_same_mode(a: ParameterMode, b: ParameterMode) -> bool
    ensures { result ≡ same_mode a b }
{
    a == b
}

fn is_same_result(types: &[CoreType], a: Option<TypeId>, b: Option<TypeId>) -> bool
    ensures { result ≡ same_result types.now a b }
{
    match (a, b) {
        (None, None) => true,
        (Some(a), Some(b)) => one_type(types, a, b),
        (None, Some(_)) => false,
        (Some(_), None) => false,
    }
}

fn are_same_parameters(types: &[CoreType], a: &[Parameter], b: &[Parameter]) -> bool
    ensures { result ≡ same_parameters types.now a.now b.now }
{
    match (a.split_first(), b.split_first()) {
        (None, None) => true,
        (Some((x, xs)), Some((y, ys))) => {
            is_same_mode(x.mode, y.mode)
                && one_type(types, x.of, y.of)
                && are_same_parameters(types, xs, ys)
        }
        (None, Some(_)) => false,
        (Some(_), None) => false,
    }
}

/// Whether two types are one, as far as the arrays without bounds in the table tell.
pub fn one_type(types: &[CoreType], a: TypeId, b: TypeId) -> bool
    ensures { result ≡ is_one_type types.now a b }
{
    are_one(types, types, a, b)
}

/// Whether they are one where no more arrays stand one in the other than there are steps.
fn are_one(steps: &[CoreType], types: &[CoreType], a: TypeId, b: TypeId) -> bool
    ensures { result ≡ are_one steps.now types.now a b }
{
    let Some((_, steps)) = steps.split_first() else {
        return a.0 == b.0;
    };
    a.0 == b.0
        || match element_types(types, a, b) {
            None => false,
            Some((x, y)) => are_one(steps, types, x, y),
        }
}

/// The element types of two arrays without bounds, by their numbers.
fn element_types(types: &[CoreType], a: TypeId, b: TypeId) -> Option<(TypeId, TypeId)>
    ensures { result ≡ elements (slice_get types.now a.0) (slice_get types.now b.0) }
{
    match (types.get(a.0 as usize), types.get(b.0 as usize)) {
        (
            Some(CoreType::DynamicArray { element: x }),
            Some(CoreType::DynamicArray { element: y }),
        ) => { Some((*x, *y)) }
        (Some(CoreType::OpenArray { element: x }), Some(CoreType::OpenArray { element: y })) => {
            Some((*x, *y))
        }
        _ => None,
    }
}

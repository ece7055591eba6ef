//! How values of a type are kept: as one number, or not.
ghost use Rattle.std.specs.Prelude.{◌≡◌};
ghost use Rattle.op_meaning.specs.Shapes.{shape_of};
ghost use Rattle.op_mir.specs.Shapes.{is_composite, is_string, kind_of};

use op_core::{Core, CoreType, IntegerKind, TypeId, type_at};

/// Of which a store of the type keeps the low bits, where its values are single numbers.
pub fn single_kind(core: &Core, of: TypeId) -> Option<IntegerKind>
    ensures { result ≡ kind_of (shape_of core.now of) }
{
    match type_at(core, of) {
        Some(CoreType::Integer(kind)) => Some(kind),
        Some(CoreType::Boolean | CoreType::Char) => Some(IntegerKind::Unsigned8),
        Some(CoreType::Record { .. } | CoreType::Array { .. }) => None,
        Some(CoreType::String | CoreType::DynamicArray { .. }) => None,
        Some(CoreType::Class(_) | CoreType::Interface(_)) => None,
        _ => Some(IntegerKind::Signed32),
    }
}

/// Whether the values of the type have parts: it is a record or an array with bounds.
pub fn is_composite(core: &Core, of: TypeId) -> bool
    ensures { result ≡ is_composite (shape_of core.now of) }
{
    matches!(
        type_at(core, of),
        Some(CoreType::Record { .. } | CoreType::Array { .. })
    )
}

/// Whether the values of the type are strings.
pub(crate) fn is_string(core: &Core, of: TypeId) -> bool
    ensures { result ≡ is_string (shape_of core.now of) }
{
    matches!(type_at(core, of), Some(CoreType::String))
}

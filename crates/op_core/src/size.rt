//! How large the values of types are, and which types are managed (Free Pascal Reference Guide, "Types").
ghost use Rattle.std.specs.Prelude.{◌≡◌, ◌≤ℤ◌, Some, IfSome, slice_get};
ghost use Rattle.op_core.specs.Sizes.{IsOrdinalRange, aligned, extended, extent_by, extent_of, in_order, integer_range, integer_size, is_com, plain, range_of, times, type_at, values_of};

use crate::{Core, CoreType, Extent, Field, IntegerKind, InterfaceId, InterfaceKind, TypeId};

/// The size of a type's values, in bytes. A size above 4,294,967,295 counts as that number.
pub fn size_of(core: &Core, of: TypeId) -> u32
    ensures { result ≡ (extent_of core.now of).size }
{
    extent_of(core, of).size
}

/// Whether values of the type are or hold strings, dynamic arrays or what holds an instance.
pub fn is_managed(core: &Core, of: TypeId) -> bool
    ensures { result ≡ (extent_of core.now of).managed }
{
    extent_of(core, of).managed
}

/// What is kept for a type of the core; `enter_type` has it right.
pub fn extent_of(core: &Core, of: TypeId) -> Extent
    ensures { result ≡ extent_of core.now of }
{
    match core.extents.as_slice().get(of.0 as usize) {
        None => plain(4, false),
        Some(extent) => *extent,
    }
}

/// The extent of a type of this form, by the extents of the types that it is made of.
pub fn extent_by(core: &Core, of: CoreType) -> Extent
    ensures { result ≡ extent_by (extent_of core.now) core.now (Some of) }
{
    match of {
        CoreType::Integer(kind) => plain(integer_size(kind), false),
        CoreType::Boolean | CoreType::Char => plain(1, false),
        CoreType::String | CoreType::DynamicArray { .. } => plain(4, true),
        CoreType::Interface(id) => plain(4, is_com(core, id)),
        CoreType::Record { fields } => in_order(core, core.fields.rows(fields)),
        CoreType::Array { index, element } => {
            times(values_of(core, index), extent_of(core, element))
        }
        _ => plain(4, false),
    }
}

/// The extent of a record with these fields.
fn in_order(core: &Core, fields: &[Field]) -> Extent
    ensures { result ≡ in_order (extent_of core.now) fields.now }
{
    let mut parts = Extent {
        size: 0,
        alignment: 1,
        managed: false,
    };
    for field in fields {
        parts = extended(parts, extent_of(core, field.of));
    }
    let size = aligned(parts.alignment, parts.size);
    Extent { size, ..parts }
}

pub fn type_at(core: &Core, of: TypeId) -> Option<CoreType>
    ensures { result ≡ type_at core.now of }
{
    core.types.as_slice().get(of.0 as usize).copied()
}

fn plain(size: u32, managed: bool) -> Extent
    ensures { result ≡ plain size managed }
{
    let alignment = size;
    Extent {
        size,
        alignment,
        managed,
    }
}

fn integer_size(kind: IntegerKind) -> u32
    ensures { result ≡ integer_size kind }
{
    match kind {
        IntegerKind::Signed8 | IntegerKind::Unsigned8 => 1,
        IntegerKind::Signed16 | IntegerKind::Unsigned16 => 2,
        IntegerKind::Signed32 => 4,
    }
}

fn is_com(core: &Core, id: InterfaceId) -> bool
    ensures { result ≡ is_com (slice_get core.now.interfaces id.0) }
{
    match core.interfaces.as_slice().get(id.0 as usize) {
        None => false,
        Some(face) => matches!(face.kind, InterfaceKind::Com),
    }
}

fn aligned(alignment: u32, size: u32) -> u32
    ensures { result ≡ aligned alignment size }
{
    let unit = alignment.max(1);
    size.div_ceil(unit).saturating_mul(unit)
}

fn extended(parts: Extent, part: Extent) -> Extent
    ensures { result ≡ extended parts part }
{
    Extent {
        size: aligned(part.alignment, parts.size).saturating_add(part.size),
        alignment: parts.alignment.max(part.alignment),
        managed: parts.managed || part.managed,
    }
}

fn times(count: u64, element: Extent) -> Extent
    ensures { result ≡ times count element }
{
    let size = count
        .saturating_mul(element.size as u64)
        .min(u32::MAX as u64) as u32;
    Extent { size, ..element }
}

/// The least and the greatest number of an ordinal type's values.
pub fn range_of(core: &Core, of: TypeId) -> Option<(i64, i64)>
    ensures value { result ≡ range_of (type_at core.now of) }
    ensures small { IfSome result IsOrdinalRange }
{
    match type_at(core, of) {
        Some(CoreType::Integer(kind)) => Some(integer_range(kind)),
        Some(CoreType::Boolean) => Some((0, 1)),
        Some(CoreType::Char) => Some((0, 255)),
        Some(CoreType::Enumeration { values }) => Some((0, values as i64 - 1)),
        Some(CoreType::Subrange { low, high, .. }) => Some((low as i64, high as i64)),
        _ => None,
    }
}

pub fn integer_range(kind: IntegerKind) -> (i64, i64)
    ensures value { result ≡ integer_range kind }
    ensures small { IsOrdinalRange result }
    ensures order { result.0 ≤ℤ result.1 }
{
    match kind {
        IntegerKind::Signed8 => (-0x80, 0x7f),
        IntegerKind::Unsigned8 => (0, 0xff),
        IntegerKind::Signed16 => (-0x8000, 0x7fff),
        IntegerKind::Unsigned16 => (0, 0xffff),
        IntegerKind::Signed32 => (-0x8000_0000, 0x7fff_ffff),
    }
}

/// How many values an ordinal type has; 0 for other types.
pub fn values_of(core: &Core, of: TypeId) -> u64
    ensures { result ≡ values_of (range_of (type_at core.now of)) }
{
    match range_of(core, of) {
        None => 0,
        Some((low, high)) => (high - low).unsigned_abs() + 1,
    }
}

//! How much room values take in memory, and where their parts begin (Free Pascal Reference Guide, "Record types" and "Arrays").
ghost use Rattle.std.specs.Prelude.{◌≡◌};
ghost use Rattle.op_core.specs.Sizes.{extent_of, type_at};
ghost use Rattle.op_constants.specs.Offsets.{alignment_in, begin_behind, element_size, end_behind, field_offset, fields_in, size_in};

use op_core::{Core, CoreType, Extent, Field, TypeId, extent_of, type_at};

/// The bytes of a value of the type.
pub fn size_of(core: &Core, of: TypeId) -> u32
    ensures { result ≡ size_in core.now of }
{
    extent_of(core, of).size
}

/// What the address of a value of the type is a multiple of.
pub fn alignment_of(core: &Core, of: TypeId) -> u32
    ensures { result ≡ alignment_in core.now of }
{
    extent_of(core, of).alignment
}

/// The bytes from an element of the array type to the next one; 0 for what is no array.
pub fn element_size(core: &Core, of: TypeId) -> u32
    ensures { result ≡ element_size core.now of }
{
    match type_at(core, of) {
        Some(CoreType::Array { element, .. }) => size_of(core, element),
        _ => 0,
    }
}

/// Where a field of the record type begins, in bytes from the beginning of the record. Fields are counted from 0 in order of
/// declaration.
pub fn field_offset(core: &Core, of: TypeId, number: u32) -> u32
    ensures { result ≡ field_offset core.now of number }
{
    let mut end = 0;
    let mut before = number;
    for field in fields_in(core, of) {
        let extent = extent_of(core, field.of);
        if before == 0 {
            return begin_behind(end, extent);
        }
        before -= 1;
        end = end_behind(end, extent);
    }
    end
}

/// The fields of a record type; what is no record has none.
pub(crate) fn fields_in(core: &Core, of: TypeId) -> &[Field]
    ensures { result.now ≡ fields_in core.now (type_at core.now of) }
{
    match type_at(core, of) {
        Some(CoreType::Record { fields }) => core.fields.rows(fields),
        _ => &[],
    }
}

/// Where a part begins that stands behind so many bytes.
pub(crate) fn begin_behind(end: u32, part: Extent) -> u32
    ensures { result ≡ begin_behind end part }
{
    let unit = part.alignment.max(1);
    end.div_ceil(unit).saturating_mul(unit)
}

pub(crate) fn end_behind(end: u32, part: Extent) -> u32
    ensures { result ≡ end_behind end part }
{
    begin_behind(end, part).saturating_add(part.size)
}

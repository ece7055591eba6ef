//! First values as bytes of memory (Free Pascal Reference Guide, "Initialized variables" and "Typed constants").
ghost use Rattle.std.specs.Prelude.{◌≡◌, ◌++◌, ◌+◌, ◌≤◌, IfOk, OnOk, drop, length, nat_eq, replicate, take};
ghost use Rattle.std.specs.List.{list_any};
ghost use Rattle.op_core.specs.Initial.{first_value_of, no_values, parts};
ghost use Rattle.op_core.specs.Nodes.{first_values_of};
ghost use Rattle.op_core.specs.Sizes.{type_at};
ghost use Rattle.op_meaning.specs.Sets.{bits_below, set_of_elements};
ghost use Rattle.op_meaning.specs.Shapes.{shape_of};
ghost use Rattle.op_constants.specs.FirstBytes.{are_zeros, content, elements_bytes, fields_bytes, first_bytes, first_number, fitted, number_by, number_bytes, number_of_constant, parts_bytes};

use crate::size::{begin_behind, end_behind, size_of};
use op_base::NoMemory;
use op_core::{Const, Core, CoreType, Field, Initial, IntegerKind, TypeId, extent_of, type_at};
use op_mir::single_kind;
use std::alloc::Global;

/// The bytes of a first value of the type in memory, as many as a value of the type takes.
pub fn first_bytes(
    alloc: Global,
    core: &Core,
    of: TypeId,
    initial: &Initial,
) -> Result<Vec<u8>, NoMemory>
    ensures { IfOk result (λ bytes. bytes.items ≡ first_bytes core.now of (first_value_of initial.now)) }
{
    let mut bytes = Vec::new(alloc);
    push_first(core, of, initial, &mut bytes)?;
    Ok(bytes)
}

/// Whether a variable that begins with these bytes begins as zero.
pub fn are_zeros(bytes: &[u8]) -> bool
    ensures { result ≡ are_zeros bytes.now }
{
    bytes.iter().all(|byte| *byte == 0)
}

/// A first value as one number; 0 where it is none.
pub fn first_number(initial: &Initial) -> i32
    ensures { result ≡ first_number (first_value_of initial.now) }
{
    match initial {
        Initial::Value(value) => number_of_constant(value),
        Initial::Parts(_) => 0,
    }
}

/// A value of the type that has only zeros.
pub fn zeros(alloc: Global, core: &Core, of: TypeId) -> Result<Vec<u8>, NoMemory>
    ensures { IfOk result (λ bytes. bytes.items ≡ first_bytes core.now of (parts no_values)) }
{
    let mut bytes = Vec::new(alloc);
    push_zeros(&mut bytes, size_of(core, of) as usize)?;
    Ok(bytes)
}

#[cycle(first)]
fn push_first(
    core: &Core,
    of: TypeId,
    initial: &Initial,
    bytes: &mut Vec<u8>,
) -> Result<(), NoMemory>
    ensures { OnOk result (bytes.new.items ≡ bytes.old.items ++ first_bytes core.now of (first_value_of initial.now)) }
{
    let begin = bytes.len();
    push_content(core, of, initial, bytes)?;
    fit(bytes, begin, size_of(core, of) as usize)?;
    Ok(())
}

/// What a value of the type has, before it is cut or zeros come behind it.
#[cycle(first)]
fn push_content(
    core: &Core,
    of: TypeId,
    initial: &Initial,
    bytes: &mut Vec<u8>,
) -> Result<(), NoMemory>
    ensures { OnOk result (bytes.new.items ≡ bytes.old.items ++ content core.now of (first_value_of initial.now)) }
{
    match initial {
        Initial::Value(value) => push_number(core, of, number_of_constant(value), bytes),
        Initial::Parts(parts) => push_parts(core, of, parts, bytes),
    }
}

#[cycle(first)]
fn push_parts(
    core: &Core,
    of: TypeId,
    parts: &[Initial],
    bytes: &mut Vec<u8>,
) -> Result<(), NoMemory>
    ensures { OnOk result (bytes.new.items ≡ bytes.old.items ++ parts_bytes core.now (type_at core.now of) (first_values_of parts.now)) }
{
    match type_at(core, of) {
        Some(CoreType::Record { fields }) => {
            push_fields(core, core.fields.rows(fields), parts, bytes)
        }
        Some(CoreType::Array { element, .. }) => push_elements(core, element, parts, bytes),
        _ => Ok(()),
    }
}

#[cycle(first)]
fn push_fields(
    core: &Core,
    fields: &[Field],
    parts: &[Initial],
    bytes: &mut Vec<u8>,
) -> Result<(), NoMemory>
    ensures { OnOk result (bytes.new.items ≡ bytes.old.items ++ fields_bytes core.now 0 fields.now (first_values_of parts.now)) }
{
    let mut end = 0;
    let mut rest = fields;
    for part in parts {
        let Some((field, others)) = rest.split_first() else {
            return Ok(());
        };
        let extent = extent_of(core, field.of);
        let begin = begin_behind(end, extent);
        push_zeros(bytes, begin.saturating_sub(end) as usize)?;
        push_first(core, field.of, part, bytes)?;
        end = end_behind(end, extent);
        rest = others;
    }
    Ok(())
}

#[cycle(first)]
fn push_elements(
    core: &Core,
    element: TypeId,
    parts: &[Initial],
    bytes: &mut Vec<u8>,
) -> Result<(), NoMemory>
    ensures { OnOk result (bytes.new.items ≡ bytes.old.items ++ elements_bytes core.now element (first_values_of parts.now)) }
{
    for part in parts {
        push_first(core, element, part, bytes)?;
    }
    Ok(())
}

/// A number of the type; nothing where its values are none.
fn push_number(core: &Core, of: TypeId, number: i32, bytes: &mut Vec<u8>) -> Result<(), NoMemory>
    ensures { OnOk result (bytes.new.items ≡ bytes.old.items ++ number_by (shape_of core.now of) number) }
{
    match single_kind(core, of) {
        None => Ok(()),
        Some(kind) => push_low_bytes(kind, number, bytes),
    }
}

fn push_low_bytes(kind: IntegerKind, number: i32, bytes: &mut Vec<u8>) -> Result<(), NoMemory>
    ensures { OnOk result (bytes.new.items ≡ bytes.old.items ++ number_bytes kind number) }
{
    let all = number.to_le_bytes();
    match kind {
        IntegerKind::Signed8 | IntegerKind::Unsigned8 => bytes.extend_from_slice(&all[..1])?,
        IntegerKind::Signed16 | IntegerKind::Unsigned16 => bytes.extend_from_slice(&all[..2])?,
        IntegerKind::Signed32 => bytes.extend_from_slice(&all)?,
    }
    Ok(())
}

/// What stands behind so many bytes becomes `size` bytes.
#[tactic(auto, using(crate::proofs::Fitting::longer, crate::proofs::Fitting::shorter))]
fn fit(bytes: &mut Vec<u8>, begin: usize, size: usize) -> Result<(), NoMemory>
    requires { begin ≤ length bytes.old.items }
    ensures { OnOk result (bytes.new.items ≡ take begin bytes.old.items ++ fitted size (drop begin bytes.old.items)) }
{
    let length = bytes.len() - begin;
    if length < size {
        push_zeros(bytes, size - length)
    } else {
        bytes.truncate(begin + size);
        Ok(())
    }
}

fn push_zeros(bytes: &mut Vec<u8>, count: usize) -> Result<(), NoMemory>
    ensures { OnOk result (bytes.new.items ≡ bytes.old.items ++ replicate count 0) }
{
    for _zero in 0..count {
        bytes.push(0)?;
    }
    Ok(())
}

/// A constant as a number; 0 where it is none.
fn number_of_constant(value: &Const) -> i32
    ensures { result ≡ number_of_constant value.now }
{
    match value {
        Const::Ordinal(number) => *number,
        Const::Text(_) => 0,
        Const::Set(elements) => set_of_elements(elements.as_slice()),
        Const::Nil => 0,
    }
}

fn set_of_elements(elements: &[u8]) -> i32
    ensures { result ≡ set_of_elements elements.now }
{
    bits_of_elements(elements).cast_signed()
}

/// The bit k for each element k.
#[tactic(auto, using(crate::proofs::Sets::room, crate::proofs::Sets::all_bits), unfolding(op_meaning::specs::Sets::bits_below))]
fn bits_of_elements(elements: &[u8]) -> u32
    ensures { result ≡ bits_below 32 (λ n. list_any (λ e. nat_eq e n) elements.now) }
{
    let mut bits = 0u32;
    for element in 0..32u8 {
        if elements.contains(&element) {
            bits += 1 << element;
        }
    }
    bits
}

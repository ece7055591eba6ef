//! What is asked of types, constants and functions.
ghost use Rattle.std.specs.Prelude.{◌≡◌};
ghost use Rattle.op_image.specs.Means.{AreBytes};
ghost use Rattle.op_plain.specs.Plain.{is_plain_constant, is_plain_result, is_plain_type, is_short};
ghost use Rattle.op_typing.specs.Simple.{asks_text};
ghost use Rattle.op_typing.specs.SimpleTests.{is_counted, is_short_text, is_solid_type};

use op_core::{Const, Core, CoreType, Function, TypeId, is_managed, type_at, values_of};

/// A text has less bytes, and an array less elements.
const MOST: u64 = 1 << 31;

/// Whether it is a type of numbers, sets, records or arrays with bounds.
pub fn is_solid_type(core: &Core, of: TypeId) -> bool
    ensures { result ≡ is_solid_type core.now of }
{
    match type_at(core, of) {
        None => false,
        Some(CoreType::String) => false,
        Some(CoreType::DynamicArray { .. }) => false,
        Some(CoreType::OpenArray { .. }) => false,
        Some(CoreType::Class(_)) => false,
        Some(CoreType::Interface(_)) => false,
        Some(CoreType::Nil) => false,
        Some(CoreType::Broken) => false,
        _ => true,
    }
}

/// Whether it is such a type, and nothing in its values is managed.
pub fn is_plain_type(core: &Core, of: TypeId) -> bool
    ensures { result ≡ is_plain_type core.now of }
{
    is_solid_type(core, of) && !is_managed(core, of)
}

/// Whether what a routine gives, if it gives something, is of such a type.
pub fn is_plain_result(core: &Core, given: Option<TypeId>) -> bool
    ensures { result ≡ is_plain_result core.now given }
{
    match given {
        None => true,
        Some(of) => is_plain_type(core, of),
    }
}

/// Whether the elements of an array are counted by 31 bits.
pub fn is_counted(core: &Core, of: CoreType) -> bool
    ensures { result ≡ is_counted core.now of }
{
    match of {
        CoreType::Array { index, .. } => values_of(core, index) < MOST,
        _ => true,
    }
}

/// Whether it is a text whose length has 31 bits, or of a solid type.
pub fn is_plain_constant(core: &Core, value: &Const, of: TypeId) -> bool
    ensures texts { result ≡ is_plain_constant is_short_text core.now value.now of }
    ensures lengths { result ≡ is_plain_constant is_short core.now value.now of }
{
    match value {
        Const::Text(text) => is_short_text(text.as_slice()),
        _ => is_solid_type(core, of),
    }
}

fn is_short_text(text: &[u8]) -> bool
    ensures texts { result ≡ is_short_text text.now }
    ensures lengths { result ≡ is_short text.now }
{
    are_bytes(text);
    (text.len() as u64) < MOST
}

/// Bytes are below 256. It does nothing, and tells the proofs what the type says.
fn are_bytes(text: &[u8])
    ensures { AreBytes text.now }
{}

/// Whether the function may be asked of a text that is written in the program.
pub fn asks_text(function: Function) -> bool
    ensures { result ≡ asks_text function }
{
    match function {
        Function::Length => true,
        Function::Low => true,
        Function::High => true,
        _ => false,
    }
}

//! How values of a type are kept, and what the tables say of types.
ghost use Rattle.std.specs.Prelude.{◌≡◌, IfOk};
ghost use Rattle.op_core.specs.Expression.{expr_of};
ghost use Rattle.op_core.specs.Sizes.{type_at};
ghost use Rattle.op_core.specs.StatementTyping.{host};
ghost use Rattle.op_core.specs.Typing as typing;
ghost use Rattle.op_values.specs.Shape.{shape_view};
ghost use Rattle.op_semantics.specs.Expressions.{counted_of, element_of, high_in, low_in};
ghost use Rattle.op_semantics.specs.Shapes.{field_number, is_managed, shape_of, type_of_variable};
ghost use Rattle.op_meaning.specs.Charge.{is_open};
ghost use Rattle.op_semantics.specs.Statements.{kind_of};

use op_base::NoMemory;
use op_core::{
    Core, CoreExpr, CoreType, FieldId, IntegerKind, InterfaceKind, TypeId, VariableId, range_of,
    type_at,
};

/// How a value of a type is kept: as one number, of which a store keeps the low bits of an integer type; as parts; as a string; as the
/// name of an array; or as the name of an instance, which an interface holds.
#[derive(Clone, Copy)]
pub enum Shape {
    Single(IntegerKind),
    Composite,
    Chars,
    Elements,
    Instance { holds: bool },
}

pub fn shape_of(core: &Core, of: TypeId) -> Shape
    ensures { shape_view result ≡ shape_of core.now of }
{
    match type_at(core, of) {
        Some(CoreType::Integer(kind)) => Shape::Single(kind),
        Some(CoreType::Boolean) => Shape::Single(IntegerKind::Unsigned8),
        Some(CoreType::Char) => Shape::Single(IntegerKind::Unsigned8),
        Some(CoreType::Record { .. }) => Shape::Composite,
        Some(CoreType::Array { .. }) => Shape::Composite,
        Some(CoreType::String) => Shape::Chars,
        Some(CoreType::DynamicArray { .. }) => Shape::Elements,
        Some(CoreType::OpenArray { .. }) => Shape::Elements,
        Some(CoreType::Class(_)) => Shape::Instance { holds: false },
        Some(CoreType::Interface(id)) => {
            let holds = match core.interfaces.as_slice().get(id.0 as usize) {
                None => false,
                Some(face) => matches!(face.kind, InterfaceKind::Com),
            };
            Shape::Instance { holds }
        }
        _ => Shape::Single(IntegerKind::Signed32),
    }
}

pub fn is_open(core: &Core, of: TypeId) -> bool
    ensures { result ≡ is_open (type_at core.now of) }
{
    matches!(type_at(core, of), Some(CoreType::OpenArray { .. }))
}

/// Whether its values have to be ended; of an open array that is given by value it is the array of its elements.
pub fn is_managed(core: &Core, of: TypeId) -> bool
    ensures { result ≡ is_managed core.now of }
{
    op_core::is_managed(core, of) || is_open(core, of)
}

/// The type of the elements of a dynamic or an open array; else the first type.
pub fn element_of(core: &Core, of: TypeId) -> TypeId
    ensures { result ≡ element_of (type_at core.now of) }
{
    match type_at(core, of) {
        Some(CoreType::OpenArray { element }) => element,
        Some(CoreType::DynamicArray { element }) => element,
        _ => TypeId::SHORT_INT,
    }
}

/// The integer type whose low bits a store into a place of the type keeps.
pub fn kind_of(core: &Core, of: TypeId) -> IntegerKind
    ensures { result ≡ kind_of core.now of }
{
    match shape_of(core, of) {
        Shape::Single(kind) => kind,
        _ => IntegerKind::Signed32,
    }
}

/// The least number of a type's values. No sound program has one that is no Integer.
pub fn low_in(core: &Core, of: TypeId) -> Result<i32, NoMemory>
    ensures { IfOk result (λ low. low ≡ low_in core.now of) }
{
    match range_of(core, of) {
        None => Ok(0),
        Some((low, _)) => number(low),
    }
}

/// The greatest number of a type's values. No sound program has one that is no Integer.
pub fn high_in(core: &Core, of: TypeId) -> Result<i32, NoMemory>
    ensures { IfOk result (λ high. high ≡ high_in core.now of) }
{
    match range_of(core, of) {
        None => Ok(0),
        Some((_, high)) => number(high),
    }
}

/// An Integer.
pub fn number(n: i64) -> Result<i32, NoMemory>
    ensures { IfOk result (λ m. m ≡ n) }
{
    i32::try_from(n).map_err(|_| NoMemory)
}

/// What the values of a type are counted by: an array by its index type, an ordinal type by itself.
pub fn counted_of(core: &Core, of: TypeId) -> TypeId
    ensures { result ≡ counted_of core.now of }
{
    match type_at(core, of) {
        Some(CoreType::Array { index, .. }) => index,
        _ => of,
    }
}

/// The type that a subrange is of, or the type itself.
pub fn host(core: &Core, of: TypeId) -> Option<CoreType>
    ensures { result ≡ host core.now (type_at core.now of) }
{
    match type_at(core, of) {
        Some(CoreType::Subrange { base, .. }) => type_at(core, base),
        other => other,
    }
}

/// The number of a field in its record.
pub fn field_number(core: &Core, of: TypeId, field: FieldId) -> u32
    ensures { result ≡ field_number core.now of field }
{
    match type_at(core, of) {
        Some(CoreType::Record { fields }) => field.0.saturating_sub(fields.first),
        _ => field.0,
    }
}

/// The type of a variable; where there is none, the first type.
pub fn type_of_variable(core: &Core, variable: VariableId) -> TypeId
    ensures { result ≡ type_of_variable core.now variable.0 }
{
    match core.variables.as_slice().get(variable.0 as usize) {
        None => TypeId::SHORT_INT,
        Some(row) => row.of,
    }
}

/// The type of what a typed expression gives.
pub fn type_of(e: &CoreExpr) -> TypeId
    ensures { result ≡ typing.type_of (expr_of e.now) }
{
    match e.steps.split_last() {
        Some((step, _)) => step.of,
        None => e.of,
    }
}

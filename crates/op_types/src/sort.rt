//! The sorts of types: what the rules of operators and assignments ask of a type.
ghost use Rattle.std.specs.Prelude.{◌≡◌};
ghost use Rattle.op_types.specs.Sorts.{are_sets, is_reference, is_text, kind_of, root_of, same_kind, sort_of};

use op_core::{ClassId, Core, CoreType, InterfaceId, TypeId, type_at};

/// What ordinal types with values in common have in common: the type of which they are subranges, and all integers.
#[derive(Clone, Copy)]
pub enum OrdinalKind {
    Integer,
    Boolean,
    Char,
    Enumeration(TypeId),
}

/// What the rules ask of a type.
#[derive(Clone, Copy)]
pub enum Sort {
    Ordinal(OrdinalKind),
    String,
    /// A set, by its elements.
    Set(OrdinalKind),
    /// A set without elements, of whatever type its use needs.
    EmptySet,
    DynamicArray,
    Class(ClassId),
    Interface(InterfaceId),
    Nil,
    /// A record, another array, or no type of values.
    Other,
}

/// The type of which this one is a subrange, or the type itself.
fn root_of(core: &Core, of: TypeId) -> TypeId
    ensures { result ≡ root_of core.now of }
{
    match type_at(core, of) {
        Some(CoreType::Subrange { base, .. }) => base,
        _ => of,
    }
}

/// The kind of an ordinal type.
pub fn kind_of(core: &Core, of: TypeId) -> Option<OrdinalKind>
    ensures { result ≡ kind_of core.now of }
{
    let root = root_of(core, of);
    match type_at(core, root) {
        Some(CoreType::Integer(_)) => Some(OrdinalKind::Integer),
        Some(CoreType::Boolean) => Some(OrdinalKind::Boolean),
        Some(CoreType::Char) => Some(OrdinalKind::Char),
        Some(CoreType::Enumeration { .. }) => Some(OrdinalKind::Enumeration(root)),
        _ => None,
    }
}

pub fn sort_of(core: &Core, of: TypeId) -> Sort
    ensures { result ≡ sort_of core.now of }
{
    match type_at(core, of) {
        Some(CoreType::String) => Sort::String,
        Some(CoreType::Set { base }) => match kind_of(core, base) {
            Some(kind) => Sort::Set(kind),
            None => Sort::Other,
        },
        Some(CoreType::DynamicArray { .. }) => Sort::DynamicArray,
        Some(CoreType::Class(id)) => Sort::Class(id),
        Some(CoreType::Interface(id)) => Sort::Interface(id),
        Some(CoreType::Nil) => Sort::Nil,
        Some(CoreType::EmptySet) => Sort::EmptySet,
        _ => match kind_of(core, of) {
            Some(kind) => Sort::Ordinal(kind),
            None => Sort::Other,
        },
    }
}

impl OrdinalKind {
    pub fn is_same(self, other: OrdinalKind) -> bool
        ensures { result ≡ same_kind self other }
    {
        match (self, other) {
            (OrdinalKind::Integer, OrdinalKind::Integer) => true,
            (OrdinalKind::Boolean, OrdinalKind::Boolean) => true,
            (OrdinalKind::Char, OrdinalKind::Char) => true,
            (OrdinalKind::Enumeration(a), OrdinalKind::Enumeration(b)) => a.0 == b.0,
            _ => false,
        }
    }
}

impl Sort {
    /// Whether its values are strings or become strings where one is needed.
    pub fn is_text(self) -> bool
        ensures { result ≡ is_text self }
    {
        matches!(self, Sort::String | Sort::Ordinal(OrdinalKind::Char))
    }

    /// Whether both are sets, of elements of one kind.
    pub fn is_set_as(self, other: Sort) -> bool
        ensures { result ≡ are_sets self other }
    {
        match (self, other) {
            (Sort::Set(a), Sort::Set(b)) => a.is_same(b),
            (Sort::Set(_), Sort::EmptySet) => true,
            (Sort::EmptySet, Sort::Set(_)) => true,
            (Sort::EmptySet, Sort::EmptySet) => true,
            _ => false,
        }
    }

    /// Whether nil is one of its values.
    pub fn is_reference(self) -> bool
        ensures { result ≡ is_reference self }
    {
        matches!(
            self,
            Sort::DynamicArray | Sort::Class(_) | Sort::Interface(_) | Sort::Nil
        )
    }
}

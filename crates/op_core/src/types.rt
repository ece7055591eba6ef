//! Types, and the fields of records and classes.
use crate::{ClassId, InterfaceId, Run, TypeId};
use op_tree::{Name, Visibility};

/// The predefined integer types: ShortInt, Byte, SmallInt, Word, and LongInt, which is Integer.
#[derive(Clone, Copy)]
pub enum IntegerKind {
    Signed8,
    Unsigned8,
    Signed16,
    Unsigned16,
    Signed32,
}

/// A type. Two types are one where their numbers are equal; dynamic arrays are also one where their element types are.
///
/// Records, static arrays, sets and subranges are entered behind the types that they are made of. So only a dynamic array
/// could reach itself; where one does through records and arrays alone, it is entered as `Broken`.
///
/// Right behind an enumeration or a subrange of which there are sets stands its set type. Behind a larger enumeration stand the
/// subrange of its first 32 values and the set type of that.
#[derive(Clone, Copy)]
pub enum CoreType {
    Integer(IntegerKind),
    Boolean,
    Char,
    /// AnsiString.
    String,
    /// Of so many values, the first of which is 0.
    Enumeration { values: u32 },
    /// Values of `base`, which is ordinal and no subrange: those from `low` to `high`, which is not below it.
    Subrange { base: TypeId, low: i32, high: i32 },
    Set { base: TypeId },
    /// `fields` are rows of the table of fields, in order of declaration.
    Record { fields: Run },
    /// An array with an element for each value of an ordinal type.
    Array { index: TypeId, element: TypeId },
    DynamicArray { element: TypeId },
    /// What an open array parameter is.
    OpenArray { element: TypeId },
    Class(ClassId),
    Interface(InterfaceId),
    /// What `nil` is before its use tells.
    Nil,
    /// What `[]` is before its use tells.
    EmptySet,
    /// What a call of a procedure gives.
    Nothing,
    /// A type whose declaration breaks a rule. It is one type with itself alone.
    Broken,
}

/// A field, with its visibility in a class. The fields of records are public.
#[derive(Drop)]
pub struct Field {
    pub name: Name,
    pub of: TypeId,
    pub visibility: Visibility,
}

/// How many bytes a value of a type has, what its address is a multiple of, and whether it is managed: whether it is or holds a
/// string, a dynamic array or what holds an instance.
#[derive(Clone, Copy)]
pub struct Extent {
    pub size: u32,
    pub alignment: u32,
    pub managed: bool,
}

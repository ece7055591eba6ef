//! The numbers by which the parts of a program name each other. Each counts in a table of `Core`, from 0.

/// A type. The built-in ones have the numbers of `TypeId`'s constants.
#[derive(Clone, Copy)]
pub struct TypeId(pub u32);

impl TypeId {
    pub const SHORT_INT: TypeId = TypeId(0);

    pub const BYTE: TypeId = TypeId(1);

    pub const SMALL_INT: TypeId = TypeId(2);

    pub const WORD: TypeId = TypeId(3);

    pub const INTEGER: TypeId = TypeId(4);

    pub const BOOLEAN: TypeId = TypeId(5);

    pub const CHAR: TypeId = TypeId(6);

    pub const STRING: TypeId = TypeId(7);

    pub const NIL: TypeId = TypeId(8);

    pub const NOTHING: TypeId = TypeId(9);

    /// What `[]` is before its use tells.
    pub const EMPTY_SET: TypeId = TypeId(10);

    /// The Integers from 0 to 31, and the Chars of these numbers. Their set types are the next ones, as with every base.
    pub const SMALL_INTEGERS: TypeId = TypeId(11);

    pub const SMALL_CHARS: TypeId = TypeId(13);

    pub const SET_OF_BOOLEANS: TypeId = TypeId(15);
}

/// A field of a record or a class.
#[derive(Clone, Copy)]
pub struct FieldId(pub u32);

/// A class. `TObject` and `TInterfacedObject` have the numbers of `ClassId`'s constants.
#[derive(Clone, Copy)]
pub struct ClassId(pub u32);

impl ClassId {
    pub const OBJECT: ClassId = ClassId(0);

    pub const INTERFACED_OBJECT: ClassId = ClassId(1);
}

/// An interface. `IUnknown` has the number of the constant.
#[derive(Clone, Copy)]
pub struct InterfaceId(pub u32);

impl InterfaceId {
    pub const UNKNOWN: InterfaceId = InterfaceId(0);
}

/// A routine, a method, or the part of a unit that initializes or finalizes it.
#[derive(Clone, Copy)]
pub struct RoutineId(pub u32);

/// A variable: a global one, or one of an activation.
#[derive(Clone, Copy)]
pub struct VariableId(pub u32);

/// A unit, or the program itself, in their order.
#[derive(Clone, Copy)]
pub struct UnitId(pub u32);

/// Rows of a table that lie together: `count` of them from row `first` on.
#[derive(Clone, Copy)]
pub struct Run {
    pub first: u32,
    pub count: u32,
}

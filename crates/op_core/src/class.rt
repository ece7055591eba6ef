//! Classes and interfaces.
use crate::{ClassId, FieldId, InterfaceId, RoutineId, Run, TypeId, UnitId};
use op_base::Text;
use op_tree::{Name, Visibility};

/// A class. Its members are those that it declares itself.
#[derive(Drop)]
pub struct Class {
    /// As it is declared: what ClassName gives.
    pub name: Text,
    pub of: TypeId,
    pub unit: UnitId,
    /// None for TObject alone.
    pub ancestor: Option<ClassId>,
    /// Rows of the table of listed interfaces.
    pub interfaces: Run,
    pub fields: Run,
    pub methods: Run,
    pub properties: Run,
    /// False after a forward declaration, until the class is declared.
    pub complete: bool,
}

/// Whether the places of an interface type hold their instance.
#[derive(Clone, Copy)]
pub enum InterfaceKind {
    Com,
    Corba,
}

/// An interface. Its methods are those that it declares itself.
#[derive(Drop)]
pub struct Interface {
    pub name: Text,
    pub of: TypeId,
    pub unit: UnitId,
    pub kind: InterfaceKind,
    pub ancestor: Option<InterfaceId>,
    pub methods: Run,
    /// False after a forward declaration, until the interface is declared.
    pub complete: bool,
}

/// How the routine of a call is found from an instance's class.
#[derive(Clone, Copy)]
pub enum Binding {
    Static,
    /// It begins a place in the table of virtual methods; `reintroduce` is no binding of its own.
    Virtual,
    /// It takes the place of an ancestor's virtual method.
    Override,
}

/// A method of a class or an interface.
#[derive(Clone, Copy)]
pub struct Method {
    pub routine: RoutineId,
    pub visibility: Visibility,
    pub binding: Binding,
    pub is_abstract: bool,
}

/// What a property is read from or written to.
#[derive(Clone, Copy)]
pub enum Accessor {
    Field(FieldId),
    Method(RoutineId),
}

/// A property. An accessor that is not declared is None.
#[derive(Drop)]
pub struct Property {
    pub name: Name,
    pub of: TypeId,
    pub visibility: Visibility,
    pub read: Option<Accessor>,
    pub write: Option<Accessor>,
}

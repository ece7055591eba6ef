//! Headings of routines and methods.
use crate::{Directives, Name, Names, Parameters, Position, QualifiedName, TypeDenoter};

#[derive(Clone, Copy, PartialEq, Eq)]
pub enum RoutineKind {
    Procedure,
    Function,
    Constructor,
    Destructor,
}

/// A word behind a heading.
#[derive(Clone, Copy)]
pub enum Directive {
    Virtual_,
    Override_,
    Abstract_,
    Reintroduce,
    Overload,
    Cdecl,
    Stdcall,
    Register,
}

#[derive(Clone, Copy, PartialEq, Eq)]
pub enum ParameterMode {
    Value,
    Var,
    Const_,
    Out,
}

/// The type of a parameter, or of an open array's elements.
#[derive(Drop)]
pub enum ParameterType {
    Named(QualifiedName),
    String { position: Position },
}

/// Parameters of one mode and type.
#[derive(Drop)]
pub struct Parameter {
    pub mode: ParameterMode,
    pub names: Names,
    pub open_array: bool,
    pub of: ParameterType,
}

/// What a routine is called and takes. `class` is written before a method's name at its body.
#[derive(Drop)]
pub struct Heading {
    pub kind: RoutineKind,
    pub class: Option<Name>,
    pub name: Name,
    pub parameters: Parameters,
    pub result: Option<TypeDenoter>,
}

/// A heading without a body.
#[derive(Drop)]
pub struct Method {
    pub heading: Heading,
    pub directives: Directives,
}

//! Declarations.
use crate::{
    Class, Directives, Heading, Initializer, Interface, Method, Name, Names, Stmt, TypeDenoter,
};
use op_scan::CompactText;

#[derive(Drop)]
pub struct Constant {
    pub name: Name,
    pub denoter: Option<TypeDenoter>,
    pub value: Initializer,
}

#[derive(Drop)]
pub struct Variables {
    pub names: Names,
    pub denoter: TypeDenoter,
    pub value: Option<Box<Initializer>>,
}

#[derive(Drop)]
pub struct TypeDeclaration {
    pub name: Name,
    pub definition: TypeDefinition,
}

#[derive(Drop)]
pub enum TypeDefinition {
    Denoter(TypeDenoter),
    ForwardClass,
    Class(Class),
    ForwardInterface { identifier: Option<CompactText> },
    Interface(Interface),
}

/// A declaration. A list of constants, types or variables has at least one.
#[cycle(declaration)]
#[derive(Drop)]
pub enum Declaration {
    Constants(Vec<Constant>),
    Types(Vec<TypeDeclaration>),
    Variables(Vec<Variables>),
    /// In the interface part of a unit, where routines have no body.
    Heading(Method),
    /// Everywhere else.
    Routine(Routine),
}

#[cycle(declaration)]
#[derive(Drop)]
pub struct Routine {
    pub heading: Heading,
    pub directives: Directives,
    pub body: Body,
}

#[cycle(declaration)]
#[derive(Drop)]
pub enum Body {
    /// It follows later.
    Forward,
    Block {
        declarations: Vec<Declaration>,
        statements: Vec<Stmt>,
    },
}

//! Types, as they are written.
use crate::{Expr, Names, Position, QualifiedName};

/// What denotes a type, but for classes and interfaces. Each position is that of the first token.
#[cycle(denoter)]
#[derive(Drop)]
pub enum TypeDenoter {
    Named(QualifiedName),
    String {
        position: Position,
    },
    /// `first .. last`
    Subrange {
        first: Box<Expr>,
        last: Box<Expr>,
    },
    Enumeration {
        position: Position,
        values: Names,
    },
    Set {
        position: Position,
        base: Box<TypeDenoter>,
    },
    /// Without indices it is a dynamic array.
    Array {
        position: Position,
        packed: bool,
        indices: Vec<TypeDenoter>,
        element: Box<TypeDenoter>,
    },
    Record {
        position: Position,
        packed: bool,
        fields: Vec<Fields>,
    },
}

/// Fields of one type.
#[cycle(denoter)]
#[derive(Drop)]
pub struct Fields {
    pub names: Names,
    pub denoter: TypeDenoter,
}

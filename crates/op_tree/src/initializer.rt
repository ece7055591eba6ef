//! First values of constants and variables.
use crate::{Expr, Name, Position};

/// What a constant is, or what a variable begins with. A position is that of the opening bracket.
#[cycle(initializer)]
#[derive(Drop)]
pub enum Initializer {
    Value(Expr),
    /// At least one; one alone is itself a list or a record.
    List {
        position: Position,
        items: Vec<Initializer>,
    },
    /// At least one.
    Record {
        position: Position,
        fields: Vec<FieldInitializer>,
    },
}

#[cycle(initializer)]
#[derive(Drop)]
pub struct FieldInitializer {
    pub name: Name,
    pub value: Initializer,
}

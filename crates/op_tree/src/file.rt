//! Whole files.
use crate::{Declaration, Name, Names, Position, Stmt};

/// What a file is.
#[derive(Drop)]
pub enum Tree {
    Program(Program),
    Unit(Unit),
}

/// A program, with the position of its first token.
#[derive(Drop)]
pub struct Program {
    pub position: Position,
    pub heading: Option<ProgramHeading>,
    pub uses: Names,
    pub declarations: Vec<Declaration>,
    pub statements: Vec<Stmt>,
}

#[derive(Drop)]
pub struct ProgramHeading {
    pub name: Name,
    pub parameters: Names,
}

/// A unit, with the position of its first token.
#[derive(Drop)]
pub struct Unit {
    pub position: Position,
    pub name: Name,
    pub interface_uses: Names,
    pub interface_declarations: Vec<Declaration>,
    pub uses: Names,
    pub declarations: Vec<Declaration>,
    pub initialization: Option<Vec<Stmt>>,
    pub finalization: Option<Vec<Stmt>>,
}

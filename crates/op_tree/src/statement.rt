//! Statements.
use crate::{Designator, Element, Expr, Name, Position, QualifiedName};

/// Which way the variable of a `for` goes.
#[derive(Clone, Copy)]
pub enum Direction {
    To,
    Downto,
}

/// A statement. A list of statements has at least one; an empty one stands where nothing does.
#[cycle(statement)]
#[derive(Drop)]
pub enum Stmt {
    Empty,
    Block(Vec<Stmt>),
    If {
        condition: Expr,
        then: Box<Stmt>,
    },
    IfElse {
        condition: Expr,
        then: Box<Stmt>,
        otherwise: Box<Stmt>,
    },
    Case {
        selector: Box<Expr>,
        branches: Vec<Branch>,
    },
    CaseElse {
        selector: Box<Expr>,
        branches: Vec<Branch>,
        otherwise: Vec<Stmt>,
    },
    While {
        condition: Expr,
        body: Box<Stmt>,
    },
    Repeat {
        body: Vec<Stmt>,
        condition: Box<Expr>,
    },
    For {
        variable: Name,
        first: Box<Expr>,
        direction: Direction,
        last: Box<Expr>,
        body: Box<Stmt>,
    },
    ForIn {
        variable: Name,
        collection: Box<Expr>,
        body: Box<Stmt>,
    },
    TryFinally {
        body: Vec<Stmt>,
        finalization: Vec<Stmt>,
    },
    /// `except` with statements that take every exception.
    TryExcept {
        body: Vec<Stmt>,
        handler: Vec<Stmt>,
    },
    /// `except` with at least one `on`.
    TryOn {
        body: Vec<Stmt>,
        handlers: Vec<Handler>,
    },
    TryOnElse {
        body: Vec<Stmt>,
        handlers: Vec<Handler>,
        otherwise: Vec<Stmt>,
    },
    Raise {
        position: Position,
        exception: Expr,
    },
    /// `raise` alone.
    Reraise {
        position: Position,
    },
    /// `inherited` alone.
    Inherited {
        position: Position,
    },
    InheritedCall {
        position: Position,
        call: Designator,
    },
    Call(Designator),
    /// With the position of the `:=`.
    Assign {
        target: Designator,
        position: Position,
        value: Box<Expr>,
    },
}

/// A branch of a case, with at least one label.
#[cycle(statement)]
#[derive(Drop)]
pub struct Branch {
    pub labels: Vec<Element>,
    pub body: Stmt,
}

/// `on variable: class do body`
#[cycle(statement)]
#[derive(Drop)]
pub struct Handler {
    pub variable: Option<Name>,
    pub class: QualifiedName,
    pub body: Stmt,
}

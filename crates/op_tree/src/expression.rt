//! Expressions.
//!
//! Operands with operators of one level between them are one node, which is read from the left: `a - b + c` has the first
//! operand `a` and the operations `- b` and `+ c`. So a chain is as deep as its operands and not as it is long.
use crate::{Name, Operator, Position, PrefixOperator};
use op_scan::CompactText;

/// An expression. Brackets round a part are kept, as `Root::Bracketed`.
#[cycle(expression)]
#[derive(Drop)]
pub enum Expr {
    /// At least one operation; all are of one level, and the operands bind more tightly.
    Chain {
        first: Box<Expr>,
        rest: Vec<Operation>,
    },
    /// `not`, `+` or `-` before an operand.
    Prefix {
        operator: PrefixOperator,
        position: Position,
        operand: Box<Expr>,
    },
    Number {
        value: u32,
        position: Position,
    },
    Nil {
        position: Position,
    },
    /// `[ .. ]`, with the position of the bracket.
    Set {
        position: Position,
        elements: Vec<Element>,
    },
    /// A string, and what is selected of it.
    Literal {
        text: CompactText,
        position: Position,
        selectors: Vec<Selector>,
    },
    Designator(Designator),
    /// A designator behind `inherited`, with the position of that word.
    Inherited {
        position: Position,
        designator: Box<Designator>,
    },
}

/// An operator and its right operand.
#[cycle(expression)]
#[derive(Drop)]
pub struct Operation {
    pub operator: Operator,
    pub position: Position,
    pub operand: Expr,
}

/// A member of a set, or a label of a case.
#[cycle(expression)]
#[derive(Drop)]
pub enum Element {
    One(Expr),
    Range(Box<Expr>, Box<Expr>),
}

/// What can be called or assigned: a root and what is selected of it, from the left.
#[cycle(expression)]
#[derive(Drop)]
pub struct Designator {
    pub root: Root,
    pub selectors: Vec<Selector>,
}

#[cycle(expression)]
#[derive(Drop)]
pub enum Root {
    Named(Name),
    /// The word `string`, as in a cast.
    String {
        position: Position,
    },
    /// `( .. )`, with the position of the bracket.
    Bracketed {
        position: Position,
        inside: Box<Expr>,
    },
}

#[cycle(expression)]
#[derive(Drop)]
pub enum Selector {
    Member(Name),
    /// At least one index, with the position of the `[`.
    Index {
        position: Position,
        indices: Vec<Expr>,
    },
    Call {
        arguments: Vec<Argument>,
    },
}

#[cycle(expression)]
#[derive(Drop)]
pub enum Argument {
    Value(Expr),
    /// `value : width`
    Padded(Box<Expr>, Box<Expr>),
    /// `value : width : digits`
    Rounded(Box<Expr>, Box<Expr>, Box<Expr>),
}

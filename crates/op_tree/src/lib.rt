//! Trees: what the parser makes of the tokens of a file, and what their text is.
#![tactic(auto)]

mod class;
mod declaration;
mod denoter;
mod expression;
mod file;
mod heading;
mod initializer;
mod law;
mod lists;
mod operator;
mod position;
mod statement;

pub use class::{Class, Interface, Member, Property, Section, Visibility};
pub use declaration::{
    Body, Constant, Declaration, Routine, TypeDeclaration, TypeDefinition, Variables,
};
pub use denoter::{Fields, TypeDenoter};
pub use expression::{Argument, Designator, Element, Expr, Operation, Root, Selector};
pub use file::{Program, ProgramHeading, Tree, Unit};
pub use heading::{
    Directive, Heading, Method, Parameter, ParameterMode, ParameterType, RoutineKind,
};
pub use initializer::{FieldInitializer, Initializer};
pub use law::{at_most_one, list_nodes};
pub use lists::{Directives, Names, Parameters};
pub use operator::{Level, Operator, PrefixOperator, operator_of, prefix_operator_of};
pub use position::{Name, Position, QualifiedName};
pub use statement::{Branch, Direction, Handler, Stmt};

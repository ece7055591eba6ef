//! The typed program of the whole language: what the checker makes of a program that breaks no rule, and what later passes
//! begin with.
//!
//! `Core` has flat tables, whose rows name each other by number; expressions and statements are trees. `specs/Sound.antt`
//! says what every program keeps that the checker gives. Here too are the words in which the checking crates say that a
//! part has a type or breaks a rule, `specs/Faults.antt`, and `FirstRefusal`, which keeps the first rule that is broken.
#![tactic(auto)]

mod class;
mod constant;
mod error;
mod expression;
mod fields;
mod first_refusal;
mod heading;
mod ids;
mod law;
mod operation;
mod program;
mod routine;
mod size;
mod statement;
mod table;
mod types;

pub use class::{Accessor, Binding, Class, Interface, InterfaceKind, Method, Property};
pub use constant::{Const, Initial};
pub use error::CheckError;
pub use expression::{Action, CoreArgument, CoreElement, CoreExpr, Root, Step};
pub use fields::{Fields, lowered};
pub use first_refusal::{FirstRefusal, first_is_kept};
pub use heading::{one_type, same_heading};
pub use ids::{ClassId, FieldId, InterfaceId, RoutineId, Run, TypeId, UnitId, VariableId};
pub use law::list_nodes;
pub use operation::{Conversion, Dispatch, Function, Origin};
pub use program::{Core, ExceptionClasses, Unit};
pub use routine::{Body, Owner, Parameter, Role, Routine, Variable};
pub use size::{
    extent_by, extent_of, integer_range, is_managed, range_of, size_of, type_at, values_of,
};
pub use statement::{CoreAction, CoreBranch, CoreHandler, CoreItem, CoreStmt, CoreTarget, Label};
pub use table::Table;
pub use types::{CoreType, Extent, Field, IntegerKind};

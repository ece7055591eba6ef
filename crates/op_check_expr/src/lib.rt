//! The checker of expressions.
#![tactic(auto)]

mod apply;
mod call;
mod convert;
mod denoted;
mod designator;
mod meaning;
mod operate;
mod place;
mod scope;
mod set;
mod tree;
mod value;
mod walk;

pub use convert::{as_type, conversion, retyped, stored};
pub use denoted::{feature_of_type, variable_tree};
pub use designator::position_of;
pub use meaning::{Typed, expr};
pub use operate::{Done, put};
pub use place::{target_value, variable_value};
pub use scope::{Around, Checker, Scope};
pub use tree::type_of;
pub use value::Value;

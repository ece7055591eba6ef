//! Types, names and constants: what the rules of expressions stand on.
//!
//! A type has a size, is managed or not, and has a sort, which tells what operators are defined on it; a type is assignable to
//! another one or not. `Visible` is the list of visible names with what each stands for. `fold` evaluates constant
//! expressions: exactly their value, or the first rule that they break. The checker of expressions asks the same tables.
#![tactic(auto)]

mod assign;
mod constant;
mod enter;
mod evaluation;
mod names;
mod operator;
mod set;
mod setting;
mod sort;
mod stretch;
mod value;
mod visible;

pub use assign::assignable;
pub use constant::{Applied, Constant, Folded, Part, Use, Weight, fold};
pub use enter::{enter_type, predefined};
pub use evaluation::{
    in_brackets, is_folded, joined, made, no_members, nodes, number_behind, only_value, plus,
    start_of, start_of_element,
};
pub use names::SharedNames;
pub use operator::{application, operation, prefixed};
pub use set::{common_set, set_behind, set_over, widest_set};
pub use setting::Setting;
pub use sort::{OrdinalKind, Sort, kind_of, sort_of};
pub use value::{bytes_of, in_range, number_of};
pub use visible::{BuiltIn, Meaning, Visible};

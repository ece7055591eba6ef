//! What calls give to parameters, where their results go, and lists of values for open arrays.
//!
//! The items of what is given are appended already; what comes out says what a parameter is given, or where the result is. Each contract is the
//! definition of op_semantics that has the name of its function, and says which items a call appends behind those.
#![tactic(auto)]

mod call;
mod lists;
mod passing;
mod receiver;

pub use call::{called, constructed, invoked};
pub use lists::{element_given, list, part_given, part_path};
pub use passing::{Passed, array_passed, given, parameter_row, place_passed, value_passed};
pub use receiver::{Placed, place_for, result_of};

//! Operators, conversions, selections, functions of System and constants over values that were evaluated.
//!
//! Where a value is comes in with its items appended already; what is done with it is appended, and where the value is then goes out.
//! Each contract says that these are just the items of op_semantics.
#![tactic(auto)]

mod constants;
mod conversions;
mod fields;
mod functions;
mod input;
mod measures;
mod nil;
mod operators;
mod pieces;
mod selections;
mod sets;

pub use constants::constant;
pub use conversions::{check, convert, converted};
pub use fields::{field, field_of, field_step};
pub use functions::{applied, applied_to, apply};
pub use input::{at_input_end, at_line_end};
pub use measures::{long_by, measured};
pub use nil::{is_nil, is_nil_now};
pub use operators::{
    also, beside, goes_on_at, is_instance, on_references, on_texts, operand_here, prefix, prefixed,
    references, second_here, two,
};
pub use pieces::piece;
pub use selections::{element_step, index_step, indexed};
pub use sets::{set_of_elements, set_of_type};

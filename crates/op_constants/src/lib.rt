//! The constants of a program, and how its values lie in memory.
//!
//! `literals_of` takes a program in managed code, and answers its literals, each of which is there once: those that every program has, and the
//! different texts that the code writes or picks from, first values of records and arrays among them. `size_of`, `field_offset` and
//! `element_size` say where the parts of a value lie, and `first_bytes` which bytes a first value is.
#![tactic(auto)]

mod first_value;
mod fixed;
mod literals;
mod size;
mod texts;
mod theorems;

pub use first_value::{are_zeros, first_bytes, first_number};
pub use fixed::{
    BLANKS, ERROR_200, ERROR_201, ERROR_202, ERROR_215, MOST_BLANKS, TEXT_FALSE, TEXT_TRUE,
    fixed_literals,
};
pub use literals::{bytes_of_row, literals_of};
pub use op_mir::{is_composite, single_kind};
pub use size::{alignment_of, element_size, field_offset, size_of};
pub use texts::Texts;
pub use theorems::{first_values_lie, types_are_arranged, values_are_placed};

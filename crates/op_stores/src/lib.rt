//! What is done with values that were evaluated: assignments, Write, Read, Inc and Dec, Include and Exclude, SetLength, Str, Val and Free.
//!
//! What comes in is where values are; their items stand in the list already. A function appends the items of what is done with them, and its
//! contract says by a definition of op_semantics which ones these are.
#![tactic(auto)]

mod assignment;
mod counting;
mod ending;
mod line;
mod number;
mod place;
mod reading;
mod set;
mod text;
mod writing;

pub use assignment::{call_setter, char_put, put, put_into, put_value, store_at, store_variable};
pub use counting::{counted, counted_load, sum_or_difference};
pub use ending::{freed_and_nil, freed_at, freed_by};
pub use line::{longer_by, read_line};
pub use number::{read_char, read_integer};
pub use place::{result_of_routine, result_path, variable_path};
pub use reading::{
    byte_is, is_above, is_blank, is_in_line, is_there, read_into, rest_of_line, while_next,
};
pub use set::change_set;
pub use text::{str_stored, val_into, with_length};
pub use writing::{line_end, no_width, write_value};

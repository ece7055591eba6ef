//! Places: where the variables and temporaries of a routine are kept, and low code that comes to them, loads, stores and copies.
//!
//! `frame_of` settles of a routine what its code goes by, as `specs/Frames.antt` tells: numbers are kept in registers and all else in the locals.
//! `push_place` appends the code that comes to a place, and the other calls what loads a number from one, stores it there, and copies values with parts.
#![tactic(auto)]

mod copy;
mod frame;
mod homes;
mod number;
mod place;
mod push;
mod root;
mod spot;

pub use copy::{by_words, limit_of, push_bytes, push_copy, push_taken};
pub use frame::{Frame, Returning, frame_of, parameters_of, variables_of};
pub use homes::{Home, Keeping, Room, home_at, parameter, round, sum};
pub use number::{NEAR, held, kind_of, push_load_from, push_store_to};
pub use place::push_place;
pub use push::{push_address, push_call, push_load, push_store};
pub use spot::{Spot, at_register, at_scratch};

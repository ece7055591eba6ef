//! Primitives in low code: a call of the run-time routine of each, with its operands in registers.
//!
//! What is appended is exactly the code of `specs/Primitives.antt`.
#![tactic(auto)]

mod primitive;

pub use primitive::{length, number_in, push_primitive};

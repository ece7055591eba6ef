//! Whether a typed program is of the class that the theorems of the compiler are about.
//!
//! `is_plain` walks once through the tables and the trees of a typed program, takes no memory, and answers what `specs/Plain.antt` says.
//! `program_is_plain` says what a program has that passes: all that the theorems of op_typing, op_frames and op_mir ask of it.
#![tactic(auto)]

mod expression;
mod statement;
mod tables;
mod theorems;
mod types;

pub use tables::is_plain;
pub use theorems::program_is_plain;

//! Temporaries of record and array types: what a routine's frame has for them is counted by the text of its body.
//!
//! `specs/Listed.antt` lists the temporaries that the items of a body name. `wholes_are_charged` says that the list has all of them, that they
//! take no more than the words of the body, and so that a routine's frame takes no more than the routine is charged.
#![tactic(auto)]

mod theorems;

pub use theorems::wholes_are_charged;

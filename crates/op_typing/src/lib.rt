//! The types of what managed code works on.
//!
//! `code_is_typed` says that the managed code of a sound program has its operands at the types that they are used at.
#![tactic(auto)]

mod theorems;

pub use theorems::code_is_typed;

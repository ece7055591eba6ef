//! What is accepted is compiled: a program that breaks no rule is of the class that the theorems of the compiler are about.
//!
//! Nothing runs here. `accepted_is_plain` says what is proved.
#![tactic(auto)]

mod theorems;

pub use theorems::accepted_is_plain;

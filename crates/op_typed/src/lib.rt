//! What the checker makes of types, constants, expressions and statements is typed as its program has it.
//!
//! Nothing runs here. `parts_are_typed` says what is proved.
#![tactic(auto)]

mod theorems;

pub use theorems::parts_are_typed;

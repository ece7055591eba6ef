//! Low code goes along with managed code, for plain programs.
//!
//! Nothing runs here. `specs/` says when a state of low code stands for one of managed code, and what is asked of the program and of
//! where it is placed; `low_code_goes_along` says what is proved of it.
#![tactic(auto)]

mod theorems;

pub use theorems::low_code_goes_along;

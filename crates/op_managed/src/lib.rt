//! The middle of the compiler: from the typed program to managed code that is ready for low code.
//!
//! `middle` is the row of passes. Its contract says that the code goes along with the source machine, for ever: what is shown is the same,
//! at no more than four times the cost.
#![tactic(auto)]

mod passes;

pub use passes::middle;

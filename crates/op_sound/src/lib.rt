//! A program that breaks no rule is sound: what the checker answers is what the passes behind it take.
#![tactic(auto)]

mod program;

pub use program::check;

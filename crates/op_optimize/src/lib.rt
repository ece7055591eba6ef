//! The optimizer: low code that does the same in no more steps.
#![tactic(auto)]

mod block;
mod coloring;
mod dataflow;
mod fact;
mod frequency;
mod harmless;
mod liveness;
mod program;
mod renaming;
mod rewriting;
mod theorems;
mod value;
mod worth;

pub use program::optimize;
pub use theorems::{optimized_code_shortens, renaming_shortens, shortenings_compose};

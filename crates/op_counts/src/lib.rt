//! The number of holders of a name, and how what a machine does changes it.
//!
//! `specs/Counting.antt` says it as a sum over the holders of a state; `holders_are_counted` is that this is how many places `holders` finds.
//! How a write, a temporary, a call, an object, a walk and an error change the sum is a law each in `proofs/`.
#![tactic(auto)]

mod theorems;

pub use theorems::holders_are_counted;

//! The constants of a program: which bytes they are, and where each literal, table and descriptor begins in them.
//!
//! Nothing in them depends on where they come to lie in memory but what the tables hold, which are addresses of routines. A
//! `Layout` has the numbers of these routines in their place.
#![tactic(auto)]

mod layout;

pub use layout::{Layout, LiteralPlace};

//! Register assignment: from low code to a home for each of its virtual registers, a register of the machine or a word of the
//! frame.
//!
//! The interval of a virtual register is the least run of positions that has every position at which it is live. Intervals are
//! taken in order of their first positions, and where none of the eighteen registers is free, the interval that ends last goes to
//! the frame (linear scan). `assign` promises that registers which are live at one position have different homes, and that one
//! has a word of the frame only where its interval meets those of eighteen others.
#![tactic(auto)]

mod home;
mod interval;
mod line;
mod liveness;
mod scan;
mod table;

pub use home::{Assignment, Home, assign};

//! Expansion: from managed code to low code, in which places have addresses and values are words and bytes.
//!
//! `expand` takes a program in managed code beside its tables, and gives the same program in low code, exactly the one that
//! `specs/Programs.antt` says. Each instruction becomes straight code on its own; blocks keep their numbers, and behind them stand those
//! of the run-time errors. Numbers are kept in registers and all else in the locals of a routine, as op_places tells.
//! A program with finalization parts ends in a routine of its own (`specs/Closing.antt`).
#![tactic(auto)]

mod action;
mod block;
mod call;
mod closing;
mod global;
mod program;
mod receive;
mod registers;
mod routine;

pub use program::expand;

//! Views of what is between a program's text and its low code: the typed program, the items of its routines and its managed code, each as
//! a text that people read.
//!
//! A text has a line for each row, statement, item or instruction, with what is within it two blanks further in. The same program always
//! gives the same text. Rows are named by their numbers, and by their names where they have some: `N#3` is the variable N of row 3.
#![tactic(auto)]

mod action;
mod call;
mod code;
mod computation;
mod expression;
mod item;
mod names;
mod place;
mod program;
mod statement;
mod writer;

pub use code::managed_code;
pub use item::items;
pub use program::typed_program;

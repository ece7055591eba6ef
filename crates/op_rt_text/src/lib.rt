//! The run-time routines in low code, which every compiled program has as its first routines.
//!
//! They copy bytes of memory or make zeros of them, and write numbers, truths, characters and texts to the output, with blanks in front up to a width. `routines`
//! gives their code, exactly that of `specs/Runtime.antt`, which is read from the constants that stand here. Where it names literals, they are
//! the first three of the program: 64 blanks, `TRUE` and `FALSE`.
#![tactic(auto)]

mod blanks;
mod bytes;
mod character;
mod clearing;
mod copying;
mod ids;
mod number;
mod parts;
mod runtime;
mod taking;
mod theorems;
mod truth;

pub use ids::{
    BLANKS, CLEAR, COPY_BYTES, COPY_WORDS, FALSE_TEXT, RUNTIME, TAKE, TRUE_TEXT, WRITE_BLANKS,
    WRITE_BYTES, WRITE_CHAR, WRITE_NUMBER, WRITE_TRUTH,
};
pub use runtime::routines;
pub use theorems::{examples_run, memory_is_copied, routines_are_valid, texts_are_written};

//! The listing of an image: its code as a text that people read.
//!
//! `listing` takes the bytes of an image and gives a line for each word of its code: the address, the word, and the
//! instruction as an assembler has it. It is exactly what a definition says, over all bytes, so it has no errors but want of
//! memory. `eight_digits` writes a word in hexadecimal digits.
#![tactic(auto)]

mod digits;
mod instruction;
mod lines;
mod names;
mod operand;

pub use digits::eight_digits;
pub use lines::listing;

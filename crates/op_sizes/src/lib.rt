//! Sizes of images: what the low code of a routine counts for is bounded by the nodes of its text and by its variables, and so the image of a
//! program by what is written in it.
//!
//! `specs/Weights.antt` says what low code counts for, `specs/Sizes.antt` how much the code of an item comes to at most, `specs/Written.antt`
//! what is asked of a text, and `specs/ProgramSize.antt` what the size of a program is. `low_code_is_small` says that the code of a routine, and
//! of each of its instructions, then counts for no more than the text allows, and that what is linked takes no more bytes than the program's size.
#![tactic(auto)]

mod theorems;

pub use theorems::low_code_is_small;

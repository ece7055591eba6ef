//! Selection: from low code to objects, the instructions of the machine that have no addresses yet.
//!
//! Each instruction of low code becomes a list of items, on its own. A virtual register is kept in its home: the first 14 live
//! in s2 to s11 and t3 to t6, the others in words of the frame that their routine has on the stack. A routine that is called
//! saves those of these registers that it uses, and gives them back at its end. a0 to a7 have arguments, results and operands on
//! their way, and ra is free between two items. sp is the lowest address of the frame, and s0 the first address above what low
//! code may use. `select` gives exactly the items that `specs/Selection.antt` lists.
#![tactic(auto)]

mod call;
mod frame;
mod instruction;
mod registers;
mod routine;
mod sequence;
mod theorems;

pub use frame::Home;
pub use routine::select;
pub use theorems::{
    example_is_placed, selected_code_begins, selected_code_ends, selected_code_goes_along,
};

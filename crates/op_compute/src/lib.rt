//! Computations of managed code as straight low code: the numbers of temporaries are words in virtual registers, and an error is a
//! branch to a block of its own.
//!
//! `Bank` says where the registers and those blocks stand, and `compute` appends the code of a computation. Beside it stand what
//! shares its code: constants, conversions to the low bits, branches by a number, and single instructions. `computations_go_along`
//! says that the code does what the source machine does.
#![tactic(auto)]

mod arithmetic;
mod bank;
mod branch;
mod comparison;
mod computation;
mod conversion;
mod instruction;
mod range;
mod set;
mod theorems;

pub use bank::{Bank, Operands, RuntimeError, Work};
pub use branch::{branch_if_false, branch_if_true, dispatch, switch};
pub use computation::{compute, constant};
pub use conversion::low_bits;
pub use instruction::{
    push, push_alu, push_branch, push_const, push_immediate, push_move, push_shift,
};
pub use range::{push_distance, push_sum_with};
pub use theorems::computations_go_along;

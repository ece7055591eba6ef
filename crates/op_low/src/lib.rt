//! Low code: routines over virtual registers, frames and byte memory, which is what is left of a program before it becomes
//! instructions.
//!
//! The types are the language. What low code does is a definition, a machine in `specs/Machine.antt`, with the arithmetic
//! of the instruction table. `valid` says whether code names only what exists and has its operands in range. The readers
//! of type and class descriptors answer what stands in the constants.
#![tactic(auto)]

mod code;
mod descriptor;
mod ids;
mod instruction;
mod reading;
mod theorems;
mod validity;

pub use code::{Block, Counts, Low, Routine};
pub use descriptor::{
    DescKind, DescPart, class_fields, class_name, type_kind, type_part, type_parts, type_size,
};
pub use ids::VirtualRegister;
pub use instruction::{Call, Instruction, Output};
pub use reading::{is_either, leaves, other_block, reads, same, target, writes};
pub use theorems::{example_runs, stopped_machine_halts, valid_code_runs_valid};
pub use validity::valid;

//! Routines and programs of managed code.

use crate::Instruction;
use op_base::Sequence;

/// Instructions that are entered at the first one alone. The last one leaves the block.
#[derive(Drop)]
pub struct Block {
    pub code: Sequence<Instruction>,
}

/// A routine. Block 0 begins. The variables and temporaries of an activation begin as zero.
#[derive(Drop)]
pub struct Routine {
    /// How many variables it has, parameters and result among them.
    pub locals: u32,
    /// How many temporaries that are one value.
    pub temporaries: u32,
    /// What an activation is charged, in bytes of stack.
    pub charge: u64,
    pub blocks: Sequence<Block>,
}

/// How many types and variables the tables of the program have.
#[derive(Clone, Copy)]
pub struct Counts {
    pub types: u32,
    pub variables: u32,
}

/// A program in managed code, beside the tables of the typed program.
#[derive(Drop)]
pub struct Mir {
    pub routines: Sequence<Routine>,
    /// What stands below all activations: it enters the parts of the units.
    pub program: Routine,
    pub counts: Counts,
}

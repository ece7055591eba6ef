//! Routines and programs of low code.

use crate::Instruction;
use op_base::Sequence;
use op_rv::{GlobalVariable, RoutineId};

/// Instructions that are entered at the first one alone. The last one leaves the block.
#[derive(Drop)]
pub struct Block {
    pub code: Sequence<Instruction>,
}

/// A routine. Its registers that are no parameters and the bytes of its locals begin as 0.
#[derive(Drop)]
pub struct Routine {
    /// How many of its registers are parameters.
    pub parameters: u32,
    /// How many virtual registers it has.
    pub registers: u32,
    /// The bytes of its locals, those of its variables that have an address: a multiple of 4.
    pub locals: u32,
    pub blocks: Sequence<Block>,
}

/// How many literals, tables and descriptors the code may name.
#[derive(Clone, Copy)]
pub struct Counts {
    pub literals: u32,
    pub tables: u32,
    pub descriptors: u32,
}

/// A program in low code.
#[derive(Drop)]
pub struct Low {
    pub routines: Sequence<Routine>,
    /// The routine that the program begins with. It has no parameters.
    pub entry: RoutineId,
    pub counts: Counts,
    pub globals: Sequence<GlobalVariable>,
}

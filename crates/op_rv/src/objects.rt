//! Objects: the instructions of a program before they have addresses.

use crate::{BlockId, BranchOp, Instr, RoutineId, Symbol};
use op_base::Sequence;

/// An instruction, or what becomes one or more of them once addresses are known. Register numbers are 0 to 31.
#[derive(Clone, Copy)]
pub enum Item {
    Plain(Instr),
    /// The address of a symbol, put in `rd`.
    Address {
        rd: u8,
        symbol: Symbol,
    },
    /// To a block of the same routine where the comparison holds, and on to the next item otherwise.
    Branch {
        op: BranchOp,
        left: u8,
        right: u8,
        block: BlockId,
    },
    /// To a block of the same routine.
    Jump {
        block: BlockId,
    },
    /// To the head of a routine, with the address of the next item in `x1`. `landing` is the block where the caller goes on
    /// if the routine raises; with none the caller raises in its turn.
    Call {
        routine: RoutineId,
        landing: Option<BlockId>,
    },
    /// To the address that stands in `x1`, as `Call` does.
    CallAt {
        landing: Option<BlockId>,
    },
}

/// Items that are entered at the first one alone.
#[derive(Drop)]
pub struct ObjectBlock {
    pub items: Sequence<Item>,
}

/// A routine: its head, which calls enter and which runs into block 0, and its blocks, which stand one after the other.
#[derive(Drop)]
pub struct ObjectRoutine {
    pub head: Sequence<Item>,
    pub blocks: Sequence<ObjectBlock>,
}

/// A global variable: the bytes that it begins with, and then so many zeros.
#[derive(Drop)]
pub struct GlobalVariable {
    pub initial: Sequence<u8>,
    pub zeros: u32,
}

/// A program in objects.
#[derive(Drop)]
pub struct Objects {
    pub routines: Sequence<ObjectRoutine>,
    /// The routine that the program begins with.
    pub entry: RoutineId,
    pub globals: Sequence<GlobalVariable>,
}

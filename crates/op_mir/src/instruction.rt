//! Instructions of managed code.

use crate::{Action, BlockId, Path, Temporary, TemporaryId};
use op_base::Sequence;
use op_core::{IntegerKind, Label, RoutineId, TypeId};

/// What a parameter is given.
#[derive(Drop)]
pub enum Given {
    /// The low bits of a number.
    ByValue {
        kind: IntegerKind,
        temporary: TemporaryId,
    },
    /// The place itself.
    ByPlace {
        path: Path,
    },
    /// A copy of what stands at the place.
    ByCopy {
        of: TypeId,
        path: Path,
    },
}

/// Where the result of a function goes.
#[derive(Drop)]
pub enum Receiver {
    Nowhere,
    Temporary { temporary: TemporaryId },
    Place { of: TypeId, to: Path },
}

/// The operands of a call. Where the routine returns, the code goes on behind the call: the normal successor. Where an exception leaves
/// it, the code goes on at the block `landing`: the exceptional successor. With none the exception leaves the caller too.
#[derive(Drop)]
pub struct Call {
    pub given: Sequence<Given>,
    pub receiver: Receiver,
    pub landing: Option<BlockId>,
}

/// A branch of a switch: the values that lead to a block.
#[derive(Drop)]
pub struct Arm {
    pub labels: Sequence<Label>,
    pub block: BlockId,
}

/// An instruction. The code goes on at the next one where nothing else is said.
#[derive(Drop)]
pub enum Instruction {
    /// `landing` is as that of a call, where the action raises.
    Act {
        action: Action,
        landing: Option<BlockId>,
    },
    Call {
        routine: RoutineId,
        call: Call,
    },
    Jump {
        block: BlockId,
    },
    /// To the block where the temporary is true.
    When {
        temporary: TemporaryId,
        block: BlockId,
    },
    /// To the block where the temporary is false.
    Unless {
        temporary: TemporaryId,
        block: BlockId,
    },
    /// To the block of the first arm that has the value.
    Switch {
        temporary: TemporaryId,
        arms: Sequence<Arm>,
    },
    /// Behind a finally part, by the reason in the temporary: at 1, 2 and 3 to so many blocks behind this one, and at 4 the exception in the
    /// next temporary is raised again.
    Dispatch {
        temporary: TemporaryId,
        block: BlockId,
    },
    /// The finalization of a unit becomes due.
    MakeDue {
        finalization: RoutineId,
    },
    /// What is made behind it and has to be ended is among these, which end in this order: the one that is made last first.
    OpenTemporaries {
        temporaries: Sequence<Temporary>,
    },
    /// The temporary ends, if it was made.
    EndTemporary {
        temporary: Temporary,
    },
    /// The program ends with this status.
    Stop {
        status: TemporaryId,
    },
    /// Behind the caller's call; below the last activation the program ends.
    Return,
}

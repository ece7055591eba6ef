//! Managed code: routines of blocks, in which the statements of a program stand as actions, branches, calls and returns.
//!
//! The types are the language. What managed code does is a definition, a machine in `specs/Machine.antt`, over the worlds and the actions
//! of the source machine; how statements become blocks is one too, `specs/Code.antt`. `valid` says whether code names only what
//! exists, has operands of their kinds and needs no more than there is, and `code_goes_along` that the code of a plain program goes along with
//! the source machine.
#![tactic(auto)]

mod action;
mod code;
mod frame_need;
mod ids;
mod instruction;
mod kinds;
mod path;
mod shape;
mod temporary;
mod theorems;
mod validity;

pub use action::{Action, Computation, Destination, Operand};
pub use code::{Block, Counts, Mir, Routine};
pub use ids::{BlockId, LocalId, TemporaryId};
pub use instruction::{Arm, Call, Given, Instruction, Receiver};
pub use path::{Path, Root, Step, one_root};
pub use shape::{is_composite, single_kind};
pub use temporary::Temporary;
pub use theorems::{code_goes_along, program_is_plain_by_test};
pub use validity::valid;

//! The instructions of RISC-V RV32IM and what each of them does (RISC-V Unprivileged ISA manual, base RV32I and
//! extension M).
//!
//! `encode` and `decode` go between an instruction and its word. What a step of the machine does is a definition in
//! `specs/`, one line a row of the manual's table, with the environment calls beside it. The emulator is proved to be
//! that machine, and every image that the compiler writes is proved on it. `Objects` are instructions that have no
//! addresses yet.
#![tactic(auto)]

mod decoder;
mod encoder;
mod fault;
mod instruction;
mod objects;
pub mod operation;
mod symbol;

pub use decoder::decode;
pub use encoder::encode;
pub use fault::FaultKind;
pub use instruction::{AluOp, BranchOp, ImmOp, Instr, LoadOp, ShiftOp, StoreOp};
pub use objects::{GlobalVariable, Item, ObjectBlock, ObjectRoutine, Objects};
pub use symbol::{BlockId, DescriptorId, GlobalId, LiteralId, RoutineId, Symbol, TableId};

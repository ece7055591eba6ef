//! The emulator: it loads an image and runs it, step by step, over a source and two sinks.
//!
//! A machine is made by `load`, and `step` and `run` do exactly what the table of instructions says, with the environment
//! calls over the streams. The source is asked only within a call that reads, for no more bytes than that call still
//! wants, and not again once it has answered that it is at its end. A machine that has ended, faulted or met a failing
//! stream answers the same again and changes nothing.
#![tactic(auto)]

mod access;
mod calls;
mod fill;
mod hart;
mod loader;
mod machine;
mod memory;
mod quick;
mod registers;
mod row;
mod rows;
mod stop;

pub use hart::Hart;
pub use loader::load;
pub use machine::Machine;
pub use memory::{Code, Memory, Right, Segment};
pub use op_rv::FaultKind;
pub use registers::Registers;
pub use row::Row;
pub use stop::{MachineError, Stepped, Stop};

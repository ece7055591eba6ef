//! The heap of compiled programs: run-time routines in low code that take and give back blocks, and slots of instances.
//!
//! What a heap is, and when memory has one, is said by op_heap. A call of a routine here makes of the heap that memory has the one that is meant,
//! which is the contract of a function of `theorems.rt` each, with a bound on its steps by the number of holes. The code stands in constants, which
//! its definitions read.
#![tactic(auto)]

mod failing;
mod giving;
mod ids;
mod parts;
mod slots;
mod starting;
mod taking;
mod theorems;

pub use giving::give_block;
pub use ids::{CONTROL_ADDRESS, ERROR_TEXT, HEAP_ADDRESS};
pub use slots::{free_slot, issue_slot, test_slot};
pub use starting::start_heap;
pub use taking::take_block;
pub use theorems::{
    blocks_are_given_back, blocks_are_taken, examples_run, heap_begins, routines_are_valid,
    slots_are_given_back, slots_are_issued, slots_are_tested,
};

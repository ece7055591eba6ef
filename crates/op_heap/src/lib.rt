//! The heap of a running program, and the slots of its instances, as they are meant and as memory has them.
//!
//! `specs/Heap.antt` says what a heap is: blocks in address order, and holes that are the gaps between them. `specs/Slots.antt` says which slot is
//! issued next, `specs/Memory.antt` when the memory of a machine has a heap, and `specs/Demands.antt` what a program's demands make of it. This crate
//! has no code that runs; each function carries laws in its contract. The routines that keep a heap so are those of op_rt_heap.
#![tactic(auto)]

mod theorems;

pub use theorems::{
    blocks_are_placed, blocks_are_read, heap_stays, holes_are_merged, sizes_are_least, table_stays,
    words_are_issued_once,
};

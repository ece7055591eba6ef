//! Managed code of a program: from the items of each routine to its blocks.
//!
//! Code is made from its end, by the definition `specs/Code.antt` of op_mir: what stands behind an item is there before the item, and no
//! label is looked for. `lower` gives for each routine exactly the blocks of that definition.
#![tactic(auto)]

mod blocks;
mod exits;
mod instructions;
mod items;
mod program;
mod temporaries;

pub use program::lower;

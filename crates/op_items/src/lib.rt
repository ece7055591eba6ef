//! Items: a statement as a list of actions, choices, loops, protected parts and calls over numbered temporaries.
//!
//! From the typed statements of a routine come its items, exactly those of the source machine (op_meaning): what is evaluated when,
//! which temporary has what, and which place a path leads to. Blocks are made of them in op_lower.
#![tactic(auto)]

mod adding;
mod assignment;
mod call;
mod expression;
mod found;
mod item;
mod law;
mod operation;
mod path;
mod routine;
mod set;
mod setting;
mod shape;
mod simple;
mod statement;
mod turns;
mod value;
mod writing;

pub use item::{Case, Clause, Item, Turns, Way};
pub use law::item_nodes;
pub use routine::routine_items;

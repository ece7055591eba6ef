//! Which temporaries items may make that have to be ended, and items in a scope of these.
//!
//! What a statement or a condition is made into comes in, and goes behind other items, within a scope where it may make such temporaries. The
//! contracts are `made_by` and `finished` of op_semantics.
#![tactic(auto)]

mod made;
mod scope;

pub use made::made_by;
pub use scope::finish;

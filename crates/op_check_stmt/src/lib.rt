//! The checker of statements: from the tree of a statement and the place where it stands to the typed statement, or to the
//! first rule that it breaks. `specs/Statement.antt` says what each statement means.
#![tactic(auto)]

mod action;
mod case;
mod given;
mod leaving;
mod list;
mod node;
mod procedure;
mod repeated;
mod unplaced;
mod variable;
mod walk;

pub use node::Typed;
pub use walk::{statement, statements, stmt};

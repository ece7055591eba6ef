//! The parser of statements and expressions: from tokens to trees.
//!
//! `statement`, `expression` and `simple` answer the one part that is whole at a place, and the place behind it. Each
//! contract says that the grammar derives the part from the tokens, that nothing that follows would belong to it, that no
//! other part stands there, and for each refusal why none does.
#![tactic(auto)]

mod branch;
mod call;
mod chain;
mod compound;
mod designator;
mod error;
mod factor;
mod handler;
mod list;
mod mark;
mod nodes;
mod opening;
mod part;
mod repetition;
pub mod shared;
mod statement_nodes;
mod token;

pub use error::ParseError;
pub use part::{expression, simple, statement};

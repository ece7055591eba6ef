//! The parser of declarations and files: from tokens to trees.
//!
//! Each reader answers the one part that is whole at the front of the tokens, and what stands behind it, or why none does,
//! as those of op_parse_code.
#![tactic(auto)]

mod choice;
mod class;
mod code_form;
mod declaration;
mod declared_form;
mod denoter;
mod file;
mod form;
mod heading;
mod initializer;
mod interface;
mod leaf;
mod names;
mod nodes;
mod opening;
mod parameter;
mod part;
mod property;
mod routine;
mod sign;
mod stops;

pub use file::parse;

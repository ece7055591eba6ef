//! From the main file to the trees of a program's files.
//!
//! `load` reads the main file, scans and parses it, and then the units that it uses, depth first and each file once. It answers the trees
//! and the order of the units, or the first rule of files, spelling, grammar and units that is broken. Constructs that are not built yet and that a word
//! shows are refused with those of the grammar.
#![tactic(auto)]

mod error;
mod forest;
mod form;
mod frame;
mod interfaces;
mod loader;
mod name_set;
mod theorems;
mod unbuilt;
mod uses;
mod walk;

pub use error::LoadError;
pub use forest::Forest;
pub use loader::load;
pub use theorems::one_walk;

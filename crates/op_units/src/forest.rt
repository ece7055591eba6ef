//! The files of a program.
use op_base::{Sequence, Text};
use op_tree::Tree;

/// The files of a program, in the order in which they are read: the main file first.
#[derive(Drop)]
pub struct Forest {
    pub trees: Sequence<Tree>,
    /// The names of the files, in the same order: the main file's as it was given, and the bare names of the others.
    pub names: Sequence<Text>,
    /// The names of the units in small letters, in the order in which they are initialized.
    pub order: Sequence<Text>,
}

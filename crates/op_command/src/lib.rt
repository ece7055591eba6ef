//! The command line: from its words to the command that they ask for.
//!
//! `specs/Command.antt` has the grammar. `command_of` answers exactly the command that the words ask for, or that they are none. The kit's
//! crate `clap` reads them; what it takes beyond the grammar is tested beside it.
#![tactic(auto)]

mod command;
mod line;

pub use command::{Command, Verb};
pub use line::command_of;

//! Why a program has no forest.
use op_base::{NoMemory, Refusal, Text};
use std::alloc::AllocError;
use thiserror::Error;

/// Why a program has no forest.
#[derive(Debug, Drop, Error)]
pub enum LoadError {
    /// The first rule that the program's files break, and where. The text is the name of that file.
    #[error("refused")]
    Refused(Refusal, Text),
    /// A file could not be read.
    #[error("read fault")]
    ReadFault,
    /// The allocator had no room.
    #[error("out of memory")]
    NoMemory,
}

impl From<NoMemory> for LoadError {
    ghost use Rattle.std.specs.Prelude.{◌≡◌};
    ghost use Rattle.op_units.specs.declared.error.LoadError.{LoadError};

    ghost from_gives = { λ _ error. error ≡ LoadError.NoMemory };

    fn from(_error: NoMemory) -> LoadError {
        LoadError::NoMemory
    }
}

//! Why a part has no place in a typed program.
use op_base::{NoMemory, Refusal};
use std::alloc::{AllocError, AllocFailed};
use thiserror::Error;

/// What the checking crates answer in place of a typed part.
#[derive(Debug, Drop, Error)]
pub enum CheckError {
    /// The first rule that the part breaks, and where.
    #[error("refused")]
    Refused(Refusal),
    /// The allocator had no room.
    #[error("out of memory")]
    NoMemory,
}

impl From<NoMemory> for CheckError {
    ghost use Rattle.std.specs.Prelude.{◌≡◌};
    ghost use Rattle.op_core.specs.declared.error.CheckError.{CheckError};

    ghost from_gives = { λ _ error. error ≡ CheckError.NoMemory };

    fn from(_error: NoMemory) -> CheckError {
        CheckError::NoMemory
    }
}

impl From<AllocError> for CheckError {
    ghost use Rattle.std.specs.Prelude.{◌≡◌};
    ghost use Rattle.op_core.specs.declared.error.CheckError.{CheckError};

    ghost from_gives = { λ _ error. error ≡ CheckError.NoMemory };

    fn from(_error: AllocError) -> CheckError {
        CheckError::NoMemory
    }
}

impl<T: Drop> From<AllocFailed<T>> for CheckError {
    ghost use Rattle.std.specs.Prelude.{◌≡◌};
    ghost use Rattle.op_core.specs.declared.error.CheckError.{CheckError};

    ghost from_gives = { λ _ error. error ≡ CheckError.NoMemory };

    fn from(_error: AllocFailed<T>) -> CheckError {
        CheckError::NoMemory
    }
}

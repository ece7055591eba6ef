//! What a machine answers.
ghost use Rattle.std.specs.Prelude.{◌≡◌};
ghost use Rattle.op_emu.specs.Runs.{is_done, stop_of};

use op_rv::FaultKind;
use thiserror::Error;

/// What a step did.
#[derive(Clone, Copy)]
pub enum Stepped {
    /// The machine goes on.
    Went,
    /// The program ended with this status.
    Ended(u8),
    /// The step has no row in the table. The number is the instruction's address.
    Fault(FaultKind, u32),
    /// The source failed.
    ReadFault,
    /// A sink failed.
    WriteFault,
}

impl Stepped {
    /// Whether the step was done: a fault is not.
    pub fn is_done(self) -> bool
        ensures { result ≡ is_done self }
    {
        matches!(self, Stepped::Went | Stepped::Ended(_))
    }

    /// What a run answers that stops here.
    pub fn stop(self) -> Stop
        ensures { result ≡ stop_of self }
    {
        match self {
            Stepped::Went => Stop::Spent,
            Stepped::Ended(status) => Stop::Ended(status),
            Stepped::Fault(kind, pc) => Stop::Fault(kind, pc),
            Stepped::ReadFault => Stop::ReadFault,
            Stepped::WriteFault => Stop::WriteFault,
        }
    }
}

/// How a run stopped.
#[derive(Clone, Copy, Debug, PartialEq, Eq)]
pub enum Stop {
    /// The program ended with this status.
    Ended(u8),
    /// The program had not ended after the steps that were allowed.
    Spent,
    /// The next step has no row in the table. The number is the instruction's address.
    Fault(FaultKind, u32),
    /// The source failed.
    ReadFault,
    /// A sink failed.
    WriteFault,
}

/// Why an image was not loaded.
#[derive(Clone, Copy, Debug, Error)]
pub enum MachineError {
    /// The first condition on images that fails, 1 to 9.
    #[error("bad image: Elf{0}")]
    Bad(u8),
    #[error("out of memory")]
    NoMemory,
}

//! What calls give to parameters, and where results go.

use crate::action::Operand;
use crate::ids::TemporaryId;
use crate::path::Path;
use crate::temporary::Temporary;
use op_core::{IntegerKind, TypeId};

/// What a parameter is given.
#[derive(Drop)]
pub enum Given {
    /// The low bits of a number.
    ByValue {
        kind: IntegerKind,
        temporary: TemporaryId,
    },
    /// The place itself, and the temporary by which the dynamic array that it lies in is held for the call.
    ByPlace {
        path: Path,
        hold: Option<Temporary>,
    },
    /// The elements of the dynamic array at the place, and the temporary by which the array is held for the call.
    ByElements {
        path: Path,
        hold: Option<Temporary>,
    },
    /// A copy of what stands at the place.
    ByCopy {
        of: TypeId,
        path: Path,
    },
    /// A value that is looked at.
    ByOperand(Operand),
}

/// Where the result of a function goes.
#[derive(Drop)]
pub enum Receiver {
    Nowhere,
    Temporary { temporary: TemporaryId },
    Place { of: TypeId, to: Path },
    /// To a new temporary of the type that has to be ended.
    New { of: TypeId, number: u32 },
}

//! Actions: what an activation does in one step between two branches. Operands and what they give are in temporaries.

use crate::ids::{LocalId, TemporaryId};
use crate::path::Path;
use op_base::Sequence;
use op_core::{IntegerKind, TypeId};
use op_scan::CompactText;
use op_semantics::Primitive;
use op_tree::Operator;

/// On numbers and on sets, which are numbers with the bit k for each element k.
#[derive(Clone, Copy)]
pub enum Computation {
    /// `checked` is whether an overflow is error 215.
    Arithmetic {
        operator: Operator,
        checked: bool,
        to: TemporaryId,
        left: TemporaryId,
        right: TemporaryId,
    },
    Compare {
        operator: Operator,
        to: TemporaryId,
        left: TemporaryId,
        right: TemporaryId,
    },
    Negate {
        checked: bool,
        to: TemporaryId,
        from: TemporaryId,
    },
    /// `not` of an integer.
    Complement {
        to: TemporaryId,
        from: TemporaryId,
    },
    /// `not` of a Boolean.
    Invert {
        to: TemporaryId,
        from: TemporaryId,
    },
    Absolute {
        checked: bool,
        to: TemporaryId,
        from: TemporaryId,
    },
    Odd {
        to: TemporaryId,
        from: TemporaryId,
    },
    /// `UpCase`.
    Upper {
        to: TemporaryId,
        from: TemporaryId,
    },
    /// A conversion that keeps the low bits.
    LowBits {
        kind: IntegerKind,
        to: TemporaryId,
        from: TemporaryId,
    },
    /// A conversion that is checked: error 201 outside `low` to `high`.
    Check {
        low: i32,
        high: i32,
        to: TemporaryId,
        from: TemporaryId,
    },
    /// The value that stands so far behind this one, from `low` to `high`, or error 201.
    Neighbour {
        distance: i32,
        low: i32,
        high: i32,
        to: TemporaryId,
        from: TemporaryId,
    },
    /// The set of one value.
    Single {
        to: TemporaryId,
        from: TemporaryId,
    },
    /// The set of all values from one to another.
    Span {
        to: TemporaryId,
        first: TemporaryId,
        last: TemporaryId,
    },
    /// An operator on sets.
    Combine {
        operator: Operator,
        to: TemporaryId,
        left: TemporaryId,
        right: TemporaryId,
    },
    Contains {
        to: TemporaryId,
        element: TemporaryId,
        set: TemporaryId,
    },
    /// Error 201 where there is an element but those of this set.
    CheckSet {
        all: i32,
        to: TemporaryId,
        from: TemporaryId,
    },
}

/// What a primitive looks at.
#[derive(Drop)]
pub enum Operand {
    Number(TemporaryId),
    /// What stands at a place.
    Value(Path),
    Literal(CompactText),
    /// Nil of a type.
    Nil(TypeId),
    OfType(TypeId),
    /// The bytes of the number that is being read.
    Token,
}

/// Where what a primitive gives goes.
#[derive(Drop)]
pub enum Destination {
    /// Nothing is given.
    Unused,
    InTemporary(TemporaryId),
    /// To a new temporary of the type that has to be ended.
    InNew { of: TypeId, number: u32 },
    /// Into a place of the type, whose old value goes to a new temporary.
    IntoPlace { of: TypeId, to: Path, old: u32 },
    /// Over what is at a place, and has not to be ended there.
    OverPlace { to: Path },
}

/// What is done in one step.
#[derive(Drop)]
pub enum Action {
    Constant {
        to: TemporaryId,
        value: i32,
    },
    Load {
        to: TemporaryId,
        kind: IntegerKind,
        from: Path,
    },
    Store {
        to: Path,
        kind: IntegerKind,
        from: TemporaryId,
    },
    /// All parts of what stands at a place.
    Copy {
        of: TypeId,
        to: Path,
        from: Path,
    },
    /// A variable begins with the first value of its row.
    BeginWith {
        variable: LocalId,
    },
    /// A Char of a literal, by its index from 1.
    Pick {
        to: TemporaryId,
        text: CompactText,
        index: TemporaryId,
    },
    Compute(Computation),
    /// The next byte of the input, or -1 at its end.
    Peek {
        to: TemporaryId,
    },
    /// The next byte of the input is taken.
    Take,
    /// Of the number that is being read nothing was read.
    Forget,
    /// One byte more of the number that is being read.
    Note {
        from: TemporaryId,
    },
    /// What a run-time routine does.
    Do {
        primitive: Primitive,
        operands: Sequence<Operand>,
        to: Destination,
    },
}

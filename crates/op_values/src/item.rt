//! The items of a statement.
use crate::action::Action;
use crate::given::{Given, Receiver};
use crate::ids::TemporaryId;
use crate::path::{Path, Root};
use crate::temporary::Temporary;
use op_base::Sequence;
use op_core::{ClassId, Dispatch, Label, RoutineId, TypeId};

/// How a statement leaves what stands round it.
#[derive(Clone, Copy)]
pub enum Way {
    Exit,
    Break,
    Continue,
}

/// What is done in order, by one construct of the source machine each.
#[cycle(items)]
#[derive(Drop)]
pub enum Item {
    Act(Action),
    /// The second operand of `and` and `or`, done where the first one is this truth value.
    Also {
        truth: bool,
        temporary: TemporaryId,
        items: Vec<Item>,
    },
    Choose {
        temporary: TemporaryId,
        first: Vec<Item>,
        otherwise: Vec<Item>,
    },
    Select {
        temporary: TemporaryId,
        cases: Vec<Case>,
        otherwise: Vec<Item>,
    },
    /// A loop, from its test on.
    Loop(Turns),
    /// A loop, from its body on.
    BodyFirst(Turns),
    /// A part with a finally part. Why it is left stands in the temporary, and an exception that waits in the next one.
    Protect {
        temporary: TemporaryId,
        items: Vec<Item>,
        finalization: Vec<Item>,
    },
    Leave(Way),
    Enter {
        routine: RoutineId,
        given: Sequence<Given>,
        receiver: Receiver,
    },
    /// Items that may make these temporaries. Behind them, and where they are left, these end in this order, the one that is made last
    /// first, and of each only what was made.
    Scoped {
        first: Temporary,
        others: Sequence<Temporary>,
        items: Vec<Item>,
    },
    /// A part with handlers. An exception that no clause takes goes on.
    Attempt {
        items: Vec<Item>,
        clauses: Vec<Clause>,
    },
    /// A part with handlers. An exception that no clause takes is taken by `others`.
    AttemptAll {
        items: Vec<Item>,
        clauses: Vec<Clause>,
        others: Vec<Item>,
    },
    /// Raises the instance at a place.
    Throw {
        at: Path,
    },
    /// Raises the handler's instance again.
    Rethrow,
    Halt {
        status: TemporaryId,
    },
    /// A constructor is called on a class, and the instance goes to a receiver.
    Construct {
        class: ClassId,
        routine: RoutineId,
        given: Sequence<Given>,
        receiver: Receiver,
    },
    /// A method is called of the instance that is given first, which is of the type.
    Invoke {
        routine: RoutineId,
        dispatch: Dispatch,
        of: TypeId,
        given: Sequence<Given>,
        receiver: Receiver,
    },
    /// Free of the instance at a place; `takes_nil` says that nil is left alone.
    Free {
        takes_nil: bool,
        at: Path,
    },
}

/// The turns of a loop. The head is done; where the temporary is then false, or with `ends` where it is true, the loop is over. Else
/// `between` is done and then the body.
#[cycle(items)]
#[derive(Drop)]
pub struct Turns {
    pub head: Vec<Item>,
    pub temporary: TemporaryId,
    pub ends: bool,
    pub between: Vec<Item>,
    pub body: Vec<Item>,
}

/// A branch of a selection.
#[cycle(items)]
#[derive(Drop)]
pub struct Case {
    pub labels: Sequence<Label>,
    pub items: Vec<Item>,
}

/// `on variable: class do`
#[cycle(items)]
#[derive(Drop)]
pub struct Clause {
    pub class: ClassId,
    pub variable: Option<Root>,
    pub items: Vec<Item>,
}

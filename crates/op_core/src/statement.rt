//! Typed statements.
use crate::{ClassId, Conversion, CoreExpr, VariableId};
use op_base::Sequence;
use op_tree::Direction;

/// A statement. The empty one and what is not written are no nodes of the text.
#[cycle(typed_statement)]
#[derive(Drop)]
pub enum CoreStmt {
    Empty,
    /// With no statements it is also what `inherited` alone is where there is nothing to call.
    Block(Vec<CoreStmt>),
    If {
        condition: CoreExpr,
        then: Box<CoreStmt>,
    },
    IfElse {
        condition: CoreExpr,
        then: Box<CoreStmt>,
        otherwise: Box<CoreStmt>,
    },
    /// `otherwise` is empty where there is no `else`.
    Case {
        selector: Box<CoreExpr>,
        branches: Vec<CoreBranch>,
        otherwise: Vec<CoreStmt>,
    },
    While {
        condition: CoreExpr,
        body: Box<CoreStmt>,
    },
    Repeat {
        body: Vec<CoreStmt>,
        condition: Box<CoreExpr>,
    },
    /// The bounds are of the variable's base type; error 201 where a loop has a turn and one of them is outside its type.
    For {
        variable: VariableId,
        first: Box<CoreExpr>,
        direction: Direction,
        last: Box<CoreExpr>,
        body: Box<CoreStmt>,
    },
    /// Each element is converted so before it is stored.
    ForIn {
        variable: VariableId,
        store: Conversion,
        collection: Box<CoreExpr>,
        body: Box<CoreStmt>,
    },
    TryFinally {
        body: Vec<CoreStmt>,
        finalization: Vec<CoreStmt>,
    },
    /// An exception that no handler takes goes on.
    TryOn {
        body: Vec<CoreStmt>,
        handlers: Vec<CoreHandler>,
    },
    /// An exception that no handler takes is taken by `otherwise`. It has no handlers where all exceptions are taken.
    TryOnElse {
        body: Vec<CoreStmt>,
        handlers: Vec<CoreHandler>,
        otherwise: Vec<CoreStmt>,
    },
    Raise(CoreExpr),
    /// `raise` alone.
    Reraise,
    /// A call. What a function gives is dropped.
    Call(CoreExpr),
    /// The value is of the place's type.
    Assign {
        target: CoreExpr,
        value: Box<CoreExpr>,
    },
    /// Leaves the routine.
    Exit,
    /// Leaves the routine with this result.
    ExitWith(CoreExpr),
    Break,
    Continue,
    /// Ends the program with this status.
    Halt(CoreExpr),
    Do(Box<CoreAction>),
}

/// A branch of a case.
#[cycle(typed_statement)]
#[derive(Drop)]
pub struct CoreBranch {
    pub labels: Sequence<Label>,
    pub body: CoreStmt,
}

/// The values from `first` to `last`. It stands for so many nodes of the text, of which those that are sets take so many words.
#[derive(Clone, Copy)]
pub struct Label {
    pub first: i32,
    pub last: i32,
    pub nodes: u32,
    pub words: u32,
}

/// `on variable: class do body`
#[cycle(typed_statement)]
#[derive(Drop)]
pub struct CoreHandler {
    pub variable: Option<VariableId>,
    pub class: ClassId,
    pub body: CoreStmt,
}

/// A call of a built-in procedure.
#[derive(Drop)]
pub enum CoreAction {
    Write {
        items: Vec<CoreItem>,
        ends_line: bool,
    },
    Read {
        targets: Vec<CoreTarget>,
        ends_line: bool,
    },
    /// Inc, upwards, and Dec. `checked` is whether an overflow is error 215: the switch Q at the name.
    Count {
        direction: Direction,
        target: CoreTarget,
        amount: CoreExpr,
        checked: bool,
    },
    SetLength {
        target: CoreExpr,
        length: CoreExpr,
    },
    Include {
        set: CoreExpr,
        element: CoreExpr,
    },
    Exclude {
        set: CoreExpr,
        element: CoreExpr,
    },
    Val {
        text: CoreExpr,
        value: CoreTarget,
        code: CoreTarget,
    },
    Str {
        value: CoreItem,
        target: CoreExpr,
    },
    /// Free, also by way of FreeAndNil, which empties the place first.
    Free {
        object: CoreExpr,
        empties: bool,
    },
    /// A call of Destroy without `inherited`.
    Destroy(CoreExpr),
}

/// A place that a built-in procedure stores an integer, a Char or a string in, and how what is stored is converted.
#[derive(Drop)]
pub struct CoreTarget {
    pub place: CoreExpr,
    pub store: Conversion,
}

/// What is written, and to what width at least.
#[derive(Drop)]
pub enum CoreItem {
    Plain(CoreExpr),
    Padded(CoreExpr, Box<CoreExpr>),
}

//! Typed expressions.
//!
//! An expression is a root and what is done with its value, step by step: `(a + b)[i] * c` is the root a, and the steps
//! `+ b`, brackets, `[i]` and `* c`. So a long chain of operators or selectors is a list and no deep tree.
ghost use Rattle.std.specs.Prelude.{◌≡◌, IfOk};
ghost use Rattle.op_core.specs.Expression.{action_of, expr_of, expression, no_steps, root_of, then};

use crate::{
    ClassId, Const, Conversion, Dispatch, FieldId, Function, Origin, RoutineId, TypeId, VariableId,
};
use op_base::NoMemory;
use op_tree::{Operator, PrefixOperator};
use std::alloc::Global;

/// An expression. It is of the type of its last step, or of its root where it has none.
#[cycle(typed_expression)]
#[derive(Drop)]
pub struct CoreExpr {
    pub root: Root,
    /// The type of the root.
    pub of: TypeId,
    pub steps: Vec<Step>,
}

/// What an expression begins with.
#[cycle(typed_expression)]
#[derive(Drop)]
pub enum Root {
    /// A literal, or a constant expression that was evaluated. It stands for so many nodes of the text, of which those that
    /// are sets take so many words: both count for the charge. What is not written stands for none.
    Constant {
        value: Const,
        nodes: u32,
        words: u32,
    },
    /// A variable by its name, or a place by that name.
    Variable(VariableId),
    /// The object of a method round a member that is named alone. It is no node of the text.
    Object(VariableId),
    /// A call of a routine that is no method.
    Call {
        routine: RoutineId,
        arguments: Vec<CoreArgument>,
    },
    /// A constructor called on a class.
    Construct {
        class: ClassId,
        constructor: RoutineId,
        arguments: Vec<CoreArgument>,
    },
    /// A set that is no constant.
    Set(Vec<CoreElement>),
    Eof,
    Eoln,
}

/// What is done with the value or the place so far, and the type of what comes out.
#[cycle(typed_expression)]
#[derive(Drop)]
pub struct Step {
    pub action: Action,
    pub of: TypeId,
}

/// What a step does.
#[cycle(typed_expression)]
#[derive(Drop)]
pub enum Action {
    Convert {
        conversion: Conversion,
        origin: Origin,
    },
    /// Brackets round what is so far: a value, never a place.
    Bracket,
    /// Of a record or of a class's instance.
    Field(FieldId),
    /// Of an array or a string. The index is of the array's index type, or an Integer.
    Index(CoreExpr),
    /// A method of an instance, also by way of a property.
    Call {
        method: RoutineId,
        dispatch: Dispatch,
        arguments: Vec<CoreArgument>,
    },
    /// `checked` is whether an overflow is error 215: the switch Q at the operator.
    Prefix {
        operator: PrefixOperator,
        checked: bool,
    },
    /// The types of the two sides tell what the operator does: they are equal, but for an ordinal value `in` a set.
    /// `checked` is whether an overflow is error 215: the switch Q at the operator.
    Operate {
        operator: Operator,
        checked: bool,
        operand: CoreExpr,
    },
    /// Whether it is an instance of a class, or of one that implements an interface.
    Is(TypeId),
    /// `checked` is whether an overflow is error 215: the switch Q at the function's name.
    Apply {
        function: Function,
        checked: bool,
    },
    /// So many bytes or elements from one on.
    Copy {
        first: Box<CoreExpr>,
        count: Box<CoreExpr>,
    },
}

/// An element of a set, each value of the set's base type.
#[cycle(typed_expression)]
#[derive(Drop)]
pub enum CoreElement {
    One(CoreExpr),
    Range(Box<CoreExpr>, Box<CoreExpr>),
}

/// What a parameter is given. The parameter tells how it is taken.
#[cycle(typed_expression)]
#[derive(Drop)]
pub enum CoreArgument {
    /// A value of the parameter's type.
    Value(CoreExpr),
    /// A place of the parameter's very type, for `var` and `out`.
    Place(CoreExpr),
    /// An array for an open array.
    Array(CoreExpr),
    /// `[a, b]` for an open array of the type `of`.
    Elements { of: TypeId, values: Vec<CoreExpr> },
}

impl CoreExpr {
    /// The root alone.
    pub fn new(alloc: Global, root: Root, of: TypeId) -> CoreExpr
        ensures { expr_of result ≡ expression (root_of root) of no_steps }
    {
        let steps = Vec::new(alloc);
        CoreExpr { root, of, steps }
    }

    /// Does one thing more with what is so far.
    pub fn push(&mut self, action: Action, of: TypeId) -> Result<(), NoMemory>
        ensures { IfOk result (λ _. expr_of self.new ≡ then (expr_of self.old) (action_of action) of) }
    {
        self.steps.push(Step { action, of })?;
        Ok(())
    }
}

//! Values of expressions, and how a value becomes one of another type.
ghost use Rattle.std.specs.Prelude.{◌≡◌, IfOk};
ghost use Rattle.std.specs.Option.{option_map};
ghost use Rattle.op_core.specs.Expression.{expr_of};
ghost use Rattle.op_check_expr.specs.Values.{constant, in_brackets, tree_of, type_of, value_of};

use crate::tree::{constant_tree, then, type_of};
use op_base::NoMemory;
use op_core::{Action, CoreExpr, TypeId};
use op_types::{Constant, joined, made, nodes};
use std::alloc::Global;

/// What an expression gives.
#[derive(Drop)]
pub enum Value {
    /// What the compiler itself evaluates.
    Constant(Constant),
    /// What is computed when the program runs.
    Computed(CoreExpr),
}

impl Value {
    pub fn type_of(&self) -> TypeId
        ensures { result ≡ type_of (value_of self.now) }
    {
        match self {
            Value::Constant(constant) => constant.of,
            Value::Computed(e) => type_of(e),
        }
    }

    /// The value as a typed expression.
    pub fn into_tree(self, alloc: Global) -> CoreExpr
        ensures { expr_of result ≡ tree_of (value_of self) }
    {
        match self {
            Value::Constant(constant) => constant_tree(alloc, constant),
            Value::Computed(e) => e,
        }
    }

    /// With brackets round it.
    pub fn in_brackets(self) -> Result<Value, NoMemory>
        ensures { IfOk result (λ v. value_of v ≡ in_brackets (value_of self)) }
    {
        match self {
            Value::Constant(c) => Ok(Value::Constant(made(
                c.value,
                c.of,
                joined(c.weight, nodes(0)),
            ))),
            Value::Computed(e) => {
                let of = type_of(&e);
                Ok(Value::Computed(then(e, Action::Bracket, of)?))
            }
        }
    }
}

/// A constant part as a part.
pub fn constant_value(part: Option<Constant>) -> Option<Value>
    ensures { option_map value_of result ≡ option_map constant part }
{
    match part {
        Some(constant) => Some(Value::Constant(constant)),
        None => None,
    }
}

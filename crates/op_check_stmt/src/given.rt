//! What a built-in procedure is given.
ghost use Rattle.std.specs.Prelude.{◌≡◌};
ghost use Rattle.op_check_stmt.specs.Procedure.{values, values_of};
ghost use Rattle.op_tree.specs.Lists.{arguments_of};

use op_tree::{Argument, Expr};

/// The values that a procedure is given.
#[derive(Clone, Copy)]
pub enum Given<'t> {
    Nothing,
    One(&'t Expr),
    Two(&'t Expr, &'t Expr),
    /// More values, or one with a width.
    Others,
}

pub fn values(arguments: &[Argument]) -> Given<'_>
    ensures { values_of result ≡ values (arguments_of arguments.now) }
{
    let Some((first, others)) = arguments.split_first() else {
        return Given::Nothing;
    };
    match (first, others.split_first()) {
        (Argument::Value(a), None) => Given::One(a),
        (Argument::Value(a), Some((second, rest))) => match (second, rest.split_first()) {
            (Argument::Value(b), None) => Given::Two(a, b),
            _ => Given::Others,
        },
        _ => Given::Others,
    }
}

//! Typed trees: their types, and what is made of them.
ghost use Rattle.std.specs.Prelude.{◌≡◌, IfOk};
ghost use Rattle.op_core.specs.Expression.{action_of, expr_of, then};
ghost use Rattle.op_core.specs.Typing as typing;
ghost use Rattle.op_check_expr.specs.Values.{constant, tree_of, with_conversion};

use op_base::NoMemory;
use op_core::{Action, Conversion, CoreExpr, Origin, Root, TypeId};
use op_types::Constant;
use std::alloc::Global;

/// The type of what a typed expression gives.
pub fn type_of(e: &CoreExpr) -> TypeId
    ensures { result ≡ typing.type_of (expr_of e.now) }
{
    match e.steps.split_last() {
        Some((step, _)) => step.of,
        None => e.of,
    }
}

/// An expression, and one thing more that is done with its value.
pub fn then(e: CoreExpr, action: Action, of: TypeId) -> Result<CoreExpr, NoMemory>
    ensures { IfOk result (λ r. expr_of r ≡ then (expr_of e) (action_of action) of) }
{
    let mut e = with_room(e)?;
    e.push(action, of)?;
    Ok(e)
}

/// How many items a list has before the room for them is doubled.
const FEW: usize = 4;

/// Makes room for an item more; while there are few, for no more than that.
pub fn make_room<T>(list: &mut Vec<T>) -> Result<(), NoMemory>
    ensures { list.new.items ≡ list.old.items }
{
    if list.len() < FEW {
        list.reserve_exact(1)?;
    }
    Ok(())
}

/// The same expression, with room for a step more.
fn with_room(e: CoreExpr) -> Result<CoreExpr, NoMemory>
    ensures { IfOk result (λ r. expr_of r ≡ expr_of e) }
{
    let CoreExpr { root, of, steps } = e;
    let mut steps = steps;
    make_room(&mut steps)?;
    Ok(CoreExpr { root, of, steps })
}

pub fn constant_tree(alloc: Global, c: Constant) -> CoreExpr
    ensures { expr_of result ≡ tree_of (constant c) }
{
    let root = Root::Constant {
        value: c.value,
        nodes: c.weight.nodes,
        words: c.weight.words,
    };
    CoreExpr::new(alloc, root, c.of)
}

/// With a conversion that the text leaves out, where one is needed.
pub fn with_conversion(
    e: CoreExpr,
    to: TypeId,
    conversion: Option<Conversion>,
) -> Result<CoreExpr, NoMemory>
    ensures { IfOk result (λ r. expr_of r ≡ with_conversion (expr_of e) to conversion) }
{
    match conversion {
        None => Ok(e),
        Some(conversion) => {
            let origin = Origin::Implied;
            then(e, Action::Convert { conversion, origin }, to)
        }
    }
}

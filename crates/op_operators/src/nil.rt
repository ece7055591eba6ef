//! Nil, which is looked at where it is.
ghost use Rattle.std.specs.Prelude.{◌≡◌};
ghost use Rattle.op_core.specs.Expression.{action_of, expr_of, root_of};
ghost use Rattle.op_core.specs.Nodes.{steps_of};
ghost use Rattle.op_operators.specs.Nils.{begins_nil, is_nil_constant, stays};
ghost use Rattle.op_semantics.specs.Expressions.{is_nil, is_nil_now, stays_nil};
ghost use Rattle.op_values.specs.Adding.{now_view};

use op_core::{Action, Const, CoreExpr, Root, Step};
use op_values::Now;

/// Whether it is nil, also behind brackets and conversions.
pub fn is_nil(e: &CoreExpr) -> bool
    ensures { result ≡ is_nil (expr_of e.now) }
{
    if !begins_nil(&e.root) {
        return false;
    }
    stays_nil(&e.steps)
}

fn begins_nil(root: &Root) -> bool
    ensures { result ≡ begins_nil (root_of root.now) }
{
    match root {
        Root::Constant { value, .. } => is_nil_constant(value),
        Root::Variable(_) => false,
        Root::Object(_) => false,
        Root::Call { .. } => false,
        Root::Construct { .. } => false,
        Root::Set(_) => false,
        Root::Eof => false,
        Root::Eoln => false,
    }
}

fn is_nil_constant(value: &Const) -> bool
    ensures { result ≡ is_nil_constant value.now }
{
    matches!(value, Const::Nil)
}

fn stays_nil(steps: &[Step]) -> bool
    ensures { result ≡ stays_nil (steps_of steps.now) }
{
    for each in steps {
        if !stays(&each.action) {
            return false;
        }
    }
    true
}

/// Whether nil is still nil behind it.
fn stays(action: &Action) -> bool
    ensures { result ≡ stays (action_of action.now) }
{
    match action {
        Action::Convert { .. } => true,
        Action::Bracket => true,
        Action::Field(_) => false,
        Action::Index(_) => false,
        Action::Call { .. } => false,
        Action::Prefix { .. } => false,
        Action::Operate { .. } => false,
        Action::Is(_) => false,
        Action::Apply { .. } => false,
        Action::Copy { .. } => false,
    }
}

/// Whether what is so far is nil.
pub fn is_nil_now(now: &Now) -> bool
    ensures { result ≡ is_nil_now (now_view now.now) }
{
    matches!(now, Now::Nil(_))
}

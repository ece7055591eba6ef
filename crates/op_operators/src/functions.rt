//! Functions of System (reference of the unit System, "Succ", "Pred", "Abs", "Sqr", "Odd", "UpCase", "Ord", "Low", "High", "Length" and
//! "Assigned").
ghost use Rattle.std.specs.Prelude.{◌≡◌, ◌+◌, ◌∷◌, [], IfOk, None, pos};
ghost use Rattle.op_core.specs.Sizes.{type_at};
ghost use Rattle.op_core.specs.declared.operation.Function.TheVariants.{Whole};
ghost use Rattle.op_semantics.specs.Actions.{arithmetic, constant};
ghost use Rattle.op_semantics.specs.Expressions.{applied, applied_by, applied_to, in_place_or_own, measured, moved, operand_of, then_number, then_value};
ghost use Rattle.op_semantics.specs.Items.{act, acts, only};
ghost use Rattle.op_values.specs.Adding.{Adds, Gives, env_view, found_view, now_view};
ghost use Rattle.op_values.specs.Setting.{here_view};
ghost use Rattle.op_tree.specs.declared.operator.Operator.TheVariants.{Multiply};

use crate::measures::{is_measure, long_by, measured};
use crate::pieces::piece;
use op_base::NoMemory;
use op_core::{CoreType, Function, IntegerKind, TypeId, type_at};
use op_semantics::Primitive;
use op_tree::Operator;
use op_values::{
    Computation, Found, Here, Item, Setting, TemporaryId, high_in, low_in, next, one, operand_of,
};

/// The value so far behind this one: of an Integer a sum, of every other ordinal type a value of the type.
#[tactic(auto, using(crate::proofs::ItemsBehind::behind_behind))]
fn moved(
    setting: Setting,
    items: &mut Vec<Item>,
    operator: Operator,
    distance: i32,
    checked: bool,
    of: TypeId,
    to: TemporaryId,
) -> Result<(), NoMemory>
    ensures { IfOk result (λ _. Adds setting.entry items.old.items items.new.items (acts (moved setting.entry.core.now operator distance checked of (type_at setting.entry.core.now of) to.0))) }
{
    let left = to;
    match type_at(setting.core, of) {
        Some(CoreType::Integer(IntegerKind::Signed32)) => {
            let right = next(to)?;
            setting.number(items, right, 1)?;
            setting.compute(
                items,
                Computation::Arithmetic {
                    operator,
                    checked,
                    to,
                    left,
                    right,
                },
            )
        }
        _ => {
            let low = low_in(setting.core, of)?;
            let high = high_in(setting.core, of)?;
            setting.compute(
                items,
                Computation::Neighbour {
                    distance,
                    low,
                    high,
                    to,
                    from: left,
                },
            )
        }
    }
}

/// A function on the number in the temporary.
#[tactic(auto, using(crate::proofs::ItemsBehind::behind_none))]
pub fn applied(
    setting: Setting,
    items: &mut Vec<Item>,
    function: Function,
    checked: bool,
    of: TypeId,
    to: TemporaryId,
) -> Result<(), NoMemory>
    ensures { IfOk result (λ _. Adds setting.entry items.old.items items.new.items (acts (applied setting.entry.core.now function checked of to.0))) }
{
    let from = to;
    match function {
        Function::Succ => moved(setting, items, Operator::Add, 1, checked, of, to),
        Function::Pred => moved(setting, items, Operator::Subtract, -1, checked, of, to),
        Function::Abs => setting.compute(items, Computation::Absolute { checked, to, from }),
        Function::Sqr => square(setting, items, checked, to),
        Function::Odd => setting.compute(items, Computation::Odd { to, from }),
        Function::UpCase => setting.compute(items, Computation::Upper { to, from }),
        _ => Ok(()),
    }
}

fn square(
    setting: Setting,
    items: &mut Vec<Item>,
    checked: bool,
    to: TemporaryId,
) -> Result<(), NoMemory>
    ensures { IfOk result (λ _. Adds setting.entry items.old.items items.new.items (only (act (arithmetic Multiply checked to.0 to.0 to.0)))) }
{
    setting.compute(
        items,
        Computation::Arithmetic {
            operator: Operator::Multiply,
            checked,
            to,
            left: to,
            right: to,
        },
    )
}

/// From the first one on, all that there are.
#[tactic(auto, using(crate::proofs::ItemsBehind::behind_behind))]
fn from_first(setting: Setting, items: &mut Vec<Item>, here: Here) -> Result<(), NoMemory>
    ensures { IfOk result (λ _. Adds setting.entry items.old.items items.new.items (acts (constant (here_view here).temp (pos 0) ∷ constant ((here_view here).temp + 1) (pos 2147483647) ∷ []))) }
{
    let count = here.behind(1)?;
    setting.number(items, here.first(), 0)?;
    setting.number(items, count, i32::MAX)
}

/// All of a text or of an array.
fn whole(
    setting: Setting,
    items: &mut Vec<Item>,
    checked: bool,
    of: TypeId,
    to: TypeId,
    here: Here,
    found: Found,
) -> Result<Found, NoMemory>
    ensures { IfOk result (λ f. Gives setting.entry items.old.items items.new.items f (applied_to (env_view setting.entry) Whole checked of to (here_view here) (found_view found))) }
{
    from_first(setting, items, here)?;
    piece(setting, items, of, to, here, found.now, found.held)
}

/// The name of an instance's class.
fn name_of_class(
    setting: Setting,
    items: &mut Vec<Item>,
    of: TypeId,
    to: TypeId,
    here: Here,
    found: Found,
) -> Result<Found, NoMemory>
    ensures { IfOk result (λ f. Gives setting.entry items.old.items items.new.items f (then_value setting.entry.core.now to (here_view here) Primitive.NameOfClass (operand_of of (here_view here) (now_view found.now) ∷ []) (found_view found))) }
{
    let held = found.held;
    let instance = operand_of(setting.alloc, of, here, found.now);
    let operands = one(setting.alloc, instance)?;
    setting.give(
        items,
        to,
        here,
        Primitive::NameOfClass,
        operands,
        Found::ready(held),
    )
}

/// Whether a reference is not nil, which is looked at where it is.
fn is_some(
    setting: Setting,
    items: &mut Vec<Item>,
    of: TypeId,
    here: Here,
    found: Found,
) -> Result<Found, NoMemory>
    ensures { IfOk result (λ f. Gives setting.entry items.old.items items.new.items f (then_number (here_view here) Primitive.IsSome (operand_of of (here_view here) (now_view found.now) ∷ []) (found_view found))) }
{
    let held = found.held;
    let reference = operand_of(setting.alloc, of, here, found.now);
    let operands = one(setting.alloc, reference)?;
    setting.give_number(items, here, Primitive::IsSome, operands, Found::ready(held))
}

/// A function on the value so far, which is one of its own.
pub fn applied_to(
    setting: Setting,
    items: &mut Vec<Item>,
    function: Function,
    checked: bool,
    of: TypeId,
    to: TypeId,
    here: Here,
    found: Found,
) -> Result<Found, NoMemory>
    ensures { IfOk result (λ f. Gives setting.entry items.old.items items.new.items f (applied_to (env_view setting.entry) function checked of to (here_view here) (found_view found))) }
{
    match function {
        Function::Whole => whole(setting, items, checked, of, to, here, found),
        Function::ClassName => name_of_class(setting, items, of, to, here, found),
        _ => {
            applied(setting, items, function, checked, of, here.first())?;
            Ok(found)
        }
    }
}

/// A function on a value, which becomes one of its own, but for the elements of an open array.
fn on_own(
    setting: Setting,
    items: &mut Vec<Item>,
    function: Function,
    checked: bool,
    of: TypeId,
    to: TypeId,
    here: Here,
    found: Found,
) -> Result<Found, NoMemory>
    ensures { IfOk result (λ f. Gives setting.entry items.old.items items.new.items f (applied_to (env_view setting.entry) function checked of to (here_view here) (in_place_or_own (env_view setting.entry) of (here_view here) (found_view found)))) }
{
    let found = setting.in_place_or_own(items, of, here, found)?;
    applied_to(setting, items, function, checked, of, to, here, found)
}

/// A function of a value that its type alone does not tell.
fn looked_at(
    setting: Setting,
    items: &mut Vec<Item>,
    function: Function,
    checked: bool,
    of: TypeId,
    to: TypeId,
    here: Here,
    found: Found,
) -> Result<Found, NoMemory>
    ensures { IfOk result (λ f. Gives setting.entry items.old.items items.new.items f (applied_by None (env_view setting.entry) function checked of to (here_view here) (found_view found))) }
{
    match function {
        Function::Assigned => is_some(setting, items, of, here, found),
        _ if is_measure(function) => long_by(setting, items, function, of, here, found),
        _ => on_own(setting, items, function, checked, of, to, here, found),
    }
}

/// A function of a value, or of its type alone.
pub fn apply(
    setting: Setting,
    items: &mut Vec<Item>,
    function: Function,
    checked: bool,
    of: TypeId,
    to: TypeId,
    here: Here,
    found: Found,
) -> Result<Found, NoMemory>
    ensures { IfOk result (λ f. Gives setting.entry items.old.items items.new.items f (applied_by (measured setting.entry.core.now function of (now_view found.now)) (env_view setting.entry) function checked of to (here_view here) (found_view found))) }
{
    match measured(setting.core, function, of, &found.now)? {
        None => looked_at(setting, items, function, checked, of, to, here, found),
        Some(n) => {
            setting.number(items, here.first(), n)?;
            Ok(Found::ready(found.held))
        }
    }
}

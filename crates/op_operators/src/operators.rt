//! Operators ("Operators" of the Free Pascal Reference Guide).
ghost use Rattle.std.specs.Prelude.{◌≡◌, ◌+◌, ◌∷◌, [], IfOk, None, Some, map, pos};
ghost use Rattle.op_core.specs.Sizes.{type_at};
ghost use Rattle.op_semantics.specs.Actions.{compare, constant};
ghost use Rattle.op_semantics.specs.Expressions.{beside, found, goes_on_at, holding, is_comparison, on_references, on_texts, on_two, operand_of, own, past_whole, prefix, ready, second_here, then_acts, then_number, two_by};
ghost use Rattle.op_semantics.specs.Items.{act, acts, also, none, only};
ghost use Rattle.op_semantics.specs.Primitives.{a_type};
ghost use Rattle.op_semantics.specs.Shapes.{shape_of};
ghost use Rattle.op_values.specs.Adding.{Adds, Gives, env_view, found_view, now_view, view_in};
ghost use Rattle.op_values.specs.Setting.{here_view};
ghost use Rattle.op_values.specs.Shape.{shape_view};
ghost use Rattle.op_values.specs.View.{view_computation, view_operand};

use op_base::{NoMemory, Sequence};
use op_core::{Core, CoreType, TypeId, type_at};
use op_semantics::Primitive;
use op_tree::{Operator, PrefixOperator};
use op_values::{
    Computation, Found, Here, Item, Now, Operand, Setting, Shape, TemporaryId, next, operand_of,
    shape_of,
};
use std::alloc::Global;

/// The truth value of the left operand with which the right one is evaluated, where that decides anything.
pub fn goes_on_at(operator: Operator, of: Option<CoreType>) -> Option<bool>
    ensures { result ≡ goes_on_at operator of }
{
    match (operator, of) {
        (Operator::And, Some(CoreType::Boolean)) => Some(true),
        (Operator::Or, Some(CoreType::Boolean)) => Some(false),
        _ => None,
    }
}

/// Where the right operand goes: in place of the left one where that decides nothing any more, else behind it.
pub fn second_here(goes_on: Option<bool>, here: Here) -> Result<Here, NoMemory>
    ensures { IfOk result (λ h. here_view h ≡ second_here goes_on (here_view here)) }
{
    match goes_on {
        None => here.past(1),
        Some(_) => Ok(here),
    }
}

/// The right one of two values that are no numbers stands behind the left one.
pub fn beside(shape: Shape, here: Here) -> Result<Here, NoMemory>
    ensures { IfOk result (λ h. here_view h ≡ beside (shape_view shape) (here_view here)) }
{
    match shape {
        Shape::Single(_) => Ok(here),
        Shape::Composite => Ok(here),
        Shape::Chars => here.past_whole(),
        Shape::Elements => here.past_whole(),
        Shape::Instance { .. } => here.past_whole(),
    }
}

/// Where the right operand of an operator goes, whose left one is of the type.
pub fn operand_here(
    core: &Core,
    goes_on: Option<bool>,
    of: TypeId,
    here: Here,
    held: u32,
) -> Result<Here, NoMemory>
    ensures { IfOk result (λ h. here_view h ≡ holding held (beside (shape_of core.now of) (second_here goes_on (here_view here)))) }
{
    let here = second_here(goes_on, here)?;
    let here = beside(shape_of(core, of), here)?;
    Ok(here.holding(held))
}

fn is_comparison(operator: Operator) -> bool
    ensures { result ≡ is_comparison operator }
{
    matches!(
        operator,
        Operator::Equal
            | Operator::NotEqual
            | Operator::Less
            | Operator::Greater
            | Operator::LessEqual
            | Operator::GreaterEqual
    )
}

/// On the left operand in the temporary and the right one in the next one.
fn on_two(
    operator: Operator,
    checked: bool,
    of: Option<CoreType>,
    to: TemporaryId,
) -> Result<Computation, NoMemory>
    ensures { IfOk result (λ c. view_computation c ≡ on_two operator checked of to.0) }
{
    let left = to;
    let right = next(to)?;
    match of {
        Some(CoreType::Set { .. }) => {
            return Ok(Computation::Combine {
                operator,
                to,
                left,
                right,
            });
        }
        _ => {}
    }
    Ok(match operator {
        Operator::In_ => Computation::Contains {
            to,
            element: left,
            set: right,
        },
        _ if is_comparison(operator) => Computation::Compare {
            operator,
            to,
            left,
            right,
        },
        _ => Computation::Arithmetic {
            operator,
            checked,
            to,
            left,
            right,
        },
    })
}

/// On two numbers, or on two sets.
fn on_numbers(
    setting: Setting,
    items: &mut Vec<Item>,
    operator: Operator,
    checked: bool,
    of: TypeId,
    here: Here,
    held: u32,
) -> Result<Found, NoMemory>
    ensures { IfOk result (λ f. Gives setting.entry items.old.items items.new.items f (found (only (act (on_two operator checked (type_at setting.entry.core.now of) (here_view here).temp))) ready held)) }
{
    let of = type_at(setting.core, of);
    setting.compute(items, on_two(operator, checked, of, here.first())?)?;
    Ok(Found::ready(held))
}

/// The order of two texts.
#[tactic(auto, using(crate::proofs::ItemsBehind::behind_behind))]
fn ordered_texts(
    setting: Setting,
    items: &mut Vec<Item>,
    operator: Operator,
    here: Here,
    operands: Sequence<Operand>,
    held: u32,
) -> Result<Found, NoMemory>
    ensures { IfOk result (λ f. Gives setting.entry items.old.items items.new.items f (then_acts (then_number (here_view here) Primitive.CompareTexts (map view_operand operands) (found none ready held)) (constant ((here_view here).temp + 1) (pos 0) ∷ compare operator (here_view here).temp (here_view here).temp ((here_view here).temp + 1) ∷ []))) }
{
    let to = here.first();
    let left = to;
    let right = here.behind(1)?;
    let found = Found::ready(held);
    let found = setting.give_number(items, here, Primitive::CompareTexts, operands, found)?;
    setting.number(items, right, 0)?;
    setting.compute(
        items,
        Computation::Compare {
            operator,
            to,
            left,
            right,
        },
    )?;
    Ok(found)
}

/// Texts are joined, or compared by their order.
pub fn on_texts(
    setting: Setting,
    items: &mut Vec<Item>,
    operator: Operator,
    to: TypeId,
    here: Here,
    operands: Sequence<Operand>,
    held: u32,
) -> Result<Found, NoMemory>
    ensures { IfOk result (λ f. Gives setting.entry items.old.items items.new.items f (on_texts setting.entry.core.now operator to (here_view here) (map view_operand operands) (found none ready held))) }
{
    match operator {
        Operator::Add => {
            let found = Found::ready(held);
            setting.give(items, to, here, Primitive::Concatenate, operands, found)
        }
        _ => ordered_texts(setting, items, operator, here, operands, held),
    }
}

/// Whether two references are not the same.
#[tactic(auto, using(crate::proofs::ItemsBehind::behind_behind))]
fn different(
    setting: Setting,
    items: &mut Vec<Item>,
    here: Here,
    operands: Sequence<Operand>,
    held: u32,
) -> Result<Found, NoMemory>
    ensures { IfOk result (λ f. Gives setting.entry items.old.items items.new.items f (on_references Operator.NotEqual (here_view here) (map view_operand operands) (found none ready held))) }
{
    let to = here.first();
    let from = to;
    let found = Found::ready(held);
    let found = setting.give_number(items, here, Primitive::SameName, operands, found)?;
    setting.compute(items, Computation::Invert { to, from })?;
    Ok(found)
}

/// References are the same, or they are not.
pub fn on_references(
    setting: Setting,
    items: &mut Vec<Item>,
    operator: Operator,
    here: Here,
    operands: Sequence<Operand>,
    held: u32,
) -> Result<Found, NoMemory>
    ensures { IfOk result (λ f. Gives setting.entry items.old.items items.new.items f (on_references operator (here_view here) (map view_operand operands) (found none ready held))) }
{
    match operator {
        Operator::NotEqual => different(setting, items, here, operands, held),
        _ => {
            let found = Found::ready(held);
            setting.give_number(items, here, Primitive::SameName, operands, found)
        }
    }
}

/// Two values that are no numbers, the right one behind the left one.
fn both(
    alloc: Global,
    of: TypeId,
    here: Here,
    left: Now,
    other: TypeId,
    right: Now,
) -> Result<Sequence<Operand>, NoMemory>
    ensures { IfOk result (λ os. map view_operand os ≡ operand_of of (here_view here) (now_view left) ∷ operand_of other (past_whole (here_view here)) (now_view right) ∷ []) }
{
    let inner = here.past_whole()?;
    let left = operand_of(alloc, of, here, left);
    let right = operand_of(alloc, other, inner, right);
    op_values::two(alloc, left, right)
}

/// Two references, or a value and nil, by where they are.
pub fn references(
    setting: Setting,
    items: &mut Vec<Item>,
    operator: Operator,
    of: TypeId,
    here: Here,
    left: Found,
    other: TypeId,
    right: Found,
) -> Result<Found, NoMemory>
    ensures { IfOk result (λ f. Gives setting.entry items.old.items items.new.items f (on_references operator (here_view here) (operand_of of (here_view here) (now_view left.now) ∷ operand_of other (past_whole (here_view here)) (now_view right.now) ∷ []) (found none ready right.held))) }
{
    let operands = both(setting.alloc, of, here, left.now, other, right.now)?;
    on_references(setting, items, operator, here, operands, right.held)
}

/// Two texts, by where they are.
fn texts(
    setting: Setting,
    items: &mut Vec<Item>,
    operator: Operator,
    of: TypeId,
    to: TypeId,
    here: Here,
    left: Found,
    other: TypeId,
    right: Found,
) -> Result<Found, NoMemory>
    ensures { IfOk result (λ f. Gives setting.entry items.old.items items.new.items f (on_texts setting.entry.core.now operator to (here_view here) (operand_of of (here_view here) (now_view left.now) ∷ operand_of other (past_whole (here_view here)) (now_view right.now) ∷ []) (found none ready right.held))) }
{
    let operands = both(setting.alloc, of, here, left.now, other, right.now)?;
    on_texts(setting, items, operator, to, here, operands, right.held)
}

/// An operator on two values of which the right one was evaluated behind the left one.
pub fn two(
    setting: Setting,
    items: &mut Vec<Item>,
    operator: Operator,
    checked: bool,
    of: TypeId,
    to: TypeId,
    here: Here,
    left: Found,
    other: TypeId,
    right: Found,
) -> Result<Found, NoMemory>
    ensures { IfOk result (λ f. Gives setting.entry items.old.items items.new.items f (two_by setting.entry.core.now None operator checked of (shape_of setting.entry.core.now of) to (here_view here) (found_view left) other (found_view right))) }
{
    match shape_of(setting.core, of) {
        Shape::Single(_) => on_numbers(setting, items, operator, checked, of, here, right.held),
        Shape::Composite => on_numbers(setting, items, operator, checked, of, here, right.held),
        Shape::Chars => texts(setting, items, operator, of, to, here, left, other, right),
        Shape::Elements => references(setting, items, operator, of, here, left, other, right),
        Shape::Instance { .. } => references(
            setting, items, operator, of, here, left, other, right,
        ),
    }
}

/// An operator whose right operand is only evaluated, to the same temporary, where the left one is this truth value. Nothing else of the
/// operator counts then.
pub fn also(
    setting: Setting,
    items: &mut Vec<Item>,
    truth: bool,
    here: Here,
    second: Vec<Item>,
    held: u32,
) -> Result<Found, NoMemory>
    ensures { IfOk result (λ f. Gives setting.entry items.old.items items.new.items f (found (only (also truth (here_view here).temp (view_in setting.entry second.items))) ready held)) }
{
    setting.also(items, truth, here.first(), second)?;
    Ok(Found::ready(held))
}

/// An operator in front of a number.
#[tactic(auto, using(crate::proofs::ItemsBehind::behind_none))]
pub fn prefix(
    setting: Setting,
    items: &mut Vec<Item>,
    operator: PrefixOperator,
    checked: bool,
    of: Option<CoreType>,
    to: TemporaryId,
) -> Result<(), NoMemory>
    ensures { IfOk result (λ _. Adds setting.entry items.old.items items.new.items (acts (prefix operator checked of to.0))) }
{
    let from = to;
    match (operator, of) {
        (PrefixOperator::Plus, _) => Ok(()),
        (PrefixOperator::Minus, _) => setting.compute(
            items,
            Computation::Negate { checked, to, from },
        ),
        (PrefixOperator::Not, Some(CoreType::Boolean)) => setting.compute(
            items,
            Computation::Invert { to, from },
        ),
        (PrefixOperator::Not, _) => setting.compute(items, Computation::Complement { to, from }),
    }
}

/// An operator in front of what is so far, which is of the type.
pub fn prefixed(
    setting: Setting,
    items: &mut Vec<Item>,
    operator: PrefixOperator,
    checked: bool,
    of: TypeId,
    here: Here,
    found: Found,
) -> Result<Found, NoMemory>
    ensures { IfOk result (λ f. Gives setting.entry items.old.items items.new.items f (then_acts (own (env_view setting.entry) of (here_view here) (found_view found)) (prefix operator checked (type_at setting.entry.core.now of) (here_view here).temp))) }
{
    let found = setting.own(items, of, here, found)?;
    let of = type_at(setting.core, of);
    prefix(setting, items, operator, checked, of, here.first())?;
    Ok(found)
}

/// Whether an instance in a temporary is one of the other type.
fn looked_up(
    setting: Setting,
    items: &mut Vec<Item>,
    other: TypeId,
    of: TypeId,
    here: Here,
    found: Found,
) -> Result<Found, NoMemory>
    ensures { IfOk result (λ f. Gives setting.entry items.old.items items.new.items f (then_number (here_view here) Primitive.IsInstance (a_type other ∷ operand_of of (here_view here) (now_view found.now) ∷ []) (found_view found))) }
{
    let held = found.held;
    let instance = operand_of(setting.alloc, of, here, found.now);
    let operands = op_values::two(setting.alloc, Operand::OfType(other), instance)?;
    let found = Found::ready(held);
    setting.give_number(items, here, Primitive::IsInstance, operands, found)
}

/// Whether what is so far is an instance of the other type.
pub fn is_instance(
    setting: Setting,
    items: &mut Vec<Item>,
    other: TypeId,
    of: TypeId,
    here: Here,
    found: Found,
) -> Result<Found, NoMemory>
    ensures { IfOk result (λ f. Gives setting.entry items.old.items items.new.items f (then_number (here_view here) Primitive.IsInstance (a_type other ∷ operand_of of (here_view here) (own (env_view setting.entry) of (here_view here) (found_view found)).now ∷ []) (own (env_view setting.entry) of (here_view here) (found_view found)))) }
{
    let found = setting.own(items, of, here, found)?;
    looked_up(setting, items, other, of, here, found)
}

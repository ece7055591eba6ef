//! Bounds and lengths (reference of the unit System, "Low", "High" and "Length").
ghost use Rattle.std.specs.Prelude.{◌≡◌, ◌∷◌, [], IfOk, IfSome, Some, pos};
ghost use Rattle.op_core.specs.Sizes.{IsOrdinalRange, type_at};
ghost use Rattle.op_operators.specs.Measures.{measured_text};
ghost use Rattle.op_core.specs.declared.operation.Function.TheVariants.{Low};
ghost use Rattle.op_core.specs.declared.types.CoreType.TheVariants.{String};
ghost use Rattle.op_semantics.specs.Actions.{constant};
ghost use Rattle.op_semantics.specs.Expressions.{is_measure, last_index, long_by, measured, measured_by, operand_of, then_acts, then_number};
ghost use Rattle.op_semantics.specs.Items.{acts};
ghost use Rattle.op_values.specs.Adding.{Adds, Gives, found_view, now_view};
ghost use Rattle.op_values.specs.Setting.{here_view};

use op_base::NoMemory;
use op_core::{Core, CoreType, Function, TypeId, range_of, type_at};
use op_semantics::Primitive;
use op_tree::Operator;
use op_values::{
    Computation, Found, Here, Item, Now, Setting, TemporaryId, counted_of, next, number, one,
    operand_of,
};

/// How many values a range has, or its first or its last one.
fn measured_by(function: Function, range: Option<(i64, i64)>) -> Result<Option<i32>, NoMemory>
    requires { IfSome range IsOrdinalRange }
    ensures { IfOk result (λ m. m ≡ measured_by function range) }
{
    let Some((low, high)) = range else {
        return Ok(None);
    };
    match function {
        Function::Low => Ok(Some(number(low)?)),
        Function::High => Ok(Some(number(high)?)),
        Function::Length => {
            let count = (high - low).unsigned_abs() + 1;
            Ok(Some(number(count as i64)?))
        }
        _ => Ok(None),
    }
}

/// Of a literal, whose indices begin at 1.
fn measured_text(function: Function, length: u32) -> Result<Option<i32>, NoMemory>
    ensures { IfOk result (λ m. m ≡ measured_text function length) }
{
    match function {
        Function::Length => Ok(Some(number(length as i64)?)),
        _ => measured_by(function, Some((1, length as i64))),
    }
}

/// Where the function is one of the type alone, or of a literal, what it gives.
pub fn measured(
    core: &Core,
    function: Function,
    of: TypeId,
    now: &Now,
) -> Result<Option<i32>, NoMemory>
    ensures { IfOk result (λ m. m ≡ measured core.now function of (now_view now.now)) }
{
    match now {
        Now::Literal(text) => {
            let length = u32::try_from(text.as_slice().len()).map_err(|_| NoMemory)?;
            measured_text(function, length)
        }
        _ => measured_by(function, range_of(core, counted_of(core, of))),
    }
}

pub fn is_measure(function: Function) -> bool
    ensures { result ≡ is_measure function }
{
    matches!(function, Function::Length | Function::Low | Function::High)
}

/// Of the length in the temporary, where indices begin at 0.
#[tactic(auto, using(crate::proofs::ItemsBehind::behind_behind, crate::proofs::ItemsBehind::behind_none))]
fn last_index(
    setting: Setting,
    items: &mut Vec<Item>,
    function: Function,
    to: TemporaryId,
) -> Result<(), NoMemory>
    ensures { IfOk result (λ _. Adds setting.entry items.old.items items.new.items (acts (last_index function to.0))) }
{
    match function {
        Function::High => {
            let right = next(to)?;
            setting.number(items, right, 1)?;
            setting.compute(
                items,
                Computation::Arithmetic {
                    operator: Operator::Subtract,
                    checked: false,
                    to,
                    left: to,
                    right,
                },
            )
        }
        Function::Low => setting.number(items, to, 0),
        _ => Ok(()),
    }
}

/// What a primitive says of what is so far, where it is.
fn length(
    setting: Setting,
    items: &mut Vec<Item>,
    primitive: Primitive,
    of: TypeId,
    here: Here,
    found: Found,
) -> Result<Found, NoMemory>
    ensures { IfOk result (λ f. Gives setting.entry items.old.items items.new.items f (then_number (here_view here) primitive (operand_of of (here_view here) (now_view found.now) ∷ []) (found_view found))) }
{
    let held = found.held;
    let value = operand_of(setting.alloc, of, here, found.now);
    let operands = one(setting.alloc, value)?;
    setting.give_number(items, here, primitive, operands, Found::ready(held))
}

/// The first index of a text, whose length is looked at all the same.
#[tactic(auto, using(crate::proofs::ItemsBehind::behind_behind))]
fn first_of_text(
    setting: Setting,
    items: &mut Vec<Item>,
    of: TypeId,
    here: Here,
    found: Found,
) -> Result<Found, NoMemory>
    ensures { IfOk result (λ f. Gives setting.entry items.old.items items.new.items f (long_by Low of (Some String) (here_view here) (found_view found))) }
{
    let found = length(setting, items, Primitive::TextLength, of, here, found)?;
    setting.number(items, here.first(), 1)?;
    Ok(found)
}

/// Of a text.
fn text_bound(
    setting: Setting,
    items: &mut Vec<Item>,
    function: Function,
    of: TypeId,
    here: Here,
    found: Found,
) -> Result<Found, NoMemory>
    ensures { IfOk result (λ f. Gives setting.entry items.old.items items.new.items f (long_by function of (Some String) (here_view here) (found_view found))) }
{
    match function {
        Function::Low => first_of_text(setting, items, of, here, found),
        _ => length(setting, items, Primitive::TextLength, of, here, found),
    }
}

/// Of an array, whose indices begin at 0.
fn array_bound(
    setting: Setting,
    items: &mut Vec<Item>,
    function: Function,
    of: TypeId,
    here: Here,
    found: Found,
) -> Result<Found, NoMemory>
    ensures { IfOk result (λ f. Gives setting.entry items.old.items items.new.items f (then_acts (then_number (here_view here) Primitive.ArrayLength (operand_of of (here_view here) (now_view found.now) ∷ []) (found_view found)) (last_index function (here_view here).temp))) }
{
    let found = length(setting, items, Primitive::ArrayLength, of, here, found)?;
    last_index(setting, items, function, here.first())?;
    Ok(found)
}

/// The length and the bounds of a text or of an array, which are looked at where they are.
pub fn long_by(
    setting: Setting,
    items: &mut Vec<Item>,
    function: Function,
    of: TypeId,
    here: Here,
    found: Found,
) -> Result<Found, NoMemory>
    ensures { IfOk result (λ f. Gives setting.entry items.old.items items.new.items f (long_by function of (type_at setting.entry.core.now of) (here_view here) (found_view found))) }
{
    match type_at(setting.core, of) {
        Some(CoreType::String) => text_bound(setting, items, function, of, here, found),
        _ => array_bound(setting, items, function, of, here, found),
    }
}

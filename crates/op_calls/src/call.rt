//! Calls, behind what their parameters are given.
ghost use Rattle.std.specs.Prelude.{◌≡◌, ◌∷◌, IfOk, Some, map, slice_get};
ghost use Rattle.op_calls.specs.Passing.{constructed, entered, invoked};
ghost use Rattle.op_semantics.specs.Expressions.{place_for, result_of};
ghost use Rattle.op_semantics.specs.Items.{by_operand};
ghost use Rattle.op_values.specs.Adding.{Gives};
ghost use Rattle.op_values.specs.Setting.{here_view};
ghost use Rattle.op_values.specs.View.{view_given, view_operand};

use crate::receiver::{Placed, place_for, result_of};
use op_base::{NoMemory, Sequence};
use op_core::{ClassId, Dispatch, RoutineId, TypeId};
use op_values::{Found, Given, Here, Item, Operand, Setting};

/// A call of a routine. The first free temporary behind what is given is told, for a value that has to be ended.
pub fn called(
    setting: Setting,
    items: &mut Vec<Item>,
    here: Here,
    routine: RoutineId,
    given: Vec<Given>,
    held: u32,
) -> Result<Found, NoMemory>
    ensures { IfOk result (λ f. Gives setting.entry items.old.items items.new.items f (entered routine.0 (map view_given given.items) (place_for setting.entry.core.now (result_of (slice_get setting.entry.core.now.routines routine.0)) (here_view here) held))) }
{
    let of = result_of(setting.core, routine);
    let Placed {
        receiver,
        now,
        held,
    } = place_for(setting, of, here, held)?;
    let given = Sequence::from(given);
    setting.item(
        items,
        Item::Enter {
            routine,
            given,
            receiver,
        },
    )?;
    Ok(Found::new(now, held))
}

/// A constructor is called on a class, and gives an instance of the type.
pub fn constructed(
    setting: Setting,
    items: &mut Vec<Item>,
    of: TypeId,
    here: Here,
    class: ClassId,
    routine: RoutineId,
    given: Vec<Given>,
    held: u32,
) -> Result<Found, NoMemory>
    ensures { IfOk result (λ f. Gives setting.entry items.old.items items.new.items f (constructed class routine.0 (map view_given given.items) (place_for setting.entry.core.now (Some of) (here_view here) held))) }
{
    let Placed {
        receiver,
        now,
        held,
    } = place_for(setting, Some(of), here, held)?;
    let given = Sequence::from(given);
    setting.item(
        items,
        Item::Construct {
            class,
            routine,
            given,
            receiver,
        },
    )?;
    Ok(Found::new(now, held))
}

/// A method is called of an object of the type.
pub fn invoked(
    setting: Setting,
    items: &mut Vec<Item>,
    of: TypeId,
    here: Here,
    routine: RoutineId,
    dispatch: Dispatch,
    object: Operand,
    given: Vec<Given>,
    held: u32,
) -> Result<Found, NoMemory>
    ensures { IfOk result (λ f. Gives setting.entry items.old.items items.new.items f (invoked routine.0 dispatch of (by_operand (view_operand object) ∷ map view_given given.items) (place_for setting.entry.core.now (result_of (slice_get setting.entry.core.now.routines routine.0)) (here_view here) held))) }
{
    let given = with_object(object, given)?;
    let Placed {
        receiver,
        now,
        held,
    } = place_for(setting, result_of(setting.core, routine), here, held)?;
    setting.item(
        items,
        Item::Invoke {
            routine,
            dispatch,
            of,
            given,
            receiver,
        },
    )?;
    Ok(Found::new(now, held))
}

/// The object is given first.
fn with_object(object: Operand, mut given: Vec<Given>) -> Result<Sequence<Given>, NoMemory>
    ensures { IfOk result (λ all. map view_given all ≡ by_operand (view_operand object) ∷ map view_given given.items) }
{
    given.insert(0, Given::ByOperand(object))?;
    Ok(Sequence::from(given))
}

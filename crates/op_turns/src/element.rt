//! What a loop over a collection does with each element ("The For..in..do statement" of the Free Pascal Reference Guide).
#![tactic(auto, using(crate::proofs::Behind::behind_behind, crate::proofs::Behind::behind_none))]

ghost use Rattle.std.specs.Prelude.{◌≡◌, ◌+◌, ◌∷◌, [], IfOk};
ghost use Rattle.op_semantics.specs.Actions.{constant};
ghost use Rattle.op_semantics.specs.Expressions.{at_path, found, high_in, low_in, then_converted};
ghost use Rattle.op_semantics.specs.Items.{acts, none};
ghost use Rattle.op_semantics.specs.Shapes.{type_of_variable};
ghost use Rattle.op_semantics.specs.Statements.{at_variable, each_stored, in_elements, stored_at, stored_by, variable_path};
ghost use Rattle.op_turns.specs.Parts.{element_stored};
ghost use Rattle.op_values.specs.Adding.{Adds, Gives, env_view, found_view, now_view, view_in};
ghost use Rattle.op_values.specs.Setting.{here_view};

use crate::counting::count_up;
use op_base::NoMemory;
use op_core::{Conversion, TypeId, VariableId};
use op_operators::convert;
use op_scopes::finish;
use op_stores::store_at;
use op_values::{
    Found, Here, Item, Now, Setting, TemporaryId, high_in, low_in, next, type_of_variable,
};

/// Two bounds go to the temporary and to the next one.
pub fn bounds(
    setting: Setting,
    items: &mut Vec<Item>,
    of: TypeId,
    to: TemporaryId,
) -> Result<(), NoMemory>
    ensures { IfOk result (λ _. Adds setting.entry items.old.items items.new.items (acts (constant to.0 (low_in setting.entry.core.now of) ∷ constant (to.0 + 1) (high_in setting.entry.core.now of) ∷ []))) }
{
    let low = low_in(setting.core, of)?;
    let high = high_in(setting.core, of)?;
    setting.number(items, to, low)?;
    setting.number(items, next(to)?, high)
}

/// A value of the variable's type, which was evaluated from one of another type, goes into the variable.
fn into_variable(
    setting: Setting,
    items: &mut Vec<Item>,
    here: Here,
    element: TypeId,
    variable: VariableId,
    value: Found,
) -> Result<(), NoMemory>
    ensures { IfOk result (λ _. Adds setting.entry items.old.items items.new.items (stored_by setting.entry.core.now (type_of_variable setting.entry.core.now variable.0) element (here_view here) (found_view value) (at_variable (env_view setting.entry) value.held variable))) }
{
    let to = type_of_variable(setting.core, variable);
    let place = Now::At(setting.variable(variable));
    store_at(
        setting, items, to, element, here, value.now, value.held, place,
    )
}

/// A copy of the element becomes a value of the variable's type.
fn converted(
    setting: Setting,
    items: &mut Vec<Item>,
    here: Here,
    element: TypeId,
    variable: VariableId,
    conversion: Conversion,
    now: Now,
) -> Result<Found, NoMemory>
    ensures { IfOk result (λ f. Gives setting.entry items.old.items items.new.items f (then_converted (env_view setting.entry) conversion element (type_of_variable setting.entry.core.now variable.0) (here_view here) (found none (now_view now) (here_view here).held) (now_view now))) }
{
    let to = type_of_variable(setting.core, variable);
    let value = Found::new(now, here.held());
    convert(setting, items, conversion, element, to, here, value)
}

/// The items by which an element is stored in the variable.
fn element_stored(
    setting: Setting,
    here: Here,
    element: TypeId,
    variable: VariableId,
    conversion: Conversion,
    now: Now,
) -> Result<Vec<Item>, NoMemory>
    ensures { IfOk result (λ items. view_in setting.entry items.items ≡ element_stored (env_view setting.entry) (here_view here) element variable conversion (now_view now)) }
{
    let mut items = Vec::new(setting.alloc);
    let value = converted(
        setting, &mut items, here, element, variable, conversion, now,
    )?;
    into_variable(setting, &mut items, here, element, variable, value)?;
    Ok(items)
}

/// An element is stored in the variable, and a copy that has to be ended ends next.
fn each_stored(
    setting: Setting,
    items: &mut Vec<Item>,
    here: Here,
    element: TypeId,
    variable: VariableId,
    conversion: Conversion,
    now: Now,
) -> Result<(), NoMemory>
    ensures { IfOk result (λ _. Adds setting.entry items.old.items items.new.items (each_stored (env_view setting.entry) (here_view here) element variable conversion (found none (now_view now) (here_view here).held))) }
{
    let inner = element_stored(setting, here, element, variable, conversion, now)?;
    finish(setting, inner, items)
}

/// The turns for the elements from the number in the first temporary to that in the second one. An element is where the counter says.
pub fn in_elements(
    setting: Setting,
    items: &mut Vec<Item>,
    here: Here,
    now: Now,
    element: TypeId,
    variable: VariableId,
    conversion: Conversion,
    body: Vec<Item>,
) -> Result<(), NoMemory>
    ensures { IfOk result (λ _. Adds setting.entry items.old.items items.new.items (in_elements (env_view setting.entry) (here_view here) (now_view now) element variable conversion (view_in setting.entry body.items))) }
{
    let there = here.past_whole()?.past(3)?;
    let mut turn = Vec::new(setting.alloc);
    each_stored(
        setting, &mut turn, there, element, variable, conversion, now,
    )?;
    setting.items(&mut turn, body)?;
    count_up(setting, items, here.first(), turn)
}

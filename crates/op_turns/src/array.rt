//! Loops over arrays ("The For..in..do statement" of the Free Pascal Reference Guide).
#![tactic(auto, using(crate::proofs::Behind::behind_behind, crate::proofs::Behind::behind_none))]

ghost use Rattle.std.specs.Prelude.{◌≡◌, ◌+◌, ◌∷◌, [], IfOk, false, pos};
ghost use Rattle.op_core.specs.Sizes.{type_at};
ghost use Rattle.op_semantics.specs.Actions.{arithmetic, constant, primitive};
ghost use Rattle.op_semantics.specs.Expressions.{at_path, element_step, index_step};
ghost use Rattle.op_semantics.specs.Items.{acts};
ghost use Rattle.op_semantics.specs.Paths.{with_step};
ghost use Rattle.op_semantics.specs.Primitives.{in_temp, value_of};
ghost use Rattle.op_semantics.specs.Statements.{in_array, in_elements, in_list};
ghost use Rattle.op_values.specs.Adding.{Adds, env_view, view_in};
ghost use Rattle.op_values.specs.Setting.{here_view};
ghost use Rattle.op_values.specs.View.{view_path, view_step};

use crate::counting::if_any;
use crate::element::{bounds, in_elements};
use op_base::NoMemory;
use op_core::{Conversion, TypeId, VariableId};
use op_operators::{element_step, index_step};
use op_semantics::Primitive;
use op_tree::Operator;
use op_values::{
    Computation, Destination, Here, Item, Now, Operand, Path, Setting, Step, TemporaryId, copy_of,
    counted_of, next, one, with_step,
};

/// Behind an array with bounds, which is at the place: its elements in ascending order.
pub fn in_array(
    setting: Setting,
    items: &mut Vec<Item>,
    here: Here,
    of: TypeId,
    element: TypeId,
    path: Path,
    variable: VariableId,
    conversion: Conversion,
    body: Vec<Item>,
) -> Result<(), NoMemory>
    ensures { IfOk result (λ _. Adds setting.entry items.old.items items.new.items (in_array (env_view setting.entry) (here_view here) of element (view_path path) variable conversion (view_in setting.entry body.items))) }
{
    let counter = here.first();
    bounds(setting, items, counted_of(setting.core, of), counter)?;
    let step = element_step(setting.core, of, counter)?;
    let now = Now::At(with_step(path, step)?);
    in_elements(
        setting, items, here, now, element, variable, conversion, body,
    )
}

/// The number of the last element goes to the temporary behind the counter, which begins at 0.
fn list_bounds(
    setting: Setting,
    items: &mut Vec<Item>,
    counter: TemporaryId,
    path: Path,
) -> Result<(), NoMemory>
    ensures { IfOk result (λ _. Adds setting.entry items.old.items items.new.items (acts (primitive Primitive.ArrayLength (value_of (view_path path) ∷ []) (in_temp (counter.0 + 1)) ∷ constant counter.0 (pos 1) ∷ arithmetic Operator.Subtract false (counter.0 + 1) (counter.0 + 1) counter.0 ∷ constant counter.0 (pos 0) ∷ []))) }
{
    let last = next(counter)?;
    let operands = one(setting.alloc, Operand::Value(path))?;
    setting.primitive(
        items,
        Primitive::ArrayLength,
        operands,
        Destination::InTemporary(last),
    )?;
    setting.number(items, counter, 1)?;
    setting.compute(
        items,
        Computation::Arithmetic {
            operator: Operator::Subtract,
            checked: false,
            to: last,
            left: last,
            right: counter,
        },
    )?;
    setting.number(items, counter, 0)
}

/// The turns for the elements behind the step, from the number in the first temporary to that in the second one.
fn in_places(
    setting: Setting,
    here: Here,
    step: Step,
    path: &Path,
    element: TypeId,
    variable: VariableId,
    conversion: Conversion,
    body: Vec<Item>,
) -> Result<Vec<Item>, NoMemory>
    ensures { IfOk result (λ turns. view_in setting.entry turns.items ≡ in_elements (env_view setting.entry) (here_view here) (at_path (with_step (view_step step) (view_path path.now))) element variable conversion (view_in setting.entry body.items)) }
{
    let place = with_step(copy_of(setting.alloc, path)?, step)?;
    let now = Now::At(place);
    let mut turns = Vec::new(setting.alloc);
    in_elements(
        setting, &mut turns, here, now, element, variable, conversion, body,
    )?;
    Ok(turns)
}

/// The turns for as many elements behind the step as the array at the place has.
fn in_steps(
    setting: Setting,
    items: &mut Vec<Item>,
    here: Here,
    step: Step,
    path: Path,
    element: TypeId,
    variable: VariableId,
    conversion: Conversion,
    body: Vec<Item>,
) -> Result<(), NoMemory>
    ensures { IfOk result (λ _. Adds setting.entry items.old.items items.new.items (in_list (env_view setting.entry) (here_view here) (view_step step) (view_path path) element variable conversion (view_in setting.entry body.items))) }
{
    let turns = in_places(
        setting, here, step, &path, element, variable, conversion, body,
    )?;
    list_bounds(setting, items, here.first(), path)?;
    if_any(setting, items, here, turns)
}

/// Behind a dynamic or an open array, which is at the place: its elements in ascending order.
pub fn in_list(
    setting: Setting,
    items: &mut Vec<Item>,
    here: Here,
    of: TypeId,
    element: TypeId,
    path: Path,
    variable: VariableId,
    conversion: Conversion,
    body: Vec<Item>,
) -> Result<(), NoMemory>
    ensures { IfOk result (λ _. Adds setting.entry items.old.items items.new.items (in_list (env_view setting.entry) (here_view here) (index_step setting.entry.core.now of (type_at setting.entry.core.now of) (here_view here).temp (view_path path)) (view_path path) element variable conversion (view_in setting.entry body.items))) }
{
    let step = index_step(setting.core, of, here.first(), &path)?;
    in_steps(
        setting, items, here, step, path, element, variable, conversion, body,
    )
}

//! Loops over sets ("The For..in..do statement" of the Free Pascal Reference Guide).
#![tactic(auto, using(crate::proofs::Behind::behind_behind, crate::proofs::Behind::behind_none))]

ghost use Rattle.std.specs.Prelude.{◌≡◌, ◌+◌, IfOk};
ghost use Rattle.op_semantics.specs.Statements.{in_set};
ghost use Rattle.op_turns.specs.Parts.{member_stored, turn_of_set};
ghost use Rattle.op_values.specs.Adding.{Adds, env_view, view_in};
ghost use Rattle.op_values.specs.Setting.{here_view};

use crate::counting::count_up;
use crate::element::bounds;
use op_base::NoMemory;
use op_core::{Conversion, TypeId, VariableId};
use op_operators::{check, converted};
use op_stores::store_variable;
use op_values::{Computation, Here, Item, Setting, TemporaryId, behind, next, type_of_variable};

/// The number in the second temporary becomes a value of the variable's type, and is stored in it.
fn member_stored(
    setting: Setting,
    set: TemporaryId,
    base: TypeId,
    variable: VariableId,
    conversion: Conversion,
    body: Vec<Item>,
) -> Result<Vec<Item>, NoMemory>
    ensures { IfOk result (λ items. view_in setting.entry items.items ≡ member_stored (env_view setting.entry) set.0 base variable conversion (view_in setting.entry body.items)) }
{
    let to = behind(set, 4)?;
    let of = type_of_variable(setting.core, variable);
    let mut items = Vec::new(setting.alloc);
    check(setting, &mut items, base, to, next(set)?)?;
    converted(setting, &mut items, conversion, of, to)?;
    store_variable(setting, &mut items, variable, to)?;
    setting.items(&mut items, body)?;
    Ok(items)
}

/// Where the number in the second temporary is in the set, there is a turn for it.
fn turn_of_set(
    setting: Setting,
    set: TemporaryId,
    base: TypeId,
    variable: VariableId,
    conversion: Conversion,
    body: Vec<Item>,
) -> Result<Vec<Item>, NoMemory>
    ensures { IfOk result (λ turn. view_in setting.entry turn.items ≡ turn_of_set (env_view setting.entry) set.0 base variable conversion (view_in setting.entry body.items)) }
{
    let element = next(set)?;
    let to = behind(set, 4)?;
    let first = member_stored(setting, set, base, variable, conversion, body)?;
    let mut turn = Vec::new(setting.alloc);
    setting.compute(&mut turn, Computation::Contains { to, element, set })?;
    setting.choose(&mut turn, to, first, Vec::new(setting.alloc))?;
    Ok(turn)
}

/// Behind a set in the first temporary: those of the base's values that are in it.
pub fn in_set(
    setting: Setting,
    items: &mut Vec<Item>,
    here: Here,
    base: TypeId,
    variable: VariableId,
    conversion: Conversion,
    body: Vec<Item>,
) -> Result<(), NoMemory>
    ensures { IfOk result (λ _. Adds setting.entry items.old.items items.new.items (in_set (env_view setting.entry) (here_view here) base variable conversion (view_in setting.entry body.items))) }
{
    let counter = here.behind(1)?;
    bounds(setting, items, base, counter)?;
    let turn = turn_of_set(setting, here.first(), base, variable, conversion, body)?;
    count_up(setting, items, counter, turn)
}

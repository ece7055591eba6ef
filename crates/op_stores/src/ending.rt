//! Free, FreeAndNil and calls of a destructor ("Class destruction" of the Free Pascal Reference Guide).
#![tactic(auto, using(crate::proofs::Behind::behind_behind, crate::proofs::Behind::behind_none))]

ghost use Rattle.std.specs.Prelude.{◌≡◌, ◌∷◌, [], IfOk};
ghost use Rattle.op_semantics.specs.Actions.{primitive};
ghost use Rattle.op_semantics.specs.Items.{act, only};
ghost use Rattle.op_semantics.specs.Primitives.{nil_of, over_place};
ghost use Rattle.op_semantics.specs.Statements.{freed_and_nil, freed_at, freed_by};
ghost use Rattle.op_values.specs.Adding.{Adds, Gives, found_view};
ghost use Rattle.op_values.specs.Setting.{here_view};
ghost use Rattle.op_values.specs.View.{view_path};

use crate::counting::path_again;
use op_base::NoMemory;
use op_core::TypeId;
use op_semantics::Primitive;
use op_values::{Destination, Found, Here, Item, Operand, Path, Setting, one, path_of};

/// The instance at the place is freed; `takes_nil` says that nil is left alone.
pub fn freed_at(
    setting: Setting,
    items: &mut Vec<Item>,
    here: Here,
    of: TypeId,
    takes_nil: bool,
    object: Found,
) -> Result<Found, NoMemory>
    ensures { IfOk result (λ f. Gives setting.entry items.old.items items.new.items f (freed_at (here_view here) of takes_nil (found_view object))) }
{
    let held = object.held;
    let at = path_of(setting.alloc, of, here, object.now);
    setting.item(items, Item::Free { takes_nil, at })?;
    Ok(Found::ready(held))
}

/// The place becomes nil.
fn set_to_nil(setting: Setting, items: &mut Vec<Item>, of: TypeId, to: Path) -> Result<(), NoMemory>
    ensures { IfOk result (λ _. Adds setting.entry items.old.items items.new.items (only (act (primitive Primitive.Same (nil_of of ∷ []) (over_place (view_path to)))))) }
{
    let operands = one(setting.alloc, Operand::Nil(of))?;
    setting.primitive(
        items,
        Primitive::Same,
        operands,
        Destination::OverPlace { to },
    )
}

/// The place becomes nil first, and then what was there is freed.
pub fn freed_and_nil(
    setting: Setting,
    items: &mut Vec<Item>,
    here: Here,
    of: TypeId,
    object: Found,
) -> Result<Found, NoMemory>
    ensures { IfOk result (λ f. Gives setting.entry items.old.items items.new.items f (freed_and_nil setting.entry.core.now (here_view here) of (found_view object))) }
{
    let to = path_again(setting.alloc, of, here, &object.now)?;
    let behind = here.past_whole()?;
    let object = setting.own(items, of, behind, object)?;
    set_to_nil(setting, items, of, to)?;
    freed_at(setting, items, behind, of, true, object)
}

/// Free, and FreeAndNil, which empties the place.
pub fn freed_by(
    setting: Setting,
    items: &mut Vec<Item>,
    here: Here,
    of: TypeId,
    empties: bool,
    object: Found,
) -> Result<Found, NoMemory>
    ensures { IfOk result (λ f. Gives setting.entry items.old.items items.new.items f (freed_by setting.entry.core.now (here_view here) of empties (found_view object))) }
{
    if empties {
        freed_and_nil(setting, items, here, of, object)
    } else {
        freed_at(setting, items, here, of, true, object)
    }
}

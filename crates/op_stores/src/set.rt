//! Include and Exclude (reference of the unit System): the place of the set is found once.
#![tactic(auto, using(crate::proofs::Behind::behind_behind, crate::proofs::Behind::behind_none))]

ghost use Rattle.std.specs.Prelude.{◌≡◌, ◌+◌, IfOk};
ghost use Rattle.op_semantics.specs.Expressions.{path_of};
ghost use Rattle.op_stores.specs.Parts.{changed_behind};
ghost use Rattle.op_values.specs.Adding.{Adds, now_view};
ghost use Rattle.op_values.specs.Setting.{here_view};
ghost use Rattle.op_values.specs.View.{view_path};

use op_base::NoMemory;
use op_core::{IntegerKind, TypeId};
use op_tree::Operator;
use op_values::{
    Action, Computation, Found, Here, Item, Path, Setting, TemporaryId, copy_of, next, path_of,
};

/// The element in the next temporary is joined to the set at a place, or taken out of it.
fn join(
    setting: Setting,
    items: &mut Vec<Item>,
    operator: Operator,
    place: Path,
    to: TemporaryId,
) -> Result<(), NoMemory>
    ensures { IfOk result (λ _. Adds setting.entry items.old.items items.new.items (changed_behind operator to.0 (view_path place))) }
{
    let kind = IntegerKind::Signed32;
    let right = next(to)?;
    let from = copy_of(setting.alloc, &place)?;
    setting.compute(
        items,
        Computation::Single {
            to: right,
            from: right,
        },
    )?;
    setting.act(items, Action::Load { to, kind, from })?;
    setting.compute(
        items,
        Computation::Combine {
            operator,
            to,
            left: to,
            right,
        },
    )?;
    setting.act(
        items,
        Action::Store {
            to: place,
            kind,
            from: to,
        },
    )
}

/// Behind the element, which is in the second temporary behind the indices: by `Add` it is in the set then, by `Subtract` it is not.
pub fn change_set(
    setting: Setting,
    items: &mut Vec<Item>,
    operator: Operator,
    of: TypeId,
    here: Here,
    set: Found,
) -> Result<(), NoMemory>
    ensures { IfOk result (λ _. Adds setting.entry items.old.items items.new.items (changed_behind operator ((here_view here).temp + set.used) (path_of of (here_view here) (now_view set.now)))) }
{
    let to = here.behind(set.used)?;
    let place = path_of(setting.alloc, of, here, set.now);
    join(setting, items, operator, place, to)
}

//! Elements of arrays and Chars of texts ("Arrays" and "Strings" of the Free Pascal Reference Guide).
ghost use Rattle.std.specs.Prelude.{◌≡◌, ◌+◌, IfOk};
ghost use Rattle.op_core.specs.Sizes.{type_at};
ghost use Rattle.op_semantics.specs.Actions.{pick};
ghost use Rattle.op_semantics.specs.Expressions.{a_char, element_step, found, index_step, open_step, operand_of, path_of, ready, then_element, then_index, then_step};
ghost use Rattle.op_semantics.specs.Items.{act, none, only};
ghost use Rattle.op_values.specs.Adding.{Gives, found_view, now_view};
ghost use Rattle.op_values.specs.Setting.{here_view};
ghost use Rattle.op_values.specs.View.{view_path, view_root, view_step};

use op_base::NoMemory;
use op_core::{Core, CoreType, TypeId, type_at};
use op_scan::CompactText;
use op_values::{
    Action, Found, Here, Item, Now, Path, Root, Setting, Step, TemporaryId, counted_of, high_in,
    low_in, operand_of, path_of, sum, with_step,
};

/// To the element of an array with bounds whose index is in the temporary.
pub fn element_step(core: &Core, of: TypeId, index: TemporaryId) -> Result<Step, NoMemory>
    ensures { IfOk result (λ s. view_step s ≡ element_step core.now of index.0) }
{
    let counted = counted_of(core, of);
    let low = low_in(core, counted)?;
    let high = high_in(core, counted)?;
    Ok(Step::Element {
        of,
        low,
        high,
        index,
    })
}

/// To an element of what is at the path. The index is in the temporary.
pub fn index_step(
    core: &Core,
    of: TypeId,
    index: TemporaryId,
    path: &Path,
) -> Result<Step, NoMemory>
    ensures { IfOk result (λ s. view_step s ≡ index_step core.now of (type_at core.now of) index.0 (view_path path.now)) }
{
    match type_at(core, of) {
        Some(CoreType::DynamicArray { .. }) => Ok(Step::OfArray { of, index }),
        Some(CoreType::OpenArray { .. }) => Ok(open_step(of, index, path.root)),
        _ => element_step(core, of, index),
    }
}

/// The elements of an open array that is given by reference are where its parameter leads.
fn open_step(of: TypeId, index: TemporaryId, root: Root) -> Step
    ensures { view_step result ≡ open_step of index.0 (view_root root) }
{
    match root {
        Root::Through { .. } => Step::OfOpen { of, index },
        _ => Step::OfArray { of, index },
    }
}

/// A Char of a text, which is looked at where it is.
fn char_of(
    setting: Setting,
    of: TypeId,
    here: Here,
    found: Found,
    held: u32,
) -> Result<Found, NoMemory>
    ensures { IfOk result (λ f. found_view f ≡ record { items = none; now = a_char (operand_of of (here_view here) (now_view found.now)) ((here_view here).temp + found.used); used = found.used + 1; held = held }) }
{
    let index = here.behind(found.used)?;
    let used = sum(found.used, 1)?;
    let text = operand_of(setting.alloc, of, here, found.now);
    Ok(Found {
        now: Now::Char { text, index },
        used,
        held,
    })
}

/// An element of an array.
fn array_element(
    setting: Setting,
    of: TypeId,
    here: Here,
    found: Found,
    held: u32,
) -> Result<Found, NoMemory>
    ensures { IfOk result (λ f. found_view f ≡ then_step of (here_view here) (index_step setting.entry.core.now of (type_at setting.entry.core.now of) ((here_view here).temp + found.used) (path_of of (here_view here) (now_view found.now))) 1 (record (found_view found) { held = held })) }
{
    let index = here.behind(found.used)?;
    let used = sum(found.used, 1)?;
    let path = path_of(setting.alloc, of, here, found.now);
    let step = index_step(setting.core, of, index, &path)?;
    let path = with_step(path, step)?;
    Ok(Found {
        now: Now::At(path),
        used,
        held,
    })
}

/// The index was evaluated behind the temporaries of the indices in front of it.
fn element(
    setting: Setting,
    of: TypeId,
    here: Here,
    array: Found,
    index: Found,
) -> Result<Found, NoMemory>
    ensures { IfOk result (λ f. found_view f ≡ then_element setting.entry.core.now of (type_at setting.entry.core.now of) (here_view here) (found_view array) (found_view index)) }
{
    let held = held_of(index);
    match type_at(setting.core, of) {
        Some(CoreType::String) => char_of(setting, of, here, array, held),
        _ => array_element(setting, of, here, array, held),
    }
}

/// Only what it leaves free counts.
fn held_of(found: Found) -> u32
    ensures { result ≡ found.held }
{
    found.held
}

/// A Char of a literal.
fn picked(
    setting: Setting,
    items: &mut Vec<Item>,
    here: Here,
    text: CompactText,
    held: u32,
) -> Result<Found, NoMemory>
    ensures { IfOk result (λ f. Gives setting.entry items.old.items items.new.items f (found (only (act (pick (here_view here).temp text (here_view here).temp))) ready held)) }
{
    let to = here.first();
    let index = to;
    setting.act(items, Action::Pick { to, text, index })?;
    Ok(Found::ready(held))
}

/// An element of what is so far, or a Char of a text. The index was evaluated behind it.
#[tactic(auto, using(crate::proofs::ItemsBehind::behind_none))]
pub fn indexed(
    setting: Setting,
    items: &mut Vec<Item>,
    of: TypeId,
    here: Here,
    found: Found,
    index: Found,
) -> Result<Found, NoMemory>
    ensures { IfOk result (λ f. Gives setting.entry items.old.items items.new.items f (then_index setting.entry.core.now of (here_view here) (found_view found) (found_view index))) }
{
    let Found { now, used, held } = found;
    match now {
        Now::Literal(text) => picked(setting, items, here, text, held_of(index)),
        now => element(setting, of, here, Found { now, used, held }, index),
    }
}

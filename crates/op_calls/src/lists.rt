//! Lists of values for an open array ("Open array parameters" of the Free Pascal Reference Guide).
ghost use Rattle.std.specs.Prelude.{◌≡◌, ◌∷◌, ◌+◌, [], IfOk, pos};
ghost use Rattle.op_calls.specs.Passing.{element_given};
ghost use Rattle.op_core.specs.Sizes.{type_at};
ghost use Rattle.op_semantics.specs.Actions.{constant, primitive};
ghost use Rattle.op_semantics.specs.Expressions.{element_of, list_found, list_made, list_path, part_given};
ghost use Rattle.op_semantics.specs.Items.{act, acts, none, only};
ghost use Rattle.op_semantics.specs.Paths.{field, with_step};
ghost use Rattle.op_semantics.specs.Primitives.{a_type, from_temp};
ghost use Rattle.op_semantics.specs.Shapes.{composite, of_chars, shape_of};
ghost use Rattle.op_values.specs.Adding.{Adds, Gives, now_view, view_in};
ghost use Rattle.op_values.specs.Setting.{here_view};
ghost use Rattle.op_values.specs.View.{view_destination, view_path};

use op_base::NoMemory;
use op_core::TypeId;
use op_semantics::Primitive;
use op_values::{
    Action, Destination, Found, Here, Item, Now, Operand, Path, Setting, Shape, Step, TemporaryId,
    element_of, held_path, is_managed, one, operand_of, path_of, shape_of, two, with_step,
};
use std::alloc::Global;

// ---- one value

/// The place of the part with this number of the list with this number.
pub fn part_path(alloc: Global, of: TypeId, list: u32, part: u32) -> Result<Path, NoMemory>
    ensures { IfOk result (λ p. view_path p ≡ with_step (field of part) (list_path of list)) }
{
    with_step(held_path(alloc, of, list), Step::Field { of, number: part })
}

/// A value that was evaluated becomes the part with this number of the list with this number, which is of the first type.
pub fn element_given(
    setting: Setting,
    items: &mut Vec<Item>,
    of: TypeId,
    list: u32,
    part: u32,
    here: Here,
    now: Now,
) -> Result<(), NoMemory>
    ensures { IfOk result (λ _. Adds setting.entry items.old.items items.new.items (element_given setting.entry.core.now of list part (here_view here) (now_view now))) }
{
    let to = part_path(setting.alloc, of, list, part)?;
    part_given(setting, items, element_of(setting.core, of), here, now, to)
}

/// A value of the type, which was evaluated, becomes what is at a part of a list.
pub fn part_given(
    setting: Setting,
    items: &mut Vec<Item>,
    of: TypeId,
    here: Here,
    now: Now,
    to: Path,
) -> Result<(), NoMemory>
    ensures { IfOk result (λ _. Adds setting.entry items.old.items items.new.items (part_given setting.entry.core.now (shape_of setting.entry.core.now of) of (here_view here) (now_view now) (view_path to))) }
{
    match shape_of(setting.core, of) {
        Shape::Single(kind) => setting.act(
            items,
            Action::Store {
                to,
                kind,
                from: here.first(),
            },
        ),
        Shape::Composite => parts_given(setting, items, of, here, now, to),
        Shape::Chars => name_given(setting, items, of, here, now, to),
        Shape::Elements => name_given(setting, items, of, here, now, to),
        Shape::Instance { .. } => name_given(setting, items, of, here, now, to),
    }
}

/// A record or an array with bounds.
fn parts_given(
    setting: Setting,
    items: &mut Vec<Item>,
    of: TypeId,
    here: Here,
    now: Now,
    to: Path,
) -> Result<(), NoMemory>
    ensures { IfOk result (λ _. Adds setting.entry items.old.items items.new.items (part_given setting.entry.core.now composite of (here_view here) (now_view now) (view_path to))) }
{
    if is_managed(setting.core, of) {
        return name_given(setting, items, of, here, now, to);
    }
    let from = path_of(setting.alloc, of, here, now);
    setting.act(items, Action::Copy { of, to, from })
}

/// Any other value that is no number.
fn name_given(
    setting: Setting,
    items: &mut Vec<Item>,
    of: TypeId,
    here: Here,
    now: Now,
    to: Path,
) -> Result<(), NoMemory>
    ensures { IfOk result (λ _. Adds setting.entry items.old.items items.new.items (part_given setting.entry.core.now of_chars of (here_view here) (now_view now) (view_path to))) }
{
    let operands = one(setting.alloc, operand_of(setting.alloc, of, here, now))?;
    setting.primitive(
        items,
        Primitive::Same,
        operands,
        Destination::OverPlace { to },
    )
}

// ---- the whole list

/// The list with this number of so many values, all of which were evaluated: it is made, and then the items give it its parts.
pub fn list(
    setting: Setting,
    items: &mut Vec<Item>,
    of: TypeId,
    here: Here,
    first: u32,
    parts: Vec<Item>,
    count: u32,
    held: u32,
) -> Result<Found, NoMemory>
    ensures { IfOk result (λ f. Gives setting.entry items.old.items items.new.items f (list_found setting.entry.core.now of (here_view here) first (record { items = none; given = view_in setting.entry parts.items; count = count; held = held }))) }
{
    list_begun(setting, items, of, here, first, count)?;
    setting.items(items, parts)?;
    let path = held_path(setting.alloc, of, first);
    Ok(Found::new(Now::Owned(path), held))
}

/// A list of so many elements, which are zero, empty or nil.
fn list_begun(
    setting: Setting,
    items: &mut Vec<Item>,
    of: TypeId,
    here: Here,
    first: u32,
    count: u32,
) -> Result<(), NoMemory>
    ensures { IfOk result (λ _. Adds setting.entry items.old.items items.new.items (acts (constant ((here_view here).temp + count) (pos count) ∷ primitive Primitive.NewList (a_type (element_of (type_at setting.entry.core.now of)) ∷ from_temp ((here_view here).temp + count) ∷ []) (list_made setting.entry.core.now of first) ∷ []))) }
{
    let length = here.behind(count)?;
    let value = length_of(count)?;
    setting.number(items, length, value)?;
    list_new(setting, items, of, first, length)
}

/// A length as an Integer. No list of values that fits in memory is longer.
fn length_of(count: u32) -> Result<i32, NoMemory>
    ensures { IfOk result (λ n. n ≡ pos count) }
{
    i32::try_from(count).map_err(|_| NoMemory)
}

/// The length is in a temporary.
fn list_new(
    setting: Setting,
    items: &mut Vec<Item>,
    of: TypeId,
    first: u32,
    length: TemporaryId,
) -> Result<(), NoMemory>
    ensures { IfOk result (λ _. Adds setting.entry items.old.items items.new.items (only (act (primitive Primitive.NewList (a_type (element_of (type_at setting.entry.core.now of)) ∷ from_temp length.0 ∷ []) (list_made setting.entry.core.now of first))))) }
{
    let element = Operand::OfType(element_of(setting.core, of));
    let operands = two(setting.alloc, element, Operand::Number(length))?;
    let to = list_made(setting, of, first);
    setting.primitive(items, Primitive::NewList, operands, to)
}

/// Where a list with this number is made: it has to be ended where its elements have.
fn list_made(setting: Setting, of: TypeId, first: u32) -> Destination
    ensures { view_destination result ≡ list_made setting.entry.core.now of first }
{
    if is_managed(setting.core, element_of(setting.core, of)) {
        return Destination::InNew { of, number: first };
    }
    Destination::OverPlace {
        to: held_path(setting.alloc, of, first),
    }
}

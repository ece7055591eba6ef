//! SetLength, Str and Val (reference of the unit System).
#![tactic(auto, using(crate::proofs::Behind::behind_behind, crate::proofs::Behind::behind_none))]

ghost use Rattle.std.specs.Prelude.{◌≡◌, ◌+◌, ◌∷◌, [], IfOk};
ghost use Rattle.op_core.specs.Sizes.{type_at};
ghost use Rattle.op_core.specs.Statement.{target_of};
ghost use Rattle.op_core.specs.StatementTyping.{host};
ghost use Rattle.op_semantics.specs.Actions.{primitive};
ghost use Rattle.op_semantics.specs.Expressions.{found, ready};
ghost use Rattle.op_semantics.specs.Items.{act, none, only};
ghost use Rattle.op_semantics.specs.Primitives.{from_temp, in_new};
ghost use Rattle.op_semantics.specs.Statements.{denoted_at, put_into, resize_operands, resize_row, row_of, str_row, str_stored, val_into, with_length, written_operand};
ghost use Rattle.op_values.specs.Adding.{Adds, Gives, env_view, found_view, now_view};
ghost use Rattle.op_values.specs.Setting.{here_view};
ghost use Rattle.op_values.specs.View.{view_operand, view_path};

use crate::assignment::{put_into, put_value};
use crate::counting::operand_again;
use crate::reading::store_number;
use crate::writing::written_operand;
use op_base::NoMemory;
use op_core::{Conversion, CoreTarget, CoreType, TypeId, type_at};
use op_semantics::Primitive;
use op_values::{
    Destination, Found, Here, Item, Now, Operand, Path, Setting, TemporaryId, copy_of, held_path,
    host, one, path_of, sum, three, two, type_of,
};

/// The text or the array at the place gets the length that is in the temporary.
fn resize(
    setting: Setting,
    items: &mut Vec<Item>,
    of: TypeId,
    place: Path,
    length: TemporaryId,
    held: u32,
) -> Result<(), NoMemory>
    ensures { IfOk result (λ _. Adds setting.entry items.old.items items.new.items (put_into setting.entry.core.now of (resize_row (type_at setting.entry.core.now of)) (resize_operands (type_at setting.entry.core.now of) (view_operand (Operand.Value place) ∷ from_temp length.0 ∷ [])) (view_path place) held)) }
{
    let from = Operand::Value(copy_of(setting.alloc, &place)?);
    let length = Operand::Number(length);
    match type_at(setting.core, of) {
        Some(CoreType::DynamicArray { element }) => {
            let operands = three(setting.alloc, Operand::OfType(element), from, length)?;
            put_into(
                setting,
                items,
                of,
                Primitive::ResizeArray,
                operands,
                place,
                held,
            )
        }
        _ => {
            let operands = two(setting.alloc, from, length)?;
            put_into(
                setting,
                items,
                of,
                Primitive::ResizeText,
                operands,
                place,
                held,
            )
        }
    }
}

/// SetLength, behind the place and the length.
pub fn with_length(
    setting: Setting,
    items: &mut Vec<Item>,
    here: Here,
    of: TypeId,
    place: Found,
    held: u32,
) -> Result<Found, NoMemory>
    ensures { IfOk result (λ f. Gives setting.entry items.old.items items.new.items f (with_length (env_view setting.entry) (here_view here) of (found_view place) (found none ready held))) }
{
    let length = here.behind(place.used)?;
    let place = path_of(setting.alloc, of, here, place.now);
    resize(setting, items, of, place, length, held)?;
    Ok(Found::ready(sum(held, 1)?))
}

fn str_row(of: Option<CoreType>) -> Primitive
    ensures { result ≡ str_row of }
{
    match of {
        Some(CoreType::Boolean) => Primitive::StrTruth,
        Some(CoreType::Char) => Primitive::StrChar,
        Some(CoreType::String) => Primitive::StrText,
        _ => Primitive::StrNumber,
    }
}

/// What makes a text of a value of the type. A literal is a text, whatever its type is.
fn denoting(of: Option<CoreType>, now: &Now) -> Primitive
    ensures { result ≡ row_of str_row Primitive.StrText of (now_view now.now) }
{
    match now {
        Now::Literal(_) => Primitive::StrText,
        Now::Ready => str_row(of),
        Now::At(_) => str_row(of),
        Now::Owned(_) => str_row(of),
        Now::Nil(_) => str_row(of),
        Now::Char { .. } => str_row(of),
    }
}

/// The text of a value, to the width in the second temporary, goes to a new temporary.
fn denote(
    setting: Setting,
    items: &mut Vec<Item>,
    here: Here,
    of: TypeId,
    now: Now,
    to: TypeId,
    number: u32,
) -> Result<(), NoMemory>
    ensures { IfOk result (λ _. Adds setting.entry items.old.items items.new.items (only (act (primitive (row_of str_row Primitive.StrText (host setting.entry.core.now (type_at setting.entry.core.now of)) (now_view now)) (written_operand (host setting.entry.core.now (type_at setting.entry.core.now of)) of (here_view here) (now_view now) ∷ from_temp ((here_view here).temp + 1) ∷ []) (in_new to number))))) }
{
    let host = host(setting.core, of);
    let denoting = denoting(host, &now);
    let value = written_operand(setting.alloc, host, of, here, now);
    let width = Operand::Number(here.behind(1)?);
    let operands = two(setting.alloc, value, width)?;
    setting.primitive(
        items,
        denoting,
        operands,
        Destination::InNew { of: to, number },
    )
}

/// Str, behind the value, the width and the place: the text is made, and stored.
pub fn str_stored(
    setting: Setting,
    items: &mut Vec<Item>,
    here: Here,
    of: TypeId,
    to: TypeId,
    value: Found,
    place: Found,
) -> Result<Found, NoMemory>
    ensures { IfOk result (λ f. Gives setting.entry items.old.items items.new.items f (str_stored (env_view setting.entry) (here_view here) of to (found_view value) (found none ready place.held) (found_view place))) }
{
    let Found { now, held, .. } = place;
    denote(setting, items, here, of, value.now, to, held)?;
    let text = Operand::Value(held_path(setting.alloc, to, held));
    let place = path_of(setting.alloc, to, here, now);
    put_value(setting, items, to, text, place, sum(held, 1)?)?;
    Ok(Found::ready(sum(held, 2)?))
}

/// The number that a text denotes goes to the first temporary, and from there to a place.
fn denoted_at(
    setting: Setting,
    items: &mut Vec<Item>,
    which: Primitive,
    text: Operand,
    there: Here,
    of: TypeId,
    conversion: Conversion,
    place: Found,
) -> Result<(), NoMemory>
    ensures { IfOk result (λ _. Adds setting.entry items.old.items items.new.items (denoted_at setting.entry.core.now which (view_operand text) (here_view there) of conversion (found_view place))) }
{
    let Found { now, held, .. } = place;
    let operands = one(setting.alloc, text)?;
    setting.primitive(
        items,
        which,
        operands,
        Destination::InTemporary(there.first()),
    )?;
    store_number(setting, items, conversion, of, there, held, now)
}

/// Val, behind the text and both places: the number, and then the place of the first wrong character.
pub fn val_into(
    setting: Setting,
    items: &mut Vec<Item>,
    here: Here,
    text: Operand,
    value: &CoreTarget,
    code: &CoreTarget,
    value_place: Found,
    code_place: Found,
) -> Result<Found, NoMemory>
    ensures { IfOk result (λ f. Gives setting.entry items.old.items items.new.items f (val_into setting.entry.core.now (here_view here) (view_operand text) (target_of value.now) (target_of code.now) (found none ready value_place.held) (found_view value_place) (found_view code_place))) }
{
    let there = here.past(sum(value_place.used, code_place.used)?)?;
    let held = code_place.held;
    let again = operand_again(setting.alloc, &text)?;
    let of = type_of(&value.place);
    denoted_at(
        setting,
        items,
        Primitive::ValNumber,
        text,
        there,
        of,
        value.store,
        value_place,
    )?;
    let of = type_of(&code.place);
    denoted_at(
        setting,
        items,
        Primitive::ValCode,
        again,
        there,
        of,
        code.store,
        code_place,
    )?;
    Ok(Found::ready(held))
}

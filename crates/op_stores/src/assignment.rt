//! Assignments ("Assignments" and "Properties" of the Free Pascal Reference Guide).
#![tactic(auto, using(crate::proofs::Behind::behind_behind, crate::proofs::Behind::behind_none))]

ghost use Rattle.std.specs.Prelude.{◌≡◌, ◌∷◌, [], IfOk, map};
ghost use Rattle.op_semantics.specs.Actions as meant;
ghost use Rattle.op_semantics.specs.Expressions.{operand_of};
ghost use Rattle.op_semantics.specs.Items.{act, by_operand, invoke, nowhere, only, scoped};
ghost use Rattle.op_semantics.specs.Primitives.{into_place};
ghost use Rattle.op_semantics.specs.Shapes.{composite, shape_of};
ghost use Rattle.op_semantics.specs.Statements.{char_put, put_by, put_into, store_variable, stored_at};
ghost use Rattle.op_values.specs.Adding.{Adds, env_view, now_view, view_in};
ghost use Rattle.op_values.specs.Setting.{here_view};
ghost use Rattle.op_values.specs.View.{view_given, view_operand, view_path};

use crate::place::variable_path;
use op_base::{NoMemory, Sequence};
use op_core::{Dispatch, RoutineId, TypeId, VariableId};
use op_semantics::Primitive;
use op_values::{
    Action, Destination, Given, Here, Item, Now, Operand, Path, Receiver, Setting, Shape,
    Temporary, TemporaryId, copy_of, is_managed, kind_of, one, operand_of, path_of, shape_of,
    three, type_of_variable, whole_path,
};

/// Items that may make this temporary, which ends behind them.
pub fn scope(
    setting: Setting,
    items: &mut Vec<Item>,
    of: TypeId,
    number: u32,
    inner: Vec<Item>,
) -> Result<(), NoMemory>
    ensures { IfOk result (λ _. Adds setting.entry items.old.items items.new.items (only (scoped (record { of = of; n = number }) [] (view_in setting.entry inner.items)))) }
{
    let others = Sequence::from(Vec::new(setting.alloc));
    setting.scoped(items, Temporary { of, number }, others, inner)
}

/// What a primitive gives goes into a place of the type. The old value goes to a temporary, which ends next.
pub fn replace(
    setting: Setting,
    items: &mut Vec<Item>,
    of: TypeId,
    primitive: Primitive,
    operands: Sequence<Operand>,
    to: Path,
    old: u32,
) -> Result<(), NoMemory>
    ensures { IfOk result (λ _. Adds setting.entry items.old.items items.new.items (only (scoped (record { of = of; n = old }) [] (only (act (meant.primitive primitive (map view_operand operands) (into_place of (view_path to) old))))))) }
{
    let mut inner = Vec::new(setting.alloc);
    let into = Destination::IntoPlace { of, to, old };
    setting.primitive(&mut inner, primitive, operands, into)?;
    scope(setting, items, of, old, inner)
}

/// What a primitive gives goes into a place of the type. An old value that has to be ended goes to the temporary `held`, which ends next.
pub fn put_into(
    setting: Setting,
    items: &mut Vec<Item>,
    of: TypeId,
    primitive: Primitive,
    operands: Sequence<Operand>,
    to: Path,
    held: u32,
) -> Result<(), NoMemory>
    ensures { IfOk result (λ _. Adds setting.entry items.old.items items.new.items (put_into setting.entry.core.now of primitive (map view_operand operands) (view_path to) held)) }
{
    if is_managed(setting.core, of) {
        replace(setting, items, of, primitive, operands, to, held)
    } else {
        setting.primitive(items, primitive, operands, Destination::OverPlace { to })
    }
}

/// A value that is no number goes into a place of the type.
pub fn put_value(
    setting: Setting,
    items: &mut Vec<Item>,
    of: TypeId,
    value: Operand,
    to: Path,
    held: u32,
) -> Result<(), NoMemory>
    ensures { IfOk result (λ _. Adds setting.entry items.old.items items.new.items (put_into setting.entry.core.now of Primitive.Same (view_operand value ∷ []) (view_path to) held)) }
{
    let operands = one(setting.alloc, value)?;
    put_into(setting, items, of, Primitive::Same, operands, to, held)
}

/// A record or an array of the second type goes into a place of the first type.
fn put_parts(
    setting: Setting,
    items: &mut Vec<Item>,
    to: TypeId,
    of: TypeId,
    here: Here,
    now: Now,
    place: Path,
    held: u32,
) -> Result<(), NoMemory>
    ensures { IfOk result (λ _. Adds setting.entry items.old.items items.new.items (put_by setting.entry.core.now composite to of (here_view here) (now_view now) (view_path place) held)) }
{
    if is_managed(setting.core, to) {
        let value = operand_of(setting.alloc, of, here, now);
        put_value(setting, items, to, value, place, held)
    } else {
        let from = path_of(setting.alloc, of, here, now);
        let copy = Action::Copy {
            of,
            to: place,
            from,
        };
        setting.act(items, copy)
    }
}

/// A value of the second type, which was evaluated, goes into a place of the first type.
pub fn put(
    setting: Setting,
    items: &mut Vec<Item>,
    to: TypeId,
    of: TypeId,
    here: Here,
    now: Now,
    place: Path,
    held: u32,
) -> Result<(), NoMemory>
    ensures { IfOk result (λ _. Adds setting.entry items.old.items items.new.items (put_by setting.entry.core.now (shape_of setting.entry.core.now to) to of (here_view here) (now_view now) (view_path place) held)) }
{
    match shape_of(setting.core, to) {
        Shape::Single(kind) => {
            let from = here.first();
            let store = Action::Store {
                to: place,
                kind,
                from,
            };
            setting.act(items, store)
        }
        Shape::Composite => put_parts(setting, items, to, of, here, now, place, held),
        Shape::Chars => {
            let value = operand_of(setting.alloc, of, here, now);
            put_value(setting, items, to, value, place, held)
        }
        Shape::Elements => {
            let value = operand_of(setting.alloc, of, here, now);
            put_value(setting, items, to, value, place, held)
        }
        Shape::Instance { .. } => {
            let value = operand_of(setting.alloc, of, here, now);
            put_value(setting, items, to, value, place, held)
        }
    }
}

/// The Char in the first temporary goes into a text, which is changed where it is or becomes another one.
pub fn char_put(
    setting: Setting,
    items: &mut Vec<Item>,
    here: Here,
    text: Operand,
    index: TemporaryId,
) -> Result<(), NoMemory>
    ensures { IfOk result (λ _. Adds setting.entry items.old.items items.new.items (char_put (here_view here) (view_operand text) index.0)) }
{
    match text {
        Operand::Value(path) => put_char(setting, items, here, path, index),
        Operand::Number(_) => Ok(()),
        Operand::Literal(_) => Ok(()),
        Operand::Nil(_) => Ok(()),
        Operand::OfType(_) => Ok(()),
        Operand::Token => Ok(()),
    }
}

fn put_char(
    setting: Setting,
    items: &mut Vec<Item>,
    here: Here,
    text: Path,
    index: TemporaryId,
) -> Result<(), NoMemory>
    ensures { IfOk result (λ _. Adds setting.entry items.old.items items.new.items (char_put (here_view here) (view_operand (Operand.Value text)) index.0)) }
{
    let to = copy_of(setting.alloc, &text)?;
    let text = Operand::Value(text);
    let char = Operand::Number(here.first());
    let operands = three(setting.alloc, text, Operand::Number(index), char)?;
    setting.primitive(
        items,
        Primitive::PutChar,
        operands,
        Destination::OverPlace { to },
    )
}

/// A value of the second type, which was evaluated, goes into a place of the first type, or is a Char that goes into a text.
pub fn store_at(
    setting: Setting,
    items: &mut Vec<Item>,
    to: TypeId,
    of: TypeId,
    here: Here,
    now: Now,
    held: u32,
    place: Now,
) -> Result<(), NoMemory>
    ensures { IfOk result (λ _. Adds setting.entry items.old.items items.new.items (stored_at setting.entry.core.now to of (here_view here) (now_view now) held (now_view place))) }
{
    match place {
        Now::Char { text, index } => char_put(setting, items, here, text, index),
        Now::At(place) => put(setting, items, to, of, here, now, place, held),
        Now::Owned(place) => put(setting, items, to, of, here, now, place, held),
        Now::Ready => {
            let place = whole_path(setting.alloc, to, here);
            put(setting, items, to, of, here, now, place, held)
        }
        Now::Literal(_) => {
            let place = whole_path(setting.alloc, to, here);
            put(setting, items, to, of, here, now, place, held)
        }
        Now::Nil(_) => {
            let place = whole_path(setting.alloc, to, here);
            put(setting, items, to, of, here, now, place, held)
        }
    }
}

/// A number goes into a variable.
pub fn store_variable(
    setting: Setting,
    items: &mut Vec<Item>,
    variable: VariableId,
    from: TemporaryId,
) -> Result<(), NoMemory>
    ensures { IfOk result (λ _. Adds setting.entry items.old.items items.new.items (only (act (store_variable (env_view setting.entry) variable from.0)))) }
{
    let to = variable_path(setting, variable);
    let kind = kind_of(setting.core, type_of_variable(setting.core, variable));
    setting.act(items, Action::Store { to, kind, from })
}

/// The method that writes a property is called of the object, which was evaluated, with the value.
pub fn call_setter(
    setting: Setting,
    items: &mut Vec<Item>,
    routine: RoutineId,
    dispatch: Dispatch,
    of: TypeId,
    here: Here,
    object: Now,
    value: Given,
) -> Result<(), NoMemory>
    ensures { IfOk result (λ _. Adds setting.entry items.old.items items.new.items (only (invoke routine.0 dispatch of (by_operand (operand_of of (here_view here) (now_view object)) ∷ view_given value ∷ []) nowhere))) }
{
    let object = operand_of(setting.alloc, of, here, object);
    let mut given = Vec::new(setting.alloc);
    given.push(Given::ByOperand(object))?;
    given.push(value)?;
    let given = Sequence::from(given);
    setting.item(
        items,
        Item::Invoke {
            routine,
            dispatch,
            of,
            given,
            receiver: Receiver::Nowhere,
        },
    )
}

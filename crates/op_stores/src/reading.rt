//! Read and ReadLn (reference of the unit System): the input is looked at and taken byte by byte.
#![tactic(auto, using(crate::proofs::Behind::behind_behind, crate::proofs::Behind::behind_none))]

ghost use Rattle.std.specs.Prelude.{◌≡◌, ◌+◌, ◌∷◌, [], IfOk, false, Some, pos};
ghost use Rattle.op_core.specs.Expression.{expr_of};
ghost use Rattle.op_core.specs.Sizes.{type_at};
ghost use Rattle.op_core.specs.Statement.{Target, target_of};
ghost use Rattle.op_core.specs.StatementTyping.{host};
ghost use Rattle.op_core.specs.Typing as typing;
ghost use Rattle.op_core.specs.declared.types.CoreType.TheVariants.{Char, String};
ghost use Rattle.op_semantics.specs.Actions.{peek, take};
ghost use Rattle.op_semantics.specs.Expressions.{found, past, ready};
ghost use Rattle.op_semantics.specs.Items.{act, acts, also, choose, none, only, then_do, ◌&◌};
ghost use Rattle.op_semantics.specs.Statements.{byte_is, is_above, is_blank, is_in_line, is_there, read_char, read_integer, read_into, rest_of_line, while_next};
ghost use Rattle.op_stores.specs.Parts.{number_stored};
ghost use Rattle.op_values.specs.Adding.{Adds, Gives, env_view, found_view, now_view, view_in};
ghost use Rattle.op_values.specs.Setting.{here_view};

use crate::assignment::{put_value, store_at};
use crate::line::read_line;
use crate::number::{read_char, read_integer};
use op_base::NoMemory;
use op_core::{Conversion, CoreTarget, CoreType, TypeId};
use op_operators::converted;
use op_tree::Operator;
use op_values::{
    Action, Computation, Found, Here, Item, Now, Operand, Setting, TemporaryId, Turns, held_path,
    host, next, path_of, sum, type_of,
};

/// So long as the next byte, which is then in the temporary, passes a test: the next temporary says whether it does.
pub fn while_next(
    setting: Setting,
    items: &mut Vec<Item>,
    byte: TemporaryId,
    test: Vec<Item>,
    body: Vec<Item>,
) -> Result<(), NoMemory>
    ensures { IfOk result (λ _. Adds setting.entry items.old.items items.new.items (while_next byte.0 (view_in setting.entry test.items) (view_in setting.entry body.items))) }
{
    let mut head = Vec::new(setting.alloc);
    setting.act(&mut head, Action::Peek { to: byte })?;
    setting.items(&mut head, test)?;
    let turns = Turns {
        head,
        temporary: next(byte)?,
        ends: false,
        between: Vec::new(setting.alloc),
        body,
    };
    setting.repeat(items, turns)
}

/// How the byte in the temporary compares with this one.
pub fn byte_is(
    setting: Setting,
    items: &mut Vec<Item>,
    operator: Operator,
    byte: TemporaryId,
    value: i32,
) -> Result<(), NoMemory>
    ensures { IfOk result (λ _. Adds setting.entry items.old.items items.new.items (acts (byte_is operator byte.0 value))) }
{
    let to = next(byte)?;
    setting.number(items, to, value)?;
    let compare = Computation::Compare {
        operator,
        to,
        left: byte,
        right: to,
    };
    setting.compute(items, compare)
}

/// There is a byte.
pub fn is_there(setting: Setting, items: &mut Vec<Item>, byte: TemporaryId) -> Result<(), NoMemory>
    ensures { IfOk result (λ _. Adds setting.entry items.old.items items.new.items (is_there byte.0)) }
{
    byte_is(setting, items, Operator::NotEqual, byte, -1)
}

/// There is a byte, and it is no line feed.
pub fn is_in_line(
    setting: Setting,
    items: &mut Vec<Item>,
    byte: TemporaryId,
) -> Result<(), NoMemory>
    ensures { IfOk result (λ _. Adds setting.entry items.old.items items.new.items (is_in_line byte.0)) }
{
    is_there(setting, items, byte)?;
    let mut second = Vec::new(setting.alloc);
    byte_is(setting, &mut second, Operator::NotEqual, byte, 10)?;
    setting.also(items, true, next(byte)?, second)
}

pub fn is_above(setting: Setting, items: &mut Vec<Item>, byte: TemporaryId) -> Result<(), NoMemory>
    ensures { IfOk result (λ _. Adds setting.entry items.old.items items.new.items (is_above byte.0)) }
{
    byte_is(setting, items, Operator::Greater, byte, 32)
}

/// Where it is not what was asked for so far, it is this byte.
fn or_is(
    setting: Setting,
    items: &mut Vec<Item>,
    byte: TemporaryId,
    value: i32,
) -> Result<(), NoMemory>
    ensures { IfOk result (λ _. Adds setting.entry items.old.items items.new.items (only (also false (byte.0 + 1) (acts (byte_is Operator.Equal byte.0 value))))) }
{
    let mut second = Vec::new(setting.alloc);
    byte_is(setting, &mut second, Operator::Equal, byte, value)?;
    setting.also(items, false, next(byte)?, second)
}

/// A blank, a tab, a line feed or a carriage return.
pub fn is_blank(setting: Setting, items: &mut Vec<Item>, byte: TemporaryId) -> Result<(), NoMemory>
    ensures { IfOk result (λ _. Adds setting.entry items.old.items items.new.items (is_blank byte.0)) }
{
    byte_is(setting, items, Operator::Equal, byte, 32)?;
    or_is(setting, items, byte, 9)?;
    or_is(setting, items, byte, 10)?;
    or_is(setting, items, byte, 13)
}

/// The next byte is taken.
pub fn taking(setting: Setting) -> Result<Vec<Item>, NoMemory>
    ensures { IfOk result (λ items. view_in setting.entry items.items ≡ only (act take)) }
{
    let mut items = Vec::new(setting.alloc);
    setting.act(&mut items, Action::Take)?;
    Ok(items)
}

/// The bytes in front of the next line feed.
fn skip_line(setting: Setting, items: &mut Vec<Item>, byte: TemporaryId) -> Result<(), NoMemory>
    ensures { IfOk result (λ _. Adds setting.entry items.old.items items.new.items (while_next byte.0 (is_in_line byte.0) (only (act take)))) }
{
    let mut test = Vec::new(setting.alloc);
    is_in_line(setting, &mut test, byte)?;
    while_next(setting, items, byte, test, taking(setting)?)
}

/// The next byte, where there is one.
fn skip_byte(setting: Setting, items: &mut Vec<Item>, byte: TemporaryId) -> Result<(), NoMemory>
    ensures { IfOk result (λ _. Adds setting.entry items.old.items items.new.items (then_do (act (peek byte.0)) (is_there byte.0 & only (choose (byte.0 + 1) (only (act take)) none)))) }
{
    setting.act(items, Action::Peek { to: byte })?;
    is_there(setting, items, byte)?;
    let otherwise = Vec::new(setting.alloc);
    setting.choose(items, next(byte)?, taking(setting)?, otherwise)
}

/// Behind the next line feed.
pub fn rest_of_line(
    setting: Setting,
    items: &mut Vec<Item>,
    here: Here,
    ends: bool,
) -> Result<(), NoMemory>
    ensures { IfOk result (λ _. Adds setting.entry items.old.items items.new.items (rest_of_line (here_view here) ends)) }
{
    if !ends {
        return Ok(());
    }
    let byte = here.first();
    skip_line(setting, items, byte)?;
    skip_byte(setting, items, byte)
}

/// A number in the first temporary is converted and goes into a place of the type.
pub fn store_number(
    setting: Setting,
    items: &mut Vec<Item>,
    conversion: Conversion,
    of: TypeId,
    here: Here,
    held: u32,
    place: Now,
) -> Result<(), NoMemory>
    ensures { IfOk result (λ _. Adds setting.entry items.old.items items.new.items (number_stored setting.entry.core.now conversion of (here_view here) held (now_view place))) }
{
    converted(setting, items, conversion, of, here.first())?;
    store_at(setting, items, of, of, here, Now::Ready, held, place)
}

/// The rest of the line goes into a place of the type.
fn read_text(
    setting: Setting,
    items: &mut Vec<Item>,
    here: Here,
    of: TypeId,
    place: Found,
) -> Result<Found, NoMemory>
    ensures { (x : Target) → IfOk result (λ f. Gives setting.entry items.old.items items.new.items f (read_into (env_view setting.entry) (here_view here) x of (Some String) (found_view place))) }
{
    let Found { now, used, held } = place;
    read_line(setting, items, of, here.behind(used)?, held)?;
    let text = Operand::Value(held_path(setting.alloc, of, held));
    let place = path_of(setting.alloc, of, here, now);
    put_value(setting, items, of, text, place, sum(held, 1)?)?;
    Ok(Found::ready(sum(held, 2)?))
}

/// The next byte goes into a place of the type.
fn read_byte(
    setting: Setting,
    items: &mut Vec<Item>,
    here: Here,
    conversion: Conversion,
    of: TypeId,
    place: Found,
) -> Result<Found, NoMemory>
    ensures { IfOk result (λ f. Gives setting.entry items.old.items items.new.items f (found (read_char ((here_view here).temp + place.used) & number_stored setting.entry.core.now conversion of (past place.used (here_view here)) place.held (now_view place.now)) ready place.held)) }
{
    let Found { now, used, held } = place;
    let there = here.past(used)?;
    read_char(setting, items, there.first())?;
    store_number(setting, items, conversion, of, there, held, now)?;
    Ok(Found::ready(held))
}

/// The number that stands next goes into a place of the type.
fn read_number(
    setting: Setting,
    items: &mut Vec<Item>,
    here: Here,
    conversion: Conversion,
    of: TypeId,
    place: Found,
) -> Result<Found, NoMemory>
    ensures { IfOk result (λ f. Gives setting.entry items.old.items items.new.items f (found (read_integer ((here_view here).temp + place.used) & number_stored setting.entry.core.now conversion of (past place.used (here_view here)) place.held (now_view place.now)) ready place.held)) }
{
    let Found { now, used, held } = place;
    let there = here.past(used)?;
    read_integer(setting, items, there.first())?;
    store_number(setting, items, conversion, of, there, held, now)?;
    Ok(Found::ready(held))
}

/// What is read goes into a place that was found; the path is followed when it is stored.
pub fn read_into(
    setting: Setting,
    items: &mut Vec<Item>,
    here: Here,
    target: &CoreTarget,
    place: Found,
) -> Result<Found, NoMemory>
    ensures { IfOk result (λ f. Gives setting.entry items.old.items items.new.items f (read_into (env_view setting.entry) (here_view here) (target_of target.now) (typing.type_of (expr_of target.now.place)) (host setting.entry.core.now (type_at setting.entry.core.now (typing.type_of (expr_of target.now.place)))) (found_view place))) }
{
    let of = type_of(&target.place);
    match host(setting.core, of) {
        Some(CoreType::String) => read_text(setting, items, here, of, place),
        Some(CoreType::Char) => read_byte(setting, items, here, target.store, of, place),
        _ => read_number(setting, items, here, target.store, of, place),
    }
}

//! A Char and an integer of the input ("Read" of the reference of the unit System).
#![tactic(auto, using(crate::proofs::Behind::behind_behind, crate::proofs::Behind::behind_none))]

ghost use Rattle.std.specs.Prelude.{◌≡◌, ◌∷◌, [], IfOk};
ghost use Rattle.op_semantics.specs.Actions.{note, take};
ghost use Rattle.op_semantics.specs.Items.{act, acts, only};
ghost use Rattle.op_semantics.specs.Statements.{is_above, is_blank, read_char, read_integer, while_next};
ghost use Rattle.op_values.specs.Adding.{Adds};

use crate::reading::{is_above, is_blank, is_there, taking, while_next};
use op_base::NoMemory;
use op_semantics::Primitive;
use op_values::{Action, Destination, Item, Operand, Setting, TemporaryId, next, one};

/// A Char is the next byte, or 26 at the end.
pub fn read_char(setting: Setting, items: &mut Vec<Item>, to: TemporaryId) -> Result<(), NoMemory>
    ensures { IfOk result (λ _. Adds setting.entry items.old.items items.new.items (read_char to.0)) }
{
    setting.act(items, Action::Peek { to })?;
    is_there(setting, items, to)?;
    let mut otherwise = Vec::new(setting.alloc);
    setting.number(&mut otherwise, to, 26)?;
    setting.choose(items, next(to)?, taking(setting)?, otherwise)
}

fn skip_blanks(setting: Setting, items: &mut Vec<Item>, byte: TemporaryId) -> Result<(), NoMemory>
    ensures { IfOk result (λ _. Adds setting.entry items.old.items items.new.items (while_next byte.0 (is_blank byte.0) (only (act take)))) }
{
    let mut test = Vec::new(setting.alloc);
    is_blank(setting, &mut test, byte)?;
    while_next(setting, items, byte, test, taking(setting)?)
}

/// The bytes that stand above 32 are those of the number.
fn note_bytes(setting: Setting, items: &mut Vec<Item>, byte: TemporaryId) -> Result<(), NoMemory>
    ensures { IfOk result (λ _. Adds setting.entry items.old.items items.new.items (while_next byte.0 (is_above byte.0) (acts (note byte.0 ∷ take ∷ [])))) }
{
    let mut test = Vec::new(setting.alloc);
    is_above(setting, &mut test, byte)?;
    let mut body = Vec::new(setting.alloc);
    setting.act(&mut body, Action::Note { from: byte })?;
    setting.act(&mut body, Action::Take)?;
    while_next(setting, items, byte, test, body)
}

/// An integer is what stands above 32 behind blanks.
pub fn read_integer(
    setting: Setting,
    items: &mut Vec<Item>,
    to: TemporaryId,
) -> Result<(), NoMemory>
    ensures { IfOk result (λ _. Adds setting.entry items.old.items items.new.items (read_integer to.0)) }
{
    skip_blanks(setting, items, to)?;
    setting.act(items, Action::Forget)?;
    note_bytes(setting, items, to)?;
    let operands = one(setting.alloc, Operand::Token)?;
    setting.primitive(
        items,
        Primitive::ReadNumber,
        operands,
        Destination::InTemporary(to),
    )
}

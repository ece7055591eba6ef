//! The text of a line of the input ("Read" of the reference of the unit System).
#![tactic(auto, using(crate::proofs::Behind::behind_behind, crate::proofs::Behind::behind_none))]

ghost use Rattle.std.specs.Prelude.{◌≡◌, ◌+◌, ◌∷◌, [], IfOk};
ghost use Rattle.op_semantics.specs.Actions.{peek, primitive};
ghost use Rattle.op_semantics.specs.Expressions.{held_path};
ghost use Rattle.op_semantics.specs.Items.{acts};
ghost use Rattle.op_semantics.specs.Primitives.{in_new, literal_text, value_of};
ghost use Rattle.op_semantics.specs.Statements.{is_in_line, longer_by, read_line, while_next};
ghost use Rattle.op_stores.specs.Parts.{byte_added, line_read, replaced};
ghost use Rattle.op_values.specs.Adding.{Adds, view_in};

use crate::assignment::{replace, scope};
use crate::reading::{is_in_line, while_next};
use op_base::{NoMemory, Sequence};
use op_core::TypeId;
use op_scan::CompactText;
use op_semantics::Primitive;
use op_values::{
    Action, Destination, Item, Operand, Setting, TemporaryId, held_path, next, one, sum, two,
};

/// The line becomes longer by the byte in the temporary, which says then whether it is full.
fn add_byte(
    setting: Setting,
    items: &mut Vec<Item>,
    of: TypeId,
    byte: TemporaryId,
    line: u32,
) -> Result<(), NoMemory>
    ensures { IfOk result (λ _. Adds setting.entry items.old.items items.new.items (byte_added (held_path of line) byte.0)) }
{
    let from = Operand::Value(held_path(setting.alloc, of, line));
    let operands = two(setting.alloc, from, Operand::Number(byte))?;
    let to = held_path(setting.alloc, of, line);
    setting.primitive(
        items,
        Primitive::LongerLine,
        operands,
        Destination::OverPlace { to },
    )?;
    setting.act(items, Action::Take)?;
    let operands = one(
        setting.alloc,
        Operand::Value(held_path(setting.alloc, of, line)),
    )?;
    setting.primitive(
        items,
        Primitive::IsFull,
        operands,
        Destination::InTemporary(byte),
    )
}

/// What a primitive gives of the line goes to a temporary, whose old value ends.
fn replace_by(
    setting: Setting,
    items: &mut Vec<Item>,
    of: TypeId,
    which: Primitive,
    line: u32,
    to: u32,
    old: u32,
) -> Result<(), NoMemory>
    ensures { IfOk result (λ _. Adds setting.entry items.old.items items.new.items (replaced of which (value_of (held_path of line)) (held_path of to) old)) }
{
    let line = Operand::Value(held_path(setting.alloc, of, line));
    let operands = one(setting.alloc, line)?;
    let to = held_path(setting.alloc, of, to);
    replace(setting, items, of, which, operands, to, old)
}

/// The line becomes a byte longer, and a full one gets twice the room.
pub fn longer_by(
    setting: Setting,
    items: &mut Vec<Item>,
    of: TypeId,
    byte: TemporaryId,
    line: u32,
) -> Result<(), NoMemory>
    ensures { IfOk result (λ _. Adds setting.entry items.old.items items.new.items (longer_by of byte.0 line)) }
{
    add_byte(setting, items, of, byte, line)?;
    let mut wider = Vec::new(setting.alloc);
    let old = sum(line, 1)?;
    replace_by(
        setting,
        &mut wider,
        of,
        Primitive::WiderLine,
        line,
        line,
        old,
    )?;
    setting.choose(items, byte, wider, Vec::new(setting.alloc))
}

/// All bytes of the line.
fn read_bytes(
    setting: Setting,
    items: &mut Vec<Item>,
    of: TypeId,
    byte: TemporaryId,
    line: u32,
) -> Result<(), NoMemory>
    ensures { IfOk result (λ _. Adds setting.entry items.old.items items.new.items (while_next byte.0 (is_in_line byte.0) (longer_by of byte.0 line))) }
{
    let mut test = Vec::new(setting.alloc);
    is_in_line(setting, &mut test, byte)?;
    let mut body = Vec::new(setting.alloc);
    longer_by(setting, &mut body, of, byte, line)?;
    while_next(setting, items, byte, test, body)
}

/// A line in a new temporary: its bytes, and then the text that they are.
fn line_read(
    setting: Setting,
    of: TypeId,
    byte: TemporaryId,
    held: u32,
) -> Result<Vec<Item>, NoMemory>
    ensures { IfOk result (λ items. view_in setting.entry items.items ≡ line_read of byte.0 held) }
{
    let line = sum(held, 1)?;
    let mut items = Vec::new(setting.alloc);
    let operands = Sequence::from(Vec::new(setting.alloc));
    setting.primitive(
        &mut items,
        Primitive::NewLine,
        operands,
        Destination::InNew { of, number: line },
    )?;
    read_bytes(setting, &mut items, of, byte, line)?;
    let old = sum(held, 2)?;
    replace_by(
        setting,
        &mut items,
        of,
        Primitive::TextOfLine,
        line,
        held,
        old,
    )?;
    Ok(items)
}

/// An empty text, and the first byte.
fn begin_text(
    setting: Setting,
    items: &mut Vec<Item>,
    of: TypeId,
    byte: TemporaryId,
    held: u32,
) -> Result<(), NoMemory>
    ensures { IfOk result (λ _. Adds setting.entry items.old.items items.new.items (acts (primitive Primitive.Same (literal_text [] ∷ []) (in_new of held) ∷ peek byte.0 ∷ []))) }
{
    let empty = CompactText::copy_of(setting.alloc, b"")?;
    let operands = one(setting.alloc, Operand::Literal(empty))?;
    setting.primitive(
        items,
        Primitive::Same,
        operands,
        Destination::InNew { of, number: held },
    )?;
    setting.act(items, Action::Peek { to: byte })
}

/// The text is in a temporary that is empty at first. The first byte makes a line in the next one, and each byte makes it longer; then the text
/// is made, and the line ends.
pub fn read_line(
    setting: Setting,
    items: &mut Vec<Item>,
    of: TypeId,
    byte: TemporaryId,
    held: u32,
) -> Result<(), NoMemory>
    ensures { IfOk result (λ _. Adds setting.entry items.old.items items.new.items (read_line of byte.0 held)) }
{
    begin_text(setting, items, of, byte, held)?;
    is_in_line(setting, items, byte)?;
    let inner = line_read(setting, of, byte, held)?;
    let mut first = Vec::new(setting.alloc);
    scope(setting, &mut first, of, sum(held, 1)?, inner)?;
    setting.choose(items, next(byte)?, first, Vec::new(setting.alloc))
}

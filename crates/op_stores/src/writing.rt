//! Write and WriteLn (reference of the unit System).
#![tactic(auto, using(crate::proofs::Behind::behind_behind, crate::proofs::Behind::behind_none))]

ghost use Rattle.std.specs.Prelude.{◌≡◌, IfOk};
ghost use Rattle.op_semantics.specs.Expressions.{found, ready};
ghost use Rattle.op_semantics.specs.Items.{none};
ghost use Rattle.op_semantics.specs.Statements.{line_end, no_width, row_of, write_row, write_value, written_operand};
ghost use Rattle.op_values.specs.Adding.{Adds, Gives, env_view, found_view, now_view};
ghost use Rattle.op_values.specs.Setting.{here_view};
ghost use Rattle.op_values.specs.View.{view_operand};

use op_base::NoMemory;
use op_core::{CoreType, TypeId};
use op_scan::CompactText;
use op_semantics::Primitive;
use op_values::{Destination, Found, Here, Item, Now, Operand, Setting, host, operand_of, two};
use std::alloc::Global;

fn write_row(of: Option<CoreType>) -> Primitive
    ensures { result ≡ write_row of }
{
    match of {
        Some(CoreType::Boolean) => Primitive::WriteTruth,
        Some(CoreType::Char) => Primitive::WriteChar,
        Some(CoreType::String) => Primitive::WriteText,
        _ => Primitive::WriteNumber,
    }
}

/// What writes a value of the type. A literal is a text, whatever its type is.
fn writing(of: Option<CoreType>, now: &Now) -> Primitive
    ensures { result ≡ row_of write_row Primitive.WriteText of (now_view now.now) }
{
    match now {
        Now::Literal(_) => Primitive::WriteText,
        Now::Ready => write_row(of),
        Now::At(_) => write_row(of),
        Now::Owned(_) => write_row(of),
        Now::Nil(_) => write_row(of),
        Now::Char { .. } => write_row(of),
    }
}

/// Where the value is: a text by itself, any other one in the first temporary.
pub fn written_operand(
    alloc: Global,
    host: Option<CoreType>,
    of: TypeId,
    here: Here,
    now: Now,
) -> Operand
    ensures { view_operand result ≡ written_operand host of (here_view here) (now_view now) }
{
    match host {
        Some(CoreType::String) => operand_of(alloc, of, here, now),
        _ => match now {
            Now::Literal(text) => Operand::Literal(text),
            Now::Ready => Operand::Number(here.first()),
            Now::At(_) => Operand::Number(here.first()),
            Now::Owned(_) => Operand::Number(here.first()),
            Now::Nil(_) => Operand::Number(here.first()),
            Now::Char { .. } => Operand::Number(here.first()),
        },
    }
}

/// The value is in the first temporary, or is a text, and the width in the second one.
pub fn write_value(
    setting: Setting,
    items: &mut Vec<Item>,
    here: Here,
    of: TypeId,
    value: Found,
    held: u32,
) -> Result<Found, NoMemory>
    ensures { IfOk result (λ f. Gives setting.entry items.old.items items.new.items f (write_value (env_view setting.entry) (here_view here) of (found_view value) (found none ready held))) }
{
    let host = host(setting.core, of);
    let writing = writing(host, &value.now);
    let value = written_operand(setting.alloc, host, of, here, value.now);
    let width = Operand::Number(here.behind(1)?);
    let operands = two(setting.alloc, value, width)?;
    setting.primitive(items, writing, operands, Destination::Unused)?;
    Ok(Found::ready(held))
}

pub fn no_width(
    setting: Setting,
    items: &mut Vec<Item>,
    here: Here,
    held: u32,
) -> Result<Found, NoMemory>
    ensures { IfOk result (λ f. Gives setting.entry items.old.items items.new.items f (no_width (here_view here) held)) }
{
    setting.number(items, here.behind(1)?, 0)?;
    Ok(Found::ready(held))
}

/// WriteLn ends the line.
pub fn line_end(
    setting: Setting,
    items: &mut Vec<Item>,
    here: Here,
    ends: bool,
) -> Result<(), NoMemory>
    ensures { IfOk result (λ _. Adds setting.entry items.old.items items.new.items (line_end (here_view here) ends)) }
{
    if !ends {
        return Ok(());
    }
    let width = here.behind(1)?;
    setting.number(items, width, 0)?;
    let line_feed = Operand::Literal(CompactText::copy_of(setting.alloc, b"\n")?);
    let operands = two(setting.alloc, line_feed, Operand::Number(width))?;
    setting.primitive(items, Primitive::WriteText, operands, Destination::Unused)
}

//! Write and WriteLn (reference of the unit System).
#![tactic(auto, using(crate::proofs::Behind::behind_behind, crate::proofs::Behind::behind_none))]

ghost use Rattle.std.specs.Prelude.{◌≡◌, ◌+◌, ℕ, IfOk, map};
ghost use Rattle.op_core.specs.Sizes.{type_at};
ghost use Rattle.op_core.specs.Statement.{item_of};
ghost use Rattle.op_items.specs.Adding.{Adds, env_view, now_view};
ghost use Rattle.op_items.specs.Setting.{here_view};
ghost use Rattle.op_meaning.specs.Expressions.{found, ready};
ghost use Rattle.op_core.specs.StatementTyping.{host};
ghost use Rattle.op_meaning.specs.Items.{act, none, only, ◌&◌};
ghost use Rattle.op_meaning.specs.Statements.{line_end, no_width, write_all, write_by, write_by_now, write_one, write_text};
ghost use Rattle.op_core.specs.declared.program.Core.{Core};
ghost use Rattle.op_mir.specs.View.{view_action};

use crate::expression::{find, make};
use crate::found::Now;
use crate::item::Item;
use crate::setting::{Here, Setting, next};
use crate::shape::{host, type_of};
use op_base::{NoMemory, Sequence};
use op_core::{CoreItem, CoreType, TypeId};
use op_meaning::Primitive;
use op_mir::{Action, Destination, Operand, TemporaryId};
use op_scan::CompactText;
use std::alloc::Global;

/// What writes a value of the type, with the width in the next temporary.
fn writing(alloc: Global, of: Option<CoreType>, from: TemporaryId) -> Result<Action, NoMemory>
    ensures { IfOk result (λ action. (core : Core) (r : ℕ) → view_action core r action ≡ write_by of from.0) }
{
    let width = next(from)?;
    let operands = vec![in alloc; Operand::Number(from), Operand::Number(width)]?;
    let operands = Sequence::from(operands);
    Ok(match of {
        Some(CoreType::Boolean) => Action::Do {
            primitive: Primitive::WriteTruth,
            operands,
            to: Destination::Unused,
        },
        Some(CoreType::Char) => Action::Do {
            primitive: Primitive::WriteChar,
            operands,
            to: Destination::Unused,
        },
        _ => Action::Do {
            primitive: Primitive::WriteNumber,
            operands,
            to: Destination::Unused,
        },
    })
}

/// What writes a literal.
fn writing_text(alloc: Global, text: CompactText, width: TemporaryId) -> Result<Action, NoMemory>
    ensures { IfOk result (λ action. (core : Core) (r : ℕ) → view_action core r action ≡ write_text text width.0) }
{
    let operands = vec![in alloc; Operand::Literal(text), Operand::Number(width)]?;
    Ok(Action::Do {
        primitive: Primitive::WriteText,
        operands: Sequence::from(operands),
        to: Destination::Unused,
    })
}

impl Setting<'_> {
    /// The value is in the first temporary and the width in the second one; a literal is written as it is.
    fn write(self, items: &mut Vec<Item>, here: Here, of: TypeId, now: Now) -> Result<(), NoMemory>
        ensures { IfOk result (λ _. Adds self.entry items.old.items items.new.items (write_by_now (env_view self.entry) (here_view here) of (found none ready) none (now_view now))) }
    {
        match now {
            Now::Literal(text) => {
                let width = here.behind(1)?;
                self.act(items, writing_text(self.alloc, text, width)?)
            }
            Now::At(_) => self.write_value(items, here, of),
            Now::Ready => self.write_value(items, here, of),
        }
    }

    fn write_value(self, items: &mut Vec<Item>, here: Here, of: TypeId) -> Result<(), NoMemory>
        ensures { IfOk result (λ _. Adds self.entry items.old.items items.new.items (only (act (write_by (host self.entry.core.now (type_at self.entry.core.now of)) (here_view here).temp)))) }
    {
        let writing = writing(self.alloc, host(self.core, of), here.first())?;
        self.act(items, writing)
    }

    fn no_width(self, items: &mut Vec<Item>, here: Here) -> Result<(), NoMemory>
        ensures { IfOk result (λ _. Adds self.entry items.old.items items.new.items (no_width (here_view here))) }
    {
        self.number(items, here.behind(1)?, 0)
    }

    fn write_one(self, items: &mut Vec<Item>, here: Here, item: &CoreItem) -> Result<(), NoMemory>
        ensures { IfOk result (λ _. Adds self.entry items.old.items items.new.items (write_one (env_view self.entry) (here_view here) (item_of item.now))) }
    {
        match item {
            CoreItem::Plain(value) => {
                let of = type_of(value);
                let found = find(self, here, value, items)?;
                let found = self.own(items, of, here, found)?;
                self.no_width(items, here)?;
                self.write(items, here, of, found.now)
            }
            CoreItem::Padded(value, width) => {
                let of = type_of(value);
                let found = find(self, here, value, items)?;
                let found = self.own(items, of, here, found)?;
                make(self, here.past(1)?, width, items)?;
                self.write(items, here, of, found.now)
            }
        }
    }

    /// Each is written before the next one is evaluated.
    fn write_all(
        self,
        items: &mut Vec<Item>,
        here: Here,
        written: &[CoreItem],
    ) -> Result<(), NoMemory>
        ensures { IfOk result (λ _. Adds self.entry items.old.items items.new.items (write_all (env_view self.entry) (here_view here) (map item_of written.now))) }
    {
        for each in written {
            self.write_one(items, here, each)?;
        }
        Ok(())
    }

    fn end_line(self, items: &mut Vec<Item>, here: Here, ends_line: bool) -> Result<(), NoMemory>
        ensures { IfOk result (λ _. Adds self.entry items.old.items items.new.items (line_end (here_view here) ends_line)) }
    {
        if !ends_line {
            return Ok(());
        }
        self.no_width(items, here)?;
        let text = CompactText::copy_of(self.alloc, b"\n")?;
        let width = here.behind(1)?;
        self.act(items, writing_text(self.alloc, text, width)?)
    }

    /// Write, and with the end of a line WriteLn.
    pub fn write_items(
        self,
        items: &mut Vec<Item>,
        here: Here,
        written: &[CoreItem],
        ends_line: bool,
    ) -> Result<(), NoMemory>
        ensures { IfOk result (λ _. Adds self.entry items.old.items items.new.items (write_all (env_view self.entry) (here_view here) (map item_of written.now) & line_end (here_view here) ends_line)) }
    {
        self.write_all(items, here, written)?;
        self.end_line(items, here, ends_line)
    }
}

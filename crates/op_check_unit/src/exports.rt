//! What the units of a program export, each found by its name.
ghost use Rattle.std.specs.Prelude.{◌≡◌, IfOk, None, Some, replicate, slice_get, slice_set, true};
ghost use Rattle.std.specs.Option.{option_copied, option_flatten};
ghost use Rattle.op_check_unit.specs.Outlines.{is_blank};
ghost use Rattle.op_check_unit.specs.Uses.{exports_of};

use crate::numbering::Numbering;
use crate::uses::Export;
use op_base::NoMemory;
use op_core::Table;
use op_tree::Name;
use std::alloc::Global;
use std::marker::Model;

/// What each unit exports, by the numbers of units, where its interface part is declared.
#[derive(Drop)]
pub struct Exports {
    slots: Table<Option<Export>>,
    /// For each name the first unit that exports anything under it.
    numbering: Numbering,
}

impl Model for Exports {
    ghost use Rattle.std.specs.Prelude.{List, Option};
    ghost use Rattle.op_check_unit.specs.Numbering.{Finds, exported_name};
    ghost use Rattle.op_check_unit.specs.declared.uses.Export.{Export};

    ghost Value = { List (Option Export) };

    ghost view = { λ e. e.slots };

    ghost invariant = { λ e. Finds exported_name e.slots e.numbering.numbers };
}

impl Exports {
    /// No interface part is declared.
    pub fn blank(alloc: Global, count: usize) -> Result<Exports, NoMemory>
        ensures { IfOk result (λ exports. exports ≡ replicate count None) }
    {
        Ok(Exports {
            slots: no_exports(alloc, count)?,
            numbering: Numbering::new(alloc),
        })
    }

    pub fn as_slice(&self) -> &[Option<Export>]
        ensures { result.now ≡ self.now }
    {
        self.slots.as_slice()
    }

    /// The interface part of this unit is declared now.
    pub fn set(&mut self, number: usize, export: Export) -> Result<(), NoMemory>
        requires { is_blank (slice_get self.old number) ≡ true }
        ensures { IfOk result (λ _. self.new ≡ slice_set self.old number (Some export)) }
    {
        self.numbering.note(export.unit.as_slice(), number)?;
        self.slots.replace(number, Some(export));
        Ok(())
    }

    /// What the unit of this name exports, where its interface part is declared.
    pub fn of(&self, name: &Name) -> Result<Option<&Export>, NoMemory>
        ensures { IfOk result (λ export. option_copied export ≡ exports_of self.now name.now) }
    {
        match self.numbering.find(name.text.as_slice())? {
            None => Ok(None),
            Some(number) => Ok(export_at(self.slots.as_slice(), number)),
        }
    }
}

/// What the unit of this number exports.
fn export_at(slots: &[Option<Export>], number: usize) -> Option<&Export>
    ensures { option_copied result ≡ option_flatten (slice_get slots.now number) }
{
    match slots.get(number) {
        None => None,
        Some(None) => None,
        Some(Some(export)) => Some(export),
    }
}

fn no_exports(alloc: Global, count: usize) -> Result<Table<Option<Export>>, NoMemory>
    ensures { IfOk result (λ exports. exports ≡ replicate count None) }
{
    let mut exports = Table::new(alloc);
    for _turn in 0..count {
        exports.push(None)?;
    }
    Ok(exports)
}

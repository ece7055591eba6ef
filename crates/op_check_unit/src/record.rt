//! Records.
ghost use Rattle.std.specs.Prelude.{◌≡◌, Some, IfOk};
ghost use Rattle.op_check_unit.specs.Records.{no_rows, one_field, record_of, some_fields, with_field};
ghost use Rattle.op_check_unit.specs.Steps.{Leaves, here_of};

use crate::Declarer;
use crate::declarer::MOST_NAMES;
use crate::variable::copy_of;
use op_base::{NoMemory, Place};
use op_core::{CoreType, Field, Run, Table, TypeId};
use op_judgement::LanguageRule;
use op_tree::{Name, Visibility};
use op_types::{Meaning, Visible};
use std::alloc::Global;

/// The fields of a record so far.
#[derive(Drop)]
pub struct FieldRows {
    pub fields: Table<Field>,
    /// Their names.
    pub seen: Visible,
    /// Whether the type of each is sound.
    pub whole: bool,
}

impl FieldRows {
    pub fn new(alloc: Global) -> FieldRows
        ensures { result ≡ no_rows }
    {
        FieldRows {
            fields: Table::new(alloc),
            seen: Visible::new(alloc),
            whole: true,
        }
    }

    fn push(&mut self, alloc: Global, of: Option<TypeId>, name: &Name) -> Result<(), NoMemory>
        ensures { IfOk result (λ _. self.new ≡ with_field of name.now self.old) }
    {
        self.seen.enter(name.text.as_slice(), Meaning::Spoiled)?;
        let Some(of) = of else {
            self.whole = false;
            return Ok(());
        };
        let name = copy_of(alloc, name)?;
        let visibility = Visibility::Public;
        self.fields.push(Field {
            name,
            of,
            visibility,
        })
    }
}

impl Declarer {
    /// Fields of one type: rule 14 where a name is taken in the record, 64 where the record has no room.
    pub fn some_fields(
        &mut self,
        rows: &mut FieldRows,
        of: Option<TypeId>,
        names: &[Name],
    ) -> Result<(), NoMemory>
        ensures { IfOk result (λ _. Leaves (some_fields of names.now rows.old (here_of self.old)) self.old self.new (Some rows.new)) }
    {
        for name in names {
            self.one_field(rows, of, name)?;
        }
        Ok(())
    }

    fn one_field(
        &mut self,
        rows: &mut FieldRows,
        of: Option<TypeId>,
        name: &Name,
    ) -> Result<(), NoMemory>
        ensures { IfOk result (λ _. Leaves (one_field of name.now rows.old (here_of self.old)) self.old self.new (Some rows.new)) }
    {
        let place = name.position.place;
        let taken = rows.seen.look_up(name.text.as_slice())?.is_some();
        if taken {
            self.refuse(LanguageRule::DeclaredTwice, place);
            return Ok(());
        }
        if rows.seen.len() < MOST_NAMES {
            return rows.push(self.alloc, of, name);
        }
        self.refuse(LanguageRule::TooManyNames, place);
        Ok(())
    }

    /// The record that has these fields and begins at the place; none where a field's type is broken.
    pub fn record_of(&mut self, place: Place, rows: FieldRows) -> Result<Option<TypeId>, NoMemory>
        ensures { IfOk result (Leaves (record_of place rows (here_of self.old)) self.old self.new) }
    {
        if !rows.whole {
            return Ok(None);
        }
        let first = u32::try_from(self.core.fields.as_slice().len());
        let count = u32::try_from(rows.fields.as_slice().len());
        let (Ok(first), Ok(count)) = (first, count) else {
            return Err(NoMemory);
        };
        self.core.fields.append(rows.fields)?;
        let fields = Run { first, count };
        self.sized_row(place, CoreType::Record { fields })
    }
}

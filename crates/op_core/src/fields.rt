//! The fields of records, each found by its number, and those of one record by their names.
ghost use Rattle.std.specs.Prelude.{◌≡◌, [], ◌++◌, IfOk, position};
ghost use Rattle.op_core.specs.FieldNames.{Finds, is_named, lower};
ghost use Rattle.op_core.specs.Rows.{rows};

use crate::{Field, Run, Table};
use indexmap::IndexMap;
use op_base::NoMemory;
use std::alloc::Global;
use std::marker::Model;

/// How many fields a record has, and where among them each name stands.
#[derive(Drop)]
struct RecordNames {
    count: usize,
    /// For each name, in small letters, the position of the first field that has it.
    positions: IndexMap<Vec<u8>, usize>,
}

/// The fields of records. Those of a record lie together, and none is taken out.
#[derive(Drop)]
pub struct Fields {
    alloc: Global,
    rows: Table<Field>,
    /// The names of each record by the number of its first field. One without fields begins where the next one does, which replaces it.
    records: IndexMap<usize, RecordNames>,
}

impl Model for Fields {
    ghost use Rattle.std.specs.Prelude.{List};
    ghost use Rattle.op_core.specs.FieldNames.{AreFound};
    ghost use Rattle.op_core.specs.declared.types.Field.{Field};

    ghost Value = { List Field };

    ghost view = { λ f. f.rows };

    ghost invariant = { λ f. AreFound f.rows f.records };
}

impl Fields {
    pub fn new(alloc: Global) -> Fields
        ensures { result ≡ [] }
    {
        Fields {
            alloc,
            rows: Table::new(alloc),
            records: IndexMap::new(alloc),
        }
    }

    pub fn as_slice(&self) -> &[Field]
        ensures { result.now ≡ self.now }
    {
        self.rows.as_slice()
    }

    /// Those of the fields that lie together and are there.
    pub fn rows(&self, run: Run) -> &[Field]
        ensures { result.now ≡ rows self.now run }
    {
        self.rows.rows(run)
    }

    /// Puts the fields of a record behind the others.
    pub fn append(&mut self, more: Table<Field>) -> Result<(), NoMemory>
        ensures { IfOk result (λ _. self.new ≡ self.old ++ more) }
    {
        let first = self.rows.as_slice().len();
        let count = more.as_slice().len();
        let positions = positions_of(self.alloc, more.as_slice())?;
        self.rows.append(more)?;
        self.records
            .insert(first, RecordNames { count, positions })?;
        Ok(())
    }

    /// The position, among fields that lie together, of the first one of this name, whatever the case of its letters. Where they are
    /// all the fields of a record, the time for that does not depend on how many they are.
    pub fn position_named(&self, run: Run, name: &[u8]) -> Result<Option<usize>, NoMemory>
        ensures { IfOk result (λ k. k ≡ position (is_named name.now) (rows self.now run)) }
    {
        let first = run.first as usize;
        if let Some(names) = self.records.get(&first) {
            if names.count == run.count as usize {
                let key = lowered(self.alloc, name)?;
                return Ok(names.positions.get(&key).copied());
            }
        }
        let rows = self.rows(run);
        Ok(
            rows.iter()
                .position(|f| f.name.text.as_slice().eq_ignore_ascii_case(name)),
        )
    }
}

/// For each name, in small letters, the position of the first of these fields that has it.
fn positions_of(alloc: Global, fields: &[Field]) -> Result<IndexMap<Vec<u8>, usize>, NoMemory>
    ensures { IfOk result (Finds fields.now) }
{
    let mut positions = IndexMap::new(alloc);
    let mut at = fields.len();
    // From the last one on, so that of two with one name the first one stays.
    while at > 0 {
        at -= 1;
        let name = lowered(alloc, fields[at].name.text.as_slice())?;
        positions.insert(name, at)?;
    }
    Ok(positions)
}

/// A name in small letters.
pub fn lowered(alloc: Global, name: &[u8]) -> Result<Vec<u8>, NoMemory>
    ensures { IfOk result (λ v. v.items ≡ lower name.now) }
{
    let mut letters = Vec::from_slice(alloc, name)?;
    letters.as_mut_slice().make_ascii_lowercase();
    Ok(letters)
}

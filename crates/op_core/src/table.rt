//! A table that grows.
ghost use Rattle.std.specs.Prelude.{◌≡◌, ◌<◌, [], ◌∷◌, ◌++◌, IfOk, OnErr, length, slice_set};
ghost use Rattle.op_core.specs.Rows.{rows};

use crate::Run;
use op_base::NoMemory;
use std::alloc::Global;
use std::marker::Model;

/// Rows, each found by its number. No row is taken out.
#[derive(Drop)]
pub struct Table<T> {
    rows: Vec<T>,
}

impl<T> Model for Table<T> {
    ghost use Rattle.std.specs.Prelude.{List};

    ghost Value = { List T };

    ghost view = { λ t. t.rows.items };
}

impl<T> Table<T> {
    pub fn as_slice(&self) -> &[T]
        ensures { result.now ≡ self.now }
    {
        self.rows.as_slice()
    }

    /// Those of the rows that lie together and are there.
    pub fn rows(&self, run: Run) -> &[T]
        ensures { result.now ≡ rows self.now run }
    {
        let rows = self.rows.as_slice();
        let (_, behind) = rows.split_at(rows.len().min(run.first as usize));
        let (front, _) = behind.split_at(behind.len().min(run.count as usize));
        front
    }
}

impl<T: Drop> Table<T> {
    pub fn new(alloc: Global) -> Table<T>
        ensures { result ≡ [] }
    {
        Table {
            rows: Vec::new(alloc),
        }
    }

    /// Puts a row behind the others.
    pub fn push(&mut self, row: T) -> Result<(), NoMemory>
        ensures { IfOk result (λ _. self.new ≡ self.old ++ row ∷ []) }
    {
        self.rows.push(row)?;
        Ok(())
    }

    /// Puts the rows of another table behind the others, or leaves those as they are.
    pub fn append(&mut self, more: Table<T>) -> Result<(), NoMemory>
        ensures appended { IfOk result (λ _. self.new ≡ self.old ++ more) }
        ensures kept { OnErr result (self.new ≡ self.old) }
    {
        let mut rows = more.rows;
        self.rows.append(&mut rows)?;
        Ok(())
    }

    /// Puts a row in place of another one, as where what was declared ahead is declared.
    pub fn replace(&mut self, at: usize, row: T)
        requires { at < length self.old }
        ensures { self.new ≡ slice_set self.old at row }
    {
        self.rows[at] = row;
    }
}

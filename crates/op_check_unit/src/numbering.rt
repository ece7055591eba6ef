//! The first number of each name.
ghost use Rattle.std.specs.Prelude.{◌≡◌, IfOk, OnErr, Some};
ghost use Rattle.indexmap.specs.IndexMap.{IsEmpty, IsUnchanged, get};
ghost use Rattle.op_check_unit.specs.Numbering.{Found, Notes, earliest, same};
ghost use Rattle.op_core.specs.FieldNames.{lower};

use indexmap::IndexMap;
use op_base::NoMemory;
use op_core::lowered;
use std::alloc::Global;

/// For each name the first number that has it, without regard to the case of letters.
#[derive(Drop)]
pub struct Numbering {
    pub alloc: Global,
    /// By names in small letters.
    pub numbers: IndexMap<Vec<u8>, usize>,
}

impl Numbering {
    /// No number has a name.
    pub fn new(alloc: Global) -> Numbering
        ensures { IsEmpty result.numbers }
    {
        Numbering {
            alloc,
            numbers: IndexMap::new(alloc),
        }
    }

    /// Notes the name of a number. Of two numbers with one name the smaller one stays.
    pub fn note(&mut self, name: &[u8], number: usize) -> Result<(), NoMemory>
        ensures noted { IfOk result (λ _. Notes self.old.numbers self.new.numbers (Some name.now) number) }
        ensures kept { OnErr result (IsUnchanged self.old.numbers self.new.numbers) }
    {
        let key = lowered(self.alloc, name)?;
        let first = self.earliest(&key, number);
        self.numbers.insert(key, first)?;
        Ok(())
    }

    /// The smaller one of a number and that of a name in small letters.
    fn earliest(&self, key: &Vec<u8>, number: usize) -> usize
        ensures { result ≡ earliest number (get same self.now.numbers key.now) }
    {
        match self.numbers.get(key) {
            None => number,
            Some(other) => smaller(*other, number),
        }
    }

    /// The first number of a name.
    pub fn find(&self, name: &[u8]) -> Result<Option<usize>, NoMemory>
        ensures { IfOk result (Found self.now.numbers (lower name.now)) }
    {
        let letters = lowered(self.alloc, name)?;
        Ok(self.numbers.get(&letters).copied())
    }
}

fn smaller(a: usize, b: usize) -> usize
    ensures { result ≡ earliest b (Some a) }
{
    if a < b { a } else { b }
}

//! Names, each of which stands once.
ghost use Rattle.std.specs.Prelude.{◌≡◌, ◌∷◌, ◌++◌, [], IfOk, if◌then◌else◌, length, not, option_map, position, slice_get};
ghost use Rattle.std.specs.Option.{option_copied};
ghost use Rattle.std.specs.Str.{bytes_eq};
ghost use Rattle.op_units.specs.Names.{AreAmong, is_among};

use indexmap::IndexSet;
use op_base::NoMemory;
use std::alloc::Global;
use std::marker::Model;

/// Names in order of first sight.
#[derive(Drop)]
pub struct NameSet {
    alloc: Global,
    names: IndexSet<Vec<u8>>,
}

impl Model for NameSet {
    ghost use Rattle.std.specs.Prelude.{List, ℕ, map};

    ghost Value = { List (List ℕ) };

    ghost view = { λ s. map (λ name. name.items) s.names.keys };
}

impl NameSet {
    pub fn new(alloc: Global) -> NameSet
        ensures { result ≡ [] }
    {
        NameSet {
            alloc,
            names: IndexSet::new(alloc),
        }
    }

    /// Whether the name was not there. It is then the last one.
    pub fn add(&mut self, name: &[u8]) -> Result<bool, NoMemory>
        ensures added { IfOk result (λ added. added ≡ not (is_among name.now self.old)) }
        ensures stay { AreAmong self.old self.new }
        ensures after { IfOk result (λ _. self.new ≡ (if is_among name.now self.old then self.old else self.old ++ name.now ∷ [])) }
    {
        let key = Vec::from_slice(self.alloc, name)?;
        Ok(self.names.insert(key)?)
    }

    pub fn contains(&self, name: &[u8]) -> bool
        ensures { result ≡ is_among name.now self.now }
    {
        self.names.contains(name)
    }

    pub fn len(&self) -> usize
        ensures { result ≡ length self.now }
    {
        self.names.len()
    }

    /// The number of a name, by first sight from 0.
    pub fn number_of(&self, name: &[u8]) -> Option<usize>
        ensures { result ≡ position (bytes_eq name.now) self.now }
    {
        self.names.get_index_of(name)
    }

    /// The name of this number.
    pub fn name_at(&self, number: usize) -> Option<&[u8]>
        ensures { option_map (λ name. name.now) result ≡ slice_get self.now number }
    {
        let name = self.names.get_index(number)?;
        Some(name.as_slice())
    }
}

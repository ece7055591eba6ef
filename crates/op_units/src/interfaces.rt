//! What units use in their interface parts.
ghost use Rattle.std.specs.Prelude.{◌≡◌, ◌∷◌, ◌++◌, [], IfOk, map, option_map, slice_get, true};
ghost use Rattle.op_units.specs.Names.{Lack, is_used, name_of};

use crate::name_set::NameSet;
use crate::uses::Use;
use op_base::{NoMemory, Sequence, Text};
use std::alloc::Global;
use std::marker::Model;

/// For each unit that was read the names that it uses in its interface part, in small letters.
#[derive(Drop)]
pub struct Interfaces {
    lists: Vec<Sequence<Text>>,
    /// The names of all lists.
    names: NameSet,
}

impl Model for Interfaces {
    ghost use Rattle.std.specs.Prelude.{List, ℕ};
    ghost use Rattle.op_units.specs.Names.{AreGathered};

    ghost Value = { List (List (List ℕ)) };

    ghost view = { λ s. s.lists.items };

    ghost invariant = { λ s. AreGathered s.lists.items s.names };
}

impl Interfaces {
    pub fn new(alloc: Global) -> Interfaces
        ensures { result ≡ [] }
    {
        Interfaces {
            lists: Vec::new(alloc),
            names: NameSet::new(alloc),
        }
    }

    /// Puts the names of a unit's uses behind those of the others.
    pub fn push(&mut self, alloc: Global, uses: &[Use]) -> Result<(), NoMemory>
        ensures { IfOk result (λ _. self.new ≡ self.old ++ map name_of uses.now ∷ []) }
    {
        let mut list = Vec::new(alloc);
        for used in uses {
            self.names.add(used.name.as_slice())?;
            list.push(Text::copy_of(alloc, used.name.as_slice())?)?;
        }
        self.lists.push(Sequence::from(list))?;
        Ok(())
    }

    /// The names of the unit of this number.
    pub fn get(&self, number: usize) -> Option<&[Text]>
        ensures { option_map (λ names. names.now) result ≡ slice_get self.now number }
    {
        let names = self.lists.get(number)?;
        Some(names.as_slice())
    }

    /// Whether no unit uses this one, nor do these uses. What was put in before memory was out may count as used.
    pub fn lack(&self, unit: &[u8], uses: &[Use]) -> bool
        ensures { result ≡ true → Lack self.now unit.now uses.now }
    {
        !self.names.contains(unit) && !is_used(unit, uses)
    }
}

fn is_used(unit: &[u8], uses: &[Use]) -> bool
    ensures { result ≡ is_used unit.now uses.now }
{
    uses.iter().any(|used| unit == used.name.as_slice())
}

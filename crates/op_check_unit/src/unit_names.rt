//! The units of a program, found by their names.
ghost use Rattle.std.specs.Prelude.{◌≡◌, IfOk, map, slice_get};
ghost use Rattle.std.specs.Option.{option_and_then, option_copied, option_map};
ghost use Rattle.op_check_unit.specs.Interfaces.{number_from, unit_named};
ghost use Rattle.op_check_unit.specs.Numbering.{Finds, Notes, unit_in, unit_name};
ghost use Rattle.op_tree.specs.File.{file_of, unit_of};

use crate::numbering::Numbering;
use op_base::{NoMemory, Text};
use op_tree::{Name, Tree, Unit};
use std::alloc::Global;
use std::marker::Model;

/// The names of units in their order, each found among them.
#[derive(Drop)]
pub struct UnitNames<'a> {
    order: &'a [Text],
    /// For each name the first unit that has it.
    numbering: Numbering,
}

impl<'a> Model for UnitNames<'a> {
    ghost use Rattle.std.specs.Prelude.{ℕ, List, Some};
    ghost use Rattle.op_check_unit.specs.Numbering.{Finds};

    ghost Value = { List (List ℕ) };

    ghost view = { λ u. u.order.now };

    ghost invariant = { λ u. Finds Some u.order.now u.numbering.numbers };
}

impl<'a> UnitNames<'a> {
    pub fn new(alloc: Global, order: &'a [Text]) -> Result<UnitNames<'a>, NoMemory>
        ensures { IfOk result (λ names. names ≡ order.now) }
    {
        let mut numbering = Numbering::new(alloc);
        for (number, name) in order.iter().enumerate() {
            numbering.note(name.as_slice(), number)?;
        }
        Ok(UnitNames { order, numbering })
    }

    pub fn as_slice(&self) -> &[Text]
        ensures { result.now ≡ self.now }
    {
        self.order
    }

    /// The number of the first unit of this name.
    pub fn number_of(&self, name: &Name) -> Result<Option<usize>, NoMemory>
        ensures { IfOk result (λ number. number ≡ number_from 0 self.now name.now.text) }
    {
        let number = self.numbering.find(name.text.as_slice())?;
        Ok(number)
    }
}

/// Files, with their units found by their names.
#[derive(Drop)]
pub struct UnitFiles<'a> {
    pub trees: &'a [Tree],
    /// For each name the first file that is a unit of it.
    numbering: Numbering,
    ghost found: { Finds (λ tree. unit_name (file_of tree)) trees.now numbering.numbers },
}

impl<'a> UnitFiles<'a> {
    pub fn new(alloc: Global, trees: &'a [Tree]) -> Result<UnitFiles<'a>, NoMemory>
        ensures { IfOk result (λ files. files.trees.now ≡ trees.now) }
    {
        let mut numbering = Numbering::new(alloc);
        for (number, tree) in trees.iter().enumerate() {
            note_unit(&mut numbering, tree, number)?;
        }
        Ok(UnitFiles { trees, numbering })
    }

    /// The first unit of this name.
    pub fn unit_named(&self, name: &[u8]) -> Result<Option<&Unit>, NoMemory>
        ensures { IfOk result (λ unit. option_map unit_of (option_copied unit) ≡ unit_named (map file_of self.now.trees.now) name.now) }
    {
        match self.numbering.find(name)? {
            None => Ok(None),
            Some(number) => Ok(unit_in(self.trees, number)),
        }
    }
}

/// Notes the name of a file that is a unit.
fn note_unit(numbering: &mut Numbering, tree: &Tree, number: usize) -> Result<(), NoMemory>
    ensures { IfOk result (λ _. Notes numbering.old.numbers numbering.new.numbers (unit_name (file_of tree.now)) number) }
{
    match tree {
        Tree::Program(_) => Ok(()),
        Tree::Unit(unit) => numbering.note(unit.name.text.as_slice(), number),
    }
}

/// The file of this number, where it is a unit.
fn unit_in(trees: &[Tree], number: usize) -> Option<&Unit>
    ensures { option_map unit_of (option_copied result) ≡ option_and_then (λ tree. unit_in (file_of tree)) (slice_get trees.now number) }
{
    match trees.get(number) {
        None => None,
        Some(Tree::Program(_)) => None,
        Some(Tree::Unit(unit)) => Some(unit),
    }
}

//! The uses lists of a file.
ghost use Rattle.std.specs.Prelude.{◌≡◌, ◌++◌, IfOk, map};
ghost use Rattle.std.specs.Char.{to_ascii_lowercase};
ghost use Rattle.op_units.specs.Names.{IsFolder, file_of_unit, implementation_uses, interface_uses, is_system, is_sysutils, lower, use_of};
ghost use Rattle.op_units.specs.Walk.{own_names, used_again};

use crate::name_set::NameSet;
use op_base::{NoMemory, Place, Text};
use op_tree::{Name, Tree};
use std::alloc::Global;

/// A name in a uses list, in small letters.
#[derive(Drop)]
pub struct Use {
    pub name: Text,
    pub place: Place,
}

/// A name in small letters.
pub fn lowered(alloc: Global, name: &[u8]) -> Result<Text, NoMemory>
    ensures { IfOk result (λ text. text ≡ lower name.now) }
{
    let mut letters = Vec::from_slice(alloc, name)?;
    letters.as_mut_slice().make_ascii_lowercase();
    Ok(Text::from(letters))
}

pub fn is_system(name: &[u8]) -> bool
    ensures { result ≡ is_system name.now }
{
    name == b"system".as_slice()
}

pub fn is_sysutils(name: &[u8]) -> bool
    ensures { result ≡ is_sysutils name.now }
{
    name == b"sysutils".as_slice()
}

/// The name of a unit's file.
pub fn file_of_unit(alloc: Global, unit: &[u8]) -> Result<Text, NoMemory>
    ensures { IfOk result (λ text. text ≡ file_of_unit unit.now) }
{
    let mut file = Vec::from_slice(alloc, unit)?;
    file.extend_from_slice(b".pas")?;
    Ok(Text::from(file))
}

/// A file's name up to and including its last slash.
pub fn folder_of(name: &[u8]) -> &[u8]
    ensures { IsFolder name.now result.now }
{
    let mut front = name;
    while let Some((last, rest)) = front.split_last() {
        if *last == b'/' {
            return front;
        }
        front = rest;
    }
    front
}

/// What a file uses in its interface part.
pub fn interface_uses(alloc: Global, tree: &Tree) -> Result<Vec<Use>, NoMemory>
    ensures { IfOk result (λ uses. uses.items ≡ interface_uses tree.now) }
{
    match tree {
        Tree::Program(_) => Ok(Vec::new(alloc)),
        Tree::Unit(unit) => uses_in(alloc, unit.interface_uses.as_slice()),
    }
}

/// What it uses in its other part.
pub fn implementation_uses(alloc: Global, tree: &Tree) -> Result<Vec<Use>, NoMemory>
    ensures { IfOk result (λ uses. uses.items ≡ implementation_uses tree.now) }
{
    match tree {
        Tree::Program(program) => uses_in(alloc, program.uses.as_slice()),
        Tree::Unit(unit) => uses_in(alloc, unit.uses.as_slice()),
    }
}

fn uses_in(alloc: Global, names: &[Name]) -> Result<Vec<Use>, NoMemory>
    ensures { IfOk result (λ uses. uses.items ≡ map use_of names.now) }
{
    let mut uses = Vec::new(alloc);
    for name in names {
        uses.push(Use {
            name: lowered(alloc, name.text.as_slice())?,
            place: name.position.place,
        })?;
    }
    Ok(uses)
}

/// The name that a unit has of its own.
pub fn own_names(alloc: Global, unit: &Option<Text>) -> Result<NameSet, NoMemory>
    ensures { IfOk result (λ names. names ≡ own_names unit.now) }
{
    let mut names = NameSet::new(alloc);
    if let Some(unit) = unit {
        names.add(unit.as_slice())?;
    }
    Ok(names)
}

/// The first name that is used again, in these lists one behind the other, or that is one of `names`.
pub fn used_again(
    mut names: NameSet,
    interface: &[Use],
    implementation: &[Use],
) -> Result<Option<Place>, NoMemory>
    ensures { IfOk result (λ place. place ≡ used_again names (interface.now ++ implementation.now)) }
{
    for used in interface {
        if !names.add(used.name.as_slice())? {
            return Ok(Some(used.place));
        }
    }
    for other in implementation {
        if !names.add(other.name.as_slice())? {
            return Ok(Some(other.place));
        }
    }
    Ok(None)
}

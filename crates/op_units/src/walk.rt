//! How far the walk over the units of a program has come.
ghost use Rattle.std.specs.Prelude.{◌≡◌, ◌≤◌, ◌<◌, ◌∷◌, ◌++◌, ℕ, List, [], None, Some, IfOk, IfErr, IfSome, length, map, option_map};
ghost use Rattle.std.specs.Option.{option_copied};
ghost use Rattle.op_units.specs.Cycles.{ClosingIs, EnterIs, IsFresh, Reached, TooLargeIs, with_names, with_parts};
ghost use Rattle.op_units.specs.Names.{name_of};
ghost use Rattle.op_units.specs.Reading.{Reads};
ghost use Rattle.op_units.specs.Walk.{AreUses, FileBreaksAs, IsForest, UseIs, interface_of, misnamed, nothing_read, placed, room, start_of, unit_name, walked_of};

use crate::frame::{Frame, frame_of};
use crate::interfaces::Interfaces;
use crate::loader::{refused, tree_of};
use crate::name_set::NameSet;
use crate::uses::{
    Use, file_of_unit, implementation_uses, interface_uses, is_system, is_sysutils, lowered,
    own_names, used_again,
};
use crate::{Forest, LoadError};
use op_base::{FILE_MISSING, FileAnswer, Files, NoMemory, Place, Refusal, Rule, Sequence, Text};
use op_parse_code::ParseError;
use op_tree::Tree;
use std::alloc::Global;
use std::str;

/// The most bytes that a file may have.
pub const MOST_BYTES: usize = 4_194_304;

/// The most bytes that all files of a program may have.
const MOST_BYTES_IN_ALL: usize = 16_777_216;

/// The most units that a program may read.
const MOST_UNITS: usize = 1_000;

pub const CYCLE: Rule = Rule {
    number: 11,
    feature: 0,
};

const NAME_DIFFERS: Rule = Rule {
    number: 12,
    feature: 0,
};

const EXCEPTION: Rule = Rule {
    number: 13,
    feature: 44,
};

const USED_AGAIN: Rule = Rule {
    number: 17,
    feature: 0,
};

pub const FILE_TOO_LARGE: Rule = Rule {
    number: 62,
    feature: 0,
};

const TOO_MANY_UNITS: Rule = Rule {
    number: 63,
    feature: 0,
};

/// What was read and placed.
#[derive(Drop)]
pub struct Walk {
    /// The trees of the files and their names, in order of reading.
    trees: Vec<Tree>,
    names: Vec<Text>,
    /// The units among them, in small letters.
    units: NameSet,
    /// For each of these the names that it uses in its interface part, in small letters.
    interfaces: Interfaces,
    /// The units that are placed.
    order: Vec<Text>,
    /// The bytes of all files.
    size: usize,
}

/// The uses in the interface part of a file, of a program all, and those in its implementation part.
#[derive(Drop)]
struct FileUses {
    interface: Vec<Use>,
    implementation: Vec<Use>,
}

/// What is read of a file: its tree, its uses, and the number of the first one by which interface uses lead back to it.
#[derive(Drop)]
struct FileParts {
    tree: Tree,
    uses: FileUses,
    closing: Option<usize>,
}

impl Walk {
    pub fn new(alloc: Global) -> Walk
        ensures { walked_of result ≡ nothing_read }
    {
        Walk {
            trees: Vec::new(alloc),
            names: Vec::new(alloc),
            units: NameSet::new(alloc),
            interfaces: Interfaces::new(alloc),
            order: Vec::new(alloc),
            size: 0,
        }
    }

    pub fn into_forest(self) -> Forest
        ensures { IsForest (walked_of self) result }
    {
        Forest {
            trees: Sequence::from(self.trees),
            names: Sequence::from(self.names),
            order: Sequence::from(self.order),
        }
    }

    /// Puts a unit behind those that are in order. A program is none.
    pub fn place(&mut self, unit: Option<Text>) -> Result<(), NoMemory>
        ensures { IfOk result (λ _. walked_of self.new ≡ placed (walked_of self.old) unit) }
    {
        if let Some(unit) = unit {
            self.order.push(unit)?;
        }
        Ok(())
    }

    /// What comes of a name in a uses list of the file: a new file whose uses are to be visited, or nothing.
    pub fn visit<F: Files>(
        &mut self,
        alloc: Global,
        files: &mut F,
        folder: &[u8],
        file: &[u8],
        unit: Use,
    ) -> Result<Option<Frame>, LoadError>
        ensures comes { UseIs (F.stored files.old) folder.now file.now unit (walked_of self.old) (walked_of self.new) (F.faults files.old) (F.faults files.new) result }
        ensures counts { F.faults files.old ≤ F.faults files.new }
        ensures unchanged { F.stored files.new ≡ F.stored files.old }
    {
        let name = unit.name.as_slice();
        if self.units.contains(name) {
            return Ok(None);
        }
        if is_system(name) {
            return Ok(None);
        }
        if is_sysutils(name) {
            return Err(refused(alloc, file, broken(EXCEPTION, unit.place)));
        }
        let bare = file_of_unit(alloc, name)?;
        let path = joined(alloc, folder, bare.as_slice())?;
        // A name has ASCII letters, digits and underscores alone, so this is a text, as the folder is one.
        let Ok(path) = str::from_utf8(path.as_slice()) else {
            return Err(LoadError::NoMemory);
        };
        match files.read(alloc, path, room(self.size))? {
            FileAnswer::Missing => Err(refused(alloc, file, broken(FILE_MISSING, unit.place))),
            FileAnswer::Failed => Err(LoadError::ReadFault),
            FileAnswer::Long => Err(self.too_large(alloc, file, bare.as_slice(), unit.place)),
            FileAnswer::Found(text) => {
                if self.units.len() >= MOST_UNITS {
                    return Err(refused(alloc, file, broken(TOO_MANY_UNITS, unit.place)));
                }
                let frame = self.enter(alloc, bare, Some(unit.name), text.as_slice())?;
                Ok(Some(frame))
            }
        }
    }

    /// The refusal of a unit whose file is too large, at this place in the file that uses it where it is a unit too many.
    fn too_large(&self, alloc: Global, file: &[u8], bare: &[u8], place: Place) -> LoadError
        ensures { TooLargeIs (walked_of self.now) file.now bare.now place result }
    {
        if self.units.len() >= MOST_UNITS {
            return refused(alloc, file, broken(TOO_MANY_UNITS, place));
        }
        match u32::try_from(self.trees.len()) {
            Ok(number) => refused(alloc, bare, broken(FILE_TOO_LARGE, start_of(number))),
            Err(_) => LoadError::NoMemory,
        }
    }

    /// Reads a file of these bytes, the one of a unit or the main file: what of it is to be visited.
    pub fn enter(
        &mut self,
        alloc: Global,
        file: Text,
        unit: Option<Text>,
        bytes: &[u8],
    ) -> Result<Frame, LoadError>
        requires small { length bytes.now ≤ 4194304 }
        requires fresh { IsFresh (walked_of self.old) unit }
        ensures { EnterIs file unit bytes.now (walked_of self.old) (walked_of self.new) result }
    {
        let Ok(number) = u32::try_from(self.trees.len()) else {
            return Err(LoadError::NoMemory);
        };
        let parts = match self.parts_of(alloc, number, bytes, &unit) {
            Ok(parts) => parts,
            Err(ParseError::Refused(refusal)) => return Err(LoadError::Refused(refusal, file)),
            Err(ParseError::NoMemory) => return Err(LoadError::NoMemory),
        };
        let FileParts {
            tree,
            uses,
            closing,
        } = parts;
        let FileUses {
            interface,
            implementation,
        } = uses;
        self.keep(
            alloc,
            file.as_slice(),
            &unit,
            bytes.len(),
            tree,
            interface.as_slice(),
        )?;
        Ok(frame_of(file, unit, closing, interface, implementation)?)
    }

    /// What is read of a file of these bytes, by its number in the order of reading.
    fn parts_of(
        &self,
        alloc: Global,
        number: u32,
        bytes: &[u8],
        unit: &Option<Text>,
    ) -> Result<FileParts, ParseError>
        requires { length bytes.now ≤ 4194304 }
        ensures whole { IfOk result (λ p. Reads number bytes.now p.tree × AreUses unit.now p.tree p.uses.interface.items p.uses.implementation.items × ClosingIs (walked_of self.now) (unit_name unit.now) p.uses.interface.items p.closing) }
        ensures refused { IfErr result (FileBreaksAs number unit.now bytes.now) }
    {
        let tree = tree_of(alloc, number, bytes)?;
        let uses = uses_of(alloc, unit, &tree)?;
        let closing = self.closing(alloc, name_of(unit), uses.interface.as_slice())?;
        Ok(FileParts {
            tree,
            uses,
            closing,
        })
    }

    /// Keeps a file that was read, with the uses of its interface part.
    fn keep(
        &mut self,
        alloc: Global,
        file: &[u8],
        unit: &Option<Text>,
        size: usize,
        tree: Tree,
        interface: &[Use],
    ) -> Result<(), NoMemory>
        requires fresh { IsFresh (walked_of self.old) unit.now }
        ensures { IfOk result (λ _. walked_of self.new ≡ with_parts (walked_of self.old) file.now unit.now size tree (map name_of interface.now)) }
    {
        self.trees.push(tree)?;
        self.size = self.size.checked_add(size).ok_or(NoMemory)?;
        self.names.push(Text::copy_of(alloc, file)?)?;
        if let Some(unit) = unit {
            self.units.add(unit.as_slice())?;
            self.interfaces.push(alloc, interface)?;
        }
        Ok(())
    }

    /// The number of the first of the uses in the interface part of a unit by which interface uses of the files before lead back to it. None is
    /// searched for where neither these files nor the unit itself use it in an interface part.
    fn closing(
        &self,
        alloc: Global,
        unit: &[u8],
        interface: &[Use],
    ) -> Result<Option<usize>, NoMemory>
        ensures { IfOk result (ClosingIs (walked_of self.now) unit.now interface.now) }
    {
        if self.interfaces.lack(unit, interface) {
            return Ok(None);
        }
        let mut seen = NameSet::new(alloc);
        for number in 0..interface.len() {
            self.reach(&mut seen, interface[number].name.as_slice())?;
            if seen.contains(unit) {
                return Ok(Some(number));
            }
        }
        Ok(None)
    }

    /// Adds a name, and all to which interface uses lead from it.
    fn reach(&self, seen: &mut NameSet, start: &[u8]) -> Result<(), NoMemory>
        ensures { IfOk result (λ _. Reached self.now.units self.now.interfaces seen.old start.now seen.new) }
    {
        let first = seen.len();
        seen.add(start)?;
        for number in first..usize::MAX {
            let names = match seen.name_at(number) {
                None => return Ok(()),
                Some(name) => self.interface_of(name),
            };
            if let Some(names) = names {
                add_all(seen, names)?;
            }
        }
        Err(NoMemory)
    }

    /// What a unit that was read uses in its interface part.
    fn interface_of(&self, unit: &[u8]) -> Option<&[Text]>
        ensures { option_map (λ names. names.now) result ≡ interface_of self.now.units self.now.interfaces unit.now }
    {
        let number = self.units.number_of(unit)?;
        self.interfaces.get(number)
    }
}

/// The uses of a file that is the one of this unit, or a program's, and uses no name twice.
fn uses_of(alloc: Global, unit: &Option<Text>, tree: &Tree) -> Result<FileUses, ParseError>
    ensures whole { IfOk result (λ us. AreUses unit.now tree.now us.interface.items us.implementation.items) }
    ensures refused { IfErr result (λ e. (number : ℕ) (bytes : List ℕ) → Reads number bytes tree.now → FileBreaksAs number unit.now bytes e) }
{
    if let Some(place) = misnamed(alloc, unit, tree)? {
        return Err(ParseError::Refused(broken(NAME_DIFFERS, place)));
    }
    let interface = interface_uses(alloc, tree)?;
    let implementation = implementation_uses(alloc, tree)?;
    let names = own_names(alloc, unit)?;
    if let Some(place) = used_again(names, interface.as_slice(), implementation.as_slice())? {
        return Err(ParseError::Refused(broken(USED_AGAIN, place)));
    }
    Ok(FileUses {
        interface,
        implementation,
    })
}

fn add_all(seen: &mut NameSet, names: &[Text]) -> Result<(), NoMemory>
    ensures { IfOk result (λ _. seen.new ≡ with_names seen.old names.now) }
{
    for name in names {
        seen.add(name.as_slice())?;
    }
    Ok(())
}

/// The name of a unit; of a program none.
fn name_of(unit: &Option<Text>) -> &[u8]
    ensures { result.now ≡ unit_name unit.now }
{
    match unit {
        None => &[],
        Some(unit) => unit.as_slice(),
    }
}

/// How many bytes the next file may have.
fn room(size: usize) -> usize
    ensures { result ≡ room size }
{
    MOST_BYTES.min(MOST_BYTES_IN_ALL.saturating_sub(size))
}

fn joined(alloc: Global, folder: &[u8], bare: &[u8]) -> Result<Vec<u8>, NoMemory>
    ensures { IfOk result (λ path. path.items ≡ folder.now ++ bare.now) }
{
    let mut path = Vec::from_slice(alloc, folder)?;
    path.extend_from_slice(bare)?;
    Ok(path)
}

pub fn broken(rule: Rule, place: Place) -> Refusal
    ensures { result ≡ record { rule = rule; place = place } }
{
    Refusal { rule, place }
}

/// The first line and column of a file, by its number.
pub fn start_of(file: u32) -> Place
    ensures { result ≡ start_of file }
{
    Place {
        file,
        line: 1,
        col: 1,
    }
}

/// Where a name in a file is not that by which it is used: the main file is a program, any other one a unit of its name.
fn misnamed(alloc: Global, unit: &Option<Text>, tree: &Tree) -> Result<Option<Place>, NoMemory>
    ensures { IfOk result (λ place. place ≡ misnamed unit.now tree.now) }
{
    match (unit, tree) {
        (None, Tree::Program(_)) => Ok(None),
        (None, Tree::Unit(found)) => Ok(Some(found.position.place)),
        (Some(_), Tree::Program(found)) => Ok(Some(found.position.place)),
        (Some(unit), Tree::Unit(found)) => {
            let name = lowered(alloc, found.name.text.as_slice())?;
            if name.as_slice() == unit.as_slice() {
                return Ok(None);
            }
            Ok(Some(found.name.position.place))
        }
    }
}

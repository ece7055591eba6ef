//! The names that are visible at a place, and what they stand for.
ghost use Rattle.std.specs.Prelude.{◌≡◌, ◌<◌, [], ◌∷◌, ◌++◌, IfOk, drop, is_some, length, take};
ghost use Rattle.std.specs.Option.{option_copied};
ghost use Rattle.op_types.specs.Names.{all_of, lower, meaning_of};

use crate::Constant;
use crate::evaluation::copy_of;
use crate::names::{Names, SharedNames};
use crate::stretch::Stretch;
use op_base::NoMemory;
use op_core::{Function, RoutineId, TypeId, UnitId, VariableId, lowered};
use op_judgement::Feature;
use std::alloc::Global;
use std::marker::Model;

/// A name that the compiler itself knows, besides those of types and constants.
#[derive(Clone, Copy)]
pub enum BuiltIn {
    Write,
    WriteLn,
    Read,
    ReadLn,
    Eof,
    Eoln,
    SetLength,
    Copy,
    Chr,
    Inc,
    Dec,
    Include,
    Exclude,
    Val,
    Str,
    Pos,
    Delete,
    Insert,
    StringOfChar,
    Halt,
    Exit,
    Break,
    Continue,
    /// A function of one value.
    Function(Function),
    /// A type that is not in this profile, by its feature.
    LeftOut(Feature),
}

/// What a name stands for.
#[derive(Drop)]
pub enum Meaning {
    Constant(Constant),
    TypeName(TypeId),
    /// A variable or a parameter. The variable of a `for` stands once more for its body, where it cannot be written.
    Variable { id: VariableId, writable: bool },
    Routine(RoutineId),
    Unit(UnitId),
    BuiltIn(BuiltIn),
    /// Its declaration breaks a rule; what uses it is silent.
    Spoiled,
}

impl Meaning {
    /// Another copy.
    pub fn copy(&self, alloc: Global) -> Result<Meaning, NoMemory>
        ensures { IfOk result (λ m. m ≡ self.now) }
    {
        match self {
            Meaning::Constant(constant) => Ok(Meaning::Constant(Constant {
                value: copy_of(alloc, &constant.value)?,
                of: constant.of,
                weight: constant.weight,
            })),
            Meaning::TypeName(of) => Ok(Meaning::TypeName(*of)),
            Meaning::Variable { id, writable } => Ok(Meaning::Variable {
                id: *id,
                writable: *writable,
            }),
            Meaning::Routine(id) => Ok(Meaning::Routine(*id)),
            Meaning::Unit(id) => Ok(Meaning::Unit(*id)),
            Meaning::BuiltIn(form) => Ok(Meaning::BuiltIn(*form)),
            Meaning::Spoiled => Ok(Meaning::Spoiled),
        }
    }
}

/// The visible names, in order of declaration, without regard to the case of letters. A name stands for what was declared last
/// under it. A name behind a unit's name stands here as one name with a dot. Names that a unit exports are in a table that all hold
/// who use it, so a use takes the same time however many there are; a name is looked up in one table after the other, the last one first.
#[derive(Drop)]
pub struct Visible {
    alloc: Global,
    stretches: Vec<Stretch>,
    /// How many names they have together.
    count: usize,
}

impl Model for Visible {
    ghost use Rattle.std.specs.Prelude.{◌≡◌, List, length};
    ghost use Rattle.op_types.specs.Names.{Named, all_of};

    ghost Value = { List Named };

    ghost view = { λ v. all_of v.stretches.items };

    ghost invariant = { λ v. v.count ≡ length (all_of v.stretches.items) };
}

impl Visible {
    pub fn new(alloc: Global) -> Visible
        ensures { result ≡ [] }
    {
        Visible {
            alloc,
            stretches: Vec::new(alloc),
            count: 0,
        }
    }

    /// How many names are visible: what `leave` goes back to.
    pub fn len(&self) -> usize
        ensures { result ≡ length self.now }
    {
        self.count
    }

    /// Declares a name.
    pub fn enter(&mut self, name: &[u8], meaning: Meaning) -> Result<(), NoMemory>
        ensures { IfOk result (λ _. self.new ≡ self.old ++ record { name = lower name.now; meaning = meaning } ∷ []) }
    {
        let name = lowered(self.alloc, name)?;
        let count = self.count.checked_add(1).ok_or(NoMemory)?;
        begin(self.alloc, &mut self.stretches)?;
        let last = self.stretches.len() - 1;
        self.stretches[last].enter(name, meaning)?;
        self.count = count;
        Ok(())
    }

    /// Declares these names once more.
    pub fn enter_all(&mut self, others: &SharedNames) -> Result<(), NoMemory>
        ensures { IfOk result (λ _. self.new ≡ self.old ++ others.now) }
    {
        let count = self.count.checked_add(others.len()).ok_or(NoMemory)?;
        let stretch = Stretch::behind(self.alloc, Some(others.share()?));
        self.stretches.push(stretch)?;
        self.count = count;
        Ok(())
    }

    /// What was declared behind the first `count` names.
    pub fn since(&self, count: usize) -> Result<SharedNames, NoMemory>
        ensures { IfOk result (λ v. v ≡ drop count self.now) }
    {
        let mut copy = Names::new(self.alloc);
        let mut left = count;
        for stretch in &self.stretches {
            stretch.copy_since(left, &mut copy)?;
            left = left.saturating_sub(stretch.len());
        }
        SharedNames::of(copy)
    }

    /// Leaves a scope: all names but the first `count` are gone.
    pub fn leave(&mut self, count: usize)
        ensures { self.new ≡ take count self.old }
    {
        while !self.stretches.is_empty() {
            let at = self.stretches.len() - 1;
            let before = self.count - self.stretches[at].len();
            if before <= count {
                self.stretches[at].leave(count - before);
                self.count = self.count.min(count);
                return;
            }
            self.stretches.truncate(at);
            self.count = before;
        }
    }

    /// What a name stands for.
    pub fn look_up(&self, name: &[u8]) -> Result<Option<&Meaning>, NoMemory>
        ensures { IfOk result (λ m. option_copied m ≡ meaning_of self.now (lower name.now)) }
    {
        let key = lowered(self.alloc, name)?;
        for stretch in self.stretches.iter().rev() {
            match stretch.look_up(&key) {
                Some(meaning) => return Ok(Some(meaning)),
                None => {}
            }
        }
        Ok(None)
    }

    /// Whether a name was declared behind the first `count` ones.
    pub fn is_declared_since(&self, count: usize, name: &[u8]) -> Result<bool, NoMemory>
        ensures { IfOk result (λ b. b ≡ is_some (meaning_of (drop count self.now) (lower name.now))) }
    {
        let key = lowered(self.alloc, name)?;
        let mut before = self.count;
        for stretch in self.stretches.iter().rev() {
            if before <= count {
                return Ok(false);
            }
            before -= stretch.len();
            if stretch.is_declared_since(count.saturating_sub(before), &key) {
                return Ok(true);
            }
        }
        Ok(false)
    }
}

/// There is a stretch in which names can be declared.
fn begin(alloc: Global, stretches: &mut Vec<Stretch>) -> Result<(), NoMemory>
    ensures same { all_of stretches.new.items ≡ all_of stretches.old.items }
    ensures begun { IfOk result (λ _. 0 < length stretches.new.items) }
{
    if !stretches.is_empty() {
        return Ok(());
    }
    stretches.push(Stretch::behind(alloc, None))?;
    Ok(())
}

//! Names that were declared in one place, behind what that place takes over.
ghost use Rattle.std.specs.Prelude.{◌≡◌, ◌≤◌, [], ◌∷◌, ◌++◌, IfErr, IfOk, drop, is_some, length, take};
ghost use Rattle.std.specs.Option.{option_copied};
ghost use Rattle.op_types.specs.Names.{meaning_of, taken_over};

use crate::Meaning;
use crate::names::{Names, SharedNames};
use op_base::NoMemory;
use std::alloc::Global;
use std::marker::Model;

/// Names that others see too, and behind them those that were declared here.
#[derive(Drop)]
pub struct Stretch {
    shared: Option<SharedNames>,
    own: Names,
}

impl Model for Stretch {
    ghost use Rattle.std.specs.Prelude.{List, ◌++◌};
    ghost use Rattle.op_types.specs.Names.{Named, taken_over};

    ghost Value = { List Named };

    ghost view = { λ s. taken_over s.shared ++ s.own };
}

impl Stretch {
    /// A stretch that takes over these names, if any.
    pub fn behind(alloc: Global, shared: Option<SharedNames>) -> Stretch
        ensures { result ≡ taken_over shared }
    {
        Stretch {
            shared,
            own: Names::new(alloc),
        }
    }

    pub fn len(&self) -> usize
        ensures { result ≡ length self.now }
    {
        len_of(&self.shared) + self.own.len()
    }

    /// Declares a name that is in small letters.
    pub fn enter(&mut self, name: Vec<u8>, meaning: Meaning) -> Result<(), NoMemory>
        ensures entered { IfOk result (λ _. self.new ≡ self.old ++ record { name = name.items; meaning = meaning } ∷ []) }
        ensures kept { IfErr result (λ _. self.new ≡ self.old) }
    {
        self.own.enter(name, meaning)
    }

    /// All names but the first `count` are gone.
    pub fn leave(&mut self, count: usize)
        ensures { self.new ≡ take count self.old }
    {
        self.own.leave(count.saturating_sub(len_of(&self.shared)));
        match &mut self.shared {
            None => {}
            Some(shared) => shared.leave(count),
        }
    }

    /// What a name stands for.
    pub fn look_up(&self, key: &Vec<u8>) -> Option<&Meaning>
        ensures { option_copied result ≡ meaning_of self.now key.now.items }
    {
        match self.own.look_up(self.own.len(), key) {
            Some(meaning) => Some(meaning),
            None => match &self.shared {
                None => None,
                Some(shared) => shared.look_up(key),
            },
        }
    }

    /// Whether a name was declared behind the first `count`.
    pub fn is_declared_since(&self, count: usize, key: &Vec<u8>) -> bool
        ensures { result ≡ is_some (meaning_of (drop count self.now) key.now.items) }
    {
        let behind = count.saturating_sub(len_of(&self.shared));
        if self.own.is_declared_since(self.own.len(), behind, key) {
            return true;
        }
        match &self.shared {
            None => false,
            Some(shared) => shared.is_declared_since(count, key),
        }
    }

    /// Declares in `copy` once more what was declared behind the first `count`.
    pub fn copy_since(&self, count: usize, copy: &mut Names) -> Result<(), NoMemory>
        ensures { IfOk result (λ _. copy.new ≡ copy.old ++ drop count self.now) }
    {
        copy_shared(&self.shared, count, copy)?;
        let behind = count.saturating_sub(len_of(&self.shared));
        self.own.copy_since(self.own.len(), behind, copy)
    }
}

/// How many names are taken over.
fn len_of(shared: &Option<SharedNames>) -> usize
    ensures counts { result ≡ length (taken_over shared.now) }
    ensures few { result ≤ 9223372036854775807 }
{
    match shared {
        None => 0,
        Some(shared) => shared.len(),
    }
}

/// Declares in `copy` once more the names that are taken over, behind the first `count`.
fn copy_shared(shared: &Option<SharedNames>, count: usize, copy: &mut Names) -> Result<(), NoMemory>
    ensures { IfOk result (λ _. copy.new ≡ copy.old ++ drop count (taken_over shared.now)) }
{
    match shared {
        None => Ok(()),
        Some(shared) => shared.copy_since(count, copy),
    }
}

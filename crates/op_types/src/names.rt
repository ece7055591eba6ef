//! Names in the order of their declarations, with an index.
ghost use Rattle.std.specs.Prelude.{◌≡◌, ◌≤◌, ◌-◌, [], ◌∷◌, ◌++◌, IfErr, IfOk, drop, is_some, length, map, take};
ghost use Rattle.std.specs.Option.{option_copied};
ghost use Rattle.op_types.specs.Names.{last_named, meaning_of, named};

use crate::Meaning;
use indexmap::IndexMap;
use op_base::NoMemory;
use std::alloc::Global;
use std::marker::Model;
use std::rc::Rc;

/// A name in small letters, and the next older declaration of it.
#[derive(Drop)]
struct Declared {
    name: Vec<u8>,
    meaning: Meaning,
    hides: Option<usize>,
}

/// Names in small letters, in order of declaration, with what each stands for.
#[derive(Drop)]
pub struct Names {
    alloc: Global,
    declared: Vec<Declared>,
    /// For each name the last declaration of it.
    newest: IndexMap<Vec<u8>, Option<usize>>,
}

impl Model for Names {
    ghost use Rattle.std.specs.Prelude.{List, map};
    ghost use Rattle.op_types.specs.Names.{Agrees, Named, named};

    ghost Value = { List Named };

    ghost view = { λ n. map named n.declared.items };

    ghost invariant = { λ n. Agrees n.declared.items n.newest };
}

impl Names {
    pub fn new(alloc: Global) -> Names
        ensures { result ≡ [] }
    {
        Names {
            alloc,
            declared: Vec::new(alloc),
            newest: IndexMap::new(alloc),
        }
    }

    pub fn len(&self) -> usize
        ensures counts { result ≡ length self.now }
        ensures few { result ≤ 9223372036854775807 }
    {
        self.declared.len()
    }

    /// Declares a name that is in small letters.
    pub fn enter(&mut self, name: Vec<u8>, meaning: Meaning) -> Result<(), NoMemory>
        ensures entered { IfOk result (λ _. self.new ≡ self.old ++ record { name = name.items; meaning = meaning } ∷ []) }
        ensures kept { IfErr result (λ _. self.new ≡ self.old) }
    {
        let key = Vec::from_slice(self.alloc, name.as_slice())?;
        self.declared.reserve(1)?;
        let at = self.declared.len();
        let hides = self.newest.insert(key, Some(at))?.flatten();
        match self.declared.push(Declared {
            name,
            meaning,
            hides,
        }) {
            Ok(()) => Ok(()),
            Err(_) => unreachable!(),
        }
    }

    /// All names but the first `count` are gone.
    pub fn leave(&mut self, count: usize)
        ensures { self.new ≡ take count self.old }
    {
        while self.declared.len() > count {
            self.leave_last();
        }
    }

    fn leave_last(&mut self)
        ensures { self.new ≡ take (length self.old - 1) self.old }
    {
        if let Some(last) = self.declared.pop() {
            match self.newest.insert(last.name, last.hides) {
                Ok(_) => {}
                Err(_) => unreachable!(),
            }
        }
    }

    /// The number of the last declaration of a name among the first `within`.
    fn last_of(&self, within: usize, key: &Vec<u8>) -> Option<usize>
        ensures { result ≡ last_named (take within self.now) key.now.items }
    {
        let mut last = self.newest.get(key).copied().flatten();
        while let Some(at) = last {
            if at < within {
                return last;
            }
            last = self.declared[at].hides;
        }
        None
    }

    /// What a name stands for among the first `within`.
    pub fn look_up(&self, within: usize, key: &Vec<u8>) -> Option<&Meaning>
        ensures { option_copied result ≡ meaning_of (take within self.now) key.now.items }
    {
        let at = self.last_of(within, key)?;
        Some(&self.declared[at].meaning)
    }

    /// Whether a name was declared among the first `within`, behind the first `count`.
    pub fn is_declared_since(&self, within: usize, count: usize, key: &Vec<u8>) -> bool
        ensures { result ≡ is_some (meaning_of (drop count (take within self.now)) key.now.items) }
    {
        match self.last_of(within, key) {
            Some(at) => count <= at,
            None => false,
        }
    }

    /// Declares in `copy` once more what was declared among the first `within`, behind the first `count`.
    pub fn copy_since(&self, within: usize, count: usize, copy: &mut Names) -> Result<(), NoMemory>
        ensures { IfOk result (λ _. copy.new ≡ copy.old ++ drop count (take within self.now)) }
    {
        let declared = self.declared.as_slice();
        let (front, _) = declared.split_at(declared.len().min(within));
        let (_, behind) = front.split_at(front.len().min(count));
        copy.enter_copies(behind)
    }

    fn enter_copies(&mut self, declared: &[Declared]) -> Result<(), NoMemory>
        ensures { IfOk result (λ _. self.new ≡ self.old ++ map named declared.now) }
    {
        for one in declared {
            let name = Vec::from_slice(self.alloc, one.name.as_slice())?;
            let meaning = one.meaning.copy(self.alloc)?;
            self.enter(name, meaning)?;
        }
        Ok(())
    }
}

/// Names that several scopes see: the first ones of a table that all of them hold.
#[derive(Drop)]
pub struct SharedNames {
    names: Rc<Names>,
    count: usize,
}

impl Model for SharedNames {
    ghost use Rattle.std.specs.Prelude.{List, ◌≤◌, length, take};
    ghost use Rattle.op_types.specs.Names.{Named};

    ghost Value = { List Named };

    ghost view = { λ s. take s.count s.names.value };

    ghost invariant = { λ s. (s.count ≤ length s.names.value) × (s.count ≤ 9223372036854775807) };
}

impl SharedNames {
    /// All names of a table.
    pub fn of(names: Names) -> Result<SharedNames, NoMemory>
        ensures { IfOk result (λ s. s ≡ names) }
    {
        let count = names.len();
        let names = Rc::new(names.alloc, names)?;
        Ok(SharedNames { names, count })
    }

    /// The same names, of which no copy is made.
    pub fn share(&self) -> Result<SharedNames, NoMemory>
        ensures { IfOk result (λ s. s ≡ self.now) }
    {
        Ok(SharedNames {
            names: self.names.clone()?,
            count: self.count,
        })
    }

    pub fn len(&self) -> usize
        ensures counts { result ≡ length self.now }
        ensures few { result ≤ 9223372036854775807 }
    {
        self.count
    }

    /// All names but the first `count` are gone.
    pub fn leave(&mut self, count: usize)
        ensures { self.new ≡ take count self.old }
    {
        self.count = self.count.min(count);
    }

    /// What a name stands for.
    pub fn look_up(&self, key: &Vec<u8>) -> Option<&Meaning>
        ensures { option_copied result ≡ meaning_of self.now key.now.items }
    {
        self.names.look_up(self.count, key)
    }

    /// Whether a name was declared behind the first `count`.
    pub fn is_declared_since(&self, count: usize, key: &Vec<u8>) -> bool
        ensures { result ≡ is_some (meaning_of (drop count self.now) key.now.items) }
    {
        self.names.is_declared_since(self.count, count, key)
    }

    /// Declares in `copy` once more what was declared behind the first `count`.
    pub fn copy_since(&self, count: usize, copy: &mut Names) -> Result<(), NoMemory>
        ensures { IfOk result (λ _. copy.new ≡ copy.old ++ drop count self.now) }
    {
        self.names.copy_since(self.count, count, copy)
    }
}

//! Texts of which each is kept once.
ghost use Rattle.std.specs.Prelude.{◌≡◌, [], IfOk, length, nat_le};
ghost use Rattle.op_constants.specs.Keeping.{with_text};
ghost use Rattle.op_constants.specs.Texts.{number_of};
ghost use Rattle.op_layout.specs.Places.{layout_of};

use indexmap::IndexSet;
use op_base::NoMemory;
use op_layout::Layout;
use std::alloc::Global;
use std::marker::Model;

/// Different texts in the order in which they first came.
#[derive(Drop)]
pub struct Texts {
    alloc: Global,
    texts: IndexSet<Vec<u8>>,
}

impl Model for Texts {
    ghost use Rattle.std.specs.Prelude.{List, ℕ, map};

    ghost Value = { List (List ℕ) };

    ghost view = { λ t. map (λ text. text.items) t.texts.keys };
}

impl Texts {
    pub fn new(alloc: Global) -> Texts
        ensures { result ≡ [] }
    {
        Texts {
            alloc,
            texts: IndexSet::new(alloc),
        }
    }

    /// Keeps a copy of a text, if it is not there yet.
    pub fn keep(&mut self, text: &[u8]) -> Result<(), NoMemory>
        ensures { IfOk result (λ _. self.new ≡ with_text self.old text.now) }
    {
        let key = Vec::from_slice(self.alloc, text)?;
        self.texts.insert(key)?;
        Ok(())
    }

    /// How many there are.
    pub fn len(&self) -> usize
        ensures { result ≡ length self.now }
    {
        self.texts.len()
    }

    /// How many stand in front of a text; all of them, where it is not there.
    pub fn number_of(&self, text: &[u8]) -> usize
        ensures { result ≡ number_of self.now text.now }
    {
        self.texts.get_index_of(text).unwrap_or(self.texts.len())
    }

    /// Whether the constants that have these as their literals take at most so many bytes.
    pub fn is_within(&self, most: usize) -> bool
        ensures { result ≡ nat_le (length (layout_of self.now).bytes) most }
    {
        let mut room = most;
        for text in self.texts.as_slice() {
            match room.checked_sub(text.len()) {
                None => return false,
                Some(rest) => room = rest,
            }
        }
        true
    }

    /// The constants that have these as their literals, and nothing else.
    pub fn layout(&self, alloc: Global) -> Result<Layout, NoMemory>
        ensures { IfOk result (λ layout. layout ≡ layout_of self.now) }
    {
        Layout::of_literals(alloc, self.texts.as_slice())
    }
}

//! The numbers that a walk has reached.
ghost use Rattle.std.specs.Prelude.{◌≡◌, [], ◌∷◌, ◌++◌, IfOk, nat_eq, slice_set, true};
ghost use Rattle.std.specs.List.{list_any};

use op_base::NoMemory;
use std::alloc::Global;
use std::marker::Model;

/// The numbers that a walk has reached, in order. A number may come more than once.
#[derive(Drop)]
pub struct Reached {
    numbers: Vec<usize>,
    /// For each of the numbers up to a limit whether it was reached.
    marks: Vec<bool>,
}

impl Model for Reached {
    ghost use Rattle.std.specs.Prelude.{ℕ, List};
    ghost use Rattle.op_check_unit.specs.Numbering.{Marks};

    ghost Value = { List ℕ };

    ghost view = { λ r. r.numbers.items };

    ghost invariant = { λ r. Marks r.numbers.items r.marks.items };
}

impl Reached {
    /// None is reached. Whether one of the first `count` numbers is will be known at once.
    pub fn none(alloc: Global, count: usize) -> Result<Reached, NoMemory>
        ensures { IfOk result (λ r. r ≡ []) }
    {
        Ok(Reached {
            numbers: Vec::new(alloc),
            marks: vec![in alloc; false; count]?,
        })
    }

    pub fn as_slice(&self) -> &[usize]
        ensures { result.now ≡ self.now }
    {
        self.numbers.as_slice()
    }

    pub fn contains(&self, number: usize) -> bool
        ensures { result ≡ list_any (λ j. nat_eq j number) self.now }
    {
        match self.marks.get(number) {
            Some(mark) => *mark,
            None => self.numbers.iter().any(|other| *other == number),
        }
    }

    /// Puts a number behind the others.
    pub fn push(&mut self, number: usize) -> Result<(), NoMemory>
        ensures { IfOk result (λ _. self.new ≡ self.old ++ number ∷ []) }
    {
        self.numbers.push(number)?;
        mark(&mut self.marks, number);
        Ok(())
    }
}

/// Marks a number, if it is one of the first ones.
fn mark(marks: &mut Vec<bool>, number: usize)
    ensures { marks.new.items ≡ slice_set marks.old.items number true }
{
    if number < marks.len() {
        marks[number] = true;
    }
}

//! The first rule that a part breaks.
ghost use Rattle.std.specs.Prelude.{◌≡◌, Some, None};
ghost use Rattle.op_core.specs.Faults.{Faults, FirstIs, comes_before, earlier, kept, or_typed};

use crate::CheckError;
use op_base::Refusal;

/// What stays of the faults that are reported: the first one by line, column and the rule's number. All are of one file.
#[derive(Clone, Copy)]
pub struct FirstRefusal {
    pub kept: Option<Refusal>,
}

impl FirstRefusal {
    /// Before any fault.
    pub fn new() -> FirstRefusal
        ensures { result.kept ≡ None }
    {
        FirstRefusal { kept: None }
    }

    pub fn report(&mut self, fault: Refusal)
        ensures { self.new.kept ≡ earlier self.old.kept fault }
    {
        match self.kept {
            None => self.kept = Some(fault),
            Some(old) => {
                if precedes(fault, old) {
                    self.kept = Some(fault);
                }
            }
        }
    }

    /// The typed part, unless a fault was reported.
    pub fn or_typed<T: Drop>(self, typed: T) -> Result<T, CheckError>
        ensures { result ≡ or_typed self.kept typed }
    {
        match self.kept {
            None => Ok(typed),
            Some(refusal) => Err(CheckError::Refused(refusal)),
        }
    }
}

/// Whether a fault comes before another one of its file.
fn precedes(a: Refusal, b: Refusal) -> bool
    ensures { result ≡ comes_before a b }
{
    a.place.line < b.place.line
        || (a.place.line == b.place.line
            && (a.place.col < b.place.col
                || (a.place.col == b.place.col && a.rule.number < b.rule.number)))
}

/// What is kept of faults that are reported one after the other is the first of them.
pub fn first_is_kept()
    ensures { (faults : Faults) → FirstIs faults (kept None faults) }
{}

//! Labels that are there twice.
ghost use Rattle.std.specs.Prelude.{◌≡◌, ◌&&◌, ℤ, int_le, true, false, Some, IfOk};
ghost use Rattle.std.specs.BTreeMap.{get};
ghost use Rattle.std.specs.Ordering.{int_cmp};
ghost use Rattle.op_check_stmt.specs.Labels.{overlap, repeated};
ghost use Rattle.op_check_stmt.specs.Seen.{Apart, IsKept, Met, from_to};

use crate::case::Spot;
use op_base::{NoMemory, Place};
use op_core::Label;
use std::alloc::Global;
use std::collections::BTreeMap;

/// The first label, in the order of the text, that has a value of another one in front of it.
pub fn repeated(alloc: Global, labels: &[Spot]) -> Result<Option<Place>, NoMemory>
    ensures { IfOk result (λ place. place ≡ repeated labels.now) }
{
    let mut last_by_first = BTreeMap::new(alloc);
    for spot in labels {
        if meets(&last_by_first, spot.label) {
            return Ok(Some(spot.place));
        }
        keep(&mut last_by_first, spot.label)?;
    }
    Ok(None)
}

/// Keeps a label, unless it has no value.
fn keep(last_by_first: &mut BTreeMap<i32, i32>, label: Label) -> Result<(), NoMemory>
    ensures { IfOk result (λ _. IsKept last_by_first.old label last_by_first.new) }
{
    if label.last < label.first {
        return Ok(());
    }
    last_by_first.insert(label.first, label.last)?;
    Ok(())
}

/// Whether a label has a value of others, of which no two have one in common.
fn meets(last_by_first: &BTreeMap<i32, i32>, label: Label) -> bool
    requires { Apart last_by_first.now }
    ensures met { result ≡ true → Met last_by_first.now label }
    ensures apart { result ≡ false → (first : ℤ) → (last : ℤ) → get int_cmp last_by_first.now first ≡ Some last → overlap (from_to first last) label ≡ false }
{
    let mut up_to = last_by_first.range(..=label.last);
    match up_to.next_back() {
        None => false,
        Some((_, last)) => reaches(label, last),
    }
}

/// Whether a label has values, and begins at this number or in front of it.
fn reaches(label: Label, last: &i32) -> bool
    ensures { result ≡ (int_le label.first last.now && int_le label.first label.last) }
{
    label.first <= *last && label.first <= label.last
}

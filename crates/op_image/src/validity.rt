//! What may be built.
ghost use Rattle.std.specs.Prelude.{◌≡◌, length, nat_le, nat_lt};
ghost use Rattle.std.specs.List.{list_all};
ghost use Rattle.op_image.specs.Building.{is_buildable, is_laid_out};
ghost use Rattle.op_link.specs.Memory.{constants_size};

use op_layout::{Layout, LiteralPlace};
use op_link::are_small;
use op_low::{Low, valid};
use op_rv::RoutineId;

/// Whether `build` takes them: the code is valid, the layout has within the constants all that it may name, tables hold routines
/// that are there, and the globals take at most 15,728,640 bytes.
#[tactic(auto, unfolding(crate::specs::Building::is_buildable))]
pub fn buildable(low: &Low, layout: &Layout) -> bool
    ensures { result ≡ is_buildable low.now layout.now }
{
    valid(low) && laid_out(low, layout) && are_small(low.globals.as_slice())
}

#[tactic(auto, unfolding(crate::specs::Building::is_laid_out))]
fn laid_out(low: &Low, layout: &Layout) -> bool
    ensures { result ≡ is_laid_out low.now layout.now }
{
    low.counts.literals as usize <= layout.literals.as_slice().len()
        && low.counts.tables as usize <= layout.tables.as_slice().len()
        && low.counts.descriptors as usize <= layout.descriptors.as_slice().len()
        && literals_lie_within(layout, layout.literals.as_slice())
        && offsets_lie_within(layout, layout.tables.as_slice())
        && offsets_lie_within(layout, layout.descriptors.as_slice())
        && entries_exist(low, layout.entries.as_slice())
}

fn literals_lie_within(layout: &Layout, literals: &[LiteralPlace]) -> bool
    ensures { result ≡ list_all (λ place. nat_le place.offset (constants_size layout.now)) literals.now }
{
    literals
        .iter()
        .all(|place| lies_within(layout, place.offset))
}

fn offsets_lie_within(layout: &Layout, offsets: &[usize]) -> bool
    ensures { result ≡ list_all (λ offset. nat_le offset (constants_size layout.now)) offsets.now }
{
    offsets.iter().all(|offset| lies_within(layout, *offset))
}

fn lies_within(layout: &Layout, offset: usize) -> bool
    ensures { result ≡ nat_le offset (constants_size layout.now) }
{
    let bytes = layout.bytes.as_slice().len();
    offset <= bytes || (offset - bytes).div_ceil(4) <= layout.entries.as_slice().len()
}

fn entries_exist(low: &Low, entries: &[RoutineId]) -> bool
    ensures { result ≡ list_all (λ routine. nat_lt routine.0 (length low.now.routines)) entries.now }
{
    entries.iter().all(|routine| (routine.0 as usize) < low.routines.as_slice().len())
}

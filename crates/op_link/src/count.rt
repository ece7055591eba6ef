//! How many items a program has.
ghost use Rattle.std.specs.Prelude.{◌≡◌, ◌≤◌, nat_le};
ghost use Rattle.op_link.specs.Placing.{items_in_blocks, items_in_routine, items_in_routines, left_of};

use op_rv::{ObjectBlock, ObjectRoutine};

/// The most items whose code can be within the limit: each takes at least four bytes.
const MOST_ITEMS: usize = 16_777_216;

/// What blocks leave of the room for items, if it is enough.
#[tactic(auto, unfolding(crate::specs::Placing::left_of))]
fn left_by_blocks(room: usize, blocks: &[ObjectBlock]) -> Option<usize>
    ensures { result ≡ left_of room (items_in_blocks blocks.now) }
{
    let mut room = room;
    for block in blocks {
        room = room.checked_sub(block.items.as_slice().len())?;
    }
    Some(room)
}

/// What a routine leaves of the room for items, if it is enough.
#[tactic(auto, unfolding(crate::specs::Placing::left_of))]
fn left_by_routine(room: usize, routine: &ObjectRoutine) -> Option<usize>
    ensures { result ≡ left_of room (items_in_routine routine.now) }
{
    let room = room.checked_sub(routine.head.as_slice().len())?;
    left_by_blocks(room, routine.blocks.as_slice())
}

/// What routines leave of the room for items, if it is enough.
#[tactic(auto, unfolding(crate::specs::Placing::left_of))]
fn left_by_routines(room: usize, routines: &[ObjectRoutine]) -> Option<usize>
    ensures { result ≡ left_of room (items_in_routines routines.now) }
{
    let mut room = room;
    for routine in routines {
        room = left_by_routine(room, routine)?;
    }
    Some(room)
}

/// Whether the code may be within the limit, as far as the number of items tells.
#[tactic(auto, unfolding(crate::specs::Placing::left_of))]
pub(crate) fn is_small(routines: &[ObjectRoutine]) -> bool
    ensures { result ≡ nat_le (items_in_routines routines.now) 16777216 }
{
    left_by_routines(MOST_ITEMS, routines).is_some()
}

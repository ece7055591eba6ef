//! Where routines and blocks come to stand.
ghost use Rattle.std.specs.Prelude.{◌≡◌, ◌+◌, ◌*◌, ◌^◌, ◌<◌, ◌≤◌, IfOk, OnOk, length};
ghost use Rattle.op_link.specs.Reach.{block_in, head_in};
ghost use Rattle.op_link.specs.Placing.{HasRoom, behind, behind_blocks, behind_items, behind_routine, behind_routines, block_addresses, first_spot, items_in_blocks, items_in_routine, items_in_routines, placement_by, routine_place, routine_places};

use crate::reach::{Reach, reach_of, size_of};
use op_base::{NoMemory, Sequence};
use op_rv::{BlockId, Item, ObjectBlock, ObjectRoutine, RoutineId};
use std::alloc::Global;

/// The addresses of a routine.
#[derive(Drop)]
pub struct RoutinePlace {
    /// Of its head.
    pub head: u32,
    /// Of each of its blocks.
    pub blocks: Sequence<u32>,
}

/// Where the code stands.
#[derive(Drop)]
pub struct Placement {
    pub routines: Sequence<RoutinePlace>,
    /// The first address behind the code.
    pub end: u32,
}

/// How far the code has come.
#[derive(Clone, Copy)]
pub struct Spot {
    /// The address, if every item had its longest form.
    pub longest: u32,
    /// The address.
    pub address: u32,
}

/// The address behind the 18 instructions with which a program begins.
const BEGINNING: u32 = 0x0001_0048;

/// Where the first routine begins.
pub(crate) fn first_spot() -> Spot
    ensures { result ≡ first_spot }
{
    Spot {
        longest: BEGINNING,
        address: BEGINNING,
    }
}

/// The address of a block of the routine `r`, if it is known.
#[tactic(auto, unfolding(crate::specs::Reach::block_in))]
pub(crate) fn block_in(known: &[RoutinePlace], r: usize, block: BlockId) -> Option<u32>
    ensures { result ≡ block_in known.now r block.0 }
{
    match known.get(r) {
        None => None,
        Some(place) => place.blocks.as_slice().get(block.0 as usize).copied(),
    }
}

/// The address of the head of a routine, if it is known.
#[tactic(auto, unfolding(crate::specs::Reach::head_in))]
pub(crate) fn head_in(known: &[RoutinePlace], routine: RoutineId) -> Option<u32>
    ensures { result ≡ head_in known.now routine.0 }
{
    match known.get(routine.0 as usize) {
        None => None,
        Some(place) => Some(place.head),
    }
}

/// Behind an item of the routine `r`.
#[tactic(auto, unfolding(crate::specs::Placing::behind))]
pub(crate) fn behind(known: &[RoutinePlace], r: usize, spot: Spot, item: &Item) -> Spot
    requires room { HasRoom spot 1 }
    ensures value { result ≡ behind known.now r spot item.now }
    ensures longest { result.longest ≤ spot.longest + 12 }
    ensures address { result.address ≤ spot.address + 12 }
{
    let reach = reach_of(known, r, spot.longest, item);
    Spot {
        longest: spot.longest + size_of(Reach::ByRegister, item),
        address: spot.address + size_of(reach, item),
    }
}

/// Behind items of the routine `r`.
pub(crate) fn behind_items(known: &[RoutinePlace], r: usize, spot: Spot, items: &[Item]) -> Spot
    requires room { HasRoom spot (length items.now) }
    ensures value { result ≡ behind_items known.now r spot items.now }
    ensures longest { result.longest ≤ spot.longest + 12 * length items.now }
    ensures address { result.address ≤ spot.address + 12 * length items.now }
{
    let mut spot = spot;
    for item in items {
        spot = behind(known, r, spot, item);
    }
    spot
}

/// The addresses of blocks of the routine `r` that stand one after the other.
fn place_blocks(
    alloc: Global,
    known: &[RoutinePlace],
    r: usize,
    spot: &mut Spot,
    blocks: &[ObjectBlock],
) -> Result<Vec<u32>, NoMemory>
    requires room { HasRoom spot.old (items_in_blocks blocks.now) }
    ensures addresses { IfOk result (λ addresses. addresses.items ≡ block_addresses known.now r spot.old blocks.now) }
    ensures end { OnOk result (spot.new ≡ behind_blocks known.now r spot.old blocks.now) }
    ensures longest { OnOk result (spot.new.longest ≤ spot.old.longest + 12 * items_in_blocks blocks.now) }
    ensures address { OnOk result (spot.new.address ≤ spot.old.address + 12 * items_in_blocks blocks.now) }
{
    let mut addresses = Vec::new(alloc);
    for block in blocks {
        addresses.push(spot.address)?;
        *spot = behind_items(known, r, *spot, block.items.as_slice());
    }
    Ok(addresses)
}

/// The addresses of the routine `r`.
#[tactic(auto, unfolding(crate::specs::Placing::routine_place))]
fn place_routine(
    alloc: Global,
    known: &[RoutinePlace],
    r: usize,
    spot: &mut Spot,
    routine: &ObjectRoutine,
) -> Result<RoutinePlace, NoMemory>
    requires room { HasRoom spot.old (items_in_routine routine.now) }
    ensures place { IfOk result (λ place. place ≡ routine_place known.now r spot.old routine.now) }
    ensures end { OnOk result (spot.new ≡ behind_routine known.now r spot.old routine.now) }
    ensures longest { OnOk result (spot.new.longest ≤ spot.old.longest + 12 * items_in_routine routine.now) }
    ensures address { OnOk result (spot.new.address ≤ spot.old.address + 12 * items_in_routine routine.now) }
{
    let head = spot.address;
    *spot = behind_items(known, r, *spot, routine.head.as_slice());
    let blocks = place_blocks(alloc, known, r, spot, routine.blocks.as_slice())?;
    Ok(RoutinePlace {
        head,
        blocks: Sequence::from(blocks),
    })
}

/// Where the code stands, if items go to what they name as far as these addresses tell. What they do not have is taken to be
/// far.
#[tactic(auto, unfolding(crate::specs::Placing::placement_by))]
pub(crate) fn place(
    alloc: Global,
    known: &[RoutinePlace],
    routines: &[ObjectRoutine],
) -> Result<Placement, NoMemory>
    requires small { items_in_routines routines.now ≤ 16777216 }
    ensures { IfOk result (λ placement. placement ≡ placement_by known.now routines.now) }
{
    let mut places = Vec::new(alloc);
    let mut spot = first_spot();
    for (r, routine) in routines.iter().enumerate() {
        places.push(place_routine(alloc, known, r, &mut spot, routine)?)?;
    }
    Ok(Placement {
        routines: Sequence::from(places),
        end: spot.address,
    })
}

//! Whether objects and a layout may be linked.
ghost use Rattle.std.specs.Prelude.{◌≡◌, ◌≤◌, ◌+◌, length, nat_le, nat_lt, slice_get};
ghost use Rattle.std.specs.List.{list_all};
ghost use Rattle.op_link.specs.Linking.{all_names_exist, has_symbol, is_linkable, lies_within, names_exist};
ghost use Rattle.op_link.specs.Memory.{constants_size, globals_size};

use crate::fields::routines_have_fields;
use crate::globals::are_small;
use op_layout::Layout;
use op_rv::{BlockId, Item, ObjectBlock, ObjectRoutine, Objects, RoutineId, Symbol};

/// Whether `link` takes them: the entry is there, the globals take at most 15,728,640 bytes, with those between them, the registers and immediates of
/// all instructions fit, and what the items and the tables name is there.
#[tactic(auto, unfolding(crate::specs::Linking::is_linkable))]
pub fn linkable(objects: &Objects, layout: &Layout) -> bool
    ensures { result ≡ is_linkable objects.now layout.now }
{
    has_routine(objects, objects.entry)
        && are_small(objects.globals.as_slice())
        && routines_have_fields(objects.routines.as_slice())
        && routines_exist(objects, layout, objects.routines.as_slice())
        && entries_exist(objects, layout.entries.as_slice())
}

fn has_routine(objects: &Objects, routine: RoutineId) -> bool
    ensures { result ≡ nat_lt routine.0 (length objects.now.routines) }
{
    (routine.0 as usize) < objects.routines.as_slice().len()
}

fn entries_exist(objects: &Objects, entries: &[RoutineId]) -> bool
    ensures { result ≡ list_all (λ routine. nat_lt routine.0 (length objects.now.routines)) entries.now }
{
    entries.iter().all(|routine| has_routine(objects, *routine))
}

/// Whether a place in the constants lies within them.
fn lies_within(layout: &Layout, place: Option<usize>) -> bool
    ensures { result ≡ lies_within layout.now place }
{
    match place {
        None => false,
        Some(offset) => {
            let bytes = layout.bytes.as_slice().len();
            offset <= bytes || (offset - bytes).div_ceil(4) <= layout.entries.as_slice().len()
        }
    }
}

#[tactic(auto, unfolding(crate::specs::Linking::has_symbol))]
fn has_symbol(objects: &Objects, layout: &Layout, symbol: Symbol) -> bool
    ensures { result ≡ has_symbol objects.now layout.now symbol }
{
    match symbol {
        Symbol::Literal(id) => match layout.literals.as_slice().get(id.0 as usize) {
            None => false,
            Some(place) => lies_within(layout, Some(place.offset)),
        },
        Symbol::Table(id) => {
            lies_within(layout, layout.tables.as_slice().get(id.0 as usize).copied())
        }
        Symbol::Descriptor(id) => lies_within(
            layout,
            layout.descriptors.as_slice().get(id.0 as usize).copied(),
        ),
        Symbol::Global(id) => (id.0 as usize) < objects.globals.as_slice().len(),
        Symbol::Routine(id) => has_routine(objects, id),
    }
}

fn has_block(blocks: usize, block: BlockId) -> bool
    ensures { result ≡ nat_lt block.0 blocks }
{
    (block.0 as usize) < blocks
}

/// Whether what an item of a routine of so many blocks names is there.
#[tactic(auto, unfolding(crate::specs::Linking::names_exist))]
fn names_exist(objects: &Objects, layout: &Layout, blocks: usize, item: &Item) -> bool
    ensures { result ≡ names_exist objects.now layout.now blocks item.now }
{
    match item {
        Item::Plain(_) => true,
        Item::Address { rd: _, symbol } => has_symbol(objects, layout, *symbol),
        Item::Branch {
            op: _,
            left: _,
            right: _,
            block,
        } => has_block(blocks, *block),
        Item::Jump { block } => has_block(blocks, *block),
        Item::Call {
            routine,
            landing: _,
        } => has_routine(objects, *routine),
        Item::CallAt { landing: _ } => true,
    }
}

fn items_exist(objects: &Objects, layout: &Layout, blocks: usize, items: &[Item]) -> bool
    ensures { result ≡ list_all (names_exist objects.now layout.now blocks) items.now }
{
    items
        .iter()
        .all(|item| names_exist(objects, layout, blocks, item))
}

fn blocks_exist(objects: &Objects, layout: &Layout, count: usize, blocks: &[ObjectBlock]) -> bool
    ensures { result ≡ list_all (λ block. list_all (names_exist objects.now layout.now count) block.items) blocks.now }
{
    blocks.iter().all(|block| items_exist(objects, layout, count, block.items.as_slice()))
}

fn routine_exists(objects: &Objects, layout: &Layout, routine: &ObjectRoutine) -> bool
    ensures { result ≡ all_names_exist objects.now layout.now routine.now }
{
    let blocks = routine.blocks.as_slice();
    items_exist(objects, layout, blocks.len(), routine.head.as_slice())
        && blocks_exist(objects, layout, blocks.len(), blocks)
}

fn routines_exist(objects: &Objects, layout: &Layout, routines: &[ObjectRoutine]) -> bool
    ensures { result ≡ list_all (all_names_exist objects.now layout.now) routines.now }
{
    routines
        .iter()
        .all(|routine| routine_exists(objects, layout, routine))
}

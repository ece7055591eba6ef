//! From objects to an image.
ghost use Rattle.std.specs.Prelude.{◌≡◌, ◌+◌, ◌-◌, ◌<◌, ◌≤◌, IfErr, IfOk, IfSome, IsTrue, OnOk, Some, None, []};
ghost use Rattle.std.specs.List.{list_all};
ghost use Rattle.std.specs.Option.{option_map};
ghost use Rattle.op_link.specs.Code.{routine_has_fields};
ghost use Rattle.op_link.specs.Linking.{addresses_of, image_by, image_of, is_linkable, linked_size, linked_size_by, linked_size_of, longest, settled, sizes_of};
ghost use Rattle.op_link.specs.Loaded.{HasCode, IsLoaded, linked_sizes};
ghost use Rattle.op_link.specs.Memory.{are_in_range, code_address, constants_address, constants_size, globals_address, globals_size, initial_size, most_linked, segments_of};
ghost use Rattle.op_link.specs.Placing.{items_in_routines, placement_by};

use crate::addresses::Addresses;
use crate::code::CodeError;
use crate::count::is_small;
use crate::globals::{initial_size, place_globals, zero_size};
use crate::memory_map::{CODE_ADDRESS, Settings, Sizes, is_within};
use crate::place::{RoutinePlace, place};
use crate::writer::write;
use op_base::{NoMemory, Sequence};
use op_layout::Layout;
use op_rv::Objects;
use std::alloc::{AllocError, Global};

/// Why there is no image.
#[derive(Clone, Copy, Debug)]
pub enum LinkError {
    /// Code, constants and initial globals take more than 67,108,864 bytes.
    Limit,
    NoMemory,
}

impl From<AllocError> for LinkError {
    ghost use Rattle.op_link.specs.declared.linker.LinkError.TheVariants.{NoMemory};

    ghost from_gives = { λ _ outcome. outcome ≡ NoMemory };

    fn from(_error: AllocError) -> LinkError {
        LinkError::NoMemory
    }
}

impl From<NoMemory> for LinkError {
    ghost use Rattle.op_link.specs.declared.linker.LinkError.TheVariants.{NoMemory};

    ghost from_gives = { λ _ outcome. outcome ≡ NoMemory };

    fn from(_error: NoMemory) -> LinkError {
        LinkError::NoMemory
    }
}

/// How many bytes the parts of a program take whose code ends there, if that is within the limit.
#[tactic(auto, unfolding(crate::specs::Linking::sizes_of))]
fn sizes(code_end: u32, layout: &Layout, objects: &Objects) -> Option<Sizes>
    requires code { 0x00010000 ≤ code_end }
    requires few { globals_size objects.now.globals ≤ 15728640 }
    ensures is { IfSome result (λ sizes. sizes ≡ sizes_of code_end layout.now objects.now) }
    ensures within { IfSome result (λ sizes. linked_size_of sizes ≤ most_linked) }
    ensures few { IfSome result (λ sizes. (sizes.initial ≤ 15728640) × (sizes.zeros ≤ 15728640)) }
    ensures past { result ≡ None → most_linked < linked_size_of (sizes_of code_end layout.now objects.now) }
{
    let code = code_end - CODE_ADDRESS;
    let globals = objects.globals.as_slice();
    let initial = initial_size(globals);
    if !is_within(code, layout, initial) {
        return None;
    }
    let constants = layout.bytes.as_slice().len() + 4 * layout.entries.as_slice().len();
    Some(Sizes {
        code,
        constants: constants as u32,
        initial,
        zeros: zero_size(globals),
    })
}

/// Where everything stands, if the parts take these bytes.
#[tactic(auto, unfolding(crate::specs::Linking::addresses_of))]
fn addresses(
    alloc: Global,
    objects: &Objects,
    known: Sequence<RoutinePlace>,
    routines: Sequence<RoutinePlace>,
    sizes: &Sizes,
) -> Result<Addresses, AllocError>
    requires within { linked_size_of sizes.now ≤ most_linked }
    requires few { globals_size objects.now.globals ≤ 15728640 }
    ensures { IfOk result (λ addresses. addresses ≡ addresses_of known routines sizes.now objects.now) }
{
    let globals = place_globals(alloc, sizes.globals_address(), objects.globals.as_slice())?;
    Ok(Addresses {
        known,
        routines,
        constants: sizes.constants_address(),
        globals: Sequence::from(globals),
    })
}

/// The image in which an item goes directly to what these addresses have within its reach. `None` where that is not within
/// its reach in the image.
#[tactic(auto, unfolding(crate::specs::Linking::image_by, crate::specs::Linking::linked_size_by))]
fn link_by(
    alloc: Global,
    objects: &Objects,
    layout: &Layout,
    settings: &Settings,
    known: Sequence<RoutinePlace>,
) -> Result<Option<Vec<u8>>, LinkError>
    requires settings { IsTrue (are_in_range settings.now) }
    requires fields { IsTrue (list_all routine_has_fields objects.now.routines) }
    requires small { items_in_routines objects.now.routines ≤ 16777216 }
    requires few { globals_size objects.now.globals ≤ 15728640 }
    ensures image { IfOk result (λ found. option_map (λ image. image.items) found ≡ image_by known layout.now objects.now settings.now) }
    ensures within { OnOk result (linked_size_by known layout.now objects.now ≤ most_linked) }
    ensures limit { IfErr result (λ error. error ≡ LinkError.Limit → most_linked < linked_size_by known layout.now objects.now) }
{
    let code = place(alloc, known.as_slice(), objects.routines.as_slice())?;
    let sizes = match sizes(code.end, layout, objects) {
        None => return Err(LinkError::Limit),
        Some(sizes) => sizes,
    };
    let addresses = addresses(alloc, objects, known, code.routines, &sizes)?;
    match write(alloc, layout, objects, settings, &sizes, &addresses) {
        Ok(image) => Ok(Some(image)),
        Err(CodeError::OutOfReach) => Ok(None),
        Err(CodeError::NoMemory) => Err(LinkError::NoMemory),
    }
}

/// Where everything stands if every item has its longest form.
#[tactic(auto, unfolding(crate::specs::Linking::longest))]
fn longest(alloc: Global, objects: &Objects) -> Result<Sequence<RoutinePlace>, NoMemory>
    requires { items_in_routines objects.now.routines ≤ 16777216 }
    ensures { IfOk result (λ places. places ≡ longest objects.now) }
{
    let placement = place(alloc, &[], objects.routines.as_slice())?;
    Ok(placement.routines)
}

/// The image in which every item has its longest form.
fn link_longest(
    alloc: Global,
    objects: &Objects,
    layout: &Layout,
    settings: &Settings,
) -> Result<Vec<u8>, LinkError>
    requires linkable { IsTrue (is_linkable objects.now layout.now) }
    requires settings { IsTrue (are_in_range settings.now) }
    requires fields { IsTrue (list_all routine_has_fields objects.now.routines) }
    requires small { items_in_routines objects.now.routines ≤ 16777216 }
    requires few { globals_size objects.now.globals ≤ 15728640 }
    ensures image { IfOk result (λ image. Some image.items ≡ image_by [] layout.now objects.now settings.now) }
    ensures within { OnOk result (linked_size_by [] layout.now objects.now ≤ most_linked) }
    ensures limit { IfErr result (λ error. error ≡ LinkError.Limit → most_linked < linked_size_by [] layout.now objects.now) }
{
    let none = Sequence::from(Vec::new(alloc));
    match link_by(alloc, objects, layout, settings, none) {
        Ok(Some(image)) => Ok(image),
        Ok(None) => unreachable!(),
        Err(error) => Err(error),
    }
}

/// The image of a program: its code, which begins with the entry, its constants, and what it gets to run. `Limit` comes exactly
/// where code, constants and initial globals take more than 67,108,864 bytes.
#[tactic(auto, unfolding(crate::specs::Linking::is_linkable))]
pub fn link(
    alloc: Global,
    objects: &Objects,
    layout: &Layout,
    settings: &Settings,
) -> Result<Vec<u8>, LinkError>
    requires linkable { IsTrue (is_linkable objects.now layout.now) }
    requires settings { IsTrue (are_in_range settings.now) }
    ensures image { IfOk result (λ image. image.items ≡ image_of objects.now layout.now settings.now) }
    ensures within { OnOk result (linked_size objects.now layout.now settings.now ≤ most_linked) }
    ensures loads { IfOk result (λ image. IsLoaded image.items (segments_of (linked_sizes objects.now layout.now settings.now) settings.now)) }
    ensures code { IfOk result (λ image. HasCode image.items objects.now layout.now settings.now) }
    ensures limit { IfErr result (λ error. error ≡ LinkError.Limit → most_linked < linked_size objects.now layout.now settings.now) }
{
    if !is_small(objects.routines.as_slice()) {
        return Err(LinkError::Limit);
    }
    let known = longest(alloc, objects)?;
    match link_by(alloc, objects, layout, settings, known) {
        Ok(Some(image)) => Ok(image),
        Ok(None) => link_longest(alloc, objects, layout, settings),
        Err(error) => Err(error),
    }
}

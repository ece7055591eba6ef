//! Where global variables lie, and what the file has of them.
ghost use Rattle.std.specs.Prelude.{◌≡◌, ◌+◌, ◌-◌, ◌^◌, ◌<◌, ◌≤◌, ◌++◌, false, true, IfOk, OnOk, None, Some, if◌then◌else◌, nat_le, replicate};
ghost use Rattle.op_link.specs.Memory.{begin_by, begin_of, begins_as_zero, behind_global, behind_globals, global_addresses, global_bytes, globals_size, initial_bytes, if_small, initial_size, lies_in, variable_size, zero_size};

use op_rv::GlobalVariable;
use std::alloc::{AllocError, Global};

/// The most bytes that all global variables may take.
const MOST_GLOBALS: u32 = 15_728_640;

/// Whether the variable begins with no bytes of its own.
#[tactic(auto, unfolding(crate::specs::Memory::begins_as_zero))]
fn begins_as_zero(global: &GlobalVariable) -> bool
    ensures { result ≡ begins_as_zero global.now }
{
    global.initial.as_slice().len() == 0
}

/// Whether it lies among those that begin as zero, or among the others.
#[tactic(auto, unfolding(crate::specs::Memory::lies_in))]
fn lies_in(as_zero: bool, global: &GlobalVariable) -> bool
    ensures { result ≡ lies_in as_zero global.now }
{
    if as_zero {
        return begins_as_zero(global);
    }
    !begins_as_zero(global)
}

/// Where so many bytes begin that come at an offset or behind it.
#[tactic(auto, unfolding(crate::specs::Memory::begin_by))]
fn begin_by(size: u32, from: u32) -> u32
    requires { from ≤ 15728640 }
    ensures { result ≡ begin_by size from }
{
    if size == 0 {
        return from;
    }
    if size % 4 == 0 {
        return (from + 3) / 4 * 4;
    }
    if size % 2 == 0 {
        return (from + 1) / 2 * 2;
    }
    from
}

/// The offset behind a variable that comes at an offset or behind it, if it is within what all may take.
#[tactic(auto, unfolding(crate::specs::Memory::if_small))]
fn end_of(from: u32, global: &GlobalVariable) -> Option<u32>
    requires { from ≤ 15728640 }
    ensures { result ≡ if_small (begin_of from global.now + variable_size global.now) }
{
    let initial = global.initial.as_slice().len();
    if initial > MOST_GLOBALS as usize || global.zeros > MOST_GLOBALS {
        return None;
    }
    let size = initial as u32 + global.zeros;
    let end = begin_by(size, from) + size;
    if end > MOST_GLOBALS {
        return None;
    }
    Some(end)
}

/// The offset behind a variable in either stretch, if it is within what all may take.
#[tactic(auto, unfolding(crate::specs::Memory::behind_global, crate::specs::Memory::if_small))]
fn behind_within(as_zero: bool, from: u32, global: &GlobalVariable) -> Option<u32>
    requires { from ≤ 15728640 }
    ensures { result ≡ if_small (behind_global as_zero from global.now) }
{
    if lies_in(as_zero, global) {
        return end_of(from, global);
    }
    Some(from)
}

/// The offset behind variables in either stretch, if it is within what all may take.
#[tactic(auto, unfolding(crate::specs::Memory::if_small))]
fn end_within(as_zero: bool, from: u32, globals: &[GlobalVariable]) -> Option<u32>
    requires { from ≤ 15728640 }
    ensures { result ≡ if_small (behind_globals as_zero from globals.now) }
{
    let mut end = from;
    for global in globals {
        match behind_within(as_zero, end, global) {
            None => return None,
            Some(next) => end = next,
        }
    }
    Some(end)
}

/// Whether all global variables take no more than they may: 15,728,640 bytes.
#[tactic(auto, unfolding(crate::specs::Memory::if_small))]
pub fn are_small(globals: &[GlobalVariable]) -> bool
    ensures { result ≡ nat_le (globals_size globals.now) 15728640 }
{
    match end_within(false, 0, globals) {
        None => false,
        Some(own) => end_within(true, own, globals).is_some(),
    }
}

/// The bytes of all variables that begin with bytes of their own, with those between them.
#[tactic(auto, unfolding(crate::specs::Memory::if_small))]
pub(crate) fn initial_size(globals: &[GlobalVariable]) -> u32
    requires { globals_size globals.now ≤ 15728640 }
    ensures is { result ≡ initial_size globals.now }
    ensures bound { result ≤ globals_size globals.now }
{
    match end_within(false, 0, globals) {
        None => unreachable!(),
        Some(size) => size,
    }
}

/// The bytes of all variables that begin as zero, with those between them.
#[tactic(auto, unfolding(crate::specs::Memory::if_small))]
pub(crate) fn zero_size(globals: &[GlobalVariable]) -> u32
    requires { globals_size globals.now ≤ 15728640 }
    ensures { result ≡ zero_size globals.now }
{
    let own = initial_size(globals);
    match end_within(true, own, globals) {
        None => unreachable!(),
        Some(size) => size - own,
    }
}

/// The offset behind a variable in either stretch.
#[tactic(auto, unfolding(crate::specs::Memory::if_small))]
fn behind(as_zero: bool, from: u32, global: &GlobalVariable) -> u32
    requires { behind_global as_zero from global.now ≤ 15728640 }
    ensures { result ≡ behind_global as_zero from global.now }
{
    match behind_within(as_zero, from, global) {
        None => unreachable!(),
        Some(end) => end,
    }
}

/// Where a variable begins that comes at an offset or behind it.
fn begin_of(from: u32, global: &GlobalVariable) -> u32
    requires { begin_of from global.now + variable_size global.now ≤ 15728640 }
    ensures is { result ≡ begin_of from global.now }
    ensures bound { result ≤ 15728640 }
{
    let size = global.initial.as_slice().len() as u32 + global.zeros;
    begin_by(size, from)
}

/// Where a variable begins, by the next offsets in the two stretches.
fn offset_of(own: u32, other: u32, global: &GlobalVariable) -> u32
    requires own { behind_global false own global.now ≤ 15728640 }
    requires other { behind_global true other global.now ≤ 15728640 }
    ensures is { result ≡ begin_of (if begins_as_zero global.now then other else own) global.now }
    ensures bound { result ≤ 15728640 }
{
    if begins_as_zero(global) {
        return begin_of(other, global);
    }
    begin_of(own, global)
}

/// The address of each variable, if the first stretch begins at `start`.
pub(crate) fn place_globals(
    alloc: Global,
    start: u32,
    globals: &[GlobalVariable],
) -> Result<Vec<u32>, AllocError>
    requires few { globals_size globals.now ≤ 15728640 }
    requires room { start + 15728640 < 2 ^ 32 }
    ensures { IfOk result (λ addresses. addresses.items ≡ global_addresses start globals.now) }
{
    let mut own = 0;
    let mut other = initial_size(globals);
    let mut addresses = Vec::new(alloc);
    for global in globals {
        addresses.push(start + offset_of(own, other, global))?;
        own = behind(false, own, global);
        other = behind(true, other, global);
    }
    Ok(addresses)
}

/// Appends zeros.
pub(crate) fn push_zeros(image: &mut Vec<u8>, count: u32) -> Result<(), AllocError>
    ensures { OnOk result (image.new.items ≡ image.old.items ++ replicate count 0) }
{
    for _turn in 0..count {
        image.push(0)?;
    }
    Ok(())
}

/// Appends what the file has of a variable that comes at an offset or behind it.
#[tactic(auto, unfolding(crate::specs::Memory::global_bytes))]
fn push_global(image: &mut Vec<u8>, from: u32, global: &GlobalVariable) -> Result<(), AllocError>
    requires { behind_global false from global.now ≤ 15728640 }
    ensures { OnOk result (image.new.items ≡ image.old.items ++ global_bytes from global.now) }
{
    if begins_as_zero(global) {
        return Ok(());
    }
    push_zeros(image, begin_of(from, global) - from)?;
    image.extend_from_slice(global.initial.as_slice())?;
    push_zeros(image, global.zeros)
}

/// Appends what the file has of the variables.
pub(crate) fn push_globals(
    image: &mut Vec<u8>,
    globals: &[GlobalVariable],
) -> Result<(), AllocError>
    requires { globals_size globals.now ≤ 15728640 }
    ensures { OnOk result (image.new.items ≡ image.old.items ++ initial_bytes globals.now) }
{
    let mut from = 0;
    for global in globals {
        push_global(image, from, global)?;
        from = behind(false, from, global);
    }
    Ok(())
}

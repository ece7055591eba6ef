//! Values of record and array types, from place to place.
ghost use Rattle.op_places.specs.Moves.{by_words, bytes_code, copy_code, copy_number, is_short, limit_of, near, taken_code, unit_code, unit_load, unit_of, unit_store, units_code, units_in};
ghost use Rattle.std.specs.Prelude.{◌≡◌, ◌++◌, ◌+◌, ◌*◌, ◌<◌, ◌≤◌, ◌^◌, IfOk, OnOk};

use crate::frame::Frame;
use crate::number::NEAR;
use crate::place::push_place;
use crate::push::{push_call, push_load, push_store};
use crate::spot::Spot;
use op_base::NoMemory;
use op_compute::push_const;
use op_constants::{alignment_of, size_of};
use op_core::{Core, TypeId};
use op_low::{Instruction, VirtualRegister};
use op_mir::{LocalId, Path, Root};
use op_rt_text::{COPY_BYTES, COPY_WORDS, TAKE};
use op_rv::{LoadOp, RoutineId, StoreOp};
use std::alloc::Global;

/// Whether all addresses of values of the type are multiples of 4.
pub fn by_words(core: &Core, of: TypeId) -> bool
    ensures { result ≡ by_words core.now of }
{
    alignment_of(core, of) == 4
}

fn unit_of(words: bool) -> u32
    ensures { result ≡ unit_of words }
{
    if words { 4 } else { 1 }
}

fn units_in(words: bool, size: u32) -> u32
    ensures { result ≡ units_in words size }
{
    if words { size / 4 } else { size }
}

/// Whether so many bytes are copied one by one.
fn is_short(words: bool, size: u32) -> bool
    ensures { result ≡ is_short words size }
{
    units_in(words, size) <= 8
}

/// How far behind an address a value of so many bytes may begin that is copied.
pub fn limit_of(words: bool, size: u32) -> u32
    ensures value { result ≡ limit_of words size }
    ensures near { result ≤ near }
{
    if is_short(words, size) { NEAR } else { 0 }
}

fn load_of(words: bool) -> LoadOp
    ensures { result ≡ unit_load words }
{
    if words { LoadOp::Lw } else { LoadOp::Lbu }
}

fn store_of(words: bool) -> StoreOp
    ensures { result ≡ unit_store words }
{
    if words { StoreOp::Sw } else { StoreOp::Sb }
}

fn copy_of(words: bool) -> RoutineId
    ensures { result.0 ≡ copy_number words }
{
    if words { COPY_WORDS } else { COPY_BYTES }
}

/// A word or a byte by its number from 0.
fn push_unit(
    code: &mut Vec<Instruction>,
    words: bool,
    n: u32,
    from: Spot,
    to: Spot,
) -> Result<(), NoMemory>
    requires few { n < 8 }
    requires from_near { from.offset ≤ near }
    requires to_near { to.offset ≤ near }
    ensures { OnOk result (code.new.items ≡ code.old.items ++ unit_code words n from to) }
{
    let distance = n * unit_of(words);
    push_load(
        code,
        load_of(words),
        to.free,
        from.base,
        from.offset + distance,
    )?;
    push_store(
        code,
        store_of(words),
        to.free,
        to.base,
        to.offset + distance,
    )
}

fn push_units(
    code: &mut Vec<Instruction>,
    words: bool,
    count: u32,
    from: Spot,
    to: Spot,
) -> Result<(), NoMemory>
    requires few { count ≤ 8 }
    requires from_near { from.offset ≤ near }
    requires to_near { to.offset ≤ near }
    ensures { OnOk result (code.new.items ≡ code.old.items ++ units_code words count from to) }
{
    for n in 0..count {
        push_unit(code, words, n, from, to)?;
    }
    Ok(())
}

/// So many bytes from a spot to another one.
pub fn push_bytes(
    alloc: Global,
    code: &mut Vec<Instruction>,
    words: bool,
    size: u32,
    from: Spot,
    to: Spot,
) -> Result<(), NoMemory>
    requires from_near { from.offset ≤ near }
    requires to_near { to.offset ≤ near }
    ensures { OnOk result (code.new.items ≡ code.old.items ++ bytes_code words size from to) }
{
    if size == 0 {
        return push_const(code, to.free, 0);
    }
    if is_short(words, size) {
        return push_units(code, words, units_in(words, size), from, to);
    }
    push_const(code, to.free, size)?;
    let arguments = vec![in alloc; to.base, from.base, to.free]?;
    push_call(code, copy_of(words), arguments, to.free)
}

/// All parts of what stands at a place, to another one.
pub fn push_copy(
    alloc: Global,
    code: &mut Vec<Instruction>,
    core: &Core,
    frame: &Frame,
    of: TypeId,
    to: &Path,
    from: &Path,
) -> Result<(), NoMemory>
    ensures { OnOk result (code.new.items ≡ code.old.items ++ copy_code core.now frame.now of to.now from.now) }
{
    let words = by_words(core, of);
    let size = size_of(core, of);
    let limit = limit_of(words, size);
    let free = frame.bank.scratch(0)?;
    let source = push_place(
        code,
        core,
        frame,
        limit,
        from.root,
        from.steps.as_slice(),
        free,
    )?;
    let target = push_place(
        code,
        core,
        frame,
        limit,
        to.root,
        to.steps.as_slice(),
        source.free,
    )?;
    push_bytes(alloc, code, words, size, source, target)
}

/// A variable takes so many bytes from the address that a register has, which is then free.
#[tactic(auto, unfolding(crate::specs::Moves::taken_code))]
pub fn push_taken(
    alloc: Global,
    code: &mut Vec<Instruction>,
    core: &Core,
    frame: &Frame,
    from: VirtualRegister,
    size: u32,
    variable: LocalId,
) -> Result<(), NoMemory>
    ensures { OnOk result (code.new.items ≡ code.old.items ++ taken_code core.now frame.now from size variable) }
{
    if size == 0 {
        return Ok(());
    }
    let root = Root::Local { variable };
    let place = push_place(code, core, frame, 0, root, &[], frame.bank.scratch(0)?)?;
    push_store(code, StoreOp::Sw, from, place.base, 0)?;
    push_const(code, from, size)?;
    let arguments = vec![in alloc; place.base, from]?;
    push_call(code, TAKE, arguments, from)
}

//! How code comes to a place in memory.
ghost use Rattle.op_compute.specs.Bank.{register_of};
ghost use Rattle.op_compute.specs.Ranges.{distance_register};
ghost use Rattle.op_places.specs.Places.{behind_code, element_code, home_code, home_of, home_spot, index_code, place_code, place_of, power_of, scale_code, scaled, step_code, step_spot, steps_code, steps_spot, stored_code};
ghost use Rattle.op_constants.specs.Offsets.{element_size};
ghost use Rattle.std.specs.Prelude.{◌≡◌, ◌++◌, ◌<◌, ◌≤◌, IfOk, OnOk};

use crate::frame::Frame;
use crate::homes::{Home, home_at, offset_of, sum};
use crate::push::push_address;
use crate::spot::{Spot, after, at_register, at_scratch, push_reach};
use op_base::NoMemory;
use op_compute::{
    RuntimeError, push, push_alu, push_branch, push_const, push_distance, push_shift,
};
use op_constants::{element_size, field_offset};
use op_core::Core;
use op_low::{Instruction, VirtualRegister};
use op_mir::{Root, Step};
use op_rv::{AluOp, BranchOp, GlobalId, ShiftOp, Symbol};

/// Where a root is kept.
pub fn home_of(core: &Core, frame: &Frame, root: Root) -> Result<Home, NoMemory>
    ensures { IfOk result (λ home. home ≡ home_of core.now frame.now root) }
{
    match root {
        Root::Global { variable } => Ok(Home::Shared {
            id: GlobalId(variable.0),
        }),
        Root::Local { variable } => Ok(home_at(frame.homes.as_slice(), variable)),
        Root::Through { variable } => Ok(home_at(frame.homes.as_slice(), variable)),
        Root::Temporary { .. } => Ok(Home::Stored {
            offset: offset_of(core, root, frame.temporaries, frame.roots.as_slice())?,
        }),
    }
}

/// The address of a byte of the locals. What has no bytes may lie behind all of them.
fn push_stored(
    code: &mut Vec<Instruction>,
    frame: &Frame,
    to: VirtualRegister,
    offset: u32,
) -> Result<(), NoMemory>
    ensures { OnOk result (code.new.items ≡ code.old.items ++ stored_code frame.now to offset) }
{
    if offset < frame.locals {
        return push(code, Instruction::Local { to, offset });
    }
    push_const(code, to, 0)
}

fn push_home(
    code: &mut Vec<Instruction>,
    frame: &Frame,
    free: VirtualRegister,
    home: Home,
) -> Result<Spot, NoMemory>
    ensures code { OnOk result (code.new.items ≡ code.old.items ++ home_code frame.now free home) }
    ensures spot { IfOk result (λ spot. spot ≡ home_spot free home) }
{
    match home {
        Home::Held { register } => Ok(at_register(register, free)),
        Home::Stored { offset } => {
            push_stored(code, frame, free, offset)?;
            at_scratch(free)
        }
        Home::Shared { id } => {
            push_address(code, free, Symbol::Global(id))?;
            at_scratch(free)
        }
    }
}

/// How far the index is behind the least one, and error 201 where it is not from `low` to `high`. The answer is the register that has
/// the distance.
#[tactic(auto, unfolding(crate::specs::Places::index_code))]
fn push_index(
    code: &mut Vec<Instruction>,
    frame: &Frame,
    to: VirtualRegister,
    via: VirtualRegister,
    index: VirtualRegister,
    low: i32,
    high: i32,
) -> Result<VirtualRegister, NoMemory>
    ensures code { OnOk result (code.new.items ≡ code.old.items ++ index_code frame.now to via index low high) }
    ensures register { IfOk result (λ register. register ≡ distance_register to index low) }
{
    let block = frame.bank.error_block(RuntimeError::RangeCheck)?;
    let distance = push_distance(code, to, index, low)?;
    push_const(code, via, high.wrapping_sub(low).cast_unsigned())?;
    push_branch(code, BranchOp::Bltu, via, distance, block)?;
    Ok(distance)
}

/// Which power of two it is; 0 for 1 and for other numbers.
fn power_of(n: u32) -> u8
    ensures value { result ≡ power_of n }
    ensures small { result < 32 }
{
    match n {
        2 => 1,
        4 => 2,
        8 => 3,
        16 => 4,
        32 => 5,
        64 => 6,
        _ => 0,
    }
}

/// So many bytes for each; the answer is the register that has them.
#[tactic(auto, unfolding(crate::specs::Places::scale_code))]
fn push_scale(
    code: &mut Vec<Instruction>,
    to: VirtualRegister,
    from: VirtualRegister,
    via: VirtualRegister,
    size: u32,
) -> Result<VirtualRegister, NoMemory>
    ensures code { OnOk result (code.new.items ≡ code.old.items ++ scale_code to from via size) }
    ensures register { IfOk result (λ register. register ≡ scaled to from size) }
{
    if size == 1 {
        return Ok(from);
    }
    let amount = power_of(size);
    if amount == 0 {
        push_const(code, via, size)?;
        push_alu(code, AluOp::Mul, to, from, via)?;
        return Ok(to);
    }
    push_shift(code, ShiftOp::Slli, to, from, amount)?;
    Ok(to)
}

/// The address that is so many elements behind another one.
#[tactic(auto, unfolding(crate::specs::Places::behind_code))]
fn push_behind(
    code: &mut Vec<Instruction>,
    to: VirtualRegister,
    base: VirtualRegister,
    distance: VirtualRegister,
    via: VirtualRegister,
    size: u32,
) -> Result<(), NoMemory>
    ensures { OnOk result (code.new.items ≡ code.old.items ++ behind_code to base distance via size) }
{
    let bytes = push_scale(code, to, distance, via, size)?;
    push_alu(code, AluOp::Add, to, base, bytes)
}

/// An element of so many bytes.
#[tactic(auto, unfolding(crate::specs::Places::element_code))]
fn push_element(
    code: &mut Vec<Instruction>,
    frame: &Frame,
    low: i32,
    high: i32,
    index: VirtualRegister,
    size: u32,
    spot: Spot,
) -> Result<(), NoMemory>
    ensures { OnOk result (code.new.items ≡ code.old.items ++ element_code frame.now low high index size spot) }
{
    let via = after(spot.free)?;
    let distance = push_index(code, frame, spot.free, via, index, low, high)?;
    push_behind(code, spot.free, spot.base, distance, via, size)
}

fn push_step(
    code: &mut Vec<Instruction>,
    core: &Core,
    frame: &Frame,
    step: Step,
    spot: Spot,
) -> Result<Spot, NoMemory>
    ensures code { OnOk result (code.new.items ≡ code.old.items ++ step_code core.now frame.now step spot) }
    ensures spot { IfOk result (λ next. next ≡ step_spot core.now step spot) }
{
    let Spot { base, offset, free } = spot;
    match step {
        Step::Field { of, number } => Ok(Spot {
            base,
            offset: sum(offset, field_offset(core, of, number))?,
            free,
        }),
        Step::Element {
            of,
            low,
            high,
            index,
        } => {
            let index = frame.bank.temporary(index)?;
            push_element(code, frame, low, high, index, element_size(core, of), spot)?;
            Ok(Spot {
                base: free,
                offset,
                free: after(free)?,
            })
        }
    }
}

fn push_steps(
    code: &mut Vec<Instruction>,
    core: &Core,
    frame: &Frame,
    steps: &[Step],
    first: Spot,
) -> Result<Spot, NoMemory>
    ensures code { OnOk result (code.new.items ≡ code.old.items ++ steps_code core.now frame.now steps.now first) }
    ensures spot { IfOk result (λ spot. spot ≡ steps_spot core.now steps.now first) }
{
    let mut spot = first;
    for step in steps {
        spot = push_step(code, core, frame, *step, spot)?;
    }
    Ok(spot)
}

/// Comes to a place with scratch registers from `free` on. The answer is where it is, and no further behind its register than the limit.
pub fn push_place(
    code: &mut Vec<Instruction>,
    core: &Core,
    frame: &Frame,
    limit: u32,
    root: Root,
    steps: &[Step],
    free: VirtualRegister,
) -> Result<Spot, NoMemory>
    ensures code { OnOk result (code.new.items ≡ code.old.items ++ place_code core.now frame.now limit root steps.now free) }
    ensures spot { IfOk result (λ spot. spot ≡ place_of core.now frame.now limit root steps.now free) }
    ensures near { IfOk result (λ spot. spot.offset ≤ limit) }
{
    let home = home_of(core, frame, root)?;
    let begin = push_home(code, frame, free, home)?;
    let spot = push_steps(code, core, frame, steps, begin)?;
    push_reach(code, limit, spot)
}

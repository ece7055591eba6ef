//! Calls and returns.
ghost use Rattle.op_compute.specs.Bank.{register_of, scratch_of};
ghost use Rattle.op_expand.specs.Calls.{call_code, charge_of, charging_code, given_code, given_spot, givens_code, givens_in, number_code, parts_code, receiver_code, receiver_of, receiver_spot, result_code, return_code, value_code, value_spot};
ghost use Rattle.op_places.specs.Places.{place_code, place_of};
ghost use Rattle.std.specs.Prelude.{◌≡◌, ◌++◌, IfOk, OnOk};

use crate::closing::push_ending;
use op_base::NoMemory;
use op_compute::{RuntimeError, low_bits, push, push_alu, push_branch, push_const};
use op_constants::{is_composite, size_of};
use op_core::{Core, IntegerKind, RoutineId, TypeId};
use op_low::{Instruction, VirtualRegister};
use op_mir::{Call, Given, LocalId, Mir, Path, Receiver, Root};
use op_places::{
    Frame, Returning, Spot, at_register, at_scratch, by_words, held, kind_of, limit_of, parameter,
    push_bytes, push_call, push_load_from, push_place, sum,
};
use op_rt_text::RUNTIME;
use op_rv::{AluOp, BranchOp};
use std::alloc::Global;

/// The bytes of stack that are left.
pub const LEFT: VirtualRegister = VirtualRegister(0);

/// The address where a result of a record or array type goes.
pub const RESULT_ADDRESS: VirtualRegister = VirtualRegister(1);

/// The low bits of a number; the answer tells the register that has them.
fn push_value(
    code: &mut Vec<Instruction>,
    kind: IntegerKind,
    from: VirtualRegister,
    free: VirtualRegister,
) -> Result<Spot, NoMemory>
    ensures code { OnOk result (code.new.items ≡ code.old.items ++ value_code kind from free) }
    ensures spot { IfOk result (λ spot. spot ≡ value_spot kind from free) }
{
    match kind {
        IntegerKind::Signed32 => Ok(at_register(from, free)),
        _ => {
            low_bits(code, free, kind, from)?;
            at_scratch(free)
        }
    }
}

/// The address of a place.
fn push_address_of(
    code: &mut Vec<Instruction>,
    core: &Core,
    frame: &Frame,
    path: &Path,
    free: VirtualRegister,
) -> Result<Spot, NoMemory>
    ensures code { OnOk result (code.new.items ≡ code.old.items ++ place_code core.now frame.now 0 path.now.root path.now.steps free) }
    ensures spot { IfOk result (λ spot. spot ≡ place_of core.now frame.now 0 path.now.root path.now.steps free) }
{
    push_place(code, core, frame, 0, path.root, path.steps.as_slice(), free)
}

/// What a parameter is given; the answer tells the register that has it.
fn push_given(
    code: &mut Vec<Instruction>,
    core: &Core,
    frame: &Frame,
    given: &Given,
    free: VirtualRegister,
) -> Result<Spot, NoMemory>
    ensures code { OnOk result (code.new.items ≡ code.old.items ++ given_code core.now frame.now given.now free) }
    ensures spot { IfOk result (λ spot. spot ≡ given_spot core.now frame.now given.now free) }
{
    match given {
        Given::ByValue { kind, temporary } => {
            push_value(code, *kind, frame.bank.temporary(*temporary)?, free)
        }
        Given::ByPlace { path } => push_address_of(code, core, frame, path, free),
        Given::ByCopy { path, .. } => push_address_of(code, core, frame, path, free),
    }
}

/// Puts the registers of what all parameters are given behind the other arguments.
fn push_givens(
    code: &mut Vec<Instruction>,
    core: &Core,
    frame: &Frame,
    given: &[Given],
    first: VirtualRegister,
    arguments: &mut Vec<VirtualRegister>,
) -> Result<(), NoMemory>
    ensures code { OnOk result (code.new.items ≡ code.old.items ++ givens_code core.now frame.now given.now first) }
    ensures arguments { OnOk result (arguments.new.items ≡ arguments.old.items ++ givens_in core.now frame.now given.now first) }
{
    let mut free = first;
    for each in given {
        let spot = push_given(code, core, frame, each, free)?;
        arguments.push(spot.base)?;
        free = spot.free;
    }
    Ok(())
}

/// Where a result of a record or array type goes; else it is the register of what is left of the stack, which nobody reads there.
fn push_receiver(
    code: &mut Vec<Instruction>,
    core: &Core,
    frame: &Frame,
    receiver: &Receiver,
    free: VirtualRegister,
) -> Result<Spot, NoMemory>
    ensures code { OnOk result (code.new.items ≡ code.old.items ++ receiver_code core.now frame.now receiver.now free) }
    ensures spot { IfOk result (λ spot. spot ≡ receiver_spot core.now frame.now receiver.now free) }
{
    match receiver {
        Receiver::Place { to, .. } => push_address_of(code, core, frame, to, free),
        _ => Ok(at_register(LEFT, free)),
    }
}

/// The register where the value of a call goes.
fn receiver_of(
    frame: &Frame,
    receiver: &Receiver,
    free: VirtualRegister,
) -> Result<VirtualRegister, NoMemory>
    ensures { IfOk result (λ register. register ≡ receiver_of frame.now receiver.now free) }
{
    match receiver {
        Receiver::Temporary { temporary } => frame.bank.temporary(*temporary),
        _ => Ok(free),
    }
}

/// What a routine is charged, as far as a word has it: no stack has more.
pub fn charge_of(mir: &Mir, routine: RoutineId) -> u32
    ensures { result ≡ charge_of mir.now routine.0 }
{
    match mir.routines.as_slice().get(routine.0 as usize) {
        None => 0,
        Some(routine) => routine.charge.min(u32::MAX as u64) as u32,
    }
}

/// A register becomes what is left of the stack behind the charge, or error 202 comes.
fn push_charging(
    code: &mut Vec<Instruction>,
    frame: &Frame,
    to: VirtualRegister,
    charge: u32,
) -> Result<(), NoMemory>
    ensures { OnOk result (code.new.items ≡ code.old.items ++ charging_code frame.now to charge) }
{
    let block = frame.bank.error_block(RuntimeError::StackOverflow)?;
    push_const(code, to, charge)?;
    push_branch(code, BranchOp::Bltu, LEFT, to, block)?;
    push_alu(code, AluOp::Sub, to, LEFT, to)
}

pub fn push_call_of(
    alloc: Global,
    code: &mut Vec<Instruction>,
    core: &Core,
    mir: &Mir,
    frame: &Frame,
    routine: RoutineId,
    call: &Call,
) -> Result<(), NoMemory>
    ensures { OnOk result (code.new.items ≡ code.old.items ++ call_code core.now mir.now frame.now routine.0 call.now) }
{
    let left = frame.bank.scratch(0)?;
    let free = frame.bank.scratch(1)?;
    let result = push_receiver(code, core, frame, &call.receiver, free)?;
    let mut arguments = vec![in alloc; left, result.base]?;
    push_givens(
        code,
        core,
        frame,
        call.given.as_slice(),
        result.free,
        &mut arguments,
    )?;
    push_charging(code, frame, left, charge_of(mir, routine))?;
    let number = op_rv::RoutineId(sum(RUNTIME, routine.0)?);
    push_call(
        code,
        number,
        arguments,
        receiver_of(frame, &call.receiver, left)?,
    )
}

/// Returns the number that a variable has.
fn push_number(
    code: &mut Vec<Instruction>,
    core: &Core,
    frame: &Frame,
    kind: IntegerKind,
    variable: LocalId,
) -> Result<(), NoMemory>
    ensures { OnOk result (code.new.items ≡ code.old.items ++ number_code core.now frame.now kind variable) }
{
    let root = Root::Local { variable };
    if let Some(value) = held(core, frame, root, &[]) {
        return push(code, Instruction::Return { value });
    }
    push_load_from(code, core, frame, kind, LEFT, root, &[], LEFT)?;
    push(code, Instruction::Return { value: LEFT })
}

/// Copies the parts of a variable to where the result goes, and returns.
#[tactic(auto, unfolding(crate::specs::Calls::parts_code))]
fn push_parts(
    alloc: Global,
    code: &mut Vec<Instruction>,
    core: &Core,
    frame: &Frame,
    of: TypeId,
    variable: LocalId,
) -> Result<(), NoMemory>
    ensures { OnOk result (code.new.items ≡ code.old.items ++ parts_code core.now frame.now of variable) }
{
    let words = by_words(core, of);
    let size = size_of(core, of);
    let root = Root::Local { variable };
    let source = push_place(code, core, frame, limit_of(words, size), root, &[], LEFT)?;
    let target = at_register(RESULT_ADDRESS, parameter(0)?);
    push_bytes(alloc, code, words, size, source, target)?;
    push(code, Instruction::Return { value: LEFT })
}

fn push_result(
    alloc: Global,
    code: &mut Vec<Instruction>,
    core: &Core,
    frame: &Frame,
    of: TypeId,
    variable: LocalId,
) -> Result<(), NoMemory>
    ensures { OnOk result (code.new.items ≡ code.old.items ++ result_code core.now frame.now of variable) }
{
    if is_composite(core, of) {
        return push_parts(alloc, code, core, frame, of, variable);
    }
    push_number(code, core, frame, kind_of(core, of), variable)
}

pub fn push_return(
    alloc: Global,
    code: &mut Vec<Instruction>,
    core: &Core,
    frame: &Frame,
) -> Result<(), NoMemory>
    ensures { OnOk result (code.new.items ≡ code.old.items ++ return_code core.now frame.now frame.now.returning) }
{
    match frame.returning {
        Returning::Ending => push_ending(alloc, code, core, frame),
        Returning::Nothing => push(code, Instruction::Return { value: LEFT }),
        Returning::Result { of, variable } => {
            push_result(alloc, code, core, frame, of, variable)
        }
    }
}

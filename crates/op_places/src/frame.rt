//! What is settled of a routine before its code is expanded.
ghost use Rattle.op_places.specs.Frames.{bank_of, first_room, frame_of, parameters_of, returning_of, spare_from, spare_of};
ghost use Rattle.op_meaning.specs.Shapes.{result_of_routine, variables_of};
ghost use Rattle.std.specs.Prelude.{◌≡◌, IfOk};

use crate::homes::{Home, Room, end_of, give_homes, parameter, sum};
use crate::root::roots;
use op_base::{NoMemory, Sequence};
use op_compute::Bank;
use op_core::{Core, Owner, RoutineId, Run, TypeId};
use op_low::VirtualRegister;
use op_mir::{LocalId, Root, Routine};
use std::alloc::Global;

/// How a routine returns.
#[derive(Clone, Copy)]
pub enum Returning {
    /// The program ends.
    Ending,
    /// There is no result.
    Nothing,
    /// The value of a variable is the result.
    Result { of: TypeId, variable: LocalId },
}

/// What is settled of a routine.
#[derive(Drop)]
pub struct Frame {
    /// The row of its first variable.
    pub first: u32,
    /// Of each of its variables, in order.
    pub homes: Sequence<Home>,
    /// What its code needs an address of.
    pub roots: Sequence<Root>,
    /// Where in the locals the temporaries of record and array types begin, in the order of `roots`.
    pub temporaries: u32,
    /// The bytes of all locals.
    pub locals: u32,
    pub bank: Bank,
    /// A register that is free where variables get their first values.
    pub spare: VirtualRegister,
    pub returning: Returning,
}

/// The rows of a routine's variables. What is no routine has none.
pub fn variables_of(core: &Core, routine: RoutineId) -> Run
    ensures { result ≡ variables_of core.now routine.0 }
{
    match core.routines.as_slice().get(routine.0 as usize) {
        None => Run { first: 0, count: 0 },
        Some(row) => row.variables,
    }
}

/// How many parameters a routine has, its object among them. The variable of this number has the result.
pub fn parameters_of(core: &Core, routine: RoutineId) -> Result<u32, NoMemory>
    ensures { IfOk result (λ n. n ≡ parameters_of core.now routine.0) }
{
    match core.routines.as_slice().get(routine.0 as usize) {
        None => Ok(0),
        Some(row) => match row.owner {
            Owner::Unit => Ok(row.parameters.count),
            _ => sum(1, row.parameters.count),
        },
    }
}

fn returning_of(core: &Core, routine: RoutineId) -> Result<Returning, NoMemory>
    ensures { IfOk result (λ returning. returning ≡ returning_of core.now routine.0) }
{
    let rows = core.routines.as_slice();
    if routine.0 as usize == rows.len() {
        return Ok(Returning::Ending);
    }
    match rows.get(routine.0 as usize).and_then(|row| row.result) {
        None => Ok(Returning::Nothing),
        Some(of) => Ok(Returning::Result {
            of,
            variable: LocalId(parameters_of(core, routine)?),
        }),
    }
}

/// The registers of temporaries stand behind those of variables, and the blocks of errors behind those of the routine.
fn bank_of(room: Room, routine: &Routine) -> Result<Bank, NoMemory>
    ensures { IfOk result (λ bank. bank ≡ bank_of room routine.now) }
{
    let blocks = routine.blocks.as_slice().len();
    Ok(Bank {
        temporaries: room.register,
        scratch: sum(room.register, routine.temporaries)?,
        errors: u32::try_from(blocks).ok().ok_or(NoMemory)?,
    })
}

/// The register of the first parameter that is stored, or another one.
fn spare_from(other: VirtualRegister, homes: &[Home]) -> Result<VirtualRegister, NoMemory>
    ensures { IfOk result (λ register. register ≡ spare_from other 0 homes.now) }
{
    let mut k = 0u32;
    for home in homes {
        if let Home::Stored { .. } = home {
            return parameter(k);
        }
        k = sum(k, 1)?;
    }
    Ok(other)
}

fn spare(bank: Bank, parameters: u32, homes: &[Home]) -> Result<VirtualRegister, NoMemory>
    ensures { IfOk result (λ register. register ≡ spare_of bank parameters homes.now) }
{
    let (front, _) = homes.split_at(homes.len().min(parameters as usize));
    spare_from(bank.scratch(1)?, front)
}

pub fn frame_of(
    alloc: Global,
    core: &Core,
    id: RoutineId,
    routine: &Routine,
) -> Result<Frame, NoMemory>
    ensures { IfOk result (λ frame. frame ≡ frame_of core.now id.0 routine.now) }
{
    let variables = variables_of(core, id);
    let parameters = parameters_of(core, id)?;
    let roots = roots(alloc, routine)?;
    let first = Room {
        register: sum(2, parameters)?,
        offset: 0,
    };
    let mut homes = Vec::new(alloc);
    let room = give_homes(
        core,
        parameters,
        &roots,
        first,
        core.variables.rows(variables),
        &mut homes,
    )?;
    let bank = bank_of(room, routine)?;
    Ok(Frame {
        first: variables.first,
        spare: spare(bank, parameters, &homes)?,
        homes: Sequence::from(homes),
        temporaries: room.offset,
        locals: end_of(core, room.offset, &roots)?,
        roots: Sequence::from(roots),
        bank,
        returning: returning_of(core, id)?,
    })
}

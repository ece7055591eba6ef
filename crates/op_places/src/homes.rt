//! Where a routine keeps its variables, and its temporaries of record and array types.
ghost use Rattle.op_places.specs.Homes.{end_of, home_at, home_by, homes_from, is_one_root, keeping_of, offset_of, parameter, room_behind, room_by, rounded, size_of_root};
ghost use Rattle.op_meaning.specs.Shapes.{is_reference};
ghost use Rattle.op_rt_text.specs.Names.{register};
ghost use Rattle.std.specs.Prelude.{◌≡◌, ◌+◌, ◌++◌, IfOk, OnOk};

use crate::root::has_root;
use op_base::NoMemory;
use op_constants::{is_composite, size_of};
use op_core::{Core, Role, Variable};
use op_low::VirtualRegister;
use op_mir::{LocalId, Root, one_root};
use op_rv::GlobalId;
use op_tree::ParameterMode;
use std::alloc::Global;

/// Where something is kept.
#[derive(Clone, Copy)]
pub enum Home {
    /// A register has its value. Of a variable parameter it has the address.
    Held { register: VirtualRegister },
    /// So many bytes behind the beginning of the routine's locals.
    Stored { offset: u32 },
    /// A global variable.
    Shared { id: GlobalId },
}

/// How a variable is kept.
#[derive(Clone, Copy)]
pub enum Keeping {
    /// A parameter that stays in the register in which it comes.
    AsGiven,
    InRegister,
    InMemory,
}

/// What is free: the next register, and the next byte of the locals.
#[derive(Clone, Copy)]
pub struct Room {
    pub register: u32,
    pub offset: u32,
}

/// The sum of two numbers of 32 bits; no program has one that is greater.
pub fn sum(a: u32, b: u32) -> Result<u32, NoMemory>
    ensures { IfOk result (λ n. n ≡ a + b) }
{
    a.checked_add(b).ok_or(NoMemory)
}

/// So many bytes by whole words.
pub fn round(bytes: u32) -> Result<u32, NoMemory>
    ensures { IfOk result (λ n. n ≡ rounded bytes) }
{
    bytes.div_ceil(4).checked_mul(4).ok_or(NoMemory)
}

/// The register in which a parameter comes.
pub fn parameter(k: u32) -> Result<VirtualRegister, NoMemory>
    ensures { IfOk result (λ given. given ≡ register (parameter k)) }
{
    Ok(VirtualRegister(sum(2, k)?))
}

fn is_reference(role: Role) -> bool
    ensures { result ≡ is_reference role }
{
    matches!(
        role,
        Role::Parameter(ParameterMode::Var) | Role::Parameter(ParameterMode::Out)
    )
}

fn keeping_of(core: &Core, parameters: u32, roots: &[Root], k: u32, variable: &Variable) -> Keeping
    ensures { result ≡ keeping_of core.now parameters roots.now k variable.now }
{
    let root = Root::Local {
        variable: LocalId(k),
    };
    if is_reference(variable.role) {
        Keeping::AsGiven
    } else if is_composite(core, variable.of) || has_root(roots, root) {
        Keeping::InMemory
    } else if k < parameters {
        Keeping::AsGiven
    } else {
        Keeping::InRegister
    }
}

fn home_by(keeping: Keeping, k: u32, room: Room) -> Result<Home, NoMemory>
    ensures { IfOk result (λ home. home ≡ home_by keeping k room) }
{
    Ok(match keeping {
        Keeping::AsGiven => Home::Held {
            register: parameter(k)?,
        },
        Keeping::InRegister => Home::Held {
            register: VirtualRegister(room.register),
        },
        Keeping::InMemory => Home::Stored {
            offset: room.offset,
        },
    })
}

fn room_left(keeping: Keeping, size: u32, room: Room) -> Result<Room, NoMemory>
    ensures { IfOk result (λ left. left ≡ room_by keeping size room) }
{
    let Room { register, offset } = room;
    Ok(match keeping {
        Keeping::AsGiven => room,
        Keeping::InRegister => Room {
            register: sum(register, 1)?,
            offset,
        },
        Keeping::InMemory => Room {
            register,
            offset: sum(offset, round(size)?)?,
        },
    })
}

/// Gives each variable a home, in order. The answer is what is then still free.
pub fn give_homes(
    core: &Core,
    parameters: u32,
    roots: &[Root],
    first: Room,
    variables: &[Variable],
    homes: &mut Vec<Home>,
) -> Result<Room, NoMemory>
    ensures homes { OnOk result (homes.new.items ≡ homes.old.items ++ homes_from core.now parameters roots.now 0 first variables.now) }
    ensures room { IfOk result (λ room. room ≡ room_behind core.now parameters roots.now 0 first variables.now) }
{
    let mut k = 0u32;
    let mut room = first;
    for variable in variables {
        let keeping = keeping_of(core, parameters, roots, k, variable);
        homes.push(home_by(keeping, k, room)?)?;
        room = room_left(keeping, size_of(core, variable.of), room)?;
        k = sum(k, 1)?;
    }
    Ok(room)
}

/// The home of a variable. What is no variable is stored with the first bytes.
pub fn home_at(homes: &[Home], variable: LocalId) -> Home
    ensures { result ≡ home_at homes.now variable }
{
    match homes.get(variable.0 as usize) {
        None => Home::Stored { offset: 0 },
        Some(home) => *home,
    }
}

fn size_of_root(core: &Core, root: Root) -> Result<u32, NoMemory>
    ensures { IfOk result (λ n. n ≡ size_of_root core.now root) }
{
    match root {
        Root::Temporary { of, .. } => round(size_of(core, of)),
        _ => Ok(0),
    }
}

/// Where a temporary begins, if the first root begins at an offset.
pub fn offset_of(core: &Core, root: Root, first: u32, roots: &[Root]) -> Result<u32, NoMemory>
    ensures { IfOk result (λ n. n ≡ offset_of core.now root first roots.now) }
{
    let mut offset = first;
    for each in roots {
        if one_root(root, *each) {
            return Ok(offset);
        }
        offset = sum(offset, size_of_root(core, *each)?)?;
    }
    Ok(offset)
}

/// Where the last temporary ends.
pub fn end_of(core: &Core, first: u32, roots: &[Root]) -> Result<u32, NoMemory>
    ensures { IfOk result (λ n. n ≡ end_of core.now first roots.now) }
{
    let mut offset = first;
    for each in roots {
        offset = sum(offset, size_of_root(core, *each)?)?;
    }
    Ok(offset)
}

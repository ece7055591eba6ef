//! Whether new numbers for registers do no harm.
ghost use Rattle.op_optimize.specs.Reading.{target_of};
ghost use Rattle.op_optimize.specs.Renaming.{all_begin_well as each_begins_well, are_apart as are_apart_below, are_safe_blocks as are_safe, begins_well as does_begin_well, is_apart as is_apart_from, is_moved as is_moved_by, is_renaming as is_good_renaming, is_safe_code as is_safe, may_write as may_be_written};
ghost use Rattle.std.specs.Prelude.{◌≡◌};

use crate::dataflow::is_closed;
use crate::liveness::{WATCHED, is_dead, is_live_at};
use crate::renaming::renamed;
use op_low::{Block, Instruction, Routine, VirtualRegister, same, target};

fn is_moved(instruction: &Instruction, register: VirtualRegister) -> bool
    ensures { result ≡ is_moved_by instruction.now register }
{
    match instruction {
        Instruction::Move { from, .. } => same(*from, register),
        _ => false,
    }
}

/// Where an instruction writes a register: whether another one has another name, or is not read any more, or has the same
/// value then.
#[tactic(auto, unfolding(crate::specs::Renaming::is_apart))]
fn is_apart(
    live: &[u64],
    names: &[u32],
    instruction: &Instruction,
    behind: &[Instruction],
    to: VirtualRegister,
    register: VirtualRegister,
) -> bool
    ensures { result ≡ is_apart_from live.now names.now instruction.now behind.now to register }
{
    same(to, register)
        || !same(renamed(names, to), renamed(names, register))
        || is_moved(instruction, register)
        || is_dead(live, behind, register)
}

fn are_apart(
    live: &[u64],
    names: &[u32],
    instruction: &Instruction,
    behind: &[Instruction],
    to: VirtualRegister,
    registers: u32,
) -> bool
    ensures { result ≡ are_apart_below live.now names.now instruction.now behind.now to registers }
{
    let mut left = registers;
    while 0 < left {
        left -= 1;
        if !is_apart(live, names, instruction, behind, to, VirtualRegister(left)) {
            return false;
        }
    }
    true
}

fn may_write(
    live: &[u64],
    names: &[u32],
    registers: u32,
    instruction: &Instruction,
    behind: &[Instruction],
) -> bool
    ensures { result ≡ may_be_written live.now names.now registers instruction.now behind.now (target_of instruction.now) }
{
    match target(instruction) {
        None => true,
        Some(to) => are_apart(live, names, instruction, behind, to, registers),
    }
}

#[tactic(auto, unfolding(crate::specs::Renaming::is_safe_code))]
fn is_safe_code(live: &[u64], names: &[u32], registers: u32, code: &[Instruction]) -> bool
    ensures { result ≡ is_safe live.now names.now registers code.now }
{
    for (k, instruction) in code.iter().enumerate() {
        if !may_write(live, names, registers, instruction, &code[k + 1..]) {
            return false;
        }
    }
    true
}

#[tactic(auto, unfolding(crate::specs::Renaming::are_safe_blocks))]
fn are_safe_blocks(live: &[u64], names: &[u32], registers: u32, blocks: &[Block]) -> bool
    ensures { result ≡ are_safe live.now names.now registers blocks.now }
{
    for block in blocks {
        if !is_safe_code(live, names, registers, block.code.as_slice()) {
            return false;
        }
    }
    true
}

/// Where a routine begins: whether a parameter keeps its number, and another register that has to begin as 0 gets the number of
/// none.
#[tactic(auto, unfolding(crate::specs::Renaming::begins_well))]
fn begins_well(
    live: &[u64],
    names: &[u32],
    parameters: u32,
    registers: u32,
    register: VirtualRegister,
) -> bool
    ensures { result ≡ does_begin_well live.now names.now parameters registers register }
{
    let name = renamed(names, register);
    if registers <= name.0 {
        return false;
    }
    if register.0 < parameters {
        return same(name, register);
    }
    !is_live_at(live, 0, register) || parameters <= name.0
}

fn all_begin_well(live: &[u64], names: &[u32], parameters: u32, registers: u32, count: u32) -> bool
    ensures { result ≡ each_begins_well live.now names.now parameters registers count }
{
    let mut left = count;
    while 0 < left {
        left -= 1;
        if !begins_well(live, names, parameters, registers, VirtualRegister(left)) {
            return false;
        }
    }
    true
}

/// Whether these are numbers for the registers of a routine with which it does the same, so many all together.
#[tactic(auto, unfolding(crate::specs::Renaming::is_renaming))]
pub fn is_renaming(live: &[u64], names: &[u32], registers: u32, routine: &Routine) -> bool
    ensures { result ≡ is_good_renaming live.now names.now registers routine.now }
{
    routine.registers <= WATCHED
        && registers <= routine.registers
        && routine.parameters <= registers
        && is_closed(live, routine)
        && all_begin_well(
            live,
            names,
            routine.parameters,
            registers,
            routine.registers,
        )
        && are_safe_blocks(live, names, routine.registers, routine.blocks.as_slice())
}

//! The registers that blocks may read, by going through all blocks until nothing changes.
ghost use Rattle.op_optimize.specs.Liveness.{covers as is_covered_by, covers_below as are_covered_below, covers_blocks as are_covered, is_closed as is_closed_table, is_live as is_live_at_block, needs as is_needed};
ghost use Rattle.std.specs.Prelude.{◌≡◌, ◌||◌, not, min};

use crate::liveness::{WATCHED, is_live_at, needs};
use op_base::NoMemory;
use op_low::{Block, Instruction, Routine, VirtualRegister, leaves, other_block, target};
use op_rv::BlockId;
use std::alloc::Global;

/// The bit of a register, or none where it is not looked at.
pub fn bit(register: VirtualRegister) -> u64 {
    if register.0 < WATCHED {
        1 << register.0
    } else {
        0
    }
}

/// Whether the bit of a register is set; that of one that is not looked at is not.
pub fn has_bit(bits: u64, register: u32) -> bool {
    register < WATCHED && (bits >> register) % 2 == 1
}

fn bits(registers: &[VirtualRegister]) -> u64 {
    let mut all = 0;
    for register in registers {
        all |= bit(*register);
    }
    all
}

/// The registers that an instruction reads.
pub fn read_bits(instruction: &Instruction) -> u64 {
    match instruction {
        Instruction::Move { from, .. } => bit(*from),
        Instruction::Alu { left, right, .. } => bit(*left) | bit(*right),
        Instruction::AluImm { left, .. } => bit(*left),
        Instruction::Shift { left, .. } => bit(*left),
        Instruction::Load { base, .. } => bit(*base),
        Instruction::Store { value, base, .. } => bit(*value) | bit(*base),
        Instruction::Call { call, .. } => bits(call.arguments.as_slice()),
        Instruction::CallAt { address, call } => bit(*address) | bits(call.arguments.as_slice()),
        Instruction::Branch { left, right, .. } => bit(*left) | bit(*right),
        Instruction::Return { value } => bit(*value),
        Instruction::Read { buffer, length, .. } => bit(*buffer) | bit(*length),
        Instruction::Write { buffer, length, .. } => bit(*buffer) | bit(*length),
        Instruction::Exit { status } => bit(*status),
        _ => 0,
    }
}

fn bits_at(live: &[u64], block: BlockId) -> u64 {
    match live.get(block.0 as usize) {
        None => u64::MAX,
        Some(registers) => *registers,
    }
}

/// The registers that may be read at the block to which an instruction may go.
pub fn bits_beyond(live: &[u64], instruction: &Instruction) -> u64 {
    match other_block(instruction) {
        None => 0,
        Some(block) => bits_at(live, block),
    }
}

fn bits_before(live: &[u64], instruction: &Instruction, behind: u64) -> u64 {
    let kept = if leaves(instruction) { 0 } else { behind };
    let kept = match target(instruction) {
        None => kept,
        Some(to) => kept & !bit(to),
    };
    kept | read_bits(instruction) | bits_beyond(live, instruction)
}

fn bits_of(live: &[u64], code: &[Instruction]) -> u64 {
    let mut now: u64 = 0;
    for instruction in code.iter().rev() {
        now = bits_before(live, instruction, now);
    }
    now
}

/// One pass over the blocks, from the last one to the first. Whether something changed.
fn pass(live: &mut Vec<u64>, blocks: &[Block]) -> bool {
    let mut changes = false;
    for (k, block) in blocks.iter().enumerate().rev() {
        let now = bits_of(live.as_slice(), block.code.as_slice());
        if let Some(registers) = live.get_mut(k) {
            if *registers != now {
                *registers = now;
                changes = true;
            }
        }
    }
    changes
}

/// How often all blocks are gone through at most. The table need not be right: `is_closed` tests it.
const PASSES: usize = 16;

/// A table of the registers that each block may read.
pub fn live_in(alloc: Global, routine: &Routine) -> Result<Vec<u64>, NoMemory> {
    let blocks = routine.blocks.as_slice();
    let mut live = Vec::new(alloc);
    for _ in blocks {
        live.push(0)?;
    }
    for _ in 0..PASSES {
        if !pass(&mut live, blocks) {
            break;
        }
    }
    Ok(live)
}

fn is_covered(live: &[u64], place: usize, code: &[Instruction], register: VirtualRegister) -> bool
    ensures { result ≡ (not (is_needed live.now code.now register) || is_live_at_block live.now (record { 0 = place }) register) }
{
    !needs(live, code, register) || is_live_at(live, place, register)
}

fn covers_below(live: &[u64], place: usize, code: &[Instruction], count: u32) -> bool
    ensures { result ≡ are_covered_below live.now (record { 0 = place }) code.now count }
{
    let mut left = count;
    while 0 < left {
        left -= 1;
        if !is_covered(live, place, code, VirtualRegister(left)) {
            return false;
        }
    }
    true
}

fn covers(live: &[u64], registers: u32, place: usize, block: &Block) -> bool
    ensures { result ≡ is_covered_by live.now registers (record { 0 = place }) block.now }
{
    covers_below(live, place, block.code.as_slice(), registers.min(WATCHED))
}

#[tactic(auto, unfolding(crate::specs::Liveness::covers_blocks))]
fn covers_all(live: &[u64], registers: u32, blocks: &[Block]) -> bool
    ensures { result ≡ are_covered live.now registers 0 blocks.now }
{
    for (k, block) in blocks.iter().enumerate() {
        if !covers(live, registers, k, block) {
            return false;
        }
    }
    true
}

/// Whether the table has each register that a block needs.
#[tactic(auto, unfolding(crate::specs::Liveness::is_closed))]
pub fn is_closed(live: &[u64], routine: &Routine) -> bool
    ensures { result ≡ is_closed_table live.now routine.now }
{
    covers_all(live, routine.registers, routine.blocks.as_slice())
}

//! How often the blocks of a routine are entered, and how often its registers are used. It is a guess, and nothing rests on it.

use crate::dataflow::{bit, has_bit, read_bits};
use crate::liveness::WATCHED;
use op_base::NoMemory;
use op_low::{Block, Instruction, target};
use op_rv::BlockId;
use std::alloc::Global;

/// How often a routine is entered, where each of its blocks is entered once at least.
const ENTRIES: u32 = 256;

/// How often all blocks are gone through.
const PASSES: usize = 16;

/// A list of so many equal numbers.
pub fn filled(alloc: Global, count: usize, value: u32) -> Result<Vec<u32>, NoMemory> {
    let mut list = Vec::with_capacity(alloc, count)?;
    for _ in 0..count {
        list.push(value)?;
    }
    Ok(list)
}

fn add(amounts: &mut Vec<u32>, place: usize, amount: u32) {
    if let Some(old) = amounts.get_mut(place) {
        *old = old.saturating_add(amount);
    }
}

/// Whether a block ends the program: the code seldom goes there.
fn ends_program(blocks: &[Block], place: usize) -> bool {
    match blocks.get(place) {
        None => true,
        Some(block) => match block.code.as_slice().last() {
            Some(Instruction::Exit { .. }) => true,
            _ => false,
        },
    }
}

/// Half of what comes to a branch goes to its block. How much is left.
fn branch_off(blocks: &[Block], amounts: &mut Vec<u32>, block: BlockId, amount: u32) -> u32 {
    if ends_program(blocks, block.0 as usize) {
        return amount;
    }
    add(amounts, block.0 as usize, amount / 2);
    amount - amount / 2
}

/// What comes to a block goes to others.
fn flow(blocks: &[Block], amounts: &mut Vec<u32>, code: &[Instruction], amount: u32) {
    let mut left = amount;
    for instruction in code {
        match instruction {
            Instruction::Branch { block, .. } => left = branch_off(blocks, amounts, *block, left),
            Instruction::Jump { block } => add(amounts, block.0 as usize, left),
            _ => {}
        }
    }
}

fn amount_at(amounts: &[u32], place: usize) -> u32 {
    match amounts.get(place) {
        None => 0,
        Some(amount) => *amount,
    }
}

/// How often each block is entered.
fn entries_in(alloc: Global, blocks: &[Block]) -> Result<Vec<u32>, NoMemory> {
    let mut now = filled(alloc, blocks.len(), 0)?;
    for _ in 0..PASSES {
        let mut next = filled(alloc, blocks.len(), 1)?;
        add(&mut next, 0, ENTRIES);
        for (k, block) in blocks.iter().enumerate() {
            let amount = amount_at(now.as_slice(), k);
            flow(blocks, &mut next, block.code.as_slice(), amount);
        }
        now = next;
    }
    Ok(now)
}

/// The registers that an instruction reads or writes.
fn used_bits(instruction: &Instruction) -> u64 {
    match target(instruction) {
        None => read_bits(instruction),
        Some(to) => read_bits(instruction) | bit(to),
    }
}

fn count_uses(uses: &mut Vec<u32>, instruction: &Instruction, amount: u32) {
    let bits = used_bits(instruction);
    for register in 0..WATCHED {
        if has_bit(bits, register) {
            add(uses, register as usize, amount);
        }
    }
}

/// How often each register is used, of those that are looked at.
pub fn uses_in(alloc: Global, blocks: &[Block]) -> Result<Vec<u32>, NoMemory> {
    let entries = entries_in(alloc, blocks)?;
    let mut uses = filled(alloc, WATCHED as usize, 0)?;
    for (k, block) in blocks.iter().enumerate() {
        let amount = if ends_program(blocks, k) {
            1
        } else {
            amount_at(entries.as_slice(), k)
        };
        for instruction in block.code.as_slice() {
            count_uses(&mut uses, instruction, amount);
        }
    }
    Ok(uses)
}

//! New numbers for registers, so that those that are used most come first, and those that are never needed at the same time
//! have one number. It is a guess: whether they do no harm is tested afterwards.

use crate::dataflow::{bit, bits_beyond, has_bit, read_bits};
use crate::frequency::{filled, uses_in};
use crate::liveness::WATCHED;
use op_base::NoMemory;
use op_low::{Block, Instruction, Routine, VirtualRegister, leaves, target};
use std::alloc::Global;

/// The new number of each register, and how many there are.
#[derive(Drop)]
pub struct Coloring {
    pub names: Vec<u32>,
    pub registers: u32,
    /// A bit for each register that has its number.
    done: u64,
}

/// What the numbers are chosen by.
#[derive(Drop)]
struct Wishes {
    /// How often each register is used.
    uses: Vec<u32>,
    /// For each register one that is moved to it, or to which it is moved.
    partners: Vec<u32>,
    /// For each register those that are to have other numbers.
    conflicts: Vec<u64>,
    /// Those that have to begin as 0.
    begun: u64,
}

fn number_at(numbers: &[u32], register: u32) -> u32 {
    match numbers.get(register as usize) {
        None => u32::MAX,
        Some(number) => *number,
    }
}

fn put(numbers: &mut Vec<u32>, register: u32, number: u32) {
    if let Some(old) = numbers.get_mut(register as usize) {
        *old = number;
    }
}

fn bits_at(conflicts: &[u64], register: u32) -> u64 {
    match conflicts.get(register as usize) {
        None => 0,
        Some(bits) => *bits,
    }
}

/// A register is to have another number than those of some bits.
fn part(conflicts: &mut Vec<u64>, register: VirtualRegister, bits: u64) {
    if let Some(old) = conflicts.get_mut(register.0 as usize) {
        *old |= bits & !bit(register);
    }
}

/// What is moved may share its number with where it is moved.
fn moved_bit(instruction: &Instruction) -> u64 {
    match instruction {
        Instruction::Move { from, .. } => bit(*from),
        _ => 0,
    }
}

/// What an instruction writes is apart from what is needed behind it. What is needed before it.
fn part_by(conflicts: &mut Vec<u64>, live: &[u64], instruction: &Instruction, behind: u64) -> u64 {
    let kept = if leaves(instruction) { 0 } else { behind };
    let kept = kept | bits_beyond(live, instruction);
    match target(instruction) {
        None => kept | read_bits(instruction),
        Some(to) => {
            part(conflicts, to, kept & !moved_bit(instruction));
            (kept & !bit(to)) | read_bits(instruction)
        }
    }
}

fn part_in(conflicts: &mut Vec<u64>, live: &[u64], code: &[Instruction]) {
    let mut now: u64 = 0;
    for instruction in code.iter().rev() {
        now = part_by(conflicts, live, instruction, now);
    }
}

/// Each conflict is one of the other register too.
fn part_both_ways(conflicts: &mut Vec<u64>) {
    for register in 0..WATCHED {
        let bits = bits_at(conflicts.as_slice(), register);
        for other in 0..WATCHED {
            if has_bit(bits, other) {
                part(
                    conflicts,
                    VirtualRegister(other),
                    bit(VirtualRegister(register)),
                );
            }
        }
    }
}

fn conflicts_in(alloc: Global, live: &[u64], blocks: &[Block]) -> Result<Vec<u64>, NoMemory> {
    let mut conflicts: Vec<u64> = Vec::with_capacity(alloc, WATCHED as usize)?;
    for _ in 0..WATCHED {
        conflicts.push(0)?;
    }
    for block in blocks {
        part_in(&mut conflicts, live, block.code.as_slice());
    }
    part_both_ways(&mut conflicts);
    Ok(conflicts)
}

fn partners_in(alloc: Global, blocks: &[Block]) -> Result<Vec<u32>, NoMemory> {
    let mut partners = filled(alloc, WATCHED as usize, u32::MAX)?;
    for block in blocks {
        for instruction in block.code.as_slice() {
            if let Instruction::Move { to, from } = instruction {
                put(&mut partners, to.0, from.0);
                put(&mut partners, from.0, to.0);
            }
        }
    }
    Ok(partners)
}

fn wishes_of(alloc: Global, live: &[u64], blocks: &[Block]) -> Result<Wishes, NoMemory> {
    let uses = uses_in(alloc, blocks)?;
    let partners = partners_in(alloc, blocks)?;
    let conflicts = conflicts_in(alloc, live, blocks)?;
    let begun = bits_at(live, 0);
    Ok(Wishes {
        uses,
        partners,
        conflicts,
        begun,
    })
}

/// The register without a number that is used most.
fn most_used(uses: &[u32], done: u64, registers: u32) -> Option<u32> {
    let mut found = None;
    let mut most: u32 = 0;
    for register in 0..registers {
        let amount = number_at(uses, register);
        if most < amount && !has_bit(done, register) {
            most = amount;
            found = Some(register);
        }
    }
    found
}

/// The numbers that registers of some bits have.
fn taken(names: &[u32], bits: u64) -> u64 {
    let mut all: u64 = 0;
    for register in 0..WATCHED {
        if has_bit(bits, register) {
            all |= bit(VirtualRegister(number_at(names, register)));
        }
    }
    all
}

/// The first number from one on that is not taken.
fn free_from(taken: u64, first: u32) -> u32 {
    for number in first..WATCHED {
        if !has_bit(taken, number) {
            return number;
        }
    }
    WATCHED
}

impl Coloring {
    /// Parameters keep their numbers.
    fn begin(alloc: Global, parameters: u32) -> Result<Coloring, NoMemory> {
        let mut names = filled(alloc, WATCHED as usize, 0)?;
        let mut done: u64 = 0;
        for register in 0..parameters {
            put(&mut names, register, register);
            done |= bit(VirtualRegister(register));
        }
        Ok(Coloring {
            names,
            registers: parameters,
            done,
        })
    }

    /// A number that no register in conflict has: that of a partner, or else the first one.
    fn number_for(&self, wishes: &Wishes, register: u32, first: u32) -> u32 {
        let conflicts = bits_at(wishes.conflicts.as_slice(), register) & self.done;
        let taken = taken(self.names.as_slice(), conflicts);
        let partner = number_at(wishes.partners.as_slice(), register);
        if has_bit(self.done, partner) {
            let number = number_at(self.names.as_slice(), partner);
            if first <= number && number < WATCHED && !has_bit(taken, number) {
                return number;
            }
        }
        free_from(taken, first)
    }

    fn give(&mut self, register: u32, number: u32) {
        put(&mut self.names, register, number);
        self.done |= bit(VirtualRegister(register));
        if self.registers <= number {
            self.registers = number.saturating_add(1);
        }
    }

    /// Those that are not used at all get the last number.
    fn give_rest(&mut self, registers: u32) {
        let last = self.registers.saturating_sub(1);
        for register in 0..registers {
            if !has_bit(self.done, register) {
                put(&mut self.names, register, last);
            }
        }
    }
}

/// New numbers for the registers of a routine that has no more than are looked at, by a table of what its blocks read.
pub fn coloring_of(alloc: Global, live: &[u64], routine: &Routine) -> Result<Coloring, NoMemory> {
    let wishes = wishes_of(alloc, live, routine.blocks.as_slice())?;
    let mut coloring = Coloring::begin(alloc, routine.parameters)?;
    for _ in 0..routine.registers {
        let Some(register) = most_used(wishes.uses.as_slice(), coloring.done, routine.registers)
        else {
            break;
        };
        let first = if has_bit(wishes.begun, register) {
            routine.parameters
        } else {
            0
        };
        let number = coloring.number_for(&wishes, register, first);
        coloring.give(register, number);
    }
    coloring.give_rest(routine.registers);
    Ok(coloring)
}

//! Copies by words and by bytes, in turns of eight words where all addresses are multiples of 4.
ghost use Rattle.op_rt_text.specs.Copying.{copy_bytes, copy_words};
ghost use Rattle.std.specs.Prelude.{◌≡◌, IfOk};

use crate::parts::{Fixed, routine};
use op_base::NoMemory;
use op_low::{Routine, VirtualRegister};
use op_rv::{AluOp, BlockId, BranchOp, ImmOp, LoadOp, StoreOp};
use std::alloc::Global;

/// Where the next unit goes.
const TO: VirtualRegister = VirtualRegister(0);

/// Where the next unit stands.
const FROM: VirtualRegister = VirtualRegister(1);

/// How many bytes there are.
const COUNT: VirtualRegister = VirtualRegister(2);

/// Where the last unit ends.
const END: VirtualRegister = VirtualRegister(3);

const UNIT: VirtualRegister = VirtualRegister(4);

/// Where the last turn ends.
const TURNS: VirtualRegister = VirtualRegister(5);

/// 0.
const NOTHING: VirtualRegister = VirtualRegister(6);

const TURN: BlockId = BlockId(1);

const REST: BlockId = BlockId(2);

const UNITS: BlockId = BlockId(3);

const DONE: BlockId = BlockId(4);

/// All but the last seven words or fewer are copied in turns.
pub const BEGINS_WORDS: [Fixed; 5] = [
    Fixed::Alu(AluOp::Add, END, TO, COUNT),
    Fixed::AluImm(ImmOp::Andi, UNIT, COUNT, 31),
    Fixed::Alu(AluOp::Sub, TURNS, END, UNIT),
    Fixed::Branch(BranchOp::Beq, TO, TURNS, REST),
    Fixed::Jump(TURN),
];

/// Where both addresses are multiples of 4, all but the last 31 bytes or fewer are copied in turns.
pub const BEGINS_BYTES: [Fixed; 9] = [
    Fixed::Alu(AluOp::Add, END, TO, COUNT),
    Fixed::AluImm(ImmOp::Andi, UNIT, TO, 3),
    Fixed::Branch(BranchOp::Bne, UNIT, NOTHING, REST),
    Fixed::AluImm(ImmOp::Andi, UNIT, FROM, 3),
    Fixed::Branch(BranchOp::Bne, UNIT, NOTHING, REST),
    Fixed::AluImm(ImmOp::Andi, UNIT, COUNT, 31),
    Fixed::Alu(AluOp::Sub, TURNS, END, UNIT),
    Fixed::Branch(BranchOp::Beq, TO, TURNS, REST),
    Fixed::Jump(TURN),
];

/// Eight words, each of which is stored before the next one is loaded.
pub const COPIES_TURN: [Fixed; 20] = [
    Fixed::Load(LoadOp::Lw, UNIT, FROM, 0),
    Fixed::Store(StoreOp::Sw, UNIT, TO, 0),
    Fixed::Load(LoadOp::Lw, UNIT, FROM, 4),
    Fixed::Store(StoreOp::Sw, UNIT, TO, 4),
    Fixed::Load(LoadOp::Lw, UNIT, FROM, 8),
    Fixed::Store(StoreOp::Sw, UNIT, TO, 8),
    Fixed::Load(LoadOp::Lw, UNIT, FROM, 12),
    Fixed::Store(StoreOp::Sw, UNIT, TO, 12),
    Fixed::Load(LoadOp::Lw, UNIT, FROM, 16),
    Fixed::Store(StoreOp::Sw, UNIT, TO, 16),
    Fixed::Load(LoadOp::Lw, UNIT, FROM, 20),
    Fixed::Store(StoreOp::Sw, UNIT, TO, 20),
    Fixed::Load(LoadOp::Lw, UNIT, FROM, 24),
    Fixed::Store(StoreOp::Sw, UNIT, TO, 24),
    Fixed::Load(LoadOp::Lw, UNIT, FROM, 28),
    Fixed::Store(StoreOp::Sw, UNIT, TO, 28),
    Fixed::AluImm(ImmOp::Addi, FROM, FROM, 32),
    Fixed::AluImm(ImmOp::Addi, TO, TO, 32),
    Fixed::Branch(BranchOp::Bne, TO, TURNS, TURN),
    Fixed::Jump(REST),
];

/// What is behind the last turn.
pub const GOES_ON: [Fixed; 2] = [
    Fixed::Branch(BranchOp::Beq, TO, END, DONE),
    Fixed::Jump(UNITS),
];

/// A unit of four bytes.
pub const COPIES_WORD: [Fixed; 6] = [
    Fixed::Load(LoadOp::Lw, UNIT, FROM, 0),
    Fixed::Store(StoreOp::Sw, UNIT, TO, 0),
    Fixed::AluImm(ImmOp::Addi, FROM, FROM, 4),
    Fixed::AluImm(ImmOp::Addi, TO, TO, 4),
    Fixed::Branch(BranchOp::Bne, TO, END, UNITS),
    Fixed::Jump(DONE),
];

/// A unit of one byte.
pub const COPIES_BYTE: [Fixed; 6] = [
    Fixed::Load(LoadOp::Lbu, UNIT, FROM, 0),
    Fixed::Store(StoreOp::Sb, UNIT, TO, 0),
    Fixed::AluImm(ImmOp::Addi, FROM, FROM, 1),
    Fixed::AluImm(ImmOp::Addi, TO, TO, 1),
    Fixed::Branch(BranchOp::Bne, TO, END, UNITS),
    Fixed::Jump(DONE),
];

pub const ENDS: [Fixed; 1] = [Fixed::Return(UNIT)];

/// The routine that copies by words.
pub fn copy_words(alloc: Global) -> Result<Routine, NoMemory>
    ensures { IfOk result (λ routine. routine ≡ copy_words) }
{
    routine(
        alloc,
        3,
        6,
        0,
        &[&BEGINS_WORDS, &COPIES_TURN, &GOES_ON, &COPIES_WORD, &ENDS],
    )
}

/// The routine that copies by bytes.
pub fn copy_bytes(alloc: Global) -> Result<Routine, NoMemory>
    ensures { IfOk result (λ routine. routine ≡ copy_bytes) }
{
    routine(
        alloc,
        3,
        7,
        0,
        &[&BEGINS_BYTES, &COPIES_TURN, &GOES_ON, &COPIES_BYTE, &ENDS],
    )
}

//! Zeros in memory, in turns of eight words.
ghost use Rattle.op_rt_text.specs.Clear.{clear};
ghost use Rattle.std.specs.Prelude.{◌≡◌, IfOk};

use crate::parts::{Fixed, routine};
use op_base::NoMemory;
use op_low::{Routine, VirtualRegister};
use op_rv::{AluOp, BlockId, BranchOp, ImmOp, StoreOp};
use std::alloc::Global;

/// Where the next word is.
const TO: VirtualRegister = VirtualRegister(0);

/// How many bytes there are.
const COUNT: VirtualRegister = VirtualRegister(1);

/// Where the last word ends.
const END: VirtualRegister = VirtualRegister(2);

/// 0.
const NOTHING: VirtualRegister = VirtualRegister(3);

/// Where the last turn ends.
const TURNS: VirtualRegister = VirtualRegister(4);

const TURN: BlockId = BlockId(1);

const REST: BlockId = BlockId(2);

const WORDS: BlockId = BlockId(3);

const DONE: BlockId = BlockId(4);

/// All but the last seven words or fewer become zeros in turns.
pub const BEGINS: [Fixed; 5] = [
    Fixed::Alu(AluOp::Add, END, TO, COUNT),
    Fixed::AluImm(ImmOp::Andi, TURNS, COUNT, 31),
    Fixed::Alu(AluOp::Sub, TURNS, END, TURNS),
    Fixed::Branch(BranchOp::Beq, TO, TURNS, REST),
    Fixed::Jump(TURN),
];

/// Eight words.
pub const CLEARS_TURN: [Fixed; 11] = [
    Fixed::Store(StoreOp::Sw, NOTHING, TO, 0),
    Fixed::Store(StoreOp::Sw, NOTHING, TO, 4),
    Fixed::Store(StoreOp::Sw, NOTHING, TO, 8),
    Fixed::Store(StoreOp::Sw, NOTHING, TO, 12),
    Fixed::Store(StoreOp::Sw, NOTHING, TO, 16),
    Fixed::Store(StoreOp::Sw, NOTHING, TO, 20),
    Fixed::Store(StoreOp::Sw, NOTHING, TO, 24),
    Fixed::Store(StoreOp::Sw, NOTHING, TO, 28),
    Fixed::AluImm(ImmOp::Addi, TO, TO, 32),
    Fixed::Branch(BranchOp::Bne, TO, TURNS, TURN),
    Fixed::Jump(REST),
];

/// What is behind the last turn.
pub const GOES_ON: [Fixed; 2] = [
    Fixed::Branch(BranchOp::Beq, TO, END, DONE),
    Fixed::Jump(WORDS),
];

pub const CLEARS_WORD: [Fixed; 4] = [
    Fixed::Store(StoreOp::Sw, NOTHING, TO, 0),
    Fixed::AluImm(ImmOp::Addi, TO, TO, 4),
    Fixed::Branch(BranchOp::Bne, TO, END, WORDS),
    Fixed::Jump(DONE),
];

pub const ENDS: [Fixed; 1] = [Fixed::Return(NOTHING)];

/// The routine that puts zeros in memory.
pub fn clear(alloc: Global) -> Result<Routine, NoMemory>
    ensures { IfOk result (λ routine. routine ≡ clear) }
{
    routine(
        alloc,
        2,
        5,
        0,
        &[&BEGINS, &CLEARS_TURN, &GOES_ON, &CLEARS_WORD, &ENDS],
    )
}

//! The routine that gives a block back.
ghost use Rattle.op_rt_heap.specs.Give.{give_block};
ghost use Rattle.std.specs.Prelude.{◌≡◌, IfOk};

use crate::ids::CONTROL_ADDRESS;
use crate::parts::{Fixed, routine};
use op_base::NoMemory;
use op_low::{Routine, VirtualRegister};
use op_rv::{AluOp, BlockId, BranchOp, ImmOp, LoadOp, ShiftOp, StoreOp};
use std::alloc::Global;

const BLOCK: VirtualRegister = VirtualRegister(0);

const SIZE: VirtualRegister = VirtualRegister(1);

/// The address of the word that is to link the block.
const LINK: VirtualRegister = VirtualRegister(2);

/// The first hole behind the block, 0 for none.
const HOLE: VirtualRegister = VirtualRegister(3);

/// The last hole in front of it, 0 for none.
const BEFORE: VirtualRegister = VirtualRegister(4);

const END: VirtualRegister = VirtualRegister(5);

/// The size of another hole.
const OTHER: VirtualRegister = VirtualRegister(6);

/// 0.
const NOTHING: VirtualRegister = VirtualRegister(7);

const SEEK: BlockId = BlockId(1);

const MEET: BlockId = BlockId(2);

const FOLLOW: BlockId = BlockId(3);

const STAY: BlockId = BlockId(4);

pub const BEGINS: [Fixed; 5] = [
    Fixed::Load(LoadOp::Lw, SIZE, BLOCK, 0),
    Fixed::Shift(ShiftOp::Srli, SIZE, SIZE, 4),
    Fixed::Shift(ShiftOp::Slli, SIZE, SIZE, 4),
    Fixed::Const(LINK, CONTROL_ADDRESS),
    Fixed::Jump(SEEK),
];

/// Goes on to the first hole behind the block.
pub const SEEKS: [Fixed; 6] = [
    Fixed::Load(LoadOp::Lw, HOLE, LINK, 0),
    Fixed::Branch(BranchOp::Beq, HOLE, NOTHING, MEET),
    Fixed::Branch(BranchOp::Bltu, BLOCK, HOLE, MEET),
    Fixed::Move(BEFORE, HOLE),
    Fixed::AluImm(ImmOp::Addi, LINK, HOLE, 4),
    Fixed::Jump(SEEK),
];

/// Merges the block with the hole behind it where they meet.
pub const MEETS: [Fixed; 6] = [
    Fixed::Alu(AluOp::Add, END, BLOCK, SIZE),
    Fixed::Branch(BranchOp::Bne, END, HOLE, FOLLOW),
    Fixed::Load(LoadOp::Lw, OTHER, HOLE, 0),
    Fixed::Alu(AluOp::Add, SIZE, SIZE, OTHER),
    Fixed::Load(LoadOp::Lw, HOLE, HOLE, 4),
    Fixed::Jump(FOLLOW),
];

/// Merges it with the hole in front of it where they meet.
pub const FOLLOWS: [Fixed; 8] = [
    Fixed::Branch(BranchOp::Beq, BEFORE, NOTHING, STAY),
    Fixed::Load(LoadOp::Lw, OTHER, BEFORE, 0),
    Fixed::Alu(AluOp::Add, END, BEFORE, OTHER),
    Fixed::Branch(BranchOp::Bne, END, BLOCK, STAY),
    Fixed::Alu(AluOp::Add, OTHER, OTHER, SIZE),
    Fixed::Store(StoreOp::Sw, OTHER, BEFORE, 0),
    Fixed::Store(StoreOp::Sw, HOLE, LINK, 0),
    Fixed::Return(NOTHING),
];

/// Makes a hole of its own of it.
pub const STAYS: [Fixed; 4] = [
    Fixed::Store(StoreOp::Sw, SIZE, BLOCK, 0),
    Fixed::Store(StoreOp::Sw, HOLE, BLOCK, 4),
    Fixed::Store(StoreOp::Sw, BLOCK, LINK, 0),
    Fixed::Return(NOTHING),
];

/// The routine that gives a block back, of its address. `NoMemory` comes only where the allocator has no room.
pub fn give_block(alloc: Global) -> Result<Routine, NoMemory>
    ensures { IfOk result (λ routine. routine ≡ give_block) }
{
    routine(alloc, 1, 8, &[&BEGINS, &SEEKS, &MEETS, &FOLLOWS, &STAYS])
}

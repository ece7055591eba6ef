//! The routine that takes a block.
ghost use Rattle.op_rt_heap.specs.Take.{take_block};
ghost use Rattle.std.specs.Prelude.{◌≡◌, IfOk};

use crate::failing::FAILS;
use crate::ids::CONTROL_ADDRESS;
use crate::parts::{Fixed, routine};
use op_base::NoMemory;
use op_low::{Routine, VirtualRegister};
use op_rv::{AluOp, BlockId, BranchOp, ImmOp, LoadOp, ShiftOp, StoreOp};
use std::alloc::Global;

/// Size and kind.
const HEAD: VirtualRegister = VirtualRegister(0);

const SIZE: VirtualRegister = VirtualRegister(1);

/// The address of the word that links the hole.
const LINK: VirtualRegister = VirtualRegister(2);

const HOLE: VirtualRegister = VirtualRegister(3);

/// The size of the hole, and then of what is left of it.
const FOUND: VirtualRegister = VirtualRegister(4);

/// What is linked behind.
const NEXT: VirtualRegister = VirtualRegister(5);

const REST: VirtualRegister = VirtualRegister(6);

/// 0.
const NOTHING: VirtualRegister = VirtualRegister(7);

const SEARCH: BlockId = BlockId(1);

const FIT: BlockId = BlockId(2);

const TAKE: BlockId = BlockId(3);

const FAIL: BlockId = BlockId(4);

pub const BEGINS: [Fixed; 4] = [
    Fixed::Shift(ShiftOp::Srli, SIZE, HEAD, 4),
    Fixed::Shift(ShiftOp::Slli, SIZE, SIZE, 4),
    Fixed::Const(LINK, CONTROL_ADDRESS),
    Fixed::Jump(SEARCH),
];

/// Goes on to the first hole that is large enough.
pub const SEARCHES: [Fixed; 6] = [
    Fixed::Load(LoadOp::Lw, HOLE, LINK, 0),
    Fixed::Branch(BranchOp::Beq, HOLE, NOTHING, FAIL),
    Fixed::Load(LoadOp::Lw, FOUND, HOLE, 0),
    Fixed::Branch(BranchOp::Bgeu, FOUND, SIZE, FIT),
    Fixed::AluImm(ImmOp::Addi, LINK, HOLE, 4),
    Fixed::Jump(SEARCH),
];

/// Makes a hole of what is left behind the block, if anything is.
pub const FITS: [Fixed; 8] = [
    Fixed::Load(LoadOp::Lw, NEXT, HOLE, 4),
    Fixed::Branch(BranchOp::Beq, FOUND, SIZE, TAKE),
    Fixed::Alu(AluOp::Add, REST, HOLE, SIZE),
    Fixed::Alu(AluOp::Sub, FOUND, FOUND, SIZE),
    Fixed::Store(StoreOp::Sw, FOUND, REST, 0),
    Fixed::Store(StoreOp::Sw, NEXT, REST, 4),
    Fixed::Move(NEXT, REST),
    Fixed::Jump(TAKE),
];

pub const TAKES: [Fixed; 3] = [
    Fixed::Store(StoreOp::Sw, NEXT, LINK, 0),
    Fixed::Store(StoreOp::Sw, HEAD, HOLE, 0),
    Fixed::Return(HOLE),
];

/// The routine that takes a block, of its size and kind in one word: it gives the address of the block, or ends the program with run-time error 203
/// where no hole is large enough. `NoMemory` comes only where the allocator has no room.
pub fn take_block(alloc: Global) -> Result<Routine, NoMemory>
    ensures { IfOk result (λ routine. routine ≡ take_block) }
{
    routine(alloc, 1, 8, &[&BEGINS, &SEARCHES, &FITS, &TAKES, &FAILS])
}

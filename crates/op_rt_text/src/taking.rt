//! A value in place of its address.
ghost use Rattle.op_rt_text.specs.Take.{take};
ghost use Rattle.std.specs.Prelude.{◌≡◌, IfOk};

use crate::parts::{Arguments, Fixed, routine};
use crate::{COPY_BYTES, COPY_WORDS};
use op_base::NoMemory;
use op_low::{Routine, VirtualRegister};
use op_rv::{BlockId, BranchOp, ImmOp, LoadOp};
use std::alloc::Global;

const TO: VirtualRegister = VirtualRegister(0);

const SIZE: VirtualRegister = VirtualRegister(1);

const FROM: VirtualRegister = VirtualRegister(2);

/// What is left when it is divided by 4, of the address and then of the size.
const LEFT: VirtualRegister = VirtualRegister(3);

/// 0.
const NOTHING: VirtualRegister = VirtualRegister(4);

const BY_WORDS: BlockId = BlockId(1);

const BY_BYTES: BlockId = BlockId(2);

/// Copies by words where address and size are multiples of 4.
pub const BEGINS: [Fixed; 6] = [
    Fixed::Load(LoadOp::Lw, FROM, TO, 0),
    Fixed::AluImm(ImmOp::Andi, LEFT, FROM, 3),
    Fixed::Branch(BranchOp::Bne, LEFT, NOTHING, BY_BYTES),
    Fixed::AluImm(ImmOp::Andi, LEFT, SIZE, 3),
    Fixed::Branch(BranchOp::Bne, LEFT, NOTHING, BY_BYTES),
    Fixed::Jump(BY_WORDS),
];

pub const COPIES_WORDS: [Fixed; 2] = [
    Fixed::Call(COPY_WORDS, Arguments::Three(TO, FROM, SIZE), LEFT),
    Fixed::Return(LEFT),
];

pub const COPIES_BYTES: [Fixed; 2] = [
    Fixed::Call(COPY_BYTES, Arguments::Three(TO, FROM, SIZE), LEFT),
    Fixed::Return(LEFT),
];

/// The routine that puts a value in place of its address.
pub fn take(alloc: Global) -> Result<Routine, NoMemory>
    ensures { IfOk result (λ routine. routine ≡ take) }
{
    routine(alloc, 2, 5, 0, &[&BEGINS, &COPIES_WORDS, &COPIES_BYTES])
}

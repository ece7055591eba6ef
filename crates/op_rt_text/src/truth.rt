//! A truth.
ghost use Rattle.op_rt_text.specs.Truth.{write_truth};
ghost use Rattle.std.specs.Prelude.{◌≡◌, IfOk};

use crate::parts::{Arguments, Fixed, routine};
use crate::{FALSE_TEXT, TRUE_TEXT, WRITE_BYTES};
use op_base::NoMemory;
use op_low::{Routine, VirtualRegister};
use op_rv::{BlockId, BranchOp, Symbol};
use std::alloc::Global;

const VALUE: VirtualRegister = VirtualRegister(0);

const WIDTH: VirtualRegister = VirtualRegister(1);

const ADDRESS: VirtualRegister = VirtualRegister(2);

const TEXT_LENGTH: VirtualRegister = VirtualRegister(3);

/// 0.
const NOTHING: VirtualRegister = VirtualRegister(4);

const IS_FALSE: BlockId = BlockId(1);

const IS_TRUE: BlockId = BlockId(2);

pub const CHOOSES: [Fixed; 2] = [
    Fixed::Branch(BranchOp::Bne, VALUE, NOTHING, IS_TRUE),
    Fixed::Jump(IS_FALSE),
];

pub const WRITES_FALSE: [Fixed; 4] = [
    Fixed::Address(ADDRESS, Symbol::Literal(FALSE_TEXT)),
    Fixed::Const(TEXT_LENGTH, 5),
    Fixed::Call(
        WRITE_BYTES,
        Arguments::Three(ADDRESS, TEXT_LENGTH, WIDTH),
        TEXT_LENGTH,
    ),
    Fixed::Return(TEXT_LENGTH),
];

pub const WRITES_TRUE: [Fixed; 4] = [
    Fixed::Address(ADDRESS, Symbol::Literal(TRUE_TEXT)),
    Fixed::Const(TEXT_LENGTH, 4),
    Fixed::Call(
        WRITE_BYTES,
        Arguments::Three(ADDRESS, TEXT_LENGTH, WIDTH),
        TEXT_LENGTH,
    ),
    Fixed::Return(TEXT_LENGTH),
];

/// The routine that writes a truth.
pub fn write_truth(alloc: Global) -> Result<Routine, NoMemory>
    ensures { IfOk result (λ routine. routine ≡ write_truth) }
{
    routine(alloc, 2, 5, 0, &[&CHOOSES, &WRITES_FALSE, &WRITES_TRUE])
}

//! Blanks.
ghost use Rattle.op_rt_text.specs.Blanks.{write_blanks};
ghost use Rattle.std.specs.Prelude.{◌≡◌, IfOk};

use crate::BLANKS;
use crate::parts::{Fixed, routine};
use op_base::NoMemory;
use op_low::{Output, Routine, VirtualRegister};
use op_rv::{BlockId, BranchOp, ImmOp, Symbol};
use std::alloc::Global;

/// How many are left.
const COUNT: VirtualRegister = VirtualRegister(0);

/// Where the blanks stand.
const ADDRESS: VirtualRegister = VirtualRegister(1);

/// How many stand there.
const PIECE: VirtualRegister = VirtualRegister(2);

/// 0.
const NOTHING: VirtualRegister = VirtualRegister(3);

const PIECES: BlockId = BlockId(1);

const REST: BlockId = BlockId(2);

const END: BlockId = BlockId(3);

pub const BEGINS: [Fixed; 4] = [
    Fixed::Address(ADDRESS, Symbol::Literal(BLANKS)),
    Fixed::Const(PIECE, 64),
    Fixed::Branch(BranchOp::Bge, NOTHING, COUNT, END),
    Fixed::Jump(PIECES),
];

/// As often as more than a piece is left.
pub const WRITES_PIECE: [Fixed; 4] = [
    Fixed::Branch(BranchOp::Bgeu, PIECE, COUNT, REST),
    Fixed::Write(Output::Console, ADDRESS, PIECE),
    Fixed::AluImm(ImmOp::Addi, COUNT, COUNT, -64),
    Fixed::Jump(PIECES),
];

pub const WRITES_REST: [Fixed; 2] = [
    Fixed::Write(Output::Console, ADDRESS, COUNT),
    Fixed::Return(NOTHING),
];

pub const ENDS: [Fixed; 1] = [Fixed::Return(NOTHING)];

/// The routine that writes so many blanks.
pub fn write_blanks(alloc: Global) -> Result<Routine, NoMemory>
    ensures { IfOk result (λ routine. routine ≡ write_blanks) }
{
    routine(
        alloc,
        1,
        4,
        0,
        &[&BEGINS, &WRITES_PIECE, &WRITES_REST, &ENDS],
    )
}

//! Bytes of memory, padded.
ghost use Rattle.op_rt_text.specs.Bytes.{write_bytes};
ghost use Rattle.std.specs.Prelude.{◌≡◌, IfOk};

use crate::WRITE_BLANKS;
use crate::parts::{Arguments, Fixed, routine};
use op_base::NoMemory;
use op_low::{Output, Routine, VirtualRegister};
use op_rv::{AluOp, BlockId, BranchOp};
use std::alloc::Global;

const ADDRESS: VirtualRegister = VirtualRegister(0);

const LENGTH: VirtualRegister = VirtualRegister(1);

const WIDTH: VirtualRegister = VirtualRegister(2);

/// How many blanks, and then what their routine returns.
const BLANKS: VirtualRegister = VirtualRegister(3);

const TEXT: BlockId = BlockId(1);

pub const BEGINS: [Fixed; 4] = [
    Fixed::Branch(BranchOp::Bge, LENGTH, WIDTH, TEXT),
    Fixed::Alu(AluOp::Sub, BLANKS, WIDTH, LENGTH),
    Fixed::Call(WRITE_BLANKS, Arguments::One(BLANKS), BLANKS),
    Fixed::Jump(TEXT),
];

pub const WRITES_TEXT: [Fixed; 2] = [
    Fixed::Write(Output::Console, ADDRESS, LENGTH),
    Fixed::Return(LENGTH),
];

/// The routine that writes bytes with blanks in front.
pub fn write_bytes(alloc: Global) -> Result<Routine, NoMemory>
    ensures { IfOk result (λ routine. routine ≡ write_bytes) }
{
    routine(alloc, 3, 4, 0, &[&BEGINS, &WRITES_TEXT])
}

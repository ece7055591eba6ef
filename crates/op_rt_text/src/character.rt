//! A character.
ghost use Rattle.op_rt_text.specs.Char.{write_char};
ghost use Rattle.std.specs.Prelude.{◌≡◌, IfOk};

use crate::WRITE_BYTES;
use crate::parts::{Arguments, Fixed, routine};
use op_base::NoMemory;
use op_low::{Routine, VirtualRegister};
use op_rv::StoreOp;
use std::alloc::Global;

const VALUE: VirtualRegister = VirtualRegister(0);

const WIDTH: VirtualRegister = VirtualRegister(1);

/// Where its byte is put.
const ADDRESS: VirtualRegister = VirtualRegister(2);

const LENGTH: VirtualRegister = VirtualRegister(3);

pub const WRITES_BYTE: [Fixed; 5] = [
    Fixed::Local(ADDRESS, 0),
    Fixed::Store(StoreOp::Sb, VALUE, ADDRESS, 0),
    Fixed::Const(LENGTH, 1),
    Fixed::Call(
        WRITE_BYTES,
        Arguments::Three(ADDRESS, LENGTH, WIDTH),
        LENGTH,
    ),
    Fixed::Return(LENGTH),
];

/// The routine that writes a character.
pub fn write_char(alloc: Global) -> Result<Routine, NoMemory>
    ensures { IfOk result (λ routine. routine ≡ write_char) }
{
    routine(alloc, 2, 4, 4, &[&WRITES_BYTE])
}

//! The routine that makes the heap.
ghost use Rattle.op_rt_heap.specs.Start.{start_heap};
ghost use Rattle.std.specs.Prelude.{◌≡◌, IfOk};

use crate::ids::{CONTROL_ADDRESS, HEAP_ADDRESS};
use crate::parts::{Fixed, routine};
use op_base::NoMemory;
use op_low::{Routine, VirtualRegister};
use op_rv::StoreOp;
use std::alloc::Global;

const HEAP_BYTES: VirtualRegister = VirtualRegister(0);

const STACK_BYTES: VirtualRegister = VirtualRegister(1);

const CONTROL: VirtualRegister = VirtualRegister(2);

const HOLE: VirtualRegister = VirtualRegister(3);

const FIRST_SLOT: VirtualRegister = VirtualRegister(4);

/// 0.
const NOTHING: VirtualRegister = VirtualRegister(5);

pub const STARTS: [Fixed; 10] = [
    Fixed::Const(CONTROL, CONTROL_ADDRESS),
    Fixed::Const(HOLE, HEAP_ADDRESS),
    Fixed::Const(FIRST_SLOT, 1),
    Fixed::Store(StoreOp::Sw, HOLE, CONTROL, 0),
    Fixed::Store(StoreOp::Sw, HEAP_BYTES, CONTROL, 8),
    Fixed::Store(StoreOp::Sw, STACK_BYTES, CONTROL, 12),
    Fixed::Store(StoreOp::Sw, FIRST_SLOT, CONTROL, 16),
    Fixed::Store(StoreOp::Sw, HEAP_BYTES, HOLE, 0),
    Fixed::Store(StoreOp::Sw, NOTHING, HOLE, 4),
    Fixed::Return(NOTHING),
];

/// The routine with which a program begins, of the bytes of its heap and of its stack: all of the heap becomes one hole, and no slot has been
/// issued. `NoMemory` comes only where the allocator has no room.
pub fn start_heap(alloc: Global) -> Result<Routine, NoMemory>
    ensures { IfOk result (λ routine. routine ≡ start_heap) }
{
    routine(alloc, 2, 6, &[&STARTS])
}

//! The routines of slots.
ghost use Rattle.op_rt_heap.specs.Slots.{free_slot, issue_slot, test_slot};
ghost use Rattle.std.specs.Prelude.{◌≡◌, IfOk};

use crate::failing::FAILS;
use crate::ids::CONTROL_ADDRESS;
use crate::parts::{Fixed, routine};
use op_base::NoMemory;
use op_low::{Routine, VirtualRegister};
use op_rv::{AluOp, BlockId, BranchOp, ImmOp, LoadOp, ShiftOp, StoreOp};
use std::alloc::Global;

/// The address of a block.
const ADDRESS: VirtualRegister = VirtualRegister(0);

/// The slot that is given back.
const GIVEN: VirtualRegister = VirtualRegister(0);

const CONTROL: VirtualRegister = VirtualRegister(1);

const SLOT: VirtualRegister = VirtualRegister(2);

/// The row of the slot, but for the 24 bytes that all rows lie behind.
const ENTRY: VirtualRegister = VirtualRegister(3);

const NEXT: VirtualRegister = VirtualRegister(4);

const GENERATION: VirtualRegister = VirtualRegister(5);

/// The last generation, or behind the last slot.
const LAST: VirtualRegister = VirtualRegister(6);

/// 0.
const NOTHING: VirtualRegister = VirtualRegister(7);

const FOUND: BlockId = BlockId(1);

const FAIL: BlockId = BlockId(2);

const BEGIN_SLOT: BlockId = BlockId(1);

const WRITE_ROW: BlockId = BlockId(2);

const END_ROW: BlockId = BlockId(1);

/// Looks for a free slot, and then for one that was never issued.
pub const LOOKS: [Fixed; 7] = [
    Fixed::Const(CONTROL, CONTROL_ADDRESS),
    Fixed::Load(LoadOp::Lw, SLOT, CONTROL, 4),
    Fixed::Branch(BranchOp::Bne, SLOT, NOTHING, FOUND),
    Fixed::Load(LoadOp::Lw, SLOT, CONTROL, 16),
    Fixed::Const(LAST, 65536),
    Fixed::Branch(BranchOp::Bltu, SLOT, LAST, FOUND),
    Fixed::Jump(FAIL),
];

pub const FINDS: [Fixed; 1] = [Fixed::Return(NOTHING)];

/// Takes the first free slot out of the list.
pub const ISSUES: [Fixed; 8] = [
    Fixed::Const(CONTROL, CONTROL_ADDRESS),
    Fixed::Load(LoadOp::Lw, SLOT, CONTROL, 4),
    Fixed::Branch(BranchOp::Beq, SLOT, NOTHING, BEGIN_SLOT),
    Fixed::Shift(ShiftOp::Slli, ENTRY, SLOT, 3),
    Fixed::Alu(AluOp::Add, ENTRY, ENTRY, CONTROL),
    Fixed::Load(LoadOp::Lw, NEXT, ENTRY, 24),
    Fixed::Store(StoreOp::Sw, NEXT, CONTROL, 4),
    Fixed::Jump(WRITE_ROW),
];

/// Takes the least one that was never issued.
pub const BEGINS_SLOT: [Fixed; 6] = [
    Fixed::Load(LoadOp::Lw, SLOT, CONTROL, 16),
    Fixed::AluImm(ImmOp::Addi, NEXT, SLOT, 1),
    Fixed::Store(StoreOp::Sw, NEXT, CONTROL, 16),
    Fixed::Shift(ShiftOp::Slli, ENTRY, SLOT, 3),
    Fixed::Alu(AluOp::Add, ENTRY, ENTRY, CONTROL),
    Fixed::Jump(WRITE_ROW),
];

pub const WRITES_ROW: [Fixed; 7] = [
    Fixed::Store(StoreOp::Sw, ADDRESS, ENTRY, 24),
    Fixed::Load(LoadOp::Lw, GENERATION, ENTRY, 28),
    Fixed::AluImm(ImmOp::Addi, GENERATION, GENERATION, 1),
    Fixed::Store(StoreOp::Sw, GENERATION, ENTRY, 28),
    Fixed::Shift(ShiftOp::Slli, GENERATION, GENERATION, 16),
    Fixed::Alu(AluOp::Add, GENERATION, GENERATION, SLOT),
    Fixed::Return(GENERATION),
];

/// Puts the slot in front of the free ones, but for one that has had its last generation: behind that comes none.
pub const FREES: [Fixed; 9] = [
    Fixed::Const(CONTROL, CONTROL_ADDRESS),
    Fixed::Shift(ShiftOp::Slli, ENTRY, GIVEN, 3),
    Fixed::Alu(AluOp::Add, ENTRY, ENTRY, CONTROL),
    Fixed::Load(LoadOp::Lw, GENERATION, ENTRY, 28),
    Fixed::Const(LAST, 65535),
    Fixed::Branch(BranchOp::Beq, GENERATION, LAST, END_ROW),
    Fixed::Load(LoadOp::Lw, NEXT, CONTROL, 4),
    Fixed::Store(StoreOp::Sw, GIVEN, CONTROL, 4),
    Fixed::Jump(END_ROW),
];

pub const ENDS_ROW: [Fixed; 2] = [
    Fixed::Store(StoreOp::Sw, NEXT, ENTRY, 24),
    Fixed::Return(NOTHING),
];

/// The routine that ends the program with run-time error 203 where no slot can be issued. It is called before the block of an instance is taken, so
/// that nothing has changed where the program ends. `NoMemory` comes only where the allocator has no room.
pub fn test_slot(alloc: Global) -> Result<Routine, NoMemory>
    ensures { IfOk result (λ routine. routine ≡ test_slot) }
{
    routine(alloc, 0, 8, &[&LOOKS, &FINDS, &FAILS])
}

/// The routine that issues a slot for the block at an address, and gives its word. There has to be one to be issued. `NoMemory` comes only where the
/// allocator has no room.
pub fn issue_slot(alloc: Global) -> Result<Routine, NoMemory>
    ensures { IfOk result (λ routine. routine ≡ issue_slot) }
{
    routine(alloc, 1, 8, &[&ISSUES, &BEGINS_SLOT, &WRITES_ROW])
}

/// The routine that gives a slot back, or retires it after its last generation. `NoMemory` comes only where the allocator has no room.
pub fn free_slot(alloc: Global) -> Result<Routine, NoMemory>
    ensures { IfOk result (λ routine. routine ≡ free_slot) }
{
    routine(alloc, 1, 8, &[&FREES, &ENDS_ROW])
}

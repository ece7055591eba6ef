//! A number.
ghost use Rattle.op_rt_text.specs.Number.{write_number};
ghost use Rattle.std.specs.Prelude.{◌≡◌, IfOk};

use crate::WRITE_BYTES;
use crate::parts::{Arguments, Fixed, routine};
use op_base::NoMemory;
use op_low::{Routine, VirtualRegister};
use op_rv::{AluOp, BlockId, BranchOp, ImmOp, StoreOp};
use std::alloc::Global;

const VALUE: VirtualRegister = VirtualRegister(0);

const WIDTH: VirtualRegister = VirtualRegister(1);

/// The end of the text.
const END: VirtualRegister = VirtualRegister(2);

/// Where the text begins so far.
const ADDRESS: VirtualRegister = VirtualRegister(3);

/// The magnitude without the digits so far.
const REST: VirtualRegister = VirtualRegister(4);

/// A character of the text, and then its length.
const DIGIT: VirtualRegister = VirtualRegister(5);

const TEN: VirtualRegister = VirtualRegister(6);

/// 0.
const NOTHING: VirtualRegister = VirtualRegister(7);

const DIGITS: BlockId = BlockId(1);

const SIGN: BlockId = BlockId(2);

const TEXT: BlockId = BlockId(3);

/// Takes the magnitude, as a word without a sign.
pub const BEGINS: [Fixed; 7] = [
    Fixed::Local(END, 11),
    Fixed::Move(ADDRESS, END),
    Fixed::Const(TEN, 10),
    Fixed::Move(REST, VALUE),
    Fixed::Branch(BranchOp::Bge, VALUE, NOTHING, DIGITS),
    Fixed::Alu(AluOp::Sub, REST, NOTHING, VALUE),
    Fixed::Jump(DIGITS),
];

/// Puts the last digit of the rest in front of the text, until nothing is left.
pub const PUTS_DIGIT: [Fixed; 7] = [
    Fixed::Alu(AluOp::Remu, DIGIT, REST, TEN),
    Fixed::AluImm(ImmOp::Addi, DIGIT, DIGIT, 48),
    Fixed::AluImm(ImmOp::Addi, ADDRESS, ADDRESS, -1),
    Fixed::Store(StoreOp::Sb, DIGIT, ADDRESS, 0),
    Fixed::Alu(AluOp::Divu, REST, REST, TEN),
    Fixed::Branch(BranchOp::Bne, REST, NOTHING, DIGITS),
    Fixed::Jump(SIGN),
];

pub const PUTS_SIGN: [Fixed; 5] = [
    Fixed::Branch(BranchOp::Bge, VALUE, NOTHING, TEXT),
    Fixed::Const(DIGIT, 45),
    Fixed::AluImm(ImmOp::Addi, ADDRESS, ADDRESS, -1),
    Fixed::Store(StoreOp::Sb, DIGIT, ADDRESS, 0),
    Fixed::Jump(TEXT),
];

pub const WRITES_TEXT: [Fixed; 3] = [
    Fixed::Alu(AluOp::Sub, DIGIT, END, ADDRESS),
    Fixed::Call(WRITE_BYTES, Arguments::Three(ADDRESS, DIGIT, WIDTH), DIGIT),
    Fixed::Return(DIGIT),
];

/// The routine that writes a number.
pub fn write_number(alloc: Global) -> Result<Routine, NoMemory>
    ensures { IfOk result (λ routine. routine ≡ write_number) }
{
    routine(
        alloc,
        2,
        8,
        12,
        &[&BEGINS, &PUTS_DIGIT, &PUTS_SIGN, &WRITES_TEXT],
    )
}

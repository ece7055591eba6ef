//! Conversions of numbers (Free Pascal Reference Guide, "Value typecasts"; reference of the unit System, "Succ", "Pred" and "UpCase").
ghost use Rattle.op_compute.specs.Conversions.{check_code, low_bits_code, neighbour_code, neighbour_test, upper_code};
ghost use Rattle.std.specs.Prelude.{◌≡◌, ◌-ℤ◌, ◌∷◌, ◌++◌, [], OnOk};

use crate::instruction::{push, push_alu, push_immediate, push_move, push_shift};
use crate::range::{has_every, push_sum_with, test_range};
use crate::{Operands, Work};
use op_base::NoMemory;
use op_core::IntegerKind;
use op_low::{Instruction, VirtualRegister};
use op_rv::{AluOp, ImmOp, ShiftOp};

/// A register becomes what a smaller integer type keeps of a number.
#[tactic(auto, unfolding(crate::specs::Conversions::low_bits_code))]
pub fn low_bits(
    code: &mut Vec<Instruction>,
    to: VirtualRegister,
    kind: IntegerKind,
    from: VirtualRegister,
) -> Result<(), NoMemory>
    ensures { OnOk result (code.new.items ≡ code.old.items ++ low_bits_code to kind from) }
{
    match kind {
        IntegerKind::Signed8 => push_shifts(code, to, from, ShiftOp::Srai, 24),
        IntegerKind::Unsigned8 => push_immediate(code, ImmOp::Andi, to, from, 255),
        IntegerKind::Signed16 => push_shifts(code, to, from, ShiftOp::Srai, 16),
        IntegerKind::Unsigned16 => push_shifts(code, to, from, ShiftOp::Srli, 16),
        IntegerKind::Signed32 => push(code, Instruction::Move { to, from }),
    }
}

/// To the left, and back by another shift.
fn push_shifts(
    code: &mut Vec<Instruction>,
    to: VirtualRegister,
    from: VirtualRegister,
    back: ShiftOp,
    amount: u8,
) -> Result<(), NoMemory>
    ensures { OnOk result (code.new.items ≡ code.old.items ++ Instruction.Shift ShiftOp.Slli to from amount ∷ Instruction.Shift back to to amount ∷ []) }
{
    push_shift(code, ShiftOp::Slli, to, from, amount)?;
    push_shift(code, back, to, to, amount)
}

#[tactic(auto, unfolding(crate::specs::Conversions::upper_code))]
pub fn upper(code: &mut Vec<Instruction>, work: Work, operands: Operands) -> Result<(), NoMemory>
    ensures { OnOk result (code.new.items ≡ code.old.items ++ upper_code work operands) }
{
    push_immediate(code, ImmOp::Addi, work.first, operands.left, -97)?;
    push_immediate(code, ImmOp::Sltiu, work.first, work.first, 26)?;
    push_shift(code, ShiftOp::Slli, work.first, work.first, 5)?;
    push_alu(code, AluOp::Sub, operands.to, operands.left, work.first)
}

#[tactic(auto, unfolding(crate::specs::Conversions::check_code))]
pub fn check(
    code: &mut Vec<Instruction>,
    work: Work,
    operands: Operands,
    low: i32,
    high: i32,
) -> Result<(), NoMemory>
    ensures { OnOk result (code.new.items ≡ code.old.items ++ check_code work operands low high) }
{
    if has_every(low, high) {
        return push(
            code,
            Instruction::Move {
                to: operands.to,
                from: operands.left,
            },
        );
    }
    test_range(code, work, operands.left, low as i64, high as i64)?;
    push_move(code, operands.to, operands.left)
}

/// The number that stands so far in front of another one.
fn in_front(n: i32, distance: i32) -> i64
    ensures { result ≡ n -ℤ distance }
{
    n as i64 - distance as i64
}

/// Error 201 where the number that stands so far behind another one is not in a range.
#[tactic(auto, unfolding(crate::specs::Conversions::neighbour_test))]
fn test_neighbour(
    code: &mut Vec<Instruction>,
    work: Work,
    from: VirtualRegister,
    distance: i32,
    low: i32,
    high: i32,
) -> Result<(), NoMemory>
    ensures { OnOk result (code.new.items ≡ code.old.items ++ neighbour_test work from distance low high) }
{
    test_range(
        code,
        work,
        from,
        in_front(low, distance),
        in_front(high, distance),
    )
}

#[tactic(auto, unfolding(crate::specs::Conversions::neighbour_code))]
pub fn neighbour(
    code: &mut Vec<Instruction>,
    work: Work,
    operands: Operands,
    distance: i32,
    low: i32,
    high: i32,
) -> Result<(), NoMemory>
    ensures { OnOk result (code.new.items ≡ code.old.items ++ neighbour_code work operands distance low high) }
{
    test_neighbour(code, work, operands.left, distance, low, high)?;
    push_sum_with(code, work.first, operands.to, operands.left, distance)
}

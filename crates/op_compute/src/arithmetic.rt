//! Arithmetic on numbers of 32 bits (Free Pascal Reference Guide, "Arithmetic operators"; Programmer's Guide, "$Q : Overflow checking").
ghost use Rattle.op_compute.specs.Arithmetic.{absolute_code, arithmetic_code, difference_code, divisor_test, least_test, negate_code, product_code, quotient_code, remainder_code, sum_code};
ghost use Rattle.std.specs.Prelude.{◌≡◌, ◌∷◌, ◌++◌, [], OnOk};

use crate::instruction::{
    push_alu, push_branch, push_const, push_immediate, push_move, push_shift,
};
use crate::{Operands, Work};
use op_base::NoMemory;
use op_low::Instruction;
use op_rv::{AluOp, BranchOp, ImmOp, ShiftOp};
use op_tree::Operator;

/// The least number of 32 bits, as a word.
const LEAST: u32 = 1 << 31;

#[tactic(auto, unfolding(crate::specs::Arithmetic::arithmetic_code))]
pub fn arithmetic(
    code: &mut Vec<Instruction>,
    work: Work,
    operands: Operands,
    operator: Operator,
    checked: bool,
) -> Result<(), NoMemory>
    ensures { OnOk result (code.new.items ≡ code.old.items ++ arithmetic_code work operands operator checked) }
{
    match operator {
        Operator::Add => sum(code, work, operands, checked),
        Operator::Subtract => difference(code, work, operands, checked),
        Operator::Multiply => product(code, work, operands, checked),
        Operator::Div => quotient(code, work, operands, checked),
        Operator::Mod_ => remainder(code, work, operands),
        Operator::And => plain(code, AluOp::And, operands),
        Operator::Or => plain(code, AluOp::Or, operands),
        Operator::Xor => plain(code, AluOp::Xor, operands),
        Operator::Shl => plain(code, AluOp::Sll, operands),
        Operator::Shr => plain(code, AluOp::Srl, operands),
        _ => push_const(code, operands.to, 0),
    }
}

/// An operation that cannot fail.
pub fn plain(code: &mut Vec<Instruction>, op: AluOp, operands: Operands) -> Result<(), NoMemory>
    ensures { OnOk result (code.new.items ≡ code.old.items ++ Instruction.Alu op operands.to operands.left operands.right ∷ []) }
{
    push_alu(code, op, operands.to, operands.left, operands.right)
}

#[tactic(auto, unfolding(crate::specs::Arithmetic::sum_code))]
fn sum(
    code: &mut Vec<Instruction>,
    work: Work,
    operands: Operands,
    checked: bool,
) -> Result<(), NoMemory>
    ensures { OnOk result (code.new.items ≡ code.old.items ++ sum_code work operands checked) }
{
    if !checked {
        return plain(code, AluOp::Add, operands);
    }
    push_alu(code, AluOp::Add, work.first, operands.left, operands.right)?;
    push_alu(code, AluOp::Slt, work.second, work.first, operands.left)?;
    push_immediate(code, ImmOp::Slti, work.third, operands.right, 0)?;
    push_branch(code, BranchOp::Bne, work.second, work.third, work.overflow)?;
    push_move(code, operands.to, work.first)
}

#[tactic(auto, unfolding(crate::specs::Arithmetic::difference_code))]
fn difference(
    code: &mut Vec<Instruction>,
    work: Work,
    operands: Operands,
    checked: bool,
) -> Result<(), NoMemory>
    ensures { OnOk result (code.new.items ≡ code.old.items ++ difference_code work operands checked) }
{
    if !checked {
        return plain(code, AluOp::Sub, operands);
    }
    push_alu(code, AluOp::Sub, work.first, operands.left, operands.right)?;
    push_alu(code, AluOp::Slt, work.second, operands.left, work.first)?;
    push_immediate(code, ImmOp::Slti, work.third, operands.right, 0)?;
    push_branch(code, BranchOp::Bne, work.second, work.third, work.overflow)?;
    push_move(code, operands.to, work.first)
}

#[tactic(auto, unfolding(crate::specs::Arithmetic::product_code))]
fn product(
    code: &mut Vec<Instruction>,
    work: Work,
    operands: Operands,
    checked: bool,
) -> Result<(), NoMemory>
    ensures { OnOk result (code.new.items ≡ code.old.items ++ product_code work operands checked) }
{
    if !checked {
        return plain(code, AluOp::Mul, operands);
    }
    push_alu(code, AluOp::Mul, work.first, operands.left, operands.right)?;
    push_alu(
        code,
        AluOp::Mulh,
        work.second,
        operands.left,
        operands.right,
    )?;
    push_shift(code, ShiftOp::Srai, work.third, work.first, 31)?;
    push_branch(code, BranchOp::Bne, work.second, work.third, work.overflow)?;
    push_move(code, operands.to, work.first)
}

/// Error 200 where the divisor is zero.
#[tactic(auto, unfolding(crate::specs::Arithmetic::divisor_test))]
fn test_divisor(code: &mut Vec<Instruction>, work: Work, operands: Operands) -> Result<(), NoMemory>
    ensures { OnOk result (code.new.items ≡ code.old.items ++ divisor_test work operands) }
{
    push_const(code, work.first, 0)?;
    push_branch(
        code,
        BranchOp::Beq,
        operands.right,
        work.first,
        work.division,
    )
}

#[tactic(auto, unfolding(crate::specs::Arithmetic::quotient_code))]
fn quotient(
    code: &mut Vec<Instruction>,
    work: Work,
    operands: Operands,
    checked: bool,
) -> Result<(), NoMemory>
    ensures { OnOk result (code.new.items ≡ code.old.items ++ quotient_code work operands checked) }
{
    test_divisor(code, work, operands)?;
    if !checked {
        return plain(code, AluOp::Div, operands);
    }
    push_alu(code, AluOp::Div, work.second, operands.left, operands.right)?;
    push_alu(code, AluOp::And, work.third, operands.left, operands.right)?;
    push_alu(code, AluOp::And, work.third, work.third, work.second)?;
    push_branch(code, BranchOp::Blt, work.third, work.first, work.overflow)?;
    push_move(code, operands.to, work.second)
}

#[tactic(auto, unfolding(crate::specs::Arithmetic::remainder_code))]
fn remainder(code: &mut Vec<Instruction>, work: Work, operands: Operands) -> Result<(), NoMemory>
    ensures { OnOk result (code.new.items ≡ code.old.items ++ remainder_code work operands) }
{
    test_divisor(code, work, operands)?;
    plain(code, AluOp::Rem, operands)
}

/// Error 215 where the number is the least one, which has no opposite.
#[tactic(auto, unfolding(crate::specs::Arithmetic::least_test))]
fn test_least(
    code: &mut Vec<Instruction>,
    work: Work,
    operands: Operands,
    checked: bool,
) -> Result<(), NoMemory>
    ensures { OnOk result (code.new.items ≡ code.old.items ++ least_test work operands checked) }
{
    if !checked {
        return Ok(());
    }
    push_const(code, work.first, LEAST)?;
    push_branch(
        code,
        BranchOp::Beq,
        operands.left,
        work.first,
        work.overflow,
    )
}

#[tactic(auto, unfolding(crate::specs::Arithmetic::negate_code))]
pub fn negate(
    code: &mut Vec<Instruction>,
    work: Work,
    operands: Operands,
    checked: bool,
) -> Result<(), NoMemory>
    ensures { OnOk result (code.new.items ≡ code.old.items ++ negate_code work operands checked) }
{
    test_least(code, work, operands, checked)?;
    push_const(code, work.first, 0)?;
    push_alu(code, AluOp::Sub, operands.to, work.first, operands.left)
}

#[tactic(auto, unfolding(crate::specs::Arithmetic::absolute_code))]
pub fn absolute(
    code: &mut Vec<Instruction>,
    work: Work,
    operands: Operands,
    checked: bool,
) -> Result<(), NoMemory>
    ensures { OnOk result (code.new.items ≡ code.old.items ++ absolute_code work operands checked) }
{
    test_least(code, work, operands, checked)?;
    push_shift(code, ShiftOp::Srai, work.first, operands.left, 31)?;
    push_alu(code, AluOp::Xor, work.second, operands.left, work.first)?;
    push_alu(code, AluOp::Sub, operands.to, work.second, work.first)
}

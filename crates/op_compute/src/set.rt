//! Sets of 32 elements, a bit each (Free Pascal Reference Guide, "Set types" and "Set operators").
ghost use Rattle.op_compute.specs.SetCode.{all_if_negative_code, bits_from_code, check_set_code, combine_code, contains_code, inclusion_code, single_code, span_code, without_code};
ghost use Rattle.std.specs.Prelude.{◌≡◌, ◌++◌, OnOk};

use crate::arithmetic::plain;
use crate::comparison::compare;
use crate::instruction::{
    push_alu, push_branch, push_const, push_immediate, push_move, push_shift,
};
use crate::{Operands, Work};
use op_base::NoMemory;
use op_low::{Instruction, VirtualRegister};
use op_rv::{AluOp, BranchOp, ImmOp, ShiftOp};
use op_tree::Operator;

#[tactic(auto, unfolding(crate::specs::SetCode::combine_code))]
pub fn combine(
    code: &mut Vec<Instruction>,
    work: Work,
    operands: Operands,
    operator: Operator,
) -> Result<(), NoMemory>
    ensures { OnOk result (code.new.items ≡ code.old.items ++ combine_code work operands operator) }
{
    let Operands { to, left, right } = operands;
    match operator {
        Operator::Add => plain(code, AluOp::Or, operands),
        Operator::Subtract => without(code, work, to, left, right),
        Operator::Multiply => plain(code, AluOp::And, operands),
        Operator::LessEqual => inclusion(code, work, to, left, right),
        Operator::GreaterEqual => inclusion(code, work, to, right, left),
        Operator::Equal => compare(code, operands, Operator::Equal),
        Operator::NotEqual => compare(code, operands, Operator::NotEqual),
        _ => push_const(code, to, 0),
    }
}

#[tactic(auto, unfolding(crate::specs::SetCode::without_code))]
fn without(
    code: &mut Vec<Instruction>,
    work: Work,
    to: VirtualRegister,
    left: VirtualRegister,
    right: VirtualRegister,
) -> Result<(), NoMemory>
    ensures { OnOk result (code.new.items ≡ code.old.items ++ without_code work to left right) }
{
    push_immediate(code, ImmOp::Xori, work.first, right, -1)?;
    push_alu(code, AluOp::And, to, left, work.first)
}

#[tactic(auto, unfolding(crate::specs::SetCode::inclusion_code))]
fn inclusion(
    code: &mut Vec<Instruction>,
    work: Work,
    to: VirtualRegister,
    left: VirtualRegister,
    right: VirtualRegister,
) -> Result<(), NoMemory>
    ensures { OnOk result (code.new.items ≡ code.old.items ++ inclusion_code work to left right) }
{
    without(code, work, to, left, right)?;
    push_immediate(code, ImmOp::Sltiu, to, to, 1)
}

#[tactic(auto, unfolding(crate::specs::SetCode::single_code))]
pub fn single(
    code: &mut Vec<Instruction>,
    to: VirtualRegister,
    via: VirtualRegister,
    from: VirtualRegister,
) -> Result<(), NoMemory>
    ensures { OnOk result (code.new.items ≡ code.old.items ++ single_code to via from) }
{
    push_immediate(code, ImmOp::Sltiu, via, from, 32)?;
    push_alu(code, AluOp::Sll, to, via, from)
}

/// The bits from the place on that a number which is not negative says.
#[tactic(auto, unfolding(crate::specs::SetCode::bits_from_code))]
fn push_bits_from(
    code: &mut Vec<Instruction>,
    to: VirtualRegister,
    from: VirtualRegister,
) -> Result<(), NoMemory>
    ensures { OnOk result (code.new.items ≡ code.old.items ++ bits_from_code to from) }
{
    push_immediate(code, ImmOp::Addi, to, from, -32)?;
    push_shift(code, ShiftOp::Srai, to, to, 31)?;
    push_alu(code, AluOp::Sll, to, to, from)
}

/// All bits where another number is negative.
#[tactic(auto, unfolding(crate::specs::SetCode::all_if_negative_code))]
fn push_all_if_negative(
    code: &mut Vec<Instruction>,
    to: VirtualRegister,
    via: VirtualRegister,
    from: VirtualRegister,
) -> Result<(), NoMemory>
    ensures { OnOk result (code.new.items ≡ code.old.items ++ all_if_negative_code to via from) }
{
    push_shift(code, ShiftOp::Srai, via, from, 31)?;
    push_alu(code, AluOp::Or, to, to, via)
}

#[tactic(auto, unfolding(crate::specs::SetCode::span_code))]
pub fn span(code: &mut Vec<Instruction>, work: Work, operands: Operands) -> Result<(), NoMemory>
    ensures { OnOk result (code.new.items ≡ code.old.items ++ span_code work operands) }
{
    push_bits_from(code, work.first, operands.left)?;
    push_all_if_negative(code, work.first, work.second, operands.left)?;
    push_bits_from(code, work.second, operands.right)?;
    push_shift(code, ShiftOp::Slli, work.second, work.second, 1)?;
    push_all_if_negative(code, work.second, work.third, operands.right)?;
    push_immediate(code, ImmOp::Xori, work.second, work.second, -1)?;
    push_alu(code, AluOp::And, operands.to, work.first, work.second)
}

#[tactic(auto, unfolding(crate::specs::SetCode::contains_code))]
pub fn contains(code: &mut Vec<Instruction>, work: Work, operands: Operands) -> Result<(), NoMemory>
    ensures { OnOk result (code.new.items ≡ code.old.items ++ contains_code work operands) }
{
    push_immediate(code, ImmOp::Sltiu, work.first, operands.left, 32)?;
    push_alu(code, AluOp::Srl, work.second, operands.right, operands.left)?;
    push_alu(code, AluOp::And, operands.to, work.first, work.second)
}

#[tactic(auto, unfolding(crate::specs::SetCode::check_set_code))]
pub fn check_set(
    code: &mut Vec<Instruction>,
    work: Work,
    operands: Operands,
    all: i32,
) -> Result<(), NoMemory>
    ensures { OnOk result (code.new.items ≡ code.old.items ++ check_set_code work operands all) }
{
    let others = !all;
    push_const(code, work.first, others.cast_unsigned())?;
    push_alu(code, AluOp::And, work.first, work.first, operands.left)?;
    push_const(code, work.second, 0)?;
    push_branch(code, BranchOp::Bne, work.first, work.second, work.range)?;
    push_move(code, operands.to, operands.left)
}

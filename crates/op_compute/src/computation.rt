//! The low code of each computation.
ghost use Rattle.op_compute.specs.Bank.{operands_of, register_of, work_of};
ghost use Rattle.op_compute.specs.Computing.{code_of, computation_code, constant_code, registers_of};
ghost use Rattle.std.specs.Prelude.{◌≡◌, ◌∷◌, ◌++◌, [], IfOk, OnOk};

use crate::arithmetic::{absolute, arithmetic, negate};
use crate::comparison::compare;
use crate::conversion::{check, low_bits, neighbour, upper};
use crate::instruction::{push_const, push_immediate};
use crate::set::{check_set, combine, contains, single, span};
use crate::{Bank, Operands, Work};
use op_base::NoMemory;
use op_low::Instruction;
use op_mir::{Computation, TemporaryId};
use op_rv::ImmOp;

/// A temporary becomes a number.
#[tactic(auto, unfolding(crate::specs::Computing::constant_code))]
pub fn constant(
    code: &mut Vec<Instruction>,
    bank: Bank,
    to: TemporaryId,
    value: i32,
) -> Result<(), NoMemory>
    ensures { OnOk result (code.new.items ≡ code.old.items ++ constant_code (register_of bank to) value) }
{
    push_const(code, bank.temporary(to)?, value.cast_unsigned())
}

/// Appends the code of a computation. After an error the code is of no use.
#[tactic(auto, unfolding(crate::specs::Computing::computation_code))]
pub fn compute(
    code: &mut Vec<Instruction>,
    bank: Bank,
    computation: Computation,
) -> Result<(), NoMemory>
    ensures { OnOk result (code.new.items ≡ code.old.items ++ computation_code bank computation) }
{
    let work = bank.work()?;
    let operands = registers(bank, computation)?;
    push_code(code, work, operands, computation)
}

/// The registers of a computation's temporaries.
#[tactic(auto, unfolding(crate::specs::Computing::registers_of))]
fn registers(bank: Bank, computation: Computation) -> Result<Operands, NoMemory>
    ensures { IfOk result (λ operands. operands ≡ registers_of bank computation) }
{
    match computation {
        Computation::Arithmetic {
            to,
            left,
            right,
            ..
        } => bank.operands(to, left, right),
        Computation::Compare {
            to,
            left,
            right,
            ..
        } => bank.operands(to, left, right),
        Computation::Negate { to, from, .. } => bank.operands(to, from, from),
        Computation::Complement { to, from } => bank.operands(to, from, from),
        Computation::Invert { to, from } => bank.operands(to, from, from),
        Computation::Absolute { to, from, .. } => bank.operands(to, from, from),
        Computation::Odd { to, from } => bank.operands(to, from, from),
        Computation::Upper { to, from } => bank.operands(to, from, from),
        Computation::LowBits { to, from, .. } => bank.operands(to, from, from),
        Computation::Check { to, from, .. } => bank.operands(to, from, from),
        Computation::Neighbour { to, from, .. } => bank.operands(to, from, from),
        Computation::Single { to, from } => bank.operands(to, from, from),
        Computation::Span { to, first, last } => bank.operands(to, first, last),
        Computation::Combine {
            to,
            left,
            right,
            ..
        } => bank.operands(to, left, right),
        Computation::Contains { to, element, set } => bank.operands(to, element, set),
        Computation::CheckSet { to, from, .. } => bank.operands(to, from, from),
    }
}

#[tactic(auto, unfolding(crate::specs::Computing::code_of))]
fn push_code(
    code: &mut Vec<Instruction>,
    work: Work,
    operands: Operands,
    computation: Computation,
) -> Result<(), NoMemory>
    ensures { OnOk result (code.new.items ≡ code.old.items ++ code_of work operands computation) }
{
    match computation {
        Computation::Arithmetic {
            operator,
            checked,
            ..
        } => { arithmetic(code, work, operands, operator, checked) }
        Computation::Compare { operator, .. } => compare(code, operands, operator),
        Computation::Negate { checked, .. } => negate(code, work, operands, checked),
        Computation::Complement { .. } => push_with_number(code, ImmOp::Xori, operands, -1),
        Computation::Invert { .. } => push_with_number(code, ImmOp::Sltiu, operands, 1),
        Computation::Absolute { checked, .. } => absolute(code, work, operands, checked),
        Computation::Odd { .. } => push_with_number(code, ImmOp::Andi, operands, 1),
        Computation::Upper { .. } => upper(code, work, operands),
        Computation::LowBits { kind, .. } => low_bits(code, operands.to, kind, operands.left),
        Computation::Check { low, high, .. } => check(code, work, operands, low, high),
        Computation::Neighbour {
            distance,
            low,
            high,
            ..
        } => { neighbour(code, work, operands, distance, low, high) }
        Computation::Single { .. } => single(code, operands.to, work.first, operands.left),
        Computation::Span { .. } => span(code, work, operands),
        Computation::Combine { operator, .. } => combine(code, work, operands, operator),
        Computation::Contains { .. } => contains(code, work, operands),
        Computation::CheckSet { all, .. } => check_set(code, work, operands, all),
    }
}

/// An operation on the first operand and a number that an instruction takes.
fn push_with_number(
    code: &mut Vec<Instruction>,
    op: ImmOp,
    operands: Operands,
    imm: i32,
) -> Result<(), NoMemory>
    ensures { OnOk result (code.new.items ≡ code.old.items ++ Instruction.AluImm op operands.to operands.left imm ∷ []) }
{
    push_immediate(code, op, operands.to, operands.left, imm)
}

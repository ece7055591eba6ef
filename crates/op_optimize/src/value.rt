//! The values that instructions write, and operations with a number.
ghost use Rattle.op_optimize.specs.Values.{alu_value, near, opposite_near, power_by, shifted, folded, is_commutative, opposite, power_below, power_of, value_behind, value_of, value_with_one};
ghost use Rattle.std.specs.Prelude.{◌≡◌, ◌<◌};

use crate::fact::{Fact, Known, Value, has_already, source, value_in};
use op_low::{Instruction, VirtualRegister};
use op_rv::{AluOp, BranchOp, ImmOp, ShiftOp};

/// The comparison that holds where another one does not.
#[tactic(auto, unfolding(crate::specs::Values::opposite))]
pub fn opposite(op: BranchOp) -> BranchOp
    ensures { result ≡ opposite op }
{
    match op {
        BranchOp::Beq => BranchOp::Bne,
        BranchOp::Bne => BranchOp::Beq,
        BranchOp::Blt => BranchOp::Bge,
        BranchOp::Bge => BranchOp::Blt,
        BranchOp::Bltu => BranchOp::Bgeu,
        BranchOp::Bgeu => BranchOp::Bltu,
    }
}

// ---- values

#[tactic(auto, unfolding(crate::specs::Values::alu_value))]
fn alu_value(
    facts: &[Fact],
    nothing: VirtualRegister,
    op: AluOp,
    left: VirtualRegister,
    right: VirtualRegister,
) -> Option<Value>
    ensures { result ≡ alu_value facts.now nothing op left right }
{
    let left = source(facts, nothing, left)?;
    let right = source(facts, nothing, right)?;
    match op {
        AluOp::Slt => Some(Value::Truth {
            op: BranchOp::Blt,
            left,
            right,
        }),
        AluOp::Sltu => Some(Value::Truth {
            op: BranchOp::Bltu,
            left,
            right,
        }),
        AluOp::Xor => Some(Value::Difference { left, right }),
        _ => None,
    }
}

/// The value of an operation with 1: what is equal to 0, and a truth that is changed.
#[tactic(auto, unfolding(crate::specs::Values::value_with_one))]
fn value_with_one(nothing: VirtualRegister, op: ImmOp, value: Value) -> Option<Value>
    ensures { result ≡ value_with_one nothing op value }
{
    match op {
        ImmOp::Sltiu => match value {
            Value::Copy { of } => Some(Value::Truth {
                op: BranchOp::Beq,
                left: of,
                right: nothing,
            }),
            Value::Difference { left, right } => Some(Value::Truth {
                op: BranchOp::Beq,
                left,
                right,
            }),
            Value::Truth { op, left, right } => Some(Value::Truth {
                op: opposite(op),
                left,
                right,
            }),
            Value::Number { .. } => None,
        },
        ImmOp::Xori => match value {
            Value::Truth { op, left, right } => Some(Value::Truth {
                op: opposite(op),
                left,
                right,
            }),
            _ => None,
        },
        _ => None,
    }
}

#[tactic(auto, unfolding(crate::specs::Values::value_of))]
fn value_of(facts: &[Fact], nothing: VirtualRegister, instruction: &Instruction) -> Option<Value>
    ensures { result ≡ value_of facts.now nothing instruction.now }
{
    match instruction {
        Instruction::Const { value, .. } => Some(Value::Number { value: *value }),
        Instruction::Move { from, .. } => Some(value_in(facts, *from)),
        Instruction::Alu {
            op,
            left,
            right,
            ..
        } => alu_value(facts, nothing, *op, *left, *right),
        Instruction::AluImm { op, left, imm, .. } => {
            if *imm == 1 {
                value_with_one(nothing, *op, value_in(facts, *left))
            } else {
                None
            }
        }
        _ => None,
    }
}

/// What a register would have behind an instruction that writes it, where that is a value.
#[tactic(auto, unfolding(crate::specs::Values::value_behind))]
pub fn value_behind(
    facts: &[Fact],
    known: &[Known],
    nothing: VirtualRegister,
    to: VirtualRegister,
    instruction: &Instruction,
) -> Option<Value>
    ensures { result ≡ value_behind facts.now known.now nothing to instruction.now }
{
    if has_already(known, to, instruction) {
        return Some(Value::Copy { of: to });
    }
    value_of(facts, nothing, instruction)
}

// ---- operations with a number

/// What an operation with a number on its right is in one instruction.
#[derive(Clone, Copy)]
pub enum NumberForm {
    Imm { op: ImmOp, imm: i32 },
    ByShift { op: ShiftOp, amount: u8 },
}

/// Numbers from here on are, as words, below 0 and of 12 bits.
const LEAST_NEAR: u32 = 0xffff_f800;

fn near(op: ImmOp, n: u32) -> Option<NumberForm>
    ensures { result ≡ near op n }
{
    if n < 2048 {
        return Some(NumberForm::Imm { op, imm: n as i32 });
    }
    if LEAST_NEAR <= n {
        let imm = n as i64 - (1 << 32);
        return Some(NumberForm::Imm {
            op,
            imm: imm as i32,
        });
    }
    None
}

fn opposite_near(n: u32) -> Option<NumberForm>
    ensures { result ≡ opposite_near n }
{
    near(ImmOp::Addi, n.wrapping_neg())
}

fn shifted(op: ShiftOp, n: u32) -> Option<NumberForm>
    ensures { result ≡ shifted op n }
{
    Some(NumberForm::ByShift {
        op,
        amount: (n % 32) as u8,
    })
}

/// Which power of two a number is, where it is 2 to 2 ^ 31; else 0.
#[tactic(auto, unfolding(crate::specs::Values::power_of))]
fn power_of(n: u32) -> u8
    ensures value { result ≡ power_of n }
    ensures small { result < 32 }
{
    let mut left: u8 = 32;
    while 0 < left {
        left -= 1;
        if n == 1 << left {
            return left;
        }
    }
    0
}

fn power_shift(n: u32) -> Option<NumberForm>
    ensures { result ≡ power_by (power_of n) }
{
    let amount = power_of(n);
    if amount == 0 {
        return None;
    }
    Some(NumberForm::ByShift {
        op: ShiftOp::Slli,
        amount,
    })
}

#[tactic(auto, unfolding(crate::specs::Values::folded))]
pub fn folded(op: AluOp, n: u32) -> Option<NumberForm>
    ensures { result ≡ folded op n }
{
    match op {
        AluOp::Add => near(ImmOp::Addi, n),
        AluOp::Sub => opposite_near(n),
        AluOp::And => near(ImmOp::Andi, n),
        AluOp::Or => near(ImmOp::Ori, n),
        AluOp::Xor => near(ImmOp::Xori, n),
        AluOp::Slt => near(ImmOp::Slti, n),
        AluOp::Sltu => near(ImmOp::Sltiu, n),
        AluOp::Sll => shifted(ShiftOp::Slli, n),
        AluOp::Srl => shifted(ShiftOp::Srli, n),
        AluOp::Sra => shifted(ShiftOp::Srai, n),
        AluOp::Mul => power_shift(n),
        _ => None,
    }
}

/// Whether the two operands may change places.
#[tactic(auto, unfolding(crate::specs::Values::is_commutative))]
pub fn is_commutative(op: AluOp) -> bool
    ensures { result ≡ is_commutative op }
{
    match op {
        AluOp::Add => true,
        AluOp::Mul => true,
        _ => false,
    }
}

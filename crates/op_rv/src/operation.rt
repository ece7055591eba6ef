//! What the operators compute on words (RISC-V Unprivileged ISA manual, "Integer Computational Instructions",
//! "Conditional Branches", "Load and Store Instructions" and "M Extension for Integer Multiplication and Division").
ghost use Rattle.std.specs.Prelude.{◌≡◌, ◌<◌};
ghost use Rattle.op_rv.specs.Operation.{alu_value, imm_value, shift_value, branch_taken, extended_byte, extended_half};

use crate::{AluOp, BranchOp, ImmOp, ShiftOp};

/// The result of an operation on two registers.
#[inline(always)]
pub fn alu(op: AluOp, a: u32, b: u32) -> u32
    ensures { result ≡ alu_value op a b }
{
    match op {
        AluOp::Add => a.wrapping_add(b),
        AluOp::Sub => a.wrapping_sub(b),
        AluOp::Sll => a.wrapping_shl(b),
        AluOp::Slt => (a.cast_signed() < b.cast_signed()) as u32,
        AluOp::Sltu => (a < b) as u32,
        AluOp::Xor => a ^ b,
        AluOp::Srl => a.wrapping_shr(b),
        AluOp::Sra => a.cast_signed().wrapping_shr(b).cast_unsigned(),
        AluOp::Or => a | b,
        AluOp::And => a & b,
        AluOp::Mul => a.wrapping_mul(b),
        AluOp::Mulh => multiply_high(a, b),
        AluOp::Mulhsu => multiply_high_mixed(a, b),
        AluOp::Mulhu => ((a as u64 * b as u64) >> 32) as u32,
        AluOp::Div => divide(a, b),
        AluOp::Divu => divide_unsigned(a, b),
        AluOp::Rem => remainder(a, b),
        AluOp::Remu => remainder_unsigned(a, b),
    }
}

/// The upper word of the product of two numbers with a sign.
#[inline(always)]
fn multiply_high(a: u32, b: u32) -> u32
    ensures { result ≡ alu_value AluOp.Mulh a b }
{
    let product = a.cast_signed() as i64 * b.cast_signed() as i64;
    (product.cast_unsigned() >> 32) as u32
}

/// The upper word of the product of a number with a sign and one without.
#[inline(always)]
fn multiply_high_mixed(a: u32, b: u32) -> u32
    ensures { result ≡ alu_value AluOp.Mulhsu a b }
{
    let product = a.cast_signed() as i64 * b as i64;
    (product.cast_unsigned() >> 32) as u32
}

#[inline(always)]
fn divide(a: u32, b: u32) -> u32
    ensures { result ≡ alu_value AluOp.Div a b }
{
    if b == 0 {
        u32::MAX
    } else {
        a.cast_signed()
            .wrapping_div(b.cast_signed())
            .cast_unsigned()
    }
}

#[inline(always)]
fn divide_unsigned(a: u32, b: u32) -> u32
    ensures { result ≡ alu_value AluOp.Divu a b }
{
    if b == 0 { u32::MAX } else { a / b }
}

#[inline(always)]
fn remainder(a: u32, b: u32) -> u32
    ensures { result ≡ alu_value AluOp.Rem a b }
{
    if b == 0 {
        a
    } else {
        a.cast_signed()
            .wrapping_rem(b.cast_signed())
            .cast_unsigned()
    }
}

#[inline(always)]
fn remainder_unsigned(a: u32, b: u32) -> u32
    ensures { result ≡ alu_value AluOp.Remu a b }
{
    if b == 0 { a } else { a % b }
}

/// The result of an operation on a register and an immediate, which is sign-extended to a word.
#[inline(always)]
pub fn imm_operation(op: ImmOp, a: u32, b: u32) -> u32
    ensures { result ≡ imm_value op a b }
{
    match op {
        ImmOp::Addi => a.wrapping_add(b),
        ImmOp::Slti => (a.cast_signed() < b.cast_signed()) as u32,
        ImmOp::Sltiu => (a < b) as u32,
        ImmOp::Xori => a ^ b,
        ImmOp::Ori => a | b,
        ImmOp::Andi => a & b,
    }
}

/// The result of a shift by 0 to 31 places.
#[inline(always)]
pub fn shift(op: ShiftOp, a: u32, amount: u8) -> u32
    requires { amount < 32 }
    ensures { result ≡ shift_value op a amount }
{
    match op {
        ShiftOp::Slli => a << amount,
        ShiftOp::Srli => a >> amount,
        ShiftOp::Srai => (a.cast_signed() >> amount).cast_unsigned(),
    }
}

/// Whether a branch that compares these two registers is taken.
#[inline(always)]
pub fn is_taken(op: BranchOp, a: u32, b: u32) -> bool
    ensures { result ≡ branch_taken op a b }
{
    match op {
        BranchOp::Beq => a == b,
        BranchOp::Bne => a != b,
        BranchOp::Blt => a.cast_signed() < b.cast_signed(),
        BranchOp::Bge => a.cast_signed() >= b.cast_signed(),
        BranchOp::Bltu => a < b,
        BranchOp::Bgeu => a >= b,
    }
}

/// A byte that was loaded, sign-extended to a word.
#[inline(always)]
pub fn extend_byte(byte: u8) -> u32
    ensures { result ≡ extended_byte byte }
{
    (byte.cast_signed() as i32).cast_unsigned()
}

/// Two bytes that were loaded, sign-extended to a word.
#[inline(always)]
pub fn extend_half(half: u16) -> u32
    ensures { result ≡ extended_half half }
{
    (half.cast_signed() as i32).cast_unsigned()
}

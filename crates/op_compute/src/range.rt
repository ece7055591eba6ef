//! Tests of ranges, and sums with numbers that are known (Free Pascal Programmer's Guide, "$R : Range checking").
ghost use Rattle.op_compute.specs.Ranges.{distance_code, distance_register, greatest, has_every_number, higher_end, is_immediate, least, lower_end, range_code, sum_with, within_code};
ghost use Rattle.std.specs.Prelude.{◌≡◌, ◌≤ℤ◌, ◌++◌, IfOk, OnOk};

use crate::Work;
use crate::instruction::{push, push_alu, push_branch, push_const, push_immediate};
use op_base::NoMemory;
use op_low::{Instruction, VirtualRegister};
use op_rv::{AluOp, BranchOp, ImmOp};

/// Whether an instruction takes the number as it stands.
#[tactic(auto, unfolding(crate::specs::Ranges::is_immediate))]
fn fits_immediate(n: i32) -> bool
    ensures { result ≡ is_immediate n }
{
    -2048 <= n && n <= 2047
}

/// A register becomes the sum of another one, which is not `via`, and a number.
#[tactic(auto, unfolding(crate::specs::Ranges::sum_with))]
pub fn push_sum_with(
    code: &mut Vec<Instruction>,
    via: VirtualRegister,
    to: VirtualRegister,
    from: VirtualRegister,
    n: i32,
) -> Result<(), NoMemory>
    ensures { OnOk result (code.new.items ≡ code.old.items ++ sum_with via to from n) }
{
    if fits_immediate(n) {
        return push_immediate(code, ImmOp::Addi, to, from, n);
    }
    push_const(code, via, n.cast_unsigned())?;
    push_alu(code, AluOp::Add, to, from, via)
}

/// How far a number is above another one, which is known; the answer is the register that has it.
#[tactic(auto, unfolding(crate::specs::Ranges::distance_code, crate::specs::Ranges::distance_register))]
pub fn push_distance(
    code: &mut Vec<Instruction>,
    via: VirtualRegister,
    from: VirtualRegister,
    low: i32,
) -> Result<VirtualRegister, NoMemory>
    ensures items { OnOk result (code.new.items ≡ code.old.items ++ distance_code via from low) }
    ensures register { IfOk result (λ register. register ≡ distance_register via from low) }
{
    if low == 0 {
        return Ok(from);
    }
    push_sum_with(code, via, via, from, low.wrapping_neg())?;
    Ok(via)
}

/// The numbers of 32 bits.
const LEAST: i64 = -(1 << 31);

const GREATEST: i64 = (1 << 31) - 1;

/// Where the numbers of 32 bits begin that are not below this one.
fn lower(low: i64) -> i64
    ensures value { result ≡ lower_end low }
    ensures bound { least ≤ℤ result }
{
    if low < LEAST { LEAST } else { low }
}

fn higher(high: i64) -> i64
    ensures value { result ≡ higher_end high }
    ensures bound { result ≤ℤ greatest }
{
    if GREATEST < high { GREATEST } else { high }
}

/// Whether each number of 32 bits is in a range.
#[tactic(auto, unfolding(crate::specs::Ranges::has_every_number))]
pub fn has_every(low: i32, high: i32) -> bool
    ensures { result ≡ has_every_number low high }
{
    low == i32::MIN && high == i32::MAX
}

/// Error 201 outside of a range that has a value.
#[tactic(auto, unfolding(crate::specs::Ranges::within_code))]
fn test_within(
    code: &mut Vec<Instruction>,
    work: Work,
    from: VirtualRegister,
    low: i32,
    high: i32,
) -> Result<(), NoMemory>
    ensures { OnOk result (code.new.items ≡ code.old.items ++ within_code work from low high) }
{
    if has_every(low, high) {
        return Ok(());
    }
    let distance = push_distance(code, work.first, from, low)?;
    push_const(code, work.second, high.abs_diff(low))?;
    push_branch(code, BranchOp::Bltu, work.second, distance, work.range)
}

/// Error 201 outside of a range, and for each number where it has no value of 32 bits.
#[tactic(auto, unfolding(crate::specs::Ranges::range_code))]
pub fn test_range(
    code: &mut Vec<Instruction>,
    work: Work,
    from: VirtualRegister,
    low: i64,
    high: i64,
) -> Result<(), NoMemory>
    ensures { OnOk result (code.new.items ≡ code.old.items ++ range_code work from low high) }
{
    let low = lower(low);
    let high = higher(high);
    if high < low {
        return push(code, Instruction::Jump { block: work.range });
    }
    test_within(code, work, from, low as i32, high as i32)
}

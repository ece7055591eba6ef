//! Whether the code behind an instruction does better without its value in a register.
ghost use Rattle.op_optimize.specs.Worth.{changes_truth, copy_serves, number_serves, serves, takes_number, tests_truth, truth_serves};
ghost use Rattle.std.specs.Prelude.{◌≡◌};

use crate::fact::Value;
use crate::liveness::{is_dead, is_live_beyond};
use crate::value::{folded, is_commutative};
use op_low::{Instruction, VirtualRegister, leaves, reads, same, writes};
use op_rv::{BranchOp, ImmOp};

/// How many instructions are looked at ahead.
const WINDOW: u32 = 64;

/// Whether a copy is read only while that of which it is one stays; `old` tells that this was written.
#[tactic(auto, unfolding(crate::specs::Worth::copy_serves))]
fn copy_serves(
    live: &[u64],
    most: u32,
    old: bool,
    to: VirtualRegister,
    from: VirtualRegister,
    code: &[Instruction],
) -> bool
    ensures { result ≡ copy_serves live.now most old to from code.now }
{
    if most == 0 {
        return false;
    }
    let Some((first, behind)) = code.split_first() else {
        return false;
    };
    if (old && reads(first, to)) || is_live_beyond(live, first, to) {
        return false;
    }
    if writes(first, to) || leaves(first) {
        return true;
    }
    let old = old || writes(first, from);
    copy_serves(live, most - 1, old, to, from, behind)
}

/// Whether an instruction has a form with a number in place of a register that it reads.
#[tactic(auto, unfolding(crate::specs::Worth::takes_number))]
fn takes_number(instruction: &Instruction, register: VirtualRegister, n: u32) -> bool
    ensures { result ≡ takes_number instruction.now register n }
{
    match instruction {
        Instruction::Move { .. } => true,
        Instruction::Alu {
            op,
            left,
            right,
            ..
        } => {
            let is_left = same(*left, register);
            let is_right = same(*right, register);
            !(is_left && is_right) && (is_right || is_commutative(*op)) && folded(*op, n).is_some()
        }
        _ => false,
    }
}

/// Whether the first instruction that reads a number takes it, and none behind it does.
#[tactic(auto, unfolding(crate::specs::Worth::number_serves))]
fn number_serves(live: &[u64], most: u32, to: VirtualRegister, n: u32, code: &[Instruction]) -> bool
    ensures { result ≡ number_serves live.now most to n code.now }
{
    if most == 0 {
        return false;
    }
    let Some((first, behind)) = code.split_first() else {
        return false;
    };
    if reads(first, to) {
        return takes_number(first, to, n)
            && (writes(first, to) || leaves(first) || is_dead(live, behind, to))
            && !is_live_beyond(live, first, to);
    }
    if is_live_beyond(live, first, to) {
        return false;
    }
    if writes(first, to) || leaves(first) {
        return true;
    }
    number_serves(live, most - 1, to, n, behind)
}

fn changes_truth(op: ImmOp) -> bool
    ensures { result ≡ changes_truth op }
{
    match op {
        ImmOp::Xori => true,
        ImmOp::Sltiu => true,
        _ => false,
    }
}

fn tests_truth(op: BranchOp) -> bool
    ensures { result ≡ tests_truth op }
{
    match op {
        BranchOp::Beq => true,
        BranchOp::Bne => true,
        _ => false,
    }
}

/// Whether a truth is only branched on: behind it stand changes of it, a zero and the branch, and nothing reads it then.
#[tactic(auto, unfolding(crate::specs::Worth::truth_serves))]
fn truth_serves(live: &[u64], most: u32, now: VirtualRegister, code: &[Instruction]) -> bool
    ensures { result ≡ truth_serves live.now most now code.now }
{
    if most == 0 {
        return false;
    }
    let Some((first, behind)) = code.split_first() else {
        return false;
    };
    match first {
        Instruction::AluImm { op, to, left, imm } => {
            changes_truth(*op)
                && *imm == 1
                && same(*left, now)
                && (same(*to, now) || is_dead(live, behind, now))
                && truth_serves(live, most - 1, *to, behind)
        }
        Instruction::Const { to, value } => {
            *value == 0 && !same(*to, now) && truth_serves(live, most - 1, now, behind)
        }
        Instruction::Branch { op, left, .. } => {
            same(*left, now)
                && tests_truth(*op)
                && !is_live_beyond(live, first, now)
                && is_dead(live, behind, now)
        }
        _ => false,
    }
}

/// Whether the code behind an instruction that would give a register this value does better without it; `nothing` has 0.
#[tactic(auto, unfolding(crate::specs::Worth::serves))]
pub fn serves(
    live: &[u64],
    nothing: VirtualRegister,
    to: VirtualRegister,
    value: Value,
    code: &[Instruction],
) -> bool
    ensures { result ≡ serves live.now nothing to value code.now }
{
    match value {
        Value::Copy { of } => same(of, to) || copy_serves(live, WINDOW, false, to, of, code),
        Value::Number { value } => {
            if value == 0 {
                copy_serves(live, WINDOW, false, to, nothing, code)
            } else {
                number_serves(live, WINDOW, to, value, code)
            }
        }
        Value::Difference { .. } => truth_serves(live, 8, to, code),
        Value::Truth { .. } => truth_serves(live, 8, to, code),
    }
}

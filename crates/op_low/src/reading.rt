//! What an instruction reads and writes, and where the code goes on behind it.
ghost use Rattle.op_low.specs.Reading.{either, is_argument as is_passed, other_block as goes_on_at, reads as is_read_by, same as are_same, target_of, writes as is_written_by};
ghost use Rattle.op_low.specs.Valid.{leaves as is_left_by};
ghost use Rattle.std.specs.Prelude.{◌≡◌};

use crate::{Call, Instruction, VirtualRegister};
use op_rv::BlockId;

/// Whether two are one register.
pub fn same(a: VirtualRegister, b: VirtualRegister) -> bool
    ensures { result ≡ are_same a b }
{
    a.0 == b.0
}

/// Whether one of two is the register.
pub fn is_either(a: VirtualRegister, b: VirtualRegister, register: VirtualRegister) -> bool
    ensures { result ≡ either a b register }
{
    same(a, register) || same(b, register)
}

#[tactic(auto, unfolding(crate::specs::Reading::is_argument))]
fn is_argument(call: &Call, register: VirtualRegister) -> bool
    ensures { result ≡ is_passed call.now register }
{
    call.arguments
        .as_slice()
        .iter()
        .any(|argument| same(*argument, register))
}

/// Whether an instruction reads a register.
#[tactic(auto, unfolding(crate::specs::Reading::reads))]
pub fn reads(instruction: &Instruction, register: VirtualRegister) -> bool
    ensures { result ≡ is_read_by instruction.now register }
{
    match instruction {
        Instruction::Const { .. } => false,
        Instruction::Address { .. } => false,
        Instruction::Local { .. } => false,
        Instruction::Move { from, .. } => same(*from, register),
        Instruction::Alu { left, right, .. } => is_either(*left, *right, register),
        Instruction::AluImm { left, .. } => same(*left, register),
        Instruction::Shift { left, .. } => same(*left, register),
        Instruction::Load { base, .. } => same(*base, register),
        Instruction::Store { value, base, .. } => is_either(*value, *base, register),
        Instruction::Call { call, .. } => is_argument(call, register),
        Instruction::CallAt { address, call } => {
            same(*address, register) || is_argument(call, register)
        }
        Instruction::Branch { left, right, .. } => is_either(*left, *right, register),
        Instruction::Jump { .. } => false,
        Instruction::Return { value } => same(*value, register),
        Instruction::Raise => false,
        Instruction::Read { buffer, length, .. } => is_either(*buffer, *length, register),
        Instruction::Write { buffer, length, .. } => is_either(*buffer, *length, register),
        Instruction::Exit { status } => same(*status, register),
    }
}

/// The register that an instruction writes.
#[tactic(auto, unfolding(crate::specs::Reading::target_of))]
pub fn target(instruction: &Instruction) -> Option<VirtualRegister>
    ensures { result ≡ target_of instruction.now }
{
    match instruction {
        Instruction::Const { to, .. } => Some(*to),
        Instruction::Address { to, .. } => Some(*to),
        Instruction::Local { to, .. } => Some(*to),
        Instruction::Move { to, .. } => Some(*to),
        Instruction::Alu { to, .. } => Some(*to),
        Instruction::AluImm { to, .. } => Some(*to),
        Instruction::Shift { to, .. } => Some(*to),
        Instruction::Load { to, .. } => Some(*to),
        Instruction::Call { call, .. } => Some(call.to),
        Instruction::CallAt { call, .. } => Some(call.to),
        Instruction::Read { to, .. } => Some(*to),
        _ => None,
    }
}

/// Whether an instruction writes a register.
pub fn writes(instruction: &Instruction, register: VirtualRegister) -> bool
    ensures { result ≡ is_written_by instruction.now register }
{
    match target(instruction) {
        None => false,
        Some(to) => same(to, register),
    }
}

/// The block of its routine at which the code may go on, beside the next instruction: that of a branch or a jump, or where a call goes on
/// that raises.
pub fn other_block(instruction: &Instruction) -> Option<BlockId>
    ensures { result ≡ goes_on_at instruction.now }
{
    match instruction {
        Instruction::Branch { block, .. } => Some(*block),
        Instruction::Jump { block } => Some(*block),
        Instruction::Call { call, .. } => call.landing,
        Instruction::CallAt { call, .. } => call.landing,
        _ => None,
    }
}

/// Whether the code never goes on at the next instruction.
#[tactic(auto, unfolding(crate::specs::Valid::leaves))]
pub fn leaves(instruction: &Instruction) -> bool
    ensures { result ≡ is_left_by instruction.now }
{
    match instruction {
        Instruction::Jump { .. } => true,
        Instruction::Return { .. } => true,
        Instruction::Raise => true,
        Instruction::Exit { .. } => true,
        _ => false,
    }
}

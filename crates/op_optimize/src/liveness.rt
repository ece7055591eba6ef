//! Whether what a register has may still be read.
ghost use Rattle.op_optimize.specs.Liveness.{is_dead as is_shown_dead, is_live as is_live_at_block, is_live_beyond as goes_on_live, is_live_in, is_lost as loses, is_read_or_live, needs as is_needed, shows_dead, window};
ghost use Rattle.std.specs.Prelude.{◌≡◌, take, slice_get};

use op_low::{Instruction, VirtualRegister, leaves, other_block, reads, writes};
use op_rv::BlockId;

/// How many instructions are looked at ahead.
const WINDOW: usize = 64;

/// How many registers are looked at; what the others have counts as read.
pub const WATCHED: u32 = 64;

/// Whether a register may be read where the block of a number begins, by a table with a bit for each register.
#[tactic(auto, unfolding(crate::specs::Liveness::is_live))]
pub fn is_live_at(live: &[u64], place: usize, register: VirtualRegister) -> bool
    ensures { result ≡ is_live_at_block live.now (record { 0 = place }) register }
{
    if WATCHED <= register.0 {
        return true;
    }
    match live.get(place) {
        None => true,
        Some(registers) => (*registers >> register.0) % 2 == 1,
    }
}

/// Whether a register may be read where a block begins.
pub fn is_live(live: &[u64], block: BlockId, register: VirtualRegister) -> bool
    ensures { result ≡ is_live_at_block live.now block register }
{
    is_live_at(live, block.0 as usize, register)
}

fn is_live_at_some(live: &[u64], block: Option<BlockId>, register: VirtualRegister) -> bool
    ensures { result ≡ is_live_in live.now block register }
{
    match block {
        None => false,
        Some(block) => is_live(live, block, register),
    }
}

/// Whether a register may be read at the block to which an instruction may go.
#[tactic(auto, unfolding(crate::specs::Liveness::is_live_beyond))]
pub fn is_live_beyond(live: &[u64], instruction: &Instruction, register: VirtualRegister) -> bool
    ensures { result ≡ goes_on_live live.now instruction.now register }
{
    is_live_at_some(live, other_block(instruction), register)
}

fn is_kept(live: &[u64], instruction: &Instruction, register: VirtualRegister) -> bool
    ensures { result ≡ is_read_or_live live.now instruction.now register }
{
    reads(instruction, register) || is_live_beyond(live, instruction, register)
}

fn is_lost(instruction: &Instruction, register: VirtualRegister) -> bool
    ensures { result ≡ loses instruction.now register }
{
    writes(instruction, register) || leaves(instruction)
}

/// Whether code may read what a register has where it begins.
#[tactic(auto, unfolding(crate::specs::Liveness::needs))]
pub fn needs(live: &[u64], code: &[Instruction], register: VirtualRegister) -> bool
    ensures { result ≡ is_needed live.now code.now register }
{
    for instruction in code {
        if is_kept(live, instruction, register) {
            return true;
        }
        if is_lost(instruction, register) {
            return false;
        }
    }
    false
}

/// Whether the next instructions show that nothing reads what a register has now.
#[tactic(auto, unfolding(crate::specs::Liveness::is_dead))]
pub fn is_dead(live: &[u64], code: &[Instruction], register: VirtualRegister) -> bool
    ensures { result ≡ is_shown_dead live.now code.now register }
{
    is_dead_in(live, next(code), register)
}

fn next(code: &[Instruction]) -> &[Instruction]
    ensures { result.now ≡ take window code.now }
{
    if code.len() <= WINDOW {
        return code;
    }
    &code[..WINDOW]
}

#[tactic(auto, unfolding(crate::specs::Liveness::shows_dead))]
fn is_dead_in(live: &[u64], code: &[Instruction], register: VirtualRegister) -> bool
    ensures { result ≡ shows_dead live.now code.now register }
{
    for instruction in code {
        if is_kept(live, instruction, register) {
            return false;
        }
        if is_lost(instruction, register) {
            return true;
        }
    }
    false
}

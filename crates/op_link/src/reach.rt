//! How far it is to what an item names.
ghost use Rattle.std.specs.Prelude.{◌≡◌, ◌≤◌};
ghost use Rattle.op_link.specs.Reach.{branch_reach, branch_size, jump_reach, jump_size, reach_of, reaches, size_of};

use crate::place::{RoutinePlace, block_in, head_in};
use op_rv::Item;

/// By which instructions an item goes to what it names.
#[derive(Clone, Copy)]
pub enum Reach {
    /// By one instruction that has the distance.
    Direct,
    /// By the opposite branch over a jump that has the distance.
    OverJump,
    /// By a register that has the address; a branch by the opposite branch over that.
    ByRegister,
}

/// How far a branch reaches, in bytes.
pub(crate) const BRANCH: u64 = 4096;

/// How far a jump reaches.
pub(crate) const JUMP: u64 = 1_048_576;

/// How far a jump reaches that stands behind a branch, from the branch.
const OVER_BRANCH: u64 = 1_048_572;

/// Whether it is no further than this from an address to another.
pub(crate) fn reaches(distance: u64, from: u32, to: u32) -> bool
    requires { distance ≤ 1048576 }
    ensures { result ≡ reaches distance from to }
{
    (to as u64) < from as u64 + distance && from as u64 <= to as u64 + distance
}

/// How a branch goes to an address, if that is known.
#[tactic(auto, unfolding(crate::specs::Reach::branch_reach))]
fn branch_reach(from: u32, to: Option<u32>) -> Reach
    ensures { result ≡ branch_reach from to }
{
    match to {
        None => Reach::ByRegister,
        Some(to) => {
            if reaches(BRANCH, from, to) {
                return Reach::Direct;
            }
            if reaches(OVER_BRANCH, from, to) {
                return Reach::OverJump;
            }
            Reach::ByRegister
        }
    }
}

/// How a jump or a call goes to an address, if that is known.
#[tactic(auto, unfolding(crate::specs::Reach::jump_reach))]
fn jump_reach(from: u32, to: Option<u32>) -> Reach
    ensures { result ≡ jump_reach from to }
{
    match to {
        None => Reach::ByRegister,
        Some(to) => {
            if reaches(JUMP, from, to) {
                return Reach::Direct;
            }
            Reach::ByRegister
        }
    }
}

/// How an item of the routine `r` that begins at an address goes to what it names, if these addresses are known.
#[tactic(auto, unfolding(crate::specs::Reach::reach_of))]
pub(crate) fn reach_of(known: &[RoutinePlace], r: usize, from: u32, item: &Item) -> Reach
    ensures { result ≡ reach_of known.now r from item.now }
{
    match item {
        Item::Branch {
            op: _,
            left: _,
            right: _,
            block,
        } => branch_reach(from, block_in(known, r, *block)),
        Item::Jump { block } => jump_reach(from, block_in(known, r, *block)),
        Item::Call {
            routine,
            landing: _,
        } => jump_reach(from, head_in(known, *routine)),
        Item::Plain(_) => Reach::Direct,
        Item::Address { rd: _, symbol: _ } => Reach::Direct,
        Item::CallAt { landing: _ } => Reach::Direct,
    }
}

fn branch_size(reach: Reach) -> u32
    ensures { result ≡ branch_size reach }
{
    match reach {
        Reach::Direct => 4,
        Reach::OverJump => 8,
        Reach::ByRegister => 12,
    }
}

fn jump_size(reach: Reach) -> u32
    ensures { result ≡ jump_size reach }
{
    match reach {
        Reach::Direct => 4,
        Reach::OverJump => 4,
        Reach::ByRegister => 8,
    }
}

/// How many bytes an item takes that goes so to what it names.
#[tactic(auto, unfolding(crate::specs::Reach::size_of))]
pub(crate) fn size_of(reach: Reach, item: &Item) -> u32
    ensures is { result ≡ size_of reach item.now }
    ensures some { 4 ≤ result }
    ensures few { result ≤ 12 }
{
    match item {
        Item::Plain(_) => 4,
        Item::Address { rd: _, symbol: _ } => 8,
        Item::Branch {
            op: _,
            left: _,
            right: _,
            block: _,
        } => branch_size(reach),
        Item::Jump { block: _ } => jump_size(reach),
        Item::Call {
            routine: _,
            landing: _,
        } => jump_size(reach),
        Item::CallAt { landing: _ } => 4,
    }
}

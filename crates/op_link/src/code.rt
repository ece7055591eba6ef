//! From items to words.
ghost use Rattle.std.specs.Prelude.{◌≡◌, ◌+◌, ◌*◌, ◌^◌, ◌<◌, ◌≤◌, ◌&&◌, pos, Some, None, [], ◌∷◌, IfOk, IfSome, IsTrue, length};
ghost use Rattle.op_rv.specs.Encoding.{fits, is_even, is_imm, is_register, is_signed};
ghost use Rattle.op_link.specs.Code.{branch_code, distance_within, go_by_register, high_of, jump_code, low_of, opposite_of, set_address};
ghost use Rattle.op_link.specs.Writes.{Writes};

use crate::reach::{BRANCH, JUMP, Reach, reaches};
use byteorder::{ByteOrder, LittleEndian};
use op_base::NoMemory;
use op_rv::{BranchOp, ImmOp, Instr, encode};
use std::alloc::AllocError;

/// Why code is not written.
#[derive(Clone, Copy)]
pub enum CodeError {
    /// An item does not reach what it names.
    OutOfReach,
    NoMemory,
}

impl From<AllocError> for CodeError {
    ghost use Rattle.op_link.specs.declared.code.CodeError.TheVariants.{NoMemory};

    ghost from_gives = { λ _ outcome. outcome ≡ NoMemory };

    fn from(_error: AllocError) -> CodeError {
        CodeError::NoMemory
    }
}

/// The register that reads as 0.
pub(crate) const ZERO: u8 = 0;

/// The register by which code goes to what is far, and that has the address to return to.
pub(crate) const RETURN: u8 = 1;

/// The upper part of a word that lui and addi set.
#[tactic(auto, unfolding(crate::specs::Code::high_of))]
pub(crate) fn high(n: u32) -> u32
    ensures value { result ≡ high_of n }
    ensures fits { result < 2 ^ 20 }
{
    n.wrapping_add(2048) / 4096
}

/// Its lower part.
#[tactic(auto, unfolding(crate::specs::Code::low_of))]
fn low(n: u32) -> i32
    ensures value { result ≡ low_of n }
    ensures fits { IsTrue (is_imm result) }
{
    let low = (n % 4096) as i32;
    if low < 2048 {
        return low;
    }
    low - 4096
}

/// The distance from an address to another, if an instruction that reaches so far can have it.
#[tactic(auto, unfolding(crate::specs::Code::distance_within))]
fn distance(reach: u64, from: u32, to: u32) -> Option<i32>
    requires { reach ≤ 1048576 }
    ensures value { result ≡ distance_within reach from to }
{
    if reaches(reach, from, to) && from % 2 == to % 2 {
        return Some((to as i64 - from as i64) as i32);
    }
    None
}

/// Appends an instruction.
pub(crate) fn push(code: &mut Vec<u8>, i: Instr) -> Result<(), CodeError>
    requires { IsTrue (fits i) }
    ensures { Writes result code.old.items code.new.items (Some (i ∷ [])) }
{
    let mut word = [0; 4];
    LittleEndian::write_u32(&mut word, encode(i));
    code.extend_from_slice(&word)?;
    Ok(())
}

/// Puts an address in a register.
pub(crate) fn push_address(code: &mut Vec<u8>, rd: u8, to: u32) -> Result<(), CodeError>
    requires { IsTrue (is_register rd) }
    ensures { Writes result code.old.items code.new.items (Some (set_address rd to)) }
{
    push(
        code,
        Instr::Lui {
            rd,
            upper: high(to),
        },
    )?;
    push(
        code,
        Instr::Imm {
            op: ImmOp::Addi,
            rd,
            rs1: rd,
            imm: low(to),
        },
    )
}

/// Goes to an address by a register, with the address behind in the register `link`.
pub(crate) fn push_far_jump(code: &mut Vec<u8>, link: u8, to: u32) -> Result<(), CodeError>
    requires { IsTrue (is_register link) }
    ensures { Writes result code.old.items code.new.items (Some (go_by_register link to)) }
{
    push(
        code,
        Instr::Lui {
            rd: RETURN,
            upper: high(to),
        },
    )?;
    push(
        code,
        Instr::Jalr {
            rd: link,
            rs1: RETURN,
            offset: low(to),
        },
    )
}

/// The distance of a jump, if it reaches.
#[tactic(auto, using(crate::proofs::Distances::jump_fits))]
fn jump_distance(from: u32, to: u32) -> Option<i32>
    ensures value { result ≡ distance_within 1048576 from to }
    ensures fits { IfSome result (λ distance. IsTrue (is_signed 20 distance && is_even distance)) }
{
    distance(JUMP, from, to)
}

/// The distance of a branch, if it reaches.
#[tactic(auto, using(crate::proofs::Distances::branch_fits))]
fn branch_distance(from: u32, to: u32) -> Option<i32>
    ensures value { result ≡ distance_within 4096 from to }
    ensures fits { IfSome result (λ distance. IsTrue (is_signed 12 distance && is_even distance)) }
{
    distance(BRANCH, from, to)
}

/// A jump that has the distance.
#[tactic(auto, unfolding(crate::specs::Code::jump_code))]
fn push_near_jump(code: &mut Vec<u8>, link: u8, from: u32, to: u32) -> Result<(), CodeError>
    requires { IsTrue (is_register link) }
    ensures { Writes result code.old.items code.new.items (jump_code Reach.Direct link from to) }
{
    match jump_distance(from, to) {
        None => Err(CodeError::OutOfReach),
        Some(offset) => push(code, Instr::Jal { rd: link, offset }),
    }
}

/// Goes to an address, with the address behind in the register `link`.
#[tactic(auto, unfolding(crate::specs::Code::jump_code))]
pub(crate) fn push_jump(
    code: &mut Vec<u8>,
    reach: Reach,
    link: u8,
    from: u32,
    to: u32,
) -> Result<(), CodeError>
    requires { IsTrue (is_register link) }
    ensures { Writes result code.old.items code.new.items (jump_code reach link from to) }
{
    match reach {
        Reach::Direct => push_near_jump(code, link, from, to),
        Reach::OverJump => push_near_jump(code, link, from, to),
        Reach::ByRegister => push_far_jump(code, link, to),
    }
}

#[tactic(auto, unfolding(crate::specs::Code::opposite_of))]
fn opposite(op: BranchOp) -> BranchOp
    ensures { result ≡ opposite_of op }
{
    match op {
        BranchOp::Beq => BranchOp::Bne,
        BranchOp::Bne => BranchOp::Beq,
        BranchOp::Blt => BranchOp::Bge,
        BranchOp::Bge => BranchOp::Blt,
        BranchOp::Bltu => BranchOp::Bgeu,
        BranchOp::Bgeu => BranchOp::Bltu,
    }
}

/// A branch that has the distance.
#[tactic(auto, unfolding(crate::specs::Code::branch_code))]
fn push_near_branch(
    code: &mut Vec<u8>,
    op: BranchOp,
    left: u8,
    right: u8,
    from: u32,
    to: u32,
) -> Result<(), CodeError>
    requires registers { IsTrue (is_register left && is_register right) }
    ensures { Writes result code.old.items code.new.items (branch_code Reach.Direct op left right from to) }
{
    match branch_distance(from, to) {
        None => Err(CodeError::OutOfReach),
        Some(offset) => push(
            code,
            Instr::Branch {
                op,
                rs1: left,
                rs2: right,
                offset,
            },
        ),
    }
}

/// Goes to an address where a comparison holds.
#[tactic(auto, unfolding(crate::specs::Code::branch_code))]
pub(crate) fn push_branch(
    code: &mut Vec<u8>,
    reach: Reach,
    op: BranchOp,
    left: u8,
    right: u8,
    from: u32,
    to: u32,
) -> Result<(), CodeError>
    requires registers { IsTrue (is_register left && is_register right) }
    requires room { from + 4 < 2 ^ 32 }
    ensures { Writes result code.old.items code.new.items (branch_code reach op left right from to) }
{
    match reach {
        Reach::Direct => push_near_branch(code, op, left, right, from, to),
        Reach::OverJump => {
            push(
                code,
                Instr::Branch {
                    op: opposite(op),
                    rs1: left,
                    rs2: right,
                    offset: 8,
                },
            )?;
            push_jump(code, Reach::Direct, ZERO, from + 4, to)
        }
        Reach::ByRegister => {
            push(
                code,
                Instr::Branch {
                    op: opposite(op),
                    rs1: left,
                    rs2: right,
                    offset: 12,
                },
            )?;
            push_jump(code, Reach::ByRegister, ZERO, from + 4, to)
        }
    }
}

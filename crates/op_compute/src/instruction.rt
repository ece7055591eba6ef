//! Single instructions of low code. Each function appends one; after an error the code is of no use.
ghost use Rattle.op_compute.specs.Moves.{move_code};
ghost use Rattle.std.specs.Prelude.{◌≡◌, ◌∷◌, ◌++◌, [], OnOk};

use op_base::NoMemory;
use op_low::{Instruction, VirtualRegister};
use op_rv::{AluOp, BlockId, BranchOp, ImmOp, ShiftOp};

pub fn push(code: &mut Vec<Instruction>, instruction: Instruction) -> Result<(), NoMemory>
    ensures { OnOk result (code.new.items ≡ code.old.items ++ instruction ∷ []) }
{
    code.push(instruction)?;
    Ok(())
}

pub fn push_const(
    code: &mut Vec<Instruction>,
    to: VirtualRegister,
    value: u32,
) -> Result<(), NoMemory>
    ensures { OnOk result (code.new.items ≡ code.old.items ++ Instruction.Const to value ∷ []) }
{
    push(code, Instruction::Const { to, value })
}

pub fn push_alu(
    code: &mut Vec<Instruction>,
    op: AluOp,
    to: VirtualRegister,
    left: VirtualRegister,
    right: VirtualRegister,
) -> Result<(), NoMemory>
    ensures { OnOk result (code.new.items ≡ code.old.items ++ Instruction.Alu op to left right ∷ []) }
{
    push(
        code,
        Instruction::Alu {
            op,
            to,
            left,
            right,
        },
    )
}

pub fn push_immediate(
    code: &mut Vec<Instruction>,
    op: ImmOp,
    to: VirtualRegister,
    left: VirtualRegister,
    imm: i32,
) -> Result<(), NoMemory>
    ensures { OnOk result (code.new.items ≡ code.old.items ++ Instruction.AluImm op to left imm ∷ []) }
{
    push(code, Instruction::AluImm { op, to, left, imm })
}

pub fn push_shift(
    code: &mut Vec<Instruction>,
    op: ShiftOp,
    to: VirtualRegister,
    left: VirtualRegister,
    amount: u8,
) -> Result<(), NoMemory>
    ensures { OnOk result (code.new.items ≡ code.old.items ++ Instruction.Shift op to left amount ∷ []) }
{
    push(
        code,
        Instruction::Shift {
            op,
            to,
            left,
            amount,
        },
    )
}

pub fn push_branch(
    code: &mut Vec<Instruction>,
    op: BranchOp,
    left: VirtualRegister,
    right: VirtualRegister,
    block: BlockId,
) -> Result<(), NoMemory>
    ensures { OnOk result (code.new.items ≡ code.old.items ++ Instruction.Branch op left right block ∷ []) }
{
    push(
        code,
        Instruction::Branch {
            op,
            left,
            right,
            block,
        },
    )
}

/// A register becomes what another one is. One that is the same has it already.
#[tactic(auto, unfolding(crate::specs::Moves::move_code))]
pub fn push_move(
    code: &mut Vec<Instruction>,
    to: VirtualRegister,
    from: VirtualRegister,
) -> Result<(), NoMemory>
    ensures { OnOk result (code.new.items ≡ code.old.items ++ move_code to from) }
{
    if to.0 == from.0 {
        return Ok(());
    }
    push(code, Instruction::Move { to, from })
}

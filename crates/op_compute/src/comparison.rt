//! Comparisons, which come to 1 or 0 (Free Pascal Reference Guide, "Relational operators").
ghost use Rattle.op_compute.specs.Comparisons.{compare_code, equal_code};
ghost use Rattle.std.specs.Prelude.{◌≡◌, ◌∷◌, ◌++◌, [], OnOk, pos};

use crate::Operands;
use crate::instruction::{push_alu, push_const, push_immediate};
use op_base::NoMemory;
use op_low::{Instruction, VirtualRegister};
use op_rv::{AluOp, ImmOp};
use op_tree::Operator;

#[tactic(auto, unfolding(crate::specs::Comparisons::compare_code))]
pub fn compare(
    code: &mut Vec<Instruction>,
    operands: Operands,
    operator: Operator,
) -> Result<(), NoMemory>
    ensures { OnOk result (code.new.items ≡ code.old.items ++ compare_code operands operator) }
{
    let Operands { to, left, right } = operands;
    match operator {
        Operator::Equal => equal(code, to, left, right),
        Operator::NotEqual => not_equal(code, to, left, right),
        Operator::Less => push_alu(code, AluOp::Slt, to, left, right),
        Operator::Greater => push_alu(code, AluOp::Slt, to, right, left),
        Operator::LessEqual => not_less(code, to, right, left),
        Operator::GreaterEqual => not_less(code, to, left, right),
        _ => push_const(code, to, 0),
    }
}

#[tactic(auto, unfolding(crate::specs::Comparisons::equal_code))]
fn equal(
    code: &mut Vec<Instruction>,
    to: VirtualRegister,
    left: VirtualRegister,
    right: VirtualRegister,
) -> Result<(), NoMemory>
    ensures { OnOk result (code.new.items ≡ code.old.items ++ equal_code to left right) }
{
    push_alu(code, AluOp::Xor, to, left, right)?;
    push_immediate(code, ImmOp::Sltiu, to, to, 1)
}

fn not_equal(
    code: &mut Vec<Instruction>,
    to: VirtualRegister,
    left: VirtualRegister,
    right: VirtualRegister,
) -> Result<(), NoMemory>
    ensures { OnOk result (code.new.items ≡ code.old.items ++ equal_code to left right ++ Instruction.AluImm ImmOp.Xori to to (pos 1) ∷ []) }
{
    equal(code, to, left, right)?;
    push_immediate(code, ImmOp::Xori, to, to, 1)
}

fn not_less(
    code: &mut Vec<Instruction>,
    to: VirtualRegister,
    left: VirtualRegister,
    right: VirtualRegister,
) -> Result<(), NoMemory>
    ensures { OnOk result (code.new.items ≡ code.old.items ++ Instruction.Alu AluOp.Slt to left right ∷ Instruction.AluImm ImmOp.Xori to to (pos 1) ∷ []) }
{
    push_alu(code, AluOp::Slt, to, left, right)?;
    push_immediate(code, ImmOp::Xori, to, to, 1)
}

//! Lists of operands.
ghost use Rattle.std.specs.Prelude.{◌≡◌, ◌∷◌, [], IfOk, map};
ghost use Rattle.op_values.specs.View.{view_operand};

use crate::action::Operand;
use op_base::{NoMemory, Sequence};
use std::alloc::Global;

pub fn one(alloc: Global, a: Operand) -> Result<Sequence<Operand>, NoMemory>
    ensures { IfOk result (λ os. map view_operand os ≡ view_operand a ∷ []) }
{
    let mut operands = Vec::new(alloc);
    operands.push(a)?;
    Ok(Sequence::from(operands))
}

pub fn two(alloc: Global, a: Operand, b: Operand) -> Result<Sequence<Operand>, NoMemory>
    ensures { IfOk result (λ os. map view_operand os ≡ view_operand a ∷ view_operand b ∷ []) }
{
    let mut operands = Vec::new(alloc);
    operands.push(a)?;
    operands.push(b)?;
    Ok(Sequence::from(operands))
}

pub fn three(
    alloc: Global,
    a: Operand,
    b: Operand,
    c: Operand,
) -> Result<Sequence<Operand>, NoMemory>
    ensures { IfOk result (λ os. map view_operand os ≡ view_operand a ∷ view_operand b ∷ view_operand c ∷ []) }
{
    let mut operands = Vec::new(alloc);
    operands.push(a)?;
    operands.push(b)?;
    operands.push(c)?;
    Ok(Sequence::from(operands))
}

//! Instructions over the registers of the better code.
ghost use Rattle.op_optimize.specs.Rewriting.{alu_both, branch, branch_both, branch_on, first_of, fold_both, folded_into, is_zero, map_call, map_one, map_two, moved, operands_of, operation, rewritten, sources, tested, truth_into, with_left, with_value};
ghost use Rattle.std.specs.Prelude.{◌≡◌, IfOk};

use crate::fact::{Fact, Value, source, value_in};
use crate::value::{NumberForm, folded, is_commutative, opposite};
use op_base::{NoMemory, Sequence};
use op_low::{Call, Instruction, VirtualRegister};
use op_rv::{AluOp, BlockId, BranchOp};
use std::alloc::Global;

// ---- operations

fn folded_into(folded: NumberForm, to: VirtualRegister, left: VirtualRegister) -> Instruction
    ensures { result ≡ folded_into folded to left }
{
    match folded {
        NumberForm::Imm { op, imm } => Instruction::AluImm { op, to, left, imm },
        NumberForm::ByShift { op, amount } => Instruction::Shift {
            op,
            to,
            left,
            amount,
        },
    }
}

/// An operation with a value on its right, where that is a number.
#[tactic(auto, unfolding(crate::specs::Rewriting::with_value))]
fn with_value(
    op: AluOp,
    to: VirtualRegister,
    left: Option<VirtualRegister>,
    value: Value,
) -> Option<Instruction>
    ensures { result ≡ with_value op to left value }
{
    match value {
        Value::Number { value } => {
            let folded = folded(op, value)?;
            let left = left?;
            Some(folded_into(folded, to, left))
        }
        _ => None,
    }
}

fn with_left(
    facts: &[Fact],
    nothing: VirtualRegister,
    op: AluOp,
    to: VirtualRegister,
    left: VirtualRegister,
    right: VirtualRegister,
) -> Option<Instruction>
    ensures { result ≡ with_left facts.now nothing op to left right }
{
    if is_commutative(op) {
        with_value(op, to, source(facts, nothing, right), value_in(facts, left))
    } else {
        None
    }
}

fn with_registers(
    op: AluOp,
    to: VirtualRegister,
    left: Option<VirtualRegister>,
    right: Option<VirtualRegister>,
) -> Option<Instruction>
    ensures { result ≡ alu_both op to left right }
{
    let left = left?;
    let right = right?;
    Some(Instruction::Alu {
        op,
        to,
        left,
        right,
    })
}

#[tactic(auto, unfolding(crate::specs::Rewriting::operation))]
fn operation(
    facts: &[Fact],
    nothing: VirtualRegister,
    op: AluOp,
    to: VirtualRegister,
    left: VirtualRegister,
    right: VirtualRegister,
) -> Option<Instruction>
    ensures { result ≡ operation facts.now nothing op to left right }
{
    let from_left = source(facts, nothing, left);
    if let Some(made) = with_value(op, to, from_left, value_in(facts, right)) {
        return Some(made);
    }
    if let Some(made) = with_left(facts, nothing, op, to, left, right) {
        return Some(made);
    }
    with_registers(op, to, from_left, source(facts, nothing, right))
}

fn truth_into(
    op: BranchOp,
    to: VirtualRegister,
    left: VirtualRegister,
    right: VirtualRegister,
) -> Option<Instruction>
    ensures { result ≡ truth_into op to left right }
{
    match op {
        BranchOp::Blt => Some(Instruction::Alu {
            op: AluOp::Slt,
            to,
            left,
            right,
        }),
        BranchOp::Bltu => Some(Instruction::Alu {
            op: AluOp::Sltu,
            to,
            left,
            right,
        }),
        _ => None,
    }
}

/// A register becomes a value.
#[tactic(auto, unfolding(crate::specs::Rewriting::moved))]
fn moved(to: VirtualRegister, value: Value) -> Option<Instruction>
    ensures { result ≡ moved to value }
{
    match value {
        Value::Copy { of } => Some(Instruction::Move { to, from: of }),
        Value::Number { value } => Some(Instruction::Const { to, value }),
        Value::Difference { left, right } => Some(Instruction::Alu {
            op: AluOp::Xor,
            to,
            left,
            right,
        }),
        Value::Truth { op, left, right } => truth_into(op, to, left, right),
    }
}

// ---- branches

fn is_zero(value: Value) -> bool
    ensures { result ≡ is_zero value }
{
    match value {
        Value::Number { value } => value == 0,
        _ => false,
    }
}

fn tested(op: BranchOp, truth: BranchOp) -> Option<BranchOp>
    ensures { result ≡ tested op truth }
{
    match op {
        BranchOp::Bne => Some(truth),
        BranchOp::Beq => Some(opposite(truth)),
        _ => None,
    }
}

fn branch_on(
    op: Option<BranchOp>,
    left: VirtualRegister,
    right: VirtualRegister,
    block: BlockId,
) -> Option<Instruction>
    ensures { result ≡ branch_on op left right block }
{
    let op = op?;
    Some(Instruction::Branch {
        op,
        left,
        right,
        block,
    })
}

fn branch_both(
    op: BranchOp,
    left: Option<VirtualRegister>,
    right: Option<VirtualRegister>,
    block: BlockId,
) -> Option<Instruction>
    ensures { result ≡ branch_both op left right block }
{
    let left = left?;
    let right = right?;
    Some(Instruction::Branch {
        op,
        left,
        right,
        block,
    })
}

#[tactic(auto, unfolding(crate::specs::Rewriting::branch))]
fn branch(
    facts: &[Fact],
    nothing: VirtualRegister,
    op: BranchOp,
    left: VirtualRegister,
    right: VirtualRegister,
    block: BlockId,
) -> Option<Instruction>
    ensures { result ≡ branch facts.now nothing op left right block }
{
    match value_in(facts, left) {
        Value::Truth {
            op: truth,
            left: a,
            right: b,
        } => {
            if is_zero(value_in(facts, right)) {
                branch_on(tested(op, truth), a, b, block)
            } else {
                None
            }
        }
        _ => branch_both(
            op,
            source(facts, nothing, left),
            source(facts, nothing, right),
            block,
        ),
    }
}

// ---- calls

#[tactic(auto, unfolding(crate::specs::Rewriting::sources))]
fn sources(
    alloc: Global,
    facts: &[Fact],
    nothing: VirtualRegister,
    registers: &[VirtualRegister],
) -> Result<Option<Sequence<VirtualRegister>>, NoMemory>
    ensures { IfOk result (λ made. made ≡ sources facts.now nothing registers.now) }
{
    let mut made = Vec::new(alloc);
    for register in registers {
        match source(facts, nothing, *register) {
            None => return Ok(None),
            Some(from) => made.push(from)?,
        }
    }
    Ok(Some(Sequence::from(made)))
}

#[tactic(auto, unfolding(crate::specs::Rewriting::operands_of))]
fn operands(
    alloc: Global,
    facts: &[Fact],
    nothing: VirtualRegister,
    call: &Call,
    to: VirtualRegister,
) -> Result<Option<Call>, NoMemory>
    ensures { IfOk result (λ made. made ≡ operands_of facts.now nothing call.now to) }
{
    match sources(alloc, facts, nothing, call.arguments.as_slice())? {
        None => Ok(None),
        Some(arguments) => Ok(Some(Call {
            arguments,
            to,
            landing: call.landing,
        })),
    }
}

/// The instruction of the better code, which writes the register `to` where it writes one.
#[tactic(auto, unfolding(crate::specs::Rewriting::rewritten))]
pub fn rewritten(
    alloc: Global,
    facts: &[Fact],
    nothing: VirtualRegister,
    to: VirtualRegister,
    instruction: &Instruction,
) -> Result<Option<Instruction>, NoMemory>
    ensures { IfOk result (λ made. made ≡ rewritten facts.now nothing to instruction.now) }
{
    match instruction {
        Instruction::Const { value, .. } => Ok(Some(Instruction::Const { to, value: *value })),
        Instruction::Address { symbol, .. } => Ok(Some(Instruction::Address {
            to,
            symbol: *symbol,
        })),
        Instruction::Local { offset, .. } => Ok(Some(Instruction::Local {
            to,
            offset: *offset,
        })),
        Instruction::Move { from, .. } => Ok(moved(to, value_in(facts, *from))),
        Instruction::Alu {
            op,
            left,
            right,
            ..
        } => Ok(operation(facts, nothing, *op, to, *left, *right)),
        Instruction::AluImm { op, left, imm, .. } => match source(facts, nothing, *left) {
            None => Ok(None),
            Some(left) => Ok(Some(Instruction::AluImm {
                op: *op,
                to,
                left,
                imm: *imm,
            })),
        },
        Instruction::Shift {
            op,
            left,
            amount,
            ..
        } => match source(facts, nothing, *left) {
            None => Ok(None),
            Some(left) => Ok(Some(Instruction::Shift {
                op: *op,
                to,
                left,
                amount: *amount,
            })),
        },
        Instruction::Load {
            op,
            base,
            offset,
            ..
        } => match source(facts, nothing, *base) {
            None => Ok(None),
            Some(base) => Ok(Some(Instruction::Load {
                op: *op,
                to,
                base,
                offset: *offset,
            })),
        },
        Instruction::Store {
            op,
            value,
            base,
            offset,
        } => match source(facts, nothing, *value) {
            None => Ok(None),
            Some(value) => match source(facts, nothing, *base) {
                None => Ok(None),
                Some(base) => Ok(Some(Instruction::Store {
                    op: *op,
                    value,
                    base,
                    offset: *offset,
                })),
            },
        },
        Instruction::Call { routine, call } => {
            match operands(alloc, facts, nothing, call, to)? {
                None => Ok(None),
                Some(call) => Ok(Some(Instruction::Call {
                    routine: *routine,
                    call,
                })),
            }
        }
        Instruction::CallAt { address, call } => match source(facts, nothing, *address) {
            None => Ok(None),
            Some(address) => match operands(alloc, facts, nothing, call, to)? {
                None => Ok(None),
                Some(call) => Ok(Some(Instruction::CallAt { address, call })),
            },
        },
        Instruction::Branch {
            op,
            left,
            right,
            block,
        } => Ok(branch(facts, nothing, *op, *left, *right, *block)),
        Instruction::Jump { block } => Ok(Some(Instruction::Jump { block: *block })),
        Instruction::Return { value } => match source(facts, nothing, *value) {
            None => Ok(None),
            Some(value) => Ok(Some(Instruction::Return { value })),
        },
        Instruction::Raise => Ok(Some(Instruction::Raise)),
        Instruction::Read { buffer, length, .. } => match source(facts, nothing, *buffer) {
            None => Ok(None),
            Some(buffer) => match source(facts, nothing, *length) {
                None => Ok(None),
                Some(length) => Ok(Some(Instruction::Read { to, buffer, length })),
            },
        },
        Instruction::Write {
            output,
            buffer,
            length,
        } => match source(facts, nothing, *buffer) {
            None => Ok(None),
            Some(buffer) => match source(facts, nothing, *length) {
                None => Ok(None),
                Some(length) => Ok(Some(Instruction::Write {
                    output: *output,
                    buffer,
                    length,
                })),
            },
        },
        Instruction::Exit { status } => match source(facts, nothing, *status) {
            None => Ok(None),
            Some(status) => Ok(Some(Instruction::Exit { status })),
        },
    }
}

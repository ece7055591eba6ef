//! How many registers low code names.
ghost use Rattle.op_expand.specs.Registers.{greatest, greatest_in, greatest_in_call, registers_in, with_block};
ghost use Rattle.std.specs.Prelude.{◌≡◌, IfOk};

use op_base::NoMemory;
use op_low::{Block, Call, Instruction, VirtualRegister};
use op_places::sum;

fn greatest(a: VirtualRegister, b: VirtualRegister, c: VirtualRegister) -> u32
    ensures { result ≡ greatest a b c }
{
    a.0.max(b.0.max(c.0))
}

fn greatest_in_call(address: VirtualRegister, call: &Call) -> u32
    ensures { result ≡ greatest_in_call address call.now }
{
    let mut most = address.0.max(call.to.0);
    for argument in call.arguments.as_slice() {
        most = most.max(argument.0);
    }
    most
}

/// The greatest of the registers that an instruction names; 0 where it names none.
fn greatest_in(instruction: &Instruction) -> u32
    ensures { result ≡ greatest_in instruction.now }
{
    match instruction {
        Instruction::Const { to, .. } => greatest(*to, *to, *to),
        Instruction::Address { to, .. } => greatest(*to, *to, *to),
        Instruction::Local { to, .. } => greatest(*to, *to, *to),
        Instruction::Move { to, from } => greatest(*to, *from, *from),
        Instruction::Alu {
            to,
            left,
            right,
            ..
        } => greatest(*to, *left, *right),
        Instruction::AluImm { to, left, .. } => greatest(*to, *left, *left),
        Instruction::Shift { to, left, .. } => greatest(*to, *left, *left),
        Instruction::Load { to, base, .. } => greatest(*to, *base, *base),
        Instruction::Store { value, base, .. } => greatest(*value, *base, *base),
        Instruction::Call { call, .. } => greatest_in_call(call.to, call),
        Instruction::CallAt { address, call } => greatest_in_call(*address, call),
        Instruction::Branch { left, right, .. } => greatest(*left, *right, *right),
        Instruction::Jump { .. } => 0,
        Instruction::Return { value } => greatest(*value, *value, *value),
        Instruction::Raise => 0,
        Instruction::Read { to, buffer, length } => greatest(*to, *buffer, *length),
        Instruction::Write { buffer, length, .. } => greatest(*buffer, *length, *length),
        Instruction::Exit { status } => greatest(*status, *status, *status),
    }
}

fn greatest_in_block(first: u32, block: &Block) -> u32
    ensures { result ≡ with_block first block.now }
{
    let mut most = first;
    for instruction in block.code.as_slice() {
        most = most.max(greatest_in(instruction));
    }
    most
}

/// One more than the greatest register that the code names, and no fewer than the parameters.
pub fn registers_in(parameters: u32, blocks: &[Block]) -> Result<u32, NoMemory>
    ensures { IfOk result (λ n. n ≡ registers_in parameters blocks.now) }
{
    let mut most = 0u32;
    for block in blocks {
        most = greatest_in_block(most, block);
    }
    Ok(parameters.max(sum(most, 1)?))
}

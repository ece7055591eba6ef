//! Whether low code names only what exists, and has its operands in range.
ghost use Rattle.op_low.specs.Valid.{address_fits, branch_fits, call_at_fits, call_fits, const_fits, has, has_all, has_block, has_landing, has_symbol, has_three, has_two, imm_fits, is_sized, is_valid, is_valid_block, is_valid_instruction, is_valid_routine, leaves_if, local_fits, operands_fit, shift_fits, takes};
ghost use Rattle.op_rv.specs.Encoding.{is_imm};
ghost use Rattle.std.specs.Prelude.{◌≡◌, ◌-◌, length, slice_get};
ghost use Rattle.std.specs.List.{list_all};

use crate::reading::leaves;
use crate::{Block, Call, Instruction, Low, Routine, VirtualRegister};
use op_rv::{BlockId, RoutineId, Symbol};

/// Whether the code may be compiled further: every routine, block, register and symbol that it names exists, calls have
/// the arguments that the routine takes, numbers are in range, each block is left by its last instruction, and the entry
/// routine exists and takes nothing.
#[tactic(auto, unfolding(crate::specs::Valid::is_valid))]
pub fn valid(low: &Low) -> bool
    ensures { result ≡ is_valid low.now }
{
    takes_arguments(low, low.entry, 0) && all_routines(low, low.routines.as_slice())
}

fn all_routines(low: &Low, routines: &[Routine]) -> bool
    ensures { result ≡ list_all (is_valid_routine low.now) routines.now }
{
    routines.iter().all(|routine| valid_routine(low, routine))
}

#[tactic(auto, unfolding(crate::specs::Valid::is_valid_routine))]
fn valid_routine(low: &Low, routine: &Routine) -> bool
    ensures { result ≡ is_valid_routine low.now routine.now }
{
    has_sizes(routine) && all_blocks(low, routine, routine.blocks.as_slice())
}

fn all_blocks(low: &Low, routine: &Routine, blocks: &[Block]) -> bool
    ensures { result ≡ list_all (is_valid_block low.now routine.now) blocks.now }
{
    blocks.iter().all(|block| valid_block(low, routine, block))
}

#[tactic(auto, unfolding(crate::specs::Valid::is_sized))]
fn has_sizes(routine: &Routine) -> bool
    ensures { result ≡ is_sized routine.now }
{
    routine.parameters <= routine.registers
        && routine.registers <= 1 << 24
        && routine.locals <= 1 << 26
        && routine.locals % 4 == 0
        && 0 < routine.blocks.as_slice().len()
}

#[tactic(auto, unfolding(crate::specs::Valid::is_valid_block))]
fn valid_block(low: &Low, routine: &Routine, block: &Block) -> bool
    ensures { result ≡ is_valid_block low.now routine.now block.now }
{
    let code = block.code.as_slice();
    is_left(code) && all_instructions(low, routine, code)
}

fn all_instructions(low: &Low, routine: &Routine, code: &[Instruction]) -> bool
    ensures { result ≡ list_all (is_valid_instruction low.now routine.now) code.now }
{
    code.iter()
        .all(|instruction| valid_instruction(low, routine, instruction))
}

fn is_left(code: &[Instruction]) -> bool
    ensures { result ≡ leaves_if (slice_get code.now (length code.now - 1)) }
{
    match code.last() {
        None => false,
        Some(last) => leaves(last),
    }
}

#[tactic(auto, unfolding(crate::specs::Valid::is_valid_instruction))]
fn valid_instruction(low: &Low, routine: &Routine, instruction: &Instruction) -> bool
    ensures { result ≡ is_valid_instruction low.now routine.now instruction.now }
{
    match instruction {
        Instruction::Const { to, value } => valid_const(routine, *to, *value),
        Instruction::Address { to, symbol } => valid_address(low, routine, *to, *symbol),
        Instruction::Local { to, offset } => valid_local(routine, *to, *offset),
        Instruction::Move { to, from } => has_both(routine, *to, *from),
        Instruction::Alu {
            op: _,
            to,
            left,
            right,
        } => has_each(routine, *to, *left, *right),
        Instruction::AluImm {
            op: _,
            to,
            left,
            imm,
        } => valid_imm(routine, *to, *left, *imm),
        Instruction::Shift {
            op: _,
            to,
            left,
            amount,
        } => valid_shift(routine, *to, *left, *amount),
        Instruction::Load {
            op: _,
            to,
            base,
            offset,
        } => valid_imm(routine, *to, *base, *offset),
        Instruction::Store {
            op: _,
            value,
            base,
            offset,
        } => valid_imm(routine, *value, *base, *offset),
        Instruction::Call { routine: id, call } => valid_call(low, routine, *id, call),
        Instruction::CallAt { address, call } => valid_call_at(routine, *address, call),
        Instruction::Branch {
            op: _,
            left,
            right,
            block,
        } => valid_branch(routine, *left, *right, *block),
        Instruction::Jump { block } => has_head(routine, *block),
        Instruction::Return { value } => has_one(routine, *value),
        Instruction::Raise => true,
        Instruction::Read { to, buffer, length } => has_each(routine, *to, *buffer, *length),
        Instruction::Write {
            output: _,
            buffer,
            length,
        } => has_both(routine, *buffer, *length),
        Instruction::Exit { status } => has_one(routine, *status),
    }
}

fn has_one(routine: &Routine, a: VirtualRegister) -> bool
    ensures { result ≡ has routine.now a }
{
    a.0 < routine.registers
}

fn has_both(routine: &Routine, a: VirtualRegister, b: VirtualRegister) -> bool
    ensures { result ≡ has_two routine.now a b }
{
    has_one(routine, a) && has_one(routine, b)
}

fn has_each(routine: &Routine, a: VirtualRegister, b: VirtualRegister, c: VirtualRegister) -> bool
    ensures { result ≡ has_three routine.now a b c }
{
    has_one(routine, a) && has_one(routine, b) && has_one(routine, c)
}

fn has_head(routine: &Routine, block: BlockId) -> bool
    ensures { result ≡ has_block routine.now block }
{
    (block.0 as usize) < routine.blocks.as_slice().len()
}

/// Where a call lands that raises, if it says so.
fn lands(routine: &Routine, landing: Option<BlockId>) -> bool
    ensures { result ≡ has_landing routine.now landing }
{
    match landing {
        None => true,
        Some(block) => has_head(routine, block),
    }
}

/// Every number of its type is a word.
#[tactic(auto, unfolding(crate::specs::Valid::const_fits))]
fn valid_const(routine: &Routine, to: VirtualRegister, _value: u32) -> bool
    ensures { result ≡ const_fits routine.now to _value }
{
    has_one(routine, to)
}

#[tactic(auto, unfolding(crate::specs::Valid::address_fits))]
fn valid_address(low: &Low, routine: &Routine, to: VirtualRegister, symbol: Symbol) -> bool
    ensures { result ≡ address_fits low.now routine.now to symbol }
{
    has_one(routine, to) && names_symbol(low, symbol)
}

#[tactic(auto, unfolding(crate::specs::Valid::has_symbol))]
fn names_symbol(low: &Low, symbol: Symbol) -> bool
    ensures { result ≡ has_symbol low.now symbol }
{
    match symbol {
        Symbol::Literal(id) => id.0 < low.counts.literals,
        Symbol::Table(id) => id.0 < low.counts.tables,
        Symbol::Descriptor(id) => id.0 < low.counts.descriptors,
        Symbol::Global(id) => (id.0 as usize) < low.globals.as_slice().len(),
        Symbol::Routine(id) => (id.0 as usize) < low.routines.as_slice().len(),
    }
}

#[tactic(auto, unfolding(crate::specs::Valid::local_fits))]
fn valid_local(routine: &Routine, to: VirtualRegister, offset: u32) -> bool
    ensures { result ≡ local_fits routine.now to offset }
{
    has_one(routine, to) && offset < routine.locals
}

#[tactic(auto, unfolding(crate::specs::Valid::imm_fits))]
fn valid_imm(routine: &Routine, a: VirtualRegister, b: VirtualRegister, imm: i32) -> bool
    ensures { result ≡ imm_fits routine.now a b imm }
{
    has_both(routine, a, b) && is_immediate(imm)
}

/// Whether it fits the 12 bits of an immediate.
fn is_immediate(imm: i32) -> bool
    ensures { result ≡ is_imm imm }
{
    -(1 << 11) <= imm && imm < 1 << 11
}

#[tactic(auto, unfolding(crate::specs::Valid::shift_fits))]
fn valid_shift(routine: &Routine, to: VirtualRegister, left: VirtualRegister, amount: u8) -> bool
    ensures { result ≡ shift_fits routine.now to left amount }
{
    has_both(routine, to, left) && amount < 32
}

#[tactic(auto, unfolding(crate::specs::Valid::branch_fits))]
fn valid_branch(
    routine: &Routine,
    left: VirtualRegister,
    right: VirtualRegister,
    block: BlockId,
) -> bool
    ensures { result ≡ branch_fits routine.now left right block }
{
    has_both(routine, left, right) && has_head(routine, block)
}

/// Whether there is such a routine, with so many parameters.
fn takes_arguments(low: &Low, id: RoutineId, arguments: usize) -> bool
    ensures { result ≡ takes (slice_get low.now.routines id.0) arguments }
{
    match low.routines.as_slice().get(id.0 as usize) {
        None => false,
        Some(routine) => routine.parameters as usize == arguments,
    }
}

#[tactic(auto, unfolding(crate::specs::Valid::has_all))]
fn has_arguments(routine: &Routine, arguments: &[VirtualRegister]) -> bool
    ensures { result ≡ has_all routine.now arguments.now }
{
    arguments.iter().all(|a| has_one(routine, *a))
}

#[tactic(auto, unfolding(crate::specs::Valid::operands_fit))]
fn valid_operands(routine: &Routine, call: &Call) -> bool
    ensures { result ≡ operands_fit routine.now call.now }
{
    has_arguments(routine, call.arguments.as_slice())
        && has_one(routine, call.to)
        && lands(routine, call.landing)
}

#[tactic(auto, unfolding(crate::specs::Valid::call_fits))]
fn valid_call(low: &Low, routine: &Routine, id: RoutineId, call: &Call) -> bool
    ensures { result ≡ call_fits low.now routine.now id call.now }
{
    takes_arguments(low, id, call.arguments.as_slice().len()) && valid_operands(routine, call)
}

#[tactic(auto, unfolding(crate::specs::Valid::call_at_fits))]
fn valid_call_at(routine: &Routine, address: VirtualRegister, call: &Call) -> bool
    ensures { result ≡ call_at_fits routine.now address call.now }
{
    has_one(routine, address) && valid_operands(routine, call)
}

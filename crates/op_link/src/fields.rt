//! Whether instructions have words.
ghost use Rattle.std.specs.Prelude.{◌≡◌, ◌&&◌};
ghost use Rattle.std.specs.List.{list_all};
ghost use Rattle.op_rv.specs.Encoding.{fits, is_even, is_imm, is_register, is_signed};
ghost use Rattle.op_link.specs.Code.{blocks_have_fields, has_fields, have_fields, routine_has_fields};

use op_rv::{Instr, Item, ObjectBlock, ObjectRoutine};

fn is_register(r: u8) -> bool
    ensures { result ≡ is_register r }
{
    r < 32
}

fn are_registers(a: u8, b: u8) -> bool
    ensures { result ≡ (is_register a && is_register b) }
{
    is_register(a) && is_register(b)
}

/// Whether it fits the 12 bits of an immediate.
fn is_immediate(imm: i32) -> bool
    ensures { result ≡ is_imm imm }
{
    -(1 << 11) <= imm && imm < 1 << 11
}

fn is_even(offset: i32) -> bool
    ensures { result ≡ is_even offset }
{
    offset.cast_unsigned() % 2 == 0
}

/// Whether it fits the offset of a branch.
fn is_branch_offset(offset: i32) -> bool
    ensures { result ≡ (is_signed 12 offset && is_even offset) }
{
    (-(1 << 12) <= offset && offset < 1 << 12) && is_even(offset)
}

/// Whether it fits the offset of a jump.
fn is_jump_offset(offset: i32) -> bool
    ensures { result ≡ (is_signed 20 offset && is_even offset) }
{
    (-(1 << 20) <= offset && offset < 1 << 20) && is_even(offset)
}

/// Whether the registers and immediates of an instruction fit its word.
fn fits(i: Instr) -> bool
    ensures { result ≡ fits i }
{
    match i {
        Instr::Lui { rd, upper } => is_register(rd) && upper < 1 << 20,
        Instr::Auipc { rd, upper } => is_register(rd) && upper < 1 << 20,
        Instr::Jal { rd, offset } => is_register(rd) && is_jump_offset(offset),
        Instr::Jalr { rd, rs1, offset } => are_registers(rd, rs1) && is_immediate(offset),
        Instr::Branch {
            op: _,
            rs1,
            rs2,
            offset,
        } => are_registers(rs1, rs2) && is_branch_offset(offset),
        Instr::Load {
            op: _,
            rd,
            rs1,
            offset,
        } => are_registers(rd, rs1) && is_immediate(offset),
        Instr::Store {
            op: _,
            rs1,
            rs2,
            offset,
        } => are_registers(rs1, rs2) && is_immediate(offset),
        Instr::Imm {
            op: _,
            rd,
            rs1,
            imm,
        } => are_registers(rd, rs1) && is_immediate(imm),
        Instr::Shift {
            op: _,
            rd,
            rs1,
            amount,
        } => are_registers(rd, rs1) && amount < 32,
        Instr::Alu {
            op: _,
            rd,
            rs1,
            rs2,
        } => are_registers(rd, rs1) && is_register(rs2),
        Instr::Fence { rd, rs1, bits } => are_registers(rd, rs1) && bits < 1 << 12,
        Instr::Ecall => true,
        Instr::Ebreak => true,
    }
}

#[tactic(auto, unfolding(crate::specs::Code::has_fields))]
fn has_fields(item: &Item) -> bool
    ensures { result ≡ has_fields item.now }
{
    match item {
        Item::Plain(i) => fits(*i),
        Item::Address { rd, symbol: _ } => is_register(*rd),
        Item::Branch {
            op: _,
            left,
            right,
            block: _,
        } => are_registers(*left, *right),
        Item::Jump { block: _ } => true,
        Item::Call {
            routine: _,
            landing: _,
        } => true,
        Item::CallAt { landing: _ } => true,
    }
}

fn have_fields(items: &[Item]) -> bool
    ensures { result ≡ have_fields items.now }
{
    items.iter().all(|item| has_fields(item))
}

#[tactic(auto, unfolding(crate::specs::Code::blocks_have_fields))]
fn blocks_have_fields(blocks: &[ObjectBlock]) -> bool
    ensures { result ≡ blocks_have_fields blocks.now }
{
    blocks
        .iter()
        .all(|block| have_fields(block.items.as_slice()))
}

#[tactic(auto, unfolding(crate::specs::Code::routine_has_fields))]
fn routine_has_fields(routine: &ObjectRoutine) -> bool
    ensures { result ≡ routine_has_fields routine.now }
{
    have_fields(routine.head.as_slice()) && blocks_have_fields(routine.blocks.as_slice())
}

pub(crate) fn routines_have_fields(routines: &[ObjectRoutine]) -> bool
    ensures { result ≡ list_all routine_has_fields routines.now }
{
    routines.iter().all(|routine| routine_has_fields(routine))
}

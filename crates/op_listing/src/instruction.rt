//! The text of an instruction.
ghost use Rattle.std.specs.Prelude.{◌≡◌, ◌++◌, OnOk};
ghost use Rattle.op_rv.specs.Step.{offset_from};
ghost use Rattle.op_listing.specs.Instruction.{text_of};

use crate::names::{alu_name, branch_name, imm_name, load_name, shift_name, store_name};
use crate::operand::{Operand, push_assembly};
use op_rv::Instr;
use std::alloc::AllocError;

/// The address at a distance from another; addresses wrap.
fn address_from(from: u32, distance: i32) -> u32
    ensures { result ≡ offset_from from distance }
{
    from.wrapping_add(distance.cast_unsigned())
}

/// Appends the instruction that stands at an address.
pub(crate) fn push_instruction(
    text: &mut Vec<u8>,
    at: u32,
    instruction: Instr,
) -> Result<(), AllocError>
    ensures { OnOk result (text.new.items ≡ text.old.items ++ text_of at instruction) }
{
    match instruction {
        Instr::Lui { rd, upper } => push_assembly(text, b"lui", rd, &[Operand::Upper(upper)]),
        Instr::Auipc { rd, upper } => push_assembly(text, b"auipc", rd, &[Operand::Upper(upper)]),
        Instr::Jal { rd, offset } => {
            let target = address_from(at, offset);
            push_assembly(text, b"jal", rd, &[Operand::Address(target)])
        }
        Instr::Jalr { rd, rs1, offset } => {
            push_assembly(text, b"jalr", rd, &[Operand::Offset(offset, rs1)])
        }
        Instr::Branch {
            op,
            rs1,
            rs2,
            offset,
        } => {
            let target = address_from(at, offset);
            let others = [Operand::Register(rs2), Operand::Address(target)];
            push_assembly(text, branch_name(op), rs1, &others)
        }
        Instr::Load {
            op,
            rd,
            rs1,
            offset,
        } => push_assembly(text, load_name(op), rd, &[Operand::Offset(offset, rs1)]),
        Instr::Store {
            op,
            rs1,
            rs2,
            offset,
        } => push_assembly(text, store_name(op), rs2, &[Operand::Offset(offset, rs1)]),
        Instr::Imm { op, rd, rs1, imm } => {
            let others = [Operand::Register(rs1), Operand::Number(imm)];
            push_assembly(text, imm_name(op), rd, &others)
        }
        Instr::Shift {
            op,
            rd,
            rs1,
            amount,
        } => {
            let others = [Operand::Register(rs1), Operand::Number(amount as i32)];
            push_assembly(text, shift_name(op), rd, &others)
        }
        Instr::Alu { op, rd, rs1, rs2 } => {
            let others = [Operand::Register(rs1), Operand::Register(rs2)];
            push_assembly(text, alu_name(op), rd, &others)
        }
        Instr::Fence {
            rd: _,
            rs1: _,
            bits: _,
        } => text.extend_from_slice(b"fence"),
        Instr::Ecall => text.extend_from_slice(b"ecall"),
        Instr::Ebreak => text.extend_from_slice(b"ebreak"),
    }
}

//! Instructions decoded ahead, in a flat form.
ghost use Rattle.std.specs.Prelude.{◌≡◌, Some};
ghost use Rattle.op_emu.specs.Rows.{instr_of, IsRowOf};
ghost use Rattle.op_rv.specs.declared.instruction.Instr.{Instr as Form};

use op_rv::{AluOp, BranchOp, ImmOp, Instr, LoadOp, ShiftOp, StoreOp, decode};

/// An instruction that touches no stream and does not end the program, by its operator. The fields are those of `Instr`.
#[derive(Clone, Copy)]
pub enum Row {
    /// A word that is decoded when it is reached: it has no row, or calls the environment, or breaks.
    Other,
    Lui { rd: u8, upper: u32 },
    Auipc { rd: u8, upper: u32 },
    Jal { rd: u8, offset: i32 },
    Jalr { rd: u8, rs1: u8, offset: i32 },
    Beq { rs1: u8, rs2: u8, offset: i32 },
    Bne { rs1: u8, rs2: u8, offset: i32 },
    Blt { rs1: u8, rs2: u8, offset: i32 },
    Bge { rs1: u8, rs2: u8, offset: i32 },
    Bltu { rs1: u8, rs2: u8, offset: i32 },
    Bgeu { rs1: u8, rs2: u8, offset: i32 },
    Lb { rd: u8, rs1: u8, offset: i32 },
    Lh { rd: u8, rs1: u8, offset: i32 },
    Lw { rd: u8, rs1: u8, offset: i32 },
    Lbu { rd: u8, rs1: u8, offset: i32 },
    Lhu { rd: u8, rs1: u8, offset: i32 },
    Sb { rs1: u8, rs2: u8, offset: i32 },
    Sh { rs1: u8, rs2: u8, offset: i32 },
    Sw { rs1: u8, rs2: u8, offset: i32 },
    Addi { rd: u8, rs1: u8, imm: i32 },
    Slti { rd: u8, rs1: u8, imm: i32 },
    Sltiu { rd: u8, rs1: u8, imm: i32 },
    Xori { rd: u8, rs1: u8, imm: i32 },
    Ori { rd: u8, rs1: u8, imm: i32 },
    Andi { rd: u8, rs1: u8, imm: i32 },
    Slli { rd: u8, rs1: u8, amount: u8 },
    Srli { rd: u8, rs1: u8, amount: u8 },
    Srai { rd: u8, rs1: u8, amount: u8 },
    Add { rd: u8, rs1: u8, rs2: u8 },
    Sub { rd: u8, rs1: u8, rs2: u8 },
    Sll { rd: u8, rs1: u8, rs2: u8 },
    Slt { rd: u8, rs1: u8, rs2: u8 },
    Sltu { rd: u8, rs1: u8, rs2: u8 },
    Xor { rd: u8, rs1: u8, rs2: u8 },
    Srl { rd: u8, rs1: u8, rs2: u8 },
    Sra { rd: u8, rs1: u8, rs2: u8 },
    Or { rd: u8, rs1: u8, rs2: u8 },
    And { rd: u8, rs1: u8, rs2: u8 },
    Mul { rd: u8, rs1: u8, rs2: u8 },
    Mulh { rd: u8, rs1: u8, rs2: u8 },
    Mulhsu { rd: u8, rs1: u8, rs2: u8 },
    Mulhu { rd: u8, rs1: u8, rs2: u8 },
    Div { rd: u8, rs1: u8, rs2: u8 },
    Divu { rd: u8, rs1: u8, rs2: u8 },
    Rem { rd: u8, rs1: u8, rs2: u8 },
    Remu { rd: u8, rs1: u8, rs2: u8 },
    Fence { rd: u8, rs1: u8, bits: u32 },
}

fn branch(op: BranchOp, rs1: u8, rs2: u8, offset: i32) -> Row
    ensures { instr_of result ≡ Some (Form.Branch op rs1 rs2 offset) }
{
    match op {
        BranchOp::Beq => Row::Beq { rs1, rs2, offset },
        BranchOp::Bne => Row::Bne { rs1, rs2, offset },
        BranchOp::Blt => Row::Blt { rs1, rs2, offset },
        BranchOp::Bge => Row::Bge { rs1, rs2, offset },
        BranchOp::Bltu => Row::Bltu { rs1, rs2, offset },
        BranchOp::Bgeu => Row::Bgeu { rs1, rs2, offset },
    }
}

fn load(op: LoadOp, rd: u8, rs1: u8, offset: i32) -> Row
    ensures { instr_of result ≡ Some (Form.Load op rd rs1 offset) }
{
    match op {
        LoadOp::Lb => Row::Lb { rd, rs1, offset },
        LoadOp::Lh => Row::Lh { rd, rs1, offset },
        LoadOp::Lw => Row::Lw { rd, rs1, offset },
        LoadOp::Lbu => Row::Lbu { rd, rs1, offset },
        LoadOp::Lhu => Row::Lhu { rd, rs1, offset },
    }
}

fn store(op: StoreOp, rs1: u8, rs2: u8, offset: i32) -> Row
    ensures { instr_of result ≡ Some (Form.Store op rs1 rs2 offset) }
{
    match op {
        StoreOp::Sb => Row::Sb { rs1, rs2, offset },
        StoreOp::Sh => Row::Sh { rs1, rs2, offset },
        StoreOp::Sw => Row::Sw { rs1, rs2, offset },
    }
}

fn imm_row(op: ImmOp, rd: u8, rs1: u8, imm: i32) -> Row
    ensures { instr_of result ≡ Some (Form.Imm op rd rs1 imm) }
{
    match op {
        ImmOp::Addi => Row::Addi { rd, rs1, imm },
        ImmOp::Slti => Row::Slti { rd, rs1, imm },
        ImmOp::Sltiu => Row::Sltiu { rd, rs1, imm },
        ImmOp::Xori => Row::Xori { rd, rs1, imm },
        ImmOp::Ori => Row::Ori { rd, rs1, imm },
        ImmOp::Andi => Row::Andi { rd, rs1, imm },
    }
}

fn shift(op: ShiftOp, rd: u8, rs1: u8, amount: u8) -> Row
    ensures { instr_of result ≡ Some (Form.Shift op rd rs1 amount) }
{
    match op {
        ShiftOp::Slli => Row::Slli { rd, rs1, amount },
        ShiftOp::Srli => Row::Srli { rd, rs1, amount },
        ShiftOp::Srai => Row::Srai { rd, rs1, amount },
    }
}

fn alu(op: AluOp, rd: u8, rs1: u8, rs2: u8) -> Row
    ensures { instr_of result ≡ Some (Form.Alu op rd rs1 rs2) }
{
    match op {
        AluOp::Add => Row::Add { rd, rs1, rs2 },
        AluOp::Sub => Row::Sub { rd, rs1, rs2 },
        AluOp::Sll => Row::Sll { rd, rs1, rs2 },
        AluOp::Slt => Row::Slt { rd, rs1, rs2 },
        AluOp::Sltu => Row::Sltu { rd, rs1, rs2 },
        AluOp::Xor => Row::Xor { rd, rs1, rs2 },
        AluOp::Srl => Row::Srl { rd, rs1, rs2 },
        AluOp::Sra => Row::Sra { rd, rs1, rs2 },
        AluOp::Or => Row::Or { rd, rs1, rs2 },
        AluOp::And => Row::And { rd, rs1, rs2 },
        AluOp::Mul => Row::Mul { rd, rs1, rs2 },
        AluOp::Mulh => Row::Mulh { rd, rs1, rs2 },
        AluOp::Mulhsu => Row::Mulhsu { rd, rs1, rs2 },
        AluOp::Mulhu => Row::Mulhu { rd, rs1, rs2 },
        AluOp::Div => Row::Div { rd, rs1, rs2 },
        AluOp::Divu => Row::Divu { rd, rs1, rs2 },
        AluOp::Rem => Row::Rem { rd, rs1, rs2 },
        AluOp::Remu => Row::Remu { rd, rs1, rs2 },
    }
}

/// An instruction in its flat form.
fn flat(i: Instr) -> Row
    ensures { (j : Form) → instr_of result ≡ Some j → j ≡ i }
{
    match i {
        Instr::Lui { rd, upper } => Row::Lui { rd, upper },
        Instr::Auipc { rd, upper } => Row::Auipc { rd, upper },
        Instr::Jal { rd, offset } => Row::Jal { rd, offset },
        Instr::Jalr { rd, rs1, offset } => Row::Jalr { rd, rs1, offset },
        Instr::Branch {
            op,
            rs1,
            rs2,
            offset,
        } => branch(op, rs1, rs2, offset),
        Instr::Load {
            op,
            rd,
            rs1,
            offset,
        } => load(op, rd, rs1, offset),
        Instr::Store {
            op,
            rs1,
            rs2,
            offset,
        } => store(op, rs1, rs2, offset),
        Instr::Imm { op, rd, rs1, imm } => imm_row(op, rd, rs1, imm),
        Instr::Shift {
            op,
            rd,
            rs1,
            amount,
        } => shift(op, rd, rs1, amount),
        Instr::Alu { op, rd, rs1, rs2 } => alu(op, rd, rs1, rs2),
        Instr::Fence { rd, rs1, bits } => Row::Fence { rd, rs1, bits },
        Instr::Ecall => Row::Other,
        Instr::Ebreak => Row::Other,
    }
}

/// A word, decoded.
pub(crate) fn row_of(word: u32) -> Row
    ensures { IsRowOf word result }
{
    match decode(word) {
        Some(i) => flat(i),
        None => Row::Other,
    }
}

//! From an instruction to its word.
ghost use Rattle.std.specs.Prelude.{◌≡◌, ◌+◌, ◌*◌, ◌^◌, ◌<◌, IsTrue, Some};
ghost use Rattle.op_rv.specs.Encoding.{word_of, fits, r_format, i_format, u_format, imm_field_of, jump_field_of, s_format, b_format, branch_funct3_of, load_funct3_of, store_funct3_of, imm_funct3_of, shift_funct3_of, shift_funct7_of, alu_funct3_of, alu_funct7_of};
ghost use Rattle.op_rv.specs.Decoding.{instr_at};

use crate::{AluOp, BranchOp, ImmOp, Instr, LoadOp, ShiftOp, StoreOp};

/// The word of an instruction, whose registers and immediates fit their fields.
#[tactic(auto, using(crate::proofs::Table::round_trip))]
pub fn encode(i: Instr) -> u32
    requires { IsTrue (fits i) }
    ensures word { result ≡ word_of i }
    ensures back { instr_at result ≡ Some i }
{
    word_by_format(i)
}

/// The word of an instruction, one line a row of the table.
fn word_by_format(i: Instr) -> u32
    requires { IsTrue (fits i) }
    ensures { result ≡ word_of i }
{
    match i {
        Instr::Lui { rd, upper } => format_u(upper, rd, 0b0110111),
        Instr::Auipc { rd, upper } => format_u(upper, rd, 0b0010111),
        Instr::Jal { rd, offset } => format_u(jump_field(offset), rd, 0b1101111),
        Instr::Jalr { rd, rs1, offset } => format_i(imm_field(offset), rs1, 0b000, rd, 0b1100111),
        Instr::Branch {
            op,
            rs1,
            rs2,
            offset,
        } => encode_branch(op, rs1, rs2, offset),
        Instr::Load {
            op,
            rd,
            rs1,
            offset,
        } => { format_i(imm_field(offset), rs1, load_funct3(op), rd, 0b0000011) }
        Instr::Store {
            op,
            rs1,
            rs2,
            offset,
        } => encode_store(op, rs1, rs2, offset),
        Instr::Imm { op, rd, rs1, imm } => {
            format_i(imm_field(imm), rs1, imm_funct3(op), rd, 0b0010011)
        }
        Instr::Shift {
            op,
            rd,
            rs1,
            amount,
        } => {
            format_r(
                shift_funct7(op),
                amount,
                rs1,
                shift_funct3(op),
                rd,
                0b0010011,
            )
        }
        Instr::Alu { op, rd, rs1, rs2 } => {
            format_r(alu_funct7(op), rs2, rs1, alu_funct3(op), rd, 0b0110011)
        }
        Instr::Fence { rd, rs1, bits } => format_i(bits, rs1, 0b000, rd, 0b0001111),
        Instr::Ecall => 0x00000073,
        Instr::Ebreak => 0x00100073,
    }
}

/// Format R: f7 rs2 rs1 f3 rd op. The formats S and B have it too, with parts of their immediate as f7 and rd.
fn format_r(f7: u32, rs2: u8, rs1: u8, f3: u32, rd: u8, op: u32) -> u32
    requires f7_fits { f7 < 2 ^ 7 }
    requires rs2_fits { rs2 < 2 ^ 5 }
    requires rs1_fits { rs1 < 2 ^ 5 }
    requires f3_fits { f3 < 2 ^ 3 }
    requires rd_fits { rd < 2 ^ 5 }
    requires op_fits { op < 2 ^ 7 }
    ensures { result ≡ r_format f7 rs2 rs1 f3 rd op }
{
    (f7 << 25) + ((rs2 as u32) << 20) + ((rs1 as u32) << 15) + (f3 << 12) + ((rd as u32) << 7) + op
}

/// Format I: imm rs1 f3 rd op, with the immediate's field of 12 bits.
fn format_i(imm: u32, rs1: u8, f3: u32, rd: u8, op: u32) -> u32
    requires imm_fits { imm < 2 ^ 12 }
    requires rs1_fits { rs1 < 2 ^ 5 }
    requires f3_fits { f3 < 2 ^ 3 }
    requires rd_fits { rd < 2 ^ 5 }
    requires op_fits { op < 2 ^ 7 }
    ensures { result ≡ i_format imm rs1 f3 rd op }
{
    (imm << 20) + ((rs1 as u32) << 15) + (f3 << 12) + ((rd as u32) << 7) + op
}

/// Format U: imm rd op, with the immediate's field of 20 bits. Format J has it too.
fn format_u(imm: u32, rd: u8, op: u32) -> u32
    requires imm_fits { imm < 2 ^ 20 }
    requires rd_fits { rd < 2 ^ 5 }
    requires op_fits { op < 2 ^ 7 }
    ensures { result ≡ u_format imm rd op }
{
    (imm << 12) + ((rd as u32) << 7) + op
}

/// The low 12 bits of an immediate.
fn imm_field(imm: i32) -> u32
    ensures { result ≡ imm_field_of imm }
{
    imm.cast_unsigned() % (1 << 12)
}

/// imm[20|10:1|11|19:12].
fn jump_field(offset: i32) -> u32
    ensures { result ≡ jump_field_of offset }
{
    let imm = offset.cast_unsigned();
    (((imm >> 20) % (1 << 1)) << 19)
        + (((imm >> 1) % (1 << 10)) << 9)
        + (((imm >> 11) % (1 << 1)) << 8)
        + (imm >> 12) % (1 << 8)
}

fn encode_branch(op: BranchOp, rs1: u8, rs2: u8, offset: i32) -> u32
    requires rs1_fits { rs1 < 2 ^ 5 }
    requires rs2_fits { rs2 < 2 ^ 5 }
    ensures { result ≡ b_format offset rs2 rs1 (branch_funct3_of op) 0b1100011 }
{
    let imm = offset.cast_unsigned();
    let high = (((imm >> 12) % (1 << 1)) << 6) + (imm >> 5) % (1 << 6);
    let low = (((imm >> 1) % (1 << 4)) << 1) + (imm >> 11) % (1 << 1);
    format_r(high, rs2, rs1, branch_funct3(op), low as u8, 0b1100011)
}

fn encode_store(op: StoreOp, rs1: u8, rs2: u8, offset: i32) -> u32
    requires rs1_fits { rs1 < 2 ^ 5 }
    requires rs2_fits { rs2 < 2 ^ 5 }
    ensures { result ≡ s_format offset rs2 rs1 (store_funct3_of op) 0b0100011 }
{
    let imm = offset.cast_unsigned();
    let high = (imm >> 5) % (1 << 7);
    let low = imm % (1 << 5);
    format_r(high, rs2, rs1, store_funct3(op), low as u8, 0b0100011)
}

fn branch_funct3(op: BranchOp) -> u32
    ensures value { result ≡ branch_funct3_of op }
    ensures fits { result < 2 ^ 3 }
{
    match op {
        BranchOp::Beq => 0b000,
        BranchOp::Bne => 0b001,
        BranchOp::Blt => 0b100,
        BranchOp::Bge => 0b101,
        BranchOp::Bltu => 0b110,
        BranchOp::Bgeu => 0b111,
    }
}

fn load_funct3(op: LoadOp) -> u32
    ensures value { result ≡ load_funct3_of op }
    ensures fits { result < 2 ^ 3 }
{
    match op {
        LoadOp::Lb => 0b000,
        LoadOp::Lh => 0b001,
        LoadOp::Lw => 0b010,
        LoadOp::Lbu => 0b100,
        LoadOp::Lhu => 0b101,
    }
}

fn store_funct3(op: StoreOp) -> u32
    ensures value { result ≡ store_funct3_of op }
    ensures fits { result < 2 ^ 3 }
{
    match op {
        StoreOp::Sb => 0b000,
        StoreOp::Sh => 0b001,
        StoreOp::Sw => 0b010,
    }
}

fn imm_funct3(op: ImmOp) -> u32
    ensures value { result ≡ imm_funct3_of op }
    ensures fits { result < 2 ^ 3 }
{
    match op {
        ImmOp::Addi => 0b000,
        ImmOp::Slti => 0b010,
        ImmOp::Sltiu => 0b011,
        ImmOp::Xori => 0b100,
        ImmOp::Ori => 0b110,
        ImmOp::Andi => 0b111,
    }
}

fn shift_funct3(op: ShiftOp) -> u32
    ensures value { result ≡ shift_funct3_of op }
    ensures fits { result < 2 ^ 3 }
{
    match op {
        ShiftOp::Slli => 0b001,
        ShiftOp::Srli | ShiftOp::Srai => 0b101,
    }
}

fn shift_funct7(op: ShiftOp) -> u32
    ensures value { result ≡ shift_funct7_of op }
    ensures fits { result < 2 ^ 7 }
{
    match op {
        ShiftOp::Slli | ShiftOp::Srli => 0b0000000,
        ShiftOp::Srai => 0b0100000,
    }
}

fn alu_funct3(op: AluOp) -> u32
    ensures value { result ≡ alu_funct3_of op }
    ensures fits { result < 2 ^ 3 }
{
    match op {
        AluOp::Add | AluOp::Sub | AluOp::Mul => 0b000,
        AluOp::Sll | AluOp::Mulh => 0b001,
        AluOp::Slt | AluOp::Mulhsu => 0b010,
        AluOp::Sltu | AluOp::Mulhu => 0b011,
        AluOp::Xor | AluOp::Div => 0b100,
        AluOp::Srl | AluOp::Sra | AluOp::Divu => 0b101,
        AluOp::Or | AluOp::Rem => 0b110,
        AluOp::And | AluOp::Remu => 0b111,
    }
}

fn alu_funct7(op: AluOp) -> u32
    ensures value { result ≡ alu_funct7_of op }
    ensures fits { result < 2 ^ 7 }
{
    match op {
        AluOp::Sub | AluOp::Sra => 0b0100000,
        AluOp::Mul | AluOp::Mulh | AluOp::Mulhsu | AluOp::Mulhu => 0b0000001,
        AluOp::Div | AluOp::Divu | AluOp::Rem | AluOp::Remu => 0b0000001,
        _ => 0b0000000,
    }
}

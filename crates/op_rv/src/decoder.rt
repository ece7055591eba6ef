//! From a word to its instruction.
ghost use Rattle.std.specs.Prelude.{◌≡◌, ◌^◌, ◌<◌, IsTrue, Some, IfSome};
ghost use Rattle.op_rv.specs.Encoding.{word_of, fits, branch_funct3_of, load_funct3_of, store_funct3_of, imm_funct3_of, shift_funct3_of, shift_funct7_of, alu_funct3_of, alu_funct7_of};
ghost use Rattle.op_rv.specs.Decoding.{instr_at, opcode_of, rd_of, rs1_of, rs2_of, funct3_of, funct7_of, signed_of, imm_of, store_offset_of, branch_offset_of, jump_offset_of, branch_op_at, load_op_at, store_op_at, imm_op_at, shift_op_at, base_op_at, multiply_op_at, alu_op_at, jalr_row, branch_row, load_row, store_row, shift_row, imm_row, alu_row, fence_row, system_row};
ghost use Rattle.op_rv.specs.declared.instruction.Instr.{Instr as Row};

use crate::{AluOp, BranchOp, ImmOp, Instr, LoadOp, ShiftOp, StoreOp};

/// The instruction that a word is, if the table has a row for it.
#[tactic(auto, using(crate::proofs::Table::round_trip))]
pub fn decode(word: u32) -> Option<Instr>
    ensures exact { result ≡ instr_at word }

    // What is found is spelled by the word, and whatever the word spells is found.
    ensures found { IfSome result (λ i. IsTrue (fits i) × (word_of i ≡ word)) }
    ensures only { (i : Row) → IsTrue (fits i) → word_of i ≡ word → result ≡ Some i }
{
    decode_by_opcode(word)
}

#[tactic(auto, unfolding(crate::specs::Decoding::instr_at, crate::specs::Decoding::row_of))]
fn decode_by_opcode(word: u32) -> Option<Instr>
    ensures exact { result ≡ instr_at word }
    ensures found { IfSome result (λ i. IsTrue (fits i) × (word_of i ≡ word)) }
{
    match word % (1 << 7) {
        0b0110111 => Some(Instr::Lui {
            rd: rd(word),
            upper: word >> 12,
        }),
        0b0010111 => Some(Instr::Auipc {
            rd: rd(word),
            upper: word >> 12,
        }),
        0b1101111 => Some(Instr::Jal {
            rd: rd(word),
            offset: jump_offset(word),
        }),
        0b1100111 => decode_jalr(word),
        0b1100011 => decode_branch(word),
        0b0000011 => decode_load(word),
        0b0100011 => decode_store(word),
        0b0010011 => decode_imm(word),
        0b0110011 => decode_alu(word),
        0b0001111 => decode_fence(word),
        0b1110011 => decode_system(word),
        _ => None,
    }
}

#[tactic(auto, unfolding(crate::specs::Decoding::jalr_row))]
fn decode_jalr(word: u32) -> Option<Instr>
    requires { opcode_of word ≡ 0b1100111 }
    ensures exact { result ≡ jalr_row word }
    ensures found { IfSome result (λ i. IsTrue (fits i) × (word_of i ≡ word)) }
{
    match funct3(word) {
        0b000 => Some(Instr::Jalr {
            rd: rd(word),
            rs1: rs1(word),
            offset: imm(word),
        }),
        _ => None,
    }
}

#[tactic(auto, unfolding(crate::specs::Decoding::branch_row))]
fn decode_branch(word: u32) -> Option<Instr>
    requires { opcode_of word ≡ 0b1100011 }
    ensures exact { result ≡ branch_row word }
    ensures found { IfSome result (λ i. IsTrue (fits i) × (word_of i ≡ word)) }
{
    let op = branch_op(funct3(word))?;
    Some(Instr::Branch {
        op,
        rs1: rs1(word),
        rs2: rs2(word),
        offset: branch_offset(word),
    })
}

#[tactic(auto, unfolding(crate::specs::Decoding::load_row))]
fn decode_load(word: u32) -> Option<Instr>
    requires { opcode_of word ≡ 0b0000011 }
    ensures exact { result ≡ load_row word }
    ensures found { IfSome result (λ i. IsTrue (fits i) × (word_of i ≡ word)) }
{
    let op = load_op(funct3(word))?;
    Some(Instr::Load {
        op,
        rd: rd(word),
        rs1: rs1(word),
        offset: imm(word),
    })
}

#[tactic(auto, unfolding(crate::specs::Decoding::store_row))]
fn decode_store(word: u32) -> Option<Instr>
    requires { opcode_of word ≡ 0b0100011 }
    ensures exact { result ≡ store_row word }
    ensures found { IfSome result (λ i. IsTrue (fits i) × (word_of i ≡ word)) }
{
    let op = store_op(funct3(word))?;
    Some(Instr::Store {
        op,
        rs1: rs1(word),
        rs2: rs2(word),
        offset: store_offset(word),
    })
}

#[tactic(auto, unfolding(crate::specs::Decoding::imm_row))]
fn decode_imm(word: u32) -> Option<Instr>
    requires { opcode_of word ≡ 0b0010011 }
    ensures exact { result ≡ imm_row word }
    ensures found { IfSome result (λ i. IsTrue (fits i) × (word_of i ≡ word)) }
{
    let funct3 = funct3(word);
    if funct3 % 4 == 0b01 {
        return decode_shift(word);
    }
    let op = imm_op(funct3)?;
    Some(Instr::Imm {
        op,
        rd: rd(word),
        rs1: rs1(word),
        imm: imm(word),
    })
}

#[tactic(auto, unfolding(crate::specs::Decoding::shift_row))]
fn decode_shift(word: u32) -> Option<Instr>
    requires { opcode_of word ≡ 0b0010011 }
    ensures exact { result ≡ shift_row word }
    ensures found { IfSome result (λ i. IsTrue (fits i) × (word_of i ≡ word)) }
{
    let op = shift_op(funct7(word), funct3(word))?;
    Some(Instr::Shift {
        op,
        rd: rd(word),
        rs1: rs1(word),
        amount: rs2(word),
    })
}

#[tactic(auto, unfolding(crate::specs::Decoding::alu_row))]
fn decode_alu(word: u32) -> Option<Instr>
    requires { opcode_of word ≡ 0b0110011 }
    ensures exact { result ≡ alu_row word }
    ensures found { IfSome result (λ i. IsTrue (fits i) × (word_of i ≡ word)) }
{
    let op = alu_op(funct7(word), funct3(word))?;
    Some(Instr::Alu {
        op,
        rd: rd(word),
        rs1: rs1(word),
        rs2: rs2(word),
    })
}

#[tactic(auto, unfolding(crate::specs::Decoding::fence_row))]
fn decode_fence(word: u32) -> Option<Instr>
    requires { opcode_of word ≡ 0b0001111 }
    ensures exact { result ≡ fence_row word }
    ensures found { IfSome result (λ i. IsTrue (fits i) × (word_of i ≡ word)) }
{
    match funct3(word) {
        0b000 => Some(Instr::Fence {
            rd: rd(word),
            rs1: rs1(word),
            bits: word >> 20,
        }),
        _ => None,
    }
}

#[tactic(auto, unfolding(crate::specs::Decoding::system_row))]
fn decode_system(word: u32) -> Option<Instr>
    ensures exact { result ≡ system_row word }
    ensures found { IfSome result (λ i. IsTrue (fits i) × (word_of i ≡ word)) }
{
    match word {
        0x00000073 => Some(Instr::Ecall),
        0x00100073 => Some(Instr::Ebreak),
        _ => None,
    }
}

#[tactic(auto, unfolding(crate::specs::Decoding::branch_op_at))]
fn branch_op(funct3: u32) -> Option<BranchOp>
    ensures exact { result ≡ branch_op_at funct3 }
    ensures found { IfSome result (λ op. branch_funct3_of op ≡ funct3) }
{
    match funct3 {
        0b000 => Some(BranchOp::Beq),
        0b001 => Some(BranchOp::Bne),
        0b100 => Some(BranchOp::Blt),
        0b101 => Some(BranchOp::Bge),
        0b110 => Some(BranchOp::Bltu),
        0b111 => Some(BranchOp::Bgeu),
        _ => None,
    }
}

#[tactic(auto, unfolding(crate::specs::Decoding::load_op_at))]
fn load_op(funct3: u32) -> Option<LoadOp>
    ensures exact { result ≡ load_op_at funct3 }
    ensures found { IfSome result (λ op. load_funct3_of op ≡ funct3) }
{
    match funct3 {
        0b000 => Some(LoadOp::Lb),
        0b001 => Some(LoadOp::Lh),
        0b010 => Some(LoadOp::Lw),
        0b100 => Some(LoadOp::Lbu),
        0b101 => Some(LoadOp::Lhu),
        _ => None,
    }
}

#[tactic(auto, unfolding(crate::specs::Decoding::store_op_at))]
fn store_op(funct3: u32) -> Option<StoreOp>
    ensures exact { result ≡ store_op_at funct3 }
    ensures found { IfSome result (λ op. store_funct3_of op ≡ funct3) }
{
    match funct3 {
        0b000 => Some(StoreOp::Sb),
        0b001 => Some(StoreOp::Sh),
        0b010 => Some(StoreOp::Sw),
        _ => None,
    }
}

#[tactic(auto, unfolding(crate::specs::Decoding::imm_op_at))]
fn imm_op(funct3: u32) -> Option<ImmOp>
    ensures exact { result ≡ imm_op_at funct3 }
    ensures found { IfSome result (λ op. imm_funct3_of op ≡ funct3) }
{
    match funct3 {
        0b000 => Some(ImmOp::Addi),
        0b010 => Some(ImmOp::Slti),
        0b011 => Some(ImmOp::Sltiu),
        0b100 => Some(ImmOp::Xori),
        0b110 => Some(ImmOp::Ori),
        0b111 => Some(ImmOp::Andi),
        _ => None,
    }
}

#[tactic(auto, unfolding(crate::specs::Decoding::shift_op_at))]
fn shift_op(funct7: u32, funct3: u32) -> Option<ShiftOp>
    ensures exact { result ≡ shift_op_at funct7 funct3 }
    ensures found { IfSome result (λ op. (shift_funct7_of op ≡ funct7) × (shift_funct3_of op ≡ funct3)) }
{
    match (funct7, funct3) {
        (0b0000000, 0b001) => Some(ShiftOp::Slli),
        (0b0000000, 0b101) => Some(ShiftOp::Srli),
        (0b0100000, 0b101) => Some(ShiftOp::Srai),
        _ => None,
    }
}

#[tactic(auto, unfolding(crate::specs::Decoding::alu_op_at))]
fn alu_op(funct7: u32, funct3: u32) -> Option<AluOp>
    ensures exact { result ≡ alu_op_at funct7 funct3 }
    ensures found { IfSome result (λ op. (alu_funct7_of op ≡ funct7) × (alu_funct3_of op ≡ funct3)) }
{
    match funct7 {
        0b0000000 => base_op(funct3),
        0b0000001 => multiply_op(funct3),
        0b0100000 => match funct3 {
            0b000 => Some(AluOp::Sub),
            0b101 => Some(AluOp::Sra),
            _ => None,
        },
        _ => None,
    }
}

#[tactic(auto, unfolding(crate::specs::Decoding::base_op_at))]
fn base_op(funct3: u32) -> Option<AluOp>
    ensures exact { result ≡ base_op_at funct3 }
    ensures found { IfSome result (λ op. (alu_funct7_of op ≡ 0) × (alu_funct3_of op ≡ funct3)) }
{
    match funct3 {
        0b000 => Some(AluOp::Add),
        0b001 => Some(AluOp::Sll),
        0b010 => Some(AluOp::Slt),
        0b011 => Some(AluOp::Sltu),
        0b100 => Some(AluOp::Xor),
        0b101 => Some(AluOp::Srl),
        0b110 => Some(AluOp::Or),
        0b111 => Some(AluOp::And),
        _ => None,
    }
}

#[tactic(auto, unfolding(crate::specs::Decoding::multiply_op_at))]
fn multiply_op(funct3: u32) -> Option<AluOp>
    ensures exact { result ≡ multiply_op_at funct3 }
    ensures found { IfSome result (λ op. (alu_funct7_of op ≡ 1) × (alu_funct3_of op ≡ funct3)) }
{
    match funct3 {
        0b000 => Some(AluOp::Mul),
        0b001 => Some(AluOp::Mulh),
        0b010 => Some(AluOp::Mulhsu),
        0b011 => Some(AluOp::Mulhu),
        0b100 => Some(AluOp::Div),
        0b101 => Some(AluOp::Divu),
        0b110 => Some(AluOp::Rem),
        0b111 => Some(AluOp::Remu),
        _ => None,
    }
}

fn rd(word: u32) -> u8
    ensures { result ≡ rd_of word }
{
    ((word >> 7) % 32) as u8
}

fn rs1(word: u32) -> u8
    ensures { result ≡ rs1_of word }
{
    ((word >> 15) % 32) as u8
}

fn rs2(word: u32) -> u8
    ensures { result ≡ rs2_of word }
{
    ((word >> 20) % 32) as u8
}

fn funct3(word: u32) -> u32
    ensures { result ≡ funct3_of word }
{
    (word >> 12) % 8
}

fn funct7(word: u32) -> u32
    ensures { result ≡ funct7_of word }
{
    word >> 25
}

/// imm[11:0] of format I, with its sign.
fn imm(word: u32) -> i32
    ensures { result ≡ imm_of word }
{
    with_sign_of_12(word >> 20)
}

/// imm[11:5|4:0] of format S, with its sign.
fn store_offset(word: u32) -> i32
    ensures { result ≡ store_offset_of word }
{
    with_sign_of_12(((word >> 25) << 5) + (word >> 7) % 32)
}

/// A field of 12 bits, the top one of which is its sign.
fn with_sign_of_12(field: u32) -> i32
    requires { field < 2 ^ 12 }
    ensures { result ≡ signed_of 11 field }
{
    let value = field as i32;
    if value < 2048 { value } else { value - 4096 }
}

/// imm[12|10:5|4:1|11] of format B, with its sign.
fn branch_offset(word: u32) -> i32
    ensures { result ≡ branch_offset_of word }
{
    let field = (((word >> 31) << 12)
        + (((word >> 7) % 2) << 11)
        + (((word >> 25) % 64) << 5)
        + (((word >> 8) % 16) << 1)) as i32;
    if field < 4096 { field } else { field - 8192 }
}

/// imm[20|10:1|11|19:12] of format J, with its sign.
fn jump_offset(word: u32) -> i32
    ensures { result ≡ jump_offset_of word }
{
    let field = (((word >> 31) << 20)
        + (((word >> 12) % 256) << 12)
        + (((word >> 20) % 2) << 11)
        + (((word >> 21) % 1024) << 1)) as i32;
    if field < 1048576 {
        field
    } else {
        field - 2097152
    }
}

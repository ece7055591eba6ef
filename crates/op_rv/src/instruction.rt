//! Instructions, grouped by format.

/// An instruction of RV32IM. Registers are 0 to 31. A signed field is the number that the word's immediate stands for:
/// -2,048 to 2,047 unless it says otherwise.
#[derive(Clone, Copy, Debug)]
pub enum Instr {
    /// `lui rd, upper`: `upper` is the field of 20 bits, below 2^20.
    Lui {
        rd: u8,
        upper: u32,
    },
    /// `auipc rd, upper`: `upper` is the field of 20 bits, below 2^20.
    Auipc {
        rd: u8,
        upper: u32,
    },
    /// `jal rd, offset`: `offset` is even, -2^20 to 2^20 - 2.
    Jal {
        rd: u8,
        offset: i32,
    },
    Jalr {
        rd: u8,
        rs1: u8,
        offset: i32,
    },
    /// `beq rs1, rs2, offset` and its like: `offset` is even, -4,096 to 4,094.
    Branch {
        op: BranchOp,
        rs1: u8,
        rs2: u8,
        offset: i32,
    },
    /// `lw rd, offset(rs1)` and its like.
    Load {
        op: LoadOp,
        rd: u8,
        rs1: u8,
        offset: i32,
    },
    /// `sw rs2, offset(rs1)` and its like.
    Store {
        op: StoreOp,
        rs1: u8,
        rs2: u8,
        offset: i32,
    },
    /// `addi rd, rs1, imm` and its like.
    Imm {
        op: ImmOp,
        rd: u8,
        rs1: u8,
        imm: i32,
    },
    /// `slli rd, rs1, amount` and its like: `amount` is 0 to 31.
    Shift {
        op: ShiftOp,
        rd: u8,
        rs1: u8,
        amount: u8,
    },
    /// `add rd, rs1, rs2` and its like.
    Alu {
        op: AluOp,
        rd: u8,
        rs1: u8,
        rs2: u8,
    },
    /// `fence`, with the bits that the word has there: `bits` is the field of 12 bits at its top.
    Fence {
        rd: u8,
        rs1: u8,
        bits: u32,
    },
    Ecall,
    Ebreak,
}

/// A comparison of two registers, on which a branch is taken.
#[derive(Clone, Copy, Debug)]
pub enum BranchOp {
    Beq,
    Bne,
    Blt,
    Bge,
    Bltu,
    Bgeu,
}

/// A load, of a byte, of two bytes or of a word; `u` is without a sign.
#[derive(Clone, Copy, Debug)]
pub enum LoadOp {
    Lb,
    Lh,
    Lw,
    Lbu,
    Lhu,
}

/// A store, of a byte, of two bytes or of a word.
#[derive(Clone, Copy, Debug)]
pub enum StoreOp {
    Sb,
    Sh,
    Sw,
}

/// An operation on a register and an immediate.
#[derive(Clone, Copy, Debug)]
pub enum ImmOp {
    Addi,
    Slti,
    Sltiu,
    Xori,
    Ori,
    Andi,
}

/// A shift by a fixed amount.
#[derive(Clone, Copy, Debug)]
pub enum ShiftOp {
    Slli,
    Srli,
    Srai,
}

/// An operation on two registers; the last eight are extension M's.
#[derive(Clone, Copy, Debug)]
pub enum AluOp {
    Add,
    Sub,
    Sll,
    Slt,
    Sltu,
    Xor,
    Srl,
    Sra,
    Or,
    And,
    Mul,
    Mulh,
    Mulhsu,
    Mulhu,
    Div,
    Divu,
    Rem,
    Remu,
}

//! The mnemonics of operators.
ghost use Rattle.std.specs.Prelude.{◌≡◌};
ghost use Rattle.op_listing.specs.Names.{alu_name, branch_name, imm_name, load_name, shift_name, store_name};

use op_rv::{AluOp, BranchOp, ImmOp, LoadOp, ShiftOp, StoreOp};

pub(crate) fn branch_name(op: BranchOp) -> &'static [u8]
    ensures { result.now ≡ branch_name op }
{
    match op {
        BranchOp::Beq => b"beq",
        BranchOp::Bne => b"bne",
        BranchOp::Blt => b"blt",
        BranchOp::Bge => b"bge",
        BranchOp::Bltu => b"bltu",
        BranchOp::Bgeu => b"bgeu",
    }
}

pub(crate) fn load_name(op: LoadOp) -> &'static [u8]
    ensures { result.now ≡ load_name op }
{
    match op {
        LoadOp::Lb => b"lb",
        LoadOp::Lh => b"lh",
        LoadOp::Lw => b"lw",
        LoadOp::Lbu => b"lbu",
        LoadOp::Lhu => b"lhu",
    }
}

pub(crate) fn store_name(op: StoreOp) -> &'static [u8]
    ensures { result.now ≡ store_name op }
{
    match op {
        StoreOp::Sb => b"sb",
        StoreOp::Sh => b"sh",
        StoreOp::Sw => b"sw",
    }
}

pub(crate) fn imm_name(op: ImmOp) -> &'static [u8]
    ensures { result.now ≡ imm_name op }
{
    match op {
        ImmOp::Addi => b"addi",
        ImmOp::Slti => b"slti",
        ImmOp::Sltiu => b"sltiu",
        ImmOp::Xori => b"xori",
        ImmOp::Ori => b"ori",
        ImmOp::Andi => b"andi",
    }
}

pub(crate) fn shift_name(op: ShiftOp) -> &'static [u8]
    ensures { result.now ≡ shift_name op }
{
    match op {
        ShiftOp::Slli => b"slli",
        ShiftOp::Srli => b"srli",
        ShiftOp::Srai => b"srai",
    }
}

pub(crate) fn alu_name(op: AluOp) -> &'static [u8]
    ensures { result.now ≡ alu_name op }
{
    match op {
        AluOp::Add => b"add",
        AluOp::Sub => b"sub",
        AluOp::Sll => b"sll",
        AluOp::Slt => b"slt",
        AluOp::Sltu => b"sltu",
        AluOp::Xor => b"xor",
        AluOp::Srl => b"srl",
        AluOp::Sra => b"sra",
        AluOp::Or => b"or",
        AluOp::And => b"and",
        AluOp::Mul => b"mul",
        AluOp::Mulh => b"mulh",
        AluOp::Mulhsu => b"mulhsu",
        AluOp::Mulhu => b"mulhu",
        AluOp::Div => b"div",
        AluOp::Divu => b"divu",
        AluOp::Rem => b"rem",
        AluOp::Remu => b"remu",
    }
}

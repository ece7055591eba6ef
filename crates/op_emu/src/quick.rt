//! Steps over words that were decoded ahead. What is not done here, `step` does: words without a row, calls of the
//! environment, faults, targets elsewhere, and loads and stores that touch two segments.
ghost use Rattle.std.specs.Prelude.{◌≡◌, ℕ, ◌+◌, ◌-◌, ◌*◌, ◌%◌, ◌^◌, ◌<◌, ◌≤◌, List, IsTrue, IfSome, true, length};
ghost use Rattle.op_rv.specs.Step.{act, after, word_from};
ghost use Rattle.op_rv.specs.declared.instruction.Instr.{Instr as Form};
ghost use Rattle.op_emu.specs.Quick.{Goes, NextIs, RowGoes, Sets};
ghost use Rattle.op_emu.specs.Region.{Region};
ghost use Rattle.op_emu.specs.Rows.{AreDecoded, RowFits};
ghost use Rattle.op_emu.specs.Segments.{regions_of, lie_apart};
ghost use Rattle.op_emu.specs.declared.row.Row.{Row as Flat};

use crate::access::{load_within, store_within};
use crate::rows::{address_at, upper_value, word_of};
use crate::{Registers, Row, Segment};
use op_rv::operation::{alu, imm_operation, is_taken, shift};
use op_rv::{AluOp, BranchOp, ImmOp, LoadOp, ShiftOp, StoreOp};

/// Where the hart goes on.
#[derive(Clone, Copy)]
pub(crate) enum Next {
    /// At the next word.
    On,
    /// At the word at this place.
    To(usize),
    /// Nothing was done.
    Stayed,
}

impl Registers {
    #[inline(always)]
    #[tactic(auto, unfolding(op_rv::specs::Step::act))]
    fn lui(&mut self, rd: u8, upper: u32)
        requires rd { rd < 32 }
        requires upper { upper < 2 ^ 20 }
        ensures { Sets (Form.Lui rd upper) self.old.words self.new.words }
    {
        self.set(rd, upper_value(upper));
    }

    #[inline(always)]
    #[tactic(auto, unfolding(op_rv::specs::Step::act))]
    fn auipc(&mut self, rd: u8, upper: u32, pc: u32)
        requires rd { rd < 32 }
        requires upper { upper < 2 ^ 20 }
        ensures { (regions : List Region) → Goes (act (Form.Auipc rd upper)) self.old.words pc regions self.new.words ((pc + 4) % 2 ^ 32) regions }
    {
        self.set(rd, pc.wrapping_add(upper_value(upper)));
    }

    #[inline(always)]
    #[tactic(auto, unfolding(op_rv::specs::Step::act))]
    fn imm(&mut self, op: ImmOp, rd: u8, rs1: u8, imm: i32)
        requires rd { rd < 32 }
        requires rs1 { rs1 < 32 }
        ensures { Sets (Form.Imm op rd rs1 imm) self.old.words self.new.words }
    {
        let value = imm_operation(op, self.get(rs1), word_of(imm));
        self.set(rd, value);
    }

    #[inline(always)]
    #[tactic(auto, unfolding(op_rv::specs::Step::act))]
    fn shift(&mut self, op: ShiftOp, rd: u8, rs1: u8, amount: u8)
        requires rd { rd < 32 }
        requires rs1 { rs1 < 32 }
        requires amount { amount < 32 }
        ensures { Sets (Form.Shift op rd rs1 amount) self.old.words self.new.words }
    {
        let value = shift(op, self.get(rs1), amount);
        self.set(rd, value);
    }

    #[inline(always)]
    #[tactic(auto, unfolding(op_rv::specs::Step::act))]
    fn alu(&mut self, op: AluOp, rd: u8, rs1: u8, rs2: u8)
        requires rd { rd < 32 }
        requires rs1 { rs1 < 32 }
        requires rs2 { rs2 < 32 }
        ensures { Sets (Form.Alu op rd rs1 rs2) self.old.words self.new.words }
    {
        let a = self.get(rs1);
        let b = self.get(rs2);
        self.set(rd, alu(op, a, b));
    }

    /// Nothing is set.
    #[inline(always)]
    #[tactic(auto, unfolding(op_rv::specs::Step::act))]
    fn fence(&self, rd: u8, rs1: u8, bits: u32)
        ensures { Sets (Form.Fence rd rs1 bits) self.now.words self.now.words }
    {}

    /// Does a load, if one segment has all its bytes and they may be read.
    #[inline(always)]
    #[tactic(auto, unfolding(op_rv::specs::Step::act, op_rv::specs::Step::load))]
    fn load(
        &mut self,
        op: LoadOp,
        rd: u8,
        rs1: u8,
        offset: i32,
        lasts: &mut [u8; 32],
        segments: &[Segment],
    ) -> Next
        requires rd { rd < 32 }
        requires rs1 { rs1 < 32 }
        requires apart { IsTrue (lie_apart segments.now) }
        ensures { (base many k : ℕ) → NextIs (act (Form.Load op rd rs1 offset)) base many k self.old.words (regions_of segments.now) result self.new.words (regions_of segments.now) }
    {
        let at = address_at(self.get(rs1), offset);
        match load_within(segments, lasts, op, rs1, at) {
            Some(value) => {
                self.set(rd, value);
                Next::On
            }
            None => Next::Stayed,
        }
    }

    /// Does a store, if one segment has room for all its bytes and they may be written.
    #[inline(always)]
    #[tactic(auto, unfolding(op_rv::specs::Step::act, op_rv::specs::Step::store))]
    fn store(
        &self,
        op: StoreOp,
        rs1: u8,
        rs2: u8,
        offset: i32,
        lasts: &mut [u8; 32],
        segments: &mut [Segment],
    ) -> Next
        requires rs1 { rs1 < 32 }
        requires rs2 { rs2 < 32 }
        requires apart { IsTrue (lie_apart segments.old) }
        ensures next { (base many k : ℕ) → NextIs (act (Form.Store op rs1 rs2 offset)) base many k self.now.words (regions_of segments.old) result self.now.words (regions_of segments.new) }
        ensures apart { IsTrue (lie_apart segments.new) }
        ensures decoded { (base : ℕ) (rows : List Flat) → AreDecoded (regions_of segments.old) base rows → AreDecoded (regions_of segments.new) base rows }
    {
        let at = address_at(self.get(rs1), offset);
        let value = self.get(rs2);
        if store_within(segments, lasts, op, rs1, at, value) {
            Next::On
        } else {
            Next::Stayed
        }
    }

    /// Goes to a target among so many words from an address on, and leaves the address of the next word in rd.
    #[inline(always)]
    #[tactic(auto, unfolding(op_rv::specs::Step::act))]
    fn jal(&mut self, rd: u8, offset: i32, base: u32, many: usize, k: usize) -> Next
        requires rd { rd < 32 }
        requires near { base + 4 * many < 2 ^ 32 }
        requires inside { k < many }
        ensures { (regions : List Region) → NextIs (act (Form.Jal rd offset)) base many k self.old.words regions result self.new.words regions }
    {
        match place_at(k, offset, many) {
            Some(place) => {
                self.set(rd, base + 4 * k as u32 + 4);
                Next::To(place)
            }
            None => Next::Stayed,
        }
    }

    /// Goes to a target that a register tells, and leaves the address of the next word in rd.
    #[inline(always)]
    #[tactic(auto, unfolding(op_rv::specs::Step::act))]
    fn jalr(&mut self, rd: u8, rs1: u8, offset: i32, base: u32, many: usize, k: usize) -> Next
        requires rd { rd < 32 }
        requires rs1 { rs1 < 32 }
        requires near { base + 4 * many < 2 ^ 32 }
        requires inside { k < many }
        ensures { (regions : List Region) → NextIs (act (Form.Jalr rd rs1 offset)) base many k self.old.words regions result self.new.words regions }
    {
        let target = address_at(self.get(rs1), offset) / 2 * 2;
        match place_of(target, base, many) {
            Some(place) => {
                self.set(rd, base + 4 * k as u32 + 4);
                Next::To(place)
            }
            None => Next::Stayed,
        }
    }

    #[inline(always)]
    #[tactic(auto, unfolding(op_rv::specs::Step::act))]
    fn branch_on(
        &self,
        op: BranchOp,
        rs1: u8,
        rs2: u8,
        offset: i32,
        base: u32,
        many: usize,
        k: usize,
    ) -> Next
        requires rs1 { rs1 < 32 }
        requires rs2 { rs2 < 32 }
        requires near { base + 4 * many < 2 ^ 32 }
        requires inside { k < many }
        ensures { (regions : List Region) → NextIs (act (Form.Branch op rs1 rs2 offset)) base many k self.now.words regions result self.now.words regions }
    {
        if !is_taken(op, self.get(rs1), self.get(rs2)) {
            return Next::On;
        }
        match place_at(k, offset, many) {
            Some(place) => Next::To(place),
            None => Next::Stayed,
        }
    }
}

/// The place of an address among so many words from another on.
#[inline(always)]
fn place_of(at: u32, base: u32, many: usize) -> Option<usize>
    requires { base + 4 * many < 2 ^ 32 }
    ensures { IfSome result (λ place. (place < many) × (at ≡ base + 4 * place)) }
{
    if at < base || (at - base) % 4 != 0 {
        return None;
    }
    let place = ((at - base) / 4) as usize;
    if place < many { Some(place) } else { None }
}

/// The place of the word at a distance in bytes from the one at a place, among so many.
#[inline(always)]
fn place_at(k: usize, offset: i32, many: usize) -> Option<usize>
    requires near { 4 * many < 2 ^ 32 }
    requires inside { k < many }
    ensures { IfSome result (λ place. (place < many) × (4 * place ≡ (4 * k + word_from offset) % 2 ^ 32)) }
{
    let distance = (4 * k as u32).wrapping_add(word_of(offset));
    if distance % 4 != 0 {
        return None;
    }
    let place = (distance / 4) as usize;
    if place < many { Some(place) } else { None }
}

/// Does the instruction of a row, the one at a place of so many from an address on, if it can.
#[inline(always)]
fn quick(
    row: Row,
    base: u32,
    many: usize,
    k: usize,
    registers: &mut Registers,
    lasts: &mut [u8; 32],
    segments: &mut [Segment],
) -> Next
    requires fit { RowFits row }
    requires near { base + 4 * many < 2 ^ 32 }
    requires inside { k < many }
    requires apart { IsTrue (lie_apart segments.old) }
    ensures goes { RowGoes row base many k registers.old.words (regions_of segments.old) result registers.new.words (regions_of segments.new) }
    ensures apart { IsTrue (lie_apart segments.new) }
    ensures decoded { (start : ℕ) (rows : List Flat) → AreDecoded (regions_of segments.old) start rows → AreDecoded (regions_of segments.new) start rows }
{
    match row {
        Row::Other => Next::Stayed,
        Row::Lui { rd, upper } => {
            registers.lui(rd, upper);
            Next::On
        }
        Row::Auipc { rd, upper } => {
            registers.auipc(rd, upper, base + 4 * k as u32);
            Next::On
        }
        Row::Jal { rd, offset } => registers.jal(rd, offset, base, many, k),
        Row::Jalr { rd, rs1, offset } => registers.jalr(rd, rs1, offset, base, many, k),
        Row::Beq { rs1, rs2, offset } => registers.branch_on(
            BranchOp::Beq,
            rs1,
            rs2,
            offset,
            base,
            many,
            k,
        ),
        Row::Bne { rs1, rs2, offset } => registers.branch_on(
            BranchOp::Bne,
            rs1,
            rs2,
            offset,
            base,
            many,
            k,
        ),
        Row::Blt { rs1, rs2, offset } => registers.branch_on(
            BranchOp::Blt,
            rs1,
            rs2,
            offset,
            base,
            many,
            k,
        ),
        Row::Bge { rs1, rs2, offset } => registers.branch_on(
            BranchOp::Bge,
            rs1,
            rs2,
            offset,
            base,
            many,
            k,
        ),
        Row::Bltu { rs1, rs2, offset } => registers.branch_on(
            BranchOp::Bltu,
            rs1,
            rs2,
            offset,
            base,
            many,
            k,
        ),
        Row::Bgeu { rs1, rs2, offset } => registers.branch_on(
            BranchOp::Bgeu,
            rs1,
            rs2,
            offset,
            base,
            many,
            k,
        ),
        Row::Lb { rd, rs1, offset } => registers.load(LoadOp::Lb, rd, rs1, offset, lasts, segments),
        Row::Lh { rd, rs1, offset } => registers.load(LoadOp::Lh, rd, rs1, offset, lasts, segments),
        Row::Lw { rd, rs1, offset } => registers.load(LoadOp::Lw, rd, rs1, offset, lasts, segments),
        Row::Lbu { rd, rs1, offset } => registers.load(
            LoadOp::Lbu,
            rd,
            rs1,
            offset,
            lasts,
            segments,
        ),
        Row::Lhu { rd, rs1, offset } => registers.load(
            LoadOp::Lhu,
            rd,
            rs1,
            offset,
            lasts,
            segments,
        ),
        Row::Sb { rs1, rs2, offset } => registers.store(
            StoreOp::Sb,
            rs1,
            rs2,
            offset,
            lasts,
            segments,
        ),
        Row::Sh { rs1, rs2, offset } => registers.store(
            StoreOp::Sh,
            rs1,
            rs2,
            offset,
            lasts,
            segments,
        ),
        Row::Sw { rs1, rs2, offset } => registers.store(
            StoreOp::Sw,
            rs1,
            rs2,
            offset,
            lasts,
            segments,
        ),
        Row::Addi { rd, rs1, imm } => {
            registers.imm(ImmOp::Addi, rd, rs1, imm);
            Next::On
        }
        Row::Slti { rd, rs1, imm } => {
            registers.imm(ImmOp::Slti, rd, rs1, imm);
            Next::On
        }
        Row::Sltiu { rd, rs1, imm } => {
            registers.imm(ImmOp::Sltiu, rd, rs1, imm);
            Next::On
        }
        Row::Xori { rd, rs1, imm } => {
            registers.imm(ImmOp::Xori, rd, rs1, imm);
            Next::On
        }
        Row::Ori { rd, rs1, imm } => {
            registers.imm(ImmOp::Ori, rd, rs1, imm);
            Next::On
        }
        Row::Andi { rd, rs1, imm } => {
            registers.imm(ImmOp::Andi, rd, rs1, imm);
            Next::On
        }
        Row::Slli { rd, rs1, amount } => {
            registers.shift(ShiftOp::Slli, rd, rs1, amount);
            Next::On
        }
        Row::Srli { rd, rs1, amount } => {
            registers.shift(ShiftOp::Srli, rd, rs1, amount);
            Next::On
        }
        Row::Srai { rd, rs1, amount } => {
            registers.shift(ShiftOp::Srai, rd, rs1, amount);
            Next::On
        }
        Row::Add { rd, rs1, rs2 } => {
            registers.alu(AluOp::Add, rd, rs1, rs2);
            Next::On
        }
        Row::Sub { rd, rs1, rs2 } => {
            registers.alu(AluOp::Sub, rd, rs1, rs2);
            Next::On
        }
        Row::Sll { rd, rs1, rs2 } => {
            registers.alu(AluOp::Sll, rd, rs1, rs2);
            Next::On
        }
        Row::Slt { rd, rs1, rs2 } => {
            registers.alu(AluOp::Slt, rd, rs1, rs2);
            Next::On
        }
        Row::Sltu { rd, rs1, rs2 } => {
            registers.alu(AluOp::Sltu, rd, rs1, rs2);
            Next::On
        }
        Row::Xor { rd, rs1, rs2 } => {
            registers.alu(AluOp::Xor, rd, rs1, rs2);
            Next::On
        }
        Row::Srl { rd, rs1, rs2 } => {
            registers.alu(AluOp::Srl, rd, rs1, rs2);
            Next::On
        }
        Row::Sra { rd, rs1, rs2 } => {
            registers.alu(AluOp::Sra, rd, rs1, rs2);
            Next::On
        }
        Row::Or { rd, rs1, rs2 } => {
            registers.alu(AluOp::Or, rd, rs1, rs2);
            Next::On
        }
        Row::And { rd, rs1, rs2 } => {
            registers.alu(AluOp::And, rd, rs1, rs2);
            Next::On
        }
        Row::Mul { rd, rs1, rs2 } => {
            registers.alu(AluOp::Mul, rd, rs1, rs2);
            Next::On
        }
        Row::Mulh { rd, rs1, rs2 } => {
            registers.alu(AluOp::Mulh, rd, rs1, rs2);
            Next::On
        }
        Row::Mulhsu { rd, rs1, rs2 } => {
            registers.alu(AluOp::Mulhsu, rd, rs1, rs2);
            Next::On
        }
        Row::Mulhu { rd, rs1, rs2 } => {
            registers.alu(AluOp::Mulhu, rd, rs1, rs2);
            Next::On
        }
        Row::Div { rd, rs1, rs2 } => {
            registers.alu(AluOp::Div, rd, rs1, rs2);
            Next::On
        }
        Row::Divu { rd, rs1, rs2 } => {
            registers.alu(AluOp::Divu, rd, rs1, rs2);
            Next::On
        }
        Row::Rem { rd, rs1, rs2 } => {
            registers.alu(AluOp::Rem, rd, rs1, rs2);
            Next::On
        }
        Row::Remu { rd, rs1, rs2 } => {
            registers.alu(AluOp::Remu, rd, rs1, rs2);
            Next::On
        }
        Row::Fence { rd, rs1, bits } => {
            registers.fence(rd, rs1, bits);
            Next::On
        }
    }
}

/// Does steps over words that were decoded ahead, from the one at a place on, at most so many. It answers how many it did
/// and at which place it stopped. A step is counted where the place is: `credit` and the place less the number of words is
/// what was done, so that going on to the next word is one addition, and only a jump has to be told from the last step.
#[inline(never)]
pub(crate) fn glide(
    rows: &[Row],
    base: u32,
    from: usize,
    most: u64,
    registers: &mut Registers,
    segments: &mut [Segment],
) -> (u64, usize)
    requires inside { from < length rows.now }
    requires apart { IsTrue (lie_apart segments.old) }
    requires decoded { AreDecoded (regions_of segments.old) base rows.now }
    ensures bounded { result.0 ≤ most }
    ensures inside { result.1 < length rows.now }
    ensures goes { Goes (after result.0) registers.old.words (base + 4 * from) (regions_of segments.old) registers.new.words (base + 4 * result.1) (regions_of segments.new) }
    ensures apart { IsTrue (lie_apart segments.new) }
    ensures decoded { (start : ℕ) (rows : List Flat) → AreDecoded (regions_of segments.old) start rows → AreDecoded (regions_of segments.new) start rows }
{
    let many = rows.len();
    let limit = most.min(1 << 62);
    if limit < many as u64 {
        return (0, from);
    }
    let mut words = *registers;
    let mut lasts = [0; 32];
    let mut k = from;
    let mut credit = (many - from) as u64;
    'steps: loop {
        match quick(rows[k], base, many, k, &mut words, &mut lasts, segments) {
            Next::On => k += 1,
            Next::To(place) => {
                credit = credit + (k + 1) as u64 - place as u64;
                k = place;
                if credit > limit {
                    *registers = words;
                    return (credit + k as u64 - many as u64, k);
                }
            }
            Next::Stayed => {
                *registers = words;
                return (credit + k as u64 - many as u64, k);
            }
        }
    }
}

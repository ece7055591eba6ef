//! Low code as text: an instruction a line, whose registers, blocks and routines are their numbers.

use crate::operands::{Operands, find, first_word, natural_of};
use crate::parts::{Parts, RoutineLines};
use op_base::Sequence;
use op_low::{Block, Call, Counts, Instruction, Low, Output, Routine, VirtualRegister};
use op_rv::{AluOp, BlockId, BranchOp, ImmOp, LoadOp, RoutineId, ShiftOp, StoreOp};
use std::alloc::{AllocError, Global};
use std::mem;

const OPERATIONS: [(&str, AluOp); 18] = [
    ("add", AluOp::Add),
    ("sub", AluOp::Sub),
    ("sll", AluOp::Sll),
    ("slt", AluOp::Slt),
    ("sltu", AluOp::Sltu),
    ("xor", AluOp::Xor),
    ("srl", AluOp::Srl),
    ("sra", AluOp::Sra),
    ("or", AluOp::Or),
    ("and", AluOp::And),
    ("mul", AluOp::Mul),
    ("mulh", AluOp::Mulh),
    ("mulhsu", AluOp::Mulhsu),
    ("mulhu", AluOp::Mulhu),
    ("div", AluOp::Div),
    ("divu", AluOp::Divu),
    ("rem", AluOp::Rem),
    ("remu", AluOp::Remu),
];

const IMMEDIATES: [(&str, ImmOp); 6] = [
    ("addi", ImmOp::Addi),
    ("slti", ImmOp::Slti),
    ("sltiu", ImmOp::Sltiu),
    ("xori", ImmOp::Xori),
    ("ori", ImmOp::Ori),
    ("andi", ImmOp::Andi),
];

const SHIFTS: [(&str, ShiftOp); 3] = [
    ("slli", ShiftOp::Slli),
    ("srli", ShiftOp::Srli),
    ("srai", ShiftOp::Srai),
];

const LOADS: [(&str, LoadOp); 5] = [
    ("lb", LoadOp::Lb),
    ("lh", LoadOp::Lh),
    ("lw", LoadOp::Lw),
    ("lbu", LoadOp::Lbu),
    ("lhu", LoadOp::Lhu),
];

const STORES: [(&str, StoreOp); 3] = [
    ("sb", StoreOp::Sb),
    ("sh", StoreOp::Sh),
    ("sw", StoreOp::Sw),
];

pub const BRANCHES: [(&str, BranchOp); 6] = [
    ("beq", BranchOp::Beq),
    ("bne", BranchOp::Bne),
    ("blt", BranchOp::Blt),
    ("bge", BranchOp::Bge),
    ("bltu", BranchOp::Bltu),
    ("bgeu", BranchOp::Bgeu),
];

/// An instruction that computes.
fn computing(name: &str, operands: Operands) -> Option<Instruction> {
    let to = operands.register(0);
    let left = operands.register(1);
    if let Some(op) = find(&OPERATIONS, name) {
        let right = operands.register(2);
        return Some(Instruction::Alu {
            op,
            to,
            left,
            right,
        });
    }
    if let Some(op) = find(&IMMEDIATES, name) {
        let imm = operands.signed(2);
        return Some(Instruction::AluImm { op, to, left, imm });
    }
    let op = find(&SHIFTS, name)?;
    let amount = operands.byte(2);
    Some(Instruction::Shift {
        op,
        to,
        left,
        amount,
    })
}

/// An instruction that moves a value.
fn moving(name: &str, operands: Operands) -> Option<Instruction> {
    let to = operands.register(0);
    let base = operands.register(1);
    let offset = operands.signed(2);
    if let Some(op) = find(&LOADS, name) {
        return Some(Instruction::Load {
            op,
            to,
            base,
            offset,
        });
    }
    if let Some(op) = find(&STORES, name) {
        let value = to;
        return Some(Instruction::Store {
            op,
            value,
            base,
            offset,
        });
    }
    match name {
        "const" => Some(Instruction::Const {
            to,
            value: operands.natural(1),
        }),
        "address" => Some(Instruction::Address {
            to,
            symbol: operands.symbol(1)?,
        }),
        "local" => Some(Instruction::Local {
            to,
            offset: operands.natural(1),
        }),
        "move" => Some(Instruction::Move { to, from: base }),
        _ => None,
    }
}

/// An instruction that goes elsewhere, or out of the program.
fn going(name: &str, operands: Operands) -> Option<Instruction> {
    if let Some(op) = find(&BRANCHES, name) {
        return Some(Instruction::Branch {
            op,
            left: operands.register(0),
            right: operands.register(1),
            block: BlockId(operands.natural(2)),
        });
    }
    let first = operands.register(0);
    let buffer = operands.register(1);
    let length = operands.register(2);
    let output = if operands.word(0) == "errors" {
        Output::Errors
    } else {
        Output::Console
    };
    match name {
        "jump" => Some(Instruction::Jump {
            block: BlockId(operands.natural(0)),
        }),
        "return" => Some(Instruction::Return { value: first }),
        "raise" => Some(Instruction::Raise),
        "exit" => Some(Instruction::Exit { status: first }),
        "read" => Some(Instruction::Read {
            to: first,
            buffer,
            length,
        }),
        "write" => Some(Instruction::Write {
            output,
            buffer,
            length,
        }),
        _ => None,
    }
}

/// An instruction that calls no routine.
fn plain(name: &str, operands: Operands) -> Option<Instruction> {
    match computing(name, operands) {
        Some(found) => Some(found),
        None => match moving(name, operands) {
            Some(found) => Some(found),
            None => going(name, operands),
        },
    }
}

/// The arguments, the value's register and the landing of a call, behind what is called.
fn call(alloc: Global, operands: Operands) -> Result<Call, AllocError> {
    let mut arguments = Vec::new(alloc);
    for word in operands.0.split_ascii_whitespace().skip(3) {
        arguments.push(VirtualRegister(natural_of(word)))?;
    }
    Ok(Call {
        arguments: Sequence::from(arguments),
        to: operands.register(1),
        landing: operands.landing(2),
    })
}

/// `call R T L A..` calls the routine R with the arguments A, puts its value in T, and lands at the block L; `callat` calls the
/// one at the address in R.
fn instruction(alloc: Global, line: &str) -> Result<Option<Instruction>, AllocError> {
    let (name, rest) = first_word(line);
    let operands = Operands(rest);
    match name {
        "call" => Ok(Some(Instruction::Call {
            routine: RoutineId(operands.natural(0)),
            call: call(alloc, operands)?,
        })),
        "callat" => Ok(Some(Instruction::CallAt {
            address: operands.register(0),
            call: call(alloc, operands)?,
        })),
        _ => Ok(plain(name, operands)),
    }
}

/// `None` where a line is no instruction.
fn block(alloc: Global, lines: &[&str]) -> Result<Option<Block>, AllocError> {
    let mut code = Vec::new(alloc);
    for line in lines {
        match instruction(alloc, *line)? {
            Some(found) => code.push(found)?,
            None => return Ok(None),
        }
    }
    Ok(Some(Block {
        code: Sequence::from(code),
    }))
}

/// A routine of so many parameters, registers and bytes of locals.
fn routine(alloc: Global, lines: &RoutineLines) -> Result<Option<Routine>, AllocError> {
    let mut blocks = Vec::new(alloc);
    for lines in lines.blocks.as_slice() {
        match block(alloc, lines.as_slice())? {
            Some(found) => blocks.push(found)?,
            None => return Ok(None),
        }
    }
    let numbers = Operands(lines.numbers);
    Ok(Some(Routine {
        parameters: numbers.natural(0),
        registers: numbers.natural(1),
        locals: numbers.natural(2),
        blocks: Sequence::from(blocks),
    }))
}

/// The low code of a text; `None` where a line of a block is no instruction.
pub fn low_code(alloc: Global, parts: &mut Parts) -> Result<Option<Low>, AllocError> {
    let mut routines = Vec::new(alloc);
    for lines in parts.routines.as_slice() {
        match routine(alloc, lines)? {
            Some(found) => routines.push(found)?,
            None => return Ok(None),
        }
    }
    let globals = mem::replace(&mut parts.globals, Vec::new(alloc));
    Ok(Some(Low {
        routines: Sequence::from(routines),
        entry: RoutineId(0),
        counts: parts.counts,
        globals: Sequence::from(globals),
    }))
}

//! Items as an assembler writes them.

use op_rv::{Instr, Item, Symbol};
use std::alloc::{AllocError, Global};

/// An instruction as an assembler writes it.
fn plain_line(alloc: Global, instr: Instr) -> Result<String, AllocError> {
    match instr {
        Instr::Lui { rd, upper } => format!(in alloc; "Lui x{rd}, {upper}"),
        Instr::Jalr { rd, rs1, offset } => format!(in alloc; "Jalr x{rd}, {offset}(x{rs1})"),
        Instr::Branch {
            op,
            rs1,
            rs2,
            offset,
        } => format!(in alloc; "{op:?} x{rs1}, x{rs2}, {offset}"),
        Instr::Load {
            op,
            rd,
            rs1,
            offset,
        } => format!(in alloc; "{op:?} x{rd}, {offset}(x{rs1})"),
        Instr::Store {
            op,
            rs1,
            rs2,
            offset,
        } => format!(in alloc; "{op:?} x{rs2}, {offset}(x{rs1})"),
        Instr::Imm { op, rd, rs1, imm } => format!(in alloc; "{op:?} x{rd}, x{rs1}, {imm}"),
        Instr::Shift {
            op,
            rd,
            rs1,
            amount,
        } => format!(in alloc; "{op:?} x{rd}, x{rs1}, {amount}"),
        Instr::Alu { op, rd, rs1, rs2 } => format!(in alloc; "{op:?} x{rd}, x{rs1}, x{rs2}"),
        other => format!(in alloc; "{other:?}"),
    }
}

fn kind_and_number(symbol: Symbol) -> (&'static str, u32) {
    match symbol {
        Symbol::Literal(id) => ("literal", id.0),
        Symbol::Table(id) => ("table", id.0),
        Symbol::Descriptor(id) => ("descriptor", id.0),
        Symbol::Global(id) => ("global", id.0),
        Symbol::Routine(id) => ("routine", id.0),
    }
}

/// An item as an assembler writes it.
fn line(alloc: Global, item: Item) -> Result<String, AllocError> {
    match item {
        Item::Plain(instr) => plain_line(alloc, instr),
        Item::Address { rd, symbol } => {
            let (kind, number) = kind_and_number(symbol);
            format!(in alloc; "la x{rd}, {kind} {number}")
        }
        Item::Branch {
            op,
            left,
            right,
            block,
        } => format!(in alloc; "{op:?} x{left}, x{right}, block {}", block.0),
        Item::Jump { block } => format!(in alloc; "j block {}", block.0),
        Item::Call {
            routine,
            landing: Some(block),
        } => format!(in alloc; "call routine {}, landing {}", routine.0, block.0),
        Item::Call { routine, .. } => format!(in alloc; "call routine {}", routine.0),
        Item::CallAt {
            landing: Some(block),
        } => format!(in alloc; "call x1, landing {}", block.0),
        Item::CallAt { .. } => format!(in alloc; "call x1"),
    }
}

/// The items in a line.
pub fn lines_of(alloc: Global, items: &[Item]) -> Result<String, AllocError> {
    let mut text = String::new(alloc);
    for item in items {
        if !text.is_empty() {
            text.push_str("; ")?;
        }
        text.push_str(line(alloc, *item)?.as_str())?;
    }
    Ok(text)
}

//! Objects as text: an item a line. What stands in front of a routine's first `block` is its head.

use crate::low_text::BRANCHES;
use crate::operands::{Operands, find, first_word};
use crate::parts::Parts;
use op_base::Sequence;
use op_rv::{BlockId, Instr, Item, ObjectBlock, ObjectRoutine, Objects, RoutineId, decode};
use std::alloc::{AllocError, Global};
use std::mem;

/// A branch, a jump, a call, an address, or the word of an instruction.
fn item(name: &str, operands: Operands) -> Option<Item> {
    if let Some(op) = find(&BRANCHES, name) {
        return Some(Item::Branch {
            op,
            left: operands.byte(0),
            right: operands.byte(1),
            block: BlockId(operands.natural(2)),
        });
    }
    match name {
        "jump" => Some(Item::Jump {
            block: BlockId(operands.natural(0)),
        }),
        "call" => Some(Item::Call {
            routine: RoutineId(operands.natural(0)),
            landing: operands.landing(1),
        }),
        "callat" => Some(Item::CallAt {
            landing: operands.landing(0),
        }),
        "address" => Some(Item::Address {
            rd: operands.byte(0),
            symbol: operands.symbol(1)?,
        }),
        "lui" => Some(Item::Plain(Instr::Lui {
            rd: operands.byte(0),
            upper: operands.natural(1),
        })),
        _ => Some(Item::Plain(decode(u32::from_str_radix(name, 16).ok()?)?)),
    }
}

/// `None` where a line is no item.
fn items(alloc: Global, lines: &[&str]) -> Result<Option<Sequence<Item>>, AllocError> {
    let mut items = Vec::new(alloc);
    for line in lines {
        let (name, rest) = first_word(*line);
        match item(name, Operands(rest)) {
            Some(found) => items.push(found)?,
            None => return Ok(None),
        }
    }
    Ok(Some(Sequence::from(items)))
}

fn routine(alloc: Global, lines: &[Vec<&str>]) -> Result<Option<ObjectRoutine>, AllocError> {
    let mut head = Sequence::from(Vec::new(alloc));
    let mut blocks = Vec::new(alloc);
    for (number, lines) in lines.iter().enumerate() {
        match items(alloc, lines.as_slice())? {
            Some(items) if number == 0 => head = items,
            Some(items) => blocks.push(ObjectBlock { items })?,
            None => return Ok(None),
        }
    }
    let blocks = Sequence::from(blocks);
    Ok(Some(ObjectRoutine { head, blocks }))
}

/// The objects of a text; `None` where a line of a block is no item.
pub fn objects(alloc: Global, parts: &mut Parts) -> Result<Option<Objects>, AllocError> {
    let mut routines = Vec::new(alloc);
    for lines in parts.routines.as_slice() {
        match routine(alloc, lines.blocks.as_slice())? {
            Some(found) => routines.push(found)?,
            None => return Ok(None),
        }
    }
    let globals = mem::replace(&mut parts.globals, Vec::new(alloc));
    Ok(Some(Objects {
        routines: Sequence::from(routines),
        entry: RoutineId(0),
        globals: Sequence::from(globals),
    }))
}

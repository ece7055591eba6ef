//! The words of a line.

use op_low::VirtualRegister;
use op_rv::{BlockId, DescriptorId, GlobalId, LiteralId, RoutineId, Symbol, TableId};
use std::alloc::{AllocError, Global};

/// A line's first word, and what stands behind it.
pub fn first_word(line: &str) -> (&str, &str) {
    line.split_once(' ').unwrap_or((line, ""))
}

/// A number in decimal, or in hexadecimal digits behind `0x`; 0 where the word is none.
pub fn natural_of(word: &str) -> u32 {
    match word.strip_prefix("0x") {
        Some(digits) => u32::from_str_radix(digits, 16).unwrap_or(0),
        None => word.parse::<u32>().unwrap_or(0),
    }
}

/// The words behind the first one of a line. One that is missing or no number of its type counts as 0.
#[derive(Clone, Copy)]
pub struct Operands<'a>(pub &'a str);

impl<'a> Operands<'a> {
    pub fn word(self, place: usize) -> &'a str {
        self.0.split_ascii_whitespace().nth(place).unwrap_or("")
    }

    pub fn natural(self, place: usize) -> u32 {
        natural_of(self.word(place))
    }

    pub fn signed(self, place: usize) -> i32 {
        self.word(place).parse::<i32>().unwrap_or(0)
    }

    pub fn byte(self, place: usize) -> u8 {
        self.word(place).parse::<u8>().unwrap_or(0)
    }

    pub fn register(self, place: usize) -> VirtualRegister {
        VirtualRegister(self.natural(place))
    }

    /// The landing of a call: the number of its block, or `-` for none.
    pub fn landing(self, place: usize) -> Option<BlockId> {
        match self.word(place) {
            "-" => None,
            word => Some(BlockId(natural_of(word))),
        }
    }

    /// A kind of symbol, and behind it its number.
    pub fn symbol(self, place: usize) -> Option<Symbol> {
        let number = self.natural(place.saturating_add(1));
        match self.word(place) {
            "literal" => Some(Symbol::Literal(LiteralId(number))),
            "table" => Some(Symbol::Table(TableId(number))),
            "descriptor" => Some(Symbol::Descriptor(DescriptorId(number))),
            "global" => Some(Symbol::Global(GlobalId(number))),
            "routine" => Some(Symbol::Routine(RoutineId(number))),
            _ => None,
        }
    }

    /// The bytes from a place on.
    pub fn bytes(self, alloc: Global, place: usize) -> Result<Vec<u8>, AllocError> {
        let mut bytes = Vec::new(alloc);
        for word in self.0.split_ascii_whitespace().skip(place) {
            bytes.push(word.parse::<u8>().unwrap_or(0))?;
        }
        Ok(bytes)
    }
}

/// The value that stands beside a name in a table.
pub fn find<T: Copy>(table: &[(&str, T)], name: &str) -> Option<T> {
    for (found, value) in table {
        if *found == name {
            return Some(*value);
        }
    }
    None
}

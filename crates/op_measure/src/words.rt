//! The words of code, and what each is decoded to.

use op_rv::decode;
use std::alloc::{AllocError, Global};
use std::io;

/// The word that four bytes make, the lowest one first. Those that are missing count as 0.
pub fn word_of(piece: &[u8]) -> u32 {
    match piece {
        [a, b, c, d, ..] => u32::from_le_bytes([*a, *b, *c, *d]),
        [a, b, c] => u32::from_le_bytes([*a, *b, *c, 0]),
        [a, b] => u32::from_le_bytes([*a, *b, 0, 0]),
        [a] => *a as u32,
        [] => 0,
    }
}

/// The instruction that a word is, or a dash.
pub fn row(alloc: Global, word: u32) -> Result<String, AllocError> {
    match decode(word) {
        Some(instruction) => format!(in alloc; "{instruction:?}"),
        None => format!(in alloc; "-"),
    }
}

/// A line for each word: its eight digits, and what it is decoded to.
pub fn tell(rt: &HostRuntime, code: &[u8]) -> io::Result<()> {
    for piece in code.chunks(4) {
        let word = word_of(piece);
        let row = row(rt.alloc(), word)?;
        println!(rt; "{word:08x} {row}")?;
    }
    Ok(())
}

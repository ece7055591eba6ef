//! The parts of a program that is written as text: its constants, its globals, and the lines of its routines.

use crate::operands::{Operands, first_word, natural_of};
use op_base::{NoMemory, Sequence, Text};
use op_layout::Layout;
use op_low::Counts;
use op_rv::{GlobalVariable, RoutineId};
use std::alloc::{AllocError, Global};

/// A routine: the numbers behind its name, and the lines of its blocks.
#[derive(Drop)]
pub struct RoutineLines<'a> {
    pub numbers: &'a str,
    pub blocks: Vec<Vec<&'a str>>,
}

/// A program as text. A line `routine` begins a routine with its first block, a line `block` the next one, and `times N` stands
/// before a line that is meant so often. The bytes of a constant stand behind `literal`, or it is `blank N`, of N zeros; a
/// `global N` has N zeros behind its bytes; a `table` has routines; and `counts` tells how many literals, tables and descriptors low
/// code may name.
#[derive(Drop)]
pub struct Parts<'a> {
    pub routines: Vec<RoutineLines<'a>>,
    pub globals: Vec<GlobalVariable>,
    pub counts: Counts,
    literals: Vec<Vec<u8>>,
    /// What the one table holds.
    entries: Vec<RoutineId>,
}

impl<'a> Parts<'a> {
    pub fn read(alloc: Global, text: &'a str) -> Result<Parts<'a>, AllocError> {
        let mut parts = Parts {
            routines: Vec::new(alloc),
            globals: Vec::new(alloc),
            counts: Counts {
                literals: 0,
                tables: 0,
                descriptors: 0,
            },
            literals: Vec::new(alloc),
            entries: Vec::new(alloc),
        };
        for line in text.lines() {
            parts.take(alloc, line)?;
        }
        Ok(parts)
    }

    /// Takes one line more.
    fn take(&mut self, alloc: Global, line: &'a str) -> Result<(), AllocError> {
        let (word, rest) = first_word(line);
        match word {
            "routine" => self.begin_routine(alloc, rest),
            "block" => self.begin_block(alloc),
            "times" => self.add_times(rest),
            "literal" | "blank" | "global" => self.take_bytes(alloc, word, Operands(rest)),
            "table" => self.take_table(Operands(rest)),
            "counts" => {
                self.take_counts(Operands(rest));
                Ok(())
            }
            _ => self.add(line),
        }
    }

    fn begin_routine(&mut self, alloc: Global, numbers: &'a str) -> Result<(), AllocError> {
        let blocks = Vec::new(alloc);
        self.routines.push(RoutineLines { numbers, blocks })?;
        self.begin_block(alloc)
    }

    fn begin_block(&mut self, alloc: Global) -> Result<(), AllocError> {
        match self.routines.last_mut() {
            Some(routine) => Ok(routine.blocks.push(Vec::new(alloc))?),
            None => Ok(()),
        }
    }

    /// Puts a line at the end of the last block.
    fn add(&mut self, line: &'a str) -> Result<(), AllocError> {
        if let Some(routine) = self.routines.last_mut() {
            if let Some(block) = routine.blocks.last_mut() {
                block.push(line)?;
            }
        }
        Ok(())
    }

    /// Puts the line behind a number at the end of the last block, so often.
    fn add_times(&mut self, rest: &'a str) -> Result<(), AllocError> {
        let (number, line) = first_word(rest);
        for _turn in 0..natural_of(number) {
            self.add(line)?;
        }
        Ok(())
    }

    fn take_bytes(
        &mut self,
        alloc: Global,
        word: &str,
        operands: Operands<'_>,
    ) -> Result<(), AllocError> {
        match word {
            "literal" => self.add_literal(operands.bytes(alloc, 0)?),
            "blank" => self.add_literal(vec![in alloc; 0; operands.natural(0) as usize]?),
            _ => self.add_global(operands.bytes(alloc, 1)?, operands.natural(0)),
        }
    }

    fn add_literal(&mut self, bytes: Vec<u8>) -> Result<(), AllocError> {
        Ok(self.literals.push(bytes)?)
    }

    fn add_global(&mut self, bytes: Vec<u8>, zeros: u32) -> Result<(), AllocError> {
        let initial = Sequence::from(bytes);
        Ok(self.globals.push(GlobalVariable { initial, zeros })?)
    }

    fn take_table(&mut self, operands: Operands<'_>) -> Result<(), AllocError> {
        for word in operands.0.split_ascii_whitespace() {
            self.entries.push(RoutineId(natural_of(word)))?;
        }
        Ok(())
    }

    fn take_counts(&mut self, operands: Operands<'_>) {
        self.counts = Counts {
            literals: operands.natural(0),
            tables: operands.natural(1),
            descriptors: operands.natural(2),
        };
    }

    /// The layout of the literals, and the table behind them.
    pub fn layout(&self, alloc: Global) -> Result<Layout, NoMemory> {
        let mut layout = Layout::of_literals(alloc, self.literals.as_slice())?;
        if !self.entries.is_empty() {
            let at = layout.bytes.as_slice().len();
            layout.entries = Sequence::from(Vec::from_slice(alloc, self.entries.as_slice())?);
            layout.tables = Sequence::from(vec![in alloc; at]?);
        }
        Ok(layout)
    }
}

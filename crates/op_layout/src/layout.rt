//! Where constants stand.
ghost use Rattle.std.specs.Prelude.{◌≡◌, IfOk, map};
ghost use Rattle.op_layout.specs.Places.{layout_of};

use op_base::{NoMemory, Sequence, Text};
use op_rv::RoutineId;
use std::alloc::Global;

/// Where a literal stands in the constants, in bytes from their beginning.
#[derive(Clone, Copy)]
pub struct LiteralPlace {
    pub offset: usize,
    pub length: usize,
}

/// The constants of a program. Offsets count from their beginning.
#[derive(Drop)]
pub struct Layout {
    /// Literals and descriptors. They do not change with the place of the constants.
    pub bytes: Text,
    /// What the tables hold, one table after the other: the routines whose addresses stand behind `bytes`.
    pub entries: Sequence<RoutineId>,
    /// The literals in the order of their numbers.
    pub literals: Sequence<LiteralPlace>,
    /// Where each table begins.
    pub tables: Sequence<usize>,
    /// Where each descriptor begins.
    pub descriptors: Sequence<usize>,
}

impl Layout {
    /// The literals one after the other, without tables or descriptors.
    pub fn of_literals(alloc: Global, literals: &[Vec<u8>]) -> Result<Layout, NoMemory>
        ensures { IfOk result (λ layout. layout ≡ layout_of (map (λ literal. literal.items) literals.now)) }
    {
        let mut bytes = Vec::new(alloc);
        let mut places = Vec::new(alloc);
        for literal in literals {
            places.push(LiteralPlace {
                offset: bytes.len(),
                length: literal.len(),
            })?;
            bytes.extend_from_slice(literal)?;
        }
        Ok(Layout {
            bytes: Text::from(bytes),
            entries: Sequence::from(Vec::new(alloc)),
            literals: Sequence::from(places),
            tables: Sequence::from(Vec::new(alloc)),
            descriptors: Sequence::from(Vec::new(alloc)),
        })
    }
}

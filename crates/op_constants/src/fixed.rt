//! The literals that every program has, in the order of their numbers.
ghost use Rattle.std.specs.Prelude.{◌≡◌, IfOk};
ghost use Rattle.op_constants.specs.Fixed.{fixed_literals};

use op_base::{NoMemory, Text};
use op_rv::LiteralId;
use std::alloc::Global;

/// `MOST_BLANKS` blanks.
pub const BLANKS: LiteralId = LiteralId(0);

/// What is written of True.
pub const TEXT_TRUE: LiteralId = LiteralId(1);

/// What is written of False.
pub const TEXT_FALSE: LiteralId = LiteralId(2);

/// The line of a division by zero.
pub const ERROR_200: LiteralId = LiteralId(3);

/// The line of a range check.
pub const ERROR_201: LiteralId = LiteralId(4);

/// The line of a stack overflow.
pub const ERROR_202: LiteralId = LiteralId(5);

/// The line of an arithmetic overflow.
pub const ERROR_215: LiteralId = LiteralId(6);

/// How many blanks the literal `BLANKS` has.
pub const MOST_BLANKS: u32 = 64;

/// The literals that every program has (Free Pascal User's Guide, "Run-time errors"; reference of the unit System, "Write").
pub fn fixed_literals(alloc: Global) -> Result<Vec<Text>, NoMemory>
    ensures { IfOk result (λ texts. texts.items ≡ fixed_literals) }
{
    let mut literals = Vec::new(alloc);
    literals.push(Text::copy_of(alloc, &[b' '; 64])?)?;
    literals.push(Text::copy_of(alloc, b"TRUE")?)?;
    literals.push(Text::copy_of(alloc, b"FALSE")?)?;
    literals.push(Text::copy_of(alloc, b"Runtime error 200\n")?)?;
    literals.push(Text::copy_of(alloc, b"Runtime error 201\n")?)?;
    literals.push(Text::copy_of(alloc, b"Runtime error 202\n")?)?;
    literals.push(Text::copy_of(alloc, b"Runtime error 215\n")?)?;
    Ok(literals)
}

//! The numbers of the run-time routines and of the literals that they write.

use op_rv::{LiteralId, RoutineId};

/// How many there are.
pub const RUNTIME: u32 = 9;

/// `(to, size)`: takes the address of a value from where the value is to go, which is a multiple of 4, and copies it there.
pub const TAKE: RoutineId = RoutineId(0);

/// `(to, from, count)`: copies `count` bytes, the first one first. Both addresses and the count are multiples of 4.
pub const COPY_WORDS: RoutineId = RoutineId(1);

/// `(to, from, count)`: copies `count` bytes, the first one first.
pub const COPY_BYTES: RoutineId = RoutineId(2);

/// `(count)`: writes so many blanks; `count` has a sign, and for one of 0 or less there are none.
pub const WRITE_BLANKS: RoutineId = RoutineId(3);

/// `(address, length, width)`: writes `length` bytes of memory, with blanks in front up to `width`, which has a sign.
pub const WRITE_BYTES: RoutineId = RoutineId(4);

/// `(value, width)`: writes a number with a sign in decimal.
pub const WRITE_NUMBER: RoutineId = RoutineId(5);

/// `(value, width)`: writes `FALSE` for 0 and else `TRUE`.
pub const WRITE_TRUTH: RoutineId = RoutineId(6);

/// `(value, width)`: writes the byte that the low eight bits are.
pub const WRITE_CHAR: RoutineId = RoutineId(7);

/// `(to, count)`: puts `count` zeros in memory, one at least. The address and the count are multiples of 4.
pub const CLEAR: RoutineId = RoutineId(8);

/// The literal of 64 blanks.
pub const BLANKS: LiteralId = LiteralId(0);

/// The literal `TRUE`.
pub const TRUE_TEXT: LiteralId = LiteralId(1);

/// The literal `FALSE`.
pub const FALSE_TEXT: LiteralId = LiteralId(2);

//! Where the heap and its control region begin, and the literal of the error.

use op_rv::LiteralId;

/// Where the control region begins: the words that link holes and free slots, and the rows of slots.
pub const CONTROL_ADDRESS: u32 = 0x0800_0000;

/// Where the heap begins.
pub const HEAP_ADDRESS: u32 = 0x1000_0000;

/// The literal with the line of run-time error 203, behind the seven that every program has.
pub const ERROR_TEXT: LiteralId = LiteralId(7);

//! The end of a program with run-time error 203.

use crate::ids::ERROR_TEXT;
use crate::parts::Fixed;
use op_low::{Output, VirtualRegister};
use op_rv::Symbol;

/// The length of the line, and then the status.
const NUMBER: VirtualRegister = VirtualRegister(1);

const TEXT: VirtualRegister = VirtualRegister(3);

/// Writes the line of the error and ends the program.
pub const FAILS: [Fixed; 5] = [
    Fixed::Address(TEXT, Symbol::Literal(ERROR_TEXT)),
    Fixed::Const(NUMBER, 18),
    Fixed::Write(Output::Errors, TEXT, NUMBER),
    Fixed::Const(NUMBER, 203),
    Fixed::Exit(NUMBER),
];

//! The registers that selected code uses, by their names in the manual.

pub const X0: u8 = 0;

/// The return address; free between two items.
pub const RA: u8 = 1;

/// The lowest address of the frame.
pub const SP: u8 = 2;

/// The first address above what low code may use.
pub const S0: u8 = 8;

pub const A0: u8 = 10;

pub const A1: u8 = 11;

pub const A2: u8 = 12;

pub const A7: u8 = 17;

/// The first of the homes of virtual registers.
pub const S2: u8 = 18;

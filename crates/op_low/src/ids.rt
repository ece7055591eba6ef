//! The registers of low code.

/// A virtual register of a routine, counted from 0. The first ones are its parameters, in order.
#[derive(Clone, Copy)]
pub struct VirtualRegister(pub u32);

//! The numbers by which temporaries and variables of an activation are named. Each counts from 0.

/// A temporary of an activation that is one value.
#[derive(Clone, Copy)]
pub struct TemporaryId(pub u32);

/// A variable of a routine, in the order of the routine's rows: its object, its parameters, its result, and then its locals.
#[derive(Clone, Copy)]
pub struct LocalId(pub u32);

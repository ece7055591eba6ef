//! Temporaries that are no numbers.

use op_core::TypeId;

/// A temporary that holds a value of the type, with its number among those of the type. Where it was made it has to be ended, so that
/// strings, arrays and instances that nothing else holds are given back.
#[derive(Clone, Copy)]
pub struct Temporary {
    pub of: TypeId,
    pub number: u32,
}

//! What is proved of values in memory, each as the contract of a function without code.
ghost use Rattle.op_constants.specs.Facts.{ArePlaced, FirstNumbers, FirstValuesLie, PathsLead, TypesArranged, ZerosLie};

/// A part lies where its path leads, the same bytes are the same value, and where a value lies at a part's address it is put there.
pub fn values_are_placed()
    ensures { ArePlaced }
{}

/// The parts of a value lie in order, apart, within and aligned, and the steps of a path lead to the part that they name.
pub fn types_are_arranged()
    ensures arranged { TypesArranged }
    ensures lead { PathsLead }
{}

/// Zeros are what a variable begins with that has no first value, and the bytes of a first value are that value.
pub fn first_values_lie()
    ensures zeros { ZerosLie }
    ensures first { FirstValuesLie }
    ensures numbers { FirstNumbers }
{}

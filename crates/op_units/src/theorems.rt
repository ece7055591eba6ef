//! A law of the walk over units.
ghost use Rattle.op_units.specs.OneWalk.{OneWalk};

/// The walk over the units of a program has one outcome, where the files tell what they hold.
pub fn one_walk()
    ensures { OneWalk }
{}

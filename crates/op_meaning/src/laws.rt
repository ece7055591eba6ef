//! Laws of the source machine, each as the contract of a function without code.
ghost use Rattle.op_meaning.specs.Facts.{AreSets, StaysEnded};

/// A program that has ended does nothing more.
#[tactic(auto, using(crate::proofs::Endings::stays_ended))]
pub fn ended_programs_stay()
    ensures { StaysEnded }
{}

/// Sets, which are numbers, are sets: their bits are their elements.
#[tactic(auto, using(crate::proofs::SetBits::sets_are))]
pub fn sets_are_their_elements()
    ensures { AreSets }
{}

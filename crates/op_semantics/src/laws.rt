//! Laws of the source machine, each as the contract of a function without code.
ghost use Rattle.op_semantics.specs.Facts.{StaysEnded};

/// A program that has ended does nothing more.
#[tactic(auto, using(crate::proofs::Endings::stays_ended))]
pub fn ended_programs_stay()
    ensures { StaysEnded }
{}

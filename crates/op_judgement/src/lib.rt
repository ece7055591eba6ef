//! Judgements: what a part of a program means and which rules it breaks, as a datum with two readings, and the rules by name.
//!
//! `specs/Judgement.antt` has the datum. A checking crate says each construct once, as such a datum; what its functions compute of it and what
//! is said of it in words are readings of the same text, which agree for every judgement (`agrees` of `proofs/Judging.antt`).
#![tactic(auto)]

mod report;
mod rules;

pub use report::refuse;
pub use rules::{Feature, LanguageRule};

//! What programs mean, with strings, reading, dynamic and open arrays, classes, interfaces and exceptions: the whole of the source machine.
//!
//! `specs/` says what a program does, step by step: `Machine.antt` has the step, `Start.antt` the first state, and docs/SEMANTICS.md is a
//! walk through what it has beyond op_meaning, which is the part of it that images are made for today. The values, the numbers, the sets,
//! the texts and the charges of the stack are those of op_meaning.
#![tactic(auto)]

mod laws;
mod primitive;

pub use laws::ended_programs_stay;
pub use primitive::{Primitive, Sort};

//! What a typed program means.
//!
//! `specs/` says what a program does, step by step, as a machine over values and the places that hold them: `Machine.antt` has the
//! step, `Start.antt` the first state, and docs/MEANING.md is a walk through all of it. It knows no address, no byte of memory
//! and no count of references; sizes come in for what is charged on the stack and asked of the heap alone. `charge` is what an
//! activation of a routine takes of the stack; `Charge.antt` says what counts for it.
#![tactic(auto)]

/// The sum of what parts count for, of a node first where it begins with `NODE`: `f(x)` stands for `f(core, x)`.
macro_rules! sum {
    ($core:ident: NODE, $($part:ident($($value:expr),*)),+) => {
        $crate::charge_expression::NODE$(.saturating_add($part($core $(, $value)*)))+
    };
    ($core:ident: $first:ident($($given:expr),*), $($part:ident($($value:expr),*)),+) => {
        $first($core $(, $given)*)$(.saturating_add($part($core $(, $value)*)))+
    };
}

mod charge_expression;
mod charge_statement;
mod charges;
mod laws;
mod primitive;

pub use charges::charge;
pub use laws::{ended_programs_stay, sets_are_their_elements};
pub use primitive::{Primitive, Sort};

//! The checker of declarations: from trees to rows of the typed program and visible names.
//!
//! A `Declarer` holds the typed program so far, the visible names and the first rule that was broken. Each of its calls takes a
//! declaration or a part of one: exactly what that means is then declared, and the first of its faults kept.
#![tactic(auto)]

mod body;
mod bound;
mod composite;
mod constant;
mod declarer;
mod denoter;
mod enumeration;
mod exports;
mod first_value;
mod heading;
mod initial;
mod interfaces;
mod naming;
mod numbering;
mod program;
mod reached;
mod record;
mod routine;
mod system;
mod table;
mod unit_names;
mod units;
mod uses;
mod variable;

pub use declarer::Declarer;
pub use program::check;

//! Images of low code: selection and linking as one call.
//!
//! `build` takes a program in low code and the layout of its constants, and gives the image of it, which does what the low
//! code does. It is the one place that knows both what the code means and where it stands. `buildable` says what it takes.
#![tactic(auto)]

mod building;
mod validity;

pub use building::build;
pub use validity::buildable;

//! From managed code to an image: the constants are laid out, the code becomes low code, that better low code, and that an image.
//!
//! The image is exactly the one of what the optimizer makes of the program's low code, and it does what that does. Images of low code alone are made in op_image.
#![tactic(auto)]

mod building;

pub use building::{BuildError, build};

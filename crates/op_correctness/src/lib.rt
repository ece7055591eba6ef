//! Correctness of the compiler: the image of a program does what the program means.
//!
//! Nothing runs here. The agreements of the passes, source machine to managed code, managed code to low code, low code to better
//! low code, and that to the image, are put together, and what each asks is shown of a sound program: `image_agrees` says what is proved.
#![tactic(auto)]

mod theorems;

pub use theorems::image_agrees;

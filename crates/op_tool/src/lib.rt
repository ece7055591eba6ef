//! The compiler as one call: `tool` does what the words of the command line say, over files and streams.
#![tactic(auto)]

mod compiler;
mod driver;
mod finish;
mod image_run;
mod report;
mod theorems;

pub use compiler::{CompileError, compile};
pub use driver::tool;
pub use finish::{Finish, status};
pub use op_listing::listing;
pub use report::report_no_memory;
pub use theorems::one_outcome;

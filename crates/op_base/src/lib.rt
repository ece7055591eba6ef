//! What every other crate stands on: texts, places and refusals, 32-bit arithmetic, and the outside.
//!
//! The outside is three traits, a source, a sink and a map of files. Each tells how often it has failed and, over memory,
//! what it holds. The contracts say exactly what a call does with it, and when a call may fail.
#![tactic(auto)]

mod arithmetic;
mod fault_plan;
mod files;
mod memory_error;
mod place;
mod rule;
mod sequence;
mod sink;
mod source;
mod text;

pub use arithmetic::{div_trunc, rem_trunc, shl5, shr_logical, wrap_add, wrap_mul, wrap_sub};
pub use fault_plan::FaultPlan;
pub use files::{FileAnswer, Files, MemFiles, NamedFile, StdFiles};
pub use memory_error::NoMemory;
pub use place::{Place, Span};
pub use rule::{FILE_MISSING, Refusal, Rule, rule_text};
pub use sequence::Sequence;
pub use sink::{MemSink, Put, Sink, StdSink};
pub use source::{Got, MemSource, Source, StdSource};
pub use text::Text;

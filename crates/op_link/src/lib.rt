//! Images: ELF files of 32 bits for RISC-V.
//!
//! The reader takes the bytes of a file. It answers the first of nine conditions that the file does not meet, or what the
//! file says of its entry and its segments. It takes no memory.
//!
//! `link` takes a program in objects and the layout of its constants, and gives the bytes of its image. They are exactly what
//! a definition says, meet the nine conditions, and have the code of each item at its address.
#![tactic(auto)]

mod addresses;
mod code;
mod conditions;
mod count;
mod elf;
mod fields;
mod globals;
mod items;
mod linker;
mod memory_map;
mod names;
mod place;
mod reach;
mod reader;
mod table;
mod writer;

pub use addresses::Addresses;
pub use code::CodeError;
pub use globals::are_small;
pub use linker::{LinkError, link};
pub use memory_map::{Settings, Sizes};
pub use names::linkable;
pub use place::{Placement, RoutinePlace, Spot};
pub use reach::Reach;
pub use reader::{Header, read_header, segment};
pub use table::Segment;

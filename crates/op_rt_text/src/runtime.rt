//! All run-time routines.
ghost use Rattle.op_rt_text.specs.Runtime.{runtime_routines};
ghost use Rattle.std.specs.Prelude.{◌≡◌, IfOk};

use crate::blanks::write_blanks;
use crate::bytes::write_bytes;
use crate::character::write_char;
use crate::clearing::clear;
use crate::copying::{copy_bytes, copy_words};
use crate::number::write_number;
use crate::taking::take;
use crate::truth::write_truth;
use op_base::NoMemory;
use op_low::Routine;
use std::alloc::Global;

/// The run-time routines in the order of their numbers. `NoMemory` comes only where the allocator has no room.
pub fn routines(alloc: Global) -> Result<Vec<Routine>, NoMemory>
    ensures { IfOk result (λ routines. routines.items ≡ runtime_routines) }
{
    let mut routines = Vec::new(alloc);
    routines.push(take(alloc)?)?;
    routines.push(copy_words(alloc)?)?;
    routines.push(copy_bytes(alloc)?)?;
    routines.push(write_blanks(alloc)?)?;
    routines.push(write_bytes(alloc)?)?;
    routines.push(write_number(alloc)?)?;
    routines.push(write_truth(alloc)?)?;
    routines.push(write_char(alloc)?)?;
    routines.push(clear(alloc)?)?;
    Ok(routines)
}

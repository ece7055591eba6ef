//! The passes over managed code, in order.
ghost use Rattle.std.specs.Prelude.{IfOk};
ghost use Rattle.op_lower.specs.Lowers.{Lowers};
ghost use Rattle.op_managed.specs.Managed.{Manages};

use op_base::NoMemory;
use op_core::Core;
use op_lower::lower;
use op_mir::Mir;
use std::alloc::Global;

/// The managed code of a typed program. For a plain program it goes along with the source machine.
pub fn middle(alloc: Global, core: &Core) -> Result<Mir, NoMemory>
    ensures lowers { IfOk result (Lowers core.now) }
    ensures manages { IfOk result (Manages core.now) }
{
    lower(alloc, core)
}

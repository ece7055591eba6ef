//! Spots: how far code has come to a place.
ghost use Rattle.op_places.specs.Places.{after, at_register, at_scratch, reach_code, reached};
ghost use Rattle.std.specs.Prelude.{◌≡◌, ◌++◌, ◌≤◌, IfOk, OnOk};

use crate::homes::sum;
use op_base::NoMemory;
use op_compute::push_sum_with;
use op_low::{Instruction, VirtualRegister};

/// An address: so many bytes behind the one that a register has. `free` is the first scratch register that nothing is in.
#[derive(Clone, Copy)]
pub struct Spot {
    pub base: VirtualRegister,
    pub offset: u32,
    pub free: VirtualRegister,
}

/// The register behind another one.
pub fn after(register: VirtualRegister) -> Result<VirtualRegister, NoMemory>
    ensures { IfOk result (λ next. next ≡ after register) }
{
    Ok(VirtualRegister(sum(register.0, 1)?))
}

/// At what a register has.
pub fn at_register(base: VirtualRegister, free: VirtualRegister) -> Spot
    ensures { result ≡ at_register base free }
{
    Spot {
        base,
        offset: 0,
        free,
    }
}

/// At what the first scratch register has.
pub fn at_scratch(register: VirtualRegister) -> Result<Spot, NoMemory>
    ensures { IfOk result (λ spot. spot ≡ at_scratch register) }
{
    Ok(at_register(register, after(register)?))
}

/// The distance from the register becomes at most a limit.
pub fn push_reach(code: &mut Vec<Instruction>, limit: u32, spot: Spot) -> Result<Spot, NoMemory>
    ensures code { OnOk result (code.new.items ≡ code.old.items ++ reach_code limit spot) }
    ensures spot { IfOk result (λ reach. reach ≡ reached limit spot) }
    ensures near { IfOk result (λ reach. reach.offset ≤ limit) }
{
    if spot.offset <= limit {
        return Ok(spot);
    }
    let offset = i32::try_from(spot.offset).ok().ok_or(NoMemory)?;
    push_sum_with(code, spot.free, spot.free, spot.base, offset)?;
    at_scratch(spot.free)
}

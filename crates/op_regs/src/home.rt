//! Where virtual registers are kept.
ghost use Rattle.op_regs.specs.Homes.{AreAllHomes, AreHomes, GivesOut, HasHomes, KeepsApart, NeedsFrames, home_in};
ghost use Rattle.std.specs.Prelude.{◌≡◌, IfOk, IsSome, Some};

use crate::interval::intervals_of;
use crate::scan::Scan;
use op_base::{NoMemory, Sequence};
use op_low::{Low, Routine, VirtualRegister};
use op_rv::RoutineId;
use std::alloc::Global;

/// Where a virtual register is kept.
#[derive(Clone, Copy)]
pub enum Home {
    /// A register of the machine, by its number: one of x5 to x7, x9, and x18 to x31.
    Reg(u8),
    /// A word of the frame, by its number from 0.
    Frame(u32),
}

/// The homes of the virtual registers of a program.
#[derive(Drop)]
pub struct Assignment {
    pub(crate) routines: Sequence<Sequence<Home>>,
}

impl Assignment {
    /// The home of a virtual register of a routine, both of which stand in the code that was assigned. No memory is taken.
    pub fn home(&self, routine: RoutineId, register: VirtualRegister) -> Home
        requires { IsSome (home_in self.now routine register) }
        ensures { home_in self.now routine register ≡ Some result }
    {
        match self.routines.as_slice().get(routine.0 as usize) {
            None => unreachable!(),
            Some(homes) => match homes.as_slice().get(register.0 as usize) {
                None => unreachable!(),
                Some(home) => *home,
            },
        }
    }
}

/// The homes of the registers of a routine.
fn homes_of(alloc: Global, routine: &Routine) -> Result<Sequence<Home>, NoMemory>
    ensures { IfOk result (AreHomes routine.now) }
{
    let spans = intervals_of(alloc, routine)?;
    let scan = Scan::of(alloc, spans)?;
    Ok(Sequence::from(scan.homes(alloc)?))
}

fn all_homes(alloc: Global, routines: &[Routine]) -> Result<Sequence<Sequence<Home>>, NoMemory>
    ensures { IfOk result (AreAllHomes routines.now) }
{
    let mut homes = Vec::new(alloc);
    for routine in routines {
        homes.push(homes_of(alloc, routine)?)?;
    }
    Ok(Sequence::from(homes))
}

/// A home for each virtual register of each routine. `NoMemory` comes only where the allocator has no room, or where a routine
/// has more instructions than an address can count or more than 2^32 - 1 words of its frame are homes.
pub fn assign(alloc: Global, low: &Low) -> Result<Assignment, NoMemory>
    ensures everywhere { IfOk result (HasHomes low.now) }
    ensures apart { IfOk result (KeepsApart low.now) }
    ensures needed { IfOk result (NeedsFrames low.now) }
    ensures given { IfOk result (GivesOut low.now) }
{
    let routines = all_homes(alloc, low.routines.as_slice())?;
    Ok(Assignment { routines })
}

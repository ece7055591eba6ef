//! Where everything of a program stands.
ghost use Rattle.std.specs.Prelude.{◌≡◌};
ghost use Rattle.op_link.specs.Code.{address_at, symbol_address};

use crate::place::{RoutinePlace, head_in};
use op_base::Sequence;
use op_layout::Layout;
use op_rv::Symbol;

/// The addresses of a program.
#[derive(Drop)]
pub struct Addresses {
    /// Those by which an item goes directly to what it names.
    pub known: Sequence<RoutinePlace>,
    pub routines: Sequence<RoutinePlace>,
    /// Where the constants begin.
    pub constants: u32,
    /// Of each global variable.
    pub globals: Sequence<u32>,
}

/// The address that lies so far behind another one, if it is a word.
#[tactic(auto, unfolding(crate::specs::Code::address_at))]
fn address_at(base: u32, offset: usize) -> Option<u32>
    ensures { result ≡ address_at base offset }
{
    match u32::try_from(offset) {
        Ok(offset) => base.checked_add(offset),
        Err(_) => None,
    }
}

/// The address of a symbol, if there is one.
#[tactic(auto, unfolding(crate::specs::Code::symbol_address))]
pub(crate) fn symbol_address(layout: &Layout, addresses: &Addresses, symbol: Symbol) -> Option<u32>
    ensures { result ≡ symbol_address layout.now addresses.now symbol }
{
    match symbol {
        Symbol::Literal(id) => match layout.literals.as_slice().get(id.0 as usize) {
            None => None,
            Some(place) => address_at(addresses.constants, place.offset),
        },
        Symbol::Table(id) => match layout.tables.as_slice().get(id.0 as usize) {
            None => None,
            Some(offset) => address_at(addresses.constants, *offset),
        },
        Symbol::Descriptor(id) => match layout.descriptors.as_slice().get(id.0 as usize) {
            None => None,
            Some(offset) => address_at(addresses.constants, *offset),
        },
        Symbol::Global(id) => addresses.globals.as_slice().get(id.0 as usize).copied(),
        Symbol::Routine(id) => head_in(addresses.routines.as_slice(), id),
    }
}

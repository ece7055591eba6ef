//! Rows of the table of types.
ghost use Rattle.std.specs.Prelude.{◌≡◌, IfOk, Some};
ghost use Rattle.op_check_unit.specs.Steps.{Leaves, here_of};
ghost use Rattle.op_check_unit.specs.Types.{has_few_elements, is_small, row, sized_row};

use crate::Declarer;
use op_base::{NoMemory, Place};
use op_core::{Core, CoreType, TypeId, size_of, values_of};
use op_judgement::LanguageRule;
use op_types::enter_type;

/// The most bytes that a value of a type may have.
const MOST_BYTES: u32 = 1_048_576;

/// More elements than an array may have: their number would be no Integer.
const TOO_MANY_ELEMENTS: u64 = 0x8000_0000;

impl Declarer {
    /// A new row of the table of types.
    pub fn row(&mut self, of: CoreType) -> Result<TypeId, NoMemory>
        ensures { IfOk result (λ id. Leaves (row of (here_of self.old)) self.old self.new (Some id)) }
    {
        enter_type(&mut self.core, of)
    }

    /// A new row of a type that may be too large, which is rule 67 at the place.
    pub fn sized_row(&mut self, place: Place, of: CoreType) -> Result<Option<TypeId>, NoMemory>
        ensures { IfOk result (Leaves (sized_row place of (here_of self.old)) self.old self.new) }
    {
        let id = self.row(of)?;
        if is_small(&self.core, id, of) {
            return Ok(Some(id));
        }
        self.refuse(LanguageRule::TypeTooLarge, place);
        Ok(None)
    }
}

fn is_small(core: &Core, id: TypeId, of: CoreType) -> bool
    ensures { result ≡ is_small core.now id of }
{
    size_of(core, id) <= MOST_BYTES && has_few_elements(core, of)
}

/// Whether a type is no array of too many elements, which may be without bytes.
fn has_few_elements(core: &Core, of: CoreType) -> bool
    ensures { result ≡ has_few_elements core.now of }
{
    match of {
        CoreType::Array { index, .. } => values_of(core, index) < TOO_MANY_ELEMENTS,
        _ => true,
    }
}

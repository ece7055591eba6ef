//! Items in a scope of the temporaries that they may make.
ghost use Rattle.std.specs.Prelude.{IfOk};
ghost use Rattle.op_semantics.specs.Candidates.{finished};
ghost use Rattle.op_values.specs.Adding.{Adds, view_in};

use crate::made::made_by;
use op_base::{NoMemory, Sequence};
use op_values::{Item, Setting};

/// Puts the items of a statement or a condition behind the others. The temporaries that they make, and that have to be ended, end behind
/// them.
pub fn finish(setting: Setting, inner: Vec<Item>, items: &mut Vec<Item>) -> Result<(), NoMemory>
    ensures { IfOk result (λ _. Adds setting.entry items.old.items items.new.items (finished (view_in setting.entry inner.items))) }
{
    let made = made_by(setting.alloc, &inner)?;
    let Some((first, others)) = made.split_first() else {
        return setting.items(items, inner);
    };
    let others = Sequence::from(Vec::from_slice(setting.alloc, others)?);
    setting.scoped(items, *first, others, inner)
}

//! Constants.
ghost use Rattle.std.specs.Prelude.{◌≡◌, IfOk};
ghost use Rattle.op_semantics.specs.Expressions.{of_constant};
ghost use Rattle.op_values.specs.Adding.{Gives};
ghost use Rattle.op_values.specs.Setting.{here_view};

use crate::sets::set_of_elements;
use op_base::NoMemory;
use op_core::{Const, TypeId};
use op_values::{Found, Here, Item, Now, Setting};

/// A constant of the type: a number and a set go to the first free temporary, a literal and nil stand where they are used.
#[tactic(auto, using(crate::proofs::ItemsBehind::behind_none))]
pub fn constant(
    setting: Setting,
    items: &mut Vec<Item>,
    of: TypeId,
    here: Here,
    value: &Const,
) -> Result<Found, NoMemory>
    ensures { IfOk result (λ f. Gives setting.entry items.old.items items.new.items f (of_constant value.now of (here_view here))) }
{
    match value {
        Const::Ordinal(n) => {
            setting.number(items, here.first(), *n)?;
            Ok(Found::ready(here.held()))
        }
        Const::Set(elements) => {
            let set = set_of_elements(elements.as_slice());
            setting.number(items, here.first(), set)?;
            Ok(Found::ready(here.held()))
        }
        Const::Text(text) => {
            let text = text.share()?;
            Ok(Found::new(Now::Literal(text), here.held()))
        }
        Const::Nil => Ok(Found::new(Now::Nil(of), here.held())),
    }
}

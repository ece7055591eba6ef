//! Fields ("Record types" and "Classes" of the Free Pascal Reference Guide).
ghost use Rattle.std.specs.Prelude.{◌≡◌, IfOk};
ghost use Rattle.op_core.specs.Sizes.{type_at};
ghost use Rattle.op_semantics.specs.Expressions.{field_step, somewhere, then_step};
ghost use Rattle.op_values.specs.Adding.{Gives, env_view, found_view};
ghost use Rattle.op_values.specs.Setting.{here_view};
ghost use Rattle.op_values.specs.View.{view_step};

use op_base::NoMemory;
use op_core::{Core, CoreType, FieldId, TypeId, type_at};
use op_values::{Found, Here, Item, Setting, Step, field_number, field_of_class};

/// To a field of an instance or of a record.
pub fn field_step(core: &Core, of: TypeId, id: FieldId) -> Result<Step, NoMemory>
    ensures { IfOk result (λ s. view_step s ≡ field_step core.now of (type_at core.now of) id) }
{
    match type_at(core, of) {
        Some(CoreType::Class(class)) => {
            let number = field_of_class(core, class, id)?;
            Ok(Step::OfInstance { number })
        }
        _ => {
            let number = field_number(core, of, id);
            Ok(Step::Field { of, number })
        }
    }
}

/// A field of what is so far, which is at a place or in its temporary.
pub fn field(
    setting: Setting,
    of: TypeId,
    here: Here,
    id: FieldId,
    found: Found,
) -> Result<Found, NoMemory>
    ensures { IfOk result (λ f. found_view f ≡ then_step of (here_view here) (field_step setting.entry.core.now of (type_at setting.entry.core.now of) id) 0 (found_view found)) }
{
    let step = field_step(setting.core, of, id)?;
    setting.step_to(of, here, step, 0, found)
}

/// A field of what is so far. Nil goes to a temporary first.
pub fn field_of(
    setting: Setting,
    items: &mut Vec<Item>,
    of: TypeId,
    here: Here,
    id: FieldId,
    found: Found,
) -> Result<Found, NoMemory>
    ensures { IfOk result (λ f. Gives setting.entry items.old.items items.new.items f (then_step of (here_view here) (field_step setting.entry.core.now of (type_at setting.entry.core.now of) id) 0 (somewhere (env_view setting.entry) of (here_view here) (found_view found)))) }
{
    let found = setting.somewhere(items, of, here, found)?;
    field(setting, of, here, id, found)
}

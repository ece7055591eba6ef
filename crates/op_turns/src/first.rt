//! What a routine's variables begin with ("Initialized variables" of the Free Pascal Reference Guide).
ghost use Rattle.std.specs.Prelude.{◌≡◌, ◌+◌, IfOk};
ghost use Rattle.op_semantics.specs.Frames.{program_of};
ghost use Rattle.op_semantics.specs.Shapes.{variables_of};
ghost use Rattle.op_semantics.specs.Statements.{first_item, first_items};
ghost use Rattle.op_values.specs.Adding.{Adds};

use op_base::NoMemory;
use op_values::{Action, Item, LocalId, Setting, variables_of};

/// A variable of the routine begins with a value where its row has one.
pub fn first_value(setting: Setting, items: &mut Vec<Item>, variable: u32) -> Result<(), NoMemory>
    ensures { IfOk result (λ _. Adds setting.entry items.old.items items.new.items (first_item setting.entry.core.now setting.entry.routine.0 variable ((program_of setting.entry.core.now 0).first ((variables_of setting.entry.core.now setting.entry.routine.0).first + variable)))) }
{
    let rows = variables_of(setting.core, setting.routine);
    let row = rows.first as u64 + variable as u64;
    match setting.core.variables.as_slice().get(row as usize) {
        None => Ok(()),
        Some(row) => match row.first_value {
            None => Ok(()),
            Some(_) => {
                let variable = LocalId(variable);
                setting.act(items, Action::BeginWith { variable })
            }
        },
    }
}

/// The first values of the routine's variables, in order.
#[tactic(auto, using(crate::proofs::Behind::behind_behind, crate::proofs::Behind::behind_none, crate::proofs::Firsts::first_more))]
pub fn first_values(setting: Setting, items: &mut Vec<Item>) -> Result<(), NoMemory>
    ensures { IfOk result (λ _. Adds setting.entry items.old.items items.new.items (first_items setting.entry.core.now (program_of setting.entry.core.now 0).first setting.entry.routine.0 (variables_of setting.entry.core.now setting.entry.routine.0).count)) }
{
    let rows = variables_of(setting.core, setting.routine);
    for variable in 0..rows.count {
        first_value(setting, items, variable)?;
    }
    Ok(())
}

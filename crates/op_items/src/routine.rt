//! Routines: the first values of their variables, and their statements.
#![tactic(auto, using(crate::proofs::Behind::behind_behind, crate::proofs::Behind::behind_none))]

ghost use Rattle.std.specs.Prelude.{◌≡◌, ◌+◌, IfOk};
ghost use Rattle.op_items.specs.Adding.{Adds, env_view, view_in};
ghost use Rattle.op_items.specs.First.{first_item};
ghost use Rattle.op_items.specs.View.{items_view};
ghost use Rattle.op_meaning.specs.Expressions.{first_here};
ghost use Rattle.op_meaning.specs.Frames.{program_of};
ghost use Rattle.op_meaning.specs.Shapes.{variables_of};
ghost use Rattle.op_meaning.specs.Statements.{first_items, work_of_all};
ghost use Rattle.op_mir.specs.Code.{items_of};

use crate::item::Item;
use crate::path::variables_of;
use crate::setting::{Here, Setting};
use crate::statement::work_of_all;
use op_base::NoMemory;
use op_core::{Core, RoutineId};
use op_mir::{Action, LocalId};
use std::alloc::Global;

impl Setting<'_> {
    /// A variable of the routine begins with a value where its row has one ("Initialized variables" of the Free Pascal Reference
    /// Guide).
    fn begin_with(self, items: &mut Vec<Item>, variable: u32) -> Result<(), NoMemory>
        ensures { IfOk result (λ _. Adds self.entry items.old.items items.new.items (first_item self.entry.core.now self.entry.routine.0 variable ((program_of self.entry.core.now 0).first ((variables_of self.entry.core.now self.entry.routine.0).first + variable)))) }
    {
        let rows = variables_of(self.core, self.routine);
        let row = rows.first as u64 + variable as u64;
        match self.core.variables.as_slice().get(row as usize) {
            None => Ok(()),
            Some(row) => match row.first_value {
                None => Ok(()),
                Some(_) => {
                    let variable = LocalId(variable);
                    self.act(items, Action::BeginWith { variable })
                }
            },
        }
    }

    /// The first values of the routine's variables.
    #[tactic(auto, using(crate::proofs::Behind::behind_behind, crate::proofs::Behind::behind_none, crate::proofs::Firsts::first_more))]
    fn first_values(self, items: &mut Vec<Item>) -> Result<(), NoMemory>
        ensures { IfOk result (λ _. Adds self.entry items.old.items items.new.items (first_items self.entry.core.now (program_of self.entry.core.now 0).first self.entry.routine.0 (variables_of self.entry.core.now self.entry.routine.0).count)) }
    {
        let rows = variables_of(self.core, self.routine);
        for variable in 0..rows.count {
            self.begin_with(items, variable)?;
        }
        Ok(())
    }

    /// The statements of the routine.
    fn statements(self, items: &mut Vec<Item>) -> Result<(), NoMemory>
        ensures { IfOk result (λ _. Adds self.entry items.old.items items.new.items (work_of_all (env_view self.entry) first_here ((program_of self.entry.core.now 0).body self.entry.routine.0))) }
    {
        match self.core.routines.as_slice().get(self.routine.0 as usize) {
            None => Ok(()),
            Some(routine) => match &routine.body {
                None => Ok(()),
                Some(body) => work_of_all(self, Here::new(), &body.statements, items),
            },
        }
    }
}

/// The items of a routine: the first values of its variables, and its statements. Beside them stands what they were made of: they are
/// exactly those that the source machine has for it.
pub fn routine_items(alloc: Global, core: &Core, routine: RoutineId) -> Result<Vec<Item>, NoMemory>
    ensures { IfOk result (λ items. items_view core.now routine.0 items.items ≡ items_of (program_of core.now 0) routine.0) }
{
    let setting = Setting {
        alloc,
        core,
        routine,
    };
    let mut items = Vec::new(alloc);
    setting.first_values(&mut items)?;
    setting.statements(&mut items)?;
    Ok(items)
}

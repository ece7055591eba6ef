//! Places that need no index: variables, and the result of the routine ("Function results" of the Free Pascal Reference Guide).
ghost use Rattle.std.specs.Prelude.{◌≡◌, IfOk};
ghost use Rattle.op_semantics.specs.Shapes.{result_of_routine};
ghost use Rattle.op_semantics.specs.Statements.{result_path, variable_path};
ghost use Rattle.op_values.specs.Adding.{env_view};
ghost use Rattle.op_values.specs.View.{view_path};

use op_base::NoMemory;
use op_core::{Core, Owner, RoutineId, VariableId};
use op_values::{LocalId, Path, Root, Setting, path_to, sum};

/// The variable of a routine that has its result.
pub fn result_of_routine(core: &Core, routine: RoutineId) -> Result<LocalId, NoMemory>
    ensures { IfOk result (λ v. v.0 ≡ result_of_routine core.now routine.0) }
{
    match core.routines.as_slice().get(routine.0 as usize) {
        None => Ok(LocalId(0)),
        Some(row) => {
            let objects = match row.owner {
                Owner::Unit => 0,
                Owner::Class(_) => 1,
                Owner::Interface(_) => 1,
            };
            Ok(LocalId(sum(objects, row.parameters.count)?))
        }
    }
}

/// The place of the routine's result.
pub fn result_path(setting: Setting) -> Result<Path, NoMemory>
    ensures { IfOk result (λ p. view_path p ≡ result_path (env_view setting.entry)) }
{
    let variable = result_of_routine(setting.core, setting.routine)?;
    Ok(path_to(setting.alloc, Root::Local { variable }))
}

/// The place of a variable.
pub fn variable_path(setting: Setting, variable: VariableId) -> Path
    ensures { view_path result ≡ variable_path (env_view setting.entry) variable }
{
    setting.variable(variable)
}

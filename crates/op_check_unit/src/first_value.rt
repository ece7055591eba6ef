//! First values of variables, beside the rows of the typed program.
ghost use Rattle.std.specs.Prelude.{◌≡◌, [], ◌∷◌, IfOk, Some, map};
ghost use Rattle.op_check_unit.specs.FirstValues.{Begins, bare_variable, begins_so, begins_with};
ghost use Rattle.op_core.specs.Initial.{first_value_of};

use crate::variable::copy_of;
use op_base::NoMemory;
use op_core::{Core, Initial, Variable, VariableId};
use std::alloc::Global;

/// What a variable begins with.
#[derive(Drop)]
pub struct Begun {
    pub variable: VariableId,
    pub value: Initial,
}

/// Puts first values into the rows of their variables.
pub fn begin_all(alloc: Global, core: &mut Core, values: Vec<Begun>) -> Result<(), NoMemory>
    ensures { IfOk result (λ _. Begins (map begins_so values.items) core.old core.new) }
{
    let mut values = values;
    while let Some(begun) = values.pop() {
        begin(alloc, core, begun)?;
    }
    Ok(())
}

/// Puts a first value into the row of its variable.
fn begin(alloc: Global, core: &mut Core, begun: Begun) -> Result<(), NoMemory>
    ensures { IfOk result (λ _. Begins (begins_so begun ∷ []) core.old core.new) }
{
    let number = begun.variable.0 as usize;
    let Some(row) = core.variables.as_slice().get(number) else {
        return Ok(());
    };
    let row = beginning(alloc, row, begun.value)?;
    core.variables.replace(number, row);
    Ok(())
}

/// Another copy of a row, with a first value.
fn beginning(alloc: Global, row: &Variable, value: Initial) -> Result<Variable, NoMemory>
    ensures others { IfOk result (λ new. bare_variable new ≡ bare_variable row.now) }
    ensures value { IfOk result (λ new. begins_with new ≡ Some (first_value_of value)) }
{
    Ok(Variable {
        name: copy_of(alloc, &row.name)?,
        of: row.of,
        role: row.role,
        first_value: Some(Box::new(alloc, value)?),
    })
}

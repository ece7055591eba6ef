//! Bodies of routines, beside the rows of the typed program.
ghost use Rattle.std.specs.Prelude.{◌≡◌, [], ◌∷◌, IfOk, Some, map};
ghost use Rattle.op_check_unit.specs.Bodies.{said};
ghost use Rattle.op_check_unit.specs.Checking.{Places, bare, body_in};
ghost use Rattle.op_check_unit.specs.Routines.{with_body};
ghost use Rattle.op_check_unit.specs.Steps.{here_of};
ghost use Rattle.op_core.specs.Statement.{stmts_of};

use crate::Declarer;
use crate::variable::copy_of;
use op_base::NoMemory;
use op_core::{Body, Core, CoreStmt, Routine, RoutineId};
use std::alloc::Global;

/// The statements of a routine.
#[derive(Drop)]
pub struct Owned {
    pub routine: RoutineId,
    pub statements: Vec<CoreStmt>,
}

impl Declarer {
    /// Keeps the body of a routine.
    pub fn keep_body(
        &mut self,
        routine: RoutineId,
        statements: Vec<CoreStmt>,
    ) -> Result<(), NoMemory>
        ensures here { IfOk result (λ _. here_of self.new ≡ with_body routine (Some (stmts_of statements.items)) (here_of self.old)) }
        ensures kept { self.new.sink ≡ self.old.sink }
    {
        self.bodies.push(Owned {
            routine,
            statements,
        })?;
        Ok(())
    }
}

/// Puts bodies into the rows of their routines.
pub fn place_all(alloc: Global, core: &mut Core, bodies: Vec<Owned>) -> Result<(), NoMemory>
    ensures { IfOk result (λ _. Places (map said bodies.items) core.old core.new) }
{
    let mut bodies = bodies;
    while let Some(body) = bodies.pop() {
        place(alloc, core, body)?;
    }
    Ok(())
}

/// Puts a body into the row of its routine.
fn place(alloc: Global, core: &mut Core, body: Owned) -> Result<(), NoMemory>
    ensures { IfOk result (λ _. Places (said body ∷ []) core.old core.new) }
{
    let number = body.routine.0 as usize;
    let Some(row) = core.routines.as_slice().get(number) else {
        return Ok(());
    };
    let row = with_body(alloc, row, body.statements)?;
    core.routines.replace(number, row);
    Ok(())
}

/// Another copy of a row, with a body.
fn with_body(alloc: Global, row: &Routine, statements: Vec<CoreStmt>) -> Result<Routine, NoMemory>
    ensures others { IfOk result (λ new. bare new ≡ bare row.now) }
    ensures body { IfOk result (λ new. body_in new ≡ Some (stmts_of statements.items)) }
{
    Ok(Routine {
        name: copy_of(alloc, &row.name)?,
        kind: row.kind,
        unit: row.unit,
        owner: row.owner,
        enclosing: row.enclosing,
        parameters: row.parameters,
        result: row.result,
        variables: row.variables,
        body: Some(Body { statements }),
    })
}

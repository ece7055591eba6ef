//! The test of a program's tables, and of the bodies in them.
ghost use Rattle.std.specs.Prelude.{◌≡◌, ◌&&◌};
ghost use Rattle.std.specs.List.{list_all};
ghost use Rattle.op_plain.specs.Plain.{is_plain_body, is_plain_by, is_plain_program, is_plain_role, is_plain_routine, is_plain_unit, is_plain_variable, is_short, takes_few};
ghost use Rattle.op_typing.specs.SimpleTests.{begins_itself, is_counted, is_none, is_of_unit, is_procedure, is_short_text, is_solid_parameter};

use crate::statement::are_plain_statements;
use crate::types::{is_counted, is_plain_result, is_plain_type, is_solid_type};
use op_core::{Body, Core, Owner, Role, Routine, RoutineId, TypeId, Unit, Variable, is_managed};
use op_tree::ParameterMode;

/// A routine has no more parameters.
const MOST_PARAMETERS: u32 = 64;

/// The closing looks through so many finalization parts, which is more than a program may have units.
const MOST_UNITS: usize = 1024;

/// Whether the program is of the class that the theorems of the compiler are about. It works on numbers, sets, records and arrays with
/// bounds, and on texts as they are written in it; there are no exceptions, and no routine stands in another one. `lengths` says that
/// nothing but its length is asked of a text.
#[tactic(auto, unfolding(crate::specs::Plain::is_plain_by))]
pub fn is_plain(core: &Core) -> bool
    ensures texts { result ≡ is_plain_program core.now }
    ensures lengths { result ≡ is_plain_by is_short core.now }
{
    core.exceptions.is_none()
        && !is_managed(core, TypeId::SHORT_INT)
        && are_counted(core)
        && are_solid_parameters(core)
        && are_plain_variables(core)
        && are_plain_routines(core)
        && are_plain_units(core)
        && core.units.as_slice().len() <= MOST_UNITS
}

fn are_counted(core: &Core) -> bool
    ensures { result ≡ list_all (is_counted core.now) core.now.types }
{
    core.types.as_slice().iter().all(|of| is_counted(core, *of))
}

fn are_solid_parameters(core: &Core) -> bool
    ensures { result ≡ list_all (is_solid_parameter core.now) core.now.parameters }
{
    core.parameters
        .as_slice()
        .iter()
        .all(|parameter| is_solid_type(core, parameter.of))
}

fn are_plain_variables(core: &Core) -> bool
    ensures { result ≡ list_all (is_plain_variable core.now) core.now.variables }
{
    core.variables
        .as_slice()
        .iter()
        .all(|variable| is_plain_variable(core, variable))
}

fn are_plain_routines(core: &Core) -> bool
    ensures texts { result ≡ list_all (is_plain_routine is_short_text core.now) core.now.routines }
    ensures lengths { result ≡ list_all (is_plain_routine is_short core.now) core.now.routines }
{
    core.routines
        .as_slice()
        .iter()
        .all(|routine| is_plain_routine(core, routine))
}

fn are_plain_units(core: &Core) -> bool
    ensures { result ≡ list_all (is_plain_unit core.now) core.now.units }
{
    core.units
        .as_slice()
        .iter()
        .all(|unit| is_plain_unit(core, unit))
}

// ---- variables

fn is_plain_variable(core: &Core, variable: &Variable) -> bool
    ensures { result ≡ is_plain_variable core.now variable.now }
{
    is_plain_role(variable.role) && begins_itself(variable) && is_plain_type(core, variable.of)
}

/// Neither the object of a method, nor what a handler declares.
fn is_plain_role(role: Role) -> bool
    ensures { result ≡ is_plain_role role }
{
    match role {
        Role::Object => false,
        Role::Handler => false,
        _ => true,
    }
}

/// Whether it begins with nothing, if it stands for another variable.
fn begins_itself(variable: &Variable) -> bool
    ensures { result ≡ begins_itself variable.now }
{
    match variable.role {
        Role::Parameter(ParameterMode::Var) => variable.first_value.is_none(),
        Role::Parameter(ParameterMode::Out) => variable.first_value.is_none(),
        _ => true,
    }
}

// ---- routines

fn is_plain_routine(core: &Core, routine: &Routine) -> bool
    ensures texts { result ≡ is_plain_routine is_short_text core.now routine.now }
    ensures lengths { result ≡ is_plain_routine is_short core.now routine.now }
{
    is_of_unit(routine.owner)
        && routine.enclosing.is_none()
        && is_plain_result(core, routine.result)
        && takes_few(routine.parameters.count)
        && is_plain_body(core, &routine.body)
}

fn is_of_unit(owner: Owner) -> bool
    ensures { result ≡ is_of_unit owner }
{
    matches!(owner, Owner::Unit)
}

fn is_plain_body(core: &Core, body: &Option<Body>) -> bool
    ensures texts { result ≡ is_plain_body is_short_text core.now body.now }
    ensures lengths { result ≡ is_plain_body is_short core.now body.now }
{
    match body {
        None => true,
        Some(body) => are_plain_statements(core, body.statements.as_slice()),
    }
}

fn takes_few(parameters: u32) -> bool
    ensures { result ≡ takes_few parameters }
{
    parameters <= MOST_PARAMETERS
}

// ---- units

fn is_plain_unit(core: &Core, unit: &Unit) -> bool
    ensures { result ≡ is_plain_unit core.now unit.now }
{
    is_procedure(core, unit.initialization) && is_procedure(core, unit.finalization)
}

/// Whether a part of a unit is there, if it has one, and gives nothing.
fn is_procedure(core: &Core, part: Option<RoutineId>) -> bool
    ensures { result ≡ is_procedure core.now part }
{
    match part {
        None => true,
        Some(routine) => match core.routines.as_slice().get(routine.0 as usize) {
            None => false,
            Some(row) => row.result.is_none(),
        },
    }
}

//! What activations of routines are charged on the stack.
ghost use Rattle.std.specs.Prelude.{◌≡◌, ◌-◌, ◌^◌, ◌<◌, min};
ghost use Rattle.op_core.specs.Sizes.{type_at};
ghost use Rattle.op_meaning.specs.Charge.{activation_charge, charge_of, charged, is_open, parameter_words, size_of, variable_words, variables_weight};

use crate::charge_expression::{NODE, WORD, size_of};
use crate::charge_statement::statements;
use op_core::{Core, CoreType, Role, Routine, RoutineId, TypeId, Variable};
use op_tree::ParameterMode;

/// What each activation is charged, besides its words and nodes, in bytes.
const ACTIVATION: u64 = 256;

/// What an activation of the routine is charged on the stack, in bytes: 256, 4 for each word of its variables and of certain
/// values in its body, and 16 for each node of its body. Where that is more than 2^64 - 1 the answer is that number. No
/// routine of this number is charged nothing.
pub fn charge(core: &Core, routine: RoutineId) -> u64
    ensures { result ≡ min (charge_of core.now routine) (2 ^ 64 - 1) }
{
    match core.routines.as_slice().get(routine.0 as usize) {
        None => 0,
        Some(row) => activation(core, row),
    }
}

#[tactic(auto, using(crate::proofs::Charged::charged_is))]
fn activation(core: &Core, routine: &Routine) -> u64
    ensures { result ≡ min (activation_charge core.now routine.now) (2 ^ 64 - 1) }
{
    let bytes = ACTIVATION.saturating_add(variables(core, core.variables.rows(routine.variables)));
    match &routine.body {
        None => bytes,
        Some(body) => bytes
            .saturating_add(NODE)
            .saturating_add(statements(core, body.statements.as_slice())),
    }
}

fn variables(core: &Core, list: &[Variable]) -> u64
    ensures { result ≡ charged (variables_weight core.now list.now) }
{
    let mut sum = 0u64;
    for each in list {
        sum = sum.saturating_add(WORD * variable_words(core, each));
    }
    sum
}

/// The words of a variable. What a handler declares is no local.
fn variable_words(core: &Core, variable: &Variable) -> u64
    ensures value { result ≡ variable_words core.now variable.now variable.now.role }
    ensures small { result < 2 ^ 32 }
{
    match variable.role {
        Role::Object => 1,
        Role::Parameter(mode) => parameter_words(core, variable.of, mode),
        Role::Result => size_of(core, variable.of).div_ceil(WORD),
        Role::Plain => size_of(core, variable.of).div_ceil(WORD),
        Role::Constant => size_of(core, variable.of).div_ceil(WORD),
        Role::Handler => 0,
    }
}

/// The words of a parameter: of an array of any length, of a place, of a value.
fn parameter_words(core: &Core, of: TypeId, mode: ParameterMode) -> u64
    ensures value { result ≡ parameter_words (is_open (type_at core.now of)) mode (size_of core.now of) }
    ensures small { result < 2 ^ 32 }
{
    if let Some(CoreType::OpenArray { .. }) = core.types.as_slice().get(of.0 as usize) {
        return 3;
    }
    match mode {
        ParameterMode::Var => 2,
        ParameterMode::Out => 2,
        ParameterMode::Value => size_of(core, of).div_ceil(WORD),
        ParameterMode::Const_ => size_of(core, of).div_ceil(WORD),
    }
}

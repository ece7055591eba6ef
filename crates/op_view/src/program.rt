//! The typed program: its tables, and the bodies of its routines.
use crate::expression::constant;
use crate::names::{routine, type_named, type_words, variable};
use crate::statement::statements;
use crate::writer::{Word, Writer};
use op_base::NoMemory;
use op_core::{Const, Core, Initial, Role, Routine, RoutineId, Unit, VariableId};
use op_tree::{ParameterMode, RoutineKind};
use std::alloc::Global;

/// The typed program: types, fields, variables, routines with their bodies, and units, each table in the order of its rows.
pub fn typed_program(alloc: Global, core: &Core) -> Result<Vec<u8>, NoMemory> {
    let mut out = Writer::new(alloc);
    types(&mut out, core)?;
    fields(&mut out, core)?;
    variables(&mut out, core)?;
    routines(&mut out, core)?;
    units(&mut out, core)?;
    Ok(out.into_vec())
}

fn types(out: &mut Writer, core: &Core) -> Result<(), NoMemory> {
    out.line(&[Word::Plain("types")])?;
    out.enter();
    let mut number = 0u32;
    for (of, extent) in core
        .types
        .as_slice()
        .iter()
        .zip(core.extents.as_slice().iter())
    {
        out.begin()?;
        out.words(&[Word::Numbered("type-", number), Word::Plain("is")])?;
        out.words(&type_words(*of))?;
        out.words(&[Word::Numbered("bytes: ", extent.size)])?;
        out.end()?;
        number = number.saturating_add(1);
    }
    out.leave();
    Ok(())
}

fn fields(out: &mut Writer, core: &Core) -> Result<(), NoMemory> {
    out.line(&[Word::Plain("fields")])?;
    out.enter();
    let mut number = 0u32;
    for each in core.fields.as_slice() {
        out.line(&[
            Word::Named(each.name.text.as_slice(), number),
            type_named(each.of),
        ])?;
        number = number.saturating_add(1);
    }
    out.leave();
    Ok(())
}

fn variables(out: &mut Writer, core: &Core) -> Result<(), NoMemory> {
    out.line(&[Word::Plain("variables")])?;
    out.enter();
    let mut id = VariableId(0);
    for each in core.variables.as_slice() {
        out.begin()?;
        out.words(&[variable(core, id), type_named(each.of), role(each.role)])?;
        if let Some(first) = &each.first_value {
            out.words(&[Word::Plain("begins as")])?;
            initial(out, first)?;
        }
        out.end()?;
        id.0 = id.0.saturating_add(1);
    }
    out.leave();
    Ok(())
}

fn role(of: Role) -> Word<'static> {
    Word::Plain(match of {
        Role::Plain => "variable",
        Role::Constant => "constant",
        Role::Parameter(ParameterMode::Value) => "value parameter",
        Role::Parameter(ParameterMode::Var) => "var parameter",
        Role::Parameter(ParameterMode::Const_) => "const parameter",
        Role::Parameter(ParameterMode::Out) => "out parameter",
        Role::Object => "object",
        Role::Result => "result",
        Role::Handler => "handler's variable",
    })
}

#[cycle(initial)]
fn initial(out: &mut Writer, of: &Initial) -> Result<(), NoMemory> {
    match of {
        Initial::Value(value) => first_value(out, value),
        Initial::Parts(parts) => all_parts(out, parts),
    }
}

fn first_value(out: &mut Writer, of: &Const) -> Result<(), NoMemory> {
    constant(out, of)
}

#[cycle(initial)]
fn all_parts(out: &mut Writer, parts: &[Initial]) -> Result<(), NoMemory> {
    out.words(&[Word::Plain("(")])?;
    for each in parts {
        initial(out, each)?;
    }
    out.words(&[Word::Plain(")")])
}

fn routines(out: &mut Writer, core: &Core) -> Result<(), NoMemory> {
    out.line(&[Word::Plain("routines")])?;
    out.enter();
    let mut id = RoutineId(0);
    for each in core.routines.as_slice() {
        heading(out, core, id, each)?;
        if let Some(body) = &each.body {
            statements(out, core, &body.statements)?;
        }
        id.0 = id.0.saturating_add(1);
    }
    out.leave();
    Ok(())
}

fn heading(out: &mut Writer, core: &Core, id: RoutineId, of: &Routine) -> Result<(), NoMemory> {
    let result = match of.result {
        Some(of) => type_named(of),
        None => Word::Nothing,
    };
    out.line(&[
        Word::Plain(match of.kind {
            RoutineKind::Procedure => "procedure",
            RoutineKind::Function => "function",
            RoutineKind::Constructor => "constructor",
            RoutineKind::Destructor => "destructor",
        }),
        routine(core, id),
        result,
        Word::Numbered("parameters: ", of.parameters.count),
        Word::Numbered("variables from ", of.variables.first),
        Word::Numbered("and so many: ", of.variables.count),
    ])
}

fn units(out: &mut Writer, core: &Core) -> Result<(), NoMemory> {
    out.line(&[Word::Plain("units")])?;
    out.enter();
    let mut number = 0u32;
    for each in core.units.as_slice() {
        unit(out, core, number, each)?;
        number = number.saturating_add(1);
    }
    out.leave();
    Ok(())
}

fn unit(out: &mut Writer, core: &Core, number: u32, of: &Unit) -> Result<(), NoMemory> {
    out.begin()?;
    out.words(&[
        Word::Named(of.name.as_slice(), number),
        Word::Numbered("globals from ", of.globals.first),
        Word::Numbered("and so many: ", of.globals.count),
    ])?;
    if let Some(id) = of.initialization {
        out.words(&[Word::Plain("initialization"), routine(core, id)])?;
    }
    if let Some(id) = of.finalization {
        out.words(&[Word::Plain("finalization"), routine(core, id)])?;
    }
    out.end()
}

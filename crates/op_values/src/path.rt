//! Paths: how code comes to a place. A path is followed in the step that uses it, and each index and each instance is tested in its turn.
ghost use Rattle.op_semantics.specs.Expressions.{held_path, whole_path};
ghost use Rattle.op_semantics.specs.Paths.{path_to, root_of, with_step};
ghost use Rattle.op_semantics.specs.Shapes.{refers, variables_of};
ghost use Rattle.op_values.specs.Setting.{here_view};
ghost use Rattle.op_values.specs.View.{view_path, view_root, view_step};
ghost use Rattle.std.specs.Prelude.{◌≡◌, IfOk, Some};

use crate::ids::{LocalId, TemporaryId};
use crate::setting::Here;
use crate::shape::is_open;
use op_base::{NoMemory, Sequence};
use op_core::{Core, Role, RoutineId, Run, TypeId, Variable, VariableId};
use op_tree::ParameterMode;
use std::alloc::Global;

/// Where a path begins.
#[derive(Clone, Copy)]
pub enum Root {
    /// A global variable, by its row.
    Global { variable: VariableId },
    Local { variable: LocalId },
    /// What a variable parameter stands for.
    Through { variable: LocalId },
    /// A temporary that is no number, by its type and a number.
    Temporary { of: TypeId, number: u32 },
}

/// From a value to a part of it.
#[derive(Clone, Copy)]
pub enum Step {
    /// Of a record of the type.
    Field {
        of: TypeId,
        number: u32,
    },
    /// Of an array with bounds. The index is in a temporary, and from `low` to `high`.
    Element {
        of: TypeId,
        low: i32,
        high: i32,
        index: TemporaryId,
    },
    /// Of the dynamic array of the type whose name is there.
    OfArray {
        of: TypeId,
        index: TemporaryId,
    },
    /// Of an open array of the type whose elements are there.
    OfOpen {
        of: TypeId,
        index: TemporaryId,
    },
    /// A field of the instance whose name is there.
    OfInstance {
        number: u32,
    },
}

/// A place, by the way to it.
#[derive(Drop)]
pub struct Path {
    pub root: Root,
    pub steps: Sequence<Step>,
}

/// Where the root leads.
pub fn path_to(alloc: Global, root: Root) -> Path
    ensures { view_path result ≡ path_to (view_root root) }
{
    let steps = Sequence::from(Vec::new(alloc));
    Path { root, steps }
}

/// One step further.
pub fn with_step(path: Path, step: Step) -> Result<Path, NoMemory>
    ensures { IfOk result (λ p. view_path p ≡ with_step (view_step step) (view_path path)) }
{
    let mut steps = path.steps.into_vec();
    steps.push(step)?;
    let steps = Sequence::from(steps);
    Ok(Path {
        root: path.root,
        steps,
    })
}

/// The same way once more.
pub fn copy_of(alloc: Global, path: &Path) -> Result<Path, NoMemory>
    ensures { IfOk result (λ p. p ≡ path.now) }
{
    let steps = Vec::from_slice(alloc, path.steps.as_slice())?;
    Ok(Path {
        root: path.root,
        steps: Sequence::from(steps),
    })
}

/// The first free temporary for a value of the type that is no number and has not to be ended.
pub fn whole_path(alloc: Global, of: TypeId, here: Here) -> Path
    ensures { view_path result ≡ whole_path of (here_view here) }
{
    held_path(alloc, of, here.whole())
}

/// The temporary of the type with this number.
pub fn held_path(alloc: Global, of: TypeId, number: u32) -> Path
    ensures { view_path result ≡ held_path of number }
{
    path_to(alloc, Root::Temporary { of, number })
}

/// The rows of a routine's variables.
pub fn variables_of(core: &Core, routine: RoutineId) -> Run
    ensures { result ≡ variables_of core.now routine.0 }
{
    match core.routines.as_slice().get(routine.0 as usize) {
        None => Run { first: 0, count: 0 },
        Some(routine) => routine.variables,
    }
}

/// Whether it is a parameter that stands for a place.
pub fn refers(core: &Core, variable: &Variable) -> bool
    ensures { result ≡ refers core.now (Some variable.now) }
{
    match variable.role {
        Role::Parameter(ParameterMode::Var) => true,
        Role::Parameter(ParameterMode::Out) => true,
        Role::Parameter(ParameterMode::Const_) => is_open(core, variable.of),
        _ => false,
    }
}

/// Where a path to a variable begins.
pub fn root_of(core: &Core, routine: RoutineId, variable: VariableId) -> Root
    ensures { view_root result ≡ root_of core.now routine.0 variable }
{
    let rows = variables_of(core, routine);
    if variable.0 < rows.first || variable.0 - rows.first >= rows.count {
        return Root::Global { variable };
    }
    let local = LocalId(variable.0 - rows.first);
    match core.variables.as_slice().get(variable.0 as usize) {
        Some(row) if refers(core, row) => Root::Through { variable: local },
        _ => Root::Local { variable: local },
    }
}

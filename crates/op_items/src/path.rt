//! Paths to places.
ghost use Rattle.std.specs.Prelude.{◌≡◌, IfOk, Some};
ghost use Rattle.op_items.specs.Setting.{here_view};
ghost use Rattle.op_meaning.specs.Expressions.{whole_path};
ghost use Rattle.op_meaning.specs.Paths.{path_to, root_of, with_step};
ghost use Rattle.op_meaning.specs.Shapes.{refers, variables_of};
ghost use Rattle.op_mir.specs.View.{view_path, view_root, view_step};

use crate::setting::Here;
use op_base::{NoMemory, Sequence};
use op_core::{Core, Role, RoutineId, Run, TypeId, Variable, VariableId};
use op_mir::{LocalId, Path, Root, Step};
use op_tree::ParameterMode;
use std::alloc::Global;

/// Where the root leads.
pub fn path_to(alloc: Global, root: Root) -> Path
    ensures { view_path result ≡ path_to (view_root root) }
{
    let steps = Sequence::from(Vec::new(alloc));
    Path { root, steps }
}

/// One step further.
pub fn with_step(path: Path, step: Step) -> Result<Path, NoMemory>
    ensures { IfOk result (λ p. view_path p ≡ with_step (view_step step) (view_path path)) }
{
    let mut steps = path.steps.into_vec();
    steps.push(step)?;
    let steps = Sequence::from(steps);
    Ok(Path {
        root: path.root,
        steps,
    })
}

/// The same way once more.
pub fn copy_of(alloc: Global, path: &Path) -> Result<Path, NoMemory>
    ensures { IfOk result (λ p. p ≡ path.now) }
{
    let steps = Vec::from_slice(alloc, path.steps.as_slice())?;
    Ok(Path {
        root: path.root,
        steps: Sequence::from(steps),
    })
}

/// The first free temporary for a value of the type that is no number.
pub fn whole_path(alloc: Global, of: TypeId, here: Here) -> Path
    ensures { view_path result ≡ whole_path of (here_view here) }
{
    let number = here.whole();
    path_to(alloc, Root::Temporary { of, number })
}

/// The rows of a routine's variables.
pub fn variables_of(core: &Core, routine: RoutineId) -> Run
    ensures { result ≡ variables_of core.now routine.0 }
{
    match core.routines.as_slice().get(routine.0 as usize) {
        None => Run { first: 0, count: 0 },
        Some(routine) => routine.variables,
    }
}

/// Whether it is a parameter that stands for a place.
fn refers(variable: &Variable) -> bool
    ensures { result ≡ refers (Some variable.now) }
{
    matches!(
        variable.role,
        Role::Parameter(ParameterMode::Var | ParameterMode::Out)
    )
}

/// Where a path to a variable begins.
pub fn root_of(core: &Core, routine: RoutineId, variable: VariableId) -> Root
    ensures { view_root result ≡ root_of core.now routine.0 variable }
{
    let rows = variables_of(core, routine);
    if variable.0 < rows.first || variable.0 - rows.first >= rows.count {
        return Root::Global { variable };
    }
    let local = LocalId(variable.0 - rows.first);
    match core.variables.as_slice().get(variable.0 as usize) {
        Some(row) if refers(row) => Root::Through { variable: local },
        _ => Root::Local { variable: local },
    }
}

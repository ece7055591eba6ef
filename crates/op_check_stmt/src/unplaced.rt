//! Where a part of a body is refused that has no place in the tree.
ghost use Rattle.std.specs.Prelude.{◌≡◌, None};
ghost use Rattle.op_check_expr.specs.Scopes.{here_of};
ghost use Rattle.op_check_stmt.specs.Unplaced.{name_place, place_of_body};

use op_base::Place;
use op_check_expr::Checker;

/// The name of the routine whose body it is, and without a routine the beginning of the main file. Nobody is told it: the tokens of a file
/// are looked through before its trees are checked, and the grammar is asked.
pub fn place_of_body(here: Checker) -> Place
    ensures { result ≡ place_of_body (here_of here.entry.scope) }
{
    let Some(id) = here.scope.routine else {
        return beginning();
    };
    match here.scope.core.routines.as_slice().get(id.0 as usize) {
        None => beginning(),
        Some(routine) => routine.name.position.place,
    }
}

/// The beginning of the main file.
fn beginning() -> Place
    ensures { result ≡ name_place None }
{
    Place {
        file: 0,
        line: 1,
        col: 1,
    }
}

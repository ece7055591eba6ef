//! Paths: how code comes to a place. A path is followed in the step that uses it, and each index is tested in its turn.
ghost use Rattle.op_mir.specs.FrameNeed.{is_one_root};
ghost use Rattle.std.specs.Prelude.{◌≡◌};

use crate::{LocalId, TemporaryId};
use op_base::Sequence;
use op_core::{TypeId, VariableId};

/// Where a path begins.
#[derive(Clone, Copy)]
pub enum Root {
    /// A global variable, by its row.
    Global { variable: VariableId },
    Local { variable: LocalId },
    /// What a variable parameter stands for.
    Through { variable: LocalId },
    /// A temporary of a record or array type, by the type and a number.
    Temporary { of: TypeId, number: u32 },
}

/// From a record or an array of the type to a part of it.
#[derive(Clone, Copy)]
pub enum Step {
    Field {
        of: TypeId,
        number: u32,
    },
    /// The index is in a temporary, and from `low` to `high`.
    Element {
        of: TypeId,
        low: i32,
        high: i32,
        index: TemporaryId,
    },
}

/// A place, by the way to it.
#[derive(Drop)]
pub struct Path {
    pub root: Root,
    pub steps: Sequence<Step>,
}

/// Whether it is the same variable of the activation, or the same temporary.
pub fn one_root(a: Root, b: Root) -> bool
    ensures { result ≡ is_one_root a b }
{
    match a {
        Root::Local { variable } => is_local(b, variable),
        Root::Temporary { of, number } => is_temporary(b, of, number),
        _ => false,
    }
}

fn is_local(root: Root, local: LocalId) -> bool
    ensures { result ≡ is_one_root (Root.Local local) root }
{
    match root {
        Root::Local { variable } => variable.0 == local.0,
        _ => false,
    }
}

fn is_temporary(root: Root, whole: TypeId, n: u32) -> bool
    ensures { result ≡ is_one_root (Root.Temporary whole n) root }
{
    match root {
        Root::Temporary { of, number } => of.0 == whole.0 && number == n,
        _ => false,
    }
}

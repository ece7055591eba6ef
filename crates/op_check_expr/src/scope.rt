//! Where an expression stands.
ghost use Rattle.std.specs.Prelude.{◌≡◌};

use op_core::{Core, RoutineId, VariableId};
use op_types::{Setting, Visible};
use std::alloc::Global;

/// A part of a statement that stands round a place and tells what may be written there.
#[derive(Clone, Copy)]
pub enum Around {
    /// A loop; of a `for` with its variable, which cannot be written in the loop.
    Loop(Option<VariableId>),
    /// A handler of exceptions.
    Handler,
    /// A finally part.
    Finally,
}

/// The place of an expression in a program.
#[derive(Clone, Copy)]
pub struct Scope<'a> {
    pub core: &'a Core,
    pub visible: &'a Visible,
    /// The routine whose body the place is in.
    pub routine: Option<RoutineId>,
    /// The innermost last.
    pub around: &'a [Around],
}

/// What checks the parts at a place, and where memory comes from.
#[derive(Clone, Copy)]
pub struct Checker<'a> {
    pub alloc: Global,
    pub scope: Scope<'a>,
}

impl<'a> Checker<'a> {
    pub fn setting(&self) -> Setting<'a>
        ensures core { result.core.now ≡ self.now.scope.core.now }
        ensures visible { result.visible.now ≡ self.now.scope.visible.now }
    {
        Setting {
            alloc: self.alloc,
            core: self.scope.core,
            visible: self.scope.visible,
        }
    }
}

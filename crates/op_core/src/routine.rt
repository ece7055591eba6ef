//! Routines and variables.
ghost use Rattle.std.specs.Prelude.{◌≡◌};
ghost use Rattle.op_core.specs.Roles.{is_written};

use crate::{ClassId, CoreStmt, Initial, InterfaceId, RoutineId, Run, TypeId, UnitId};
use op_tree::{Name, ParameterMode, RoutineKind};

/// A parameter, as a heading has it. An open array is of the type `OpenArray`.
#[derive(Drop)]
pub struct Parameter {
    pub name: Name,
    pub mode: ParameterMode,
    pub of: TypeId,
}

/// What a routine is declared in.
#[derive(Clone, Copy)]
pub enum Owner {
    /// A unit, or the routine round it.
    Unit,
    Class(ClassId),
    Interface(InterfaceId),
}

/// What a variable is.
#[derive(Clone, Copy)]
pub enum Role {
    /// A global or local variable.
    Plain,
    /// A typed constant. It cannot be assigned.
    Constant,
    Parameter(ParameterMode),
    /// The `Self` of a method. It cannot be assigned.
    Object,
    Result,
    /// What `on` declares, while its handler runs. It is no local: a routine's charge does not count it.
    Handler,
}

impl Role {
    /// Whether a variable of this role may be written (Free Pascal Reference Guide, "Constant parameters" and "Typed constants"): a
    /// typed constant, a const parameter and the object of a method may not.
    pub fn is_written(self) -> bool
        ensures { result ≡ is_written self }
    {
        !matches!(
            self,
            Role::Constant | Role::Parameter(ParameterMode::Const_) | Role::Object
        )
    }
}

/// A variable, or what else has a value under a name while a routine or the program runs.
#[derive(Drop)]
pub struct Variable {
    pub name: Name,
    pub of: TypeId,
    pub role: Role,
    /// What it begins with, where that is declared; a local one begins so at each entry.
    pub first_value: Option<Box<Initial>>,
}

/// A routine. The parts of a unit are procedures without parameters, under the unit's name.
#[derive(Drop)]
pub struct Routine {
    pub name: Name,
    pub kind: RoutineKind,
    pub unit: UnitId,
    pub owner: Owner,
    /// The routine round it.
    pub enclosing: Option<RoutineId>,
    pub parameters: Run,
    /// None for procedures, constructors and destructors.
    pub result: Option<TypeId>,
    /// The variables of its activations: its object if it is a method, its parameters, its result, and then its locals
    /// and what its handlers declare, in order of declaration.
    pub variables: Run,
    /// None before it is checked, and for abstract methods and those of interfaces.
    pub body: Option<Body>,
}

/// The statements of a routine.
#[derive(Drop)]
pub struct Body {
    pub statements: Vec<CoreStmt>,
}

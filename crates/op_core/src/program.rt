//! The typed program.
ghost use Rattle.std.specs.Prelude.{◌≡◌, [], None};

use crate::{
    Class, ClassId, CoreType, Extent, FieldId, Fields, Interface, InterfaceId, Method, Parameter,
    Property, Routine, RoutineId, Run, Table, Variable, VariableId,
};
use op_base::Text;
use std::alloc::Global;

/// A unit, or the program itself.
#[derive(Drop)]
pub struct Unit {
    /// As it is written; empty for a program without a heading.
    pub name: Text,
    /// Its global variables, in order of declaration: rows of the table of globals.
    pub globals: Run,
    /// The main part, for the program itself.
    pub initialization: Option<RoutineId>,
    pub finalization: Option<RoutineId>,
}

/// The classes of SysUtils that the language knows, where some file uses it.
#[derive(Clone, Copy)]
pub struct ExceptionClasses {
    pub exception: ClassId,
    /// The field with the message of an exception.
    pub message: FieldId,
    /// Raised at error 200.
    pub zero_divisor: ClassId,
    /// Raised at error 201.
    pub range: ClassId,
    /// Raised at error 215.
    pub overflow: ClassId,
    /// Raised at error 219.
    pub cast: ClassId,
}

/// The typed program: every name is replaced by what it names, and every conversion is written out.
#[derive(Drop)]
pub struct Core {
    pub types: Table<CoreType>,
    /// For each type the extent of its values.
    pub extents: Table<Extent>,
    pub fields: Fields,
    pub classes: Table<Class>,
    pub interfaces: Table<Interface>,
    /// The interfaces that classes list.
    pub listed: Table<InterfaceId>,
    pub methods: Table<Method>,
    pub properties: Table<Property>,
    pub routines: Table<Routine>,
    pub parameters: Table<Parameter>,
    pub variables: Table<Variable>,
    /// The variables that stand in no routine.
    pub globals: Table<VariableId>,
    /// In the order in which they are initialized; the program itself is the last one.
    pub units: Table<Unit>,
    pub exceptions: Option<ExceptionClasses>,
}

impl Core {
    /// The program of nothing, which rows are put into.
    pub fn new(alloc: Global) -> Core
        ensures { result ≡ record { types = []; extents = []; fields = []; classes = []; interfaces = []; listed = []; methods = []; properties = []; routines = []; parameters = []; variables = []; globals = []; units = []; exceptions = None } }
    {
        Core {
            types: Table::new(alloc),
            extents: Table::new(alloc),
            fields: Fields::new(alloc),
            classes: Table::new(alloc),
            interfaces: Table::new(alloc),
            listed: Table::new(alloc),
            methods: Table::new(alloc),
            properties: Table::new(alloc),
            routines: Table::new(alloc),
            parameters: Table::new(alloc),
            variables: Table::new(alloc),
            globals: Table::new(alloc),
            units: Table::new(alloc),
            exceptions: None,
        }
    }
}

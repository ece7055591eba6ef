//! Routines and their bodies.
ghost use Rattle.op_judgement.specs.Steps.{judged};
ghost use Rattle.std.specs.Prelude.{◌≡◌, ◌++◌, IfOk, map, slice_get};
ghost use Rattle.op_check_unit.specs.Naming.{told_in};
ghost use Rattle.op_check_unit.specs.Routines.{ahead_declared, awaited_named, awaited_of, awaits, block_means, body_means, both_typed, class_meant, completed, entered, first_declared, headed, inner, is_heading_of, local_declared, locals_declared, locals_fit, next_routine, parameter_names, parameter_variable, plain_declared, result_name, routine_declared, routine_row, same_means, statements_mean, with_local, with_parameters, with_result, with_routine, with_variables};
ghost use Rattle.op_check_unit.specs.Steps.{Declares, Leaves, here_of};
ghost use Rattle.op_tree.specs.Declaration.{body_of, declaration_of, declarations_of, heading_of};
ghost use Rattle.op_tree.specs.Statement.{stmts_of};
ghost use Rattle.op_types.specs.Names.{lower};

use crate::Declarer;
use crate::heading::{Head, is_same_heading};
use crate::naming::{Told, told_by};
use crate::variable::copy_of;
use op_base::{NoMemory, Place};
use op_check_expr::{Checker, Scope};
use op_check_stmt::statements;
use op_core::{
    Core, Owner, Parameter, Role, Routine, RoutineId, Run, Table, TypeId, UnitId, Variable,
    VariableId,
};
use op_judgement::{Feature, LanguageRule};
use op_scan::CompactText;
use op_tree::{Body, Declaration, Directive, Heading, Name, Stmt};
use op_types::{Meaning, Visible};
use std::alloc::Global;

/// The most bytes of a routine's locals.
const MOST_BYTES: u64 = 1_048_576;

/// Where a routine stands that has no variables yet.
const NO_ROWS: Run = Run { first: 0, count: 0 };

impl Declarer {
    /// Declares a routine. One whose name stands behind that of a class has no class here.
    pub fn routine(
        &mut self,
        heading: &Heading,
        directives: &[Directive],
        body: &Body,
    ) -> Result<(), NoMemory>
        ensures { IfOk result (λ _. Declares (routine_declared (heading_of heading.now) directives.now (body_of body.now) (here_of self.old)) self.old self.new) }
    {
        match &heading.class {
            None => self.plain_declared(heading, directives, body),
            Some(class) => self.class_named(class),
        }
    }

    /// A name that should be that of a class, and is none here.
    fn class_named(&mut self, class: &Name) -> Result<(), NoMemory>
        ensures { IfOk result (λ _. Declares (judged (here_of self.old) (class_meant self.old.core class.now.position.place (told_in self.old.visible (lower class.now.text)))) self.old self.new) }
    {
        let place = class.position.place;
        match told_by(self.visible.look_up(class.text.as_slice())?) {
            Told::Unknown => self.refuse(LanguageRule::UnknownName, place),
            Told::Spoiled => {}
            Told::Known(of) => self.no_type(place, of),
            Told::LeftOutType(feature) => self.refuse(LanguageRule::NotInProfile(feature), place),
            Told::Unit | Told::Other => self.refuse(LanguageRule::WrongKindOfName, place),
        }
        Ok(())
    }

    fn plain_declared(
        &mut self,
        heading: &Heading,
        directives: &[Directive],
        body: &Body,
    ) -> Result<(), NoMemory>
        ensures { IfOk result (λ _. Declares (plain_declared (heading_of heading.now) directives.now (body_of body.now) (here_of self.old)) self.old self.new) }
    {
        self.stand_ahead(&heading.name)?;
        let form = self.check_form(heading, directives);
        let head = self.head(heading)?;
        self.end();
        self.headed(&heading.name, both_typed(form, head), body)
    }

    /// Declares a routine by what its heading says, if that breaks no rule.
    fn headed(&mut self, name: &Name, head: Option<Head>, body: &Body) -> Result<(), NoMemory>
        ensures { IfOk result (λ _. Declares (headed name.now head (body_of body.now) (here_of self.old)) self.old self.new) }
    {
        match self.awaited_named(name)? {
            Some(id) => self.ahead_declared(id, name, head, body),
            None => match head {
                None => self.declare(name, Meaning::Spoiled),
                Some(head) => self.first_declared(name, head, body),
            },
        }
    }

    /// The routine of a name that is declared ahead in this scope.
    fn awaited_named(&self, name: &Name) -> Result<Option<RoutineId>, NoMemory>
        ensures { IfOk result (λ id. id ≡ awaited_named (here_of self.now) name.now) }
    {
        if !self.is_declared(name)? {
            return Ok(None);
        }
        match self.visible.look_up(name.text.as_slice())? {
            Some(Meaning::Routine(id)) => Ok(awaited_in(self.awaited.as_slice(), *id)),
            _ => Ok(None),
        }
    }

    /// Declares a routine that is not declared ahead.
    fn first_declared(&mut self, name: &Name, head: Head, body: &Body) -> Result<(), NoMemory>
        ensures { IfOk result (λ _. Declares (first_declared name.now head (body_of body.now) (here_of self.old)) self.old self.new) }
    {
        let id = self.new_routine(name, head, awaits(body, name))?;
        self.declare(name, Meaning::Routine(id))?;
        self.body(id, name, head, body)
    }

    /// A new row of the table of routines.
    pub fn new_routine(
        &mut self,
        name: &Name,
        head: Head,
        awaited: Option<Place>,
    ) -> Result<RoutineId, NoMemory>
        ensures here { IfOk result (λ _. here_of self.new ≡ with_routine name.now head awaited (here_of self.old)) }
        ensures id { IfOk result (λ id. id ≡ next_routine (here_of self.old)) }
        ensures kept { self.new.sink ≡ self.old.sink }
    {
        let Ok(number) = u32::try_from(self.core.routines.as_slice().len()) else {
            return Err(NoMemory);
        };
        let row = routine_row(self.alloc, self.unit, name, head, NO_ROWS)?;
        self.core.routines.push(row)?;
        self.awaited.push(awaited)?;
        Ok(RoutineId(number))
    }

    /// The body of a routine that is declared ahead: rule 19 where its heading differs, 14 where it is one more declaration ahead.
    fn ahead_declared(
        &mut self,
        id: RoutineId,
        name: &Name,
        head: Option<Head>,
        body: &Body,
    ) -> Result<(), NoMemory>
        ensures { IfOk result (λ _. Declares (ahead_declared id name.now head (body_of body.now) (here_of self.old)) self.old self.new) }
    {
        if matches!(body, Body::Forward) {
            self.refuse(LanguageRule::DeclaredTwice, name.position.place);
            return Ok(());
        }
        self.complete(id);
        match head {
            None => Ok(()),
            Some(head) => match self.same(id, name, head)? {
                None => Ok(()),
                Some(()) => self.body(id, name, head, body),
            },
        }
    }

    fn complete(&mut self, id: RoutineId)
        ensures here { here_of self.new ≡ completed id (here_of self.old) }
        ensures kept { self.new.sink ≡ self.old.sink }
    {
        if (id.0 as usize) < self.awaited.as_slice().len() {
            self.awaited.replace(id.0 as usize, None);
        }
    }

    /// Whether a routine has the heading that it was declared ahead with.
    fn same(&mut self, id: RoutineId, name: &Name, head: Head) -> Result<Option<()>, NoMemory>
        ensures { IfOk result (Leaves (judged (here_of self.old) (same_means id name.now head (here_of self.old))) self.old self.new) }
    {
        let row = routine_row(self.alloc, self.unit, name, head, NO_ROWS)?;
        if has_heading(&self.core, id, &row) {
            return Ok(Some(()));
        }
        self.refuse(LanguageRule::HeadingDiffers, name.position.place);
        Ok(None)
    }

    fn body(&mut self, id: RoutineId, name: &Name, head: Head, body: &Body) -> Result<(), NoMemory>
        ensures { IfOk result (λ _. Declares (body_means id name.now head (body_of body.now) (here_of self.old)) self.old self.new) }
    {
        match body {
            Body::Forward => Ok(()),
            Body::Block {
                declarations,
                statements,
            } => self.block(id, name, head, declarations, statements),
        }
    }

    /// Declares the locals of a routine and checks its statements.
    fn block(
        &mut self,
        id: RoutineId,
        name: &Name,
        head: Head,
        declarations: &[Declaration],
        list: &[Stmt],
    ) -> Result<(), NoMemory>
        ensures { IfOk result (λ _. Declares (block_means id name.now head (declarations_of declarations.now) (stmts_of list.now) (here_of self.old)) self.old self.new) }
    {
        let names = self.visible.len();
        let (first, count) = (self.first, self.count);
        let (bytes, routine) = (self.bytes, self.routine);
        let own = self.own.take();
        let variables = self.core.variables.as_slice().len();
        self.enter_body(id, name, head)?;
        self.inner(id, name, head, variables, declarations, list)?;
        self.visible.leave(names);
        self.first = first;
        self.count = count;
        self.own = own;
        self.bytes = bytes;
        self.routine = routine;
        Ok(())
    }

    /// Begins the scope of a body, with its parameters and its result.
    fn enter_body(&mut self, id: RoutineId, name: &Name, head: Head) -> Result<(), NoMemory>
        ensures here { IfOk result (λ _. here_of self.new ≡ entered id name.now head (here_of self.old)) }
        ensures kept { self.new.sink ≡ self.old.sink }
    {
        self.open();
        self.own = None;
        self.bytes = 0;
        self.routine = Some(id);
        let parameters = self.core.parameters.rows(head.parameters);
        self.count = parameters.len();
        let variables = &mut self.core.variables;
        enter_parameters(&mut self.visible, variables.as_slice().len(), parameters)?;
        push_parameters(self.alloc, variables, parameters)?;
        self.result(id, name, head.result)
    }

    /// The result of a function, for which its name stands in its body.
    fn result(&mut self, id: RoutineId, name: &Name, of: Option<TypeId>) -> Result<(), NoMemory>
        ensures here { IfOk result (λ _. here_of self.new ≡ with_result id name.now of (here_of self.old)) }
        ensures kept { self.new.sink ≡ self.old.sink }
    {
        let Some(of) = of else {
            return Ok(());
        };
        let own = result_name(self.alloc, name)?;
        self.local(own, of, Role::Result)?;
        self.enter_alone(name, Meaning::Routine(id))
    }

    /// A variable that a body has by itself.
    fn local(&mut self, name: Name, of: TypeId, role: Role) -> Result<(), NoMemory>
        ensures here { IfOk result (λ _. here_of self.new ≡ with_local name of role (here_of self.old)) }
        ensures kept { self.new.sink ≡ self.old.sink }
    {
        let Ok(number) = u32::try_from(self.core.variables.as_slice().len()) else {
            return Err(NoMemory);
        };
        let id = VariableId(number);
        let writable = true;
        self.enter_alone(&name, Meaning::Variable { id, writable })?;
        self.core.variables.push(Variable {
            name,
            of,
            role,
            first_value: None,
        })
    }

    fn inner(
        &mut self,
        id: RoutineId,
        name: &Name,
        head: Head,
        first: usize,
        declarations: &[Declaration],
        list: &[Stmt],
    ) -> Result<(), NoMemory>
        ensures { IfOk result (λ _. Declares (inner id name.now head first (declarations_of declarations.now) (stmts_of list.now) (here_of self.old)) self.old self.new) }
    {
        self.locals(declarations)?;
        self.check_locals(name);
        self.set_variables(id, name, head, first)?;
        self.statements(id, list)
    }

    fn locals(&mut self, declarations: &[Declaration]) -> Result<(), NoMemory>
        ensures { IfOk result (λ _. Declares (locals_declared (declarations_of declarations.now) (here_of self.old)) self.old self.new) }
    {
        for declaration in declarations {
            self.local_declared(declaration)?;
        }
        Ok(())
    }

    /// A declaration in a routine. A routine in it is left out.
    fn local_declared(&mut self, declaration: &Declaration) -> Result<(), NoMemory>
        ensures { IfOk result (λ _. Declares (local_declared (declaration_of declaration.now) (here_of self.old)) self.old self.new) }
    {
        match declaration {
            Declaration::Constants(list) => self.constants(list),
            Declaration::Types(list) => self.types(list),
            Declaration::Variables(list) => self.variables(list),
            Declaration::Heading(_) => Ok(()),
            Declaration::Routine(routine) => {
                self.refuse(
                    LanguageRule::NotInProfile(Feature::NestedRoutines),
                    routine.heading.name.position.place,
                );
                Ok(())
            }
        }
    }

    /// Rule 69 at the routine's name where its locals are too large.
    fn check_locals(&mut self, name: &Name)
        ensures { Declares (locals_fit name.now (here_of self.old)) self.old self.new }
    {
        if self.bytes > MOST_BYTES {
            self.refuse(LanguageRule::LocalsTooLarge, name.position.place);
        }
    }

    /// Gives a routine all variables from the first one on.
    fn set_variables(
        &mut self,
        id: RoutineId,
        name: &Name,
        head: Head,
        first: usize,
    ) -> Result<(), NoMemory>
        ensures here { IfOk result (λ _. here_of self.new ≡ with_variables id name.now head first (here_of self.old)) }
        ensures kept { self.new.sink ≡ self.old.sink }
    {
        let count = self.core.variables.as_slice().len().saturating_sub(first);
        let (Ok(first), Ok(count)) = (u32::try_from(first), u32::try_from(count)) else {
            return Err(NoMemory);
        };
        let row = routine_row(self.alloc, self.unit, name, head, Run { first, count })?;
        if (id.0 as usize) < self.core.routines.as_slice().len() {
            self.core.routines.replace(id.0 as usize, row);
        }
        Ok(())
    }

    /// Checks the statements of a routine.
    pub fn statements(&mut self, id: RoutineId, list: &[Stmt]) -> Result<(), NoMemory>
        ensures { IfOk result (λ _. Declares (statements_mean id (stmts_of list.now) (here_of self.old)) self.old self.new) }
    {
        let scope = Scope {
            core: &self.core,
            visible: &self.visible,
            routine: Some(id),
            around: &[],
        };
        let checker = Checker {
            alloc: self.alloc,
            scope,
        };
        let mut typed = None;
        statements(&checker, &mut self.sink, list, &mut typed)?;
        match typed {
            None => Ok(()),
            Some(typed) => self.keep_body(id, typed),
        }
    }
}

fn both_typed(form: Option<()>, head: Option<Head>) -> Option<Head>
    ensures { result ≡ both_typed form head }
{
    match form {
        None => None,
        Some(()) => head,
    }
}

/// Where a body is awaited from.
fn awaits(body: &Body, name: &Name) -> Option<Place>
    ensures { result ≡ awaits (body_of body.now) name.now }
{
    match body {
        Body::Forward => Some(name.position.place),
        Body::Block { .. } => None,
    }
}

/// The routine, if its body is awaited.
fn awaited_in(places: &[Option<Place>], id: RoutineId) -> Option<RoutineId>
    ensures { result ≡ awaited_of places.now id }
{
    match places.get(id.0 as usize) {
        Some(Some(_)) => Some(id),
        _ => None,
    }
}

/// Whether a routine has the heading of this row.
fn has_heading(core: &Core, id: RoutineId, row: &Routine) -> bool
    ensures { result ≡ is_heading_of core.now row.now (slice_get core.now.routines id.0) }
{
    match core.routines.as_slice().get(id.0 as usize) {
        None => false,
        Some(ahead) => is_same_heading(core, ahead, row),
    }
}

/// The row of a routine, without its body.
fn routine_row(
    alloc: Global,
    unit: UnitId,
    name: &Name,
    head: Head,
    variables: Run,
) -> Result<Routine, NoMemory>
    ensures { IfOk result (λ row. row ≡ routine_row unit name.now head variables) }
{
    Ok(Routine {
        name: copy_of(alloc, name)?,
        kind: head.kind,
        unit,
        owner: Owner::Unit,
        enclosing: None,
        parameters: head.parameters,
        result: head.result,
        variables,
        body: None,
    })
}

/// The name Result, where a function's name stands.
fn result_name(alloc: Global, name: &Name) -> Result<Name, NoMemory>
    ensures { IfOk result (λ own. own ≡ result_name name.now) }
{
    let text = CompactText::copy_of(alloc, b"Result")?;
    let position = name.position;
    Ok(Name { text, position })
}

/// The names of parameters, whose variables are numbered from `first` on.
fn enter_parameters(
    visible: &mut Visible,
    first: usize,
    parameters: &[Parameter],
) -> Result<(), NoMemory>
    ensures { IfOk result (λ _. visible.new ≡ visible.old ++ parameter_names first parameters.now) }
{
    let mut next = first;
    for parameter in parameters {
        let Ok(number) = u32::try_from(next) else {
            return Err(NoMemory);
        };
        let id = VariableId(number);
        let writable = true;
        visible.enter(
            parameter.name.text.as_slice(),
            Meaning::Variable { id, writable },
        )?;
        next = next.saturating_add(1);
    }
    Ok(())
}

/// The variables of parameters.
fn push_parameters(
    alloc: Global,
    variables: &mut Table<Variable>,
    parameters: &[Parameter],
) -> Result<(), NoMemory>
    ensures { IfOk result (λ _. variables.new ≡ variables.old ++ map parameter_variable parameters.now) }
{
    for parameter in parameters {
        variables.push(Variable {
            name: copy_of(alloc, &parameter.name)?,
            of: parameter.of,
            role: Role::Parameter(parameter.mode),
            first_value: None,
        })?;
    }
    Ok(())
}

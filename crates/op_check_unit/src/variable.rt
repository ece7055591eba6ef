//! Declarations of variables, and the rows of variables and typed constants.
ghost use Rattle.op_judgement.specs.Steps.{each};
ghost use Rattle.std.specs.Prelude.{◌≡◌, IfOk, map};
ghost use Rattle.std.specs.Option.{option_copied, option_map};
ghost use Rattle.op_check_unit.specs.Declaring.{first_means, globals_fit, names_declared, next_variable, one_type_declared, row_entered, rows_entered, variable_meaning, variables_declared, variables_named, with_first, with_row};
ghost use Rattle.op_check_unit.specs.Steps.{Declares, Leaves, here_of};
ghost use Rattle.op_core.specs.Initial.{first_value_of};
ghost use Rattle.op_tree.specs.Declaration.{variables_of};
ghost use Rattle.op_tree.specs.Initial.{initial_of};

use crate::Declarer;
use crate::first_value::Begun;
use op_base::{NoMemory, Place};
use op_core::{Initial, Role, TypeId, Variable, VariableId, size_of};
use op_judgement::LanguageRule;
use op_scan::CompactText;
use op_tree::{Initializer, Name, Variables};
use op_types::Meaning;
use std::alloc::Global;

/// The most bytes that all globals may have.
const MOST_GLOBAL_BYTES: u64 = 8_388_608;

impl Declarer {
    /// Declares variables.
    pub fn variables(&mut self, declarations: &[Variables]) -> Result<(), NoMemory>
        ensures { IfOk result (λ _. Declares (variables_declared (map variables_of declarations.now) (here_of self.old)) self.old self.new) }
    {
        for declaration in declarations {
            self.one_type_declared(declaration)?;
        }
        Ok(())
    }

    fn one_type_declared(&mut self, declaration: &Variables) -> Result<(), NoMemory>
        ensures { IfOk result (λ _. Declares (one_type_declared (variables_of declaration.now) (here_of self.old)) self.old self.new) }
    {
        self.all_ahead(declaration.names.as_slice())?;
        let of = self.denoted(None, false, &declaration.denoter)?;
        self.end();
        let value = first_value(&declaration.value);
        self.names_declared(of, value, declaration.names.as_slice())
    }

    fn names_declared(
        &mut self,
        of: Option<TypeId>,
        value: Option<&Initializer>,
        names: &[Name],
    ) -> Result<(), NoMemory>
        ensures { IfOk result (λ _. Declares (names_declared of (option_map initial_of (option_copied value.entry)) names.now (here_of self.old)) self.old self.new) }
    {
        let first = self.core.variables.as_slice().len();
        self.rows_entered(of, value, names)?;
        self.variables_named(of, first, names)
    }

    fn rows_entered(
        &mut self,
        of: Option<TypeId>,
        value: Option<&Initializer>,
        names: &[Name],
    ) -> Result<(), NoMemory>
        ensures { IfOk result (λ _. Declares (rows_entered of (option_map initial_of (option_copied value.entry)) names.now (here_of self.old)) self.old self.new) }
    {
        match of {
            None => Ok(()),
            Some(of) => self.all_entered(of, value, names),
        }
    }

    fn all_entered(
        &mut self,
        of: TypeId,
        value: Option<&Initializer>,
        names: &[Name],
    ) -> Result<(), NoMemory>
        ensures { IfOk result (λ _. Declares (each (row_entered Role.Plain of (option_map initial_of (option_copied value.entry))) names.now (here_of self.old)) self.old self.new) }
    {
        for name in names {
            self.row_entered(Role::Plain, of, value, name)?;
        }
        Ok(())
    }

    /// Declares the names of variables, whose rows are numbered from `first` on.
    fn variables_named(
        &mut self,
        of: Option<TypeId>,
        first: usize,
        names: &[Name],
    ) -> Result<(), NoMemory>
        ensures { IfOk result (λ _. Declares (variables_named of first names.now (here_of self.old)) self.old self.new) }
    {
        for (k, name) in names.iter().enumerate() {
            let Ok(number) = u32::try_from(first.saturating_add(k)) else {
                return Err(NoMemory);
            };
            self.declare(name, variable_meaning(of, number))?;
        }
        Ok(())
    }

    /// The number of the next row of a variable.
    pub fn next_variable(&self) -> Result<VariableId, NoMemory>
        ensures { IfOk result (λ id. id ≡ next_variable (here_of self.now)) }
    {
        match u32::try_from(self.core.variables.as_slice().len()) {
            Ok(number) => Ok(VariableId(number)),
            Err(_) => Err(NoMemory),
        }
    }

    /// A row of a variable or a typed constant, with its first value: rule 72 at its name where the globals have too many bytes.
    pub fn row_entered(
        &mut self,
        role: Role,
        of: TypeId,
        value: Option<&Initializer>,
        name: &Name,
    ) -> Result<(), NoMemory>
        ensures { IfOk result (λ _. Declares (row_entered role of (option_map initial_of (option_copied value.entry)) name.now (here_of self.old)) self.old self.new) }
    {
        let first = self.first_means(of, value)?;
        let id = self.next_variable()?;
        self.begin_with(id, first)?;
        self.push_row(id, role, of, name)?;
        self.fit_globals(name.position.place);
        Ok(())
    }

    fn first_means(
        &mut self,
        of: TypeId,
        value: Option<&Initializer>,
    ) -> Result<Option<Initial>, NoMemory>
        ensures { IfOk result (λ v. Leaves (first_means of (option_map initial_of (option_copied value.entry)) (here_of self.old)) self.old self.new (option_map first_value_of v)) }
    {
        match value {
            None => Ok(None),
            Some(value) => self.first_value(of, value),
        }
    }

    /// Keeps the first value of the next variable, if it has one.
    fn begin_with(&mut self, variable: VariableId, first: Option<Initial>) -> Result<(), NoMemory>
        requires next { variable ≡ next_variable (here_of self.old) }
        ensures here { IfOk result (λ _. here_of self.new ≡ with_first (option_map first_value_of first) (here_of self.old)) }
        ensures kept { self.new.sink ≡ self.old.sink }
    {
        match first {
            None => Ok(()),
            Some(value) => {
                self.first_values.push(Begun { variable, value })?;
                Ok(())
            }
        }
    }

    fn push_row(
        &mut self,
        id: VariableId,
        role: Role,
        of: TypeId,
        name: &Name,
    ) -> Result<(), NoMemory>
        requires next { id ≡ next_variable (here_of self.old) }
        ensures here { IfOk result (λ _. here_of self.new ≡ with_row role of name.now (here_of self.old)) }
        ensures kept { self.new.sink ≡ self.old.sink }
    {
        let size = size_of(&self.core, of) as u64;
        self.bytes = self.bytes.saturating_add(size);
        if self.routine.is_none() {
            self.core.globals.push(id)?;
        }
        self.core.variables.push(Variable {
            name: copy_of(self.alloc, name)?,
            of,
            role,
            first_value: None,
        })
    }

    /// Rule 72 at a place where the globals have too many bytes.
    pub fn fit_globals(&mut self, place: Place)
        ensures { Declares (globals_fit place (here_of self.old)) self.old self.new }
    {
        if self.routine.is_none() && self.bytes > MOST_GLOBAL_BYTES {
            self.refuse(LanguageRule::GlobalsTooLarge, place);
        }
    }
}

/// What the name of a variable stands for whose row has this number.
fn variable_meaning(of: Option<TypeId>, number: u32) -> Meaning
    ensures { result ≡ variable_meaning of number }
{
    match of {
        None => Meaning::Spoiled,
        Some(_) => Meaning::Variable {
            id: VariableId(number),
            writable: true,
        },
    }
}

fn first_value(value: &Option<Box<Initializer>>) -> Option<&Initializer>
    ensures { option_map initial_of (option_copied result) ≡ option_map (λ first. initial_of first.value) value.now }
{
    match value {
        None => None,
        Some(value) => Some(value),
    }
}

/// Another copy of a name.
pub fn copy_of(alloc: Global, name: &Name) -> Result<Name, NoMemory>
    ensures { IfOk result (λ n. n ≡ name.now) }
{
    let text = CompactText::copy_of(alloc, name.text.as_slice())?;
    let position = name.position;
    Ok(Name { text, position })
}

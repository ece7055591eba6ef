//! Headings of routines.
ghost use Rattle.op_judgement.specs.Steps.{judged};
ghost use Rattle.std.specs.Prelude.{◌≡◌, IfOk, Some};
ghost use Rattle.std.specs.List.{list_any};
ghost use Rattle.std.specs.Option.{option_copied, option_map};
ghost use Rattle.op_check_unit.specs.Headings.{form_means, head_by, head_means, is_overload, is_plain, is_result, is_taken, no_parameters, one_parameter, own_name, parameter_group, parameter_groups, parameter_type, result_means, some_parameters, start_of_type, with_parameter};
ghost use Rattle.op_check_unit.specs.Steps.{Leaves, here_of};
ghost use Rattle.op_core.specs.Heading.{is_same_heading, same_parameters, same_result};
ghost use Rattle.op_tree.specs.Declaration.{heading_of};
ghost use Rattle.op_tree.specs.Denoter.{denoter_of};

use crate::Declarer;
use crate::declarer::is_name;
use crate::variable::copy_of;
use op_base::{NoMemory, Place};
use op_core::{Core, CoreType, Parameter, Routine, Run, Table, TypeId, one_type};
use op_judgement::{Feature, LanguageRule};
use op_tree::{
    Directive, Heading, Name, Parameter as ParameterTree, ParameterMode, ParameterType,
    RoutineKind, TypeDenoter,
};
use op_types::{Meaning, Visible};
use std::alloc::Global;

/// The most parameters of a routine.
const MOST_PARAMETERS: usize = 64;

/// The parameters of a heading so far.
#[derive(Drop)]
pub struct ParameterRows {
    pub rows: Table<Parameter>,
    /// Their names.
    pub seen: Visible,
    /// Whether the type of each is sound.
    pub whole: bool,
}

/// What a heading says, with its parameters in the table.
#[derive(Clone, Copy)]
pub struct Head {
    pub kind: RoutineKind,
    pub parameters: Run,
    pub result: Option<TypeId>,
}

impl ParameterRows {
    fn new(alloc: Global) -> ParameterRows
        ensures { result ≡ no_parameters }
    {
        ParameterRows {
            rows: Table::new(alloc),
            seen: Visible::new(alloc),
            whole: true,
        }
    }

    fn push(
        &mut self,
        alloc: Global,
        mode: ParameterMode,
        of: Option<TypeId>,
        name: &Name,
    ) -> Result<(), NoMemory>
        ensures { IfOk result (λ _. self.new ≡ with_parameter mode of name.now self.old) }
    {
        self.seen.enter(name.text.as_slice(), Meaning::Spoiled)?;
        let Some(of) = of else {
            self.whole = false;
            return Ok(());
        };
        let name = copy_of(alloc, name)?;
        self.rows.push(Parameter { name, mode, of })
    }

    /// A name is that of another parameter, or one that the body has by itself.
    fn is_taken(&self, own: Option<&Name>, name: &Name) -> Result<bool, NoMemory>
        ensures { IfOk result (λ b. b ≡ is_taken (option_copied own.entry) self.now name.now) }
    {
        if is_name(own, name) || is_result(own, name) {
            return Ok(true);
        }
        Ok(self.seen.look_up(name.text.as_slice())?.is_some())
    }
}

impl Declarer {
    /// What a heading says; none where the type of a parameter or of the result is broken.
    pub fn head(&mut self, heading: &Heading) -> Result<Option<Head>, NoMemory>
        ensures { IfOk result (Leaves (head_means (heading_of heading.now) (here_of self.old)) self.old self.new) }
    {
        let mut rows = ParameterRows::new(self.alloc);
        let own = own_name(heading.kind, &heading.name);
        self.parameter_groups(own, heading.parameters.as_slice(), &mut rows)?;
        match self.result_of(&heading.result)? {
            None => Ok(None),
            Some(of) => self.head_by(heading.kind, of, rows),
        }
    }

    /// Whether a routine outside of classes may have such a heading: rule 16 at its name where it may not. Overloading is left out.
    pub fn check_form(&mut self, heading: &Heading, directives: &[Directive]) -> Option<()>
        ensures { Leaves (judged (here_of self.old) (form_means (heading_of heading.now) directives.now)) self.old self.new result }
    {
        let place = heading.name.position.place;
        if overloads(directives) {
            self.refuse(LanguageRule::NotInProfile(Feature::Overloads), place);
            return None;
        }
        if is_plain(heading.kind, heading.result.is_some()) {
            return Some(());
        }
        self.refuse(LanguageRule::WrongKindOfName, place);
        None
    }

    fn parameter_groups(
        &mut self,
        own: Option<&Name>,
        groups: &[ParameterTree],
        rows: &mut ParameterRows,
    ) -> Result<(), NoMemory>
        ensures { IfOk result (λ _. Leaves (parameter_groups (option_copied own.entry) groups.now rows.old (here_of self.old)) self.old self.new (Some rows.new)) }
    {
        for group in groups {
            self.parameter_group(own, group, rows)?;
        }
        Ok(())
    }

    fn parameter_group(
        &mut self,
        own: Option<&Name>,
        group: &ParameterTree,
        rows: &mut ParameterRows,
    ) -> Result<(), NoMemory>
        ensures { IfOk result (λ _. Leaves (parameter_group (option_copied own.entry) group.now rows.old (here_of self.old)) self.old self.new (Some rows.new)) }
    {
        let of = self.parameter_type(group)?;
        self.some_parameters(own, group.mode, of, group.names.as_slice(), rows)
    }

    fn parameter_type(&mut self, group: &ParameterTree) -> Result<Option<TypeId>, NoMemory>
        ensures { IfOk result (Leaves (parameter_type group.now (here_of self.old)) self.old self.new) }
    {
        if group.open_array {
            self.refuse(
                LanguageRule::NotInProfile(Feature::DynamicArrays),
                start_of_type(&group.of),
            );
            return Ok(None);
        }
        match &group.of {
            ParameterType::Named(name) => self.type_named(None, false, name),
            ParameterType::String { position } => Ok(self.string(*position)),
        }
    }

    /// Parameters of one type: rule 14 where a name is taken, 68 where there are too many.
    fn some_parameters(
        &mut self,
        own: Option<&Name>,
        mode: ParameterMode,
        of: Option<TypeId>,
        names: &[Name],
        rows: &mut ParameterRows,
    ) -> Result<(), NoMemory>
        ensures { IfOk result (λ _. Leaves (some_parameters (option_copied own.entry) mode of names.now rows.old (here_of self.old)) self.old self.new (Some rows.new)) }
    {
        for name in names {
            self.one_parameter(own, mode, of, name, rows)?;
        }
        Ok(())
    }

    fn one_parameter(
        &mut self,
        own: Option<&Name>,
        mode: ParameterMode,
        of: Option<TypeId>,
        name: &Name,
        rows: &mut ParameterRows,
    ) -> Result<(), NoMemory>
        ensures { IfOk result (λ _. Leaves (one_parameter (option_copied own.entry) mode of name.now rows.old (here_of self.old)) self.old self.new (Some rows.new)) }
    {
        let place = name.position.place;
        if rows.is_taken(own, name)? {
            self.refuse(LanguageRule::DeclaredTwice, place);
            return Ok(());
        }
        if rows.seen.len() < MOST_PARAMETERS {
            return rows.push(self.alloc, mode, of, name);
        }
        self.refuse(LanguageRule::TooManyParameters, place);
        Ok(())
    }

    /// The type of a result, if one is written; none where it is broken.
    fn result_of(
        &mut self,
        result_type: &Option<TypeDenoter>,
    ) -> Result<Option<Option<TypeId>>, NoMemory>
        ensures { IfOk result (Leaves (result_means (option_map denoter_of result_type.now) (here_of self.old)) self.old self.new) }
    {
        match result_type {
            None => Ok(Some(None)),
            Some(denoter) => match self.denoted(None, false, denoter)? {
                None => Ok(None),
                Some(of) => Ok(Some(Some(of))),
            },
        }
    }

    fn head_by(
        &mut self,
        kind: RoutineKind,
        of: Option<TypeId>,
        rows: ParameterRows,
    ) -> Result<Option<Head>, NoMemory>
        ensures { IfOk result (Leaves (head_by kind of rows (here_of self.old)) self.old self.new) }
    {
        if !rows.whole {
            return Ok(None);
        }
        let first = u32::try_from(self.core.parameters.as_slice().len());
        let count = u32::try_from(rows.rows.as_slice().len());
        let (Ok(first), Ok(count)) = (first, count) else {
            return Err(NoMemory);
        };
        self.core.parameters.append(rows.rows)?;
        Ok(Some(Head {
            kind,
            parameters: Run { first, count },
            result: of,
        }))
    }
}

fn overloads(directives: &[Directive]) -> bool
    ensures { result ≡ list_any is_overload directives.now }
{
    directives.iter().any(|directive| is_overload(*directive))
}

fn is_overload(directive: Directive) -> bool
    ensures { result ≡ is_overload directive }
{
    matches!(directive, Directive::Overload)
}

/// The name that a function has in its own body.
fn own_name(kind: RoutineKind, name: &Name) -> Option<&Name>
    ensures { option_copied result ≡ own_name kind name.now }
{
    match kind {
        RoutineKind::Function => Some(name),
        _ => None,
    }
}

/// The name is the one that the result of a function has in its body.
fn is_result(own: Option<&Name>, name: &Name) -> bool
    ensures { result ≡ is_result (option_copied own.entry) name.now }
{
    match own {
        None => false,
        Some(_) => name.text.as_slice().eq_ignore_ascii_case(b"result"),
    }
}

fn is_plain(kind: RoutineKind, gives: bool) -> bool
    ensures { result ≡ is_plain kind gives }
{
    match kind {
        RoutineKind::Procedure => !gives,
        RoutineKind::Function => gives,
        _ => false,
    }
}

/// The first token of a parameter's type.
fn start_of_type(of: &ParameterType) -> Place
    ensures { result ≡ start_of_type of.now }
{
    match of {
        ParameterType::Named(q) => match &q.unit {
            Some(unit) => unit.position.place,
            None => q.name.position.place,
        },
        ParameterType::String { position } => position.place,
    }
}

/// Whether two routines have the same heading. The names of parameters do not count.
pub fn is_same_heading(core: &Core, a: &Routine, b: &Routine) -> bool
    ensures { result ≡ is_same_heading core.now a.now b.now }
{
    let types = core.types.as_slice();
    a.kind == b.kind
        && is_same_result(types, a.result, b.result)
        && are_same_parameters(
            types,
            core.parameters.rows(a.parameters),
            core.parameters.rows(b.parameters),
        )
}

fn is_same_result(types: &[CoreType], a: Option<TypeId>, b: Option<TypeId>) -> bool
    ensures { result ≡ same_result types.now a b }
{
    match (a, b) {
        (None, None) => true,
        (Some(a), Some(b)) => one_type(types, a, b),
        (None, Some(_)) => false,
        (Some(_), None) => false,
    }
}

fn are_same_parameters(types: &[CoreType], a: &[Parameter], b: &[Parameter]) -> bool
    ensures { result ≡ same_parameters types.now a.now b.now }
{
    match (a.split_first(), b.split_first()) {
        (None, None) => true,
        (Some((x, xs)), Some((y, ys))) => {
            x.mode == y.mode && one_type(types, x.of, y.of) && are_same_parameters(types, xs, ys)
        }
        (None, Some(_)) => false,
        (Some(_), None) => false,
    }
}

//! Whole programs.
ghost use Rattle.std.specs.Prelude.{◌≡◌, ◌∷◌, ℕ, IfErr, IfOk, None, Some, if◌then◌else◌, map, slice_get};
ghost use Rattle.std.specs.Option.{option_map};
ghost use Rattle.op_check_unit.specs.Bodies.{said};
ghost use Rattle.op_check_unit.specs.Checking.{CheckIs, Fills, Finishes};
ghost use Rattle.op_check_unit.specs.FirstValues.{begins_so};
ghost use Rattle.op_check_unit.specs.Outlines.{AllTell, outline_of};
ghost use Rattle.op_check_unit.specs.Programs.{all_completed, all_declared, awaited, awaited_in, awaited_one, declaration_means, files_mean, is_of, name_of, part_means, parts_of_program, program_declared, program_means, unit_completed, with_heading, with_unit};
ghost use Rattle.op_check_unit.specs.Rules.{Obeys, ProgramBreaks};
ghost use Rattle.op_check_unit.specs.Steps.{Declared, Declares, Leaves, here_of};
ghost use Rattle.op_core.specs.Faults.{Faults, kept};
ghost use Rattle.op_judgement.specs.Judgement.{RefusalHasText, checked};
ghost use Rattle.op_tree.specs.Declaration.{declaration_of, declarations_of};
ghost use Rattle.op_tree.specs.File.{file_of, program as program_tree, program_of};
ghost use Rattle.op_tree.specs.Statement.{stmts_of};

use crate::Declarer;
use crate::body::{Owned, place_all};
use crate::exports::Exports;
use crate::first_value::{Begun, begin_all};
use crate::heading::Head;
use crate::interfaces::interface_order;
use crate::unit_names::UnitFiles;
use crate::variable::copy_of;
use op_base::{NoMemory, Place, Refusal, Rule, Text};
use op_core::{CheckError, Core, FirstRefusal, Routine, RoutineId, Run, Unit as UnitRow, UnitId};
use op_judgement::LanguageRule;
use op_scan::CompactText;
use op_tree::{
    Body, Declaration, Name, Position, Program, ProgramHeading, RoutineKind, Stmt, Tree,
};
use std::alloc::Global;

/// The typed program of these files, the main one first, or the first rule that it breaks.
///
/// `order` has the names of the program's units, each behind those that it uses. The rules of the first unit that breaks any count, and
/// those of the program where no unit does; within a file the first place counts, and at one place the least number. Rule 12 comes at
/// line and column 1 where the first file is no program.
pub fn check(alloc: Global, trees: &[Tree], order: &[Text]) -> Result<Core, CheckError>
    ensures means { CheckIs (program_means (map file_of trees.now) order.now) result }
    ensures law { Obeys (ProgramBreaks (map file_of trees.now) order.now) result }
    ensures told { IfErr result RefusalHasText }
{
    let mut declarer = Declarer::new(alloc)?;
    declarer.files(trees, order)?;
    declarer.finish()
}

impl Declarer {
    /// The files of a program, the main one first.
    fn files(&mut self, trees: &[Tree], order: &[Text]) -> Result<(), NoMemory>
        requires { self.old.sink.kept ≡ None }
        ensures { IfOk result (λ _. Declared (files_mean (map file_of trees.now) order.now (here_of self.old)) self.old self.new) }
    {
        match trees.split_first() {
            Some((Tree::Program(program), others)) => self.program_of(program, others, order),
            _ => {
                self.refuse(LanguageRule::OtherFile, START);
                Ok(())
            }
        }
    }

    /// A program behind its units, which are among the files.
    fn program_of(
        &mut self,
        program: &Program,
        files: &[Tree],
        order: &[Text],
    ) -> Result<(), NoMemory>
        requires { self.old.sink.kept ≡ None }
        ensures { IfOk result (λ _. Declared (files_mean (program_tree (program_of program.now) ∷ map file_of files.now) order.now (here_of self.old)) self.old self.new) }
    {
        self.blank_units(order)?;
        let files = UnitFiles::new(self.alloc, files)?;
        let mut exports = Exports::blank(self.alloc, order.len())?;
        let numbers = interface_order(self.alloc, order, &files)?;
        self.interfaces(order, &files, numbers.as_slice(), &mut exports)?;
        self.parts_of_program(program, &files, order, &exports)
    }

    /// What stands behind the interface parts.
    fn parts_of_program(
        &mut self,
        program: &Program,
        files: &UnitFiles,
        order: &[Text],
        exports: &Exports,
    ) -> Result<(), NoMemory>
        requires { self.old.sink.kept ≡ None }
        ensures { (faults : ℕ → Faults) → AllTell exports.now faults → IfOk result (λ _. Declared (parts_of_program (program_of program.now) order.now (map file_of files.now.trees.now) faults (outline_of exports.now self.old)) self.old self.new) }
    {
        self.units(files, exports)?;
        if self.sink.kept.is_some() {
            return Ok(());
        }
        self.enter_unit(order.len())?;
        self.program(exports, program)
    }

    /// The program itself, the last of the units.
    fn program(&mut self, exports: &Exports, program: &Program) -> Result<(), NoMemory>
        ensures { IfOk result (λ _. Declares (program_declared exports.now (program_of program.now) (here_of self.old)) self.old self.new) }
    {
        let start = self.core.globals.as_slice().len();
        self.uses(exports, program.uses.as_slice())?;
        self.enter_heading(&program.heading)?;
        self.all_declared_in(&program.declarations)?;
        self.all_completed();
        let name = name_of(self.alloc, program.position, &program.heading)?;
        let main = self.statement_part(&name, &program.statements)?;
        self.end_unit(start, &name, Some(main), None)
    }

    fn enter_heading(&mut self, heading: &Option<ProgramHeading>) -> Result<(), NoMemory>
        ensures here { IfOk result (λ _. here_of self.new ≡ with_heading heading.now (here_of self.old)) }
        ensures kept { self.new.sink ≡ self.old.sink }
    {
        match heading {
            None => {
                self.open();
                Ok(())
            }
            Some(heading) => self.enter_own(&heading.name),
        }
    }

    pub fn all_declared_in(&mut self, declarations: &[Declaration]) -> Result<(), NoMemory>
        ensures { IfOk result (λ _. Declares (all_declared (declarations_of declarations.now) (here_of self.old)) self.old self.new) }
    {
        for declaration in declarations {
            self.declaration(declaration)?;
        }
        Ok(())
    }

    fn declaration(&mut self, declaration: &Declaration) -> Result<(), NoMemory>
        ensures { IfOk result (λ _. Declares (declaration_means (declaration_of declaration.now) (here_of self.old)) self.old self.new) }
    {
        match declaration {
            Declaration::Constants(list) => self.constants(list),
            Declaration::Types(list) => self.types(list),
            Declaration::Variables(list) => self.variables(list),
            Declaration::Heading(ahead) => {
                self.routine(&ahead.heading, ahead.directives.as_slice(), &Body::Forward)
            }
            Declaration::Routine(routine) => self.routine(
                &routine.heading,
                routine.directives.as_slice(),
                &routine.body,
            ),
        }
    }

    /// Rule 18 for each routine of the unit whose body has not come.
    pub fn unit_completed(&mut self)
        ensures { Declares (unit_completed (here_of self.old)) self.old self.new }
    {
        report_missing_in(
            &mut self.sink,
            self.unit,
            self.core.routines.as_slice(),
            self.awaited.as_slice(),
        );
    }

    /// Rule 18 for each routine whose body has not come.
    fn all_completed(&mut self)
        ensures { Declares (all_completed (here_of self.old)) self.old self.new }
    {
        report_missing(&mut self.sink, self.awaited.as_slice());
    }

    /// A part of a unit, if it is there.
    pub fn part(
        &mut self,
        name: &Name,
        statements: &Option<Vec<Stmt>>,
    ) -> Result<Option<RoutineId>, NoMemory>
        ensures { IfOk result (λ id. Leaves (part_means name.now (option_map (λ ss. stmts_of ss.items) statements.now) (here_of self.old)) self.old self.new (Some id)) }
    {
        match statements {
            None => Ok(None),
            Some(statements) => Ok(Some(self.statement_part(name, statements)?)),
        }
    }

    /// The statements of a part, as a routine under the name of the unit.
    fn statement_part(&mut self, name: &Name, statements: &[Stmt]) -> Result<RoutineId, NoMemory>
        ensures { IfOk result (λ id. Leaves (part_means name.now (Some (stmts_of statements.now)) (here_of self.old)) self.old self.new (Some (Some id))) }
    {
        let id = self.new_routine(name, MAIN, None)?;
        self.statements(id, statements)?;
        Ok(id)
    }

    /// The row of a unit, behind its parts. Its globals begin at `start`.
    pub fn end_unit(
        &mut self,
        start: usize,
        name: &Name,
        initialization: Option<RoutineId>,
        finalization: Option<RoutineId>,
    ) -> Result<(), NoMemory>
        ensures here { IfOk result (λ _. here_of self.new ≡ with_unit start name.now initialization finalization (here_of self.old)) }
        ensures kept { self.new.sink ≡ self.old.sink }
    {
        let count = self.core.globals.as_slice().len().saturating_sub(start);
        let (Ok(first), Ok(count)) = (u32::try_from(start), u32::try_from(count)) else {
            return Err(NoMemory);
        };
        let name = Text::copy_of(self.alloc, name.text.as_slice())?;
        let number = self.unit.0 as usize;
        if number < self.core.units.as_slice().len() {
            let row = UnitRow {
                name,
                globals: Run { first, count },
                initialization,
                finalization,
            };
            self.core.units.replace(number, row);
        }
        Ok(())
    }

    /// The typed program, unless a rule was broken.
    fn finish(self) -> Result<Core, CheckError>
        ensures { Finishes self result }
    {
        let core = filled(self.alloc, self.core, self.bodies, self.first_values)?;
        self.sink.or_typed(core)
    }
}

/// The program with bodies and first values in their rows.
#[tactic(auto, using(crate::proofs::Placing::fills))]
fn filled(
    alloc: Global,
    core: Core,
    bodies: Vec<Owned>,
    values: Vec<Begun>,
) -> Result<Core, NoMemory>
    ensures { IfOk result (λ new. Fills (map said bodies.items) (map begins_so values.items) core new) }
{
    let mut core = core;
    place_all(alloc, &mut core, bodies)?;
    begin_all(alloc, &mut core, values)?;
    Ok(core)
}

/// What the statements of a program are as a routine: a procedure without parameters.
const MAIN: Head = Head {
    kind: RoutineKind::Procedure,
    parameters: Run { first: 0, count: 0 },
    result: None,
};

/// Where the main file begins.
const START: Place = Place {
    file: 0,
    line: 1,
    col: 1,
};

/// The name of a program; an empty one where it has no heading.
fn name_of(
    alloc: Global,
    position: Position,
    heading: &Option<ProgramHeading>,
) -> Result<Name, NoMemory>
    ensures { IfOk result (λ name. name ≡ name_of position heading.now) }
{
    match heading {
        None => {
            let text = CompactText::copy_of(alloc, b"")?;
            Ok(Name { text, position })
        }
        Some(heading) => copy_of(alloc, &heading.name),
    }
}

/// Reports where bodies are still awaited from.
fn report_missing(sink: &mut FirstRefusal, places: &[Option<Place>])
    ensures { sink.new.kept ≡ kept sink.old.kept (checked (awaited places.now)).faults }
{
    for place in places {
        report_missing_one(sink, *place);
    }
}

/// The same for the routines of one unit.
fn report_missing_in(
    sink: &mut FirstRefusal,
    unit: UnitId,
    routines: &[Routine],
    places: &[Option<Place>],
)
    ensures { sink.new.kept ≡ kept sink.old.kept (checked (awaited_in unit routines.now 0 places.now)).faults }
{
    for (number, place) in places.iter().enumerate() {
        report_missing_if(sink, is_of(unit, routines, number), *place);
    }
}

fn report_missing_if(sink: &mut FirstRefusal, asked: bool, place: Option<Place>)
    ensures { sink.new.kept ≡ kept sink.old.kept (checked (awaited_one (if asked then place else None))).faults }
{
    if asked {
        report_missing_one(sink, place);
    }
}

/// Whether the routine of this number is one of the unit.
fn is_of(unit: UnitId, routines: &[Routine], number: usize) -> bool
    ensures { result ≡ is_of unit (slice_get routines.now number) }
{
    match routines.get(number) {
        None => false,
        Some(routine) => routine.unit.0 == unit.0,
    }
}

/// Reports where a body is still awaited from.
fn report_missing_one(sink: &mut FirstRefusal, place: Option<Place>)
    ensures { sink.new.kept ≡ kept sink.old.kept (checked (awaited_one place)).faults }
{
    if let Some(place) = place {
        let rule = LanguageRule::NoBody.rule();
        sink.report(Refusal { rule, place });
    }
}

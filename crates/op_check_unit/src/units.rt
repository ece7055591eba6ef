//! Units: first the interface parts of all of them, and then the rest of each in their order.
ghost use Rattle.op_judgement.specs.Steps.{done};
ghost use Rattle.std.specs.Prelude.{◌≡◌, ◌++◌, [], ◌∷◌, ℕ, IfOk, None, Some, map, slice_get, slice_set};
ghost use Rattle.std.specs.Option.{option_copied, option_map};
ghost use Rattle.op_check_unit.specs.Outlines.{AllTell, Tells, is_blank, outline_of};
ghost use Rattle.op_check_unit.specs.Programs.{all_outlined, blank_unit, faulted, global_counted, globals_counted, implementation_means, in_unit, interface_means, outer, outlined, reopened, unit_completes, unit_declared, unit_means, units_mean, with_interface, with_units};
ghost use Rattle.op_check_unit.specs.Steps.{Declared, Declares, here_of};
ghost use Rattle.op_core.specs.Faults.{Faults};
ghost use Rattle.op_tree.specs.File.{file_of, unit_of};

use crate::Declarer;
use crate::exports::Exports;
use crate::interfaces::unit_at;
use crate::unit_names::UnitFiles;
use crate::uses::Export;
use op_base::{NoMemory, Place, Text};
use op_core::{Core, Run, Table, TypeId, Unit as UnitRow, UnitId, VariableId, size_of};
use op_tree::Unit;
use std::alloc::Global;

impl Declarer {
    /// A row for each unit and for the program.
    pub fn blank_units(&mut self, order: &[Text]) -> Result<(), NoMemory>
        ensures here { IfOk result (λ _. here_of self.new ≡ with_units order.now (here_of self.old)) }
        ensures kept { self.new.sink ≡ self.old.sink }
    {
        push_blank_units(self.alloc, &mut self.core.units, order)?;
        self.core.units.push(blank_unit(self.alloc, b"")?)
    }

    /// The parts of the unit of this number are declared from here on.
    pub fn enter_unit(&mut self, number: usize) -> Result<(), NoMemory>
        ensures here { IfOk result (λ _. here_of self.new ≡ in_unit number (here_of self.old)) }
        ensures kept { self.new.sink ≡ self.old.sink }
    {
        let Ok(number) = u32::try_from(number) else {
            return Err(NoMemory);
        };
        self.unit = UnitId(number);
        Ok(())
    }

    /// The interface parts of these units, one behind the other.
    pub fn interfaces(
        &mut self,
        order: &[Text],
        files: &UnitFiles,
        numbers: &[usize],
        exports: &mut Exports,
    ) -> Result<(), NoMemory>
        requires { self.old.sink.kept ≡ None }
        ensures outline { IfOk result (λ _. outline_of exports.new self.new ≡ all_outlined order.now (map file_of files.now.trees.now) numbers.now (outline_of exports.old self.old)) }
        ensures clear { IfOk result (λ _. self.new.sink.kept ≡ None) }
    {
        for number in numbers {
            self.interface_if_any(order, files, *number, exports)?;
        }
        Ok(())
    }

    /// The interface part of a unit that is there, unless it is declared.
    fn interface_if_any(
        &mut self,
        order: &[Text],
        files: &UnitFiles,
        number: usize,
        exports: &mut Exports,
    ) -> Result<(), NoMemory>
        requires { self.old.sink.kept ≡ None }
        ensures outline { IfOk result (λ _. outline_of exports.new self.new ≡ outlined order.now (map file_of files.now.trees.now) number (outline_of exports.old self.old)) }
        ensures clear { IfOk result (λ _. self.new.sink.kept ≡ None) }
    {
        if !is_blank(exports.as_slice(), number) {
            return Ok(());
        }
        let Some(unit) = unit_at(order, files, number)? else {
            return Ok(());
        };
        let export = self.interface(exports, number, unit)?;
        exports.set(number, export)?;
        Ok(())
    }

    /// The interface part of a unit, whose names are gone behind it but for what it exports.
    fn interface(
        &mut self,
        exports: &Exports,
        number: usize,
        unit: &Unit,
    ) -> Result<Export, NoMemory>
        requires { self.old.sink.kept ≡ None }
        ensures outline { IfOk result (λ e. record { exports = slice_set exports.now number (Some e); here = here_of self.new } ≡ with_interface number (unit_of unit.now) (record { exports = exports.now; here = here_of self.old })) }
        ensures clear { IfOk result (λ _. self.new.sink.kept ≡ None) }
    {
        let names = self.visible.len();
        self.enter_unit(number)?;
        self.interface_part(exports, unit)?;
        let export = self.export(&unit.name)?;
        self.leave_unit(names);
        Ok(export)
    }

    fn interface_part(&mut self, exports: &Exports, unit: &Unit) -> Result<(), NoMemory>
        ensures { IfOk result (λ _. Declares (interface_means exports.now (unit_of unit.now) (here_of self.old)) self.old self.new) }
    {
        self.uses(exports, unit.interface_uses.as_slice())?;
        self.enter_own(&unit.name)?;
        self.all_declared_in(&unit.interface_declarations)
    }

    /// Goes back to what stands round all units: the first names.
    fn leave_unit(&mut self, names: usize)
        ensures here { here_of self.new ≡ outer names (here_of self.old) }
        ensures kept { self.new.sink ≡ self.old.sink }
    {
        self.visible.leave(names);
        self.own = None;
        self.open();
    }

    /// The units in their order, up to the first one that breaks a rule.
    pub fn units(&mut self, files: &UnitFiles, exports: &Exports) -> Result<(), NoMemory>
        requires { self.old.sink.kept ≡ None }
        ensures { (faults : ℕ → Faults) → AllTell exports.now faults → IfOk result (λ _. Declared (units_mean (map file_of files.now.trees.now) exports.now faults 0 exports.now (here_of self.old)) self.old self.new) }
    {
        for export in exports.as_slice() {
            self.unit_if_any(files, exports, export)?;
            if self.sink.kept.is_some() {
                return Ok(());
            }
        }
        Ok(())
    }

    /// A unit behind its interface part, if that is declared, with the first rule that it breaks.
    fn unit_if_any(
        &mut self,
        files: &UnitFiles,
        exports: &Exports,
        export: &Option<Export>,
    ) -> Result<(), NoMemory>
        requires { self.old.sink.kept ≡ None }
        ensures { (f : Faults) → Tells export.now f → IfOk result (λ _. Declared (faulted f (done (unit_completes (map file_of files.now.trees.now) exports.now export.now (here_of self.old)))) self.old self.new) }
    {
        match export {
            None => Ok(()),
            Some(export) => {
                self.sink.kept = export.broken;
                self.unit_completes(files, exports, export)
            }
        }
    }

    fn unit_completes(
        &mut self,
        files: &UnitFiles,
        exports: &Exports,
        export: &Export,
    ) -> Result<(), NoMemory>
        ensures { IfOk result (λ _. Declares (unit_completes (map file_of files.now.trees.now) exports.now (Some export.now) (here_of self.old)) self.old self.new) }
    {
        let start = self.core.globals.as_slice().len();
        self.unit = export.id;
        self.globals_counted(export.globals.as_slice())?;
        let unit = files.unit_named(export.unit.as_slice())?;
        self.unit_means(exports, start, export, unit)
    }

    /// Puts the global variables of an interface part into the table.
    fn globals_counted(&mut self, globals: &[VariableId]) -> Result<(), NoMemory>
        ensures { IfOk result (λ _. Declares (globals_counted globals.now (here_of self.old)) self.old self.new) }
    {
        for global in globals {
            self.global_counted(*global)?;
        }
        Ok(())
    }

    fn global_counted(&mut self, global: VariableId) -> Result<(), NoMemory>
        ensures { IfOk result (λ _. Declares (global_counted global (here_of self.old)) self.old self.new) }
    {
        let Some((of, place)) = global_at(&self.core, global) else {
            return Ok(());
        };
        let size = size_of(&self.core, of) as u64;
        self.bytes = self.bytes.saturating_add(size);
        self.core.globals.push(global)?;
        self.fit_globals(place);
        Ok(())
    }

    fn unit_means(
        &mut self,
        exports: &Exports,
        start: usize,
        export: &Export,
        unit: Option<&Unit>,
    ) -> Result<(), NoMemory>
        ensures { IfOk result (λ _. Declares (unit_means exports.now start export.now (option_map unit_of (option_copied unit.entry)) (here_of self.old)) self.old self.new) }
    {
        match unit {
            None => Ok(()),
            Some(unit) => self.unit(exports, start, export, unit),
        }
    }

    /// The rest of a unit, whose names are gone behind it.
    fn unit(
        &mut self,
        exports: &Exports,
        start: usize,
        export: &Export,
        unit: &Unit,
    ) -> Result<(), NoMemory>
        ensures { IfOk result (λ _. Declares (unit_declared exports.now start export.now (unit_of unit.now) (here_of self.old)) self.old self.new) }
    {
        let names = self.visible.len();
        self.implementation(exports, start, export, unit)?;
        self.leave_unit(names);
        Ok(())
    }

    /// The implementation part of a unit, and the parts behind it.
    fn implementation(
        &mut self,
        exports: &Exports,
        start: usize,
        export: &Export,
        unit: &Unit,
    ) -> Result<(), NoMemory>
        ensures { IfOk result (λ _. Declares (implementation_means exports.now start export.now (unit_of unit.now) (here_of self.old)) self.old self.new) }
    {
        self.reopen(exports, export, unit)?;
        self.all_declared_in(&unit.declarations)?;
        self.unit_completed();
        let initialization = self.part(&unit.name, &unit.initialization)?;
        let finalization = self.part(&unit.name, &unit.finalization)?;
        self.end_unit(start, &unit.name, initialization, finalization)
    }

    /// Goes on in the scope of a unit, with what its two parts use in front of it.
    fn reopen(&mut self, exports: &Exports, export: &Export, unit: &Unit) -> Result<(), NoMemory>
        ensures { IfOk result (λ _. Declares (reopened exports.now export.now (unit_of unit.now) (here_of self.old)) self.old self.new) }
    {
        self.uses(exports, unit.interface_uses.as_slice())?;
        self.uses(exports, unit.uses.as_slice())?;
        self.enter_own(&unit.name)?;
        self.put_back(export)
    }
}

/// The type of a variable, and where its name stands.
fn global_at(core: &Core, global: VariableId) -> Option<(TypeId, Place)>
    ensures { result ≡ option_map (λ x. (x.of, x.name.position.place)) (slice_get core.now.variables global.0) }
{
    match core.variables.as_slice().get(global.0 as usize) {
        None => None,
        Some(row) => Some((row.of, row.name.position.place)),
    }
}

/// There is a unit of this number whose interface part is not declared.
fn is_blank(exports: &[Option<Export>], number: usize) -> bool
    ensures { result ≡ is_blank (slice_get exports.now number) }
{
    match exports.get(number) {
        None => false,
        Some(None) => true,
        Some(Some(_)) => false,
    }
}

fn push_blank_units(
    alloc: Global,
    units: &mut Table<UnitRow>,
    order: &[Text],
) -> Result<(), NoMemory>
    ensures { IfOk result (λ _. units.new ≡ units.old ++ map blank_unit order.now) }
{
    for name in order {
        units.push(blank_unit(alloc, name.as_slice())?)?;
    }
    Ok(())
}

/// The row of a unit whose parts are not declared.
fn blank_unit(alloc: Global, name: &[u8]) -> Result<UnitRow, NoMemory>
    ensures { IfOk result (λ row. row ≡ blank_unit name.now) }
{
    Ok(UnitRow {
        name: Text::copy_of(alloc, name)?,
        globals: Run { first: 0, count: 0 },
        initialization: None,
        finalization: None,
    })
}

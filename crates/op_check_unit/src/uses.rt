//! What units export and use.
ghost use Rattle.std.specs.Prelude.{◌≡◌, [], ◌∷◌, ◌++◌, IfOk, None, drop};
ghost use Rattle.std.specs.Str.{str_eq_ignore_ascii_case};
ghost use Rattle.op_check_unit.specs.Steps.{Declares, here_of};
ghost use Rattle.op_check_unit.specs.Uses.{is_system, opened, put_back, put_apart, used, uses_mean, with_own};
ghost use Rattle.op_types.specs.Names.{lower};
ghost use Rattle.op_types.specs.declared.visible.Meaning.TheVariants.{Unit as UnitName};

use crate::Declarer;
use crate::exports::Exports;
use op_base::{NoMemory, Refusal};
use op_core::{Table, UnitId, VariableId};
use op_judgement::LanguageRule;
use op_scan::CompactText;
use op_tree::Name;
use op_types::{Meaning, SharedNames, Visible};
use std::mem;

/// What the interface part of a unit declares.
#[derive(Drop)]
pub struct Export {
    /// The name of the unit.
    pub unit: CompactText,
    pub id: UnitId,
    /// The names of its scope, as those see it that use the unit: each alone, and behind the name of the unit.
    pub names: SharedNames,
    /// How many names its scope has.
    pub count: usize,
    /// Its global variables, which come into the table with those of the implementation part.
    pub globals: Table<VariableId>,
    /// The first rule that it breaks.
    pub broken: Option<Refusal>,
}

impl Declarer {
    /// Begins a scope.
    pub fn open(&mut self)
        ensures here { here_of self.new ≡ opened (here_of self.old) }
        ensures kept { self.new.sink ≡ self.old.sink }
    {
        self.first = self.visible.len();
        self.count = 0;
    }

    /// Begins the scope of a unit or a program, whose name stands around it.
    pub fn enter_own(&mut self, name: &Name) -> Result<(), NoMemory>
        ensures here { IfOk result (λ _. here_of self.new ≡ with_own name.now (here_of self.old)) }
        ensures kept { self.new.sink ≡ self.old.sink }
    {
        let text = name.text.as_slice();
        self.visible.enter(text, Meaning::Unit(self.unit))?;
        self.own = Some(CompactText::copy_of(self.alloc, text)?);
        self.open();
        Ok(())
    }

    /// What the scope has behind the interface part. Its global variables are taken out of the table, and no rule is broken then.
    pub fn export(&mut self, name: &Name) -> Result<Export, NoMemory>
        ensures export { IfOk result (λ e. e ≡ record { unit = name.now.text; id = self.old.unit; names = drop self.old.first self.old.visible; count = self.old.count; globals = self.old.core.globals; broken = self.old.sink.kept }) }
        ensures here { IfOk result (λ _. here_of self.new ≡ put_apart (here_of self.old)) }
        ensures clear { IfOk result (λ _. self.new.sink.kept ≡ None) }
    {
        let unit = CompactText::copy_of(self.alloc, name.text.as_slice())?;
        let names = self.visible.since(self.first)?;
        self.bytes = 0;
        Ok(Export {
            unit,
            id: self.unit,
            names,
            count: self.count,
            globals: mem::replace(&mut self.core.globals, Table::new(self.alloc)),
            broken: self.sink.kept.take(),
        })
    }

    /// Enters what units export, the names of these first.
    pub fn uses(&mut self, exports: &Exports, names: &[Name]) -> Result<(), NoMemory>
        ensures { IfOk result (λ _. Declares (uses_mean exports.now names.now (here_of self.old)) self.old self.new) }
    {
        for name in names {
            self.used(exports, name)?;
        }
        Ok(())
    }

    /// Enters what a unit exports. The names of System are there already.
    fn used(&mut self, exports: &Exports, name: &Name) -> Result<(), NoMemory>
        ensures { IfOk result (λ _. Declares (used exports.now name.now (here_of self.old)) self.old self.new) }
    {
        if is_system(name) {
            return Ok(());
        }
        match exports.of(name)? {
            None => {
                self.refuse(LanguageRule::MissingFile, name.position.place);
                Ok(())
            }
            Some(export) => enter_used(&mut self.visible, export),
        }
    }

    /// Goes on in the scope of an interface part.
    pub fn put_back(&mut self, export: &Export) -> Result<(), NoMemory>
        ensures here { IfOk result (λ _. here_of self.new ≡ put_back export.now (here_of self.old)) }
        ensures kept { self.new.sink ≡ self.old.sink }
    {
        self.visible.enter_all(&export.names)?;
        self.count = export.count;
        Ok(())
    }
}

/// The name of a unit, and behind it what it exports.
fn enter_used(visible: &mut Visible, export: &Export) -> Result<(), NoMemory>
    ensures { IfOk result (λ _. visible.new ≡ (visible.old ++ record { name = lower export.now.unit; meaning = UnitName export.now.id } ∷ []) ++ export.now.names) }
{
    visible.enter(export.unit.as_slice(), Meaning::Unit(export.id))?;
    visible.enter_all(&export.names)
}

/// The name of System.
fn is_system(name: &Name) -> bool
    ensures { result ≡ is_system name.now }
{
    is_same_name(name.text.as_slice(), b"System")
}

/// Names are the same whatever the case of their letters.
fn is_same_name(a: &[u8], b: &[u8]) -> bool
    ensures { result ≡ str_eq_ignore_ascii_case a.now b.now }
{
    a.eq_ignore_ascii_case(b)
}

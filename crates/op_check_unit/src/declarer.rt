//! What is declared so far.
ghost use Rattle.op_judgement.specs.Judgement.{fault};
ghost use Rattle.std.specs.Prelude.{◌≡◌, ◌+◌, IfOk};
ghost use Rattle.op_check_unit.specs.Naming.{all_ahead, declared, declared_within, ended, entered_name, has_room, is_declared, is_name, with_ahead, with_declared, with_name};
ghost use Rattle.std.specs.Option.{option_copied};
ghost use Rattle.op_check_unit.specs.Steps.{Declares, here_of};
ghost use Rattle.op_core.specs.Faults.{earlier};

use crate::body::Owned;
use crate::first_value::Begun;
use op_base::{NoMemory, Place, Refusal};
use op_core::{Core, FirstRefusal, RoutineId, Table, UnitId};
use op_judgement::LanguageRule;
use op_scan::CompactText;
use op_tree::Name;
use op_types::{Meaning, Visible};
use std::alloc::Global;

/// The most names that a scope may have.
pub const MOST_NAMES: usize = 65_535;

/// What is declared so far.
#[derive(Drop)]
pub struct Declarer {
    pub alloc: Global,
    /// The typed program so far.
    pub core: Core,
    /// The unit whose parts are declared: its number is its place in the order of units, and that of the program comes behind these.
    pub unit: UnitId,
    pub visible: Visible,
    /// How many of the visible names were declared before the innermost scope.
    pub first: usize,
    /// How many names the innermost scope has.
    pub count: usize,
    /// The name of the unit or the program whose own scope it is, behind which each name of that stands too.
    pub own: Option<CompactText>,
    /// The names of the declaration that is under way, which stand in front and are declared at its end.
    pub ahead: Visible,
    /// How many bytes the variables and typed constants of this scope have so far: the globals, or the locals of a routine.
    pub bytes: u64,
    /// The routine whose locals are declared; None where globals are.
    pub routine: Option<RoutineId>,
    /// Where a routine was declared ahead whose body has not come yet, for each routine.
    pub awaited: Table<Option<Place>>,
    /// The bodies so far, which are put into the rows of their routines at the end.
    pub bodies: Vec<Owned>,
    /// The first values so far, which are put into the rows of their variables at the end.
    pub first_values: Vec<Begun>,
    /// The first rule that was broken.
    pub sink: FirstRefusal,
}

impl Declarer {
    /// Reports a rule at a place.
    pub fn refuse(&mut self, rule: LanguageRule, place: Place)
        ensures stays { here_of self.new ≡ here_of self.old }
        ensures kept { self.new.sink.kept ≡ earlier self.old.sink.kept (fault rule place) }
    {
        let rule = rule.rule();
        self.sink.report(Refusal { rule, place });
    }

    /// Declares a name, which is visible from then on: rule 14 where it is declared in this scope, 64 where the scope has no room.
    pub fn declare(&mut self, name: &Name, meaning: Meaning) -> Result<(), NoMemory>
        ensures { IfOk result (λ _. Declares (declared name.now meaning (here_of self.old)) self.old self.new) }
    {
        let taken = self.is_declared(name)?;
        self.enter(name, meaning, taken, 0)
    }

    /// Declares a name within the declaration of others, which stand in front of it and are declared later.
    pub fn declare_within(&mut self, name: &Name, meaning: Meaning) -> Result<(), NoMemory>
        ensures { IfOk result (λ _. Declares (declared_within name.now meaning (here_of self.old)) self.old self.new) }
    {
        let ahead = self.ahead.look_up(name.text.as_slice())?.is_some();
        let taken = ahead || self.is_declared(name)?;
        let more = self.ahead.len();
        self.enter(name, meaning, taken, more)
    }

    /// Begins a declaration of a name.
    pub fn stand_ahead(&mut self, name: &Name) -> Result<(), NoMemory>
        ensures here { IfOk result (λ _. here_of self.new ≡ with_ahead name.now (here_of self.old)) }
        ensures kept { self.new.sink ≡ self.old.sink }
    {
        self.ahead.enter(name.text.as_slice(), Meaning::Spoiled)
    }

    /// Begins a declaration of these names.
    pub fn all_ahead(&mut self, names: &[Name]) -> Result<(), NoMemory>
        ensures here { IfOk result (λ _. here_of self.new ≡ all_ahead names.now (here_of self.old)) }
        ensures kept { self.new.sink ≡ self.old.sink }
    {
        for name in names {
            self.stand_ahead(name)?;
        }
        Ok(())
    }

    /// Ends a declaration, up to its names.
    pub fn end(&mut self)
        ensures here { here_of self.new ≡ ended (here_of self.old) }
        ensures kept { self.new.sink ≡ self.old.sink }
    {
        self.ahead.leave(0);
    }

    pub fn is_declared(&self, name: &Name) -> Result<bool, NoMemory>
        ensures { IfOk result (λ b. b ≡ is_declared (here_of self.now) name.now) }
    {
        self.visible
            .is_declared_since(self.first, name.text.as_slice())
    }

    /// Enters a name, unless it is taken or there is no room for it and for so many more.
    fn enter(
        &mut self,
        name: &Name,
        meaning: Meaning,
        taken: bool,
        more: usize,
    ) -> Result<(), NoMemory>
        ensures { IfOk result (λ _. Declares (entered_name taken more name.now meaning (here_of self.old)) self.old self.new) }
    {
        let place = name.position.place;
        if taken {
            self.refuse(LanguageRule::DeclaredTwice, place);
            return Ok(());
        }
        if !self.has_room(more) {
            self.refuse(LanguageRule::TooManyNames, place);
            return Ok(());
        }
        self.enter_declared(name, meaning)
    }

    /// Enters a name, and in the scope of a unit also behind the name of that.
    fn enter_declared(&mut self, name: &Name, meaning: Meaning) -> Result<(), NoMemory>
        ensures here { IfOk result (λ _. here_of self.new ≡ with_declared name.now meaning (here_of self.old)) }
        ensures kept { self.new.sink ≡ self.old.sink }
    {
        let Some(own) = &self.own else {
            return self.enter_alone(name, meaning);
        };
        let mut joined = Vec::from_slice(self.alloc, own.as_slice())?;
        joined.push(b'.')?;
        joined.extend_from_slice(name.text.as_slice())?;
        let again = meaning.copy(self.alloc)?;
        self.enter_alone(name, meaning)?;
        self.visible.enter(joined.as_slice(), again)
    }

    /// Enters a name in the innermost scope.
    pub fn enter_alone(&mut self, name: &Name, meaning: Meaning) -> Result<(), NoMemory>
        ensures here { IfOk result (λ _. here_of self.new ≡ with_name name.now meaning (here_of self.old)) }
        ensures kept { self.new.sink ≡ self.old.sink }
    {
        let Some(count) = self.count.checked_add(1) else {
            return Err(NoMemory);
        };
        self.visible.enter(name.text.as_slice(), meaning)?;
        self.count = count;
        Ok(())
    }

    fn has_room(&self, more: usize) -> bool
        ensures { result ≡ has_room more (here_of self.now) }
    {
        self.count.saturating_add(more) < MOST_NAMES
    }
}

/// The name is this one.
pub fn is_name(own: Option<&Name>, name: &Name) -> bool
    ensures { result ≡ is_name (option_copied own.entry) name.now }
{
    match own {
        None => false,
        Some(own) => own
            .text
            .as_slice()
            .eq_ignore_ascii_case(name.text.as_slice()),
    }
}

//! Types that are named.
ghost use Rattle.op_core.specs.declared.ids.TypeId.{TypeId as TypeId'};
ghost use Rattle.op_judgement.specs.Judgement.{fine, refused};
ghost use Rattle.op_judgement.specs.declared.rules.LanguageRule.TheVariants.{WrongKindOfName};
ghost use Rattle.op_judgement.specs.Steps.{judged};
ghost use Rattle.std.specs.Prelude.{◌≡◌, IfOk};
ghost use Rattle.op_check_expr.specs.Naming.{feature_of_type};
ghost use Rattle.std.specs.Option.{option_copied};
ghost use Rattle.op_check_unit.specs.Naming.{by_type, own_type, place_of, told_by, told_in, type_alone, type_meant, type_named, type_of_unit};
ghost use Rattle.op_check_unit.specs.Steps.{Declares, Leaves, here_of};
ghost use Rattle.op_types.specs.Names.{lower};

use crate::Declarer;
use crate::declarer::is_name;
use op_base::{NoMemory, Place};
use op_check_expr::feature_of_type;
use op_core::{TypeId, type_at};
use op_judgement::{Feature, LanguageRule};
use op_tree::{Name, QualifiedName};
use op_types::{BuiltIn, Meaning};

/// What a name stands for, as far as types ask.
#[derive(Clone, Copy)]
pub enum Told {
    Unknown,
    /// Its declaration breaks a rule.
    Spoiled,
    /// It is a type.
    Known(TypeId),
    /// It is a type that is not in this profile, by its feature.
    LeftOutType(Feature),
    Unit,
    Other,
}

pub fn told_by(meaning: Option<&Meaning>) -> Told
    ensures { result ≡ told_by (option_copied meaning.entry) }
{
    match meaning {
        None => Told::Unknown,
        Some(Meaning::Spoiled) => Told::Spoiled,
        Some(Meaning::TypeName(of)) => Told::Known(*of),
        Some(Meaning::BuiltIn(BuiltIn::LeftOut(feature))) => Told::LeftOutType(*feature),
        Some(Meaning::Unit(_)) => Told::Unit,
        Some(_) => Told::Other,
    }
}

impl Declarer {
    /// The type that a name stands for in the declaration of another one: rule 15 where it is unknown, 16 where it is no type,
    /// 38 where the other one would contain itself.
    pub fn type_named(
        &mut self,
        own: Option<&Name>,
        inside: bool,
        q: &QualifiedName,
    ) -> Result<Option<TypeId>, NoMemory>
        ensures { IfOk result (Leaves (judged (here_of self.old) (type_named self.old.core self.old.visible (option_copied own.entry) inside q.now)) self.old self.new) }
    {
        match &q.unit {
            Some(unit) => self.type_of_unit(unit, &q.name),
            None => self.type_alone(own, inside, &q.name),
        }
    }

    /// A name without a unit.
    fn type_alone(
        &mut self,
        own: Option<&Name>,
        inside: bool,
        name: &Name,
    ) -> Result<Option<TypeId>, NoMemory>
        ensures { IfOk result (Leaves (judged (here_of self.old) (type_alone self.old.core self.old.visible (option_copied own.entry) inside name.now)) self.old self.new) }
    {
        let place = name.position.place;
        if is_name(own, name) {
            return Ok(self.own_type(own, inside, place));
        }
        let meaning = told_by(self.visible.look_up(name.text.as_slice())?);
        Ok(self.type_meant(place, meaning))
    }

    /// A name of a unit.
    fn type_of_unit(&mut self, unit: &Name, name: &Name) -> Result<Option<TypeId>, NoMemory>
        ensures { IfOk result (Leaves (judged (here_of self.old) (type_of_unit self.old.core self.old.visible unit.now name.now (told_in self.old.visible (lower unit.now.text)))) self.old self.new) }
    {
        let place = unit.position.place;
        match told_by(self.visible.look_up(unit.text.as_slice())?) {
            Told::Unit => {
                let mut joined = Vec::from_slice(self.alloc, unit.text.as_slice())?;
                joined.push(b'.')?;
                joined.extend_from_slice(name.text.as_slice())?;
                let meaning = told_by(self.visible.look_up(joined.as_slice())?);
                Ok(self.type_meant(name.position.place, meaning))
            }
            Told::Known(of) => {
                self.no_type(place, of);
                Ok(None)
            }
            other => Ok(self.type_meant(place, other)),
        }
    }

    /// The type of a name of this meaning.
    fn type_meant(&mut self, place: Place, meaning: Told) -> Option<TypeId>
        ensures { Leaves (judged (here_of self.old) (type_meant self.old.core place meaning)) self.old self.new result }
    {
        match meaning {
            Told::Unknown => {
                self.refuse(LanguageRule::UnknownName, place);
                None
            }
            Told::Spoiled => None,
            Told::Known(of) => self.built(place, of),
            Told::LeftOutType(feature) => {
                self.refuse(LanguageRule::NotInProfile(feature), place);
                None
            }
            Told::Unit | Told::Other => {
                self.refuse(LanguageRule::WrongKindOfName, place);
                None
            }
        }
    }

    /// The type, unless its name shows a feature that is left out.
    fn built(&mut self, place: Place, of: TypeId) -> Option<TypeId>
        ensures { Leaves (judged (here_of self.old) (by_type self.old.core place of (fine of))) self.old self.new result }
    {
        match feature_of_type(type_at(&self.core, of)) {
            None => Some(of),
            Some(feature) => {
                self.refuse(LanguageRule::NotInProfile(feature), place);
                None
            }
        }
    }

    /// A type where something else is needed.
    pub fn no_type(&mut self, place: Place, of: TypeId)
        ensures as_type { Leaves (judged (here_of self.old) (by_type {A = TypeId'} self.old.core place of (refused WrongKindOfName place))) self.old self.new None }
        ensures as_class { Declares (judged (here_of self.old) (by_type {A = Unit {0}} self.old.core place of (refused WrongKindOfName place))) self.old self.new }
    {
        match feature_of_type(type_at(&self.core, of)) {
            None => self.refuse(LanguageRule::WrongKindOfName, place),
            Some(feature) => self.refuse(LanguageRule::NotInProfile(feature), place),
        }
    }

    /// The type that is being declared.
    fn own_type(&mut self, own: Option<&Name>, inside: bool, place: Place) -> Option<TypeId>
        ensures { Leaves (judged (here_of self.old) (own_type (option_copied own.entry) inside place)) self.old self.new result }
    {
        if inside {
            self.refuse(LanguageRule::ContainsItself, place_of(place, own));
        } else {
            self.refuse(LanguageRule::UnknownName, place);
        }
        None
    }
}

/// Where the name stands.
fn place_of(place: Place, own: Option<&Name>) -> Place
    ensures { result ≡ place_of place (option_copied own.entry) }
{
    match own {
        None => place,
        Some(own) => own.position.place,
    }
}

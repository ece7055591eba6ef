//! Types, as they are written (Free Pascal Reference Guide, "Types").
ghost use Rattle.op_judgement.specs.Steps.{judged};
ghost use Rattle.std.specs.Prelude.{◌≡◌, [], Some, IfOk, reverse};
ghost use Rattle.std.specs.Option.{option_copied};
ghost use Rattle.op_check_unit.specs.Denoting.{denoted, field_lists, indices};
ghost use Rattle.op_check_unit.specs.Steps.{Leaves, here_of};
ghost use Rattle.op_check_unit.specs.Types.{feature_of_string, start_of_denoter, string_means};
ghost use Rattle.op_tree.specs.Denoter.{denoter_of};
ghost use Rattle.op_tree.specs.Lists.{denoters_of, field_lists_of};

use crate::Declarer;
use crate::record::FieldRows;
use op_base::{NoMemory, Place};
use op_core::TypeId;
use op_judgement::{Feature, LanguageRule};
use op_tree::{Fields, Name, Position, TypeDenoter};
use op_types::start_of;

impl Declarer {
    /// The type that is written, maybe in the declaration of a type under the name `own`, and there within a record or an array
    /// where `inside` tells so. None where a rule is broken in it.
    #[cycle(denoting)]
    pub fn denoted(
        &mut self,
        own: Option<&Name>,
        inside: bool,
        denoter: &TypeDenoter,
    ) -> Result<Option<TypeId>, NoMemory>
        ensures { IfOk result (Leaves (denoted (option_copied own.entry) inside (denoter_of denoter.now) (here_of self.old)) self.old self.new) }
    {
        match denoter {
            TypeDenoter::Named(name) => self.type_named(own, inside, name),
            TypeDenoter::String { position } => Ok(self.string(*position)),
            TypeDenoter::Subrange { first, last } => {
                let of = self.subrange(first, last)?;
                self.row_of(of)
            }
            TypeDenoter::Enumeration { values, .. } => self.enumerated(values.as_slice()),
            TypeDenoter::Set { base, .. } => {
                let of = self.denoted(own, false, base)?;
                let of = self.set_over(start_of_denoter(base), of);
                self.row_of(of)
            }
            TypeDenoter::Array {
                position,
                indices,
                element,
                ..
            } => {
                let types = self.indices(own, indices)?;
                let of = self.denoted(own, true, element)?;
                self.array_of(position.place, types, of)
            }
            TypeDenoter::Record {
                position,
                fields,
                ..
            } => {
                let mut rows = FieldRows::new(self.alloc);
                self.field_lists(own, fields, &mut rows)?;
                self.record_of(position.place, rows)
            }
        }
    }

    /// `string` as a type is left out.
    pub fn string(&mut self, position: Position) -> Option<TypeId>
        ensures { Leaves (judged (here_of self.old) (string_means position)) self.old self.new result }
    {
        self.refuse(
            LanguageRule::NotInProfile(feature_of_string(position)),
            position.place,
        );
        None
    }

    /// The types of the indices of an array: rule 23 where one is not ordinal.
    #[cycle(denoting)]
    fn indices(
        &mut self,
        own: Option<&Name>,
        list: &[TypeDenoter],
    ) -> Result<Vec<Option<TypeId>>, NoMemory>
        ensures { IfOk result (λ v. Leaves (indices (option_copied own.entry) [] (denoters_of list.now) (here_of self.old)) self.old self.new (Some (reverse v.items))) }
    {
        let mut types = Vec::new(self.alloc);
        for denoter in list {
            let of = self.denoted(own, false, denoter)?;
            let of = self.index_over(start_of_denoter(denoter), of);
            types.push(of)?;
        }
        Ok(types)
    }

    /// The fields of a record, behind others.
    #[cycle(denoting)]
    fn field_lists(
        &mut self,
        own: Option<&Name>,
        lists: &[Fields],
        rows: &mut FieldRows,
    ) -> Result<(), NoMemory>
        ensures { IfOk result (λ _. Leaves (field_lists (option_copied own.entry) (field_lists_of lists.now) rows.old (here_of self.old)) self.old self.new (Some rows.new)) }
    {
        for list in lists {
            let of = self.denoted(own, true, &list.denoter)?;
            self.some_fields(rows, of, list.names.as_slice())?;
        }
        Ok(())
    }
}

/// The feature that `string` shows: where long strings are off at the word, it is the short string.
fn feature_of_string(position: Position) -> Feature
    ensures { result ≡ feature_of_string position }
{
    if position.switches.h {
        Feature::Strings
    } else {
        Feature::ShortStrings
    }
}

/// The first token of a type.
fn start_of_denoter(denoter: &TypeDenoter) -> Place
    ensures { result ≡ start_of_denoter (denoter_of denoter.now) }
{
    match denoter {
        TypeDenoter::Named(q) => match &q.unit {
            Some(unit) => unit.position.place,
            None => q.name.position.place,
        },
        TypeDenoter::Subrange { first, .. } => start_of(first),
        TypeDenoter::String { position }
        | TypeDenoter::Enumeration { position, .. }
        | TypeDenoter::Set { position, .. }
        | TypeDenoter::Array { position, .. }
        | TypeDenoter::Record { position, .. } => position.place,
    }
}

//! Sets and arrays.
ghost use Rattle.op_judgement.specs.Judgement.{with_part};
ghost use Rattle.op_judgement.specs.Steps.{by, judged};
ghost use Rattle.std.specs.Prelude.{◌≡◌, Some, IfOk, reverse};
ghost use Rattle.op_check_unit.specs.Steps.{Leaves, here_of};
ghost use Rattle.op_check_unit.specs.Types.{array_of, index_over, one_array, row, set_over};

use crate::Declarer;
use op_base::{NoMemory, Place};
use op_core::{CoreType, TypeId, range_of};
use op_judgement::{Feature, LanguageRule};

impl Declarer {
    /// A row of a type, if there is one.
    pub fn row_of(&mut self, of: Option<CoreType>) -> Result<Option<TypeId>, NoMemory>
        ensures { IfOk result (Leaves (by row of (here_of self.old)) self.old self.new) }
    {
        match of {
            None => Ok(None),
            Some(of) => Ok(Some(self.row(of)?)),
        }
    }

    /// The set over a base that begins at the place: rule 23 where that is not ordinal, 34 where it has numbers outside of 0 to 31.
    pub fn set_over(&mut self, place: Place, base: Option<TypeId>) -> Option<CoreType>
        ensures { Leaves (judged (here_of self.old) (with_part (set_over self.old.core place) base)) self.old self.new result }
    {
        let base = base?;
        let Some((low, high)) = range_of(&self.core, base) else {
            self.refuse(LanguageRule::NotOrdinal, place);
            return None;
        };
        if 0 <= low && high <= 31 {
            return Some(CoreType::Set { base });
        }
        self.refuse(LanguageRule::NoSetElement, place);
        None
    }

    /// The type of an index, which begins at the place: rule 23 where it is not ordinal.
    pub fn index_over(&mut self, place: Place, index: Option<TypeId>) -> Option<TypeId>
        ensures { Leaves (judged (here_of self.old) (with_part (index_over self.old.core place) index)) self.old self.new result }
    {
        let index = index?;
        match range_of(&self.core, index) {
            Some(_) => Some(index),
            None => {
                self.refuse(LanguageRule::NotOrdinal, place);
                None
            }
        }
    }

    /// An array that begins at the place, by the types of its indices. One without indices is left out.
    pub fn array_of(
        &mut self,
        place: Place,
        indices: Vec<Option<TypeId>>,
        element: Option<TypeId>,
    ) -> Result<Option<TypeId>, NoMemory>
        ensures { IfOk result (Leaves (array_of place (reverse indices.items) element (here_of self.old)) self.old self.new) }
    {
        let mut indices = indices;
        if indices.is_empty() {
            self.refuse(LanguageRule::NotInProfile(Feature::DynamicArrays), place);
            return Ok(None);
        }
        let mut of = element;
        while let Some(index) = indices.pop() {
            of = self.one_array(place, index, of)?;
        }
        Ok(of)
    }

    fn one_array(
        &mut self,
        place: Place,
        index: Option<TypeId>,
        element: Option<TypeId>,
    ) -> Result<Option<TypeId>, NoMemory>
        ensures { IfOk result (Leaves (one_array place index element (here_of self.old)) self.old self.new) }
    {
        let (Some(index), Some(element)) = (index, element) else {
            return Ok(None);
        };
        self.sized_row(place, CoreType::Array { index, element })
    }
}

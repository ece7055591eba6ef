//! Enumerations.
ghost use Rattle.std.specs.Prelude.{◌≡◌, IfOk};
ghost use Rattle.op_check_unit.specs.Steps.{Declares, Leaves, here_of};
ghost use Rattle.op_check_unit.specs.Types.{enumerated, value_of, values};

use crate::Declarer;
use op_base::NoMemory;
use op_core::{Const, CoreType, TypeId};
use op_tree::Name;
use op_types::{Constant, Meaning, Weight};

impl Declarer {
    /// An enumeration with these values.
    pub fn enumerated(&mut self, values: &[Name]) -> Result<Option<TypeId>, NoMemory>
        ensures { IfOk result (Leaves (enumerated values.now (here_of self.old)) self.old self.new) }
    {
        let Ok(count) = u32::try_from(values.len()) else {
            return Err(NoMemory);
        };
        let of = self.row(CoreType::Enumeration {
            values: count.max(1),
        })?;
        self.values(of, values)?;
        Ok(Some(of))
    }

    /// Declares the values of an enumeration.
    fn values(&mut self, of: TypeId, names: &[Name]) -> Result<(), NoMemory>
        ensures { IfOk result (λ _. Declares (values of 0 names.now (here_of self.old)) self.old self.new) }
    {
        for (k, name) in names.iter().enumerate() {
            let Ok(number) = i32::try_from(k) else {
                return Err(NoMemory);
            };
            self.declare_within(name, value_of(of, number))?;
        }
        Ok(())
    }
}

fn value_of(of: TypeId, number: i32) -> Meaning
    ensures { result ≡ value_of of number }
{
    let value = Const::Ordinal(number);
    let weight = Weight { nodes: 1, words: 0 };
    Meaning::Constant(Constant { value, of, weight })
}

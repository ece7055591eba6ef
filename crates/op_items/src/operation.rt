//! Operators, conversions and functions ("Operators" and "Value typecasts" of the Free Pascal Reference Guide; reference of the unit
//! System, "Succ", "Pred", "Abs", "Sqr", "Odd", "UpCase", "Low", "High" and "Length").
ghost use Rattle.std.specs.Prelude.{◌≡◌, ◌+◌, IfOk, IfSome};
ghost use Rattle.op_core.specs.Sizes.{IsOrdinalRange, type_at};
ghost use Rattle.op_items.specs.Adding.{Adds, Gives, env_view, found_view, now_view};
ghost use Rattle.op_items.specs.Setting.{here_view};
ghost use Rattle.op_meaning.specs.Actions.{arithmetic, check};
ghost use Rattle.op_meaning.specs.Expressions.{applied, applied_by, converted, goes_on_at, high_in, is_comparison, low_in, measured, measured_by, moved, on_two, prefix};
ghost use Rattle.op_meaning.specs.Items.{act, acts, only};
ghost use Rattle.op_mir.specs.View.{view_computation};
ghost use Rattle.op_tree.specs.declared.operator.Operator.TheVariants.{Multiply};

use crate::found::{Found, Now};
use crate::item::Item;
use crate::set::set_of_type;
use crate::setting::{Here, Setting, next};
use crate::shape::{counted_of, high_in, low_in, number};
use op_base::NoMemory;
use op_core::{Conversion, Core, CoreType, Function, IntegerKind, TypeId, range_of, type_at};
use op_mir::{Computation, TemporaryId};
use op_tree::{Operator, PrefixOperator};

/// The truth value of the left operand with which the right one is evaluated, where that decides anything.
pub fn goes_on_at(operator: Operator, of: Option<CoreType>) -> Option<bool>
    ensures { result ≡ goes_on_at operator of }
{
    match (operator, of) {
        (Operator::And, Some(CoreType::Boolean)) => Some(true),
        (Operator::Or, Some(CoreType::Boolean)) => Some(false),
        _ => None,
    }
}

fn is_comparison(operator: Operator) -> bool
    ensures { result ≡ is_comparison operator }
{
    matches!(
        operator,
        Operator::Equal
            | Operator::NotEqual
            | Operator::Less
            | Operator::Greater
            | Operator::LessEqual
            | Operator::GreaterEqual
    )
}

/// On the left operand in the temporary and the right one in the next one.
fn on_two(
    operator: Operator,
    checked: bool,
    of: Option<CoreType>,
    to: TemporaryId,
) -> Result<Computation, NoMemory>
    ensures { IfOk result (λ c. view_computation c ≡ on_two operator checked of to.0) }
{
    let left = to;
    let right = next(to)?;
    match of {
        Some(CoreType::Set { .. }) => {
            return Ok(Computation::Combine {
                operator,
                to,
                left,
                right,
            });
        }
        _ => {}
    }
    Ok(match operator {
        Operator::In_ => Computation::Contains {
            to,
            element: left,
            set: right,
        },
        _ if is_comparison(operator) => Computation::Compare {
            operator,
            to,
            left,
            right,
        },
        _ => Computation::Arithmetic {
            operator,
            checked,
            to,
            left,
            right,
        },
    })
}

/// How many values a range has, or its first or its last one.
fn measured_by(function: Function, range: Option<(i64, i64)>) -> Result<Option<i32>, NoMemory>
    requires { IfSome range IsOrdinalRange }
    ensures { IfOk result (λ m. m ≡ measured_by function range) }
{
    let Some((low, high)) = range else {
        return Ok(None);
    };
    match function {
        Function::Low => Ok(Some(number(low)?)),
        Function::High => Ok(Some(number(high)?)),
        Function::Length => {
            let count = (high - low).unsigned_abs() + 1;
            Ok(Some(number(count as i64)?))
        }
        _ => Ok(None),
    }
}

/// Where the function is one of the type alone, or of a literal, what it gives.
fn measured(core: &Core, function: Function, of: TypeId, now: &Now) -> Result<Option<i32>, NoMemory>
    ensures { IfOk result (λ m. m ≡ measured core.now function of (now_view now.now)) }
{
    match now {
        Now::Literal(text) => {
            let length = u32::try_from(text.as_slice().len()).map_err(|_| NoMemory)?;
            measured_by(function, Some((1, length as i64)))
        }
        _ => measured_by(function, range_of(core, counted_of(core, of))),
    }
}

impl Setting<'_> {
    /// An operator on the left operand in the temporary and the right one in the next one.
    pub fn operate(
        self,
        items: &mut Vec<Item>,
        operator: Operator,
        checked: bool,
        of: Option<CoreType>,
        to: TemporaryId,
    ) -> Result<(), NoMemory>
        ensures { IfOk result (λ _. Adds self.entry items.old.items items.new.items (only (act (on_two operator checked of to.0)))) }
    {
        self.compute(items, on_two(operator, checked, of, to)?)
    }

    #[tactic(auto, using(crate::proofs::Behind::behind_none))]
    pub fn prefix(
        self,
        items: &mut Vec<Item>,
        operator: PrefixOperator,
        checked: bool,
        of: Option<CoreType>,
        to: TemporaryId,
    ) -> Result<(), NoMemory>
        ensures { IfOk result (λ _. Adds self.entry items.old.items items.new.items (acts (prefix operator checked of to.0))) }
    {
        let from = to;
        match (operator, of) {
            (PrefixOperator::Plus, _) => Ok(()),
            (PrefixOperator::Minus, _) => self.compute(
                items,
                Computation::Negate { checked, to, from },
            ),
            (PrefixOperator::Not, Some(CoreType::Boolean)) => self.compute(
                items,
                Computation::Invert { to, from },
            ),
            (PrefixOperator::Not, _) => self.compute(items, Computation::Complement { to, from }),
        }
    }

    /// The value becomes one of the type.
    #[tactic(auto, using(crate::proofs::Behind::behind_none))]
    pub fn convert(
        self,
        items: &mut Vec<Item>,
        conversion: Conversion,
        of: TypeId,
        to: TemporaryId,
    ) -> Result<(), NoMemory>
        ensures { IfOk result (λ _. Adds self.entry items.old.items items.new.items (acts (converted self.entry.core.now conversion of to.0))) }
    {
        let from = to;
        match (conversion, type_at(self.core, of)) {
            (Conversion::LowBits, Some(CoreType::Integer(kind))) => self.compute(
                items,
                Computation::LowBits { kind, to, from },
            ),
            (Conversion::LowBits, Some(CoreType::Char)) => {
                let kind = IntegerKind::Unsigned8;
                self.compute(items, Computation::LowBits { kind, to, from })
            }
            (Conversion::Check, Some(CoreType::Set { base })) => {
                let all = set_of_type(self.core, base)?;
                self.compute(items, Computation::CheckSet { all, to, from })
            }
            (Conversion::Check, _) => self.check(items, of, to, from),
            _ => Ok(()),
        }
    }

    /// The value is tested to be one of the type.
    pub fn check(
        self,
        items: &mut Vec<Item>,
        of: TypeId,
        to: TemporaryId,
        from: TemporaryId,
    ) -> Result<(), NoMemory>
        ensures { IfOk result (λ _. Adds self.entry items.old.items items.new.items (only (act (check (low_in self.entry.core.now of) (high_in self.entry.core.now of) to.0 from.0)))) }
    {
        let low = low_in(self.core, of)?;
        let high = high_in(self.core, of)?;
        self.compute(
            items,
            Computation::Check {
                low,
                high,
                to,
                from,
            },
        )
    }

    /// The value so far behind this one: of an Integer a sum, of every other ordinal type a value of the type.
    #[tactic(auto, using(crate::proofs::Behind::behind_behind))]
    fn shift(
        self,
        items: &mut Vec<Item>,
        operator: Operator,
        distance: i32,
        checked: bool,
        of: TypeId,
        to: TemporaryId,
    ) -> Result<(), NoMemory>
        ensures { IfOk result (λ _. Adds self.entry items.old.items items.new.items (acts (moved self.entry.core.now operator distance checked of (type_at self.entry.core.now of) to.0))) }
    {
        let left = to;
        match type_at(self.core, of) {
            Some(CoreType::Integer(IntegerKind::Signed32)) => {
                let right = next(to)?;
                self.number(items, right, 1)?;
                self.compute(
                    items,
                    Computation::Arithmetic {
                        operator,
                        checked,
                        to,
                        left,
                        right,
                    },
                )
            }
            _ => {
                let low = low_in(self.core, of)?;
                let high = high_in(self.core, of)?;
                self.compute(
                    items,
                    Computation::Neighbour {
                        distance,
                        low,
                        high,
                        to,
                        from: left,
                    },
                )
            }
        }
    }

    /// A function on the value in the temporary.
    #[tactic(auto, using(crate::proofs::Behind::behind_none))]
    fn applied(
        self,
        items: &mut Vec<Item>,
        function: Function,
        checked: bool,
        of: TypeId,
        to: TemporaryId,
    ) -> Result<(), NoMemory>
        ensures { IfOk result (λ _. Adds self.entry items.old.items items.new.items (acts (applied self.entry.core.now function checked of to.0))) }
    {
        let from = to;
        match function {
            Function::Succ => self.shift(items, Operator::Add, 1, checked, of, to),
            Function::Pred => self.shift(items, Operator::Subtract, -1, checked, of, to),
            Function::Abs => self.compute(items, Computation::Absolute { checked, to, from }),
            Function::Sqr => self.square(items, checked, to),
            Function::Odd => self.compute(items, Computation::Odd { to, from }),
            Function::UpCase => self.compute(items, Computation::Upper { to, from }),
            _ => Ok(()),
        }
    }

    fn square(self, items: &mut Vec<Item>, checked: bool, to: TemporaryId) -> Result<(), NoMemory>
        ensures { IfOk result (λ _. Adds self.entry items.old.items items.new.items (only (act (arithmetic Multiply checked to.0 to.0 to.0)))) }
    {
        self.compute(
            items,
            Computation::Arithmetic {
                operator: Operator::Multiply,
                checked,
                to,
                left: to,
                right: to,
            },
        )
    }

    /// A function of a value, or of its type alone.
    #[tactic(auto, using(crate::proofs::Behind::behind_behind))]
    pub fn apply(
        self,
        items: &mut Vec<Item>,
        function: Function,
        checked: bool,
        of: TypeId,
        here: Here,
        found: Found,
    ) -> Result<Found, NoMemory>
        ensures { IfOk result (λ f. Gives self.entry items.old.items items.new.items f (applied_by (measured self.entry.core.now function of (now_view found.now)) (env_view self.entry) function checked of (here_view here) (found_view found))) }
    {
        match measured(self.core, function, of, &found.now)? {
            None => {
                let found = self.own(items, of, here, found)?;
                self.applied(items, function, checked, of, here.first())?;
                Ok(found)
            }
            Some(n) => {
                self.look(items, found.now)?;
                self.number(items, here.first(), n)?;
                Ok(Found::ready())
            }
        }
    }
}

//! Conversions ("Value typecasts" of the Free Pascal Reference Guide; "$R : Range checking" of the Programmer's Guide).
ghost use Rattle.std.specs.Prelude.{◌≡◌, ◌∷◌, [], IfOk};
ghost use Rattle.op_core.specs.declared.operation.Conversion.TheVariants.{Instance, Keep, ToInterface, ToString};
ghost use Rattle.op_semantics.specs.Actions.{check};
ghost use Rattle.op_semantics.specs.Expressions.{converted, found, high_in, low_in, operand_of, own, ready, then_acts, then_converted, then_value};
ghost use Rattle.op_semantics.specs.Items.{act, acts, none, only};
ghost use Rattle.op_semantics.specs.Primitives.{a_type, from_temp};
ghost use Rattle.op_values.specs.Adding.{Adds, Gives, env_view, found_view, now_view};
ghost use Rattle.op_values.specs.Setting.{here_view};

use crate::sets::set_of_type;
use op_base::NoMemory;
use op_core::{Conversion, CoreType, IntegerKind, TypeId, type_at};
use op_semantics::Primitive;
use op_values::{
    Computation, Found, Here, Item, Now, Operand, Setting, TemporaryId, high_in, low_in, one,
    operand_of, two,
};

/// The low bits of the number in the temporary are kept, or it is checked.
#[tactic(auto, using(crate::proofs::ItemsBehind::behind_none))]
pub fn converted(
    setting: Setting,
    items: &mut Vec<Item>,
    conversion: Conversion,
    of: TypeId,
    to: TemporaryId,
) -> Result<(), NoMemory>
    ensures { IfOk result (λ _. Adds setting.entry items.old.items items.new.items (acts (converted setting.entry.core.now conversion of to.0))) }
{
    let from = to;
    match (conversion, type_at(setting.core, of)) {
        (Conversion::LowBits, Some(CoreType::Integer(kind))) => setting.compute(
            items,
            Computation::LowBits { kind, to, from },
        ),
        (Conversion::LowBits, Some(CoreType::Char)) => {
            let kind = IntegerKind::Unsigned8;
            setting.compute(items, Computation::LowBits { kind, to, from })
        }
        (Conversion::Check, Some(CoreType::Set { base })) => {
            let all = set_of_type(setting.core, base)?;
            setting.compute(items, Computation::CheckSet { all, to, from })
        }
        (Conversion::Check, _) => check(setting, items, of, to, from),
        _ => Ok(()),
    }
}

/// A number is tested to be one of the type.
pub fn check(
    setting: Setting,
    items: &mut Vec<Item>,
    of: TypeId,
    to: TemporaryId,
    from: TemporaryId,
) -> Result<(), NoMemory>
    ensures { IfOk result (λ _. Adds setting.entry items.old.items items.new.items (only (act (check (low_in setting.entry.core.now of) (high_in setting.entry.core.now of) to.0 from.0)))) }
{
    let low = low_in(setting.core, of)?;
    let high = high_in(setting.core, of)?;
    setting.compute(
        items,
        Computation::Check {
            low,
            high,
            to,
            from,
        },
    )
}

/// A number in a temporary of its own.
fn as_number(
    setting: Setting,
    items: &mut Vec<Item>,
    conversion: Conversion,
    of: TypeId,
    to: TypeId,
    here: Here,
    found: Found,
) -> Result<Found, NoMemory>
    ensures { IfOk result (λ f. Gives setting.entry items.old.items items.new.items f (then_acts (own (env_view setting.entry) of (here_view here) (found_view found)) (converted setting.entry.core.now conversion to (here_view here).temp))) }
{
    let found = setting.own(items, of, here, found)?;
    converted(setting, items, conversion, to, here.first())?;
    Ok(found)
}

/// It is one of the type as it is.
#[tactic(auto, using(crate::proofs::ItemsBehind::behind_none))]
fn kept(
    setting: Setting,
    items: &mut Vec<Item>,
    of: TypeId,
    to: TypeId,
    here: Here,
    found: Found,
) -> Result<Found, NoMemory>
    ensures { IfOk result (λ f. Gives setting.entry items.old.items items.new.items f (then_converted (env_view setting.entry) Keep of to (here_view here) (found_view found) (now_view found.now))) }
{
    let Found { now, used, held } = found;
    match now {
        Now::Nil(_) => Ok(Found {
            now: Now::Nil(to),
            used,
            held,
        }),
        Now::Literal(text) => Ok(Found {
            now: Now::Literal(text),
            used,
            held,
        }),
        now => {
            let found = Found { now, used, held };
            as_number(setting, items, Conversion::Keep, of, to, here, found)
        }
    }
}

/// The Char in the first free temporary becomes a text.
fn text_by_char(
    setting: Setting,
    items: &mut Vec<Item>,
    to: TypeId,
    here: Here,
    found: Found,
) -> Result<Found, NoMemory>
    ensures { IfOk result (λ f. Gives setting.entry items.old.items items.new.items f (then_value setting.entry.core.now to (here_view here) Primitive.TextOfChar (from_temp (here_view here).temp ∷ []) (found_view found))) }
{
    let operands = one(setting.alloc, Operand::Number(here.first()))?;
    setting.give(items, to, here, Primitive::TextOfChar, operands, found)
}

/// A Char, which gets a temporary of its own first.
fn text_of_char(
    setting: Setting,
    items: &mut Vec<Item>,
    of: TypeId,
    to: TypeId,
    here: Here,
    found: Found,
) -> Result<Found, NoMemory>
    ensures { IfOk result (λ f. Gives setting.entry items.old.items items.new.items f (then_value setting.entry.core.now to (here_view here) Primitive.TextOfChar (from_temp (here_view here).temp ∷ []) (own (env_view setting.entry) of (here_view here) (found_view found)))) }
{
    let found = setting.own(items, of, here, found)?;
    text_by_char(setting, items, to, here, found)
}

/// A Char becomes a text. A literal is one.
#[tactic(auto, using(crate::proofs::ItemsBehind::behind_none))]
fn as_text(
    setting: Setting,
    items: &mut Vec<Item>,
    of: TypeId,
    to: TypeId,
    here: Here,
    found: Found,
) -> Result<Found, NoMemory>
    ensures { IfOk result (λ f. Gives setting.entry items.old.items items.new.items f (then_converted (env_view setting.entry) ToString of to (here_view here) (found_view found) (now_view found.now))) }
{
    let Found { now, used, held } = found;
    match now {
        Now::Literal(text) => Ok(Found {
            now: Now::Literal(text),
            used,
            held,
        }),
        now => text_of_char(setting, items, of, to, here, Found { now, used, held }),
    }
}

/// What a primitive gives of the type and of an instance in a temporary.
fn reference(
    setting: Setting,
    items: &mut Vec<Item>,
    primitive: Primitive,
    of: TypeId,
    to: TypeId,
    here: Here,
    found: Found,
) -> Result<Found, NoMemory>
    ensures { IfOk result (λ f. Gives setting.entry items.old.items items.new.items f (then_value setting.entry.core.now to (here_view here) primitive (a_type to ∷ operand_of of (here_view here) (now_view found.now) ∷ []) (found_view found))) }
{
    let held = found.held;
    let instance = operand_of(setting.alloc, of, here, found.now);
    let operands = two(setting.alloc, Operand::OfType(to), instance)?;
    setting.give(items, to, here, primitive, operands, Found::ready(held))
}

/// An instance of a class or of an interface becomes another reference, by the primitive.
fn cast(
    setting: Setting,
    items: &mut Vec<Item>,
    primitive: Primitive,
    of: TypeId,
    to: TypeId,
    here: Here,
    found: Found,
) -> Result<Found, NoMemory>
    ensures { IfOk result (λ f. Gives setting.entry items.old.items items.new.items f (then_value setting.entry.core.now to (here_view here) primitive (a_type to ∷ operand_of of (here_view here) (own (env_view setting.entry) of (here_view here) (found_view found)).now ∷ []) (own (env_view setting.entry) of (here_view here) (found_view found)))) }
{
    let found = setting.own(items, of, here, found)?;
    reference(setting, items, primitive, of, to, here, found)
}

/// An instance becomes an interface that its class implements.
#[tactic(auto, using(crate::proofs::ItemsBehind::behind_none))]
fn as_interface(
    setting: Setting,
    items: &mut Vec<Item>,
    of: TypeId,
    to: TypeId,
    here: Here,
    found: Found,
) -> Result<Found, NoMemory>
    ensures { IfOk result (λ f. Gives setting.entry items.old.items items.new.items f (then_converted (env_view setting.entry) ToInterface of to (here_view here) (found_view found) (now_view found.now))) }
{
    let Found { now, used, held } = found;
    match now {
        Now::Nil(_) => Ok(Found {
            now: Now::Nil(to),
            used,
            held,
        }),
        now => {
            let found = Found { now, used, held };
            cast(setting, items, Primitive::AsInterface, of, to, here, found)
        }
    }
}

/// An instance is tested to be one of the class, or to implement the interface.
#[tactic(auto, using(crate::proofs::ItemsBehind::behind_none))]
fn as_instance(
    setting: Setting,
    items: &mut Vec<Item>,
    of: TypeId,
    to: TypeId,
    here: Here,
    found: Found,
) -> Result<Found, NoMemory>
    ensures { IfOk result (λ f. Gives setting.entry items.old.items items.new.items f (then_converted (env_view setting.entry) Instance of to (here_view here) (found_view found) (now_view found.now))) }
{
    let Found { now, used, held } = found;
    match now {
        Now::Nil(_) => Ok(Found {
            now: Now::Nil(to),
            used,
            held,
        }),
        now => {
            let found = Found { now, used, held };
            cast(setting, items, Primitive::AsInstance, of, to, here, found)
        }
    }
}

/// What is so far becomes a value of the type. A literal and nil stay what they are.
pub fn convert(
    setting: Setting,
    items: &mut Vec<Item>,
    conversion: Conversion,
    of: TypeId,
    to: TypeId,
    here: Here,
    found: Found,
) -> Result<Found, NoMemory>
    ensures { IfOk result (λ f. Gives setting.entry items.old.items items.new.items f (then_converted (env_view setting.entry) conversion of to (here_view here) (found_view found) (found_view found).now)) }
{
    match conversion {
        Conversion::Keep => kept(setting, items, of, to, here, found),
        Conversion::LowBits => as_number(setting, items, conversion, of, to, here, found),
        Conversion::Check => as_number(setting, items, conversion, of, to, here, found),
        Conversion::ToString => as_text(setting, items, of, to, here, found),
        Conversion::ToInterface => as_interface(setting, items, of, to, here, found),
        Conversion::Instance => as_instance(setting, items, of, to, here, found),
    }
}

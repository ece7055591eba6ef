//! Pieces of texts and arrays (reference of the unit System, "Copy").
ghost use Rattle.std.specs.Prelude.{◌≡◌, ◌∷◌, [], IfOk, map};
ghost use Rattle.op_core.specs.Sizes.{type_at};
ghost use Rattle.op_semantics.specs.Expressions.{element_operand, found, operand_of, piece_row, ready, then_piece};
ghost use Rattle.op_semantics.specs.Items.{none};
ghost use Rattle.op_semantics.specs.Primitives.{a_type};
ghost use Rattle.op_values.specs.Adding.{Gives, now_view};
ghost use Rattle.op_values.specs.Setting.{here_view};
ghost use Rattle.op_values.specs.View.{view_operand};

use op_base::{NoMemory, Sequence};
use op_core::{CoreType, TypeId, type_at};
use op_semantics::Primitive;
use op_values::{Found, Here, Item, Now, Operand, Setting, operand_of, three};
use std::alloc::Global;

/// What takes a piece of a value of the type.
fn piece_row(of: Option<CoreType>) -> Primitive
    ensures { result ≡ piece_row of }
{
    match of {
        Some(CoreType::DynamicArray { .. }) => Primitive::PieceOfArray,
        Some(CoreType::OpenArray { .. }) => Primitive::PieceOfArray,
        Some(CoreType::Array { .. }) => Primitive::PieceOfArray,
        _ => Primitive::PieceOfText,
    }
}

/// Of an array the type of its elements stands in front.
fn element_operand(
    alloc: Global,
    of: Option<CoreType>,
    operands: Sequence<Operand>,
) -> Result<Sequence<Operand>, NoMemory>
    ensures { IfOk result (λ os. map view_operand os ≡ element_operand of (map view_operand operands)) }
{
    match of {
        Some(CoreType::DynamicArray { element }) => in_front(alloc, element, operands),
        Some(CoreType::OpenArray { element }) => in_front(alloc, element, operands),
        Some(CoreType::Array { element, .. }) => in_front(alloc, element, operands),
        _ => Ok(operands),
    }
}

fn in_front(
    alloc: Global,
    element: TypeId,
    operands: Sequence<Operand>,
) -> Result<Sequence<Operand>, NoMemory>
    ensures { IfOk result (λ os. map view_operand os ≡ a_type element ∷ map view_operand operands) }
{
    let mut all = Vec::new(alloc);
    all.push(Operand::OfType(element))?;
    all.append(&mut operands.into_vec())?;
    Ok(Sequence::from(all))
}

/// A piece of a value, from the index and of the length in the first two free temporaries.
pub fn piece(
    setting: Setting,
    items: &mut Vec<Item>,
    of: TypeId,
    to: TypeId,
    here: Here,
    now: Now,
    held: u32,
) -> Result<Found, NoMemory>
    ensures { IfOk result (λ f. Gives setting.entry items.old.items items.new.items f (then_piece setting.entry.core.now of to (here_view here) (now_view now) (found none ready held))) }
{
    let index = Operand::Number(here.first());
    let count = Operand::Number(here.behind(1)?);
    let value = operand_of(setting.alloc, of, here, now);
    let operands = three(setting.alloc, value, index, count)?;
    let of = type_at(setting.core, of);
    let operands = element_operand(setting.alloc, of, operands)?;
    setting.give(items, to, here, piece_row(of), operands, Found::ready(held))
}

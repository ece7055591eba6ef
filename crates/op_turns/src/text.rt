//! Loops over texts ("The For..in..do statement" of the Free Pascal Reference Guide).
#![tactic(auto, using(crate::proofs::Behind::behind_behind, crate::proofs::Behind::behind_none))]

ghost use Rattle.std.specs.Prelude.{◌≡◌, ◌+◌, ◌∷◌, [], IfOk, pos};
ghost use Rattle.op_semantics.specs.Actions.{constant, primitive};
ghost use Rattle.op_semantics.specs.Expressions.{a_char};
ghost use Rattle.op_semantics.specs.Items.{acts};
ghost use Rattle.op_semantics.specs.Primitives.{in_temp};
ghost use Rattle.op_semantics.specs.Shapes.{char_type};
ghost use Rattle.op_semantics.specs.Statements.{in_elements, in_text};
ghost use Rattle.op_values.specs.Adding.{Adds, env_view, view_in};
ghost use Rattle.op_values.specs.Setting.{here_view};
ghost use Rattle.op_values.specs.View.{view_operand};

use crate::counting::if_any;
use crate::element::in_elements;
use op_base::NoMemory;
use op_core::{Conversion, TypeId, VariableId};
use op_semantics::Primitive;
use op_values::{Destination, Here, Item, Now, Operand, Setting, TemporaryId, copy_of, next, one};
use std::alloc::Global;

/// The same operand once more.
fn operand_again(alloc: Global, operand: &Operand) -> Result<Operand, NoMemory>
    ensures { IfOk result (λ o. view_operand o ≡ view_operand operand.now) }
{
    match operand {
        Operand::Number(temporary) => Ok(Operand::Number(*temporary)),
        Operand::Value(path) => Ok(Operand::Value(copy_of(alloc, path)?)),
        Operand::Literal(text) => Ok(Operand::Literal(text.share()?)),
        Operand::Nil(of) => Ok(Operand::Nil(*of)),
        Operand::OfType(of) => Ok(Operand::OfType(*of)),
        Operand::Token => Ok(Operand::Token),
    }
}

/// The length goes to the temporary behind the counter, which begins at 1.
fn text_bounds(
    setting: Setting,
    items: &mut Vec<Item>,
    counter: TemporaryId,
    text: Operand,
) -> Result<(), NoMemory>
    ensures { IfOk result (λ _. Adds setting.entry items.old.items items.new.items (acts (primitive Primitive.TextLength (view_operand text ∷ []) (in_temp (counter.0 + 1)) ∷ constant counter.0 (pos 1) ∷ []))) }
{
    let last = next(counter)?;
    let operands = one(setting.alloc, text)?;
    setting.primitive(
        items,
        Primitive::TextLength,
        operands,
        Destination::InTemporary(last),
    )?;
    setting.number(items, counter, 1)
}

/// The turns for the Chars of the text from the number in the first temporary to that in the second one.
fn in_chars(
    setting: Setting,
    here: Here,
    text: &Operand,
    variable: VariableId,
    conversion: Conversion,
    body: Vec<Item>,
) -> Result<Vec<Item>, NoMemory>
    ensures { IfOk result (λ turns. view_in setting.entry turns.items ≡ in_elements (env_view setting.entry) (here_view here) (a_char (view_operand text.now) (here_view here).temp) char_type variable conversion (view_in setting.entry body.items)) }
{
    let text = operand_again(setting.alloc, text)?;
    let index = here.first();
    let now = Now::Char { text, index };
    let mut turns = Vec::new(setting.alloc);
    in_elements(
        setting,
        &mut turns,
        here,
        now,
        TypeId::CHAR,
        variable,
        conversion,
        body,
    )?;
    Ok(turns)
}

/// Behind a text: its Chars in order.
pub fn in_text(
    setting: Setting,
    items: &mut Vec<Item>,
    here: Here,
    text: Operand,
    variable: VariableId,
    conversion: Conversion,
    body: Vec<Item>,
) -> Result<(), NoMemory>
    ensures { IfOk result (λ _. Adds setting.entry items.old.items items.new.items (in_text (env_view setting.entry) (here_view here) (view_operand text) variable conversion (view_in setting.entry body.items))) }
{
    let turns = in_chars(setting, here, &text, variable, conversion, body)?;
    text_bounds(setting, items, here.first(), text)?;
    if_any(setting, items, here, turns)
}

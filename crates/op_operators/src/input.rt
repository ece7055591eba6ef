//! The input ("Eof" and "Eoln" of the reference of the unit System).
ghost use Rattle.std.specs.Prelude.{◌≡◌, ◌+◌, ◌∷◌, [], IfOk, negsuc, pos};
ghost use Rattle.op_semantics.specs.Actions.{compare, constant, peek};
ghost use Rattle.op_semantics.specs.Expressions.{at_input_end, at_line_end};
ghost use Rattle.op_semantics.specs.Items.{act, acts, only};
ghost use Rattle.op_values.specs.Adding.{Adds};
ghost use Rattle.op_tree.specs.declared.operator.Operator.TheVariants.{Equal};

use op_base::NoMemory;
use op_tree::Operator;
use op_values::{Action, Computation, Item, Setting, TemporaryId, next};

/// Whether the temporary and the next one have the same number.
fn equal(setting: Setting, items: &mut Vec<Item>, to: TemporaryId) -> Result<(), NoMemory>
    ensures { IfOk result (λ _. Adds setting.entry items.old.items items.new.items (only (act (compare Equal to.0 to.0 (to.0 + 1))))) }
{
    let right = next(to)?;
    setting.compute(
        items,
        Computation::Compare {
            operator: Operator::Equal,
            to,
            left: to,
            right,
        },
    )
}

/// Whether the input is at its end.
#[tactic(auto, using(crate::proofs::ItemsBehind::behind_behind))]
pub fn at_input_end(
    setting: Setting,
    items: &mut Vec<Item>,
    to: TemporaryId,
) -> Result<(), NoMemory>
    ensures { IfOk result (λ _. Adds setting.entry items.old.items items.new.items (acts (at_input_end to.0))) }
{
    let right = next(to)?;
    setting.act(items, Action::Peek { to })?;
    setting.number(items, right, -1)?;
    equal(setting, items, to)
}

/// Whether the next byte is a line feed, behind the byte in the next temporary.
#[tactic(auto, using(crate::proofs::ItemsBehind::behind_behind))]
fn is_line_feed(setting: Setting, items: &mut Vec<Item>, to: TemporaryId) -> Result<(), NoMemory>
    ensures { IfOk result (λ _. Adds setting.entry items.old.items items.new.items (acts (constant to.0 (pos 10) ∷ compare Equal to.0 to.0 (to.0 + 1) ∷ []))) }
{
    setting.number(items, to, 10)?;
    equal(setting, items, to)
}

/// Whether there is no next byte, which goes to the next temporary.
#[tactic(auto, using(crate::proofs::ItemsBehind::behind_behind))]
fn is_no_byte(setting: Setting, items: &mut Vec<Item>, to: TemporaryId) -> Result<(), NoMemory>
    ensures { IfOk result (λ _. Adds setting.entry items.old.items items.new.items (acts (peek (to.0 + 1) ∷ constant to.0 (negsuc 0) ∷ compare Equal to.0 to.0 (to.0 + 1) ∷ []))) }
{
    let byte = next(to)?;
    setting.act(items, Action::Peek { to: byte })?;
    setting.number(items, to, -1)?;
    equal(setting, items, to)
}

/// Whether the input is at its end or in front of a line feed.
#[tactic(auto, using(crate::proofs::ItemsBehind::behind_behind))]
pub fn at_line_end(setting: Setting, items: &mut Vec<Item>, to: TemporaryId) -> Result<(), NoMemory>
    ensures { IfOk result (λ _. Adds setting.entry items.old.items items.new.items (at_line_end to.0)) }
{
    let mut second = Vec::new(setting.alloc);
    is_line_feed(setting, &mut second, to)?;
    is_no_byte(setting, items, to)?;
    setting.also(items, false, to, second)
}

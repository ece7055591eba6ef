//! Inc and Dec (reference of the unit System): the place is found once.
#![tactic(auto, using(crate::proofs::Behind::behind_behind, crate::proofs::Behind::behind_none))]

ghost use Rattle.std.specs.Prelude.{◌≡◌, ◌+◌, IfOk};
ghost use Rattle.op_semantics.specs.Actions.{arithmetic};
ghost use Rattle.op_semantics.specs.Expressions.{past, path_of};
ghost use Rattle.op_semantics.specs.Items.{act, only};
ghost use Rattle.op_semantics.specs.Statements.{counted_load, counted_store, sum_or_difference};
ghost use Rattle.op_stores.specs.Parts.{counted_behind};
ghost use Rattle.op_values.specs.Adding.{Adds, now_view};
ghost use Rattle.op_values.specs.Setting.{here_view};
ghost use Rattle.op_values.specs.View.{view_operand, view_path};

use crate::assignment::char_put;
use op_base::NoMemory;
use op_core::{Conversion, TypeId};
use op_operators::converted;
use op_semantics::Primitive;
use op_tree::{Direction, Operator};
use op_values::{
    Action, Computation, Destination, Found, Here, Item, Now, Operand, Path, Setting, TemporaryId,
    copy_of, kind_of, next, path_of, two, whole_path,
};
use std::alloc::Global;

pub fn sum_or_difference(direction: Direction) -> Operator
    ensures { result ≡ sum_or_difference direction }
{
    match direction {
        Direction::To => Operator::Add,
        Direction::Downto => Operator::Subtract,
    }
}

/// The place of a value of the type once more.
pub fn path_again(alloc: Global, of: TypeId, here: Here, now: &Now) -> Result<Path, NoMemory>
    ensures { IfOk result (λ p. view_path p ≡ path_of of (here_view here) (now_view now.now)) }
{
    match now {
        Now::At(path) => copy_of(alloc, path),
        Now::Owned(path) => copy_of(alloc, path),
        Now::Ready => Ok(whole_path(alloc, of, here)),
        Now::Literal(_) => Ok(whole_path(alloc, of, here)),
        Now::Nil(_) => Ok(whole_path(alloc, of, here)),
        Now::Char { .. } => Ok(whole_path(alloc, of, here)),
    }
}

/// The same operand once more.
pub fn operand_again(alloc: Global, operand: &Operand) -> Result<Operand, NoMemory>
    ensures { IfOk result (λ o. view_operand o ≡ view_operand operand.now) }
{
    match operand {
        Operand::Number(temporary) => Ok(Operand::Number(*temporary)),
        Operand::Value(path) => Ok(Operand::Value(copy_of(alloc, path)?)),
        Operand::Literal(text) => Ok(Operand::Literal(text.share()?)),
        Operand::Nil(of) => Ok(Operand::Nil(*of)),
        Operand::OfType(of) => Ok(Operand::OfType(*of)),
        Operand::Token => Ok(Operand::Token),
    }
}

fn load_char(
    setting: Setting,
    items: &mut Vec<Item>,
    of: TypeId,
    here: Here,
    there: Here,
    text: &Operand,
    index: TemporaryId,
) -> Result<(), NoMemory>
    ensures { IfOk result (λ _. Adds setting.entry items.old.items items.new.items (only (act (counted_load setting.entry.core.now of (here_view here) (here_view there) (now_view (Now.Char text.now index)))))) }
{
    let text = operand_again(setting.alloc, text)?;
    let operands = two(setting.alloc, text, Operand::Number(index))?;
    setting.primitive(
        items,
        Primitive::CharAt,
        operands,
        Destination::InTemporary(there.first()),
    )
}

/// What is at the place goes to the first temporary behind the indices, `there`.
fn load_counted(
    setting: Setting,
    items: &mut Vec<Item>,
    of: TypeId,
    here: Here,
    there: Here,
    now: &Now,
) -> Result<(), NoMemory>
    ensures { IfOk result (λ _. Adds setting.entry items.old.items items.new.items (only (act (counted_load setting.entry.core.now of (here_view here) (here_view there) (now_view now.now))))) }
{
    let from = path_again(setting.alloc, of, here, now)?;
    let to = there.first();
    let kind = kind_of(setting.core, of);
    let load = Action::Load { to, kind, from };
    match now {
        Now::Char { text, index } => load_char(setting, items, of, here, there, text, *index),
        Now::Ready => setting.act(items, load),
        Now::At(_) => setting.act(items, load),
        Now::Owned(_) => setting.act(items, load),
        Now::Literal(_) => setting.act(items, load),
        Now::Nil(_) => setting.act(items, load),
    }
}

/// In front of the amount: what is at the place goes to the first temporary behind the indices.
pub fn counted_load(
    setting: Setting,
    items: &mut Vec<Item>,
    of: TypeId,
    here: Here,
    place: &Found,
) -> Result<(), NoMemory>
    ensures { IfOk result (λ _. Adds setting.entry items.old.items items.new.items (only (act (counted_load setting.entry.core.now of (here_view here) (past place.entry.now.used (here_view here)) (now_view place.entry.now.now))))) }
{
    let there = here.past(place.used)?;
    load_counted(setting, items, of, here, there, &place.now)
}

fn counted_store(
    setting: Setting,
    items: &mut Vec<Item>,
    of: TypeId,
    here: Here,
    there: Here,
    now: Now,
) -> Result<(), NoMemory>
    ensures { IfOk result (λ _. Adds setting.entry items.old.items items.new.items (counted_store setting.entry.core.now of (here_view here) (here_view there) (now_view now))) }
{
    let from = there.first();
    let kind = kind_of(setting.core, of);
    match now {
        Now::Char { text, index } => char_put(setting, items, there, text, index),
        Now::At(to) => setting.act(items, Action::Store { to, kind, from }),
        Now::Owned(to) => setting.act(items, Action::Store { to, kind, from }),
        Now::Ready => {
            let to = whole_path(setting.alloc, of, here);
            setting.act(items, Action::Store { to, kind, from })
        }
        Now::Literal(_) => {
            let to = whole_path(setting.alloc, of, here);
            setting.act(items, Action::Store { to, kind, from })
        }
        Now::Nil(_) => {
            let to = whole_path(setting.alloc, of, here);
            setting.act(items, Action::Store { to, kind, from })
        }
    }
}

/// The next temporary is added, or taken away.
fn add(
    setting: Setting,
    items: &mut Vec<Item>,
    direction: Direction,
    checked: bool,
    to: TemporaryId,
) -> Result<(), NoMemory>
    ensures { IfOk result (λ _. Adds setting.entry items.old.items items.new.items (only (act (arithmetic (sum_or_difference direction) checked to.0 to.0 (to.0 + 1))))) }
{
    let right = next(to)?;
    let sum = Computation::Arithmetic {
        operator: sum_or_difference(direction),
        checked,
        to,
        left: to,
        right,
    };
    setting.compute(items, sum)
}

/// Behind the amount: the sum is made, converted, and stored.
pub fn counted(
    setting: Setting,
    items: &mut Vec<Item>,
    direction: Direction,
    checked: bool,
    conversion: Conversion,
    of: TypeId,
    here: Here,
    place: Found,
) -> Result<(), NoMemory>
    ensures { IfOk result (λ _. Adds setting.entry items.old.items items.new.items (counted_behind setting.entry.core.now direction checked conversion of (here_view here) (past place.used (here_view here)) (now_view place.now))) }
{
    let there = here.past(place.used)?;
    let to = there.first();
    add(setting, items, direction, checked, to)?;
    converted(setting, items, conversion, of, to)?;
    counted_store(setting, items, of, here, there, place.now)
}

//! Loops that count ("The For..to/downto..do statement" of the Free Pascal Reference Guide).
#![tactic(auto, using(crate::proofs::Behind::behind_behind, crate::proofs::Behind::behind_none))]

ghost use Rattle.std.specs.Prelude.{◌≡◌, ◌+◌, [], ◌∷◌, IfOk, false, pos};
ghost use Rattle.op_semantics.specs.Actions.{arithmetic, compare, constant};
ghost use Rattle.op_semantics.specs.Items.{act, acts, body_first, only, then_do};
ghost use Rattle.op_semantics.specs.Statements.{check_bound, counting, counting_up, for_items, has_turn, if_any, store_variable, sum_or_difference};
ghost use Rattle.op_turns.specs.Parts.{bounded, where_turns};
ghost use Rattle.op_values.specs.Adding.{Adds, env_view, turns_in, view_in};
ghost use Rattle.op_values.specs.Setting.{here_view};

use op_base::NoMemory;
use op_core::VariableId;
use op_operators::check;
use op_stores::{store_variable, sum_or_difference};
use op_tree::{Direction, Operator};
use op_values::{
    Computation, Here, Item, Setting, TemporaryId, Turns, behind, next, type_of_variable,
};

fn has_turn(direction: Direction) -> Operator
    ensures { result ≡ has_turn direction }
{
    match direction {
        Direction::To => Operator::LessEqual,
        Direction::Downto => Operator::GreaterEqual,
    }
}

/// The counter beside the last value, in the temporary behind these two.
fn compare(
    setting: Setting,
    items: &mut Vec<Item>,
    operator: Operator,
    counter: TemporaryId,
) -> Result<(), NoMemory>
    ensures { IfOk result (λ _. Adds setting.entry items.old.items items.new.items (only (act (compare operator (counter.0 + 2) counter.0 (counter.0 + 1))))) }
{
    let to = behind(counter, 2)?;
    let right = next(counter)?;
    setting.compute(
        items,
        Computation::Compare {
            operator,
            to,
            left: counter,
            right,
        },
    )
}

/// The counter goes on by one.
fn count_on(
    setting: Setting,
    items: &mut Vec<Item>,
    direction: Direction,
    counter: TemporaryId,
) -> Result<(), NoMemory>
    ensures { IfOk result (λ _. Adds setting.entry items.old.items items.new.items (acts (constant (counter.0 + 2) (pos 1) ∷ arithmetic (sum_or_difference direction) false counter.0 counter.0 (counter.0 + 2) ∷ []))) }
{
    let right = behind(counter, 2)?;
    setting.number(items, right, 1)?;
    setting.compute(
        items,
        Computation::Arithmetic {
            operator: sum_or_difference(direction),
            checked: false,
            to: counter,
            left: counter,
            right,
        },
    )
}

/// The counter is in the temporary, the last value in the next one, and what a test says in the one behind.
fn counting(
    setting: Setting,
    counter: TemporaryId,
    direction: Direction,
    body: Vec<Item>,
) -> Result<Turns, NoMemory>
    ensures { IfOk result (λ turns. turns_in setting.entry turns ≡ counting counter.0 direction (view_in setting.entry body.items)) }
{
    let mut head = Vec::new(setting.alloc);
    compare(setting, &mut head, Operator::Equal, counter)?;
    let mut between = Vec::new(setting.alloc);
    count_on(setting, &mut between, direction, counter)?;
    Ok(Turns {
        head,
        temporary: behind(counter, 2)?,
        ends: true,
        between,
        body,
    })
}

/// The turns of a loop that counts.
fn turns(
    setting: Setting,
    items: &mut Vec<Item>,
    counter: TemporaryId,
    direction: Direction,
    body: Vec<Item>,
) -> Result<(), NoMemory>
    ensures { IfOk result (λ _. Adds setting.entry items.old.items items.new.items (only (body_first (counting counter.0 direction (view_in setting.entry body.items))))) }
{
    let turns = counting(setting, counter, direction, body)?;
    setting.body_first(items, turns)
}

/// The turns of one that counts up.
pub fn count_up(
    setting: Setting,
    items: &mut Vec<Item>,
    counter: TemporaryId,
    body: Vec<Item>,
) -> Result<(), NoMemory>
    ensures { IfOk result (λ _. Adds setting.entry items.old.items items.new.items (counting_up counter.0 (view_in setting.entry body.items))) }
{
    turns(setting, items, counter, Direction::To, body)
}

/// The items, where the counter passes the test beside the last value.
fn where_turns(
    setting: Setting,
    items: &mut Vec<Item>,
    counter: TemporaryId,
    operator: Operator,
    first: Vec<Item>,
) -> Result<(), NoMemory>
    ensures { IfOk result (λ _. Adds setting.entry items.old.items items.new.items (where_turns operator counter.0 (view_in setting.entry first.items))) }
{
    compare(setting, items, operator, counter)?;
    let temporary = behind(counter, 2)?;
    setting.choose(items, temporary, first, Vec::new(setting.alloc))
}

/// The items, where counting up has a turn.
pub fn if_any(
    setting: Setting,
    items: &mut Vec<Item>,
    here: Here,
    first: Vec<Item>,
) -> Result<(), NoMemory>
    ensures { IfOk result (λ _. Adds setting.entry items.old.items items.new.items (if_any (here_view here) (view_in setting.entry first.items))) }
{
    where_turns(setting, items, here.first(), Operator::LessEqual, first)
}

/// The bound is a value of the variable's type.
fn check_bound(
    setting: Setting,
    items: &mut Vec<Item>,
    variable: VariableId,
    bound: TemporaryId,
) -> Result<(), NoMemory>
    ensures { IfOk result (λ _. Adds setting.entry items.old.items items.new.items (only (act (check_bound (env_view setting.entry) variable bound.0)))) }
{
    let of = type_of_variable(setting.core, variable);
    check(setting, items, of, bound, bound)
}

/// Each turn stores the counter first.
fn stored_turns(
    setting: Setting,
    items: &mut Vec<Item>,
    counter: TemporaryId,
    variable: VariableId,
    direction: Direction,
    body: Vec<Item>,
) -> Result<(), NoMemory>
    ensures { IfOk result (λ _. Adds setting.entry items.old.items items.new.items (only (body_first (counting counter.0 direction (then_do (act (store_variable (env_view setting.entry) variable counter.0)) (view_in setting.entry body.items)))))) }
{
    let mut turn = Vec::new(setting.alloc);
    store_variable(setting, &mut turn, variable, counter)?;
    setting.items(&mut turn, body)?;
    turns(setting, items, counter, direction, turn)
}

/// Both bounds are checked, and then there are turns.
fn bounded(
    setting: Setting,
    counter: TemporaryId,
    variable: VariableId,
    direction: Direction,
    body: Vec<Item>,
) -> Result<Vec<Item>, NoMemory>
    ensures { IfOk result (λ items. view_in setting.entry items.items ≡ bounded (env_view setting.entry) counter.0 variable direction (view_in setting.entry body.items)) }
{
    let mut items = Vec::new(setting.alloc);
    check_bound(setting, &mut items, variable, counter)?;
    check_bound(setting, &mut items, variable, next(counter)?)?;
    stored_turns(setting, &mut items, counter, variable, direction, body)?;
    Ok(items)
}

/// The turns of `for`, behind both bounds, which are in the first two free temporaries. Where there is a turn, the bounds are checked first.
pub fn count_turns(
    setting: Setting,
    items: &mut Vec<Item>,
    here: Here,
    variable: VariableId,
    direction: Direction,
    body: Vec<Item>,
) -> Result<(), NoMemory>
    ensures { IfOk result (λ _. Adds setting.entry items.old.items items.new.items (for_items (env_view setting.entry) (here_view here) variable direction (view_in setting.entry body.items))) }
{
    let counter = here.first();
    let first = bounded(setting, counter, variable, direction, body)?;
    where_turns(setting, items, counter, has_turn(direction), first)
}

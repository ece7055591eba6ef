//! Loops that count ("The For..to/downto..do statement" and "The For..in..do statement" of the Free Pascal Reference Guide).
#![tactic(auto, using(crate::proofs::Behind::behind_behind, crate::proofs::Behind::behind_none))]

ghost use Rattle.std.specs.Prelude.{◌≡◌, ◌+◌, [], ◌∷◌, IfOk, false, pos};
ghost use Rattle.op_core.specs.Sizes.{type_at};
ghost use Rattle.op_items.specs.Adding.{Adds, env_view, turns_in, view_in};
ghost use Rattle.op_items.specs.Collections.{bounded, element_stored, turn_of_set};
ghost use Rattle.op_items.specs.Setting.{here_view};
ghost use Rattle.op_meaning.specs.Actions.{arithmetic, compare, constant};
ghost use Rattle.op_meaning.specs.Expressions.{element_step, high_in, low_in, whole_path};
ghost use Rattle.op_meaning.specs.Items.{act, acts, body_first, only, then_do};
ghost use Rattle.op_meaning.specs.Paths.{with_step};
ghost use Rattle.op_meaning.specs.Statements.{check_bound, counting, for_items, has_turn, in_array, in_collection, in_set, store_variable, sum_or_difference};
ghost use Rattle.op_mir.specs.View.{view_path};

use crate::assignment::sum_or_difference;
use crate::found::Found;
use crate::item::{Item, Turns};
use crate::path::{whole_path, with_step};
use crate::setting::{Here, Setting, behind, next};
use crate::shape::{counted_of, high_in, low_in, type_of_variable};
use op_base::NoMemory;
use op_core::{Conversion, CoreType, TypeId, VariableId, type_at};
use op_mir::{Computation, Path, TemporaryId};
use op_tree::{Direction, Operator};

fn has_turn(direction: Direction) -> Operator
    ensures { result ≡ has_turn direction }
{
    match direction {
        Direction::To => Operator::LessEqual,
        Direction::Downto => Operator::GreaterEqual,
    }
}

impl Setting<'_> {
    fn compare(
        self,
        items: &mut Vec<Item>,
        operator: Operator,
        counter: TemporaryId,
    ) -> Result<(), NoMemory>
        ensures { IfOk result (λ _. Adds self.entry items.old.items items.new.items (only (act (compare operator (counter.0 + 2) counter.0 (counter.0 + 1))))) }
    {
        let to = behind(counter, 2)?;
        let right = next(counter)?;
        self.compute(
            items,
            Computation::Compare {
                operator,
                to,
                left: counter,
                right,
            },
        )
    }

    /// The counter goes on by one.
    fn count_on(
        self,
        items: &mut Vec<Item>,
        direction: Direction,
        counter: TemporaryId,
    ) -> Result<(), NoMemory>
        ensures { IfOk result (λ _. Adds self.entry items.old.items items.new.items (acts (constant (counter.0 + 2) (pos 1) ∷ arithmetic (sum_or_difference direction) false counter.0 counter.0 (counter.0 + 2) ∷ []))) }
    {
        let right = behind(counter, 2)?;
        self.number(items, right, 1)?;
        self.compute(
            items,
            Computation::Arithmetic {
                operator: sum_or_difference(direction),
                checked: false,
                to: counter,
                left: counter,
                right,
            },
        )
    }

    /// The counter is in the temporary, the last value in the next one, and what a test says in the one behind.
    fn counting(
        self,
        counter: TemporaryId,
        direction: Direction,
        body: Vec<Item>,
    ) -> Result<Turns, NoMemory>
        ensures { IfOk result (λ turns. turns_in self.entry turns ≡ counting counter.0 direction (view_in self.entry body.items)) }
    {
        let mut head = Vec::new(self.alloc);
        self.compare(&mut head, Operator::Equal, counter)?;
        let mut between = Vec::new(self.alloc);
        self.count_on(&mut between, direction, counter)?;
        Ok(Turns {
            head,
            temporary: behind(counter, 2)?,
            ends: true,
            between,
            body,
        })
    }

    /// The bound is a value of the variable's type.
    fn check_bound(
        self,
        items: &mut Vec<Item>,
        variable: VariableId,
        bound: TemporaryId,
    ) -> Result<(), NoMemory>
        ensures { IfOk result (λ _. Adds self.entry items.old.items items.new.items (only (act (check_bound (env_view self.entry) variable bound.0)))) }
    {
        self.check(items, type_of_variable(self.core, variable), bound, bound)
    }

    /// The turns of such a loop, each of which stores the counter first.
    fn turns(
        self,
        items: &mut Vec<Item>,
        counter: TemporaryId,
        variable: VariableId,
        direction: Direction,
        body: Vec<Item>,
    ) -> Result<(), NoMemory>
        ensures { IfOk result (λ _. Adds self.entry items.old.items items.new.items (only (body_first (counting counter.0 direction (then_do (act (store_variable (env_view self.entry) variable counter.0)) (view_in self.entry body.items)))))) }
    {
        let mut turn = Vec::new(self.alloc);
        self.store_variable(&mut turn, variable, counter)?;
        self.items(&mut turn, body)?;
        let turns = self.counting(counter, direction, turn)?;
        self.body_first(items, turns)
    }

    /// Both bounds are checked, and then there are turns.
    fn bounded(
        self,
        counter: TemporaryId,
        variable: VariableId,
        direction: Direction,
        body: Vec<Item>,
    ) -> Result<Vec<Item>, NoMemory>
        ensures { IfOk result (λ items. view_in self.entry items.items ≡ bounded (env_view self.entry) counter.0 variable direction (view_in self.entry body.items)) }
    {
        let mut items = Vec::new(self.alloc);
        self.check_bound(&mut items, variable, counter)?;
        self.check_bound(&mut items, variable, next(counter)?)?;
        self.turns(&mut items, counter, variable, direction, body)?;
        Ok(items)
    }

    /// Behind both bounds: where there is a turn, they are checked.
    #[inline(never)]
    pub fn count_turns(
        self,
        items: &mut Vec<Item>,
        here: Here,
        variable: VariableId,
        direction: Direction,
        body: Vec<Item>,
    ) -> Result<(), NoMemory>
        ensures { IfOk result (λ _. Adds self.entry items.old.items items.new.items (for_items (env_view self.entry) (here_view here) variable direction (view_in self.entry body.items))) }
    {
        let counter = here.first();
        self.compare(items, has_turn(direction), counter)?;
        let first = self.bounded(counter, variable, direction, body)?;
        let temporary = behind(counter, 2)?;
        self.choose(items, temporary, first, Vec::new(self.alloc))
    }

    /// Two bounds go to the temporary and to the next one.
    fn bounds(self, items: &mut Vec<Item>, of: TypeId, to: TemporaryId) -> Result<(), NoMemory>
        ensures { IfOk result (λ _. Adds self.entry items.old.items items.new.items (acts (constant to.0 (low_in self.entry.core.now of) ∷ constant (to.0 + 1) (high_in self.entry.core.now of) ∷ []))) }
    {
        let low = low_in(self.core, of)?;
        let high = high_in(self.core, of)?;
        self.number(items, to, low)?;
        self.number(items, next(to)?, high)
    }

    /// The place of the element whose index is in the first temporary, in the copy of an array.
    fn element_place(self, of: TypeId, here: Here) -> Result<Path, NoMemory>
        ensures { IfOk result (λ place. view_path place ≡ with_step (element_step self.entry.core.now of (here_view here).temp) (whole_path of (here_view here))) }
    {
        let step = self.element_step(of, here.first())?;
        with_step(whole_path(self.alloc, of, here), step)
    }

    /// An element of the array is stored in the variable.
    fn store_element(
        self,
        items: &mut Vec<Item>,
        here: Here,
        of: TypeId,
        element: TypeId,
        variable: VariableId,
        conversion: Conversion,
    ) -> Result<(), NoMemory>
        ensures { IfOk result (λ _. Adds self.entry items.old.items items.new.items (element_stored (env_view self.entry) (here_view here) of element variable conversion)) }
    {
        let to = type_of_variable(self.core, variable);
        let inner = here.past_whole()?.past(3)?;
        let place = Found::at(self.element_place(of, here)?);
        self.make(items, element, inner, place)?;
        self.convert(items, conversion, to, here.behind(3)?)?;
        let target = Found::at(self.variable(variable));
        self.store(items, to, element, inner, target)
    }

    /// Behind a copy of an array: its elements in ascending order.
    fn in_array(
        self,
        items: &mut Vec<Item>,
        here: Here,
        of: TypeId,
        element: TypeId,
        variable: VariableId,
        conversion: Conversion,
        body: Vec<Item>,
    ) -> Result<(), NoMemory>
        ensures { IfOk result (λ _. Adds self.entry items.old.items items.new.items (in_array (env_view self.entry) (here_view here) of element variable conversion (view_in self.entry body.items))) }
    {
        let counter = here.first();
        self.bounds(items, counted_of(self.core, of), counter)?;
        let mut turn = Vec::new(self.alloc);
        self.store_element(&mut turn, here, of, element, variable, conversion)?;
        self.items(&mut turn, body)?;
        let turns = self.counting(counter, Direction::To, turn)?;
        self.body_first(items, turns)
    }

    /// Where the counter's value is in the set, it is stored in the variable.
    fn in_turn_of_set(
        self,
        here: Here,
        base: TypeId,
        variable: VariableId,
        conversion: Conversion,
        body: Vec<Item>,
    ) -> Result<Vec<Item>, NoMemory>
        ensures { IfOk result (λ turn. view_in self.entry turn.items ≡ turn_of_set (env_view self.entry) (here_view here) base variable conversion (view_in self.entry body.items)) }
    {
        let set = here.first();
        let element = here.behind(1)?;
        let to = here.behind(4)?;
        let mut first = Vec::new(self.alloc);
        self.check(&mut first, base, to, element)?;
        self.convert(
            &mut first,
            conversion,
            type_of_variable(self.core, variable),
            to,
        )?;
        self.store_variable(&mut first, variable, to)?;
        self.items(&mut first, body)?;
        let mut turn = Vec::new(self.alloc);
        self.compute(&mut turn, Computation::Contains { to, element, set })?;
        self.choose(&mut turn, to, first, Vec::new(self.alloc))?;
        Ok(turn)
    }

    /// Behind a set in the first temporary: those of the base's values that are in it.
    fn in_set(
        self,
        items: &mut Vec<Item>,
        here: Here,
        base: TypeId,
        variable: VariableId,
        conversion: Conversion,
        body: Vec<Item>,
    ) -> Result<(), NoMemory>
        ensures { IfOk result (λ _. Adds self.entry items.old.items items.new.items (in_set (env_view self.entry) (here_view here) base variable conversion (view_in self.entry body.items))) }
    {
        let counter = here.behind(1)?;
        self.bounds(items, base, counter)?;
        let turn = self.in_turn_of_set(here, base, variable, conversion, body)?;
        let turns = self.counting(counter, Direction::To, turn)?;
        self.body_first(items, turns)
    }

    /// Behind a collection of the type.
    #[inline(never)]
    pub fn in_collection(
        self,
        items: &mut Vec<Item>,
        here: Here,
        of: TypeId,
        variable: VariableId,
        conversion: Conversion,
        body: Vec<Item>,
    ) -> Result<(), NoMemory>
        ensures { IfOk result (λ _. Adds self.entry items.old.items items.new.items (in_collection (env_view self.entry) (here_view here) of (type_at self.entry.core.now of) variable conversion (view_in self.entry body.items))) }
    {
        match type_at(self.core, of) {
            Some(CoreType::Array { element, .. }) => self.in_array(
                items, here, of, element, variable, conversion, body,
            ),
            Some(CoreType::Set { base }) => self.in_set(
                items, here, base, variable, conversion, body,
            ),
            _ => Ok(()),
        }
    }
}

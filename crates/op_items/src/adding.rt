//! Items behind items.
ghost use Rattle.std.specs.Prelude.{◌≡◌, IfOk};
ghost use Rattle.op_items.specs.Adding.{Adds, cases_in, clauses_in, turns_in, view_in};
ghost use Rattle.op_items.specs.View.{item_view};
ghost use Rattle.op_meaning.specs.Items.{act, also, attempt, body_first, choose, for_others, loop, no_clauses, only, protect, select};
ghost use Rattle.op_mir.specs.View.{view_action, view_computation};

use crate::item::{Case, Clause, Item, Turns};
use crate::setting::Setting;
use op_base::NoMemory;
use op_mir::{Action, Computation, TemporaryId};

impl Setting<'_> {
    #[tactic(auto, using(crate::proofs::Nodes::items_behind))]
    pub fn item(self, items: &mut Vec<Item>, item: Item) -> Result<(), NoMemory>
        ensures { IfOk result (λ _. Adds self.entry items.old.items items.new.items (only (item_view self.entry.core.now self.entry.routine.0 item))) }
    {
        items.push(item)?;
        Ok(())
    }

    /// All of a list of items.
    #[tactic(auto, using(crate::proofs::Nodes::items_behind))]
    pub fn items(self, items: &mut Vec<Item>, mut more: Vec<Item>) -> Result<(), NoMemory>
        ensures { IfOk result (λ _. Adds self.entry items.old.items items.new.items (view_in self.entry more.items)) }
    {
        items.append(&mut more)?;
        Ok(())
    }

    pub fn act(self, items: &mut Vec<Item>, action: Action) -> Result<(), NoMemory>
        ensures { IfOk result (λ _. Adds self.entry items.old.items items.new.items (only (act (view_action self.entry.core.now self.entry.routine.0 action)))) }
    {
        self.item(items, Item::Act(action))
    }

    pub fn compute(self, items: &mut Vec<Item>, computation: Computation) -> Result<(), NoMemory>
        ensures { IfOk result (λ _. Adds self.entry items.old.items items.new.items (only (act (view_computation computation)))) }
    {
        self.act(items, Action::Compute(computation))
    }

    /// The second operand, where the first one is this truth value.
    pub fn also(
        self,
        items: &mut Vec<Item>,
        truth: bool,
        temporary: TemporaryId,
        second: Vec<Item>,
    ) -> Result<(), NoMemory>
        ensures { IfOk result (λ _. Adds self.entry items.old.items items.new.items (only (also truth temporary.0 (view_in self.entry second.items)))) }
    {
        let item = Item::Also {
            truth,
            temporary,
            items: second,
        };
        self.item(items, item)
    }

    pub fn choose(
        self,
        items: &mut Vec<Item>,
        temporary: TemporaryId,
        first: Vec<Item>,
        otherwise: Vec<Item>,
    ) -> Result<(), NoMemory>
        ensures { IfOk result (λ _. Adds self.entry items.old.items items.new.items (only (choose temporary.0 (view_in self.entry first.items) (view_in self.entry otherwise.items)))) }
    {
        let item = Item::Choose {
            temporary,
            first,
            otherwise,
        };
        self.item(items, item)
    }

    pub fn select(
        self,
        items: &mut Vec<Item>,
        temporary: TemporaryId,
        cases: Vec<Case>,
        otherwise: Vec<Item>,
    ) -> Result<(), NoMemory>
        ensures { IfOk result (λ _. Adds self.entry items.old.items items.new.items (only (select temporary.0 (cases_in self.entry cases.items) (view_in self.entry otherwise.items)))) }
    {
        let item = Item::Select {
            temporary,
            cases,
            otherwise,
        };
        self.item(items, item)
    }

    /// A loop, from its test on.
    #[inline(never)]
    pub fn repeat(self, items: &mut Vec<Item>, turns: Turns) -> Result<(), NoMemory>
        ensures { IfOk result (λ _. Adds self.entry items.old.items items.new.items (only (loop (turns_in self.entry turns)))) }
    {
        self.item(items, Item::Loop(turns))
    }

    /// A loop, from its body on.
    #[inline(never)]
    pub fn body_first(self, items: &mut Vec<Item>, turns: Turns) -> Result<(), NoMemory>
        ensures { IfOk result (λ _. Adds self.entry items.old.items items.new.items (only (body_first (turns_in self.entry turns)))) }
    {
        self.item(items, Item::BodyFirst(turns))
    }

    /// A part with a finally part.
    #[inline(never)]
    pub fn protect(
        self,
        items: &mut Vec<Item>,
        temporary: TemporaryId,
        body: Vec<Item>,
        finalization: Vec<Item>,
    ) -> Result<(), NoMemory>
        ensures { IfOk result (λ _. Adds self.entry items.old.items items.new.items (only (protect temporary.0 (view_in self.entry body.items) (view_in self.entry finalization.items)))) }
    {
        let item = Item::Protect {
            temporary,
            items: body,
            finalization,
        };
        self.item(items, item)
    }

    /// A part with handlers.
    #[inline(never)]
    pub fn attempt(
        self,
        items: &mut Vec<Item>,
        body: Vec<Item>,
        clauses: Vec<Clause>,
    ) -> Result<(), NoMemory>
        ensures { IfOk result (λ _. Adds self.entry items.old.items items.new.items (only (attempt (view_in self.entry body.items) (clauses_in self.entry clauses.items no_clauses)))) }
    {
        let item = Item::Attempt {
            items: body,
            clauses,
        };
        self.item(items, item)
    }

    /// A part with handlers, and one for all other exceptions.
    #[inline(never)]
    pub fn attempt_all(
        self,
        items: &mut Vec<Item>,
        body: Vec<Item>,
        clauses: Vec<Clause>,
        others: Vec<Item>,
    ) -> Result<(), NoMemory>
        ensures { IfOk result (λ _. Adds self.entry items.old.items items.new.items (only (attempt (view_in self.entry body.items) (clauses_in self.entry clauses.items (for_others (view_in self.entry others.items)))))) }
    {
        let item = Item::AttemptAll {
            items: body,
            clauses,
            others,
        };
        self.item(items, item)
    }
}

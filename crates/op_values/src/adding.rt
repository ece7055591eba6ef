//! Items behind items.
ghost use Rattle.std.specs.Prelude.{◌≡◌, IfOk, map};
ghost use Rattle.op_values.specs.Adding.{Adds, cases_in, clauses_in, turns_in, view_in};
ghost use Rattle.op_semantics.specs.Actions.{primitive};
ghost use Rattle.op_semantics.specs.Items.{act, also, attempt, body_first, choose, for_others, loop, no_clauses, only, protect, scoped, select};
ghost use Rattle.op_values.specs.View.{item_view, view_action, view_computation, view_destination, view_operand, view_temporary};

use crate::action::{Action, Computation, Destination, Operand};
use crate::ids::TemporaryId;
use crate::item::{Case, Clause, Item, Turns};
use crate::setting::Setting;
use crate::temporary::Temporary;
use op_base::{NoMemory, Sequence};
use op_semantics::Primitive;

impl Setting<'_> {
    #[tactic(auto, using(crate::proofs::Nodes::items_behind))]
    pub fn item(self, items: &mut Vec<Item>, item: Item) -> Result<(), NoMemory>
        ensures { IfOk result (λ _. Adds self.entry items.old.items items.new.items (only (item_view self.entry.core.now self.entry.routine.0 item))) }
    {
        items.push(item)?;
        Ok(())
    }

    /// All of a list of items.
    #[tactic(auto, using(crate::proofs::Nodes::items_behind))]
    pub fn items(self, items: &mut Vec<Item>, mut more: Vec<Item>) -> Result<(), NoMemory>
        ensures { IfOk result (λ _. Adds self.entry items.old.items items.new.items (view_in self.entry more.items)) }
    {
        items.append(&mut more)?;
        Ok(())
    }

    pub fn act(self, items: &mut Vec<Item>, action: Action) -> Result<(), NoMemory>
        ensures { IfOk result (λ _. Adds self.entry items.old.items items.new.items (only (act (view_action self.entry.core.now self.entry.routine.0 action)))) }
    {
        self.item(items, Item::Act(action))
    }

    pub fn compute(self, items: &mut Vec<Item>, computation: Computation) -> Result<(), NoMemory>
        ensures { IfOk result (λ _. Adds self.entry items.old.items items.new.items (only (act (view_computation computation)))) }
    {
        self.act(items, Action::Compute(computation))
    }

    /// What a run-time routine does.
    pub fn primitive(
        self,
        items: &mut Vec<Item>,
        which: Primitive,
        operands: Sequence<Operand>,
        to: Destination,
    ) -> Result<(), NoMemory>
        ensures { IfOk result (λ _. Adds self.entry items.old.items items.new.items (only (act (primitive which (map view_operand operands) (view_destination to))))) }
    {
        self.act(
            items,
            Action::Do {
                primitive: which,
                operands,
                to,
            },
        )
    }

    /// Items that may make these temporaries, which end behind them.
    pub fn scoped(
        self,
        items: &mut Vec<Item>,
        first: Temporary,
        others: Sequence<Temporary>,
        inner: Vec<Item>,
    ) -> Result<(), NoMemory>
        ensures { IfOk result (λ _. Adds self.entry items.old.items items.new.items (only (scoped (view_temporary first) (map view_temporary others) (view_in self.entry inner.items)))) }
    {
        let item = Item::Scoped {
            first,
            others,
            items: inner,
        };
        self.item(items, item)
    }

    /// The second operand, where the first one is this truth value.
    pub fn also(
        self,
        items: &mut Vec<Item>,
        truth: bool,
        temporary: TemporaryId,
        second: Vec<Item>,
    ) -> Result<(), NoMemory>
        ensures { IfOk result (λ _. Adds self.entry items.old.items items.new.items (only (also truth temporary.0 (view_in self.entry second.items)))) }
    {
        let item = Item::Also {
            truth,
            temporary,
            items: second,
        };
        self.item(items, item)
    }

    pub fn choose(
        self,
        items: &mut Vec<Item>,
        temporary: TemporaryId,
        first: Vec<Item>,
        otherwise: Vec<Item>,
    ) -> Result<(), NoMemory>
        ensures { IfOk result (λ _. Adds self.entry items.old.items items.new.items (only (choose temporary.0 (view_in self.entry first.items) (view_in self.entry otherwise.items)))) }
    {
        let item = Item::Choose {
            temporary,
            first,
            otherwise,
        };
        self.item(items, item)
    }

    pub fn select(
        self,
        items: &mut Vec<Item>,
        temporary: TemporaryId,
        cases: Vec<Case>,
        otherwise: Vec<Item>,
    ) -> Result<(), NoMemory>
        ensures { IfOk result (λ _. Adds self.entry items.old.items items.new.items (only (select temporary.0 (cases_in self.entry cases.items) (view_in self.entry otherwise.items)))) }
    {
        let item = Item::Select {
            temporary,
            cases,
            otherwise,
        };
        self.item(items, item)
    }

    /// A loop, from its test on.
    #[inline(never)]
    pub fn repeat(self, items: &mut Vec<Item>, turns: Turns) -> Result<(), NoMemory>
        ensures { IfOk result (λ _. Adds self.entry items.old.items items.new.items (only (loop (turns_in self.entry turns)))) }
    {
        self.item(items, Item::Loop(turns))
    }

    /// A loop, from its body on.
    #[inline(never)]
    pub fn body_first(self, items: &mut Vec<Item>, turns: Turns) -> Result<(), NoMemory>
        ensures { IfOk result (λ _. Adds self.entry items.old.items items.new.items (only (body_first (turns_in self.entry turns)))) }
    {
        self.item(items, Item::BodyFirst(turns))
    }

    /// A part with a finally part.
    #[inline(never)]
    pub fn protect(
        self,
        items: &mut Vec<Item>,
        temporary: TemporaryId,
        body: Vec<Item>,
        finalization: Vec<Item>,
    ) -> Result<(), NoMemory>
        ensures { IfOk result (λ _. Adds self.entry items.old.items items.new.items (only (protect temporary.0 (view_in self.entry body.items) (view_in self.entry finalization.items)))) }
    {
        let item = Item::Protect {
            temporary,
            items: body,
            finalization,
        };
        self.item(items, item)
    }

    /// A part with handlers.
    #[inline(never)]
    pub fn attempt(
        self,
        items: &mut Vec<Item>,
        body: Vec<Item>,
        clauses: Vec<Clause>,
    ) -> Result<(), NoMemory>
        ensures { IfOk result (λ _. Adds self.entry items.old.items items.new.items (only (attempt (view_in self.entry body.items) (clauses_in self.entry clauses.items no_clauses)))) }
    {
        let item = Item::Attempt {
            items: body,
            clauses,
        };
        self.item(items, item)
    }

    /// A part with handlers, and one for all other exceptions.
    #[inline(never)]
    pub fn attempt_all(
        self,
        items: &mut Vec<Item>,
        body: Vec<Item>,
        clauses: Vec<Clause>,
        others: Vec<Item>,
    ) -> Result<(), NoMemory>
        ensures { IfOk result (λ _. Adds self.entry items.old.items items.new.items (only (attempt (view_in self.entry body.items) (clauses_in self.entry clauses.items (for_others (view_in self.entry others.items)))))) }
    {
        let item = Item::AttemptAll {
            items: body,
            clauses,
            others,
        };
        self.item(items, item)
    }
}

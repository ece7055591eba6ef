//! Statements whose parts are expressions, and the heads of the others.
#![tactic(auto, using(crate::proofs::Behind::behind_behind, crate::proofs::Behind::behind_none))]

ghost use Rattle.std.specs.Prelude.{◌≡◌, IfOk};
ghost use Rattle.op_core.specs.Expression.{expr_of};
ghost use Rattle.op_core.specs.Statement.{built_in_of, exit_with, raise};
ghost use Rattle.op_core.specs.Typing as typing;
ghost use Rattle.op_items.specs.Adding.{Adds, cases_in, env_view, turns_in, view_in};
ghost use Rattle.op_items.specs.Setting.{here_view};
ghost use Rattle.op_items.specs.View.{variable_view, way_view};
ghost use Rattle.op_meaning.specs.Expressions.{find, make, path_of};
ghost use Rattle.op_meaning.specs.Items.{choose, free, halt, leave, none, only, rethrow, select, turns, ◌&◌};
ghost use Rattle.op_meaning.specs.Statements.{clause_variable, done_built_in, work_of};

use crate::expression::{find, make};
use crate::found::{Found, path_of};
use crate::item::{Case, Item, Turns, Way};
use crate::path::root_of;
use crate::setting::{Here, Setting};
use crate::shape::type_of;
use op_base::NoMemory;
use op_core::{CoreAction, CoreExpr, VariableId};
use op_mir::Root;
use op_tree::Operator;

impl Setting<'_> {
    /// One of two parts, by a condition.
    #[inline(never)]
    pub fn branch(
        self,
        items: &mut Vec<Item>,
        here: Here,
        condition: &CoreExpr,
        first: Vec<Item>,
        otherwise: Vec<Item>,
    ) -> Result<(), NoMemory>
        ensures { IfOk result (λ _. Adds self.entry items.old.items items.new.items ((make (env_view self.entry) (here_view here) (expr_of condition.now)).items & only (choose (here_view here).temp (view_in self.entry first.items) (view_in self.entry otherwise.items)))) }
    {
        make(self, here, condition, items)?;
        self.choose(items, here.first(), first, otherwise)
    }

    /// The branch that has a value.
    #[inline(never)]
    pub fn switch(
        self,
        items: &mut Vec<Item>,
        here: Here,
        selector: &CoreExpr,
        cases: Vec<Case>,
        otherwise: Vec<Item>,
    ) -> Result<(), NoMemory>
        ensures { IfOk result (λ _. Adds self.entry items.old.items items.new.items ((make (env_view self.entry) (here_view here) (expr_of selector.now)).items & only (select (here_view here).temp (cases_in self.entry cases.items) (view_in self.entry otherwise.items)))) }
    {
        make(self, here, selector, items)?;
        self.select(items, here.first(), cases, otherwise)
    }

    /// The turns of a loop that ends where a condition has this value.
    #[inline(never)]
    pub fn turns_until(
        self,
        here: Here,
        condition: &CoreExpr,
        ends: bool,
        body: Vec<Item>,
    ) -> Result<Turns, NoMemory>
        ensures { IfOk result (λ l. turns_in self.entry l ≡ turns (make (env_view self.entry) (here_view here) (expr_of condition.now)).items (here_view here).temp ends none (view_in self.entry body.items)) }
    {
        let mut head = Vec::new(self.alloc);
        make(self, here, condition, &mut head)?;
        Ok(Turns {
            head,
            temporary: here.first(),
            ends,
            between: Vec::new(self.alloc),
            body,
        })
    }

    #[inline(never)]
    pub fn raise(
        self,
        items: &mut Vec<Item>,
        here: Here,
        exception: &CoreExpr,
    ) -> Result<(), NoMemory>
        ensures { IfOk result (λ _. Adds self.entry items.old.items items.new.items (work_of (env_view self.entry) (here_view here) (raise (expr_of exception.now)))) }
    {
        let Found { now, .. } = find(self, here, exception, items)?;
        let at = path_of(self.alloc, type_of(exception), here, now);
        self.item(items, Item::Throw { at })
    }

    /// The handler's instance is raised again.
    #[inline(never)]
    pub fn reraise(self, items: &mut Vec<Item>) -> Result<(), NoMemory>
        ensures { IfOk result (λ _. Adds self.entry items.old.items items.new.items (only rethrow)) }
    {
        self.item(items, Item::Rethrow)
    }

    /// A call, whose result is dropped.
    #[inline(never)]
    pub fn call(self, items: &mut Vec<Item>, here: Here, call: &CoreExpr) -> Result<(), NoMemory>
        ensures { IfOk result (λ _. Adds self.entry items.old.items items.new.items (find (env_view self.entry) (here_view here) (expr_of call.now)).items) }
    {
        find(self, here, call, items)?;
        Ok(())
    }

    /// The routine, the loop or its turn is left.
    #[inline(never)]
    pub fn leave(self, items: &mut Vec<Item>, way: Way) -> Result<(), NoMemory>
        ensures { IfOk result (λ _. Adds self.entry items.old.items items.new.items (only (leave (way_view way)))) }
    {
        self.item(items, Item::Leave(way))
    }

    /// The routine is left with a result.
    #[inline(never)]
    pub fn exit_with(
        self,
        items: &mut Vec<Item>,
        here: Here,
        value: &CoreExpr,
    ) -> Result<(), NoMemory>
        ensures { IfOk result (λ _. Adds self.entry items.old.items items.new.items (work_of (env_view self.entry) (here_view here) (exit_with (expr_of value.now)))) }
    {
        self.assign_result(items, here, value)?;
        self.item(items, Item::Leave(Way::Exit))
    }

    #[inline(never)]
    pub fn halt(self, items: &mut Vec<Item>, here: Here, status: &CoreExpr) -> Result<(), NoMemory>
        ensures { IfOk result (λ _. Adds self.entry items.old.items items.new.items ((make (env_view self.entry) (here_view here) (expr_of status.now)).items & only (halt (here_view here).temp))) }
    {
        make(self, here, status, items)?;
        let status = here.first();
        self.item(items, Item::Halt { status })
    }

    /// Free of an instance, or a call of its destructor.
    fn free(
        self,
        items: &mut Vec<Item>,
        here: Here,
        object: &CoreExpr,
        takes_nil: bool,
    ) -> Result<(), NoMemory>
        ensures { IfOk result (λ _. Adds self.entry items.old.items items.new.items (let f = find (env_view self.entry) (here_view here) (expr_of object.now) in f.items & only (free takes_nil (path_of (typing.type_of (expr_of object.now)) (here_view here) f.now)))) }
    {
        let Found { now, .. } = find(self, here, object, items)?;
        let at = path_of(self.alloc, type_of(object), here, now);
        self.item(items, Item::Free { takes_nil, at })
    }

    /// A call of a built-in procedure.
    #[inline(never)]
    pub fn built_in(
        self,
        items: &mut Vec<Item>,
        here: Here,
        action: &CoreAction,
    ) -> Result<(), NoMemory>
        ensures { IfOk result (λ _. Adds self.entry items.old.items items.new.items (done_built_in (env_view self.entry) (here_view here) (built_in_of action.now))) }
    {
        match action {
            CoreAction::Write {
                items: written,
                ends_line,
            } => self.write_items(items, here, written, *ends_line),
            CoreAction::Count {
                direction,
                target,
                amount,
                checked,
            } => self.count(items, here, *direction, target, amount, *checked),
            CoreAction::Include { set, element } => self.change_set(
                items,
                here,
                Operator::Add,
                set,
                element,
            ),
            CoreAction::Exclude { set, element } => self.change_set(
                items,
                here,
                Operator::Subtract,
                set,
                element,
            ),
            CoreAction::Free { object, .. } => self.free(items, here, object, true),
            CoreAction::Destroy(object) => self.free(items, here, object, false),
            CoreAction::Read { .. } => Ok(()),
            CoreAction::SetLength { .. } => Ok(()),
            CoreAction::Val { .. } => Ok(()),
            CoreAction::Str { .. } => Ok(()),
        }
    }

    /// The place of what a handler declares.
    pub fn clause_variable(self, variable: Option<VariableId>) -> Option<Root>
        ensures { variable_view result ≡ clause_variable (env_view self.entry) variable }
    {
        match variable {
            None => None,
            Some(id) => Some(root_of(self.core, self.routine, id)),
        }
    }
}

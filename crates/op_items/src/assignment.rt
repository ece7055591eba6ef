//! Assignments, Inc, Dec, Include and Exclude ("Assignments" of the Free Pascal Reference Guide; reference of the unit System).
#![tactic(auto, using(crate::proofs::Behind::behind_behind, crate::proofs::Behind::behind_none))]

ghost use Rattle.std.specs.Prelude.{◌≡◌, ◌+◌, [], ◌∷◌, IfOk};
ghost use Rattle.op_core.specs.Expression.{expr_of};
ghost use Rattle.op_core.specs.Statement.{target_of};
ghost use Rattle.op_core.specs.Typing as typing;
ghost use Rattle.op_core.specs.declared.types.IntegerKind.TheVariants.{Signed32};
ghost use Rattle.op_items.specs.Adding.{Adds, env_view, found_view};
ghost use Rattle.op_items.specs.Setting.{here_view};
ghost use Rattle.op_meaning.specs.Actions.{arithmetic, combine, load, single, store};
ghost use Rattle.op_meaning.specs.Expressions.{at_path, find, found, make, ready};
ghost use Rattle.op_meaning.specs.Items.{act, acts, none, only};
ghost use Rattle.op_meaning.specs.Shapes.{result_of_routine, shape_of};
ghost use Rattle.op_meaning.specs.Statements.{assigned, changed_set, counted_at, result_path, store_variable, stored_by, sum_or_difference};
ghost use Rattle.op_mir.specs.View.{view_path};

use crate::expression::{find, make};
use crate::found::{Found, path_of};
use crate::item::Item;
use crate::path::{copy_of, path_to, whole_path};
use crate::setting::{Here, Setting, next, sum};
use crate::shape::{Shape, kind_of, shape_of, type_of, type_of_variable};
use op_base::NoMemory;
use op_core::{Core, CoreExpr, CoreTarget, IntegerKind, Owner, RoutineId, TypeId, VariableId};
use op_mir::{Action, Computation, LocalId, Path, Root, TemporaryId};
use op_tree::{Direction, Operator};

pub fn sum_or_difference(direction: Direction) -> Operator
    ensures { result ≡ sum_or_difference direction }
{
    match direction {
        Direction::To => Operator::Add,
        Direction::Downto => Operator::Subtract,
    }
}

/// The variable of a routine that has its result.
fn result_of_routine(core: &Core, routine: RoutineId) -> Result<LocalId, NoMemory>
    ensures { IfOk result (λ v. v.0 ≡ result_of_routine core.now routine.0) }
{
    match core.routines.as_slice().get(routine.0 as usize) {
        None => Ok(LocalId(0)),
        Some(row) => {
            let objects = match row.owner {
                Owner::Unit => 0,
                Owner::Class(_) => 1,
                Owner::Interface(_) => 1,
            };
            Ok(LocalId(sum(objects, row.parameters.count)?))
        }
    }
}

impl Setting<'_> {
    /// A value of a type, which was made, goes into a place of another one.
    pub fn store(
        self,
        items: &mut Vec<Item>,
        into: TypeId,
        of: TypeId,
        here: Here,
        target: Found,
    ) -> Result<(), NoMemory>
        ensures { IfOk result (λ _. Adds self.entry items.old.items items.new.items (stored_by (shape_of self.entry.core.now into) of (here_view here) (found none ready) (found_view target))) }
    {
        let to = path_of(self.alloc, of, here, target.now);
        match shape_of(self.core, into) {
            Shape::Single(kind) => {
                let from = here.first();
                self.act(items, Action::Store { to, kind, from })
            }
            Shape::Composite => {
                let from = whole_path(self.alloc, of, here);
                self.act(items, Action::Copy { of, to, from })
            }
            Shape::Chars => Ok(()),
            Shape::Elements => Ok(()),
            Shape::Instance { .. } => Ok(()),
        }
    }

    /// The right side is evaluated first, then the indices of the place.
    #[inline(never)]
    pub fn assign(
        self,
        items: &mut Vec<Item>,
        here: Here,
        target: &CoreExpr,
        value: &CoreExpr,
    ) -> Result<(), NoMemory>
        ensures { IfOk result (λ _. Adds self.entry items.old.items items.new.items (assigned (env_view self.entry) (here_view here) (expr_of target.now) (expr_of value.now))) }
    {
        make(self, here, value, items)?;
        let place = find(self, here.past_whole()?.past(1)?, target, items)?;
        self.store(items, type_of(target), type_of(value), here, place)
    }

    /// The place of the routine's result.
    fn result(self) -> Result<Path, NoMemory>
        ensures { IfOk result (λ p. view_path p ≡ result_path (env_view self.entry)) }
    {
        let variable = result_of_routine(self.core, self.routine)?;
        Ok(path_to(self.alloc, Root::Local { variable }))
    }

    /// The routine's result is this value.
    pub fn assign_result(
        self,
        items: &mut Vec<Item>,
        here: Here,
        value: &CoreExpr,
    ) -> Result<(), NoMemory>
        ensures { IfOk result (λ _. Adds self.entry items.old.items items.new.items (stored_by (shape_of self.entry.core.now (typing.type_of (expr_of value.now))) (typing.type_of (expr_of value.now)) (here_view here) (make (env_view self.entry) (here_view here) (expr_of value.now)) (found none (at_path (result_path (env_view self.entry)))))) }
    {
        make(self, here, value, items)?;
        let place = Found::at(self.result()?);
        let of = type_of(value);
        self.store(items, of, of, here, place)
    }

    pub fn store_variable(
        self,
        items: &mut Vec<Item>,
        variable: VariableId,
        from: TemporaryId,
    ) -> Result<(), NoMemory>
        ensures { IfOk result (λ _. Adds self.entry items.old.items items.new.items (only (act (store_variable (env_view self.entry) variable from.0)))) }
    {
        let to = self.variable(variable);
        let kind = kind_of(self.core, type_of_variable(self.core, variable));
        self.act(items, Action::Store { to, kind, from })
    }

    /// Inc and Dec: the indices, then what is there, then by how much, then the store.
    pub fn count(
        self,
        items: &mut Vec<Item>,
        here: Here,
        direction: Direction,
        target: &CoreTarget,
        amount: &CoreExpr,
        checked: bool,
    ) -> Result<(), NoMemory>
        ensures { IfOk result (λ _. Adds self.entry items.old.items items.new.items (counted_at (env_view self.entry) (here_view here) direction (target_of target.now) (expr_of amount.now) checked (find (env_view self.entry) (here_view here) (expr_of target.now.place)))) }
    {
        let of = type_of(&target.place);
        let kind = kind_of(self.core, of);
        let Found { now, used } = find(self, here, &target.place, items)?;
        let place = path_of(self.alloc, of, here, now);
        let to = here.behind(used)?;
        let from = copy_of(self.alloc, &place)?;
        self.act(items, Action::Load { to, kind, from })?;
        make(self, here.past_whole()?.past(sum(used, 1)?)?, amount, items)?;
        self.add(items, direction, checked, to)?;
        self.convert(items, target.store, of, to)?;
        self.act(
            items,
            Action::Store {
                to: place,
                kind,
                from: to,
            },
        )
    }

    /// The next temporary is added, or taken away.
    fn add(
        self,
        items: &mut Vec<Item>,
        direction: Direction,
        checked: bool,
        to: TemporaryId,
    ) -> Result<(), NoMemory>
        ensures { IfOk result (λ _. Adds self.entry items.old.items items.new.items (only (act (arithmetic (sum_or_difference direction) checked to.0 to.0 (to.0 + 1))))) }
    {
        let right = next(to)?;
        self.compute(
            items,
            Computation::Arithmetic {
                operator: sum_or_difference(direction),
                checked,
                to,
                left: to,
                right,
            },
        )
    }

    /// Include and Exclude: the place of the set is found once.
    pub fn change_set(
        self,
        items: &mut Vec<Item>,
        here: Here,
        operator: Operator,
        set: &CoreExpr,
        element: &CoreExpr,
    ) -> Result<(), NoMemory>
        ensures { IfOk result (λ _. Adds self.entry items.old.items items.new.items (changed_set (env_view self.entry) (here_view here) operator (typing.type_of (expr_of set.now)) (expr_of element.now) (find (env_view self.entry) (here_view here) (expr_of set.now)))) }
    {
        let Found { now, used } = find(self, here, set, items)?;
        let place = path_of(self.alloc, type_of(set), here, now);
        let to = here.behind(used)?;
        make(
            self,
            here.past_whole()?.past(sum(used, 1)?)?,
            element,
            items,
        )?;
        self.join(items, operator, place, to)
    }

    /// The element in the next temporary is joined to the set at a place, or taken out of it.
    fn join(
        self,
        items: &mut Vec<Item>,
        operator: Operator,
        place: Path,
        to: TemporaryId,
    ) -> Result<(), NoMemory>
        ensures { IfOk result (λ _. Adds self.entry items.old.items items.new.items (acts (single (to.0 + 1) (to.0 + 1) ∷ load to.0 Signed32 (view_path place) ∷ combine operator to.0 to.0 (to.0 + 1) ∷ store (view_path place) Signed32 to.0 ∷ []))) }
    {
        let kind = IntegerKind::Signed32;
        let right = next(to)?;
        let from = copy_of(self.alloc, &place)?;
        self.compute(
            items,
            Computation::Single {
                to: right,
                from: right,
            },
        )?;
        self.act(items, Action::Load { to, kind, from })?;
        self.compute(
            items,
            Computation::Combine {
                operator,
                to,
                left: to,
                right,
            },
        )?;
        self.act(
            items,
            Action::Store {
                to: place,
                kind,
                from: to,
            },
        )
    }
}

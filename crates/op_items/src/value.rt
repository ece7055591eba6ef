//! Values: loaded from their places, and parts of them ("Record types" and "Arrays" of the Free Pascal Reference Guide).
ghost use Rattle.std.specs.Prelude.{◌≡◌, ◌+◌, IfOk};
ghost use Rattle.op_items.specs.Adding.{Adds, Gives, env_view, found_view, now_view};
ghost use Rattle.op_items.specs.Setting.{here_view};
ghost use Rattle.op_meaning.specs.Expressions.{element_step, loaded, looked_at, of_constant, own, then_index, then_step};
ghost use Rattle.op_meaning.specs.Actions.{constant};
ghost use Rattle.op_meaning.specs.Items.{act, none, only};
ghost use Rattle.op_meaning.specs.Paths.{field, path_to, root_of};
ghost use Rattle.op_meaning.specs.Shapes.{field_number, shape_of};
ghost use Rattle.op_mir.specs.View.{view_path, view_step};

use crate::found::{Found, Now, path_of};
use crate::item::Item;
use crate::path::{path_to, root_of, whole_path, with_step};
use crate::set::set_of_elements;
use crate::setting::{Here, Setting, sum};
use crate::shape::{Shape, counted_of, field_number, high_in, low_in, shape_of};
use op_base::NoMemory;
use op_core::{Const, FieldId, TypeId, VariableId};
use op_mir::{Action, Path, Step, TemporaryId};

impl Setting<'_> {
    /// A value of its own from a place: a number is loaded, a record or an array copied.
    #[tactic(auto, using(crate::proofs::Behind::behind_none))]
    fn load(self, items: &mut Vec<Item>, of: TypeId, here: Here, from: Path) -> Result<(), NoMemory>
        ensures { IfOk result (λ _. Adds self.entry items.old.items items.new.items (loaded (shape_of self.entry.core.now of) of (here_view here) (view_path from))) }
    {
        match shape_of(self.core, of) {
            Shape::Single(kind) => {
                let to = here.first();
                self.act(items, Action::Load { to, kind, from })
            }
            Shape::Composite => {
                let to = whole_path(self.alloc, of, here);
                self.act(items, Action::Copy { of, to, from })
            }
            Shape::Chars => Ok(()),
            Shape::Elements => Ok(()),
            Shape::Instance { .. } => Ok(()),
        }
    }

    /// A value of its own.
    #[tactic(auto, using(crate::proofs::Behind::behind_none))]
    pub fn own(
        self,
        items: &mut Vec<Item>,
        of: TypeId,
        here: Here,
        found: Found,
    ) -> Result<Found, NoMemory>
        ensures { IfOk result (λ f. Gives self.entry items.old.items items.new.items f (own (env_view self.entry) of (here_view here) (found_view found))) }
    {
        let Found { now, used } = found;
        match now {
            Now::At(path) => {
                self.load(items, of, here, path)?;
                Ok(Found::ready())
            }
            Now::Ready => Ok(Found {
                now: Now::Ready,
                used,
            }),
            Now::Literal(text) => Ok(Found {
                now: Now::Literal(text),
                used,
            }),
        }
    }

    /// A value in a temporary of its own, if it is no literal.
    pub fn make(
        self,
        items: &mut Vec<Item>,
        of: TypeId,
        here: Here,
        found: Found,
    ) -> Result<(), NoMemory>
        ensures { IfOk result (λ _. Adds self.entry items.old.items items.new.items (own (env_view self.entry) of (here_view here) (found_view found)).items) }
    {
        self.own(items, of, here, found)?;
        Ok(())
    }

    /// One step further from what is so far. Its index is in one temporary more, where it has one.
    fn step_to(
        self,
        of: TypeId,
        here: Here,
        step: Step,
        used: u32,
        found: Found,
    ) -> Result<Found, NoMemory>
        ensures { IfOk result (λ f. found_view f ≡ then_step of (here_view here) (view_step step) used (found_view found)) }
    {
        let path = path_of(self.alloc, of, here, found.now);
        let path = with_step(path, step)?;
        Ok(Found {
            now: Now::At(path),
            used: sum(found.used, used)?,
        })
    }

    pub fn field(self, of: TypeId, here: Here, id: FieldId, found: Found) -> Result<Found, NoMemory>
        ensures { IfOk result (λ f. found_view f ≡ then_step of (here_view here) (field of (field_number self.entry.core.now of id)) 0 (found_view found)) }
    {
        let number = field_number(self.core, of, id);
        self.step_to(of, here, Step::Field { of, number }, 0, found)
    }

    /// The element whose index is in the temporary.
    pub fn element_step(self, of: TypeId, index: TemporaryId) -> Result<Step, NoMemory>
        ensures { IfOk result (λ s. view_step s ≡ element_step self.entry.core.now of index.0) }
    {
        let counted = counted_of(self.core, of);
        let low = low_in(self.core, counted)?;
        let high = high_in(self.core, counted)?;
        Ok(Step::Element {
            of,
            low,
            high,
            index,
        })
    }

    /// The element whose index was made behind the temporaries of the indices in front of it.
    fn element(self, of: TypeId, here: Here, found: Found) -> Result<Found, NoMemory>
        ensures { IfOk result (λ f. found_view f ≡ then_step of (here_view here) (element_step self.entry.core.now of ((here_view here).temp + found.used)) 1 (found_view found)) }
    {
        let index = here.behind(found.used)?;
        let step = self.element_step(of, index)?;
        self.step_to(of, here, step, 1, found)
    }

    /// An element, or a Char of a literal. The index was made behind the temporaries of the indices in front of it.
    #[tactic(auto, using(crate::proofs::Behind::behind_none))]
    pub fn indexed(
        self,
        items: &mut Vec<Item>,
        of: TypeId,
        here: Here,
        found: Found,
    ) -> Result<Found, NoMemory>
        ensures { IfOk result (λ f. Gives self.entry items.old.items items.new.items f (then_index self.entry.core.now of (here_view here) (found_view found) none)) }
    {
        let Found { now, used } = found;
        match now {
            Now::Literal(text) => {
                let to = here.first();
                let index = to;
                self.act(items, Action::Pick { to, text, index })?;
                Ok(Found::ready())
            }
            Now::At(path) => {
                let now = Now::At(path);
                self.element(of, here, Found { now, used })
            }
            Now::Ready => {
                let now = Now::Ready;
                self.element(of, here, Found { now, used })
            }
        }
    }

    /// The place is looked at where it is.
    #[tactic(auto, using(crate::proofs::Behind::behind_none))]
    pub fn look(self, items: &mut Vec<Item>, now: Now) -> Result<(), NoMemory>
        ensures { IfOk result (λ _. Adds self.entry items.old.items items.new.items (looked_at (now_view now))) }
    {
        match now {
            Now::At(at) => self.act(items, Action::Look { at }),
            Now::Ready => Ok(()),
            Now::Literal(_) => Ok(()),
        }
    }

    /// The place of a variable.
    pub fn variable(self, variable: VariableId) -> Path
        ensures { view_path result ≡ path_to (root_of self.entry.core.now self.entry.routine.0 variable) }
    {
        path_to(self.alloc, root_of(self.core, self.routine, variable))
    }

    pub fn number(self, items: &mut Vec<Item>, to: TemporaryId, value: i32) -> Result<(), NoMemory>
        ensures { IfOk result (λ _. Adds self.entry items.old.items items.new.items (only (act (constant to.0 value)))) }
    {
        self.act(items, Action::Constant { to, value })
    }

    #[tactic(auto, using(crate::proofs::Behind::behind_none))]
    pub fn constant(
        self,
        items: &mut Vec<Item>,
        here: Here,
        value: &Const,
    ) -> Result<Found, NoMemory>
        ensures { IfOk result (λ f. Gives self.entry items.old.items items.new.items f (of_constant value.now (here_view here).temp)) }
    {
        match value {
            Const::Ordinal(n) => {
                self.number(items, here.first(), *n)?;
                Ok(Found::ready())
            }
            Const::Set(elements) => {
                let set = set_of_elements(elements.as_slice());
                self.number(items, here.first(), set)?;
                Ok(Found::ready())
            }
            Const::Text(text) => {
                let text = text.share()?;
                Ok(Found {
                    now: Now::Literal(text),
                    used: 0,
                })
            }
            Const::Nil => Ok(Found::ready()),
        }
    }
}

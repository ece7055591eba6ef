//! Values: where they are, in temporaries of their own, and steps from them ("Expressions" and "Variables" of the Free Pascal Reference Guide).
ghost use Rattle.std.specs.Prelude.{◌≡◌, ◌∷◌, [], IfOk, map};
ghost use Rattle.op_meaning.specs.Charge.{is_open};
ghost use Rattle.op_core.specs.Sizes.{type_at};
ghost use Rattle.op_semantics.specs.Actions.{constant};
ghost use Rattle.op_semantics.specs.Expressions.{in_place_or_own, loaded, own, own_by, somewhere, then_number, then_step, then_value};
ghost use Rattle.op_semantics.specs.Items.{act, only};
ghost use Rattle.op_semantics.specs.Paths.{path_to, root_of};
ghost use Rattle.op_semantics.specs.Shapes.{composite, shape_of};
ghost use Rattle.op_values.specs.Adding.{Adds, Gives, env_view, found_view, now_view};
ghost use Rattle.op_values.specs.Setting.{here_view};
ghost use Rattle.op_values.specs.View.{view_operand, view_path, view_step};

use crate::action::{Action, Destination, Operand};
use crate::found::{Found, Now, path_of};
use crate::ids::TemporaryId;
use crate::item::Item;
use crate::operand::{one, two};
use crate::path::{Path, Step, held_path, path_to, root_of, whole_path, with_step};
use crate::setting::{Here, Setting, sum};
use crate::shape::{Shape, is_managed, is_open, shape_of};
use op_base::{NoMemory, Sequence};
use op_core::{TypeId, VariableId};
use op_semantics::Primitive;

impl Setting<'_> {
    /// What a primitive gives: a value that has to be ended in a new temporary, and another one that is no number in the free one.
    pub fn give(
        self,
        items: &mut Vec<Item>,
        of: TypeId,
        here: Here,
        primitive: Primitive,
        operands: Sequence<Operand>,
        found: Found,
    ) -> Result<Found, NoMemory>
        ensures { IfOk result (λ f. Gives self.entry items.old.items items.new.items f (then_value self.entry.core.now of (here_view here) primitive (map view_operand operands) (found_view found))) }
    {
        if is_managed(self.core, of) {
            let number = found.held;
            self.primitive(
                items,
                primitive,
                operands,
                Destination::InNew { of, number },
            )?;
            let held = sum(number, 1)?;
            Ok(Found::new(Now::Owned(held_path(self.alloc, of, number)), held))
        } else {
            let to = whole_path(self.alloc, of, here);
            self.primitive(items, primitive, operands, Destination::OverPlace { to })?;
            Ok(Found::new(Now::Owned(whole_path(self.alloc, of, here)), found.held))
        }
    }

    /// What a primitive gives, as a number in the first free temporary.
    pub fn give_number(
        self,
        items: &mut Vec<Item>,
        here: Here,
        primitive: Primitive,
        operands: Sequence<Operand>,
        found: Found,
    ) -> Result<Found, NoMemory>
        ensures { IfOk result (λ f. Gives self.entry items.old.items items.new.items f (then_number (here_view here) primitive (map view_operand operands) (found_view found))) }
    {
        self.primitive(
            items,
            primitive,
            operands,
            Destination::InTemporary(here.first()),
        )?;
        Ok(Found::ready(found.held))
    }

    /// A value of its own from a place, which is no number.
    fn copied(
        self,
        items: &mut Vec<Item>,
        of: TypeId,
        here: Here,
        from: Path,
        found: Found,
    ) -> Result<Found, NoMemory>
        ensures { IfOk result (λ f. Gives self.entry items.old.items items.new.items f (then_value self.entry.core.now of (here_view here) Primitive.Same (view_operand (Operand.Value from) ∷ []) (found_view found))) }
    {
        let operands = one(self.alloc, Operand::Value(from))?;
        self.give(items, of, here, Primitive::Same, operands, found)
    }

    /// A record or an array from a place.
    fn copied_parts(
        self,
        items: &mut Vec<Item>,
        of: TypeId,
        here: Here,
        from: Path,
        found: Found,
    ) -> Result<Found, NoMemory>
        ensures { IfOk result (λ f. Gives self.entry items.old.items items.new.items f (loaded self.entry.core.now composite of (here_view here) (view_path from) (found_view found))) }
    {
        if is_managed(self.core, of) {
            return self.copied(items, of, here, from, found);
        }
        let to = whole_path(self.alloc, of, here);
        self.act(items, Action::Copy { of, to, from })?;
        Ok(Found::ready(found.held))
    }

    /// A value of its own from a place: a number is loaded, a value that has to be ended goes to a new temporary, any other one is copied.
    pub fn load(
        self,
        items: &mut Vec<Item>,
        of: TypeId,
        here: Here,
        from: Path,
        found: Found,
    ) -> Result<Found, NoMemory>
        ensures { IfOk result (λ f. Gives self.entry items.old.items items.new.items f (loaded self.entry.core.now (shape_of self.entry.core.now of) of (here_view here) (view_path from) (found_view found))) }
    {
        match shape_of(self.core, of) {
            Shape::Single(kind) => {
                let to = here.first();
                self.act(items, Action::Load { to, kind, from })?;
                Ok(Found::ready(found.held))
            }
            Shape::Composite => self.copied_parts(items, of, here, from, found),
            Shape::Chars => self.copied(items, of, here, from, found),
            Shape::Elements => self.copied(items, of, here, from, found),
            Shape::Instance { .. } => self.copied(items, of, here, from, found),
        }
    }

    /// A value of its own.
    #[tactic(auto, using(crate::proofs::ItemsBehind::behind_none))]
    pub fn own(
        self,
        items: &mut Vec<Item>,
        of: TypeId,
        here: Here,
        found: Found,
    ) -> Result<Found, NoMemory>
        ensures { IfOk result (λ f. Gives self.entry items.old.items items.new.items f (own (env_view self.entry) of (here_view here) (found_view found))) }
    {
        let Found { now, used, held } = found;
        match now {
            Now::At(path) => self.load(items, of, here, path, Found::ready(held)),
            Now::Char { text, index } => {
                let operands = two(self.alloc, text, Operand::Number(index))?;
                self.give_number(items, here, Primitive::CharAt, operands, Found::ready(held))
            }
            Now::Ready => Ok(Found {
                now: Now::Ready,
                used,
                held,
            }),
            Now::Owned(path) => Ok(Found {
                now: Now::Owned(path),
                used,
                held,
            }),
            Now::Literal(text) => Ok(Found {
                now: Now::Literal(text),
                used,
                held,
            }),
            Now::Nil(of) => Ok(Found {
                now: Now::Nil(of),
                used,
                held,
            }),
        }
    }

    /// Nil that is looked at as a place goes to a temporary.
    #[tactic(auto, using(crate::proofs::ItemsBehind::behind_none))]
    pub fn somewhere(
        self,
        items: &mut Vec<Item>,
        of: TypeId,
        here: Here,
        found: Found,
    ) -> Result<Found, NoMemory>
        ensures { IfOk result (λ f. Gives self.entry items.old.items items.new.items f (somewhere (env_view self.entry) of (here_view here) (found_view found))) }
    {
        let Found { now, used, held } = found;
        match now {
            Now::Nil(nil) => {
                let operands = one(self.alloc, Operand::Nil(nil))?;
                self.give(
                    items,
                    of,
                    here,
                    Primitive::Same,
                    operands,
                    Found::ready(held),
                )
            }
            Now::Ready => Ok(Found {
                now: Now::Ready,
                used,
                held,
            }),
            Now::At(path) => Ok(Found {
                now: Now::At(path),
                used,
                held,
            }),
            Now::Owned(path) => Ok(Found {
                now: Now::Owned(path),
                used,
                held,
            }),
            Now::Literal(text) => Ok(Found {
                now: Now::Literal(text),
                used,
                held,
            }),
            Now::Char { text, index } => Ok(Found {
                now: Now::Char { text, index },
                used,
                held,
            }),
        }
    }

    /// A value of its own, but that the elements of an open array stay where they are.
    #[tactic(auto, using(crate::proofs::ItemsBehind::behind_none))]
    pub fn in_place_or_own(
        self,
        items: &mut Vec<Item>,
        of: TypeId,
        here: Here,
        found: Found,
    ) -> Result<Found, NoMemory>
        ensures { IfOk result (λ f. Gives self.entry items.old.items items.new.items f (in_place_or_own (env_view self.entry) of (here_view here) (found_view found))) }
    {
        if is_open(self.core, of) {
            return Ok(found);
        }
        self.own(items, of, here, found)
    }

    /// One step further from what is so far. Its index is in one temporary more, where it has one.
    pub fn step_to(
        self,
        of: TypeId,
        here: Here,
        step: Step,
        used: u32,
        found: Found,
    ) -> Result<Found, NoMemory>
        ensures { IfOk result (λ f. found_view f ≡ then_step of (here_view here) (view_step step) used (found_view found)) }
    {
        let path = path_of(self.alloc, of, here, found.now);
        let path = with_step(path, step)?;
        Ok(Found {
            now: Now::At(path),
            used: sum(found.used, used)?,
            held: found.held,
        })
    }

    /// The place of a variable.
    pub fn variable(self, variable: VariableId) -> Path
        ensures { view_path result ≡ path_to (root_of self.entry.core.now self.entry.routine.0 variable) }
    {
        path_to(self.alloc, root_of(self.core, self.routine, variable))
    }

    pub fn number(self, items: &mut Vec<Item>, to: TemporaryId, value: i32) -> Result<(), NoMemory>
        ensures { IfOk result (λ _. Adds self.entry items.old.items items.new.items (only (act (constant to.0 value)))) }
    {
        self.act(items, Action::Constant { to, value })
    }
}

//! Calls: what parameters are given, and where results go ("Value parameters" and "Function results" of the Free Pascal Reference
//! Guide).
ghost use Rattle.std.specs.Prelude.{◌≡◌, IfOk, map, slice_get};
ghost use Rattle.op_items.specs.Adding.{Adds};
ghost use Rattle.op_items.specs.Setting.{here_view};
ghost use Rattle.op_meaning.specs.Expressions.{given_by, receiver_of, result_of, whole_path};
ghost use Rattle.op_meaning.specs.Items.{construct, enter, only, to_place};
ghost use Rattle.op_meaning.specs.Shapes.{shape_of};
ghost use Rattle.op_mir.specs.View.{view_given, view_receiver};

use crate::item::Item;
use crate::path::whole_path;
use crate::setting::{Here, Setting};
use crate::shape::{Shape, shape_of};
use op_base::{NoMemory, Sequence};
use op_core::{ClassId, Core, RoutineId, TypeId};
use op_mir::{Given, Receiver};

/// The type of what a routine gives.
fn result_of(core: &Core, routine: RoutineId) -> Option<TypeId>
    ensures { result ≡ result_of (slice_get core.now.routines routine.0) }
{
    match core.routines.as_slice().get(routine.0 as usize) {
        None => None,
        Some(row) => row.result,
    }
}

impl Setting<'_> {
    /// What a value parameter of the type is given.
    pub fn given(self, of: TypeId, here: Here) -> Given
        ensures { view_given result ≡ given_by (shape_of self.entry.core.now of) of (here_view here) }
    {
        match shape_of(self.core, of) {
            Shape::Single(kind) => Given::ByValue {
                kind,
                temporary: here.first(),
            },
            _ => Given::ByCopy {
                of,
                path: whole_path(self.alloc, of, here),
            },
        }
    }

    fn receiver(self, of: Option<TypeId>, here: Here) -> Receiver
        ensures { view_receiver result ≡ receiver_of self.entry.core.now of (here_view here) }
    {
        let Some(of) = of else {
            return Receiver::Nowhere;
        };
        match shape_of(self.core, of) {
            Shape::Single(_) => Receiver::Temporary {
                temporary: here.first(),
            },
            _ => Receiver::Place {
                of,
                to: whole_path(self.alloc, of, here),
            },
        }
    }

    /// A call of a routine.
    pub fn enter(
        self,
        items: &mut Vec<Item>,
        here: Here,
        routine: RoutineId,
        given: Vec<Given>,
    ) -> Result<(), NoMemory>
        ensures { IfOk result (λ _. Adds self.entry items.old.items items.new.items (only (enter routine.0 (map view_given given.items) (receiver_of self.entry.core.now (result_of (slice_get self.entry.core.now.routines routine.0)) (here_view here))))) }
    {
        let receiver = self.receiver(result_of(self.core, routine), here);
        let given = Sequence::from(given);
        self.item(
            items,
            Item::Enter {
                routine,
                given,
                receiver,
            },
        )
    }

    /// A constructor is called on a class, and gives an instance of the type.
    pub fn construct(
        self,
        items: &mut Vec<Item>,
        of: TypeId,
        here: Here,
        class: ClassId,
        routine: RoutineId,
        given: Vec<Given>,
    ) -> Result<(), NoMemory>
        ensures { IfOk result (λ _. Adds self.entry items.old.items items.new.items (only (construct class routine.0 (map view_given given.items) (to_place of (whole_path of (here_view here)))))) }
    {
        let to = whole_path(self.alloc, of, here);
        let receiver = Receiver::Place { of, to };
        let given = Sequence::from(given);
        self.item(
            items,
            Item::Construct {
                class,
                routine,
                given,
                receiver,
            },
        )
    }
}

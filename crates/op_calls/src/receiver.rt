//! Where results go ("Function results" of the Free Pascal Reference Guide).
ghost use Rattle.std.specs.Prelude.{◌≡◌, ◌+◌, IfOk, slice_get};
ghost use Rattle.op_calls.specs.Passing.{placed_view};
ghost use Rattle.op_semantics.specs.Expressions.{held_path, owned, place_by, place_for, result_of};
ghost use Rattle.op_semantics.specs.Items.{to_new};
ghost use Rattle.op_semantics.specs.Shapes.{composite, of_chars};
ghost use Rattle.op_values.specs.Setting.{here_view};

use op_base::NoMemory;
use op_core::{Core, RoutineId, TypeId};
use op_values::{
    Here, Now, Receiver, Setting, Shape, held_path, is_managed, shape_of, sum, whole_path,
};

/// Where a result goes, where it is then, and the first free temporary behind it for a value that has to be ended.
#[derive(Drop)]
pub struct Placed {
    pub receiver: Receiver,
    pub now: Now,
    pub held: u32,
}

/// The type of what a routine gives.
pub fn result_of(core: &Core, routine: RoutineId) -> Option<TypeId>
    ensures { result ≡ result_of (slice_get core.now.routines routine.0) }
{
    match core.routines.as_slice().get(routine.0 as usize) {
        None => None,
        Some(row) => row.result,
    }
}

/// Where a result of the type goes. A procedure gives none.
pub fn place_for(
    setting: Setting,
    of: Option<TypeId>,
    here: Here,
    held: u32,
) -> Result<Placed, NoMemory>
    ensures { IfOk result (λ p. placed_view p ≡ place_for setting.entry.core.now of (here_view here) held) }
{
    let Some(of) = of else {
        return Ok(Placed {
            receiver: Receiver::Nowhere,
            now: Now::Ready,
            held,
        });
    };
    match shape_of(setting.core, of) {
        Shape::Single(_) => Ok(Placed {
            receiver: Receiver::Temporary {
                temporary: here.first(),
            },
            now: Now::Ready,
            held,
        }),
        Shape::Composite => place_parts(setting, of, here, held),
        Shape::Chars => place_name(setting, of, here, held),
        Shape::Elements => place_name(setting, of, here, held),
        Shape::Instance { .. } => place_name(setting, of, here, held),
    }
}

/// Of a record or an array with bounds.
fn place_parts(setting: Setting, of: TypeId, here: Here, held: u32) -> Result<Placed, NoMemory>
    ensures { IfOk result (λ p. placed_view p ≡ place_by setting.entry.core.now composite of (here_view here) held) }
{
    if is_managed(setting.core, of) {
        return place_new(setting, of, held);
    }
    Ok(Placed {
        receiver: Receiver::Place {
            of,
            to: whole_path(setting.alloc, of, here),
        },
        now: Now::Ready,
        held,
    })
}

/// Of a string, a dynamic array or an instance.
fn place_name(setting: Setting, of: TypeId, here: Here, held: u32) -> Result<Placed, NoMemory>
    ensures { IfOk result (λ p. placed_view p ≡ place_by setting.entry.core.now of_chars of (here_view here) held) }
{
    if is_managed(setting.core, of) {
        return place_new(setting, of, held);
    }
    Ok(Placed {
        receiver: Receiver::Place {
            of,
            to: whole_path(setting.alloc, of, here),
        },
        now: Now::Owned(whole_path(setting.alloc, of, here)),
        held,
    })
}

/// In a new temporary, which has to be ended.
fn place_new(setting: Setting, of: TypeId, held: u32) -> Result<Placed, NoMemory>
    ensures { IfOk result (λ p. placed_view p ≡ record { receiver = to_new of held; now = owned (held_path of held); held = held + 1 }) }
{
    let behind = sum(held, 1)?;
    Ok(Placed {
        receiver: Receiver::New { of, number: held },
        now: Now::Owned(held_path(setting.alloc, of, held)),
        held: behind,
    })
}

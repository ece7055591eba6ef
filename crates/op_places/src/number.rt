//! Numbers between registers and places.
ghost use Rattle.op_places.specs.Moves.{held, load_code, load_op, store_code, store_op};
ghost use Rattle.op_meaning.specs.Statements.{kind_of};
ghost use Rattle.std.specs.Prelude.{◌≡◌, ◌++◌, IfOk, OnOk};

use crate::frame::Frame;
use crate::homes::{Home, home_at};
use crate::place::push_place;
use crate::push::{push_load, push_store};
use op_base::NoMemory;
use op_compute::{low_bits, push};
use op_constants::single_kind;
use op_core::{Core, IntegerKind, TypeId};
use op_low::{Instruction, VirtualRegister};
use op_mir::{Root, Step};
use op_rv::{LoadOp, StoreOp};

/// Eight words behind such a distance are still reached.
pub const NEAR: u32 = 2016;

/// Of which a store of the type keeps the low bits.
pub fn kind_of(core: &Core, of: TypeId) -> IntegerKind
    ensures { result ≡ kind_of core.now of }
{
    match single_kind(core, of) {
        None => IntegerKind::Signed32,
        Some(kind) => kind,
    }
}

fn load_op(kind: IntegerKind) -> LoadOp
    ensures { result ≡ load_op kind }
{
    match kind {
        IntegerKind::Signed8 => LoadOp::Lb,
        IntegerKind::Unsigned8 => LoadOp::Lbu,
        IntegerKind::Signed16 => LoadOp::Lh,
        IntegerKind::Unsigned16 => LoadOp::Lhu,
        IntegerKind::Signed32 => LoadOp::Lw,
    }
}

fn store_op(kind: IntegerKind) -> StoreOp
    ensures { result ≡ store_op kind }
{
    match kind {
        IntegerKind::Signed8 => StoreOp::Sb,
        IntegerKind::Unsigned8 => StoreOp::Sb,
        IntegerKind::Signed16 => StoreOp::Sh,
        IntegerKind::Unsigned16 => StoreOp::Sh,
        IntegerKind::Signed32 => StoreOp::Sw,
    }
}

/// The register that has all of a variable.
pub fn held(core: &Core, frame: &Frame, root: Root, steps: &[Step]) -> Option<VirtualRegister>
    ensures { result ≡ held core.now frame.now root steps.now }
{
    let Root::Local { variable } = root else {
        return None;
    };
    if !steps.is_empty() {
        return None;
    }
    match home_at(frame.homes.as_slice(), variable) {
        Home::Held { register } => Some(register),
        _ => None,
    }
}

/// A register becomes the number at a place.
pub fn push_load_from(
    code: &mut Vec<Instruction>,
    core: &Core,
    frame: &Frame,
    kind: IntegerKind,
    to: VirtualRegister,
    root: Root,
    steps: &[Step],
    free: VirtualRegister,
) -> Result<(), NoMemory>
    ensures { OnOk result (code.new.items ≡ code.old.items ++ load_code core.now frame.now kind to root steps.now free) }
{
    if let Some(from) = held(core, frame, root, steps) {
        return push(code, Instruction::Move { to, from });
    }
    let spot = push_place(code, core, frame, NEAR, root, steps, free)?;
    push_load(code, load_op(kind), to, spot.base, spot.offset)
}

/// The number at a place becomes the low bits of a register.
pub fn push_store_to(
    code: &mut Vec<Instruction>,
    core: &Core,
    frame: &Frame,
    kind: IntegerKind,
    from: VirtualRegister,
    root: Root,
    steps: &[Step],
    free: VirtualRegister,
) -> Result<(), NoMemory>
    ensures { OnOk result (code.new.items ≡ code.old.items ++ store_code core.now frame.now kind from root steps.now free) }
{
    if let Some(to) = held(core, frame, root, steps) {
        return low_bits(code, to, kind, from);
    }
    let spot = push_place(code, core, frame, NEAR, root, steps, free)?;
    push_store(code, store_op(kind), from, spot.base, spot.offset)
}

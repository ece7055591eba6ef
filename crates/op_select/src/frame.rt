//! The frame of a routine: the homes of its virtual registers, its beginning and its end.
ghost use Rattle.std.specs.Prelude.{◌≡◌, ◌≤◌, ◌+◌, ◌-◌, ◌*◌, ◌<◌, ◌∷◌, ◌++◌, [], IfOk, OnOk, min, pos, ◌-ℤ◌};
ghost use Rattle.op_low.specs.Valid.{most_registers};
ghost use Rattle.op_select.specs.Frames.{bring, brought, cleared, cleared_locals, cleared_registers, epilogue, fetch, frame_of, fresh_words, given_back, head_of, home, home_register, homes_of, keep, load_home, lowered, most_homes, operand, put, put_away, register_of, saved_at, store_home, taken, taken_from, taken_one};

use crate::registers::{A0, A1, RA, S0, S2, SP, X0};
use crate::sequence::{down, push, push_add_immediate, push_load, push_store, push_sum};
use op_low::{Routine, VirtualRegister};
use op_rv::{BranchOp, Instr, Item, LoadOp, StoreOp};
use std::alloc::AllocError;

/// How many virtual registers live in registers of the machine.
const MOST_HOMES: u8 = 14;

/// Where a virtual register is kept.
#[derive(Clone, Copy)]
pub enum Home {
    /// A register of the machine.
    Register { number: u8 },
    /// A word of the frame, so many bytes above sp.
    Frame { offset: u32 },
}

/// The bytes of a routine's frame: a word for the return address and one for each register.
#[tactic(auto, unfolding(crate::specs::Frames::frame_of))]
fn frame_size(routine: &Routine) -> u32
    requires { routine.now.registers ≤ most_registers }
    ensures { result ≡ frame_of routine.now }
{
    4 * (routine.registers + 1)
}

/// The register of the machine that is the home of a virtual register.
fn home_register(k: u8) -> u8
    requires { k < most_homes }
    ensures { result ≡ home_register k }
{
    S2 + k
}

#[tactic(auto, unfolding(crate::specs::Frames::home))]
fn home_of(routine: &Routine, register: VirtualRegister) -> Home
    requires { routine.now.registers ≤ most_registers }
    ensures { result ≡ home routine.now register }
{
    if register.0 < MOST_HOMES as u32 {
        return Home::Register {
            number: home_register(register.0 as u8),
        };
    }
    let above = routine
        .registers
        .saturating_sub(1)
        .saturating_sub(register.0);
    Home::Frame { offset: 4 * above }
}

#[tactic(auto, unfolding(crate::specs::Frames::load_home))]
fn push_load_home(items: &mut Vec<Item>, to: u8, home: Home) -> Result<(), AllocError>
    ensures { OnOk result (items.new.items ≡ items.old.items ++ load_home to home) }
{
    match home {
        Home::Register { number } => push_add_immediate(items, to, number, 0),
        Home::Frame { offset } => push_load(items, to, SP, to, offset),
    }
}

#[tactic(auto, unfolding(crate::specs::Frames::store_home))]
fn push_store_home(items: &mut Vec<Item>, value: u8, home: Home) -> Result<(), AllocError>
    ensures { OnOk result (items.new.items ≡ items.old.items ++ store_home value home) }
{
    match home {
        Home::Register { number } => push_add_immediate(items, number, value, 0),
        Home::Frame { offset } => push_store(items, value, SP, RA, offset),
    }
}

/// A register of the machine becomes what a virtual register has.
#[tactic(auto, unfolding(crate::specs::Frames::fetch))]
pub fn push_fetch(
    items: &mut Vec<Item>,
    routine: &Routine,
    to: u8,
    register: VirtualRegister,
) -> Result<(), AllocError>
    requires { routine.now.registers ≤ most_registers }
    ensures { OnOk result (items.new.items ≡ items.old.items ++ fetch routine.now to register) }
{
    push_load_home(items, to, home_of(routine, register))
}

/// A virtual register becomes what a register of the machine has.
#[tactic(auto, unfolding(crate::specs::Frames::keep))]
pub fn push_keep(
    items: &mut Vec<Item>,
    routine: &Routine,
    register: VirtualRegister,
    value: u8,
) -> Result<(), AllocError>
    requires { routine.now.registers ≤ most_registers }
    ensures { OnOk result (items.new.items ≡ items.old.items ++ keep routine.now register value) }
{
    push_store_home(items, value, home_of(routine, register))
}

/// The register of the machine that an instruction reads or writes: the home of a virtual register, or a scratch register.
#[tactic(auto, unfolding(crate::specs::Frames::operand, crate::specs::Frames::register_of))]
pub fn operand(routine: &Routine, scratch: u8, register: VirtualRegister) -> u8
    requires { routine.now.registers ≤ most_registers }
    ensures { result ≡ operand routine.now scratch register }
{
    match home_of(routine, register) {
        Home::Register { number } => number,
        Home::Frame { .. } => scratch,
    }
}

/// Brings a virtual register to where an instruction reads it.
#[tactic(auto, unfolding(crate::specs::Frames::bring, crate::specs::Frames::brought))]
pub fn push_bring(
    items: &mut Vec<Item>,
    routine: &Routine,
    scratch: u8,
    register: VirtualRegister,
) -> Result<(), AllocError>
    requires { routine.now.registers ≤ most_registers }
    ensures { OnOk result (items.new.items ≡ items.old.items ++ bring routine.now scratch register) }
{
    match home_of(routine, register) {
        Home::Register { .. } => Ok(()),
        Home::Frame { offset } => push_load(items, scratch, SP, scratch, offset),
    }
}

/// Puts a result home that an instruction has written, if it is not there yet.
#[tactic(auto, unfolding(crate::specs::Frames::put, crate::specs::Frames::put_away))]
pub fn push_put(
    items: &mut Vec<Item>,
    routine: &Routine,
    register: VirtualRegister,
) -> Result<(), AllocError>
    requires { routine.now.registers ≤ most_registers }
    ensures { OnOk result (items.new.items ≡ items.old.items ++ put routine.now register) }
{
    match home_of(routine, register) {
        Home::Register { .. } => Ok(()),
        Home::Frame { offset } => push_store(items, A0, SP, RA, offset),
    }
}

/// How many homes a routine uses.
fn home_count(routine: &Routine) -> u8
    ensures few { result ≤ most_homes }
    ensures count { result ≡ homes_of routine.now }
{
    if routine.registers < MOST_HOMES as u32 {
        routine.registers as u8
    } else {
        MOST_HOMES
    }
}

/// Where the caller's home is saved, from its sp on.
fn saved_at(k: u8) -> i32
    requires { k < most_homes }
    ensures { result ≡ saved_at k }
{
    -(4 * k as i32 + 8)
}

/// Saves a home, which becomes what another register has.
fn push_taken_from(items: &mut Vec<Item>, k: u8, source: u8) -> Result<(), AllocError>
    requires { k < most_homes }
    ensures { OnOk result (items.new.items ≡ items.old.items ++ taken_from k source) }
{
    let save = Instr::Store {
        op: StoreOp::Sw,
        rs1: SP,
        rs2: home_register(k),
        offset: saved_at(k),
    };
    push(items, save)?;
    push_add_immediate(items, home_register(k), source, 0)
}

/// Loads the word in which a home is saved.
fn push_saved(items: &mut Vec<Item>, to: u8, k: u8) -> Result<(), AllocError>
    requires { k < most_homes }
    ensures { OnOk result (items.new.items ≡ items.old.items ++ Item.Plain (Instr.Load LoadOp.Lw to 2 (saved_at k)) ∷ []) }
{
    let load = Instr::Load {
        op: LoadOp::Lw,
        rd: to,
        rs1: SP,
        offset: saved_at(k),
    };
    push(items, load)
}

/// Saves a home, and gives the virtual register that lives there its first value.
#[tactic(auto, unfolding(crate::specs::Frames::taken_one))]
fn push_taken_one(items: &mut Vec<Item>, routine: &Routine, k: u8) -> Result<(), AllocError>
    requires { k < most_homes }
    ensures { OnOk result (items.new.items ≡ items.old.items ++ taken_one routine.now k) }
{
    if routine.parameters <= k as u32 {
        return push_taken_from(items, k, X0);
    }
    if k < 8 {
        return push_taken_from(items, k, A0 + k);
    }
    push_saved(items, A0, k)?;
    push_taken_from(items, k, A0)
}

/// Takes the homes from the caller.
#[tactic(auto, unfolding(crate::specs::Frames::taken))]
fn push_taken(items: &mut Vec<Item>, routine: &Routine, count: u8) -> Result<(), AllocError>
    requires { count ≤ most_homes }
    ensures { OnOk result (items.new.items ≡ items.old.items ++ taken routine.now count) }
{
    for k in 0..count {
        push_taken_one(items, routine, k)?;
    }
    Ok(())
}

/// Gives them back.
#[tactic(auto, unfolding(crate::specs::Frames::given_back))]
fn push_given_back(items: &mut Vec<Item>, count: u8) -> Result<(), AllocError>
    requires { count ≤ most_homes }
    ensures { OnOk result (items.new.items ≡ items.old.items ++ given_back count) }
{
    for k in 0..count {
        push_saved(items, home_register(k), k)?;
    }
    Ok(())
}

/// Puts zeros from the address in one register up to the one in another, which is not the same.
fn push_cleared(items: &mut Vec<Item>, from: u8, until: u8) -> Result<(), AllocError>
    ensures { OnOk result (items.new.items ≡ items.old.items ++ cleared from until) }
{
    let zero = Instr::Store {
        op: StoreOp::Sw,
        rs1: from,
        rs2: X0,
        offset: 0,
    };
    let again = Instr::Branch {
        op: BranchOp::Bne,
        rs1: from,
        rs2: until,
        offset: -8,
    };
    push(items, zero)?;
    push_add_immediate(items, from, from, 4)?;
    push(items, again)
}

/// How many virtual registers in the frame are no parameters.
fn fresh_words(routine: &Routine) -> u32
    ensures { result ≡ fresh_words routine.now }
{
    if routine.parameters < MOST_HOMES as u32 {
        return routine.registers.saturating_sub(MOST_HOMES as u32);
    }
    routine.registers.saturating_sub(routine.parameters)
}

/// Puts zeros in the words of these.
#[tactic(auto, unfolding(crate::specs::Frames::cleared_registers))]
fn push_cleared_registers(items: &mut Vec<Item>, routine: &Routine) -> Result<(), AllocError>
    requires { routine.now.registers ≤ most_registers }
    ensures { OnOk result (items.new.items ≡ items.old.items ++ cleared_registers routine.now) }
{
    let others = fresh_words(routine);
    if others == 0 {
        return Ok(());
    }
    push_add_immediate(items, A0, SP, 0)?;
    push_sum(items, A1, SP, A1, 4 * others)?;
    push_cleared(items, A0, A1)
}

/// Puts zeros in the locals, above which the limit then lies.
#[tactic(auto, unfolding(crate::specs::Frames::cleared_locals))]
fn push_cleared_locals(items: &mut Vec<Item>, routine: &Routine) -> Result<(), AllocError>
    ensures { OnOk result (items.new.items ≡ items.old.items ++ cleared_locals routine.now) }
{
    if routine.locals == 0 {
        return Ok(());
    }
    push_add_immediate(items, A0, S0, 0)?;
    push_sum(items, S0, S0, A1, routine.locals)?;
    push_cleared(items, A0, S0)
}

/// The beginning of a routine.
#[tactic(auto, unfolding(crate::specs::Frames::head_of))]
pub fn push_head(items: &mut Vec<Item>, routine: &Routine) -> Result<(), AllocError>
    requires { routine.now.registers ≤ most_registers }
    ensures { OnOk result (items.new.items ≡ items.old.items ++ head_of routine.now) }
{
    let save = Instr::Store {
        op: StoreOp::Sw,
        rs1: SP,
        rs2: RA,
        offset: -4,
    };
    push(items, save)?;
    push_taken(items, routine, home_count(routine))?;
    push_sum(items, SP, SP, RA, down(frame_size(routine)))?;
    push_cleared_registers(items, routine)?;
    push_cleared_locals(items, routine)
}

#[tactic(auto, unfolding(crate::specs::Frames::lowered))]
fn push_lowered(items: &mut Vec<Item>, routine: &Routine) -> Result<(), AllocError>
    ensures { OnOk result (items.new.items ≡ items.old.items ++ lowered routine.now) }
{
    if routine.locals == 0 {
        return Ok(());
    }
    push_sum(items, S0, S0, RA, down(routine.locals))
}

/// The end of a routine, with its value in a0 and in a1 whether it raised.
#[tactic(auto, unfolding(crate::specs::Frames::epilogue))]
pub fn push_epilogue(items: &mut Vec<Item>, routine: &Routine) -> Result<(), AllocError>
    requires { routine.now.registers ≤ most_registers }
    ensures { OnOk result (items.new.items ≡ items.old.items ++ epilogue routine.now) }
{
    let restore = Instr::Load {
        op: LoadOp::Lw,
        rd: RA,
        rs1: SP,
        offset: -4,
    };
    let back = Instr::Jalr {
        rd: X0,
        rs1: RA,
        offset: 0,
    };
    push_lowered(items, routine)?;
    push_sum(items, SP, SP, RA, frame_size(routine))?;
    push_given_back(items, home_count(routine))?;
    push(items, restore)?;
    push(items, back)
}

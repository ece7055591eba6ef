//! The code of actions.
ghost use Rattle.op_compute.specs.Bank.{register_of};
ghost use Rattle.op_expand.specs.Actions.{action_code, begun_by, begun_code, composite_begun, number_begun, parts_begun, pick_code, row_of, zeros_begun};
ghost use Rattle.op_constants.specs.FirstBytes.{first_number};
ghost use Rattle.op_constants.specs.Literals.{first_of_row};
ghost use Rattle.op_constants.specs.Texts.{number_of};
ghost use Rattle.op_meaning.specs.Shapes.{type_of_row};
ghost use Rattle.std.specs.Option.{option_copied};
ghost use Rattle.std.specs.Prelude.{◌≡◌, ◌++◌, OnOk, length};

use op_base::NoMemory;
use op_compute::{
    RuntimeError, compute, constant, push_alu, push_branch, push_const, push_immediate,
};
use op_constants::{Texts, are_zeros, bytes_of_row, first_number, is_composite, size_of};
use op_core::{Core, IntegerKind, TypeId, Variable};
use op_low::Instruction;
use op_mir::{Action, LocalId, Root, TemporaryId};
use op_places::{
    Frame, NEAR, kind_of, push_address, push_call, push_copy, push_load, push_load_from,
    push_place, push_store_to, push_taken, round,
};
use op_primitives::{length, number_in, push_primitive};
use op_rt_text::CLEAR;
use op_rv::{AluOp, BranchOp, ImmOp, LiteralId, LoadOp, Symbol};
use std::alloc::Global;

/// What an action does, where these are the literals.
pub fn push_action(
    alloc: Global,
    code: &mut Vec<Instruction>,
    core: &Core,
    frame: &Frame,
    literals: &Texts,
    action: &Action,
) -> Result<(), NoMemory>
    ensures { OnOk result (code.new.items ≡ code.old.items ++ action_code core.now frame.now literals.now action.now) }
{
    let bank = frame.bank;
    match action {
        Action::Constant { to, value } => constant(code, bank, *to, *value),
        Action::Load { to, kind, from } => {
            let to = bank.temporary(*to)?;
            let free = bank.scratch(0)?;
            push_load_from(
                code,
                core,
                frame,
                *kind,
                to,
                from.root,
                from.steps.as_slice(),
                free,
            )
        }
        Action::Store { to, kind, from } => {
            let from = bank.temporary(*from)?;
            let free = bank.scratch(0)?;
            push_store_to(
                code,
                core,
                frame,
                *kind,
                from,
                to.root,
                to.steps.as_slice(),
                free,
            )
        }
        Action::Copy { of, to, from } => push_copy(alloc, code, core, frame, *of, to, from),
        Action::Look { at } => {
            let free = bank.scratch(0)?;
            push_place(code, core, frame, NEAR, at.root, at.steps.as_slice(), free)?;
            push_const(code, free, 0)
        }
        Action::BeginWith { variable } => {
            push_begun(alloc, code, core, frame, literals, *variable)
        },
        Action::Pick { to, text, index } => {
            push_pick(code, frame, literals, *to, text.as_slice(), *index)
        }
        Action::Compute(computation) => compute(code, bank, *computation),
        Action::Do {
            primitive,
            operands,
            to,
        } => push_primitive(
            alloc,
            code,
            frame,
            literals,
            *primitive,
            operands.as_slice(),
            to,
        ),
    }
}

/// A variable begins with the first value of its row.
fn push_begun(
    alloc: Global,
    code: &mut Vec<Instruction>,
    core: &Core,
    frame: &Frame,
    literals: &Texts,
    variable: LocalId,
) -> Result<(), NoMemory>
    ensures { OnOk result (code.new.items ≡ code.old.items ++ begun_code core.now frame.now literals.now variable) }
{
    let row = row_of(core, frame, variable);
    push_begun_by(
        alloc,
        code,
        core,
        frame,
        literals,
        variable,
        type_of(row),
        row,
    )
}

fn row_of<'a>(core: &'a Core, frame: &Frame, variable: LocalId) -> Option<&'a Variable>
    ensures { option_copied result ≡ row_of core.now frame.now variable }
{
    let place = frame.first as usize + variable.0 as usize;
    core.variables.as_slice().get(place)
}

#[tactic(auto, unfolding(crate::specs::Actions::begun_by))]
fn push_begun_by(
    alloc: Global,
    code: &mut Vec<Instruction>,
    core: &Core,
    frame: &Frame,
    literals: &Texts,
    variable: LocalId,
    of: TypeId,
    row: Option<&Variable>,
) -> Result<(), NoMemory>
    ensures { OnOk result (code.new.items ≡ code.old.items ++ begun_by core.now frame.now literals.now variable of (option_copied row.entry)) }
{
    if is_composite(core, of) {
        let bytes = bytes_of_row(alloc, core, of, row)?;
        let size = size_of(core, of);
        return push_composite_begun(alloc, code, core, frame, literals, size, &bytes, variable);
    }
    push_number_begun(
        code,
        core,
        frame,
        kind_of(core, of),
        number_of(row),
        variable,
    )
}

fn type_of(row: Option<&Variable>) -> TypeId
    ensures { result ≡ type_of_row (option_copied row.entry) }
{
    match row {
        None => TypeId(0),
        Some(variable) => variable.of,
    }
}

/// What a variable begins with as a number; 0 where it is none.
fn number_of(row: Option<&Variable>) -> i32
    ensures { result ≡ first_number (first_of_row (option_copied row.entry)) }
{
    let Some(variable) = row else {
        return 0;
    };
    match &variable.first_value {
        None => 0,
        Some(initial) => first_number(initial),
    }
}

#[tactic(auto, unfolding(crate::specs::Actions::number_begun))]
fn push_number_begun(
    code: &mut Vec<Instruction>,
    core: &Core,
    frame: &Frame,
    kind: IntegerKind,
    number: i32,
    variable: LocalId,
) -> Result<(), NoMemory>
    ensures { OnOk result (code.new.items ≡ code.old.items ++ number_begun core.now frame.now kind number variable) }
{
    let from = frame.bank.scratch(0)?;
    let free = frame.bank.scratch(1)?;
    push_const(code, from, number.cast_unsigned())?;
    push_store_to(
        code,
        core,
        frame,
        kind,
        from,
        Root::Local { variable },
        &[],
        free,
    )
}

/// Zeros, or the bytes of a literal.
fn push_composite_begun(
    alloc: Global,
    code: &mut Vec<Instruction>,
    core: &Core,
    frame: &Frame,
    literals: &Texts,
    size: u32,
    bytes: &[u8],
    variable: LocalId,
) -> Result<(), NoMemory>
    ensures { OnOk result (code.new.items ≡ code.old.items ++ composite_begun core.now frame.now literals.now size bytes.now variable) }
{
    if are_zeros(bytes) {
        return push_zeros_begun(alloc, code, core, frame, size, variable);
    }
    let id = number_in(literals, bytes)?;
    push_parts_begun(alloc, code, core, frame, size, id, variable)
}

#[tactic(auto, unfolding(crate::specs::Actions::zeros_begun))]
fn push_zeros_begun(
    alloc: Global,
    code: &mut Vec<Instruction>,
    core: &Core,
    frame: &Frame,
    size: u32,
    variable: LocalId,
) -> Result<(), NoMemory>
    ensures { OnOk result (code.new.items ≡ code.old.items ++ zeros_begun core.now frame.now size variable) }
{
    if size == 0 {
        return push_const(code, frame.spare, 0);
    }
    let root = Root::Local { variable };
    let place = push_place(code, core, frame, 0, root, &[], frame.bank.scratch(0)?)?;
    push_const(code, frame.spare, round(size)?)?;
    let arguments = vec![in alloc; place.base, frame.spare]?;
    push_call(code, CLEAR, arguments, frame.spare)
}

/// The bytes of a literal.
fn push_parts_begun(
    alloc: Global,
    code: &mut Vec<Instruction>,
    core: &Core,
    frame: &Frame,
    size: u32,
    id: u32,
    variable: LocalId,
) -> Result<(), NoMemory>
    ensures { OnOk result (code.new.items ≡ code.old.items ++ parts_begun core.now frame.now size id variable) }
{
    push_address(code, frame.spare, Symbol::Literal(LiteralId(id)))?;
    push_taken(alloc, code, core, frame, frame.spare, size, variable)
}

/// A Char of a text, by its index from 1, or error 201.
fn push_pick(
    code: &mut Vec<Instruction>,
    frame: &Frame,
    literals: &Texts,
    to: TemporaryId,
    text: &[u8],
    index: TemporaryId,
) -> Result<(), NoMemory>
    ensures { OnOk result (code.new.items ≡ code.old.items ++ pick_code frame.now (number_of literals.now text.now) (register_of frame.now.bank to) (length text.now) (register_of frame.now.bank index)) }
{
    let bank = frame.bank;
    let place = bank.scratch(0)?;
    let via = bank.scratch(1)?;
    let block = bank.error_block(RuntimeError::RangeCheck)?;
    push_immediate(code, ImmOp::Addi, place, bank.temporary(index)?, -1)?;
    push_const(code, via, length(text.len())?)?;
    push_branch(code, BranchOp::Bgeu, place, via, block)?;
    push_address(
        code,
        via,
        Symbol::Literal(LiteralId(number_in(literals, text)?)),
    )?;
    push_alu(code, AluOp::Add, place, via, place)?;
    push_load(code, LoadOp::Lbu, bank.temporary(to)?, place, 0)
}

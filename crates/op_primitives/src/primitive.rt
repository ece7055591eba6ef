//! The code of primitives.
ghost use Rattle.op_primitives.specs.Primitives.{destination_register, literal_code, literal_passed, operand_code, operand_passed, operands_code, operands_passed, primitive_code, routine_of, scratch_for};
ghost use Rattle.std.specs.Prelude.{◌≡◌, ◌+◌, ◌++◌, IfOk, OnOk};
ghost use Rattle.op_constants.specs.Texts.{number_of};
ghost use Rattle.std.specs.Option.{option_map};

use op_base::NoMemory;
use op_compute::push_const;
use op_constants::Texts;
use op_low::{Instruction, VirtualRegister};
use op_meaning::Primitive;
use op_mir::{Destination, Operand};
use op_places::{Frame, push_address, push_call};
use op_rt_text::{WRITE_BYTES, WRITE_CHAR, WRITE_NUMBER, WRITE_TRUTH};
use op_rv::{LiteralId, RoutineId, Symbol};
use std::alloc::Global;

/// What a run-time routine does, where these are the literals.
pub fn push_primitive(
    alloc: Global,
    code: &mut Vec<Instruction>,
    frame: &Frame,
    literals: &Texts,
    primitive: Primitive,
    operands: &[Operand],
    to: &Destination,
) -> Result<(), NoMemory>
    ensures { OnOk result (code.new.items ≡ code.old.items ++ primitive_code frame.now literals.now primitive operands.now to.now) }
{
    match routine_of(primitive) {
        None => Ok(()),
        Some(routine) => {
            let mut arguments = Vec::new(alloc);
            push_operands(code, frame, literals, 0, operands, &mut arguments)?;
            push_call(code, routine, arguments, register_of(frame, to)?)
        }
    }
}

/// The routine of each that has one.
fn routine_of(primitive: Primitive) -> Option<RoutineId>
    ensures { option_map (λ id. id.0) result ≡ routine_of primitive }
{
    match primitive {
        Primitive::WriteNumber => Some(WRITE_NUMBER),
        Primitive::WriteTruth => Some(WRITE_TRUTH),
        Primitive::WriteChar => Some(WRITE_CHAR),
        Primitive::WriteText => Some(WRITE_BYTES),
        Primitive::Same => None,
        Primitive::Concatenate => None,
        Primitive::CompareTexts => None,
        Primitive::TextLength => None,
        Primitive::CharAt => None,
        Primitive::PieceOfText => None,
        Primitive::TextOfChar => None,
        Primitive::StrNumber => None,
        Primitive::StrTruth => None,
        Primitive::StrChar => None,
        Primitive::StrText => None,
        Primitive::ValNumber => None,
        Primitive::ValCode => None,
        Primitive::PutChar => None,
        Primitive::ResizeText => None,
    }
}

/// Where the routine's value goes; that of a routine that gives nothing goes to a scratch register, which nobody reads there.
fn register_of(frame: &Frame, to: &Destination) -> Result<VirtualRegister, NoMemory>
    ensures { IfOk result (λ register. register ≡ destination_register frame.now to.now) }
{
    match to {
        Destination::Unused => frame.bank.scratch(0),
        Destination::InTemporary(temporary) => frame.bank.temporary(*temporary),
        Destination::InNew { of: _, number: _ } => frame.bank.scratch(0),
        Destination::IntoPlace {
            of: _,
            to: _,
            old: _,
        } => frame.bank.scratch(0),
        Destination::OverPlace { to: _ } => frame.bank.scratch(0),
    }
}

/// Puts operands into registers, where so many scratch registers have some, and these registers behind the other arguments.
fn push_operands(
    code: &mut Vec<Instruction>,
    frame: &Frame,
    literals: &Texts,
    first: u32,
    operands: &[Operand],
    arguments: &mut Vec<VirtualRegister>,
) -> Result<(), NoMemory>
    ensures code { OnOk result (code.new.items ≡ code.old.items ++ operands_code frame.now literals.now first operands.now) }
    ensures arguments { OnOk result (arguments.new.items ≡ arguments.old.items ++ operands_passed frame.now first operands.now) }
{
    let mut used = first;
    for operand in operands {
        used = push_operand(code, frame, literals, used, operand, arguments)?;
    }
    Ok(())
}

/// The answer tells how many scratch registers have operands then.
fn push_operand(
    code: &mut Vec<Instruction>,
    frame: &Frame,
    literals: &Texts,
    used: u32,
    operand: &Operand,
    arguments: &mut Vec<VirtualRegister>,
) -> Result<u32, NoMemory>
    ensures code { OnOk result (code.new.items ≡ code.old.items ++ operand_code frame.now literals.now used operand.now) }
    ensures arguments { OnOk result (arguments.new.items ≡ arguments.old.items ++ operand_passed frame.now used operand.now) }
    ensures used { IfOk result (λ after. after ≡ used + scratch_for operand.now) }
{
    match operand {
        Operand::Number(temporary) => {
            arguments.push(frame.bank.temporary(*temporary)?)?;
            Ok(used)
        }
        Operand::Text(_) => Ok(used),
        Operand::Literal(text) => {
            push_literal(code, frame, literals, used, text.as_slice(), arguments)?;
            used.checked_add(2).ok_or(NoMemory)
        }
    }
}

/// Its address, and its length in the next register.
fn push_literal(
    code: &mut Vec<Instruction>,
    frame: &Frame,
    literals: &Texts,
    used: u32,
    text: &[u8],
    arguments: &mut Vec<VirtualRegister>,
) -> Result<(), NoMemory>
    ensures code { OnOk result (code.new.items ≡ code.old.items ++ literal_code frame.now literals.now used text.now) }
    ensures arguments { OnOk result (arguments.new.items ≡ arguments.old.items ++ literal_passed frame.now used) }
{
    let address = frame.bank.scratch(used)?;
    let count = frame.bank.scratch(used.checked_add(1).ok_or(NoMemory)?)?;
    push_address(
        code,
        address,
        Symbol::Literal(LiteralId(number_in(literals, text)?)),
    )?;
    push_const(code, count, length(text.len())?)?;
    arguments.push(address)?;
    arguments.push(count)?;
    Ok(())
}

/// A length of less than 2^32 bytes.
pub fn length(bytes: usize) -> Result<u32, NoMemory>
    ensures { IfOk result (λ n. n ≡ bytes) }
{
    u32::try_from(bytes).ok().ok_or(NoMemory)
}

/// The number of a literal.
pub fn number_in(literals: &Texts, text: &[u8]) -> Result<u32, NoMemory>
    ensures { IfOk result (λ n. n ≡ number_of literals.now text.now) }
{
    length(literals.number_of(text))
}

//! Operands, and the text of an instruction from its mnemonic and its operands.
ghost use Rattle.std.specs.Prelude.{◌≡◌, ◌++◌, ◌∷◌, OnOk, decimal, drop};
ghost use Rattle.std.specs.Fmt.{signed_decimal};
ghost use Rattle.op_listing.specs.Digits.{eight_digits};
ghost use Rattle.op_listing.specs.Instruction.{assembly, operand_text};

use crate::digits::eight_digits;
use itoa::Buffer;
use std::alloc::AllocError;

/// An operand of an instruction, by how it is written.
#[derive(Clone, Copy)]
pub enum Operand {
    /// `x5`
    Register(u8),
    /// `-5`
    Number(i32),
    /// `8(x2)`: a distance from the address in a register.
    Offset(i32, u8),
    /// `0x12345`: the field of 20 bits of a word's upper part.
    Upper(u32),
    /// `00010040`
    Address(u32),
}

/// Appends a number in decimal digits, with `-` in front where it is below 0.
fn push_number(text: &mut Vec<u8>, number: i32) -> Result<(), AllocError>
    ensures { OnOk result (text.new.items ≡ text.old.items ++ signed_decimal number) }
{
    let mut buffer = Buffer::new();
    text.extend_from_slice(buffer.format(number).as_bytes())
}

/// Appends a distance from the address in a register.
fn push_offset(text: &mut Vec<u8>, offset: i32, base: u8) -> Result<(), AllocError>
    ensures { OnOk result (text.new.items ≡ text.old.items ++ operand_text (Operand.Offset offset base)) }
{
    push_number(text, offset)?;
    text.extend_from_slice(b"(x")?;
    push_number(text, base as i32)?;
    text.extend_from_slice(b")")
}

/// Appends the last five hexadecimal digits of a field.
fn push_upper(text: &mut Vec<u8>, field: u32) -> Result<(), AllocError>
    ensures { OnOk result (text.new.items ≡ text.old.items ++ operand_text (Operand.Upper field)) }
{
    let digits = eight_digits(field);
    text.extend_from_slice(b"0x")?;
    text.extend_from_slice(digits.split_at(3).1)
}

fn push_operand(text: &mut Vec<u8>, operand: Operand) -> Result<(), AllocError>
    ensures { OnOk result (text.new.items ≡ text.old.items ++ operand_text operand) }
{
    match operand {
        Operand::Register(register) => {
            text.extend_from_slice(b"x")?;
            push_number(text, register as i32)
        }
        Operand::Number(number) => push_number(text, number),
        Operand::Offset(offset, base) => push_offset(text, offset, base),
        Operand::Upper(field) => push_upper(text, field),
        Operand::Address(address) => text.extend_from_slice(&eight_digits(address)),
    }
}

/// Appends a mnemonic and its operands, of which the first one is a register.
pub(crate) fn push_assembly(
    text: &mut Vec<u8>,
    name: &[u8],
    first: u8,
    others: &[Operand],
) -> Result<(), AllocError>
    ensures { OnOk result (text.new.items ≡ text.old.items ++ assembly name.now (Operand.Register first ∷ others.now)) }
{
    text.extend_from_slice(name)?;
    text.extend_from_slice(b" ")?;
    push_operand(text, Operand::Register(first))?;
    for operand in others {
        text.extend_from_slice(b", ")?;
        push_operand(text, *operand)?;
    }
    Ok(())
}

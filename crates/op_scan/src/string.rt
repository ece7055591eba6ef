//! Strings (Free Pascal Reference Guide, "Character strings").
ghost use Rattle.std.specs.Prelude.{◌≡◌, ◌+◌, ◌≤◌, ℕ, List, [], ◌∷◌, ◌++◌, IfOk, IfSome, MatchOption, length, take};
ghost use Rattle.op_scan.specs.Class.{class_at};
ghost use Rattle.op_scan.specs.Item.{IsFront, a_string, effect_of};
ghost use Rattle.op_scan.specs.Literal.{AddsPart, AddsParts, AddsQuoted, IsCharacter, IsQuoted, NoPart, Part, value_of};
ghost use Rattle.op_scan.specs.declared.class.Class.TheVariants as class;

use crate::byte::{ByteKind, begins_with, is_line_end, run_length};
use crate::effect::{BAD_CHARACTER, Effect, Front, LONG_STRING, STRING_NOT_CLOSED};
use crate::number::{Base, digits_value};
use crate::{CompactText, Switches, TokenKind};
use op_base::NoMemory;
use std::alloc::Global;

/// The greatest length of a string.
const LONGEST: usize = 65535;

/// The greatest number of a character.
const GREATEST_CHARACTER: u64 = 255;

/// What stands behind the quoted part whose inside begins with these bytes, if it is closed on its line. Then what it
/// stands for has been put at the end of `value`.
fn quoted<'a>(value: &mut Vec<u8>, bytes: &'a [u8]) -> Result<Option<&'a [u8]>, NoMemory>
    ensures found { IfOk result (λ found. MatchOption found
        ((text rest : List ℕ) → IsQuoted bytes.now text rest → ⊥)
        (λ rest. AddsQuoted bytes.now rest.now value.old.items value.new.items)) }
    ensures kept { take (length value.old.items) value.new.items ≡ value.old.items }
{
    let mut rest = bytes;
    while let Some((byte, after)) = rest.split_first() {
        if is_line_end(*byte) {
            return Ok(None);
        }
        if *byte != b'\'' {
            rest = after;
        } else if begins_with(after, b'\'') {
            (_, rest) = after.split_at(1);
        } else {
            return Ok(Some(after));
        }
        value.push(*byte)?;
    }
    Ok(None)
}

/// The character whose number these digits are, and what stands behind it.
fn character_in(base: Base, bytes: &[u8]) -> Option<(u8, &[u8])>
    ensures { MatchOption result
        ((digits rest : List ℕ) → bytes.now ≡ digits ++ rest → IsCharacter base digits rest → ⊥)
        (λ found. (digits : List ℕ) × (bytes.now ≡ digits ++ found.1.now)
        × IsCharacter base digits found.1.now × (value_of base digits ≡ found.0)) }
{
    let count = run_length(ByteKind::Digit(base), bytes);
    let (digits, rest) = bytes.split_at(count);
    let value = digits_value(base, digits);
    if count == 0 || GREATEST_CHARACTER < value {
        return None;
    }
    Some((value as u8, rest))
}

/// The character whose number stands at the front, in decimal or behind `$`, and what stands behind it.
fn character(bytes: &[u8]) -> Option<(u8, &[u8])>
    ensures { MatchOption result
        ((piece rest text : List ℕ) → 35 ∷ bytes.now ≡ piece ++ rest → Part piece rest text → ⊥)
        (λ found. (piece : List ℕ) × (35 ∷ bytes.now ≡ piece ++ found.1.now) × Part piece found.1.now (found.0 ∷ [])) }
{
    if begins_with(bytes, b'$') {
        let (_, digits) = bytes.split_at(1);
        return character_in(Base::Hexadecimal, digits);
    }
    character_in(Base::Decimal, bytes)
}

/// What stands behind the part of a string at the front, if one does. Then what it stands for has been put at the end of
/// `value`; otherwise `value` is as it was.
fn part<'a>(value: &mut Vec<u8>, bytes: &'a [u8]) -> Result<Option<&'a [u8]>, NoMemory>
    ensures { IfOk result (λ found. MatchOption found
        (NoPart bytes.now × (value.new.items ≡ value.old.items))
        (λ rest. AddsPart bytes.now rest.now value.old.items value.new.items)) }
{
    let Some((first, after)) = bytes.split_first() else {
        return Ok(None);
    };
    if *first == b'\'' {
        return quoted_part(value, after);
    }
    if *first == b'#' {
        return numbered_part(value, after);
    }
    Ok(None)
}

/// The part that is quoted, behind its first quote.
fn quoted_part<'a>(value: &mut Vec<u8>, bytes: &'a [u8]) -> Result<Option<&'a [u8]>, NoMemory>
    ensures { IfOk result (λ found. MatchOption found
        (NoPart (39 ∷ bytes.now) × (value.new.items ≡ value.old.items))
        (λ rest. AddsPart (39 ∷ bytes.now) rest.now value.old.items value.new.items)) }
{
    let length = value.len();
    match quoted(value, bytes)? {
        Some(rest) => Ok(Some(rest)),
        None => {
            value.truncate(length);
            Ok(None)
        }
    }
}

/// The part that is a character by its number, behind the `#`.
fn numbered_part<'a>(value: &mut Vec<u8>, bytes: &'a [u8]) -> Result<Option<&'a [u8]>, NoMemory>
    ensures { IfOk result (λ found. MatchOption found
        (NoPart (35 ∷ bytes.now) × (value.new.items ≡ value.old.items))
        (λ rest. AddsPart (35 ∷ bytes.now) rest.now value.old.items value.new.items)) }
{
    match character(bytes) {
        Some((byte, rest)) => {
            value.push(byte)?;
            Ok(Some(rest))
        }
        None => Ok(None),
    }
}

/// What stands behind the parts of a string at the front. What they stand for has been put at the end of `value`.
fn parts<'a>(value: &mut Vec<u8>, bytes: &'a [u8]) -> Result<&'a [u8], NoMemory>
    ensures { IfOk result (λ rest. AddsParts bytes.now rest.now value.old.items value.new.items) }
{
    let mut rest = bytes;
    while let Some(after) = part(value, rest)? {
        rest = after;
    }
    Ok(rest)
}

/// The string at the front.
pub fn string(alloc: Global, bytes: &[u8], switches: Switches) -> Result<Front, NoMemory>
    requires { class_at bytes.now ≡ class.String }
    ensures { IfOk result (λ front. IsFront switches bytes.now front.length front.effect) }
{
    let mut value = Vec::new(alloc);
    let rest = parts(&mut value, bytes)?;
    let length = bytes.len() - rest.len();
    if length > 0 {
        let effect = effect_of_string(alloc, &value, switches)?;
        return Ok(Front { length, effect });
    }
    if begins_with(bytes, b'#') {
        return Ok(Front {
            length: 0,
            effect: Effect::Breaks(BAD_CHARACTER),
        });
    }
    Ok(Front {
        length: 0,
        effect: Effect::Breaks(STRING_NOT_CLOSED),
    })
}

fn effect_of_string(alloc: Global, value: &[u8], switches: Switches) -> Result<Effect, NoMemory>
    ensures { IfOk result (λ effect. effect ≡ effect_of switches (a_string value.now)) }
{
    if LONGEST < value.len() {
        return Ok(Effect::Breaks(LONG_STRING));
    }
    let text = CompactText::copy_of(alloc, value)?;
    Ok(Effect::Gives(TokenKind::CharacterString(text)))
}

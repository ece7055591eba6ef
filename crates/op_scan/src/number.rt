//! Numbers (Free Pascal Reference Guide, "Numbers").
ghost use Rattle.std.specs.Prelude.{◌≡◌, ◌≤◌, min, length, if◌then◌else◌, nat_lt};
ghost use Rattle.std.specs.Char.{digit_value};
ghost use Rattle.op_scan.specs.Class.{class_at};
ghost use Rattle.op_scan.specs.Byte.{is_digit_in, radix_of};
ghost use Rattle.op_scan.specs.Directive.{rule};
ghost use Rattle.op_scan.specs.Item.{IsFront};
ghost use Rattle.op_scan.specs.Literal.{mark_of, value_of};
ghost use Rattle.op_scan.specs.declared.class.Class.TheVariants as class;

use crate::byte::{ByteKind, run_length};
use crate::effect::{BAD_NUMBER, Effect, Front};
use crate::{Switches, TokenKind};

/// The greatest number that a program can write.
const GREATEST: u64 = 2147483648;

/// The base in which a number is written.
#[derive(Clone, Copy)]
pub enum Base {
    Decimal,
    /// Behind `$`.
    Hexadecimal,
    /// Behind `&`.
    Octal,
    /// Behind `%`.
    Binary,
}

fn radix(base: Base) -> u8
    ensures radix { result ≡ radix_of base }
    ensures most { result ≤ 16 }
{
    match base {
        Base::Decimal => 10,
        Base::Hexadecimal => 16,
        Base::Octal => 8,
        Base::Binary => 2,
    }
}

/// The value of a digit or letter, or 36 for any other byte.
fn digit_value(byte: u8) -> u8
    ensures value { result ≡ digit_value byte }
    ensures most { result ≤ 36 }
{
    match byte {
        b'0'..=b'9' => byte - b'0',
        b'A'..=b'Z' => byte - b'A' + 10,
        b'a'..=b'z' => byte - b'a' + 10,
        _ => 36,
    }
}

/// The byte is a digit of this base.
#[tactic(auto, unfolding(crate::specs::Byte::is_digit_in))]
pub fn is_digit(base: Base, byte: u8) -> bool
    ensures { result ≡ is_digit_in base byte }
{
    digit_value(byte) < radix(base)
}

/// The value of these digits, or one more than the greatest number where it is above that.
pub fn digits_value(base: Base, digits: &[u8]) -> u64
    ensures { result ≡ min (value_of base digits.now) 2147483649 }
{
    let radix = u64::from(radix(base));
    let mut value = 0;
    for digit in digits {
        value = (value * radix + u64::from(digit_value(*digit))).min(GREATEST + 1);
    }
    value
}

/// How many bytes stand before the digits.
fn mark_length(base: Base) -> usize
    ensures { result ≡ length (mark_of base) }
{
    match base {
        Base::Decimal => 0,
        Base::Hexadecimal => 1,
        Base::Octal => 1,
        Base::Binary => 1,
    }
}

fn effect_of_number(value: u64) -> Effect
    ensures { result ≡ (if nat_lt 2147483648 value then Effect.Breaks (rule 4) else Effect.Gives (TokenKind.Number value)) }
{
    if GREATEST < value {
        Effect::Breaks(BAD_NUMBER)
    } else {
        Effect::Gives(TokenKind::Number(value as u32))
    }
}

/// The number at the front, written in this base.
pub fn number(base: Base, bytes: &[u8], switches: Switches) -> Front
    requires { class_at bytes.now ≡ class.Number base }
    ensures { IsFront switches bytes.now result.length result.effect }
{
    let mark = mark_length(base);
    let (_, digits) = bytes.split_at(mark);
    let count = run_length(ByteKind::Digit(base), digits);
    if count == 0 {
        return Front {
            length: 0,
            effect: Effect::Breaks(BAD_NUMBER),
        };
    }
    let (digits, _) = digits.split_at(count);
    Front {
        length: mark + count,
        effect: effect_of_number(digits_value(base, digits)),
    }
}

//! The values of constant expressions (Free Pascal Reference Guide, "Ordinary constants" and "Operators").
ghost use Rattle.std.specs.Prelude.{◌≡◌, ◌≤ℤ◌, ◌-ℤ◌, pos, IfOk, if◌then◌else◌};
ghost use Rattle.op_core.specs.Sizes.{IsOrdinalRange, range_of, type_at};
ghost use Rattle.op_types.specs.Values.{applied, before, bound_of, by_values, bytes_of, cast, compared_by, contains, in_range, is_in, low_bits, number_of, on_numbers, on_sets, on_texts, operated, precedes_bytes, text_within, truth, within};

use crate::set::{combined, is_part};
use crate::sort::Sort;
use op_base::{NoMemory, Sequence, rem_trunc, shl5, shr_logical};
use op_core::{Const, Core, CoreType, Function, TypeId, integer_range, range_of, type_at};
use op_scan::CompactText;
use op_tree::{Operator, PrefixOperator};
use std::alloc::Global;

/// The most bytes of a text, as of a literal.
const MOST_TEXT_BYTES: usize = 65_535;

/// What an operator gives between two constants of these sorts; None where that is out of range, a divisor is 0, or a text too long.
pub fn operated(
    alloc: Global,
    operator: Operator,
    sorts: (Sort, Sort),
    a: &Const,
    b: &Const,
) -> Result<Option<Const>, NoMemory>
    ensures { IfOk result (λ v. v ≡ operated operator sorts.0 sorts.1 a.now b.now) }
{
    if sorts.0.is_text() && sorts.1.is_text() {
        let (a, b) = (bytes_of(alloc, a)?, bytes_of(alloc, b)?);
        on_texts(alloc, a.as_slice(), operator, b.as_slice())
    } else {
        by_values(alloc, operator, a, b)
    }
}

fn by_values(
    alloc: Global,
    operator: Operator,
    a: &Const,
    b: &Const,
) -> Result<Option<Const>, NoMemory>
    ensures { IfOk result (λ v. v ≡ by_values operator a.now b.now) }
{
    match (a, b) {
        (Const::Set(a), Const::Set(b)) => on_sets(alloc, operator, a.as_slice(), b.as_slice()),
        (Const::Ordinal(n), Const::Set(b)) => Ok(Some(truth(is_in(*n, b.as_slice())))),
        _ => Ok(on_numbers(operator, number_of(a), number_of(b))),
    }
}

fn is_in(n: i32, set: &[u8]) -> bool
    ensures { result ≡ is_in n set.now }
{
    set.iter().any(|x| *x as i32 == n)
}

fn on_sets(alloc: Global, operator: Operator, a: &[u8], b: &[u8]) -> Result<Option<Const>, NoMemory>
    ensures { IfOk result (λ v. v ≡ on_sets operator a.now b.now) }
{
    match operator {
        Operator::Equal => Ok(Some(truth(is_part(a, b) && is_part(b, a)))),
        Operator::NotEqual => Ok(Some(truth(!(is_part(a, b) && is_part(b, a))))),
        Operator::LessEqual => Ok(Some(truth(is_part(a, b)))),
        Operator::GreaterEqual => Ok(Some(truth(is_part(b, a)))),
        _ => Ok(Some(Const::Set(Sequence::from(combined(alloc, operator, a, b)?)))),
    }
}

fn on_texts(
    alloc: Global,
    a: &[u8],
    operator: Operator,
    b: &[u8],
) -> Result<Option<Const>, NoMemory>
    ensures { IfOk result (λ v. v ≡ on_texts operator a.now b.now) }
{
    match operator {
        Operator::Add => {
            let mut both = Vec::from_slice(alloc, a)?;
            both.extend_from_slice(b)?;
            text_within(alloc, both.as_slice())
        }
        _ => {
            let (less, more) = (precedes_bytes(a, b), precedes_bytes(b, a));
            Ok(compared_by(operator, less, more))
        }
    }
}

/// A text, where it is not too long.
fn text_within(alloc: Global, bytes: &[u8]) -> Result<Option<Const>, NoMemory>
    ensures { IfOk result (λ v. v ≡ text_within bytes.now) }
{
    if bytes.len() <= MOST_TEXT_BYTES {
        Ok(Some(Const::Text(CompactText::copy_of(alloc, bytes)?)))
    } else {
        Ok(None)
    }
}

fn on_numbers(operator: Operator, a: i32, b: i32) -> Option<Const>
    ensures { result ≡ on_numbers operator a b }
{
    match operator {
        Operator::Add => within(a as i64 + b as i64),
        Operator::Subtract => within(a as i64 - b as i64),
        Operator::Multiply => product(a, b),
        Operator::Div => divided(a, b),
        Operator::Mod_ => remainder(a, b),
        Operator::Shl => Some(Const::Ordinal(shl5(a, b))),
        Operator::Shr => Some(Const::Ordinal(shr_logical(a, b))),
        Operator::And => Some(Const::Ordinal(a & b)),
        Operator::Or => Some(Const::Ordinal(a | b)),
        Operator::Xor => Some(Const::Ordinal(a ^ b)),
        _ => compared_by(operator, a < b, b < a),
    }
}

fn product(a: i32, b: i32) -> Option<Const>
    ensures { result ≡ on_numbers Operator.Multiply a b }
{
    within(a as i64 * b as i64)
}

fn divided(a: i32, b: i32) -> Option<Const>
    ensures { result ≡ on_numbers Operator.Div a b }
{
    if b == 0 {
        None
    } else {
        within(a as i64 / b as i64)
    }
}

fn remainder(a: i32, b: i32) -> Option<Const>
    ensures { result ≡ on_numbers Operator.Mod_ a b }
{
    if b == 0 {
        None
    } else {
        Some(Const::Ordinal(rem_trunc(a, b)))
    }
}

/// The number, where it has 32 bits with a sign.
pub fn within(n: i64) -> Option<Const>
    ensures { result ≡ within n }
{
    if -0x8000_0000 <= n && n <= 0x7fff_ffff {
        Some(Const::Ordinal(n as i32))
    } else {
        None
    }
}

/// What a comparison says of two values of which the first is less or more than the second.
fn compared_by(operator: Operator, less: bool, more: bool) -> Option<Const>
    ensures { result ≡ compared_by operator less more }
{
    match operator {
        Operator::Equal => Some(truth(!(less || more))),
        Operator::NotEqual => Some(truth(less || more)),
        Operator::Less => Some(truth(less)),
        Operator::Greater => Some(truth(more)),
        Operator::LessEqual => Some(truth(!more)),
        Operator::GreaterEqual => Some(truth(!less)),
        _ => None,
    }
}

fn truth(b: bool) -> Const
    ensures { result ≡ truth b }
{
    Const::Ordinal(if b { 1 } else { 0 })
}

/// Whether a text stands before another one, byte by byte.
fn precedes_bytes(a: &[u8], b: &[u8]) -> bool
    ensures { result ≡ precedes_bytes a.now b.now }
{
    for i in 0..a.len().min(b.len()) {
        if a[i] != b[i] {
            return a[i] < b[i];
        }
    }
    a.len() < b.len()
}

/// The number of an ordinal value; 0 for others.
pub fn number_of(value: &Const) -> i32
    ensures { result ≡ number_of value.now }
{
    match value {
        Const::Ordinal(n) => *n,
        _ => 0,
    }
}

/// The bytes of a text, or the one of a Char. A long text is shared.
pub fn bytes_of(alloc: Global, value: &Const) -> Result<CompactText, NoMemory>
    ensures { IfOk result (λ v. v ≡ bytes_of value.now) }
{
    match value {
        Const::Text(text) => text.share(),
        Const::Ordinal(n) => {
            let byte = (n.cast_unsigned() % 256) as u8;
            CompactText::copy_of(alloc, &[byte])
        }
        _ => CompactText::copy_of(alloc, b""),
    }
}

/// What a sign or `not` gives before a number of this type.
pub fn before(operator: PrefixOperator, of: TypeId, n: i32) -> Option<Const>
    ensures { result ≡ before operator of n }
{
    match operator {
        PrefixOperator::Plus => Some(Const::Ordinal(n)),
        PrefixOperator::Minus => within(-(n as i64)),
        PrefixOperator::Not => {
            if of.0 == TypeId::BOOLEAN.0 {
                within(1 - n as i64)
            } else {
                Some(Const::Ordinal(!n))
            }
        }
    }
}

/// What a function of one constant gives; None where that is out of range.
pub fn applied(
    alloc: Global,
    core: &Core,
    function: Function,
    of: TypeId,
    value: &Const,
) -> Result<Option<Const>, NoMemory>
    ensures { IfOk result (λ v. v ≡ applied core.now function of value.now) }
{
    let n = number_of(value);
    match function {
        Function::Ord => Ok(Some(Const::Ordinal(n))),
        Function::Succ => Ok(in_range(core, of, n as i64 + 1)),
        Function::Pred => Ok(in_range(core, of, n as i64 - 1)),
        Function::Abs => Ok(within(n.unsigned_abs() as i64)),
        Function::Sqr => Ok(product(n, n)),
        Function::Odd => Ok(within((n.cast_unsigned() % 2) as i64)),
        Function::UpCase => Ok(within(upper(n as i64))),
        Function::Length => Ok(within(bytes_of(alloc, value)?.as_slice().len() as i64)),
        _ => Ok(None),
    }
}

/// The number of the great letter, of a small letter from a to z.
fn upper(n: i64) -> i64
    ensures { result ≡ (if contains (pos 97, pos 122) n then n -ℤ pos 32 else n) }
{
    if 97 <= n && n <= 122 { n - 32 } else { n }
}

/// The number as a value of a type, where it is one.
pub fn in_range(core: &Core, of: TypeId, n: i64) -> Option<Const>
    ensures { result ≡ in_range (range_of (type_at core.now of)) n }
{
    match range_of(core, of) {
        None => None,
        Some((low, high)) => {
            if low <= n && n <= high {
                within(n)
            } else {
                None
            }
        }
    }
}

/// A number cast to an ordinal type: to an integer type or Char its low bits, to another one the value if the type has it.
pub fn cast(core: &Core, of: TypeId, n: i32) -> Option<Const>
    ensures { result ≡ cast (type_at core.now of) n }
{
    match type_at(core, of) {
        Some(CoreType::Integer(kind)) => {
            let (low, high) = integer_range(kind);
            low_bits(low, high, n)
        }
        Some(CoreType::Char) => low_bits(0, 255, n),
        _ => in_range(core, of, n as i64),
    }
}

/// The number from `low` to `high` that has the same low bits.
fn low_bits(low: i64, high: i64, n: i32) -> Option<Const>
    requires small { IsOrdinalRange (low, high) }
    requires order { low ≤ℤ high }
    ensures { result ≡ within (low_bits low high n) }
{
    within(low + (n as i64 - low).rem_euclid(high - low + 1))
}

/// `Low` or `High` of an ordinal type or of an array's index type, with the type that it has.
pub fn bound_of(core: &Core, function: Function, of: TypeId) -> Option<(Const, TypeId)>
    ensures { result ≡ bound_of core.now function of }
{
    let index = match type_at(core, of) {
        Some(CoreType::Array { index, .. }) => index,
        _ => of,
    };
    let (low, high) = range_of(core, index)?;
    let n = match function {
        Function::Low => low,
        _ => high,
    };
    Some((within(n)?, index))
}

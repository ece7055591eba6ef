//! Which operators and functions are defined on which sorts, and the type of what they give (Free Pascal Reference Guide,
//! "Operators").
ghost use Rattle.std.specs.Prelude.{◌≡◌};
ghost use Rattle.op_types.specs.Operators.{application, arithmetic, compared, equated, included, logic, operation, ordered, prefixed, set_arithmetic};

use crate::sort::{OrdinalKind, Sort};
use op_core::{Function, TypeId};
use op_tree::{Operator, PrefixOperator};

/// The type of what an operator gives, where it is defined on these sorts; operands that are sets go to the type `sets`.
/// References are compared where one of their types is assignable to the other.
pub fn operation(operator: Operator, a: Sort, b: Sort, sets: TypeId) -> Option<TypeId>
    ensures { result ≡ operation operator a b sets }
{
    match operator {
        Operator::Add => {
            if a.is_text() && b.is_text() {
                Some(TypeId::STRING)
            } else {
                set_arithmetic(a, b, sets)
            }
        }
        Operator::Subtract | Operator::Multiply => set_arithmetic(a, b, sets),
        Operator::Div | Operator::Mod_ | Operator::Shl | Operator::Shr => arithmetic(a, b),
        Operator::And | Operator::Or | Operator::Xor => logic(a, b),
        Operator::Less | Operator::Greater => compared(ordered(a, b)),
        Operator::LessEqual | Operator::GreaterEqual => compared(included(a, b)),
        Operator::Equal | Operator::NotEqual => compared(equated(a, b)),
        Operator::In_ => match (a, b) {
            (Sort::Ordinal(x), Sort::Set(y)) => compared(x.is_same(y)),
            (Sort::Ordinal(_), Sort::EmptySet) => Some(TypeId::BOOLEAN),
            _ => None,
        },
        Operator::Is | Operator::As_ | Operator::Slash => None,
    }
}

/// The type of what a sign or `not` gives before a value of this sort.
pub fn prefixed(operator: PrefixOperator, a: Sort) -> Option<TypeId>
    ensures { result ≡ prefixed operator a }
{
    match operator {
        PrefixOperator::Not => logic(a, a),
        PrefixOperator::Plus | PrefixOperator::Minus => arithmetic(a, a),
    }
}

/// The type of what a function gives of a constant of this sort and type, where it takes it.
pub fn application(function: Function, a: Sort, of: TypeId) -> Option<TypeId>
    ensures { result ≡ application function a of }
{
    match (function, a) {
        (Function::Ord, Sort::Ordinal(_)) => Some(TypeId::INTEGER),
        (Function::Succ | Function::Pred, Sort::Ordinal(_)) => Some(of),
        (Function::Abs | Function::Sqr, _) => arithmetic(a, a),
        (Function::Odd, Sort::Ordinal(OrdinalKind::Integer)) => Some(TypeId::BOOLEAN),
        (Function::Length, Sort::String | Sort::Ordinal(OrdinalKind::Char)) => {
            Some(TypeId::INTEGER)
        }
        (Function::UpCase, Sort::Ordinal(OrdinalKind::Char)) => Some(TypeId::CHAR),
        _ => None,
    }
}

fn arithmetic(a: Sort, b: Sort) -> Option<TypeId>
    ensures { result ≡ arithmetic a b }
{
    match (a, b) {
        (Sort::Ordinal(OrdinalKind::Integer), Sort::Ordinal(OrdinalKind::Integer)) => {
            Some(TypeId::INTEGER)
        }
        _ => None,
    }
}

fn logic(a: Sort, b: Sort) -> Option<TypeId>
    ensures { result ≡ logic a b }
{
    match (a, b) {
        (Sort::Ordinal(OrdinalKind::Boolean), Sort::Ordinal(OrdinalKind::Boolean)) => {
            Some(TypeId::BOOLEAN)
        }
        _ => arithmetic(a, b),
    }
}

fn set_arithmetic(a: Sort, b: Sort, sets: TypeId) -> Option<TypeId>
    ensures { result ≡ set_arithmetic a b sets }
{
    if a.is_set_as(b) {
        Some(sets)
    } else {
        arithmetic(a, b)
    }
}

fn compared(is_defined: bool) -> Option<TypeId>
    ensures { result ≡ compared is_defined }
{
    is_defined.then_some(TypeId::BOOLEAN)
}

fn ordered(a: Sort, b: Sort) -> bool
    ensures { result ≡ ordered a b }
{
    match (a, b) {
        (Sort::Ordinal(x), Sort::Ordinal(y)) => x.is_same(y),
        _ => a.is_text() && b.is_text(),
    }
}

fn included(a: Sort, b: Sort) -> bool
    ensures { result ≡ included a b }
{
    a.is_set_as(b) || ordered(a, b)
}

fn equated(a: Sort, b: Sort) -> bool
    ensures { result ≡ equated a b }
{
    included(a, b) || (a.is_reference() && b.is_reference())
}

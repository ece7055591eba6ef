//! Computations and writes: what comes out, what is done, and with which operands.
use crate::names::{checked, integer, operator, temporary};
use crate::writer::Word;
use op_mir::{Computation, TemporaryId};

/// What an operation of one operand gives.
fn of_one(to: TemporaryId, name: &'static str, from: TemporaryId) -> [Word<'static>; 7] {
    let none = Word::Nothing;
    [
        temporary(to),
        Word::Plain(":="),
        Word::Plain(name),
        temporary(from),
        none,
        none,
        none,
    ]
}

/// What an operation of two operands gives.
fn of_two(
    to: TemporaryId,
    name: Word<'static>,
    operands: (TemporaryId, TemporaryId),
    flag: Word<'static>,
) -> [Word<'static>; 7] {
    let none = Word::Nothing;
    [
        temporary(to),
        Word::Plain(":="),
        name,
        temporary(operands.0),
        temporary(operands.1),
        flag,
        none,
    ]
}

/// What an operation of one operand gives, with what it depends on besides.
fn of_one_by(
    to: TemporaryId,
    name: &'static str,
    from: TemporaryId,
    by: [Word<'static>; 3],
) -> [Word<'static>; 7] {
    [
        temporary(to),
        Word::Plain(":="),
        Word::Plain(name),
        temporary(from),
        by[0],
        by[1],
        by[2],
    ]
}

/// Two numbers as bounds.
fn bounds(low: i32, high: i32) -> [Word<'static>; 3] {
    [Word::Number(low), Word::Plain("to"), Word::Number(high)]
}

/// One word and no more.
fn single(word: Word<'static>) -> [Word<'static>; 3] {
    [word, Word::Nothing, Word::Nothing]
}

pub fn computation(of: Computation) -> [Word<'static>; 7] {
    match of {
        Computation::Arithmetic {
            operator: by,
            checked: is_checked,
            to,
            left,
            right,
        } => of_two(to, operator(by), (left, right), checked(is_checked)),
        Computation::Compare {
            operator: by,
            to,
            left,
            right,
        } => of_two(to, operator(by), (left, right), Word::Nothing),
        Computation::Negate {
            checked: is_checked,
            to,
            from,
        } => of_one_by(to, "negate", from, single(checked(is_checked))),
        Computation::Complement { to, from } => of_one(to, "complement", from),
        Computation::Invert { to, from } => of_one(to, "invert", from),
        Computation::Absolute {
            checked: is_checked,
            to,
            from,
        } => of_one_by(to, "absolute", from, single(checked(is_checked))),
        Computation::Odd { to, from } => of_one(to, "odd", from),
        Computation::Upper { to, from } => of_one(to, "upper", from),
        Computation::LowBits { kind, to, from } => {
            of_one_by(to, "low-bits", from, single(integer(kind)))
        }
        Computation::Check {
            low,
            high,
            to,
            from,
        } => of_one_by(to, "check", from, bounds(low, high)),
        Computation::Neighbour {
            distance,
            low,
            high,
            to,
            from,
        } => neighbour(to, from, distance, bounds(low, high)),
        Computation::Single { to, from } => of_one(to, "single", from),
        Computation::Span { to, first, last } => {
            of_two(to, Word::Plain("span"), (first, last), Word::Nothing)
        }
        Computation::Combine {
            operator: by,
            to,
            left,
            right,
        } => of_two(to, operator(by), (left, right), Word::Plain("as sets")),
        Computation::Contains { to, element, set } => {
            of_two(to, Word::Plain("contains"), (set, element), Word::Nothing)
        }
        Computation::CheckSet { all, to, from } => {
            of_one_by(to, "check-set", from, single(Word::Number(all)))
        }
    }
}

fn neighbour(
    to: TemporaryId,
    from: TemporaryId,
    distance: i32,
    bounds: [Word<'static>; 3],
) -> [Word<'static>; 7] {
    [
        temporary(to),
        Word::Plain(if distance < 0 {
            ":= before"
        } else {
            ":= behind"
        }),
        temporary(from),
        Word::Number(distance),
        bounds[0],
        bounds[1],
        bounds[2],
    ]
}

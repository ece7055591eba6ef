//! The words for rows of the tables, and for what has a name of its own.
use crate::writer::Word;
use op_core::{
    ClassId, Conversion, Core, CoreType, Dispatch, Function, IntegerKind, Origin, RoutineId,
    TypeId, VariableId,
};
use op_mir::TemporaryId;
use op_tree::{Operator, PrefixOperator};

pub fn temporary(of: TemporaryId) -> Word<'static> {
    Word::Numbered("t", of.0)
}

pub fn type_named(of: TypeId) -> Word<'static> {
    Word::Numbered("type-", of.0)
}

pub fn class(of: ClassId) -> Word<'static> {
    Word::Numbered("class-", of.0)
}

pub fn routine(core: &Core, of: RoutineId) -> Word<'_> {
    match core.routines.as_slice().get(of.0 as usize) {
        Some(row) => Word::Named(row.name.text.as_slice(), of.0),
        None => Word::Numbered("routine-", of.0),
    }
}

pub fn variable(core: &Core, of: VariableId) -> Word<'_> {
    match core.variables.as_slice().get(of.0 as usize) {
        Some(row) => Word::Named(row.name.text.as_slice(), of.0),
        None => Word::Numbered("variable-", of.0),
    }
}

/// The word of a switch that is on.
pub fn checked(is_checked: bool) -> Word<'static> {
    if is_checked {
        Word::Plain("checked")
    } else {
        Word::Nothing
    }
}

pub fn truth(value: bool) -> Word<'static> {
    Word::Plain(if value { "true" } else { "false" })
}

pub fn integer(kind: IntegerKind) -> Word<'static> {
    Word::Plain(match kind {
        IntegerKind::Signed8 => "ShortInt",
        IntegerKind::Unsigned8 => "Byte",
        IntegerKind::Signed16 => "SmallInt",
        IntegerKind::Unsigned16 => "Word",
        IntegerKind::Signed32 => "Integer",
    })
}

pub fn operator(of: Operator) -> Word<'static> {
    Word::Plain(match of {
        Operator::Equal => "=",
        Operator::NotEqual => "<>",
        Operator::Less => "<",
        Operator::Greater => ">",
        Operator::LessEqual => "<=",
        Operator::GreaterEqual => ">=",
        Operator::In_ => "in",
        Operator::Is => "is",
        Operator::Add => "+",
        Operator::Subtract => "-",
        Operator::Or => "or",
        Operator::Xor => "xor",
        Operator::Multiply => "*",
        Operator::Slash => "/",
        Operator::Div => "div",
        Operator::Mod_ => "mod",
        Operator::And => "and",
        Operator::Shl => "shl",
        Operator::Shr => "shr",
        Operator::As_ => "as",
    })
}

pub fn prefix(of: PrefixOperator) -> Word<'static> {
    Word::Plain(match of {
        PrefixOperator::Not => "not",
        PrefixOperator::Plus => "plus",
        PrefixOperator::Minus => "minus",
    })
}

pub fn function(of: Function) -> Word<'static> {
    Word::Plain(match of {
        Function::Length => "Length",
        Function::Low => "Low",
        Function::High => "High",
        Function::Ord => "Ord",
        Function::Succ => "Succ",
        Function::Pred => "Pred",
        Function::Abs => "Abs",
        Function::Sqr => "Sqr",
        Function::Odd => "Odd",
        Function::Assigned => "Assigned",
        Function::UpCase => "UpCase",
        Function::Whole => "Copy",
        Function::ClassName => "ClassName",
    })
}

pub fn conversion(of: Conversion) -> Word<'static> {
    Word::Plain(match of {
        Conversion::Keep => "keep",
        Conversion::LowBits => "low-bits",
        Conversion::Check => "check",
        Conversion::ToString => "to-string",
        Conversion::ToInterface => "to-interface",
        Conversion::Instance => "instance",
    })
}

pub fn origin(of: Origin) -> Word<'static> {
    Word::Plain(match of {
        Origin::Implied => "implied",
        Origin::Cast => "cast",
        Origin::As_ => "as",
    })
}

pub fn dispatch(of: Dispatch) -> Word<'static> {
    Word::Plain(match of {
        Dispatch::Direct => "direct",
        Dispatch::Virtual => "virtual",
        Dispatch::Interface => "interface",
    })
}

/// What a type is.
pub fn type_words(of: CoreType) -> [Word<'static>; 5] {
    let none = Word::Nothing;
    match of {
        CoreType::Integer(kind) => [integer(kind), none, none, none, none],
        CoreType::Boolean => [Word::Plain("Boolean"), none, none, none, none],
        CoreType::Char => [Word::Plain("Char"), none, none, none, none],
        CoreType::String => [Word::Plain("String"), none, none, none, none],
        CoreType::Enumeration { values } => [
            Word::Plain("enumeration"),
            Word::Numbered("of ", values),
            none,
            none,
            none,
        ],
        CoreType::Subrange { base, low, high } => [
            Word::Plain("subrange of"),
            type_named(base),
            Word::Number(low),
            Word::Plain("to"),
            Word::Number(high),
        ],
        CoreType::Set { base } => [Word::Plain("set of"), type_named(base), none, none, none],
        CoreType::Record { fields } => [
            Word::Plain("record"),
            Word::Numbered("field-", fields.first),
            Word::Numbered("and so many: ", fields.count),
            none,
            none,
        ],
        CoreType::Array { index, element } => [
            Word::Plain("array"),
            type_named(index),
            Word::Plain("of"),
            type_named(element),
            none,
        ],
        CoreType::DynamicArray { element } => [
            Word::Plain("dynamic array of"),
            type_named(element),
            none,
            none,
            none,
        ],
        CoreType::OpenArray { element } => [
            Word::Plain("open array of"),
            type_named(element),
            none,
            none,
            none,
        ],
        CoreType::Class(of) => [class(of), none, none, none, none],
        CoreType::Interface(of) => [Word::Numbered("interface-", of.0), none, none, none, none],
        CoreType::Nil => [Word::Plain("nil"), none, none, none, none],
        CoreType::EmptySet => [Word::Plain("empty set"), none, none, none, none],
        CoreType::Nothing => [Word::Plain("nothing"), none, none, none, none],
        CoreType::Broken => [Word::Plain("broken"), none, none, none, none],
    }
}

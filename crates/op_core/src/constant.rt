//! Constants, and what variables begin with.
use op_base::Sequence;
use op_scan::CompactText;

/// The value of a constant expression.
#[derive(Drop)]
pub enum Const {
    /// An integer, or the number of a Boolean, a Char or a value of an enumeration.
    Ordinal(i32),
    /// A literal.
    Text(CompactText),
    /// Its elements, ascending.
    Set(Sequence<u8>),
    Nil,
}

/// A first value. A record or a static array has a part for each field or element, in order.
#[cycle(initial)]
#[derive(Drop)]
pub enum Initial {
    Value(Const),
    Parts(Vec<Initial>),
}

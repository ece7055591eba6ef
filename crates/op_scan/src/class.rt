//! What can stand at a place, told by its first two bytes.
ghost use Rattle.std.specs.Prelude.{◌≡◌};
ghost use Rattle.op_scan.specs.Class.{class_at, class_of, class_of_mark};

use crate::byte::{begins_with, is_blank, is_name_start};
use crate::comment::Marks;
use crate::number::Base;

/// The kinds of items, and what stands where none does.
#[derive(Clone, Copy)]
pub enum Class {
    Name,
    Blank,
    Number(Base),
    Comment(Marks),
    LineComment,
    String,
    /// A symbol or nothing.
    Symbol,
}

fn class_of_mark(first: u8, after: &[u8]) -> Class
    ensures { result ≡ class_of_mark first after.now }
{
    match first {
        b'$' => Class::Number(Base::Hexadecimal),
        b'&' => Class::Number(Base::Octal),
        b'%' => Class::Number(Base::Binary),
        b'\'' => Class::String,
        b'#' => Class::String,
        b'{' => Class::Comment(Marks::Braces),
        b'(' if begins_with(after, b'*') => Class::Comment(Marks::Stars),
        b'/' if begins_with(after, b'/') => Class::LineComment,
        _ => Class::Symbol,
    }
}

#[tactic(auto, unfolding(crate::specs::Class::class_of))]
fn class_of(first: u8, after: &[u8]) -> Class
    ensures { result ≡ class_of first after.now }
{
    if is_name_start(first) {
        return Class::Name;
    }
    if is_blank(first) {
        return Class::Blank;
    }
    if first.is_ascii_digit() {
        return Class::Number(Base::Decimal);
    }
    class_of_mark(first, after)
}

/// What can stand at the front.
#[tactic(auto, unfolding(crate::specs::Class::class_at))]
pub fn class_at(bytes: &[u8]) -> Class
    ensures { result ≡ class_at bytes.now }
{
    match bytes.split_first() {
        Some((first, after)) => class_of(*first, after),
        None => Class::Symbol,
    }
}

//! Kinds of bytes, and runs of one kind.
ghost use Rattle.std.specs.Prelude.{◌≡◌, ◌≤◌, length};
ghost use Rattle.std.specs.List.{prefix_len};
ghost use Rattle.op_scan.specs.Byte.{begins_with, is_blank, is_line_end, is_name_byte, is_name_start, is_of};

use crate::number::{Base, is_digit};

/// The kinds of bytes that stand in runs.
#[derive(Clone, Copy)]
pub enum ByteKind {
    /// A letter, a digit or `_`.
    NameByte,
    Blank,
    NotBlank,
    NotLineFeed,
    Digit(Base),
}

/// A letter or `_`, with which a name begins.
#[tactic(auto, unfolding(crate::specs::Byte::is_name_start))]
pub fn is_name_start(byte: u8) -> bool
    ensures { result ≡ is_name_start byte }
{
    byte.is_ascii_alphabetic() || byte == b'_'
}

#[tactic(auto, unfolding(crate::specs::Byte::is_name_byte))]
fn is_name_byte(byte: u8) -> bool
    ensures { result ≡ is_name_byte byte }
{
    byte.is_ascii_alphanumeric() || byte == b'_'
}

/// Blank, tab, line feed, form feed or carriage return.
#[tactic(auto, unfolding(crate::specs::Byte::is_blank))]
pub fn is_blank(byte: u8) -> bool
    ensures { result ≡ is_blank byte }
{
    byte == b' ' || byte == b'\t' || byte == b'\n' || byte == 12 || byte == b'\r'
}

/// Carriage return or line feed.
#[tactic(auto, unfolding(crate::specs::Byte::is_line_end))]
pub fn is_line_end(byte: u8) -> bool
    ensures { result ≡ is_line_end byte }
{
    byte == b'\r' || byte == b'\n'
}

/// The byte is of this kind.
fn is_of(kind: ByteKind, byte: u8) -> bool
    ensures { result ≡ is_of kind byte }
{
    match kind {
        ByteKind::NameByte => is_name_byte(byte),
        ByteKind::Blank => is_blank(byte),
        ByteKind::NotBlank => !is_blank(byte),
        ByteKind::NotLineFeed => byte != b'\n',
        ByteKind::Digit(base) => is_digit(base, byte),
    }
}

/// How many bytes of this kind stand at the front.
pub fn run_length(kind: ByteKind, bytes: &[u8]) -> usize
    ensures run { result ≡ prefix_len (is_of kind) bytes.now }
    ensures within { result ≤ length bytes.now }
{
    let mut length = 0;
    for byte in bytes {
        if !is_of(kind, *byte) {
            break;
        }
        length += 1;
    }
    length
}

/// The bytes begin with this one.
pub fn begins_with(bytes: &[u8], byte: u8) -> bool
    ensures { result ≡ begins_with bytes.now byte }
{
    match bytes.first() {
        Some(first) => *first == byte,
        None => false,
    }
}

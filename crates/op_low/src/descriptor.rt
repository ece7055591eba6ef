//! Type and class descriptors in the constants, which the run-time library walks. `specs/Descriptor.antt` has their
//! format.
//!
//! In each of these calls `constants` are the bytes of the constants, and `at` is a descriptor's offset in them.
ghost use Rattle.op_low.specs.Descriptor.{IsClassDescriptor, IsTypeDescriptor, element_in, fields_in, kind_from, kind_in, name_in, name_length_in, part_in, parts_in, size_in, stride_in, word_in};
ghost use Rattle.std.specs.Prelude.{◌≡◌, ◌≤◌, ◌<◌, ◌+◌, ◌*◌, ◌^◌, length};

/// The kinds of types, by what ends with a value.
#[derive(Clone, Copy)]
pub enum DescKind {
    /// No managed parts.
    Plain,
    /// A string.
    Chars,
    /// A dynamic array.
    Dynamic,
    /// A COM interface.
    Interface,
    /// A record.
    Fields,
    /// A static array.
    Repeat,
}

/// A managed part of a value.
#[derive(Clone, Copy)]
pub struct DescPart {
    /// Where it begins in the value.
    pub offset: u32,
    /// The offset of its type's descriptor.
    pub inner: u32,
}

/// The kind of a type.
pub fn type_kind(constants: &[u8], at: u32) -> DescKind
    requires { IsTypeDescriptor constants.now at }
    ensures { result ≡ kind_in constants.now at }
{
    kind(word(constants, at as usize))
}

/// The size of a value in bytes.
pub fn type_size(constants: &[u8], at: u32) -> u32
    requires { IsTypeDescriptor constants.now at }
    ensures { result ≡ size_in constants.now at }
{
    word(constants, at as usize + 4)
}

/// How many managed parts a value has: the managed fields of a record, the elements of a static array, one for a dynamic
/// array, and else none.
pub fn type_parts(constants: &[u8], at: u32) -> u32
    requires { IsTypeDescriptor constants.now at }
    ensures { result ≡ parts_in constants.now at }
{
    word(constants, at as usize + 8)
}

/// Part `k` of a value. For a dynamic array it is the type of the elements, with the offset 0.
pub fn type_part(constants: &[u8], at: u32, k: u32) -> DescPart
    requires descriptor { IsTypeDescriptor constants.now at }
    requires is_part { k < parts_in constants.now at }
    ensures { result ≡ part_in (kind_in constants.now at) constants.now at k }
{
    match type_kind(constants, at) {
        DescKind::Fields => field_part(constants, at as usize, k as usize),
        _ => element_part(constants, at as usize, k),
    }
}

/// The name of a class.
pub fn class_name(constants: &[u8], at: u32) -> &[u8]
    requires { IsClassDescriptor constants.now at }
    ensures { result.now ≡ name_in constants.now at }
{
    let length = word(constants, at as usize + 20) as usize;
    let start = at as usize + 24;
    &constants[start..start + length]
}

/// The offset of the descriptor of all managed fields of a class, its ancestors' first.
pub fn class_fields(constants: &[u8], at: u32) -> u32
    requires { IsClassDescriptor constants.now at }
    ensures { result ≡ fields_in constants.now at }
{
    word(constants, at as usize)
}

/// A word, its lowest byte first.
fn word(constants: &[u8], at: usize) -> u32
    requires { at + 4 ≤ length constants.now }
    ensures { result ≡ word_in constants.now at }
{
    constants[at] as u32
        + (1 << 8) * constants[at + 1] as u32
        + (1 << 16) * constants[at + 2] as u32
        + (1 << 24) * constants[at + 3] as u32
}

fn kind(number: u32) -> DescKind
    ensures { result ≡ kind_from number }
{
    match number {
        0 => DescKind::Plain,
        1 => DescKind::Chars,
        2 => DescKind::Dynamic,
        3 => DescKind::Interface,
        4 => DescKind::Fields,
        _ => DescKind::Repeat,
    }
}

/// A field of a record.
#[tactic(auto, unfolding(crate::specs::Descriptor::part_in))]
fn field_part(constants: &[u8], at: usize, k: usize) -> DescPart
    requires { at + 20 + 8 * k ≤ length constants.now }
    ensures { result ≡ part_in DescKind.Fields constants.now at k }
{
    DescPart {
        offset: word(constants, at + 12 + 8 * k),
        inner: word(constants, at + 16 + 8 * k),
    }
}

/// An element of an array.
fn element_part(constants: &[u8], at: usize, k: u32) -> DescPart
    requires stands { at + 20 ≤ length constants.now }
    requires fits { k * stride_in constants.now at < 2 ^ 32 }
    ensures offset { result.offset ≡ k * stride_in constants.now at }
    ensures inner { result.inner ≡ element_in constants.now at }
{
    DescPart {
        offset: k * word(constants, at + 12),
        inner: word(constants, at + 16),
    }
}

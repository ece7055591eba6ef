//! The fields of an image and its table of program headers.
ghost use Rattle.std.specs.Prelude.{◌≡◌, ◌+◌, ◌≤◌, IsTrue, length, take};
ghost use Rattle.op_link.specs.Image.{half_in, word_in, number_in, segment_at, header_at, headers, has_header_table};

use byteorder::{ByteOrder, LittleEndian};

/// The length of the file header in bytes.
pub(crate) const FILE_HEADER: usize = 52;

/// The length of a program header in bytes.
pub(crate) const PROGRAM_HEADER: usize = 32;

/// The most program headers that an image may have.
pub(crate) const MOST_HEADERS: usize = 16;

/// A segment as its program header describes it, with the numbers of the file.
#[derive(Clone, Copy)]
pub struct Segment {
    /// Where it begins in memory.
    pub address: u32,
    /// Where its bytes begin in the file.
    pub offset: u32,
    /// How many bytes the file has of it.
    pub file_size: u32,
    /// How many bytes it has in memory. Those that the file does not have are 0.
    pub memory_size: u32,
    /// Its rights: 1 to execute, 2 to write, 4 to read, as a sum.
    pub flags: u32,
}

/// A program header: what kind of segment it describes, and the segment.
#[derive(Clone, Copy)]
pub struct ProgramHeader {
    pub kind: u32,
    pub segment: Segment,
}

/// The field of two bytes at a place.
#[tactic(auto, unfolding(crate::specs::Image::half_in))]
pub(crate) fn half(image: &[u8], at: usize) -> u16
    requires { at + 2 ≤ length image.now }
    ensures { result ≡ half_in image.now at }
{
    LittleEndian::read_u16(image.split_at(at).1)
}

/// The field of four bytes at a place.
#[tactic(auto, unfolding(crate::specs::Image::word_in))]
pub(crate) fn word(image: &[u8], at: usize) -> u32
    requires { at + 4 ≤ length image.now }
    ensures { result ≡ word_in image.now at }
{
    LittleEndian::read_u32(image.split_at(at).1)
}

/// The segment of the program header at a place.
pub(crate) fn segment_at(image: &[u8], at: usize) -> Segment
    requires { at + 32 ≤ length image.now }
    ensures { result ≡ segment_at image.now at }
{
    Segment {
        offset: word(image, at + 4),
        address: word(image, at + 8),
        file_size: word(image, at + 16),
        memory_size: word(image, at + 20),
        flags: word(image, at + 24),
    }
}

/// The program header at a place.
fn header_at(image: &[u8], at: usize) -> ProgramHeader
    requires { at + 32 ≤ length image.now }
    ensures { result ≡ header_at image.now at }
{
    ProgramHeader {
        kind: word(image, at),
        segment: segment_at(image, at),
    }
}

/// The program headers, in the front of a table that has room for the most there may be.
pub(crate) fn program_headers(image: &[u8]) -> [ProgramHeader; MOST_HEADERS]
    requires { IsTrue (has_header_table image.now) }
    ensures { take (number_in image.now) result ≡ headers image.now }
{
    let number = half(image, 44) as usize;
    let mut table = [header_at(image, FILE_HEADER); MOST_HEADERS];
    for k in 0..number {
        table[k] = header_at(image, FILE_HEADER + PROGRAM_HEADER * k);
    }
    table
}

//! The reader of images.
ghost use Rattle.std.specs.Prelude.{◌≡◌, ◌<◌, Some, IsTrue, IfOk, IfErr, slice_get};
ghost use Rattle.op_link.specs.Image.{first_failing, segments, has_file_bytes, IsHeaderOf};

use crate::conditions::{
    has_executable_entry, has_header_table, has_identity, has_image_size, has_loadable_segments,
    has_magic, has_segments_in_reach, is_executable_file, is_for_riscv,
};
use crate::table::{FILE_HEADER, PROGRAM_HEADER, Segment, half, program_headers, segment_at, word};

/// What an image says of itself.
#[derive(Clone, Copy)]
pub struct Header {
    /// The address at which it begins.
    pub entry: u32,
    /// How many segments it has.
    pub number: u32,
}

/// Reads the header of an image. `Err` has the number of the first condition, 1 to 9, that the bytes do not meet.
pub fn read_header(bytes: &[u8]) -> Result<Header, u8>
    ensures header { IfOk result (IsHeaderOf bytes.now) }
    ensures condition { IfErr result (λ k. first_failing bytes.now ≡ Some k) }
{
    if !has_image_size(bytes) {
        return Err(1);
    }
    if !has_magic(bytes) {
        return Err(2);
    }
    if !has_identity(bytes) {
        return Err(3);
    }
    if !is_executable_file(bytes) {
        return Err(4);
    }
    if !is_for_riscv(bytes) {
        return Err(5);
    }
    if !has_header_table(bytes) {
        return Err(6);
    }
    let number = half(bytes, 44);
    let table = program_headers(bytes);
    let headers = table.split_at(number as usize).0;
    if !has_loadable_segments(bytes, headers) {
        return Err(7);
    }
    if !has_segments_in_reach(bytes, headers) {
        return Err(8);
    }
    if !has_executable_entry(bytes, headers) {
        return Err(9);
    }
    Ok(Header {
        entry: word(bytes, 24),
        number: number as u32,
    })
}

/// The segment of the program header k of an image whose header was read, counted from 0.
pub fn segment(bytes: &[u8], header: &Header, k: u32) -> Segment
    requires header { IsHeaderOf bytes.now header.now }
    requires within { k < header.now.number }
    ensures is { slice_get (segments bytes.now) k ≡ Some result }
    ensures whole { IsTrue (has_file_bytes bytes.now result) }
{
    segment_at(bytes, FILE_HEADER + PROGRAM_HEADER * k as usize)
}

//! The nine conditions on images.
ghost use Rattle.std.specs.Prelude.{◌≡◌, ◌+◌, ◌≤◌, IsTrue, length, map, sum_by};
ghost use Rattle.std.specs.List.{list_all, list_any};
ghost use Rattle.op_link.specs.Region.{is_apart, are_apart};
ghost use Rattle.op_link.specs.Image.{headers, memory_range, gives_execute, is_loadable, is_in_reach, has_entry, has_image_size, has_magic, has_identity, is_executable_file, is_for_riscv, has_header_table, has_loadable_segments, has_segments_in_reach, has_executable_entry};

use crate::table::{FILE_HEADER, MOST_HEADERS, PROGRAM_HEADER, ProgramHeader, Segment, half, word};

/// What an image begins with.
const MAGIC: &[u8] = b"\x7fELF";

/// The most bytes that an image may have.
const MOST_BYTES: usize = 100_663_296;

/// The most bytes that all segments may take in memory, 400 MiB.
const MOST_MEMORY: u64 = 419_430_400;

/// The type of an executable file, ET_EXEC.
const EXECUTABLE: u16 = 2;

/// The machine RISC-V, EM_RISCV.
const RISCV: u16 = 243;

/// The kind of a loadable segment, PT_LOAD.
const LOADABLE: u32 = 1;

/// The lowest address that a segment may have.
const LOWEST: u32 = 0x0001_0000;

/// The address that no segment may pass.
const HIGHEST: u64 = 0x7000_0000;

impl Segment {
    /// The address behind the segment, as a number that does not wrap.
    fn end(self) -> u64
        ensures { result ≡ self.address + self.memory_size }
    {
        self.address as u64 + self.memory_size as u64
    }

    /// Whether no address is in both segments.
    fn is_apart(self, other: Segment) -> bool
        ensures { result ≡ is_apart (memory_range self) (memory_range other) }
    {
        self.end() <= other.address as u64
            || other.end() <= self.address as u64
            || self.memory_size == 0
            || other.memory_size == 0
    }

    /// Whether the segment lies from 0x00010000 to 0x70000000.
    fn is_in_reach(self) -> bool
        ensures { result ≡ is_in_reach self }
    {
        LOWEST <= self.address && self.end() <= HIGHEST
    }

    /// Whether the segment may be executed and has the entry.
    fn has_entry(self, entry: u32) -> bool
        ensures { result ≡ has_entry entry self }
    {
        self.flags % 2 == 1 && self.address <= entry && (entry as u64) < self.end()
    }
}

impl ProgramHeader {
    /// Whether the segment is loadable, and its bytes stand in an image of this length and fit its memory.
    fn is_loadable(self, image: &[u8]) -> bool
        ensures { result ≡ is_loadable image.now self }
    {
        let Segment {
            offset,
            file_size,
            memory_size,
            ..
        } = self.segment;
        self.kind == LOADABLE
            && file_size <= memory_size
            && offset as u64 + file_size as u64 <= image.len() as u64
    }
}

/// Whether each segment is loadable.
fn are_loadable(image: &[u8], headers: &[ProgramHeader]) -> bool
    ensures { result ≡ list_all (is_loadable image.now) headers.now }
{
    headers.iter().all(|header| header.is_loadable(image))
}

/// Whether a segment lies apart from each of these.
fn is_apart_from(segment: Segment, headers: &[ProgramHeader]) -> bool
    ensures { result ≡ list_all (λ h. is_apart (memory_range segment) (memory_range h.segment)) headers.now }
{
    headers
        .iter()
        .all(|header| segment.is_apart(header.segment))
}

/// Whether the segments lie apart.
fn are_apart(headers: &[ProgramHeader]) -> bool
    ensures { result ≡ are_apart (map memory_range (map (λ h. h.segment) headers.now)) }
{
    match headers.split_first() {
        None => true,
        Some((first, rest)) => is_apart_from(first.segment, rest) && are_apart(rest),
    }
}

/// Whether each segment is in reach.
fn are_in_reach(headers: &[ProgramHeader]) -> bool
    ensures { result ≡ list_all is_in_reach (map (λ h. h.segment) headers.now) }
{
    headers
        .iter()
        .map(|header| header.segment)
        .all(|segment| segment.is_in_reach())
}

/// The memory of all segments, in bytes.
fn memory_size(headers: &[ProgramHeader]) -> u64
    requires { length headers.now ≤ 16 }
    ensures { result ≡ sum_by (λ s. s.memory_size) (map (λ h. h.segment) headers.now) }
{
    headers
        .iter()
        .map(|header| header.segment.memory_size as u64)
        .sum()
}

/// Whether some segment has the entry.
fn are_entered(headers: &[ProgramHeader], entry: u32) -> bool
    ensures { result ≡ list_any (has_entry entry) (map (λ h. h.segment) headers.now) }
{
    headers
        .iter()
        .map(|header| header.segment)
        .any(|segment| segment.has_entry(entry))
}

/// Condition 1: 52 to 100,663,296 bytes.
#[tactic(auto, unfolding(crate::specs::Image::has_image_size))]
pub(crate) fn has_image_size(image: &[u8]) -> bool
    ensures { result ≡ has_image_size image.now }
{
    FILE_HEADER <= image.len() && image.len() <= MOST_BYTES
}

/// Condition 2: the magic number.
#[tactic(auto, unfolding(crate::specs::Image::has_magic))]
pub(crate) fn has_magic(image: &[u8]) -> bool
    requires { 52 ≤ length image.now }
    ensures { result ≡ has_magic image.now }
{
    image.split_at(4).0 == MAGIC
}

/// Condition 3: 32 bits, little-endian, version 1.
#[tactic(auto, unfolding(crate::specs::Image::has_identity))]
pub(crate) fn has_identity(image: &[u8]) -> bool
    requires { 52 ≤ length image.now }
    ensures { result ≡ has_identity image.now }
{
    image[4] == 1 && image[5] == 1 && image[6] == 1
}

/// Condition 4: an executable file.
#[tactic(auto, unfolding(crate::specs::Image::is_executable_file))]
pub(crate) fn is_executable_file(image: &[u8]) -> bool
    requires { 52 ≤ length image.now }
    ensures { result ≡ is_executable_file image.now }
{
    half(image, 16) == EXECUTABLE
}

/// Condition 5: for RISC-V.
#[tactic(auto, unfolding(crate::specs::Image::is_for_riscv))]
pub(crate) fn is_for_riscv(image: &[u8]) -> bool
    requires { 52 ≤ length image.now }
    ensures { result ≡ is_for_riscv image.now }
{
    half(image, 18) == RISCV
}

/// Condition 6: headers of 52 and 32 bytes, and 1 to 16 program headers right behind the file header.
#[tactic(auto, unfolding(crate::specs::Image::has_header_table))]
pub(crate) fn has_header_table(image: &[u8]) -> bool
    requires { 52 ≤ length image.now }
    ensures { result ≡ has_header_table image.now }
{
    let number = half(image, 44) as usize;
    half(image, 40) as usize == FILE_HEADER
        && half(image, 42) as usize == PROGRAM_HEADER
        && word(image, 28) as usize == FILE_HEADER
        && 1 <= number
        && number <= MOST_HEADERS
        && FILE_HEADER + PROGRAM_HEADER * number <= image.len()
}

/// Condition 7: loadable segments that lie apart.
#[tactic(auto, unfolding(crate::specs::Image::has_loadable_segments))]
pub(crate) fn has_loadable_segments(image: &[u8], table: &[ProgramHeader]) -> bool
    requires { table.now ≡ headers image.now }
    ensures { result ≡ has_loadable_segments image.now }
{
    are_loadable(image, table) && are_apart(table)
}

/// Condition 8: segments from 0x00010000 to 0x70000000, of at most 400 MiB in all.
#[tactic(auto, unfolding(crate::specs::Image::has_segments_in_reach))]
pub(crate) fn has_segments_in_reach(image: &[u8], table: &[ProgramHeader]) -> bool
    requires all { table.now ≡ headers image.now }
    requires few { length table.now ≤ 16 }
    ensures { result ≡ has_segments_in_reach image.now }
{
    are_in_reach(table) && memory_size(table) <= MOST_MEMORY
}

/// Condition 9: the entry is a multiple of 4 in an executable segment.
#[tactic(auto, unfolding(crate::specs::Image::has_executable_entry))]
pub(crate) fn has_executable_entry(image: &[u8], table: &[ProgramHeader]) -> bool
    requires all { table.now ≡ headers image.now }
    requires size { 52 ≤ length image.now }
    ensures { result ≡ has_executable_entry image.now }
{
    let entry = word(image, 24);
    entry % 4 == 0 && are_entered(table, entry)
}

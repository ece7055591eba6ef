//! Loading: the machine that an image begins as.
ghost use Rattle.std.specs.Prelude.{◌≡◌, ◌-◌, ◌<◌, ◌++◌, IsTrue, length, IfOk, IfErr, take, drop, replicate};
ghost use Rattle.op_link.specs.Image.{has_file_bytes, region_in, regions_in, IsHeaderOf};
ghost use Rattle.op_emu.specs.Acts.{BeginsAs};
ghost use Rattle.op_emu.specs.Runs.{IsLoaded, IsNotLoaded};
ghost use Rattle.op_emu.specs.Rows.{AllDecoded, AreDecoded, HasRows, HoldsStill};
ghost use Rattle.op_emu.specs.Segments.{region_of, regions_of, lie_apart};

use crate::row::row_of;
use crate::{Code, Hart, Machine, MachineError, Memory, Registers, Row, Segment, Stepped};
use op_link::{Header, read_header, segment};
use std::alloc::{AllocError, Global};

/// The bytes of a segment in memory: those in the file, and zeros.
fn segment_bytes(
    alloc: Global,
    image: &[u8],
    segment: op_link::Segment,
) -> Result<Vec<u8>, AllocError>
    requires { IsTrue (has_file_bytes image.now segment) }
    ensures { IfOk result (λ bytes. bytes.items ≡ take segment.file_size (drop segment.offset image.now)
        ++ replicate (segment.memory_size - segment.file_size) 0) }
{
    let size = segment.memory_size as usize;
    let rest = image.split_at(segment.offset as usize).1;
    let file = rest.split_at(segment.file_size as usize).0;
    let mut bytes = Vec::with_capacity(alloc, size)?;
    bytes.extend_from_slice(file)?;
    bytes.resize(size, 0)?;
    Ok(bytes)
}

/// A segment in memory.
fn loaded(alloc: Global, image: &[u8], segment: op_link::Segment) -> Result<Segment, AllocError>
    requires { IsTrue (has_file_bytes image.now segment) }
    ensures { IfOk result (λ loaded. region_of loaded ≡ region_in image.now segment) }
{
    Ok(Segment {
        base: segment.address,
        readable: segment.flags / 4 % 2 == 1,
        writable: segment.flags / 2 % 2 == 1,
        executable: segment.flags % 2 == 1,
        bytes: segment_bytes(alloc, image, segment)?,
    })
}

/// The segments of an image with this header.
fn segments(alloc: Global, image: &[u8], header: &Header) -> Result<Vec<Segment>, AllocError>
    requires { IsHeaderOf image.now header.now }
    ensures { IfOk result (λ segments. regions_of segments.items ≡ regions_in image.now) }
{
    let mut segments = Vec::with_capacity(alloc, header.number as usize)?;
    for k in 0..header.number {
        segments.push(loaded(alloc, image, segment(image, header, k))?)?;
    }
    Ok(segments)
}

/// The words of the first `most` bytes of a segment, decoded, and one more row behind them that is none.
fn rows(alloc: Global, segment: &Segment, most: usize) -> Result<Vec<Row>, AllocError>
    ensures { IfOk result (λ rows. HasRows segment.now.bytes.items rows.items) }
{
    let number = segment.bytes.len().min(most) / 4;
    let mut rows = Vec::with_capacity(alloc, number + 1)?;
    for k in 0..number {
        rows.push(row_of(segment.word(segment.base as u64 + 4 * k as u64)))?;
    }
    rows.push(Row::Other)?;
    Ok(rows)
}

/// Whether the words of a segment may be decoded ahead: it may be executed and not written, and its addresses are words.
fn holds_still(segment: &Segment) -> bool
    ensures { IsTrue result → HoldsStill segment.now }
{
    segment.executable
        && !segment.writable
        && segment.base % 4 == 0
        && segment.base as u64 + segment.bytes.len() as u64 + 4 < 1 << 32
}

/// The words of the first `most` bytes of the segment at a place, decoded ahead; none where they may change.
fn code(alloc: Global, segments: &[Segment], k: usize, most: usize) -> Result<Code, AllocError>
    requires inside { k < length segments.now }
    requires apart { IsTrue (lie_apart segments.now) }
    ensures { IfOk result (λ code. AreDecoded (regions_of segments.now) code.base code.rows.items) }
{
    let segment = &segments[k];
    if !holds_still(segment) {
        return Ok(Code {
            base: 0,
            rows: Vec::new(alloc),
        });
    }
    Ok(Code {
        base: segment.base,
        rows: rows(alloc, segment, most)?,
    })
}

/// The words of the first `most` bytes of each segment, decoded ahead.
fn codes(alloc: Global, segments: &[Segment], most: usize) -> Result<Vec<Code>, AllocError>
    requires { IsTrue (lie_apart segments.now) }
    ensures { IfOk result (λ codes. AllDecoded (regions_of segments.now) codes.items) }
{
    let mut codes = Vec::with_capacity(alloc, segments.len())?;
    for k in 0..segments.len() {
        codes.push(code(alloc, segments, k, most)?)?;
    }
    Ok(codes)
}

/// The hart of an image with this header, before its first step. A segment has no more bytes of the file than the image has, and the
/// zeros behind these are no instructions, so no more is decoded ahead.
fn hart(alloc: Global, image: &[u8], header: &Header) -> Result<Hart, AllocError>
    requires { IsHeaderOf image.now header.now }
    ensures { IfOk result (λ hart. BeginsAs image.now hart) }
{
    let segments = segments(alloc, image, header)?;
    let codes = codes(alloc, &segments, image.len())?;
    Ok(Hart {
        registers: Registers::new(),
        pc: header.entry,
        memory: Memory { segments, codes },
        input_ended: false,
    })
}

/// Loads an image. It takes all the memory that the machine ever takes: that of its segments and of the words that are
/// decoded ahead, and none for the image.
/// `Bad` has the first condition on images that fails, 1 to 9.
pub fn load(alloc: Global, image: &[u8]) -> Result<Machine, MachineError>
    ensures loaded { IfOk result (IsLoaded image.now) }
    ensures refused { IfErr result (IsNotLoaded image.now) }
{
    match read_header(image) {
        Ok(header) => match hart(alloc, image, &header) {
            Ok(hart) => Ok(Machine {
                hart,
                last: Stepped::Went,
                steps: 0,
            }),
            Err(AllocError) => Err(MachineError::NoMemory),
        },
        Err(condition) => Err(MachineError::Bad(condition)),
    }
}

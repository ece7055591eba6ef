//! Memory: segments with rights.
ghost use Rattle.std.specs.Prelude.{◌≡◌, ℕ, ◌+◌, ◌-◌, ◌*◌, ◌^◌, ◌<◌, ◌≤◌, ◌&&◌, ◌↔◌, IsTrue, IfSome, Some, None, true, false, MatchOption, slice_index, drop, take, find, length, vec_len, if◌then◌else◌};
ghost use Rattle.std.specs.Option.{option_copied};
ghost use Rattle.std.specs.List.{position};
ghost use Rattle.op_rv.specs.Step.{after};
ghost use Rattle.op_rv.specs.State.{bytes_from, all_from, half_at, word_at};
ghost use Rattle.op_base.specs.Outside.{Rose, appended, AppendsFront};
ghost use Rattle.op_emu.specs.Region.{region_at, covers, range_of, byte_in, readable_in, writable_in};
ghost use Rattle.op_emu.specs.Rows.{AllDecoded, IsDecodedPlace};
ghost use Rattle.op_emu.specs.Quick.{Goes};
ghost use Rattle.op_emu.specs.Segments.{region_of, regions_of, lie_apart, has_right, right_in, written_over, IsWithin, IsFoundAt, WordIs, IsAllowedFront, IsReadableFront, IsWritten, WritesWhole};

use crate::quick::glide;
use crate::{Registers, Row};
use op_base::{Put, Sink};

/// What may be done with a byte.
#[derive(Clone, Copy)]
pub enum Right {
    Read,
    Write,
    Execute,
}

/// A range of addresses with its rights and bytes.
#[derive(Drop)]
pub struct Segment {
    pub base: u32,
    pub readable: bool,
    pub writable: bool,
    pub executable: bool,
    pub bytes: Vec<u8>,
}

/// The words from an address on, decoded ahead.
#[derive(Drop)]
pub struct Code {
    pub base: u32,
    pub rows: Vec<Row>,
}

impl Code {
    /// The place of an address among the words.
    fn place(&self, at: u32) -> Option<usize>
        ensures { IfSome result (λ place. (place < length self.now.rows.items) × (at ≡ self.now.base + 4 * place)) }
    {
        if at < self.base || (at - self.base) % 4 != 0 {
            return None;
        }
        let place = ((at - self.base) / 4) as usize;
        if place < self.rows.len() {
            Some(place)
        } else {
            None
        }
    }
}

/// Segments that lie apart, and the words of those that may be executed and not written.
#[derive(Drop)]
pub struct Memory {
    pub segments: Vec<Segment>,
    pub codes: Vec<Code>,
    ghost apart: { IsTrue (lie_apart segments.items) },
    ghost decoded: { AllDecoded (regions_of segments.items) codes.items },
}

impl Segment {
    /// Whether an address lies in the segment.
    #[inline(always)]
    pub(crate) fn contains(&self, at: u64) -> bool
        ensures { result ≡ covers (range_of (region_of self.now)) at }
    {
        let base = self.base as u64;
        base <= at && at - base < self.bytes.len() as u64
    }

    /// Whether the segment's bytes have a right.
    #[inline(always)]
    fn allows(&self, right: Right) -> bool
        ensures { result ≡ has_right right (region_of self.now) }
    {
        match right {
            Right::Read => self.readable,
            Right::Write => self.writable,
            Right::Execute => self.executable,
        }
    }

    /// The byte at an address of the segment.
    #[inline(always)]
    pub(crate) fn byte(&self, at: u64) -> u8
        requires { IsWithin (region_of self.now) at }
        ensures { result ≡ slice_index self.now.bytes.items (at - self.now.base) }
    {
        self.bytes[(at - self.base as u64) as usize]
    }

    /// Whether the segment has four bytes from one of its addresses on.
    #[inline(always)]
    fn has_word(&self, at: u64) -> bool
        requires { IsWithin (region_of self.now) at }
        ensures { IsTrue result ↔ (at + 4 ≤ self.now.base + length self.now.bytes.items) }
    {
        self.bytes.len() as u64 - (at - self.base as u64) >= 4
    }

    /// Whether the segment has so many bytes from one of its addresses on.
    #[inline(always)]
    pub(crate) fn has(&self, at: u64, size: u64) -> bool
        requires { IsWithin (region_of self.now) at }
        ensures { IsTrue result ↔ (at + size ≤ self.now.base + length self.now.bytes.items) }
    {
        self.bytes.len() as u64 - (at - self.base as u64) >= size
    }

    /// The two bytes at an address of the segment as a number, the lower one first.
    #[inline(always)]
    pub(crate) fn half(&self, at: u64) -> u16
        requires whole { at + 2 ≤ self.now.base + length self.now.bytes.items }
        requires above { self.now.base ≤ at }
        ensures { result ≡ half_at (slice_index self.now.bytes.items) (at - self.now.base) }
    {
        let first = (at - self.base as u64) as usize;
        let byte0 = self.bytes[first] as u16;
        let byte1 = self.bytes[first + 1] as u16;
        byte0 + (byte1 << 8)
    }

    /// The word at an address of the segment, its lowest byte first.
    #[inline(always)]
    pub(crate) fn word(&self, at: u64) -> u32
        requires whole { at + 4 ≤ self.now.base + length self.now.bytes.items }
        requires above { self.now.base ≤ at }
        ensures { result ≡ word_at (slice_index self.now.bytes.items) (at - self.now.base) }
    {
        let first = (at - self.base as u64) as usize;
        let byte0 = self.bytes[first] as u32;
        let byte1 = self.bytes[first + 1] as u32;
        let byte2 = self.bytes[first + 2] as u32;
        let byte3 = self.bytes[first + 3] as u32;
        byte0 + (byte1 << 8) + (byte2 << 16) + (byte3 << 24)
    }

    /// The bytes from an address of the segment on.
    #[inline(always)]
    fn rest_from(&self, at: u64) -> &[u8]
        requires { IsWithin (region_of self.now) at }
        ensures { result.now ≡ drop (at - self.now.base) self.now.bytes.items }
    {
        let bytes = self.bytes.as_slice();
        bytes.split_at((at - self.base as u64) as usize).1
    }

    /// Writes the longest front of the bytes for which the segment has room from an address on, and answers its length.
    #[inline(always)]
    fn write_front(&mut self, at: u64, bytes: &[u8]) -> usize
        requires { IsWithin (region_of self.old) at }
        ensures most { result ≤ length bytes.now }
        ensures some { 0 < length bytes.now → 0 < result }
        ensures fits { at - self.old.base + result ≤ vec_len self.old.bytes }
        ensures wrote { region_of self.new
            ≡ record (region_of self.old) { bytes = written_over self.old.bytes.items (at - self.old.base) (take result bytes.now) } }
    {
        let offset = (at - self.base as u64) as usize;
        let count = bytes.len().min(self.bytes.len() - offset);
        self.bytes[offset..offset + count].copy_from_slice(&bytes[..count]);
        count
    }

    /// Writes the bytes from an address on, if the segment may be written and has room for all. It answers whether it has.
    #[inline(always)]
    pub(crate) fn write_whole(&mut self, at: u64, bytes: &[u8]) -> bool
        requires { IsWithin (region_of self.old) at }
        ensures done { result ≡ true → WritesWhole self.old self.new at bytes.now }
        ensures kept { result ≡ false → self.new ≡ self.old }
    {
        if !self.writable || !self.has(at, bytes.len() as u64) {
            return false;
        }
        let offset = (at - self.base as u64) as usize;
        self.bytes[offset..offset + bytes.len()].copy_from_slice(bytes);
        true
    }
}

/// The first segment that has an address.
#[inline(always)]
fn find_segment(segments: &[Segment], at: u64) -> Option<&Segment>
    ensures { option_copied result ≡ find (λ s. covers (range_of (region_of s)) at) segments.now }
{
    segments.iter().find(|segment| segment.contains(at))
}

/// The place of the first segment that has an address.
#[inline(never)]
pub(crate) fn find_place(segments: &[Segment], at: u64) -> Option<usize>
    ensures { result ≡ position (λ s. covers (range_of (region_of s)) at) segments.now }
{
    segments.iter().position(|segment| segment.contains(at))
}

impl Memory {
    /// The place of an address among the words that were decoded ahead: that of the code, and within it.
    fn decoded_place(&self, at: u32) -> Option<(usize, usize)>
        ensures { IfSome result (λ place. IsDecodedPlace self.now.codes.items at place.0 place.1) }
    {
        for k in 0..self.codes.len() {
            match self.codes[k].place(at) {
                Some(place) => return Some((k, place)),
                None => {}
            }
        }
        None
    }

    /// Does at most so many steps over words that were decoded ahead, from an address on. It answers how many it did and
    /// at which address it stopped.
    pub(crate) fn glide(&mut self, pc: u32, most: u64, registers: &mut Registers) -> (u64, u32)
        ensures bounded { result.0 ≤ most }
        ensures goes { Goes (after result.0) registers.old.words pc (regions_of self.old.segments.items) registers.new.words result.1 (regions_of self.new.segments.items) }
    {
        match self.decoded_place(pc) {
            Some((k, from)) => {
                let code = &self.codes[k];
                let (done, place) = glide(
                    &code.rows,
                    code.base,
                    from,
                    most,
                    registers,
                    &mut self.segments,
                );
                (done, self.codes[k].base + 4 * place as u32)
            }
            None => (0, pc),
        }
    }

    /// The segment at an address.
    #[inline(always)]
    fn segment_at(&self, at: u64) -> Option<&Segment>
        ensures { MatchOption result (region_at (regions_of self.now.segments.items) at ≡ None)
            (λ segment. IsFoundAt (regions_of self.now.segments.items) at (region_of segment.now)) }
    {
        find_segment(&self.segments, at)
    }

    /// The longest front of the `most` bytes at an address that lies in one readable segment.
    fn readable_front(&self, at: u64, most: u64) -> &[u8]
        ensures { IsReadableFront (regions_of self.now.segments.items) at most result.now }
    {
        match self.segment_at(at) {
            None => &[],
            Some(segment) if !segment.readable => &[],
            Some(segment) => {
                let rest = segment.rest_from(at);
                let count = most.min(rest.len() as u64) as usize;
                rest.split_at(count).0
            }
        }
    }

    /// The byte at an address, 0 outside every segment.
    pub fn byte(&self, at: u64) -> u8
        ensures { result ≡ byte_in (regions_of self.now.segments.items) at }
    {
        match self.segment_at(at) {
            None => 0,
            Some(segment) => segment.byte(at),
        }
    }

    /// The length of the longest front of the `most` bytes at an address that lies in one segment with a right.
    #[inline(always)]
    fn allowed_front(&self, right: Right, at: u64, most: u64) -> u64
        ensures { IsAllowedFront right (regions_of self.now.segments.items) at most result }
    {
        match self.segment_at(at) {
            None => 0,
            Some(segment) if !segment.allows(right) => 0,
            Some(segment) => most.min(segment.bytes.len() as u64 - (at - segment.base as u64)),
        }
    }

    /// Whether each of the `count` bytes at an address has a right.
    #[inline(always)]
    pub fn allows(&self, right: Right, at: u32, count: u32) -> bool
        ensures { result ≡ all_from (right_in right (regions_of self.now.segments.items)) at count }
    {
        let mut at = at as u64;
        let mut left = count as u64;
        while left > 0 {
            let front = self.allowed_front(right, at, left);
            if front == 0 {
                return false;
            }
            at += front;
            left -= front;
        }
        true
    }

    /// The two bytes at an address as a number, the lower one first.
    pub fn half(&self, at: u32) -> u16
        ensures { result ≡ half_at (byte_in (regions_of self.now.segments.items)) at }
    {
        let at = at as u64;
        let byte0 = self.byte(at) as u16;
        let byte1 = self.byte(at + 1) as u16;
        byte0 + (byte1 << 8)
    }

    /// The word at an address, where each of its four bytes has a right. It is mostly found in one segment.
    #[inline(always)]
    pub fn allowed_word(&self, right: Right, at: u32) -> Option<u32>
        ensures { WordIs right (regions_of self.now.segments.items) at result }
    {
        match self.segment_at(at as u64) {
            Some(segment) if segment.has_word(at as u64) => {
                if segment.allows(right) {
                    Some(segment.word(at as u64))
                } else {
                    None
                }
            }
            _ => self.allowed_word_by_bytes(right, at),
        }
    }

    /// The same, where it may touch two segments.
    fn allowed_word_by_bytes(&self, right: Right, at: u32) -> Option<u32>
        ensures { WordIs right (regions_of self.now.segments.items) at result }
    {
        if self.allows(right, at, 4) {
            Some(self.word_by_bytes(at))
        } else {
            None
        }
    }

    /// The word at an address, its lowest byte first. It is mostly found in one segment.
    #[inline(always)]
    pub fn word(&self, at: u32) -> u32
        ensures { result ≡ word_at (byte_in (regions_of self.now.segments.items)) at }
    {
        match self.segment_at(at as u64) {
            Some(segment) if segment.has_word(at as u64) => segment.word(at as u64),
            _ => self.word_by_bytes(at),
        }
    }

    /// The same, where it may touch two segments.
    fn word_by_bytes(&self, at: u32) -> u32
        ensures { result ≡ word_at (byte_in (regions_of self.now.segments.items)) at }
    {
        let at = at as u64;
        let byte0 = self.byte(at) as u32;
        let byte1 = self.byte(at + 1) as u32;
        let byte2 = self.byte(at + 2) as u32;
        let byte3 = self.byte(at + 3) as u32;
        byte0 + (byte1 << 8) + (byte2 << 16) + (byte3 << 24)
    }

    /// Hands the `count` bytes at an address, which may be read, to a sink, a stretch at a time.
    pub fn put<W: Sink>(&self, at: u32, count: u32, to: &mut W) -> Put
        requires { IsTrue (all_from (readable_in (regions_of self.now.segments.items)) at count) }
        ensures counts { W.faults to.old ≤ W.faults to.new }
        ensures done { result ≡ Put.Done → W.written to.new
            ≡ appended (W.written to.old) (bytes_from (byte_in (regions_of self.now.segments.items)) at count) }
        ensures failed { result ≡ Put.Failed → Rose (W.faults to.old) (W.faults to.new) }
        ensures front { result ≡ Put.Failed → AppendsFront (W.written to.old)
            (bytes_from (byte_in (regions_of self.now.segments.items)) at count) (W.written to.new) }
    {
        let mut at = at as u64;
        let mut left = count as u64;
        while left > 0 {
            let front = self.readable_front(at, left);
            match to.put(front) {
                Put::Done => {}
                Put::Failed => return Put::Failed,
            }
            at += front.len() as u64;
            left -= front.len() as u64;
        }
        Put::Done
    }
    /// The place of the segment at an address.
    #[inline(always)]
    fn index_at(&self, at: u64) -> Option<usize>
        ensures { result ≡ position (λ s. covers (range_of (region_of s)) at) self.now.segments.items }
    {
        self.segments
            .iter()
            .position(|segment| segment.contains(at))
    }

    /// Writes the longest front of the bytes that lies in the segment at an address, and answers its length.
    #[inline(always)]
    fn write_front(&mut self, at: u64, bytes: &[u8]) -> usize
        requires { IsTrue (writable_in (regions_of self.old.segments.items) at) }
        ensures most { result ≤ length bytes.now }
        ensures some { 0 < length bytes.now → 0 < result }
        ensures wrote { IsWritten (regions_of self.old.segments.items) (regions_of self.new.segments.items) at (take result bytes.now) }
    {
        match self.index_at(at) {
            Some(k) => self.segments[k].write_front(at, bytes),
            None => unreachable!(),
        }
    }

    /// Writes the bytes, each of which may be written, from an address on.
    #[inline(always)]
    pub(crate) fn write(&mut self, at: u64, bytes: &[u8])
        requires near { at < 2 ^ 33 }
        requires few { length bytes.now < 2 ^ 32 }
        requires may { IsTrue (all_from (writable_in (regions_of self.old.segments.items)) at (length bytes.now)) }
        ensures { IsWritten (regions_of self.old.segments.items) (regions_of self.new.segments.items) at bytes.now }
    {
        let mut done = 0;
        while done < bytes.len() {
            done += self.write_front(at + done as u64, &bytes[done..]);
        }
    }
}

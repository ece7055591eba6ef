//! Loads and stores.
ghost use Rattle.std.specs.Prelude.{◌≡◌, ℕ, ◌+◌, ◌-◌, ◌<◌, ◌≤◌, List, IsTrue, IfSome, Some, true, false, length, slice_index, take};
ghost use Rattle.std.specs.Int.{bytes_low_first};
ghost use Rattle.op_rv.specs.Step.{can_access, load_size_of, load_value, store_size_of};
ghost use Rattle.op_rv.specs.State.{all_from};
ghost use Rattle.op_emu.specs.Region.{byte_in, readable_in, writable_in};
ghost use Rattle.op_emu.specs.Rows.{AreDecoded};
ghost use Rattle.op_emu.specs.declared.row.Row.{Row as Flat};
ghost use Rattle.op_emu.specs.Segments.{region_of, regions_of, lie_apart, right_in, HasAddress, IsWithin, IsWritten};

use crate::memory::find_place;
use crate::{Memory, Right, Segment};
use op_rv::operation::{extend_byte, extend_half};
use op_rv::{LoadOp, StoreOp};

/// The number of bytes that a load takes.
#[inline(always)]
fn load_size(op: LoadOp) -> u32
    ensures result { result ≡ load_size_of op }
    ensures some { 0 < result }
{
    match op {
        LoadOp::Lb | LoadOp::Lbu => 1,
        LoadOp::Lh | LoadOp::Lhu => 2,
        LoadOp::Lw => 4,
    }
}

/// The number of bytes that a store gives.
#[inline(always)]
fn store_size(op: StoreOp) -> u32
    ensures result { result ≡ store_size_of op }
    ensures some { 0 < result }
    ensures few { result < 5 }
{
    match op {
        StoreOp::Sb => 1,
        StoreOp::Sh => 2,
        StoreOp::Sw => 4,
    }
}

impl Segment {
    /// What a load finds at an address of the segment, which has all its bytes.
    #[inline(always)]
    fn load(&self, op: LoadOp, at: u64) -> u32
        requires inside { IsWithin (region_of self.now) at }
        requires whole { at + load_size_of op ≤ self.now.base + length self.now.bytes.items }
        ensures { result ≡ load_value op (slice_index self.now.bytes.items) (at - self.now.base) }
    {
        match op {
            LoadOp::Lb => extend_byte(self.byte(at)),
            LoadOp::Lh => extend_half(self.half(at)),
            LoadOp::Lw => self.word(at),
            LoadOp::Lbu => self.byte(at) as u32,
            LoadOp::Lhu => self.half(at) as u32,
        }
    }
}

/// The place of the segment that has an address. The one that was used last with the same base register is tried first, and `lasts` has
/// its place for each of them: a base mostly points into the segment that it pointed into before.
#[inline(always)]
fn place_of(segments: &[Segment], lasts: &mut [u8; 32], rs1: u8, at: u64) -> Option<usize>
    requires { rs1 < 32 }
    ensures { IfSome result (HasAddress segments.now at) }
{
    let last = lasts[rs1 as usize] as usize;
    if last < segments.len() && segments[last].contains(at) {
        return Some(last);
    }
    match find_place(segments, at) {
        Some(k) => {
            lasts[rs1 as usize] = k.min(255) as u8;
            Some(k)
        }
        None => None,
    }
}

/// What a load finds at an address, where one segment has all its bytes and they may be read.
#[inline(always)]
pub(crate) fn load_within(
    segments: &[Segment],
    lasts: &mut [u8; 32],
    op: LoadOp,
    rs1: u8,
    at: u32,
) -> Option<u32>
    requires rs1 { rs1 < 32 }
    requires apart { IsTrue (lie_apart segments.now) }
    ensures { IfSome result (λ value. (can_access (readable_in (regions_of segments.now)) at (load_size_of op) ≡ true)
        × (value ≡ load_value op (byte_in (regions_of segments.now)) at)) }
{
    let size = load_size(op);
    if at % size != 0 {
        return None;
    }
    match place_of(segments, lasts, rs1, at as u64) {
        Some(k) => {
            let segment = &segments[k];
            if segment.readable && segment.has(at as u64, size as u64) {
                Some(segment.load(op, at as u64))
            } else {
                None
            }
        }
        None => None,
    }
}

/// Stores the low bytes of a value at an address, where one segment has room for them and they may be written. It answers
/// whether it has.
#[inline(always)]
pub(crate) fn store_within(
    segments: &mut [Segment],
    lasts: &mut [u8; 32],
    op: StoreOp,
    rs1: u8,
    at: u32,
    value: u32,
) -> bool
    requires rs1 { rs1 < 32 }
    requires apart { IsTrue (lie_apart segments.old) }
    ensures done { result ≡ true → (can_access (writable_in (regions_of segments.old)) at (store_size_of op) ≡ true)
        × IsWritten (regions_of segments.old) (regions_of segments.new) at (bytes_low_first 0 (store_size_of op) value) }
    ensures kept { result ≡ false → segments.new ≡ segments.old }
    ensures apart { IsTrue (lie_apart segments.new) }
    ensures decoded { (base : ℕ) (rows : List Flat) → AreDecoded (regions_of segments.old) base rows → AreDecoded (regions_of segments.new) base rows }
{
    let size = store_size(op);
    if at % size != 0 {
        return false;
    }
    match place_of(segments, lasts, rs1, at as u64) {
        Some(k) => {
            let bytes = value.to_le_bytes();
            write_whole(segments, k, at as u64, &bytes[..size as usize])
        }
        None => false,
    }
}

/// Writes the bytes to the segment at this place, which has the address, if it may be written and has room for all. It
/// answers whether it has.
#[inline(always)]
fn write_whole(segments: &mut [Segment], k: usize, at: u64, bytes: &[u8]) -> bool
    requires there { HasAddress segments.old at k }
    requires apart { IsTrue (lie_apart segments.old) }
    ensures done { result ≡ true → (all_from (writable_in (regions_of segments.old)) at (length bytes.now) ≡ true)
        × IsWritten (regions_of segments.old) (regions_of segments.new) at bytes.now }
    ensures kept { result ≡ false → segments.new ≡ segments.old }
    ensures apart { IsTrue (lie_apart segments.new) }
    ensures decoded { (base : ℕ) (rows : List Flat) → AreDecoded (regions_of segments.old) base rows → AreDecoded (regions_of segments.new) base rows }
{
    segments[k].write_whole(at, bytes)
}

impl Memory {
    /// Whether so many bytes at an address are aligned, and each of them has a right.
    #[inline(always)]
    pub fn can_access(&self, right: Right, at: u32, size: u32) -> bool
        requires { 0 < size }
        ensures { result ≡ can_access (right_in right (regions_of self.now.segments.items)) at size }
    {
        at % size == 0 && self.allows(right, at, size)
    }

    #[inline(always)]
    pub fn can_load(&self, op: LoadOp, at: u32) -> bool
        ensures { result ≡ can_access (readable_in (regions_of self.now.segments.items)) at (load_size_of op) }
    {
        self.can_access(Right::Read, at, load_size(op))
    }

    /// What a load finds at an address.
    #[inline(always)]
    pub fn load(&self, op: LoadOp, at: u32) -> u32
        ensures { result ≡ load_value op (byte_in (regions_of self.now.segments.items)) at }
    {
        match op {
            LoadOp::Lb => extend_byte(self.byte(at as u64)),
            LoadOp::Lh => extend_half(self.half(at)),
            LoadOp::Lw => self.word(at),
            LoadOp::Lbu => self.byte(at as u64) as u32,
            LoadOp::Lhu => self.half(at) as u32,
        }
    }

    #[inline(always)]
    pub fn can_store(&self, op: StoreOp, at: u32) -> bool
        ensures { result ≡ can_access (writable_in (regions_of self.now.segments.items)) at (store_size_of op) }
    {
        self.can_access(Right::Write, at, store_size(op))
    }

    /// Stores the low bytes of a value at an address, where each of them may be written.
    #[inline(always)]
    pub fn store(&mut self, op: StoreOp, at: u32, value: u32)
        requires { IsTrue (can_access (writable_in (regions_of self.old.segments.items)) at (store_size_of op)) }
        ensures { IsWritten (regions_of self.old.segments.items) (regions_of self.new.segments.items) at (bytes_low_first 0 (store_size_of op) value) }
    {
        let bytes = value.to_le_bytes();
        self.write(at as u64, &bytes[..store_size(op) as usize]);
    }
}

//! Filling memory from a source.
ghost use Rattle.std.specs.Prelude.{◌≡◌, ◌^◌, ◌<◌, ◌≤◌, length, IsTrue};
ghost use Rattle.op_rv.specs.State.{all_from};
ghost use Rattle.op_emu.specs.Region.{writable_in};
ghost use Rattle.op_emu.specs.Segments.{regions_of};
ghost use Rattle.op_emu.specs.Filling.{AreBytes, FrontIs, FillIs};

use crate::Memory;
use op_base::{Got, Source};

/// The most bytes that are asked for at once.
const BLOCK: usize = 1024;

/// What came of filling a range.
#[derive(Clone, Copy)]
pub(crate) enum Filled {
    /// All bytes that were wanted came.
    Whole,
    /// The source answered that it is at its end after so many bytes, less than were wanted.
    Ended(u32),
    /// The source failed before all came.
    Failed,
}

/// Bytes are below 256. It does nothing, and tells the proofs what the type says.
fn are_bytes(bytes: &[u8])
    ensures { AreBytes bytes.now }
{}

impl Memory {
    /// Takes at least one byte and at most as many as the buffer has room for from a source to an address on.
    fn fill_through<R: Source>(&mut self, at: u64, buffer: &mut [u8], from: &mut R) -> Got
        requires some { 0 < length buffer.old }
        requires few { length buffer.old < 2 ^ 32 }
        requires near { at < 2 ^ 33 }
        requires may { IsTrue (all_from (writable_in (regions_of self.old.segments.items)) at (length buffer.old)) }
        ensures counts { R.faults from.old ≤ R.faults from.new }
        ensures front { FrontIs result (regions_of self.old.segments.items) (regions_of self.new.segments.items) at (length buffer.old)
            (R.left from.old) (R.left from.new) (R.faults from.old) (R.faults from.new) }
    {
        match from.take(buffer) {
            Got::Gave(count) => {
                let bytes = &buffer[..count];
                are_bytes(bytes);
                self.write(at, bytes);
                Got::Gave(count)
            }
            Got::End => Got::End,
            Got::Failed => Got::Failed,
        }
    }

    /// Takes at least one byte and at most `most` from a source to an address on, as many as the buffer has room for.
    fn fill_front<R: Source>(&mut self, at: u64, most: u32, buffer: &mut [u8], from: &mut R) -> Got
        requires room { 0 < length buffer.old }
        requires some { 0 < most }
        requires near { at < 2 ^ 33 }
        requires may { IsTrue (all_from (writable_in (regions_of self.old.segments.items)) at most) }
        ensures counts { R.faults from.old ≤ R.faults from.new }
        ensures front { FrontIs result (regions_of self.old.segments.items) (regions_of self.new.segments.items) at most
            (R.left from.old) (R.left from.new) (R.faults from.old) (R.faults from.new) }
    {
        let want = buffer.len().min(most as usize);
        self.fill_through(at, &mut buffer[..want], from)
    }

    /// Takes `count` bytes from a source to an address on, or as many as the source has left.
    pub(crate) fn fill<R: Source>(&mut self, at: u32, count: u32, from: &mut R) -> Filled
        requires { IsTrue (all_from (writable_in (regions_of self.old.segments.items)) at count) }
        ensures counts { R.faults from.old ≤ R.faults from.new }
        ensures filled { FillIs result (regions_of self.old.segments.items) (regions_of self.new.segments.items) at count
            (R.left from.old) (R.left from.new) (R.faults from.old) (R.faults from.new) }
    {
        let mut buffer = [0; BLOCK];
        let mut done = 0;
        while done < count {
            let at = at as u64 + done as u64;
            match self.fill_front(at, count - done, &mut buffer, from) {
                Got::Gave(taken) => done += taken as u32,
                Got::End => return Filled::Ended(done),
                Got::Failed => return Filled::Failed,
            }
        }
        Filled::Whole
    }
}

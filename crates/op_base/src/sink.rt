//! Where output goes: a trait, a sink in memory and a sink over any writer.
ghost use Rattle.std.specs.Prelude.{◌≡◌, ℕ, ◌+◌, ◌-◌, ◌^◌, ◌<◌, ◌≤◌, ◌↔◌, ◌||◌, Some, None, Option, List, [], ◌++◌, take, min, length, vec_len, vec_capacity, nat_lt, IfOk, IsTrue, false};
ghost use Rattle.op_base.specs.Outside.{Rose, appended, AppendsFront};
ghost use Rattle.op_base.specs.FaultPlan.{after_call, is_listed, next_number};

use crate::{FaultPlan, NoMemory};
use std::alloc::Global;
use std::io::Write;

/// What a sink answers.
#[derive(Clone, Copy, Debug, PartialEq, Eq)]
pub enum Put {
    /// All bytes were appended.
    Done,
    /// The sink failed. Some front of the bytes was appended.
    Failed,
}

/// Where output goes.
pub trait Sink {
    /// How often the sink has failed.
    ghost faults: { Self → ℕ };

    /// What has been written, where that is told.
    ghost written: { Self → Option (List ℕ) };

    /// Appends the bytes.
    fn put(&mut self, bytes: &[u8]) -> Put
        ensures counts { faults self.old ≤ faults self.new }
        ensures done { result ≡ Put.Done → written self.new ≡ appended (written self.old) bytes.now }
        ensures failed { result ≡ Put.Failed → Rose (faults self.old) (faults self.new) }
        ensures front { result ≡ Put.Failed → AppendsFront (written self.old) bytes.now (written self.new) };
}

/// A sink in memory that takes so many bytes, and some of whose calls fail.
#[derive(Drop)]
pub struct MemSink {
    bytes: Vec<u8>,
    room: usize,
    plan: FaultPlan,
    ghost within: { vec_len bytes ≤ room },
    ghost reserved: { room ≤ vec_capacity bytes },
}

impl MemSink {
    /// An empty sink with this room in bytes, whose calls with the numbers in `fails` fail, counted from 0.
    pub fn new(alloc: Global, room: usize, fails: Vec<u64>) -> Result<MemSink, NoMemory>
        ensures bytes { IfOk result (λ sink. sink.bytes.items ≡ []) }
        ensures room { IfOk result (λ sink. sink.room ≡ room) }
        ensures fails { IfOk result (λ sink. sink.plan.fails ≡ fails) }
        ensures calls { IfOk result (λ sink. sink.plan.calls ≡ 0) }
        ensures faults { IfOk result (λ sink. sink.plan.faults ≡ 0) }
    {
        let bytes = Vec::with_capacity(alloc, room)?;
        Ok(MemSink {
            bytes,
            room,
            plan: FaultPlan::new(fails),
        })
    }

    /// What has been written.
    pub fn bytes(&self) -> &[u8]
        ensures { result.now ≡ self.now.bytes.items }
    {
        self.bytes.as_slice()
    }
}

/// Appends bytes for which there is room.
fn append_within(to: &mut Vec<u8>, bytes: &[u8])
    requires { vec_len to.old + length bytes.now ≤ vec_capacity to.old }
    ensures items { to.new.items ≡ to.old.items ++ bytes.now }
    ensures capacity { vec_capacity to.old ≤ vec_capacity to.new }
{
    match to.extend_from_slice(bytes) {
        Ok(()) => {}
        Err(_) => unreachable!(),
    }
}

impl Sink for MemSink {
    ghost faults = { λ s. s.plan.faults };

    ghost written = { λ s. Some s.bytes.items };

    fn put(&mut self, bytes: &[u8]) -> Put
        ensures counts { self.old.plan.faults ≤ self.new.plan.faults }
        ensures done { result ≡ Put.Done → Some self.new.bytes.items ≡ appended (Some self.old.bytes.items) bytes.now }
        ensures failed { result ≡ Put.Failed → Rose self.old.plan.faults self.new.plan.faults }
        ensures front { result ≡ Put.Failed → AppendsFront (Some self.old.bytes.items) bytes.now (Some self.new.bytes.items) }

        // It fails exactly at the calls that are listed and where the bytes pass the room. Of these it takes what fits.
        ensures exactly { (result ≡ Put.Failed) ↔ IsTrue (is_listed self.old.plan || nat_lt self.old.room (vec_len self.old.bytes + length bytes.now)) }
        ensures fits { IsTrue (is_listed self.old.plan) → self.new.bytes.items ≡ self.old.bytes.items }
        ensures takes { is_listed self.old.plan ≡ false →
            self.new.bytes.items ≡ self.old.bytes.items ++ take (self.old.room - vec_len self.old.bytes) bytes.now }
        ensures room { self.new.room ≡ self.old.room }
        ensures numbered { self.new.plan.calls ≡ next_number self.old.plan.calls }
        // The list of failing calls stays, and the call and its fault are counted.
        ensures planned { self.new.plan ≡ after_call self.old.plan
            (is_listed self.old.plan || nat_lt self.old.room (vec_len self.old.bytes + length bytes.now)) }
    {
        if self.plan.begins_failing_call() {
            self.plan.count_fault();
            return Put::Failed;
        }
        let free = self.room - self.bytes.len();
        if free < bytes.len() {
            append_within(&mut self.bytes, &bytes[..free]);
            self.plan.count_fault();
            return Put::Failed;
        }
        append_within(&mut self.bytes, bytes);
        Put::Done
    }
}

/// A sink over a writer of the standard library. It tells nothing of what the writer holds.
#[derive(Drop)]
pub struct StdSink<W: Write> {
    writer: W,
    faults: u64,
}

impl<W: Write> StdSink<W> {
    pub fn new(writer: W) -> StdSink<W>
        ensures { result.faults ≡ 0 }
    {
        StdSink { writer, faults: 0 }
    }
}

impl<W: Write> Sink for StdSink<W> {
    ghost faults = { λ s. s.faults };

    ghost written = { λ _. None };

    fn put(&mut self, bytes: &[u8]) -> Put {
        if self.writer.write_all(bytes).is_ok() && self.writer.flush().is_ok() {
            return Put::Done;
        }
        self.faults = self.faults.saturating_add(1);
        Put::Failed
    }
}

//! Where input comes from: a trait, a source in memory and a source over any reader.
ghost use Rattle.std.specs.Prelude.{◌≡◌, ℕ, ◌+◌, ◌-◌, ◌^◌, ◌<◌, ◌≤◌, ◌↔◌, Some, None, Option, List, drop, take, length, vec_len, min, IsTrue};
ghost use Rattle.op_base.specs.Outside.{Rose, IsExhausted};
ghost use Rattle.op_base.specs.Got.{Gives};
ghost use Rattle.op_base.specs.FaultPlan.{after_call, is_listed, next_number};

use crate::FaultPlan;
use std::io::{ErrorKind, Read};

/// What a source answers.
#[derive(Clone, Copy, Debug, PartialEq, Eq)]
pub enum Got {
    /// So many bytes were taken, at least one.
    Gave(usize),
    /// Nothing is left.
    End,
    /// The source failed. Nothing was taken.
    Failed,
}

/// Where input comes from.
pub trait Source {
    /// How often the source has failed.
    ghost faults: { Self → ℕ };

    /// What is left, where that is told.
    ghost left: { Self → Option (List ℕ) };

    /// Takes at least one byte and at most as many as `into` has room for, into its front.
    fn take(&mut self, into: &mut [u8]) -> Got
        requires { 0 < length into.old }
        ensures counts { faults self.old ≤ faults self.new }
        ensures gave { Gives result into.new (left self.old) (left self.new) }
        ensures end { result ≡ Got.End → IsExhausted (left self.old) }
        ensures failed { result ≡ Got.Failed → Rose (faults self.old) (faults self.new) };
}

/// A source over bytes in memory, some of whose calls fail.
#[derive(Drop)]
pub struct MemSource {
    bytes: Vec<u8>,
    at: usize,
    plan: FaultPlan,
    ghost within: { at ≤ vec_len bytes },
}

impl MemSource {
    /// A source of these bytes, whose calls with the numbers in `fails` fail, counted from 0.
    pub fn new(bytes: Vec<u8>, fails: Vec<u64>) -> MemSource
        ensures bytes { drop result.at result.bytes.items ≡ bytes.items }
        ensures fails { result.plan.fails ≡ fails }
        ensures calls { result.plan.calls ≡ 0 }
        ensures faults { result.plan.faults ≡ 0 }
    {
        MemSource {
            bytes,
            at: 0,
            plan: FaultPlan::new(fails),
        }
    }
}

/// Copies as much of the front of `from` as both have room for, and answers how much that is.
fn copy_front(into: &mut [u8], from: &[u8]) -> usize
    ensures count { result ≡ min (length into.old) (length from.now) }
    ensures copied { take result into.new ≡ take result from.now }
    ensures len { length into.new ≡ length into.old }
{
    let count = into.len().min(from.len());
    into[..count].copy_from_slice(&from[..count]);
    count
}

impl Source for MemSource {
    ghost faults = { λ s. s.plan.faults };

    ghost left = { λ s. Some (drop s.at s.bytes.items) };

    fn take(&mut self, into: &mut [u8]) -> Got
        requires { 0 < length into.old }
        ensures counts { self.old.plan.faults ≤ self.new.plan.faults }
        ensures gave { Gives result into.new (Some (drop self.old.at self.old.bytes.items))
            (Some (drop self.new.at self.new.bytes.items)) }
        ensures end { result ≡ Got.End → IsExhausted (Some (drop self.old.at self.old.bytes.items)) }
        ensures failed { result ≡ Got.Failed → Rose self.old.plan.faults self.new.plan.faults }

        // It fails exactly at the calls that are listed.
        ensures exactly { (result ≡ Got.Failed) ↔ IsTrue (is_listed self.old.plan) }
        ensures numbered { self.new.plan.calls ≡ next_number self.old.plan.calls }
        // The list of failing calls stays, and the call and its fault are counted.
        ensures planned { self.new.plan ≡ after_call self.old.plan (is_listed self.old.plan) }
    {
        if self.plan.begins_failing_call() {
            self.plan.count_fault();
            return Got::Failed;
        }
        match copy_front(into, &self.bytes[self.at..]) {
            0 => Got::End,
            count => {
                self.at += count;
                Got::Gave(count)
            }
        }
    }
}

/// A source over a reader of the standard library. It tells nothing of what the reader has left.
#[derive(Drop)]
pub struct StdSource<R: Read> {
    reader: R,
    faults: u64,
}

impl<R: Read> StdSource<R> {
    pub fn new(reader: R) -> StdSource<R>
        ensures { result.faults ≡ 0 }
    {
        StdSource { reader, faults: 0 }
    }
}

impl<R: Read> Source for StdSource<R> {
    ghost faults = { λ s. s.faults };

    ghost left = { λ _. None };

    fn take(&mut self, into: &mut [u8]) -> Got {
        for _ in 0..u64::MAX {
            match self.reader.read(into) {
                Ok(0) => return Got::End,
                Ok(count) => return Got::Gave(count),
                Err(error) if error.kind() == ErrorKind::Interrupted => {}
                Err(_) => break,
            }
        }
        self.faults = self.faults.saturating_add(1);
        Got::Failed
    }
}

//! Linear scan: intervals get homes in order of their first positions.
ghost use Rattle.op_regs.specs.Homes.{given as is_given_by};
ghost use Rattle.op_regs.specs.Liveness.{most};
ghost use Rattle.op_regs.specs.Scanning.{AreAllTaken, AreRuns, IsBusy, IsFair, IsFirst, IsNext, count_left, first_of as is_first_of, home_or_first, is_free as has_free, next_at as is_next_at};
ghost use Rattle.std.specs.Prelude.{◌≡◌, ◌<◌, ◌≤◌, IfOk, MatchOption, map, true};

use crate::home::Home;
use crate::interval::Interval;
use crate::table::entry;
use op_base::NoMemory;
use std::alloc::Global;

/// How many registers of the machine are given out.
const MOST: usize = 18;

/// The register of the machine by its number among those that are given out.
fn given(number: usize) -> u8
    requires { number < most }
    ensures { result ≡ is_given_by number }
{
    if number < 3 {
        5 + number as u8
    } else if number == 3 {
        9
    } else {
        14 + number as u8
    }
}

/// A virtual register that has no home yet, with its interval.
#[derive(Clone, Copy)]
struct Next {
    register: usize,
    interval: Interval,
}

/// The one whose interval begins first.
fn first_of(a: Option<Next>, b: Option<Next>) -> Option<Next>
    ensures { result ≡ is_first_of a b }
{
    match a {
        None => b,
        Some(one) => match b {
            None => Some(one),
            Some(other) => {
                if other.interval.first < one.interval.first {
                    Some(other)
                } else {
                    Some(one)
                }
            }
        },
    }
}

/// The homes that virtual registers have got so far, those whose intervals begin first.
#[derive(Drop)]
pub struct Scan {
    /// The interval of each virtual register that is live somewhere.
    spans: Vec<Option<Interval>>,
    /// The home of each that has got one.
    homes: Vec<Option<Home>>,
    /// For each register of the machine that is given out the virtual register that has got it last.
    holders: Vec<Option<usize>>,
    /// How many words of the frame are homes.
    words: u32,
}

impl Scan {
    fn begin(alloc: Global, spans: Vec<Option<Interval>>) -> Result<Scan, NoMemory>
        requires { AreRuns spans.items }
        ensures same { IfOk result (λ scan. scan.spans.items ≡ spans.items) }
        ensures fair { IfOk result IsFair }
    {
        let homes = vec![in alloc; None; spans.len()]?;
        let holders = vec![in alloc; None; MOST]?;
        Ok(Scan {
            spans,
            homes,
            holders,
            words: 0,
        })
    }

    /// What a register wants, if it is live somewhere and has no home yet.
    fn next_at(&self, register: usize) -> Option<Next>
        ensures { result ≡ is_next_at self.now register }
    {
        match entry(self.spans.as_slice(), register) {
            None => None,
            Some(interval) => match entry(self.homes.as_slice(), register) {
                None => Some(Next { register, interval }),
                Some(_) => None,
            },
        }
    }

    /// Of the registers without a home one whose interval begins first.
    fn first(&self) -> Option<Next>
        ensures { IsFirst self.now result }
    {
        let mut first = None;
        for register in 0..self.spans.len() {
            first = first_of(first, self.next_at(register));
        }
        first
    }

    /// Whether what lives in a register of the machine ends before a position.
    fn is_free(&self, number: usize, position: usize) -> bool
        ensures { result ≡ has_free self.now number position }
    {
        match entry(self.holders.as_slice(), number) {
            None => true,
            Some(holder) => match entry(self.spans.as_slice(), holder) {
                None => true,
                Some(interval) => interval.last < position,
            },
        }
    }

    /// A register of the machine that is free from a position on.
    fn free_at(&self, position: usize) -> Option<usize>
        ensures few { MatchOption result (Unit {0}) (λ number. number < most) }
        ensures free { MatchOption result (IsBusy self.now position) (λ number. has_free self.now number position ≡ true) }
    {
        for number in 0..MOST {
            if self.is_free(number, position) {
                return Some(number);
            }
        }
        None
    }

    /// Where what lives in a register of the machine ends.
    fn end_at(&self, number: usize) -> usize {
        match entry(self.holders.as_slice(), number) {
            None => 0,
            Some(holder) => match entry(self.spans.as_slice(), holder) {
                None => 0,
                Some(interval) => interval.last,
            },
        }
    }

    /// The register of the machine in which what lives there ends last.
    fn latest(&self) -> usize
        ensures { result < most }
    {
        let mut latest = 0;
        for number in 1..MOST {
            if self.end_at(latest) < self.end_at(number) {
                latest = number;
            }
        }
        latest
    }

    /// The register gets a register of the machine that is free.
    fn give(&mut self, number: usize, next: Next)
        requires fair { IsFair self.old }
        requires few { number < most }
        requires next { IsNext self.old next }
        requires free { has_free self.old number next.interval.first ≡ true }
        ensures same { self.new.spans.items ≡ self.old.spans.items }
        ensures fair { IsFair self.new }
        ensures fewer { count_left self.new.homes.items < count_left self.old.homes.items }
    {
        self.homes[next.register] = Some(Home::Reg(given(number)));
        self.holders[number] = Some(next.register);
    }

    /// The register gets a word of the frame.
    fn leave(&mut self, next: Next) -> Result<(), NoMemory>
        requires fair { IsFair self.old }
        requires next { IsNext self.old next }
        requires busy { IsBusy self.old next.interval.first }
        ensures same { IfOk result (λ _. self.new.spans.items ≡ self.old.spans.items) }
        ensures fair { IfOk result (λ _. IsFair self.new) }
        ensures fewer { IfOk result (λ _. count_left self.new.homes.items < count_left self.old.homes.items) }
    {
        if self.words == u32::MAX {
            return Err(NoMemory);
        }
        self.homes[next.register] = Some(Home::Frame(self.words));
        self.words += 1;
        Ok(())
    }

    /// What lives in a register of the machine gets a word of the frame in its place.
    fn evict(&mut self, number: usize, next: Next) -> Result<(), NoMemory>
        requires fair { IsFair self.old }
        requires few { number < most }
        requires next { IsNext self.old next }
        requires busy { IsBusy self.old next.interval.first }
        ensures same { IfOk result (λ _. self.new.spans.items ≡ self.old.spans.items) }
        ensures fair { IfOk result (λ _. IsFair self.new) }
        ensures next { IfOk result (λ _. IsNext self.new next) }
        ensures free { IfOk result (λ _. has_free self.new number next.interval.first ≡ true) }
        ensures no_more { IfOk result (λ _. count_left self.new.homes.items ≤ count_left self.old.homes.items) }
    {
        let Some(holder) = entry(self.holders.as_slice(), number) else {
            return Ok(());
        };
        if self.words == u32::MAX {
            return Err(NoMemory);
        }
        self.homes[holder] = Some(Home::Frame(self.words));
        self.holders[number] = None;
        self.words += 1;
        Ok(())
    }

    /// The register gets a home. Where no register of the machine is free, the interval that ends last goes to the frame.
    fn take(&mut self, next: Next) -> Result<(), NoMemory>
        requires fair { IsFair self.old }
        requires next { IsNext self.old next }
        ensures same { IfOk result (λ _. self.new.spans.items ≡ self.old.spans.items) }
        ensures fair { IfOk result (λ _. IsFair self.new) }
        ensures fewer { IfOk result (λ _. count_left self.new.homes.items < count_left self.old.homes.items) }
    {
        if let Some(number) = self.free_at(next.interval.first) {
            self.give(number, next);
            return Ok(());
        }
        let number = self.latest();
        if self.end_at(number) <= next.interval.last {
            return self.leave(next);
        }
        self.evict(number, next)?;
        self.give(number, next);
        Ok(())
    }

    /// A home for each register that is live somewhere.
    pub fn of(alloc: Global, spans: Vec<Option<Interval>>) -> Result<Scan, NoMemory>
        requires { AreRuns spans.items }
        ensures same { IfOk result (λ scan. scan.spans.items ≡ spans.items) }
        ensures fair { IfOk result IsFair }
        ensures all { IfOk result AreAllTaken }
    {
        let mut scan = Scan::begin(alloc, spans)?;
        while let Some(next) = scan.first() {
            scan.take(next)?;
        }
        Ok(scan)
    }

    /// The homes of all registers, one that is live nowhere in the first register of the machine.
    pub fn homes(&self, alloc: Global) -> Result<Vec<Home>, NoMemory>
        ensures { IfOk result (λ homes. homes.items ≡ map home_or_first self.now.homes.items) }
    {
        let mut homes = Vec::new(alloc);
        for home in self.homes.as_slice() {
            homes.push(home.unwrap_or(Home::Reg(given(0))))?;
        }
        Ok(homes)
    }
}

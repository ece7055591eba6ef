//! The code of a block with fewer instructions.
ghost use Rattle.op_optimize.specs.Simplifying.{and_fact, contents_behind, destination, facts_behind, last_written, left_out, may_go, may_lose, may_write, or_nothing, serves_by, simplified, stays_as};
ghost use Rattle.std.specs.Prelude.{◌≡◌, [], IfOk, Some};

use crate::fact::{Fact, Known, Value, behind_write, known_behind, mentions, with_fact, without};
use crate::liveness::{is_dead, is_live_beyond};
use crate::rewriting::rewritten;
use crate::value::value_behind;
use crate::worth::serves;
use op_base::{NoMemory, Sequence};
use op_low::{Instruction, VirtualRegister, same, target};
use std::alloc::Global;

/// How a block is gone through.
#[derive(Clone, Copy)]
pub struct Way {
    /// Whether instructions are left out; else all stay.
    pub thorough: bool,
    /// A register that the routine has not.
    pub nothing: VirtualRegister,
}

/// How many facts there are at most where one more comes.
const MOST_FACTS: usize = 12;

// ---- an instruction that is left out

fn served(
    live: &[u64],
    way: Way,
    facts: &[Fact],
    to: VirtualRegister,
    behind: &[Instruction],
    value: Option<Value>,
) -> Option<Value>
    ensures { result ≡ serves_by live.now way facts.now to behind.now value }
{
    let value = value?;
    if facts.len() < MOST_FACTS && serves(live, way.nothing, to, value, behind) {
        Some(value)
    } else {
        None
    }
}

/// The value that the register of an instruction would have that is left out.
#[tactic(auto, unfolding(crate::specs::Simplifying::left_out))]
fn left_out(
    live: &[u64],
    way: Way,
    facts: &[Fact],
    known: &[Known],
    instruction: &Instruction,
    behind: &[Instruction],
) -> Option<Value>
    ensures { result ≡ left_out live.now way facts.now known.now instruction.now behind.now }
{
    if !way.thorough {
        return None;
    }
    match target(instruction) {
        None => None,
        Some(to) => {
            let value = value_behind(facts, known, way.nothing, to, instruction);
            served(live, way, facts, to, behind, value)
        }
    }
}

fn and_fact(
    alloc: Global,
    facts: Vec<Fact>,
    to: Option<VirtualRegister>,
    value: Value,
) -> Result<Vec<Fact>, NoMemory>
    ensures { IfOk result (λ made. made.items ≡ and_fact facts.items to (Some value)) }
{
    match to {
        None => Ok(facts),
        Some(to) => with_fact(alloc, facts.as_slice(), to, value),
    }
}

// ---- an instruction that stays

/// The register that is written: where the value is moved next, and not read behind that, the one to which it is moved.
#[tactic(auto, unfolding(crate::specs::Simplifying::destination))]
fn destination(
    live: &[u64],
    way: Way,
    behind: &[Instruction],
    to: VirtualRegister,
) -> VirtualRegister
    ensures { result ≡ destination live.now way behind.now to }
{
    let Some((next, rest)) = behind.split_first() else {
        return to;
    };
    match next {
        Instruction::Move { to: last, from } => {
            if way.thorough && same(*from, to) && !same(*last, to) && is_dead(live, rest, to) {
                *last
            } else {
                to
            }
        }
        _ => to,
    }
}

fn last_written(
    live: &[u64],
    way: Way,
    behind: &[Instruction],
    to: Option<VirtualRegister>,
) -> Option<VirtualRegister>
    ensures { result ≡ last_written live.now way behind.now to }
{
    match to {
        None => None,
        Some(to) => Some(destination(live, way, behind, to)),
    }
}

/// Whether no block at which an instruction may go on reads what the better code has not written.
#[tactic(auto, unfolding(crate::specs::Simplifying::may_go))]
fn may_go(live: &[u64], facts: &[Fact], instruction: &Instruction) -> bool
    ensures { result ≡ may_go live.now facts.now instruction.now }
{
    facts
        .iter()
        .all(|fact| !is_live_beyond(live, instruction, fact.register))
}

/// Whether no fact that is lost where a register is written is needed.
#[tactic(auto, unfolding(crate::specs::Simplifying::may_lose))]
fn may_lose(live: &[u64], facts: &[Fact], behind: &[Instruction], register: VirtualRegister) -> bool
    ensures { result ≡ may_lose live.now facts.now behind.now register }
{
    facts.iter().all(|fact| {
        same(fact.register, register)
            || !mentions(fact.value, register)
            || is_dead(live, behind, fact.register)
    })
}

#[tactic(auto, unfolding(crate::specs::Simplifying::may_write))]
fn may_write(
    alloc: Global,
    live: &[u64],
    way: Way,
    facts: &[Fact],
    behind: &[Instruction],
    to: Option<VirtualRegister>,
) -> Result<bool, NoMemory>
    ensures { IfOk result (λ may. may ≡ may_write live.now way facts.now behind.now to) }
{
    match to {
        None => Ok(true),
        Some(to) => {
            let last = destination(live, way, behind, to);
            let others = without(alloc, facts, to)?;
            Ok(!same(last, way.nothing) && may_lose(live, others.as_slice(), behind, last))
        }
    }
}

#[tactic(auto, unfolding(crate::specs::Simplifying::facts_behind))]
fn facts_behind(
    alloc: Global,
    live: &[u64],
    way: Way,
    facts: Vec<Fact>,
    behind: &[Instruction],
    to: Option<VirtualRegister>,
) -> Result<Vec<Fact>, NoMemory>
    ensures { IfOk result (λ made. made.items ≡ facts_behind live.now way facts.items behind.now to) }
{
    match to {
        None => Ok(facts),
        Some(to) => {
            let last = destination(live, way, behind, to);
            let others = without(alloc, facts.as_slice(), to)?;
            let kept = behind_write(alloc, others.as_slice(), last)?;
            with_fact(alloc, kept.as_slice(), to, Value::Copy { of: last })
        }
    }
}

#[tactic(auto, unfolding(crate::specs::Simplifying::contents_behind))]
fn contents_behind(
    alloc: Global,
    live: &[u64],
    way: Way,
    known: Vec<Known>,
    instruction: &Instruction,
    behind: &[Instruction],
) -> Result<Vec<Known>, NoMemory>
    ensures { IfOk result (λ made. made.items ≡ contents_behind live.now way known.items instruction.now behind.now) }
{
    match last_written(live, way, behind, target(instruction)) {
        None => Ok(known),
        Some(last) => known_behind(alloc, known.as_slice(), last, instruction),
    }
}

fn or_nothing(way: Way, to: Option<VirtualRegister>) -> VirtualRegister
    ensures { result ≡ or_nothing way to }
{
    match to {
        None => way.nothing,
        Some(to) => to,
    }
}

#[tactic(auto, unfolding(crate::specs::Simplifying::stays_as))]
fn stays_as(
    alloc: Global,
    live: &[u64],
    way: Way,
    facts: &[Fact],
    instruction: &Instruction,
    behind: &[Instruction],
) -> Result<Option<Instruction>, NoMemory>
    ensures { IfOk result (λ made. made ≡ stays_as live.now way facts.now instruction.now behind.now) }
{
    let to = target(instruction);
    let is_right = may_write(alloc, live, way, facts, behind, to)?;
    if !may_go(live, facts, instruction) || !is_right {
        return Ok(None);
    }
    let last = or_nothing(way, last_written(live, way, behind, to));
    rewritten(alloc, facts, way.nothing, last, instruction)
}

// ---- code

/// The better code for code, or None where it has to stay.
pub fn simplified(
    alloc: Global,
    live: &[u64],
    way: Way,
    code: &[Instruction],
) -> Result<Option<Sequence<Instruction>>, NoMemory>
    ensures { IfOk result (λ made. made ≡ simplified live.now way [] [] code.now) }
{
    let mut made = Vec::new(alloc);
    let mut facts = Vec::new(alloc);
    let mut known = Vec::new(alloc);
    let mut rest = code;
    while let Some((instruction, behind)) = rest.split_first() {
        rest = behind;
        let value = left_out(
            live,
            way,
            facts.as_slice(),
            known.as_slice(),
            instruction,
            behind,
        );
        if let Some(value) = value {
            facts = and_fact(alloc, facts, target(instruction), value)?;
        } else {
            match stays_as(alloc, live, way, facts.as_slice(), instruction, behind)? {
                None => return Ok(None),
                Some(better) => made.push(better)?,
            }
            facts = facts_behind(alloc, live, way, facts, behind, target(instruction))?;
            known = contents_behind(alloc, live, way, known, instruction, behind)?;
        }
    }
    made.shrink_to_fit();
    Ok(Some(Sequence::from(made)))
}

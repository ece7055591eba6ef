//! What is known of registers while the code of a block is gone through.
ghost use Rattle.op_optimize.specs.Contents.{content_of, has_already, is_content, is_known, known_behind, others, same_content, same_symbol};
ghost use Rattle.op_optimize.specs.Facts.{behind_write, is_copy_of, look_up, mentions, source, source_by, value_in, with_fact, without};
ghost use Rattle.std.specs.Prelude.{◌≡◌, ◌++◌, IfOk, OnOk};
ghost use Rattle.std.specs.List.{list_any};

use op_base::NoMemory;
use op_low::{Instruction, VirtualRegister, is_either, same};
use op_rv::{BranchOp, Symbol};
use std::alloc::Global;

/// A number, over the registers of the better code.
#[derive(Clone, Copy)]
pub enum Value {
    Copy {
        of: VirtualRegister,
    },
    Number {
        value: u32,
    },
    /// Their exclusive or.
    Difference {
        left: VirtualRegister,
        right: VirtualRegister,
    },
    /// 1 where the comparison holds, and else 0.
    Truth {
        op: BranchOp,
        left: VirtualRegister,
        right: VirtualRegister,
    },
}

/// A register that the better code has not written, and what it would have.
#[derive(Clone, Copy)]
pub struct Fact {
    pub register: VirtualRegister,
    pub value: Value,
}

/// What was put in a register.
#[derive(Clone, Copy)]
pub enum Content {
    Number { value: u32 },
    Place { symbol: Symbol },
}

/// A register of the better code, and what it has.
#[derive(Clone, Copy)]
pub struct Known {
    pub register: VirtualRegister,
    pub content: Content,
}

// ---- values

#[tactic(auto, unfolding(crate::specs::Facts::look_up))]
fn look_up(facts: &[Fact], register: VirtualRegister) -> Option<Value>
    ensures { result ≡ look_up facts.now register }
{
    for fact in facts {
        if same(fact.register, register) {
            return Some(fact.value);
        }
    }
    None
}

/// The value of a register. One without a fact has its own.
#[tactic(auto, unfolding(crate::specs::Facts::value_in))]
pub fn value_in(facts: &[Fact], register: VirtualRegister) -> Value
    ensures { result ≡ value_in facts.now register }
{
    match look_up(facts, register) {
        None => Value::Copy { of: register },
        Some(value) => value,
    }
}

fn source_of(nothing: VirtualRegister, value: Value) -> Option<VirtualRegister>
    ensures { result ≡ source_by nothing value }
{
    match value {
        Value::Copy { of } => Some(of),
        Value::Number { value } => { if value == 0 { Some(nothing) } else { None } }
        Value::Difference { .. } => None,
        Value::Truth { .. } => None,
    }
}

/// The register of the better code that has the value of a register; `nothing` has 0.
#[tactic(auto, unfolding(crate::specs::Facts::source))]
pub fn source(
    facts: &[Fact],
    nothing: VirtualRegister,
    register: VirtualRegister,
) -> Option<VirtualRegister>
    ensures { result ≡ source facts.now nothing register }
{
    source_of(nothing, value_in(facts, register))
}

#[tactic(auto, unfolding(crate::specs::Facts::mentions))]
pub fn mentions(value: Value, register: VirtualRegister) -> bool
    ensures { result ≡ mentions value register }
{
    match value {
        Value::Copy { of } => same(of, register),
        Value::Number { .. } => false,
        Value::Difference { left, right } => is_either(left, right, register),
        Value::Truth { left, right, .. } => is_either(left, right, register),
    }
}

#[tactic(auto, unfolding(crate::specs::Facts::is_copy_of))]
fn is_copy_of(value: Value, register: VirtualRegister) -> bool
    ensures { result ≡ is_copy_of value register }
{
    match value {
        Value::Copy { of } => same(of, register),
        _ => false,
    }
}

// ---- facts that change

/// The facts but for that of a register.
#[tactic(auto, unfolding(crate::specs::Facts::without))]
pub fn without(
    alloc: Global,
    facts: &[Fact],
    register: VirtualRegister,
) -> Result<Vec<Fact>, NoMemory>
    ensures { IfOk result (λ kept. kept.items ≡ without facts.now register) }
{
    let mut kept = Vec::new(alloc);
    for fact in facts {
        if !same(fact.register, register) {
            kept.push(*fact)?;
        }
    }
    Ok(kept)
}

/// A register would have this value.
#[tactic(auto, unfolding(crate::specs::Facts::with_fact))]
pub fn with_fact(
    alloc: Global,
    facts: &[Fact],
    register: VirtualRegister,
    value: Value,
) -> Result<Vec<Fact>, NoMemory>
    ensures { IfOk result (λ kept. kept.items ≡ with_fact facts.now register value) }
{
    let mut kept = without(alloc, facts, register)?;
    if is_copy_of(value, register) {
        return Ok(kept);
    }
    kept.push(Fact { register, value })?;
    Ok(kept)
}

/// The facts that stay where the better code writes a register.
#[tactic(auto, unfolding(crate::specs::Facts::behind_write))]
pub fn behind_write(
    alloc: Global,
    facts: &[Fact],
    register: VirtualRegister,
) -> Result<Vec<Fact>, NoMemory>
    ensures { IfOk result (λ kept. kept.items ≡ behind_write facts.now register) }
{
    let mut kept = Vec::new(alloc);
    for fact in facts {
        if !same(fact.register, register) && !mentions(fact.value, register) {
            kept.push(*fact)?;
        }
    }
    Ok(kept)
}

// ---- contents

#[tactic(auto, unfolding(crate::specs::Contents::content_of))]
fn content_of(instruction: &Instruction) -> Option<Content>
    ensures { result ≡ content_of instruction.now }
{
    match instruction {
        Instruction::Const { value, .. } => Some(Content::Number { value: *value }),
        Instruction::Address { symbol, .. } => Some(Content::Place { symbol: *symbol }),
        _ => None,
    }
}

#[tactic(auto, unfolding(crate::specs::Contents::same_symbol))]
fn same_symbol(a: Symbol, b: Symbol) -> bool
    ensures { result ≡ same_symbol a b }
{
    match a {
        Symbol::Literal(a) => match b {
            Symbol::Literal(b) => a.0 == b.0,
            _ => false,
        },
        Symbol::Global(a) => match b {
            Symbol::Global(b) => a.0 == b.0,
            _ => false,
        },
        _ => false,
    }
}

#[tactic(auto, unfolding(crate::specs::Contents::same_content))]
fn same_content(a: Content, b: Content) -> bool
    ensures { result ≡ same_content a b }
{
    match a {
        Content::Number { value } => match b {
            Content::Number { value: other } => value == other,
            Content::Place { .. } => false,
        },
        Content::Place { symbol } => match b {
            Content::Number { .. } => false,
            Content::Place { symbol: other } => same_symbol(symbol, other),
        },
    }
}

fn is_content(it: Known, register: VirtualRegister, content: Content) -> bool
    ensures { result ≡ is_content register content it }
{
    same(it.register, register) && same_content(it.content, content)
}

fn is_among(known: &[Known], register: VirtualRegister, content: Content) -> bool
    ensures { result ≡ list_any (is_content register content) known.now }
{
    known.iter().any(|it| is_content(*it, register, content))
}

fn is_known(known: &[Known], register: VirtualRegister, content: Option<Content>) -> bool
    ensures { result ≡ is_known known.now register content }
{
    match content {
        None => false,
        Some(content) => is_among(known, register, content),
    }
}

/// Whether a register has what an instruction puts there.
#[tactic(auto, unfolding(crate::specs::Contents::has_already))]
pub fn has_already(known: &[Known], register: VirtualRegister, instruction: &Instruction) -> bool
    ensures { result ≡ has_already known.now register instruction.now }
{
    is_known(known, register, content_of(instruction))
}

/// How many contents are kept, beside a new one.
const MOST_KNOWN: usize = 12;

#[tactic(auto, unfolding(crate::specs::Contents::others))]
fn push_others(
    kept: &mut Vec<Known>,
    known: &[Known],
    register: VirtualRegister,
) -> Result<(), NoMemory>
    ensures { OnOk result (kept.new.items ≡ kept.old.items ++ others known.now register) }
{
    for it in known {
        if !same(it.register, register) {
            kept.push(*it)?;
        }
    }
    Ok(())
}

/// What is known behind an instruction that writes a register.
#[tactic(auto, unfolding(crate::specs::Contents::known_behind))]
pub fn known_behind(
    alloc: Global,
    known: &[Known],
    register: VirtualRegister,
    instruction: &Instruction,
) -> Result<Vec<Known>, NoMemory>
    ensures { IfOk result (λ kept. kept.items ≡ known_behind known.now register instruction.now) }
{
    let mut kept = Vec::new(alloc);
    if let Some(content) = content_of(instruction) {
        kept.push(Known { register, content })?;
    }
    let end = if known.len() < MOST_KNOWN {
        known.len()
    } else {
        MOST_KNOWN
    };
    push_others(&mut kept, &known[..end], register)?;
    Ok(kept)
}

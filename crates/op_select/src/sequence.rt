//! Short sequences of instructions. Each function appends one; after an error the list is of no use.
ghost use Rattle.std.specs.Prelude.{◌≡◌, ◌+◌, ◌<◌, ◌^◌, ◌∷◌, ◌++◌, [], IfOk, OnOk, if◌then◌else◌, pos};
ghost use Rattle.op_select.specs.Sequences.{below, constant, is_near, lower_of, reach, reached, small, sum, upper_of, word_load, word_store};

use crate::registers::X0;
use op_rv::{AluOp, ImmOp, Instr, Item, LoadOp, StoreOp};
use std::alloc::AllocError;

/// What lui sets of a word: its upper 20 bits, rounded.
#[tactic(auto, unfolding(crate::specs::Sequences::upper_of))]
pub fn upper(word: u32) -> u32
    ensures { result ≡ upper_of word }
{
    word.wrapping_add(1 << 11) / (1 << 12)
}

/// What is left of it for an immediate.
#[tactic(auto, unfolding(crate::specs::Sequences::lower_of))]
pub fn lower(word: u32) -> i32
    ensures { result ≡ lower_of word }
{
    (word.wrapping_add(1 << 11) % (1 << 12)) as i32 - (1 << 11)
}

/// Whether the word fits an immediate.
#[tactic(auto, unfolding(crate::specs::Sequences::is_near))]
pub fn near(word: u32) -> bool
    ensures { result ≡ is_near word }
{
    upper(word) == 0
}

/// The distance of what lies so many bytes down.
#[tactic(auto, unfolding(crate::specs::Sequences::below))]
pub fn down(bytes: u32) -> u32
    ensures { result ≡ below bytes }
{
    0u32.wrapping_sub(bytes)
}

pub fn push_item(items: &mut Vec<Item>, item: Item) -> Result<(), AllocError>
    ensures { OnOk result (items.new.items ≡ items.old.items ++ item ∷ []) }
{
    items.push(item)?;
    Ok(())
}

pub fn push(items: &mut Vec<Item>, instr: Instr) -> Result<(), AllocError>
    ensures { OnOk result (items.new.items ≡ items.old.items ++ Item.Plain instr ∷ []) }
{
    push_item(items, Item::Plain(instr))
}

pub fn push_add_immediate(
    items: &mut Vec<Item>,
    to: u8,
    from: u8,
    imm: i32,
) -> Result<(), AllocError>
    ensures { OnOk result (items.new.items ≡ items.old.items ++ Item.Plain (Instr.Imm ImmOp.Addi to from imm) ∷ []) }
{
    push(
        items,
        Instr::Imm {
            op: ImmOp::Addi,
            rd: to,
            rs1: from,
            imm,
        },
    )
}

/// A register becomes a number from 0 to 2,047.
pub fn push_small(items: &mut Vec<Item>, to: u8, n: u8) -> Result<(), AllocError>
    ensures { OnOk result (items.new.items ≡ items.old.items ++ small to n) }
{
    push_add_immediate(items, to, X0, n as i32)
}

fn push_upper(items: &mut Vec<Item>, to: u8, word: u32) -> Result<(), AllocError>
    ensures { OnOk result (items.new.items ≡ items.old.items ++ Item.Plain (Instr.Lui to (upper_of word)) ∷ []) }
{
    push(
        items,
        Instr::Lui {
            rd: to,
            upper: upper(word),
        },
    )
}

fn push_lower(items: &mut Vec<Item>, to: u8, from: u8, word: u32) -> Result<(), AllocError>
    ensures { OnOk result (items.new.items ≡ items.old.items ++ Item.Plain (Instr.Imm ImmOp.Addi to from (lower_of word)) ∷ []) }
{
    push_add_immediate(items, to, from, lower(word))
}

/// A register becomes a word.
#[tactic(auto, unfolding(crate::specs::Sequences::constant))]
pub fn push_constant(items: &mut Vec<Item>, to: u8, word: u32) -> Result<(), AllocError>
    ensures { OnOk result (items.new.items ≡ items.old.items ++ constant to word) }
{
    if near(word) {
        return push_lower(items, to, X0, word);
    }
    push_upper(items, to, word)?;
    push_lower(items, to, to, word)
}

/// Reaches the place at a distance from `base`; the answer is the register that the lower part is to be added to.
#[tactic(auto, unfolding(crate::specs::Sequences::reach, crate::specs::Sequences::reached))]
fn push_reach(items: &mut Vec<Item>, base: u8, via: u8, distance: u32) -> Result<u8, AllocError>
    ensures items { OnOk result (items.new.items ≡ items.old.items ++ reach base via distance) }
    ensures register { IfOk result (λ r. r ≡ reached base via distance) }
{
    if near(distance) {
        return Ok(base);
    }
    push_upper(items, via, distance)?;
    push(
        items,
        Instr::Alu {
            op: AluOp::Add,
            rd: via,
            rs1: via,
            rs2: base,
        },
    )?;
    Ok(via)
}

/// A register becomes the sum of another one and a word.
#[tactic(auto, unfolding(crate::specs::Sequences::sum))]
pub fn push_sum(
    items: &mut Vec<Item>,
    to: u8,
    base: u8,
    via: u8,
    word: u32,
) -> Result<(), AllocError>
    ensures { OnOk result (items.new.items ≡ items.old.items ++ sum to base via word) }
{
    let from = push_reach(items, base, via, word)?;
    push_lower(items, to, from, word)
}

/// A register becomes the word of memory at a distance from another one.
#[tactic(auto, unfolding(crate::specs::Sequences::word_load))]
pub fn push_load(
    items: &mut Vec<Item>,
    to: u8,
    base: u8,
    via: u8,
    distance: u32,
) -> Result<(), AllocError>
    ensures { OnOk result (items.new.items ≡ items.old.items ++ word_load to base via distance) }
{
    let from = push_reach(items, base, via, distance)?;
    push(
        items,
        Instr::Load {
            op: LoadOp::Lw,
            rd: to,
            rs1: from,
            offset: lower(distance),
        },
    )
}

/// The word of memory at a distance from a register becomes `value`.
#[tactic(auto, unfolding(crate::specs::Sequences::word_store))]
pub fn push_store(
    items: &mut Vec<Item>,
    value: u8,
    base: u8,
    via: u8,
    distance: u32,
) -> Result<(), AllocError>
    ensures { OnOk result (items.new.items ≡ items.old.items ++ word_store value base via distance) }
{
    let from = push_reach(items, base, via, distance)?;
    push(
        items,
        Instr::Store {
            op: StoreOp::Sw,
            rs1: from,
            rs2: value,
            offset: lower(distance),
        },
    )
}

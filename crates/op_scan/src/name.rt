//! Identifiers and reserved words (Free Pascal Reference Guide, "Identifiers" and "Reserved words").
ghost use Rattle.std.specs.Prelude.{◌≡◌, IfOk};
ghost use Rattle.op_scan.specs.Class.{class_at};
ghost use Rattle.op_scan.specs.Item.{IsFront, a_name, effect_of};
ghost use Rattle.op_scan.specs.declared.class.Class.TheVariants as class;

use crate::byte::{ByteKind, run_length};
use crate::effect::{Effect, Front, LONG_IDENTIFIER};
use crate::keyword::keyword;
use crate::{CompactText, Switches, TokenKind};
use op_base::NoMemory;
use std::alloc::Global;

/// The greatest length of an identifier.
const LONGEST: usize = 127;

fn effect_of_name(alloc: Global, word: &[u8], switches: Switches) -> Result<Effect, NoMemory>
    ensures { IfOk result (λ effect. effect ≡ effect_of switches (a_name word.now)) }
{
    if LONGEST < word.len() {
        return Ok(Effect::Breaks(LONG_IDENTIFIER));
    }
    if let Some(kind) = keyword(word) {
        return Ok(Effect::Gives(kind));
    }
    let name = CompactText::copy_of(alloc, word)?;
    Ok(Effect::Gives(TokenKind::Identifier(name)))
}

/// The identifier or reserved word at the front.
pub fn name(alloc: Global, bytes: &[u8], switches: Switches) -> Result<Front, NoMemory>
    requires { class_at bytes.now ≡ class.Name }
    ensures { IfOk result (λ front. IsFront switches bytes.now front.length front.effect) }
{
    let length = run_length(ByteKind::NameByte, bytes);
    let (word, _) = bytes.split_at(length);
    let effect = effect_of_name(alloc, word, switches)?;
    Ok(Front { length, effect })
}

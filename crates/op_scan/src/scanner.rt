//! From bytes to tokens.
ghost use Rattle.std.specs.Prelude.{◌≡◌, ◌≤◌, ◌^◌, IfErr, IfOk, length, drop};
ghost use Rattle.op_scan.specs.Item.{IsFront};
ghost use Rattle.op_scan.specs.Scan.{Answers, IsAnswer, IsOutcome, Outcome, RefusalHasText, mark_length};

use crate::class::{Class, class_at};
use crate::comment::{comment, line_comment};
use crate::effect::{Effect, Front};
use crate::name::name;
use crate::number::number;
use crate::place::place_behind;
use crate::string::string;
use crate::symbol::symbol;
use crate::{ScanError, Switches, Token, TokenList, Tokens};
use op_base::{NoMemory, Place, Refusal, Span};
use std::alloc::Global;

/// What stands at the front of the bytes, where these switches hold.
fn front(alloc: Global, bytes: &[u8], switches: Switches) -> Result<Front, NoMemory>
    ensures { IfOk result (λ front. IsFront switches bytes.now front.length front.effect) }
{
    match class_at(bytes) {
        Class::Name => name(alloc, bytes, switches),
        Class::Blank => Ok(Front {
            length: 1,
            effect: Effect::Passes(switches),
        }),
        Class::Number(base) => Ok(number(base, bytes, switches)),
        Class::Comment(marks) => comment(alloc, marks, bytes, switches),
        Class::LineComment => Ok(line_comment(bytes, switches)),
        Class::String => string(alloc, bytes, switches),
        Class::Symbol => Ok(symbol(bytes, switches)),
    }
}

/// The bytes behind a byte order mark at the front, if there is one.
#[tactic(auto, unfolding(crate::specs::Scan::mark_length))]
fn without_mark(bytes: &[u8]) -> &[u8]
    ensures text { result.now ≡ drop (mark_length bytes.now) bytes.now }
    ensures mark { mark_length bytes.now ≤ length bytes.now }
{
    if bytes.starts_with(b"\xEF\xBB\xBF") {
        &bytes[3..]
    } else {
        bytes
    }
}

/// The tokens of a text, the file with this number in the order of reading, or the first rule of spelling that it breaks.
///
/// A text is a run of blanks, comments, directives and words; the longest word is taken at each place (Free Pascal
/// Reference Guide, chapter "Pascal Tokens"). `Refused` tells the first rule that is broken, by place: 1 to 8, 65, 66, or
/// 13 with feature 23. `NoMemory` comes where the allocator has no room.
pub fn scan(alloc: Global, bytes: &[u8], file: u32) -> Result<Tokens, ScanError>
    requires { length bytes.now ≤ 2 ^ 31 }
    // The tokens that stand for the bytes, or the first rule that they break and its place.
    ensures answer { Answers file bytes.now result }
    // No other tokens stand for them, and no other refusal is the first.
    ensures only { (outcome : Outcome) → IsOutcome file bytes.now outcome → IsAnswer outcome result }
    // What is refused breaks a rule that has a text.
    ensures told { IfErr result RefusalHasText }
{
    let mut tokens = Vec::new(alloc);
    let mut rest = without_mark(bytes);
    let mut first = (bytes.len() - rest.len()) as u32;
    let mut switches = Switches::OFF;
    let mut place = Place {
        file,
        line: 1,
        col: 1,
    };
    while !rest.is_empty() {
        let Front { length, effect } = front(alloc, rest, switches)?;
        let (piece, after) = rest.split_at(length);
        let past = first + length as u32;
        match effect {
            Effect::Breaks(rule) => return Err(ScanError::Refused(Refusal { rule, place })),
            Effect::Passes(next) => switches = next,
            Effect::Gives(kind) => tokens.push(Token {
                kind,
                span: Span { first, past },
                place,
                switches,
            })?,
        }
        place = place_behind(place, piece);
        first = past;
        rest = after;
    }
    Ok(Tokens {
        list: TokenList::from(tokens),
        end: place,
    })
}

//! Single tokens.
ghost use Rattle.std.specs.Prelude.{◌≡◌, ℕ, ◌<◌, IfOk, IfErr, length};
ghost use Rattle.op_parse_code.specs.Opening.{is_identifier, is_number, is_word, spelled};
ghost use Rattle.op_parse_code.specs.Refusal.{Refuses};
ghost use Rattle.op_parse_code.specs.Whole.{SomeName};
ghost use Rattle.op_tree.specs.NameGrammar.{IsName};
ghost use Rattle.op_tree.specs.Terminal.{terminal_of, terminals};

use crate::ParseError;
use crate::error::syntax;
use op_base::{NoMemory, Place};
use op_scan::{CompactText, Token, TokenKind};
use op_tree::{Name, Position};
use std::alloc::Global;

pub fn position_of(token: &Token) -> Position
    ensures { result ≡ (terminal_of token.now).position }
{
    Position {
        place: token.place,
        switches: token.switches,
    }
}

/// The letters of an identifier or a string, and none of any other token. Those of a long one are shared.
pub fn spelled(alloc: Global, kind: &TokenKind) -> Result<CompactText, NoMemory>
    ensures { IfOk result (λ text. text ≡ spelled kind.now) }
{
    match kind {
        TokenKind::Identifier(text) => text.share(),
        TokenKind::CharacterString(text) => text.share(),
        _ => CompactText::copy_of(alloc, b""),
    }
}

/// The identifier with which the tokens must begin, and the tokens behind it.
pub fn name<'a>(
    alloc: Global,
    end: Place,
    tokens: &'a [Token],
) -> Result<(Name, &'a [Token]), ParseError>
    ensures name { IfOk result (λ f. IsName f.0 (terminals tokens.now) (terminals f.1.now)) }
    ensures refused { IfErr result (λ e. (d : ℕ) → Refuses SomeName d end (terminals tokens.now) e) }
    ensures shorter { IfOk result (λ f. length f.1.now < length tokens.now) }
{
    let Some((first, rest)) = tokens.split_first() else {
        return Err(syntax(end, tokens));
    };
    if !is_identifier(&first.kind) {
        return Err(syntax(end, tokens));
    }
    let text = spelled(alloc, &first.kind)?;
    let position = position_of(first);
    Ok((Name { text, position }, rest))
}

pub fn is_identifier(kind: &TokenKind) -> bool
    ensures { result ≡ is_identifier kind.now }
{
    matches!(kind, TokenKind::Identifier(_))
}

pub fn is_number(kind: &TokenKind) -> bool
    ensures { result ≡ is_number kind.now }
{
    matches!(kind, TokenKind::Number(_))
}

/// The token is an identifier that is spelled like this word, in any case of letters.
pub fn is_word(word: &[u8], kind: &TokenKind) -> bool
    ensures { result ≡ is_word word.now kind.now }
{
    match kind {
        TokenKind::Identifier(text) => text.as_slice().eq_ignore_ascii_case(word),
        _ => false,
    }
}

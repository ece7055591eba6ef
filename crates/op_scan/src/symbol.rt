//! Symbols (Free Pascal Reference Guide, "Symbols").
ghost use Rattle.std.specs.Prelude.{◌≡◌, ◌∷◌, [], take};
ghost use Rattle.op_scan.specs.Class.{class_at};
ghost use Rattle.op_scan.specs.Item.{IsFront};
ghost use Rattle.op_scan.specs.Keyword.{kind_beside};
ghost use Rattle.op_scan.specs.Symbol.{symbols_of_one, symbols_of_two};
ghost use Rattle.op_scan.specs.declared.class.Class.TheVariants as class;

use crate::effect::{Effect, Front, NO_TOKEN};
use crate::{Switches, TokenKind};

/// The symbol that the first two bytes are, if they are one.
fn symbol_of_two(bytes: &[u8]) -> Option<TokenKind>
    ensures { result ≡ kind_beside (take 2 bytes.now) symbols_of_two }
{
    let (spelling, _) = bytes.split_at(bytes.len().min(2));
    if spelling == b"<=".as_slice() {
        return Some(TokenKind::LessEqual);
    }
    if spelling == b">=".as_slice() {
        return Some(TokenKind::GreaterEqual);
    }
    if spelling == b"<>".as_slice() {
        return Some(TokenKind::NotEqual);
    }
    if spelling == b":=".as_slice() {
        return Some(TokenKind::Assign);
    }
    if spelling == b"..".as_slice() {
        return Some(TokenKind::DotDot);
    }
    None
}

fn symbol_of_one(byte: u8) -> Option<TokenKind>
    ensures { result ≡ kind_beside (byte ∷ []) symbols_of_one }
{
    match byte {
        b'+' => Some(TokenKind::Plus),
        b'-' => Some(TokenKind::Minus),
        b'*' => Some(TokenKind::Star),
        b'/' => Some(TokenKind::Slash),
        b'=' => Some(TokenKind::Equal),
        b'<' => Some(TokenKind::Less),
        b'>' => Some(TokenKind::Greater),
        b'(' => Some(TokenKind::OpenParenthesis),
        b')' => Some(TokenKind::CloseParenthesis),
        b'[' => Some(TokenKind::OpenBracket),
        b']' => Some(TokenKind::CloseBracket),
        b',' => Some(TokenKind::Comma),
        b';' => Some(TokenKind::Semicolon),
        b':' => Some(TokenKind::Colon),
        b'.' => Some(TokenKind::Dot),
        _ => None,
    }
}

/// The symbol that the first byte is, if it is one.
fn symbol_of_first(bytes: &[u8]) -> Option<TokenKind>
    ensures { result ≡ kind_beside (take 1 bytes.now) symbols_of_one }
{
    match bytes.split_first() {
        Some((first, _)) => symbol_of_one(*first),
        None => None,
    }
}

/// The symbol at the front, the longest that stands there.
pub fn symbol(bytes: &[u8], switches: Switches) -> Front
    requires { class_at bytes.now ≡ class.Symbol }
    ensures { IsFront switches bytes.now result.length result.effect }
{
    if let Some(kind) = symbol_of_two(bytes) {
        return Front {
            length: 2,
            effect: Effect::Gives(kind),
        };
    }
    if let Some(kind) = symbol_of_first(bytes) {
        return Front {
            length: 1,
            effect: Effect::Gives(kind),
        };
    }
    Front {
        length: 0,
        effect: Effect::Breaks(NO_TOKEN),
    }
}

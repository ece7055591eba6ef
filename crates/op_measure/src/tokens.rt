//! The tokens of a text.
ghost use Rattle.std.specs.Prelude.{◌≤◌, length};

use op_base::Refusal;
use op_scan::{ScanError, Switches, Token, TokenKind, Tokens, scan};
use std::alloc::{AllocError, Global};
use std::io;

/// Bytes as characters of the same numbers.
pub fn characters(alloc: Global, bytes: &[u8]) -> Result<String, AllocError> {
    let mut all = String::new(alloc);
    for byte in bytes {
        all.push(char::from(*byte))?;
    }
    Ok(all)
}

/// Identifiers in angles, strings in quotes, numbers, and the other tokens by their kinds.
fn kind(alloc: Global, token: &Token) -> Result<String, AllocError> {
    match &token.kind {
        TokenKind::Identifier(name) => {
            let name = characters(alloc, name.as_slice())?;
            format!(in alloc; "<{name}>")
        }
        TokenKind::Number(value) => format!(in alloc; "{value}"),
        TokenKind::CharacterString(text) => {
            let text = characters(alloc, text.as_slice())?;
            format!(in alloc; "'{text}'")
        }
        word => format!(in alloc; "{word:?}"),
    }
}

/// A line for each token: its place, its kind and the switches that are on there.
fn list(rt: &HostRuntime, tokens: &Tokens) -> io::Result<()> {
    for token in tokens.list.as_slice() {
        let kind = kind(rt.alloc(), token)?;
        let Switches { h, q, r } = token.switches;
        let h = if h { " H" } else { "" };
        let q = if q { " Q" } else { "" };
        let r = if r { " R" } else { "" };
        let place = token.place;
        println!(rt; "{}:{} {kind}{h}{q}{r}", place.line, place.col)?;
    }
    Ok(())
}

/// Scans a text. A text that is refused gives its place and the rule.
pub fn tell(rt: &HostRuntime, name: &str, text: &[u8], lists: bool) -> io::Result<()>
    requires { length text.now ≤ 2147483648 }
{
    match scan(rt.alloc(), text, 0) {
        Ok(tokens) => {
            println!(rt; "{name}: {} tokens", tokens.list.as_slice().len())?;
            if lists {
                list(rt, &tokens)?;
            }
            Ok(())
        }
        Err(ScanError::Refused(Refusal { rule, place })) => println!(rt;
            "{name}:{}:{}: V{}",
            place.line, place.col, rule.number
        ),
        Err(ScanError::NoMemory) => println!(rt; "out of memory"),
    }
}

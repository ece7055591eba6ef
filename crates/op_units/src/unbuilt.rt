//! Constructs that are not built yet and that a word shows.
ghost use Rattle.std.specs.Prelude.{◌≡◌, ◌∷◌};
ghost use Rattle.std.specs.Option.{option_and_then};
ghost use Rattle.op_tree.specs.Ends.{begins_selector};
ghost use Rattle.op_tree.specs.Terminal.{terminal_of, terminals};
ghost use Rattle.op_units.specs.Search.{begun, behind_array, behind_equal, behind_for, behind_string};
ghost use Rattle.op_units.specs.Unbuilt.{FirstUnbuilt, named};

use op_base::{Refusal, Rule};
use op_scan::{Token, TokenKind};

const SHORT_STRING: u8 = 3;

const STRING: u8 = 40;

const ARRAY_WITHOUT_BOUNDS: u8 = 41;

const CLASS: u8 = 42;

const INTERFACE: u8 = 43;

const EXCEPTION: u8 = 44;

/// The first construct that is not built yet, as the refusal of it: rule 13 with its feature, at the word that tells it. None
/// where the tokens have no such construct.
pub fn first_unbuilt(tokens: &[Token]) -> Option<Refusal>
    ensures { FirstUnbuilt (terminals tokens.now) result }
{
    let mut rest = tokens;
    while let Some((_, behind)) = rest.split_first() {
        if let Some(refusal) = begun(rest) {
            return Some(refusal);
        }
        rest = behind;
    }
    None
}

/// The construct that begins at the front of the tokens.
fn begun(tokens: &[Token]) -> Option<Refusal>
    ensures { result ≡ option_and_then named (begun (terminals tokens.now)) }
{
    let (first, rest) = tokens.split_first()?;
    match &first.kind {
        TokenKind::String => string_type(first, rest),
        TokenKind::Array => open_array(first, rest),
        TokenKind::For_ => for_in(rest),
        TokenKind::Nil => Some(told(ARRAY_WITHOUT_BOUNDS, first)),
        TokenKind::Equal => class_or_interface(rest),
        TokenKind::Is | TokenKind::As_ | TokenKind::Inherited => Some(told(CLASS, first)),
        TokenKind::Except | TokenKind::Raise => Some(told(EXCEPTION, first)),
        _ => None,
    }
}

pub fn told(feature: u8, token: &Token) -> Refusal
    ensures { result ≡ record { rule = record { number = 13; feature = feature }; place = (terminal_of token.now).position.place } }
{
    let rule = Rule {
        number: 13,
        feature,
    };
    let place = token.place;
    Refusal { rule, place }
}

/// The word `string`, unless a selector stands behind it.
fn string_type(word: &Token, rest: &[Token]) -> Option<Refusal>
    ensures { result ≡ option_and_then named (behind_string (terminal_of word.now) (terminals rest.now)) }
{
    if let Some((second, _)) = rest.split_first() {
        if begins_selector(&second.kind) {
            return None;
        }
    }
    let feature = if word.switches.h {
        STRING
    } else {
        SHORT_STRING
    };
    Some(told(feature, word))
}

fn begins_selector(kind: &TokenKind) -> bool
    ensures { result ≡ begins_selector kind.now }
{
    matches!(
        kind,
        TokenKind::Dot | TokenKind::OpenBracket | TokenKind::OpenParenthesis
    )
}

/// The word `array`, where `of` stands behind it.
fn open_array(word: &Token, rest: &[Token]) -> Option<Refusal>
    ensures { result ≡ option_and_then named (behind_array (terminal_of word.now) (terminals rest.now)) }
{
    let (second, _) = rest.split_first()?;
    match &second.kind {
        TokenKind::Of => Some(told(ARRAY_WITHOUT_BOUNDS, word)),
        _ => None,
    }
}

/// A name and the word `in`, behind `for`.
fn for_in(tokens: &[Token]) -> Option<Refusal>
    ensures { result ≡ option_and_then named (behind_for (terminals tokens.now)) }
{
    let (variable, rest) = tokens.split_first()?;
    let (word, _) = rest.split_first()?;
    match (&variable.kind, &word.kind) {
        (TokenKind::Identifier(_), TokenKind::In_) => Some(told(ARRAY_WITHOUT_BOUNDS, word)),
        _ => None,
    }
}

/// The words of a class or an interface, behind `=`.
fn class_or_interface(tokens: &[Token]) -> Option<Refusal>
    ensures { result ≡ option_and_then named (behind_equal (terminals tokens.now)) }
{
    let (word, _) = tokens.split_first()?;
    match &word.kind {
        TokenKind::Class => Some(told(CLASS, word)),
        TokenKind::Interface => Some(told(INTERFACE, word)),
        _ => None,
    }
}

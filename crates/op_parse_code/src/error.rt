//! Why tokens have no part.
ghost use Rattle.std.specs.Prelude.{◌≡◌, Err, map};
ghost use Rattle.op_parse_code.specs.Refusal.{Told, place_at, refused_at};
ghost use Rattle.op_tree.specs.Terminal.{terminals};

use op_base::{NoMemory, Place, Refusal, Rule};
use op_scan::Token;
use std::alloc::{AllocError, AllocFailed};
use thiserror::Error;

/// Why tokens have no part.
#[derive(Debug, Drop, Error)]
pub enum ParseError {
    /// Rule 9, 61, or 13 with the feature, and where.
    #[error("refused")]
    Refused(Refusal),
    /// The allocator had no room.
    #[error("out of memory")]
    NoMemory,
}

impl From<NoMemory> for ParseError {
    ghost use Rattle.std.specs.Prelude.{◌≡◌};
    ghost use Rattle.op_parse_code.specs.declared.error.ParseError.{ParseError};

    ghost from_gives = { λ _ error. error ≡ ParseError.NoMemory };

    fn from(_error: NoMemory) -> ParseError {
        ParseError::NoMemory
    }
}

impl From<AllocError> for ParseError {
    ghost use Rattle.std.specs.Prelude.{◌≡◌};
    ghost use Rattle.op_parse_code.specs.declared.error.ParseError.{ParseError};

    ghost from_gives = { λ _ error. error ≡ ParseError.NoMemory };

    fn from(_error: AllocError) -> ParseError {
        ParseError::NoMemory
    }
}

impl<T: Drop> From<AllocFailed<T>> for ParseError {
    ghost use Rattle.std.specs.Prelude.{◌≡◌};
    ghost use Rattle.op_parse_code.specs.declared.error.ParseError.{ParseError};

    ghost from_gives = { λ _ error. error ≡ ParseError.NoMemory };

    fn from(_error: AllocFailed<T>) -> ParseError {
        ParseError::NoMemory
    }
}

/// Features that the profile leaves out and that the grammar has.
pub const FLOATING_POINT: u8 = 1;

pub const FRACTION_WIDTH: u8 = 35;

fn refused_at(number: u8, feature: u8, end: Place, tokens: &[Token]) -> ParseError
    ensures { result ≡ refused_at number feature end (terminals tokens.now) }
{
    let place = match tokens.first() {
        Some(token) => token.place,
        None => end,
    };
    let rule = Rule { number, feature };
    ParseError::Refused(Refusal { rule, place })
}

/// No sentence goes on with the first of these tokens, or ends where there is none.
pub fn syntax(end: Place, tokens: &[Token]) -> ParseError
    ensures { result ≡ refused_at 9 0 end (terminals tokens.now) }
{
    refused_at(9, 0, end, tokens)
}

/// The first of these tokens is nested too deep.
pub fn nested(end: Place, tokens: &[Token]) -> ParseError
    ensures { result ≡ refused_at 61 0 end (terminals tokens.now) }
{
    refused_at(61, 0, end, tokens)
}

/// The first of these tokens tells a form that is left out.
pub fn left_out(feature: u8, end: Place, tokens: &[Token]) -> ParseError
    ensures { result ≡ refused_at 13 feature end (terminals tokens.now) }
{
    refused_at(13, feature, end, tokens)
}

/// The number of the rule that no sentence goes on so.
const SYNTAX: u8 = 9;

/// A refusal; in place of one by rule 9 that by a form that is left out, which the first of these tokens tells.
pub fn told(feature: u8, end: Place, form: &[Token], error: ParseError) -> ParseError
    ensures { Told feature end (terminals form.now) error result }
{
    match error {
        ParseError::Refused(refusal) => {
            if refusal.rule.number == SYNTAX {
                left_out(feature, end, form)
            } else {
                ParseError::Refused(refusal)
            }
        }
        ParseError::NoMemory => ParseError::NoMemory,
    }
}

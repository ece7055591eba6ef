//! Forms that are left out and show among types and parameters.
ghost use Rattle.std.specs.Prelude.{IfSome, IsTrue, ◌≡◌};
ghost use Rattle.op_base.specs.declared.place.Place.{Place};
ghost use Rattle.op_parse_code.specs.Refusal.{place_at};
ghost use Rattle.op_parse_decl.specs.Form.{TypeForm};
ghost use Rattle.op_parse_decl.specs.Refusal.{StandsAt, TellsForm};
ghost use Rattle.op_parse_decl.specs.Opening.{GivesAValue, IsFormOfRecord, IsProcedural};
ghost use Rattle.op_tree.specs.Terminal.{terminals};

use op_base::Place;
use op_parse_code::ParseError;
use op_parse_code::shared::{Mark, behind_mark, is_identifier, told};
use op_scan::{Token, TokenKind};

pub const PROCEDURAL_TYPE: u8 = 6;

const VARIANT_RECORD: u8 = 9;

const RECORD_METHOD: u8 = 10;

pub const DEFAULT_PARAMETER: u8 = 14;

pub const ARRAY_OF_CONST: u8 = 18;

const SHORT_STRING: u8 = 3;

pub const GIVEN_VALUE: u8 = 31;

/// A refusal; in place of one by rule 9 that by a form that is left out, where the tokens `last` begin with the refused one. The first of
/// the tokens `form` tells the form.
pub fn told_at(
    feature: u8,
    end: Place,
    form: &[Token],
    last: &[Token],
    error: ParseError,
) -> ParseError
    ensures { TellsForm feature end (terminals form.now) (terminals last.now) error result }
{
    if refused_there(&error, last) {
        told(feature, end, form, error)
    } else {
        error
    }
}

/// The refusal stands at the first of the tokens.
fn refused_there(error: &ParseError, tokens: &[Token]) -> bool
    ensures { IsTrue result → (end : Place) → StandsAt error.now (place_at end (terminals tokens.now)) }
{
    match error {
        ParseError::Refused(refusal) => stands_at(tokens, refusal.place),
        ParseError::NoMemory => false,
    }
}

/// The first token stands at a place.
pub fn stands_at(tokens: &[Token], place: Place) -> bool
    ensures { IsTrue result → (end : Place) → place ≡ place_at end (terminals tokens.now) }
{
    match tokens.split_first() {
        Some((first, _)) => first.place == place,
        None => false,
    }
}

/// A form that begins as a bound of a subrange does, and the tokens from the one on that tells it.
pub fn form_of_bound(tokens: &[Token]) -> Option<(u8, &[Token])>
    ensures { IfSome result (λ f. TypeForm f.0 (terminals tokens.now) (terminals f.1.now)) }
{
    if is_short_string(tokens) {
        return Some((SHORT_STRING, tokens));
    }
    let inside = behind_mark(Mark::OpenParenthesis, tokens)?;
    let (first, rest) = inside.split_first()?;
    if !is_identifier(&first.kind) {
        return None;
    }
    if gives_value(rest) {
        Some((GIVEN_VALUE, rest))
    } else {
        None
    }
}

/// The word `string` and an opening square bracket stand at the front.
fn is_short_string(tokens: &[Token]) -> bool
    ensures { IsTrue result → TypeForm 3 (terminals tokens.now) (terminals tokens.now) }
{
    let Some((first, rest)) = tokens.split_first() else {
        return false;
    };
    let TokenKind::String = &first.kind else {
        return false;
    };
    match behind_mark(Mark::OpenBracket, rest) {
        Some(_) => true,
        None => false,
    }
}

/// `=` or `:=` stands at the front, as between an enumeration's value and its number.
pub fn gives_value(tokens: &[Token]) -> bool
    ensures { IsTrue result → GivesAValue (terminals tokens.now) }
{
    if let Some(_) = behind_mark(Mark::Equal, tokens) {
        return true;
    }
    match behind_mark(Mark::Assign, tokens) {
        Some(_) => true,
        None => false,
    }
}

/// A token stands at the front, and one that is no name behind it.
pub fn is_procedural(tokens: &[Token]) -> bool
    ensures { IsTrue result → IsProcedural (terminals tokens.now) }
{
    let Some((_, rest)) = tokens.split_first() else {
        return false;
    };
    match rest.split_first() {
        None => false,
        Some((second, _)) => {
            if is_identifier(&second.kind) {
                return false;
            }
            true
        }
    }
}

/// The feature of a record that stands in place of a field, if one does.
pub fn form_of_record(tokens: &[Token]) -> Option<u8>
    ensures { IfSome result (λ feature. IsFormOfRecord feature (terminals tokens.now)) }
{
    let (first, _) = tokens.split_first()?;
    match &first.kind {
        TokenKind::Case => Some(VARIANT_RECORD),
        TokenKind::Procedure => Some(RECORD_METHOD),
        TokenKind::Function => Some(RECORD_METHOD),
        TokenKind::Constructor => Some(RECORD_METHOD),
        TokenKind::Destructor => Some(RECORD_METHOD),
        _ => None,
    }
}

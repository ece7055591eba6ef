//! Forms that are left out and show among statements and expressions: each is told where no sentence goes on with its last token.
ghost use Rattle.std.specs.Prelude.{IfSome, IsTrue, ℕ};
ghost use Rattle.op_parse_decl.specs.Form.{HasForm};
ghost use Rattle.op_parse_decl.specs.Declarations.{WholeFile};
ghost use Rattle.op_parse_decl.specs.Opening.{BeginsAt, HasBehindFirst};
ghost use Rattle.op_parse_decl.specs.Refusal.{RefusesPart};
ghost use Rattle.op_tree.specs.Terminal.{terminals};

use crate::declared_form::{ASSEMBLY, GENERIC, GOTO_OR_LABEL};
use crate::form::{stands_at, told_at};
use crate::part::Setting;
use op_base::Place;
use op_parse_code::ParseError;
use op_parse_code::shared::{Mark, behind_mark, chain, is_identifier, is_number, is_word};
use op_scan::{Token, TokenKind};
use op_tree::Level;

const FLOATING_POINT: u8 = 1;

const WITH: u8 = 15;

const RAISE_AT: u8 = 34;

/// The same refusal of a file; in place of one by rule 9 that by a form, where its last token is refused.
pub fn or_form_in_code(setting: Setting, tokens: &[Token], error: ParseError) -> ParseError
    ensures { (d : ℕ) → RefusesPart WholeFile d setting.end (terminals tokens.now) error → RefusesPart WholeFile d setting.end (terminals tokens.now) result }
{
    match form_ending_at(setting, tokens, place_of(&error)) {
        Some((feature, form, last)) => told_at(feature, setting.end, form, last, error),
        None => error,
    }
}

/// Where a token is refused.
fn place_of(error: &ParseError) -> Option<Place> {
    match error {
        ParseError::Refused(refusal) => Some(refusal.place),
        ParseError::NoMemory => None,
    }
}

/// A form's feature, the tokens from the one on that tells it, and those from its last one on.
type Found<'a> = (u8, &'a [Token], &'a [Token]);

/// A form whose last token stands at a place.
fn form_ending_at<'a>(
    setting: Setting,
    tokens: &'a [Token],
    place: Option<Place>,
) -> Option<Found<'a>>
    ensures { IfSome result (λ f. HasForm f.0 (terminals tokens.now) (terminals f.1.now) (terminals f.2.now)) }
{
    let place = place?;
    let mut rest = tokens;
    while let Some((_, behind)) = rest.split_first() {
        if let Some(found) = form_at(setting, rest, place) {
            return Some(found);
        }
        rest = behind;
    }
    None
}

/// A form at the front whose last token stands at a place.
fn form_at<'a>(setting: Setting, tokens: &'a [Token], place: Place) -> Option<Found<'a>>
    ensures { IfSome result (λ f. HasForm f.0 (terminals tokens.now) (terminals f.1.now) (terminals f.2.now)) }
{
    if stands_at(tokens, place) {
        let feature = form_of_word(tokens)?;
        return Some((feature, tokens, tokens));
    }
    if let Some(form) = raise_at(setting, tokens, place) {
        return Some((RAISE_AT, form, form));
    }
    let (_, rest) = tokens.split_first()?;
    if !stands_at(rest, place) {
        return None;
    }
    if is_fraction(tokens) {
        return Some((FLOATING_POINT, tokens, rest));
    }
    if is_specialized(tokens) {
        return Some((GENERIC, tokens, rest));
    }
    None
}

/// The feature of a statement that begins with a word of its own.
fn form_of_word(tokens: &[Token]) -> Option<u8>
    ensures { IfSome result (λ feature. HasForm feature (terminals tokens.now) (terminals tokens.now) (terminals tokens.now)) }
{
    let (first, _) = tokens.split_first()?;
    match &first.kind {
        TokenKind::With => Some(WITH),
        TokenKind::Goto => Some(GOTO_OR_LABEL),
        TokenKind::Asm => Some(ASSEMBLY),
        TokenKind::Inline => Some(ASSEMBLY),
        _ => None,
    }
}

/// The tokens from the word `at` on, where it stands at a place behind `raise` and an expression.
fn raise_at<'a>(setting: Setting, tokens: &'a [Token], place: Place) -> Option<&'a [Token]>
    ensures { IfSome result (λ form. HasForm 34 (terminals tokens.now) (terminals form.now) (terminals form.now)) }
{
    let (first, rest) = tokens.split_first()?;
    let TokenKind::Raise = &first.kind else {
        return None;
    };
    let Ok((_, form)) = chain(
        setting.alloc,
        Level::Relational,
        setting.left,
        setting.end,
        rest,
    ) else {
        return None;
    };
    let found = at_word(form, place)?;
    Some(found)
}

/// The tokens, where they begin with the word `at` at a place.
fn at_word(tokens: &[Token], place: Place) -> Option<&[Token]>
    ensures { IfSome result (λ form. BeginsAt (terminals tokens.now) (terminals form.now)) }
{
    let (first, _) = tokens.split_first()?;
    if !is_word(b"at", &first.kind) {
        return None;
    }
    if stands_at(tokens, place) {
        Some(tokens)
    } else {
        None
    }
}

/// A number, a dot and a number stand at the front.
fn is_fraction(tokens: &[Token]) -> bool
    ensures { IsTrue result → HasBehindFirst 1 (terminals tokens.now) }
{
    let Some((first, rest)) = tokens.split_first() else {
        return false;
    };
    let Some(rest) = behind_mark(Mark::Dot, rest) else {
        return false;
    };
    let Some((second, _)) = rest.split_first() else {
        return false;
    };
    is_number(&first.kind) && is_number(&second.kind)
}

/// The word `specialize` and a name stand at the front.
fn is_specialized(tokens: &[Token]) -> bool
    ensures { IsTrue result → HasBehindFirst 29 (terminals tokens.now) }
{
    let Some((first, rest)) = tokens.split_first() else {
        return false;
    };
    let Some((second, _)) = rest.split_first() else {
        return false;
    };
    is_word(b"specialize", &first.kind) && is_identifier(&second.kind)
}
